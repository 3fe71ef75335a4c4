//! What is shown for a message, and for an input.
ghost use Rattle.std.specs.Prelude.{◌≡◌, ◌⊎◌, ◌<◌, OnOk, IfErr, IsOk, Some, None, string_bytes, if◌then◌else◌};
ghost use Rattle.std.specs.String.{string_len};
ghost use Rattle.capnp_frame.specs.declared.error.ErrorKind.{ErrorKind};
ghost use Rattle.capnp_frame.specs.Prelude.{Fails};
ghost use Rattle.capnp_show.specs.Shown.{WritesFull};

use crate::drawing::{is_drawn, show_drawing};
use crate::drawn::Anchor;
use crate::hash::hash_of;
use crate::listing::Listed;
use crate::settings::{Form, Settings};
use crate::tree::{Node, Walk};
use crate::{html, json, listing};
use capnp::Result;
use capnp::io::Write;
use capnp::message::{Reader, ReaderSegments};
use capnp::streams::Format;
use std::alloc::Global;

// Output of this many bytes or more is written to the sink.
const OUTPUT_BYTES: usize = 32768;

/// How an input is shown.
#[derive(Clone, Copy)]
pub struct Showing<'a> {
    pub settings: Settings,
    pub format: Format,
    /// The number of the input, from 0 on.
    pub input: u64,
    pub name: &'a str,
    /// Whether the name is put in front of each line.
    pub is_named: bool,
}

impl<'a> Showing<'a> {
    // What is put in front of each line.
    fn front(self) -> Option<&'a str>
        ensures { result ≡ (if self.entry.is_named then Some self.entry.name else None) }
    {
        if self.is_named { Some(self.name) } else { None }
    }
}

/// Shows one message, if messages are shown, and not counted or converted.
pub fn show_message<S: ReaderSegments, W: Write>(
    alloc: Global,
    showing: Showing<'_>,
    listed: &Listed,
    message: &Reader<S>,
    output: &mut String,
    sink: &mut W,
) -> Result<()> {
    output.clear();
    match showing.settings.form {
        Form::Count | Form::Converted(_) => return Ok(()),
        Form::Lines => show_lines(alloc, showing, listed, message, output, sink)?,
        Form::Json => show_json(alloc, showing, listed, message, output, sink)?,
        Form::Html => show_section(alloc, showing, listed, message, output, sink)?,
    }
    output.push('\n')?;
    sink.write_all(output.as_bytes())
}

// Shows one message as lines, without the end of the last line.
fn show_lines<S: ReaderSegments, W: Write>(
    alloc: Global,
    showing: Showing<'_>,
    listed: &Listed,
    message: &Reader<S>,
    output: &mut String,
    sink: &mut W,
) -> Result<()> {
    listing::push_name(output, showing.front())?;
    listing::push_listed(output, listed)?;
    if showing.settings.has_hash {
        listing::push_hash(output, &hash_of(alloc, message)?)?;
    }
    if showing.settings.has_tree {
        show_tree(
            alloc,
            showing.settings,
            message.get_segments(),
            output,
            sink,
        )?;
    }
    Ok(())
}

// Shows one message as a JSON object.
fn show_json<S: ReaderSegments, W: Write>(
    alloc: Global,
    showing: Showing<'_>,
    listed: &Listed,
    message: &Reader<S>,
    output: &mut String,
    sink: &mut W,
) -> Result<()> {
    json::push_file(output, showing.name)?;
    json::push_listed(output, listed)?;
    if showing.settings.has_hash {
        json::push_hash(output, &hash_of(alloc, message)?)?;
    }
    if showing.settings.has_tree {
        output.push_str(",\"tree\":[")?;
        show_tree(
            alloc,
            showing.settings,
            message.get_segments(),
            output,
            sink,
        )?;
        output.push(']')?;
    }
    output.push('}')?;
    Ok(())
}

// Shows one message as a section of a page, without the end of its last line.
fn show_section<S: ReaderSegments, W: Write>(
    alloc: Global,
    showing: Showing<'_>,
    listed: &Listed,
    message: &Reader<S>,
    output: &mut String,
    sink: &mut W,
) -> Result<()> {
    let anchor = Anchor {
        input: showing.input,
        message: listed.index,
    };
    html::push_section(output, anchor)?;
    listing::push_listed(output, listed)?;
    if showing.settings.has_hash {
        listing::push_hash(output, &hash_of(alloc, message)?)?;
    }
    output.push_str("</h2>\n")?;
    if is_drawn(listed.words) {
        let segments = message.get_segments();
        show_drawing(
            alloc,
            showing.settings.limits,
            anchor,
            segments,
            output,
            sink,
        )?;
    } else {
        html::push_large(output)?;
    }
    output.push_str("</section>")?;
    Ok(())
}

// Shows the objects of a message, and writes them part by part.
fn show_tree<S: ReaderSegments, W: Write>(
    alloc: Global,
    settings: Settings,
    segments: &S,
    output: &mut String,
    sink: &mut W,
) -> Result<()> {
    let mut walk = Walk::new(alloc, settings.limits)?;
    for count in 0..u64::MAX {
        let Some(node) = walk.next(segments)? else {
            break;
        };
        show_node(settings, count, segments, &node, output, sink)?;
    }
    Ok(())
}

// Shows a node of this number.
fn show_node<S: ReaderSegments, W: Write>(
    settings: Settings,
    number: u64,
    segments: &S,
    node: &Node,
    output: &mut String,
    sink: &mut W,
) -> Result<()> {
    if matches!(settings.form, Form::Json) {
        if number > 0 {
            output.push(',')?;
        }
        json::push_node(output, segments, node)?;
    } else {
        output.push('\n')?;
        listing::push_node(output, segments, node)?;
    }
    write_full(output, sink)
}

/// Writes output that has grown to `OUTPUT_BYTES`, and clears it; shorter output is left unchanged.
pub fn write_full<W: Write>(output: &mut String, sink: &mut W) -> Result<()>
    ensures short { OnOk result (string_len output.new < OUTPUT_BYTES) }
    ensures writes { OnOk result (WritesFull OUTPUT_BYTES W.appends (string_bytes output.old)
        (string_bytes output.new) (W.written sink.old) (W.written sink.new)) }
    ensures fits { string_len output.old < OUTPUT_BYTES → IsOk result }
    ensures errors { IfErr result (λ error. (error.kind ≡ ErrorKind.DeviceFailed)
        ⊎ W.refuses (string_bytes output.old) error.kind) }
    ensures failed { IfErr result (λ error. error.kind ≡ ErrorKind.DeviceFailed →
        Fails (W.failures sink.old) (W.failures sink.new)) }
{
    if output.len() >= OUTPUT_BYTES {
        sink.write_all(output.as_bytes())?;
        output.clear();
    }
    Ok(())
}

/// Shows how many messages there are.
pub fn show_count<W: Write>(
    showing: Showing<'_>,
    count: u64,
    output: &mut String,
    sink: &mut W,
) -> Result<()> {
    output.clear();
    listing::push_name(output, showing.front())?;
    listing::push_count(output, count)?;
    output.push('\n')?;
    sink.write_all(output.as_bytes())
}
