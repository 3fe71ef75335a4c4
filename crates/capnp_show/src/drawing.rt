//! The drawings of a page.
ghost use Rattle.std.specs.Prelude.{◌↔◌, ◌≤◌, IsTrue};

use crate::arrows::Grid;
use crate::drawn::{Anchor, Drawn, ROW_WORDS, push_row};
use crate::html::{push_no_root, push_object, push_part};
use crate::listing::push_unindented;
use crate::objects::moved;
use crate::owners::{MOST_NODES, Owners, Word};
use crate::shown::write_full;
use crate::tree::{Found, Node, Walk};
use capnp::Result;
use capnp::io::Write;
use capnp::layout::Place;
use capnp::message::{ReaderOptions, ReaderSegments};
use std::alloc::Global;

// The most words of a message that is drawn.
const MOST_WORDS: u64 = 4096;

/// Whether a message of this many words is drawn.
pub fn is_drawn(words: u64) -> bool
    ensures { IsTrue result ↔ (words ≤ MOST_WORDS) }
{
    words <= MOST_WORDS
}

/// Shows the drawing of a message, and the list of its objects.
pub fn show_drawing<S: ReaderSegments, W: Write>(
    alloc: Global,
    limits: ReaderOptions,
    anchor: Anchor,
    segments: &S,
    markup: &mut String,
    sink: &mut W,
) -> Result<()> {
    let owners = Owners::of_message(alloc, limits, segments)?;
    show_words(alloc, anchor, &owners, markup, sink)?;
    if let Some(kind) = owners.no_root() {
        push_no_root(markup, kind)?;
    }
    show_objects(alloc, limits, segments, markup, sink)
}

// Shows the words of a message, segment by segment.
fn show_words<W: Write>(
    alloc: Global,
    anchor: Anchor,
    owners: &Owners,
    markup: &mut String,
    sink: &mut W,
) -> Result<()> {
    let grid = Grid::new(alloc, owners)?;
    let drawn = Drawn {
        anchor,
        owners,
        grid: &grid,
    };
    markup.push_str("<div class=\"drawing\">\n")?;
    let mut segment: u32 = 0;
    for words in owners.segments() {
        show_segment(drawn, segment, words.as_slice(), markup, sink)?;
        segment = segment.saturating_add(1);
    }
    markup.push_str("</div>\n")?;
    Ok(())
}

// Shows the words of a segment.
fn show_segment<W: Write>(
    drawn: Drawn<'_>,
    segment: u32,
    words: &[Word],
    markup: &mut String,
    sink: &mut W,
) -> Result<()> {
    push_part(markup, segment, words.len())?;
    let mut first = Place { segment, word: 0 };
    for row in words.chunks(ROW_WORDS) {
        push_row(markup, drawn, first, row)?;
        first = moved(first, ROW_WORDS as u64);
        write_full(markup, sink)?;
    }
    markup.push_str("</table>\n</div>\n")?;
    Ok(())
}

// Shows an object of this number. `line` is scratch space.
fn show_object<S: ReaderSegments, W: Write>(
    segments: &S,
    node: &Node,
    number: u64,
    line: &mut String,
    markup: &mut String,
    sink: &mut W,
) -> Result<()> {
    line.clear();
    push_unindented(line, segments, node)?;
    push_object(markup, number, line.as_str())?;
    write_full(markup, sink)
}

// Shows the objects of a message, one by one.
fn show_objects<S: ReaderSegments, W: Write>(
    alloc: Global,
    limits: ReaderOptions,
    segments: &S,
    markup: &mut String,
    sink: &mut W,
) -> Result<()> {
    let mut walk = Walk::new(alloc, limits)?;
    let mut line = String::new(alloc);
    let mut objects: u64 = 0;
    markup.push_str("<ol class=\"objects\" start=\"0\">\n")?;
    for _ in 0..MOST_NODES {
        let Some(node) = walk.next(segments)? else {
            markup.push_str("</ol>\n")?;
            return Ok(());
        };
        if let Found::Object(_) = node.found {
            show_object(segments, &node, objects, &mut line, markup, sink)?;
            objects = objects.saturating_add(1);
        }
    }
    markup.push_str("</ol>\n")?;
    if walk.next(segments)?.is_some() {
        markup.push_str("<p class=\"more\">Only the first 65536 nodes are drawn.</p>\n")?;
    }
    Ok(())
}
