//! Messages as lines.
ghost use Rattle.std.specs.Prelude.{◌≡◌, ◌++◌, [], MatchOption, OnOk, codes, decimal, string_bytes};
ghost use Rattle.capnp_show.specs.Hashes.{IfHash};
ghost use Rattle.capnp_show.specs.Output.{AddsEscaped, element_name, number_name, with_number, listed_line};

use crate::errors::{push_error, sentence};
use crate::escapes::{push_escaped, push_quoted, text_in};
use crate::hash::Hash;
use crate::numbers::{push_counted, push_decimal};
use crate::objects::{Object, bytes_of, words_of_landing_pad};
use crate::tree::{Found, Label, Node};
use capnp::layout::{Body, ElementSize, Place, StructSize};
use capnp::message::ReaderSegments;
use std::alloc::AllocError;
use std::fmt::Write;

/// Where a message is, and how large it is.
#[derive(Clone, Copy)]
pub struct Listed {
    /// Its number in the input, from 0 on.
    pub index: u64,
    /// How many bytes of the input come before it.
    pub offset: u64,
    /// How many bytes of the input it has.
    pub bytes: u64,
    pub segments: u64,
    /// The number of words of all segments.
    pub words: u64,
}

/// Adds what comes in front of a line.
#[tactic(auto, using(crate::proofs::JoinedAddedStringsLemmas::escaped_between))]
pub fn push_name(line: &mut String, name: Option<&str>) -> Result<(), AllocError>
    ensures { OnOk result (MatchOption name.entry (string_bytes line.new ≡ string_bytes line.old)
        (λ shown. AddsEscaped [] shown.now (codes ": ") (string_bytes line.old) (string_bytes line.new))) }
{
    if let Some(name) = name {
        push_escaped(line, name)?;
        line.push_str(": ")?;
    }
    Ok(())
}

/// Adds what is listed for a message, without the end of the line.
pub fn push_listed(line: &mut String, listed: &Listed) -> Result<(), AllocError>
    ensures { OnOk result (string_bytes line.new ≡ string_bytes line.old ++ listed_line listed.now) }
{
    push_counted(line, "message ", listed.index)?;
    push_counted(line, ": offset ", listed.offset)?;
    push_counted(line, ", bytes ", listed.bytes)?;
    push_counted(line, ", segments ", listed.segments)?;
    push_counted(line, ", words ", listed.words)
}

/// Adds the hash of a canonical form, or why there is none.
pub fn push_hash(line: &mut String, hash: &Hash) -> Result<(), AllocError>
    ensures { IfHash hash.now (λ shown. OnOk result (string_bytes line.new
        ≡ string_bytes line.old ++ (codes ", sha256 " ++ shown))) }
{
    match hash {
        Hash::Of(hash) => write!(line, ", sha256 {hash}"),
        Hash::WithoutForm(kind) => {
            let said = sentence(*kind);
            write!(line, ", no canonical form: {said} ({kind})")
        }
    }
}

/// Adds a number of messages.
pub fn push_count(line: &mut String, count: u64) -> Result<(), AllocError>
    ensures { OnOk result (string_bytes line.new ≡ string_bytes line.old ++ decimal count) }
{
    push_decimal(line, count)
}

/// Adds the line of a node, without its end.
pub fn push_node<S: ReaderSegments>(
    line: &mut String,
    segments: &S,
    node: &Node,
) -> Result<(), AllocError> {
    for _ in 0..node.depth.saturating_add(1) {
        line.push_str("  ")?;
    }
    push_unindented(line, segments, node)
}

/// Adds the line of a node, without the blanks at its front and its end.
pub fn push_unindented<S: ReaderSegments>(
    line: &mut String,
    segments: &S,
    node: &Node,
) -> Result<(), AllocError> {
    match node.label {
        Label::Root => line.push_str("root: ")?,
        Label::Pointer(index) => {
            push_counted(line, "pointer ", index)?;
            line.push_str(": ")?;
        }
        Label::Element(index) => {
            push_counted(line, "element ", index)?;
            line.push_str(": ")?;
        }
    }
    push_found(line, segments, node.found)
}

// Adds what was found at a node.
fn push_found<S: ReaderSegments>(
    line: &mut String,
    segments: &S,
    found: Found,
) -> Result<(), AllocError> {
    match found {
        Found::Null => line.push_str("null"),
        Found::Object(object) => push_object(line, segments, &object),
        Found::Element(place, size) => {
            line.push_str("struct")?;
            push_size(line, size)?;
            push_place(line, place)
        }
        Found::Invalid(kind) => push_error(line, kind),
    }
}

// Adds an object: what it is, where it begins, and its text if it is one.
fn push_object<S: ReaderSegments>(
    line: &mut String,
    segments: &S,
    object: &Object,
) -> Result<(), AllocError> {
    let name = name_of(object.body);
    match object.body {
        Body::Struct(size) => {
            line.push_str(name)?;
            push_size(line, size)?;
        }
        Body::Numbers(_, count) | Body::Pointers(count) => push_list(line, name, count)?,
        Body::Structs(elements, _) => {
            push_list(line, name, elements.count)?;
            push_size(line, elements.size)?;
        }
    }
    push_place(line, object.start)?;
    if let Some(far) = object.far {
        push_counted(line, ", landing pad ", u64::from(far.landing_pad.segment))?;
        push_counted(line, ":", far.landing_pad.word as u64)?;
        push_counted(line, ", words ", words_of_landing_pad(far))?;
    }
    if let Some(shown) = bytes_of(segments, object).and_then(text_in) {
        line.push_str(", text ")?;
        push_quoted(line, shown)?;
    }
    Ok(())
}

/// The name of a list's elements, and of a struct.
pub fn name_of(body: Body) -> &'static str
    ensures { result.now ≡ element_name body }
{
    match body {
        Body::Struct(_) | Body::Structs(_, _) => "struct",
        Body::Numbers(size, _) => name_of_number(size),
        Body::Pointers(_) => "pointer",
    }
}

// The name of numbers in a list.
fn name_of_number(size: ElementSize) -> &'static str
    ensures { result.now ≡ number_name size }
{
    match size {
        ElementSize::Void => "void",
        ElementSize::Bit => "bit",
        ElementSize::Byte => "byte",
        ElementSize::TwoBytes => "2 bytes",
        ElementSize::FourBytes => "4 bytes",
        ElementSize::EightBytes => "8 bytes",
    }
}

// Adds a list: what its elements are, and how many there are.
fn push_list(line: &mut String, name: &str, count: u32) -> Result<(), AllocError>
    ensures { OnOk result (string_bytes line.new ≡ string_bytes line.old
        ++ (codes "list, element " ++ (name.now ++ with_number (codes ", count ") count))) }
{
    line.push_str("list, element ")?;
    line.push_str(name)?;
    push_counted(line, ", count ", u64::from(count))
}

// Adds the words of a struct.
fn push_size(line: &mut String, size: StructSize) -> Result<(), AllocError>
    ensures { OnOk result (string_bytes line.new ≡ string_bytes line.old
        ++ (with_number (codes ", data ") size.data_words
        ++ with_number (codes ", pointers ") size.pointers)) }
{
    push_counted(line, ", data ", size.data_words as u64)?;
    push_counted(line, ", pointers ", size.pointers as u64)
}

// Adds a place, by its segment and its word.
fn push_place(line: &mut String, place: Place) -> Result<(), AllocError>
    ensures { OnOk result (string_bytes line.new ≡ string_bytes line.old
        ++ (with_number (codes ", at ") place.segment ++ with_number (codes ":") place.word)) }
{
    push_counted(line, ", at ", u64::from(place.segment))?;
    push_counted(line, ":", place.word as u64)
}
