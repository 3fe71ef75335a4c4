//! Messages as JSON.
ghost use Rattle.std.specs.Prelude.{◌≡◌, ◌++◌, OnOk, codes, string_bytes};
ghost use Rattle.capnp_show.specs.Hashes.{IfHash};
ghost use Rattle.capnp_show.specs.Output.{AddsEscaped, with_number, member, listed_members};

use crate::errors::sentence;
use crate::escapes::{push_quoted, text_in};
use crate::hash::Hash;
use crate::listing::{Listed, name_of};
use crate::numbers::push_counted;
use crate::objects::{Object, bytes_of, words_of_landing_pad};
use crate::tree::{Found, Label, Node};
use capnp::layout::{Body, Place, StructSize};
use capnp::message::ReaderSegments;
use std::alloc::AllocError;
use std::fmt::Write;

/// Adds the front of an object: the file's name.
#[tactic(auto, using(crate::proofs::JoinedAddedStringsLemmas::escaped_between))]
pub fn push_file(line: &mut String, name: &str) -> Result<(), AllocError>
    ensures { OnOk result (AddsEscaped (codes "{\"file\":\"") name.now (codes "\"")
        (string_bytes line.old) (string_bytes line.new)) }
{
    line.push_str("{\"file\":")?;
    push_quoted(line, name)
}

/// Adds what is listed for a message.
pub fn push_listed(line: &mut String, listed: &Listed) -> Result<(), AllocError>
    ensures { OnOk result (string_bytes line.new
        ≡ string_bytes line.old ++ listed_members listed.now) }
{
    push_number(line, "index", listed.index)?;
    push_number(line, "offset", listed.offset)?;
    push_number(line, "bytes", listed.bytes)?;
    push_number(line, "segments", listed.segments)?;
    push_number(line, "words", listed.words)
}

/// Adds the hash of a canonical form, or why there is none.
pub fn push_hash(line: &mut String, hash: &Hash) -> Result<(), AllocError>
    ensures { IfHash hash.now (λ shown. OnOk result (string_bytes line.new
        ≡ string_bytes line.old ++ (codes ",\"sha256\":\"" ++ (shown ++ codes "\"")))) }
{
    match hash {
        Hash::Of(hash) => write!(line, ",\"sha256\":\"{hash}\""),
        Hash::WithoutForm(kind) => {
            let said = sentence(*kind);
            write!(
                line,
                ",\"sha256\":null,\"no_canonical_form\":\"{said} ({kind})\""
            )
        }
    }
}

/// Adds a number to an object that has other members already.
pub fn push_number(line: &mut String, name: &str, number: u64) -> Result<(), AllocError>
    ensures { OnOk result (string_bytes line.new ≡ string_bytes line.old ++ member name.now number) }
{
    line.push_str(",\"")?;
    line.push_str(name)?;
    push_counted(line, "\":", number)
}

/// Adds the object of a node.
pub fn push_node<S: ReaderSegments>(
    line: &mut String,
    segments: &S,
    node: &Node,
) -> Result<(), AllocError> {
    push_counted(line, "{\"depth\":", node.depth)?;
    match node.label {
        Label::Root => line.push_str(",\"label\":\"root\"")?,
        Label::Pointer(index) => push_counted(line, ",\"label\":\"pointer\",\"index\":", index)?,
        Label::Element(index) => push_counted(line, ",\"label\":\"element\",\"index\":", index)?,
    }
    push_found(line, segments, node.found)?;
    line.push('}')
}

// Adds what was found at a node.
fn push_found<S: ReaderSegments>(
    line: &mut String,
    segments: &S,
    found: Found,
) -> Result<(), AllocError> {
    match found {
        Found::Null => line.push_str(",\"kind\":\"null\""),
        Found::Object(object) => push_object(line, segments, &object),
        Found::Element(place, size) => {
            line.push_str(",\"kind\":\"struct\"")?;
            push_size(line, size)?;
            push_place(line, place)
        }
        Found::Invalid(kind) => {
            let said = sentence(kind);
            write!(line, ",\"kind\":\"refused\",\"why\":\"{said} ({kind})\"")
        }
    }
}

// Adds an object: what it is, where it begins, and its text if it is one.
fn push_object<S: ReaderSegments>(
    line: &mut String,
    segments: &S,
    object: &Object,
) -> Result<(), AllocError> {
    let name = name_of(object.body);
    match object.body {
        Body::Struct(size) => {
            line.push_str(",\"kind\":\"struct\"")?;
            push_size(line, size)?;
        }
        Body::Numbers(_, count) | Body::Pointers(count) => push_list(line, name, count)?,
        Body::Structs(elements, _) => {
            push_list(line, name, elements.count)?;
            push_size(line, elements.size)?;
        }
    }
    push_place(line, object.start)?;
    if let Some(far) = object.far {
        let words = words_of_landing_pad(far);
        push_counted(line, ",\"landing_pad\":{\"words\":", words)?;
        push_place(line, far.landing_pad)?;
        line.push('}')?;
    }
    if let Some(shown) = bytes_of(segments, object).and_then(text_in) {
        line.push_str(",\"text\":")?;
        push_quoted(line, shown)?;
    }
    Ok(())
}

// Adds a list: what its elements are, and how many there are.
fn push_list(line: &mut String, name: &str, count: u32) -> Result<(), AllocError>
    ensures { OnOk result (string_bytes line.new ≡ string_bytes line.old
        ++ (codes ",\"kind\":\"list\",\"element\":\"" ++ (name.now
        ++ with_number (codes "\",\"count\":") count))) }
{
    line.push_str(",\"kind\":\"list\",\"element\":\"")?;
    line.push_str(name)?;
    push_counted(line, "\",\"count\":", u64::from(count))
}

// Adds the words of a struct.
fn push_size(line: &mut String, size: StructSize) -> Result<(), AllocError>
    ensures { OnOk result (string_bytes line.new ≡ string_bytes line.old
        ++ (member (codes "data") size.data_words ++ member (codes "pointers") size.pointers)) }
{
    push_number(line, "data", size.data_words as u64)?;
    push_number(line, "pointers", size.pointers as u64)
}

// Adds a place, by its segment and its word.
fn push_place(line: &mut String, place: Place) -> Result<(), AllocError>
    ensures { OnOk result (string_bytes line.new ≡ string_bytes line.old
        ++ (member (codes "segment") place.segment ++ member (codes "word") place.word)) }
{
    push_number(line, "segment", u64::from(place.segment))?;
    push_number(line, "word", place.word as u64)
}
