//! `Text` and `Data`.
ghost use Rattle.std.specs.Prelude.{◌≡◌, ◌+◌, ◌≤◌, ◌++◌, ◌∷◌, [], ℕ, List, length, take, drop, MatchOption, MatchResult};
ghost use Rattle.capnp_layout.specs.Prelude.{numbers, nothing};
ghost use Rattle.capnp_wire.specs.Prelude.{Denotes, Pointer, IsText, TakesText, TakesNumbers, TextFormError, NumbersFormError, form_of};
ghost use Rattle.capnp_c.specs.Entering.{pointer_among, Enters};
ghost use Rattle.capnp_c.specs.Reading.{EnterError, ReadError, TakesOff, ShowsText, ShowsData};
ghost use Rattle.capnp_c.specs.ReadingExports.{Follows};

use crate::reading::INVALID_ARGUMENT;
use crate::reading::entered::{Entered, enter};
use crate::reading::fast_path::{ObjectKind, enter_far_bytes, enter_local};
use crate::reading::place::LinsjoarPlace;
use crate::reading::reader::LinsjoarReader;
use crate::reading::segments::MessageSegments;
use capnp_frame::{Error, ErrorKind, Result};
use capnp_layout::element_size::ElementSize;

// Bytes of a message, and how many words may still be visited after them.
#[derive(Clone, Copy)]
struct Blob {
    start: usize,
    len: usize,
    words_left: usize,
}

/// Reads the `Text` that a pointer points to, and counts it against the traversal limit. It tells
/// how many bytes of the message are before it, and how many it has without the zero byte that ends
/// it. Null is an empty one.
///
/// Returns `InvalidArgument` (27) where the reader is not one of these bytes, and the number of the
/// pointer's error where it points to no object. Returns `ReadLimitExceeded` (20) where the limit is
/// passed, `WrongPointerKind` (22) for an object that is no list of bytes, and `TextNotTerminated`
/// (23) where no zero byte ends it. Then nothing is counted.
#[unsafe(no_mangle)]
pub extern "C" fn linsjoar_text(
    bytes: &[u8],
    reader: &mut LinsjoarReader,
    pointer: &LinsjoarPlace,
    start: &mut usize,
    len: &mut usize,
) -> u32
    ensures { Follows reader.old reader.new bytes.now pointer.now
        (λ place. ShowsText place bytes.now start.new len.new)
        TakesText TextFormError ((start.new ≡ 0) × (len.new ≡ 0)) result }
{
    *start = 0;
    *len = 0;
    let Some(segments) = reader.segments_in(bytes) else {
        return INVALID_ARGUMENT;
    };
    match text_at(&segments, bytes, reader, pointer) {
        Ok(text) => {
            *start = text.start;
            *len = text.len;
            reader.words_left = text.words_left;
            0
        }
        Err(error) => error.kind.number() as u32,
    }
}

/// Reads the `Data` that a pointer points to, as `linsjoar_text` reads a `Text`. Any byte may end it,
/// so `TextNotTerminated` is never returned.
#[unsafe(no_mangle)]
pub extern "C" fn linsjoar_data(
    bytes: &[u8],
    reader: &mut LinsjoarReader,
    pointer: &LinsjoarPlace,
    start: &mut usize,
    len: &mut usize,
) -> u32
    ensures { Follows reader.old reader.new bytes.now pointer.now
        (λ place. ShowsData place bytes.now start.new len.new)
        (TakesNumbers 2) (NumbersFormError 2) ((start.new ≡ 0) × (len.new ≡ 0)) result }
{
    *start = 0;
    *len = 0;
    let Some(segments) = reader.segments_in(bytes) else {
        return INVALID_ARGUMENT;
    };
    match data_at(&segments, bytes, reader, pointer) {
        Ok(blob) => {
            *start = blob.start;
            *len = blob.len;
            reader.words_left = blob.words_left;
            0
        }
        Err(error) => error.kind.number() as u32,
    }
}

fn text_at(
    segments: &MessageSegments,
    bytes: &[u8],
    reader: &LinsjoarReader,
    pointer: &LinsjoarPlace,
) -> Result<Blob>
    requires { segments.now.bytes.now ≡ bytes.now }
    ensures { let place = pointer_among segments.now reader.now pointer.now in MatchResult result
        (λ text. ShowsText place bytes.now text.start text.len × TakesOff place text.words_left)
        (λ error. ReadError place TextFormError error.kind) }
{
    match enter_bytes(segments, reader, pointer)? {
        Some(entered) => text_of(&entered, bytes),
        None => Ok(no_bytes(reader)),
    }
}

fn data_at(
    segments: &MessageSegments,
    bytes: &[u8],
    reader: &LinsjoarReader,
    pointer: &LinsjoarPlace,
) -> Result<Blob>
    requires { segments.now.bytes.now ≡ bytes.now }
    ensures { let place = pointer_among segments.now reader.now pointer.now in MatchResult result
        (λ blob. ShowsData place bytes.now blob.start blob.len × TakesOff place blob.words_left)
        (λ error. ReadError place (NumbersFormError 2) error.kind) }
{
    match enter_bytes(segments, reader, pointer)? {
        Some(entered) => blob_of(&entered, bytes),
        None => Ok(no_bytes(reader)),
    }
}

// The object that the pointer at a place points to, as `enter` finds it: a list of bytes in the
// segment of its pointer is found without a call.
#[inline(always)]
fn enter_bytes<'a>(
    segments: &'a MessageSegments<'a>,
    reader: &LinsjoarReader,
    pointer: &LinsjoarPlace,
) -> Result<Option<Entered<'a>>>
    ensures { let place = pointer_among segments.now reader.now pointer.now in MatchResult result
        (λ found. MatchOption found (Denotes place nothing)
        (λ entered. Enters place segments.now.bytes.now entered))
        (λ error. EnterError place error.kind) }
{
    if let Some(entered) = enter_local(segments, reader, pointer, ObjectKind::Bytes) {
        return Ok(Some(entered));
    }
    enter_elsewhere(segments, reader, pointer)
}

#[inline(never)]
fn enter_elsewhere<'a>(
    segments: &'a MessageSegments<'a>,
    reader: &LinsjoarReader,
    pointer: &LinsjoarPlace,
) -> Result<Option<Entered<'a>>>
    ensures { let place = pointer_among segments.now reader.now pointer.now in MatchResult result
        (λ found. MatchOption found (Denotes place nothing)
        (λ entered. Enters place segments.now.bytes.now entered))
        (λ error. EnterError place error.kind) }
{
    if let Some(entered) = enter_far_bytes(segments, reader, pointer) {
        return Ok(Some(entered));
    }
    enter(segments, reader, pointer)
}

// No bytes, as for null.
fn no_bytes(reader: &LinsjoarReader) -> Blob
    ensures { result ≡ record { start = 0; len = 0; words_left = reader.now.words_left } }
{
    Blob {
        start: 0,
        len: 0,
        words_left: reader.words_left,
    }
}

// The bytes of a list of bytes.
fn blob_of(entered: &Entered, bytes: &[u8]) -> Result<Blob>
    requires { (place : Pointer) × Enters place bytes.now entered.now }
    ensures { MatchResult result
        (λ blob. (form_of entered.now.object ≡ numbers 2 (take blob.len (drop blob.start bytes.now)))
        × (blob.start + blob.len ≤ length bytes.now)
        × (blob.words_left ≡ entered.now.words_left))
        (λ error. NumbersFormError 2 (form_of entered.now.object) error.kind) }
{
    match entered.object.body.count_of(ElementSize::Byte) {
        Some(count) => Ok(Blob {
            start: entered.start,
            len: count as usize,
            words_left: entered.words_left,
        }),
        None => Err(Error::from_kind(ErrorKind::WrongPointerKind)),
    }
}

// The bytes of a list of bytes before the zero byte that ends it.
fn text_of(entered: &Entered, bytes: &[u8]) -> Result<Blob>
    requires { (place : Pointer) × Enters place bytes.now entered.now }
    ensures { MatchResult result
        (λ text. IsText (form_of entered.now.object) (take text.len (drop text.start bytes.now))
        × (text.start + text.len ≤ length bytes.now)
        × (text.words_left ≡ entered.now.words_left))
        (λ error. TextFormError (form_of entered.now.object) error.kind) }
{
    let blob = blob_of(entered, bytes)?;
    match before_zero(&bytes[blob.start..blob.start + blob.len]) {
        Some(len) => Ok(Blob { len, ..blob }),
        None => Err(Error::from_kind(ErrorKind::TextNotTerminated)),
    }
}

// How many bytes are in front of a zero byte at the end; `None` where there is none.
fn before_zero(bytes: &[u8]) -> Option<usize>
    ensures { MatchOption result ((text : List ℕ) → bytes.now ≡ text ++ 0 ∷ [] → ⊥)
        (λ len. (len ≤ length bytes.now) × (bytes.now ≡ take len bytes.now ++ 0 ∷ [])) }
{
    let Some(end) = bytes.len().checked_sub(1) else {
        return None;
    };
    if bytes[end] != 0 {
        return None;
    }
    Some(end)
}
