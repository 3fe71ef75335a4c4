//! Structs, and their pointers.
ghost use Rattle.std.specs.Prelude.{◌≡◌, ◌+◌, ◌*◌, ◌/◌, ◌≤◌, length, IfSome, MatchOption, MatchResult};
ghost use Rattle.capnp_layout.specs.Prelude.{room_of};
ghost use Rattle.capnp_layout.specs.declared.pointer.StructSize.{StructSize};
ghost use Rattle.capnp_wire.specs.Prelude.{TakesStruct, StructFormError};
ghost use Rattle.capnp_c.specs.Entering.{pointer_among};
ghost use Rattle.capnp_c.specs.Reading.{ReadError, TakesOff, ShowsStruct};
ghost use Rattle.capnp_c.specs.ReadingExports.{Follows, FindsPointer, no_struct};

use crate::reading::INVALID_ARGUMENT;
use crate::reading::entered::{Entered, enter};
use crate::reading::fast_path::{ObjectKind, enter_local};
use crate::reading::place::LinsjoarPlace;
use crate::reading::reader::LinsjoarReader;
use crate::reading::segments::MessageSegments;
use capnp_frame::{Error, ErrorKind, Result};
use capnp_layout::object::{Body, words_fit};
use capnp_layout::place::Place;

/// A struct in a message. What lies past its data is 0, and past its pointers null.
#[repr(C)]
#[derive(Clone, Copy)]
pub struct LinsjoarStruct {
    /// How many bytes of the message are before its data.
    pub start: usize,
    /// How many bytes of data it has.
    pub data_len: usize,
    /// The place of its first pointer, where it has one.
    pub first: LinsjoarPlace,
    /// How many pointers it has.
    pub pointers: u16,
}

// A struct that was read, and how many words may still be visited after it.
#[derive(Clone, Copy)]
struct ReadStruct {
    fields: LinsjoarStruct,
    words_left: usize,
}

impl LinsjoarStruct {
    /// A struct of no data and no pointers, as null is. The place is of no pointer.
    pub(crate) fn empty(first: LinsjoarPlace) -> LinsjoarStruct
        ensures { result ≡ record { start = 0; data_len = 0; first = first; pointers = 0 } }
    {
        LinsjoarStruct {
            start: 0,
            data_len: 0,
            first,
            pointers: 0,
        }
    }
}

/// Reads the struct that a pointer points to, and counts it against the traversal limit. Null is a
/// struct of no data and no pointers.
///
/// Returns `InvalidArgument` (27) where the reader is not one of these bytes, and the number of the
/// pointer's error where it points to no object. Returns `ReadLimitExceeded` (20) where the limit is
/// passed, and `WrongPointerKind` (22) for an object of another kind. Then nothing is counted.
#[unsafe(no_mangle)]
pub extern "C" fn linsjoar_struct(
    bytes: &[u8],
    reader: &mut LinsjoarReader,
    pointer: &LinsjoarPlace,
    fields: &mut LinsjoarStruct,
) -> u32
    ensures { Follows reader.old reader.new bytes.now pointer.now
        (λ place. ShowsStruct place bytes.now fields.new)
        TakesStruct StructFormError (fields.new ≡ no_struct) result }
{
    *fields = LinsjoarStruct::empty(LinsjoarPlace::nowhere(0));
    let Some(segments) = reader.segments_in(bytes) else {
        return INVALID_ARGUMENT;
    };
    if let Some(found) = local_struct_at(&segments, reader, pointer) {
        *fields = found.fields;
        reader.words_left = found.words_left;
        return 0;
    }
    match struct_at(&segments, reader, pointer) {
        Ok(found) => {
            *fields = found.fields;
            reader.words_left = found.words_left;
            0
        }
        Err(error) => error.kind.number() as u32,
    }
}

// The struct, if it is in the segment of its pointer. `None` says nothing about what is there.
#[inline(always)]
fn local_struct_at(
    segments: &MessageSegments,
    reader: &LinsjoarReader,
    pointer: &LinsjoarPlace,
) -> Option<ReadStruct>
    ensures { let place = pointer_among segments.now reader.now pointer.now in IfSome result
        (λ found. ShowsStruct place segments.now.bytes.now found.fields
        × TakesOff place found.words_left) }
{
    let entered = enter_local(segments, reader, pointer, ObjectKind::Struct)?;
    let fields = fields_of(&entered)?;
    Some(ReadStruct {
        fields,
        words_left: entered.words_left,
    })
}

#[inline(never)]
fn struct_at(
    segments: &MessageSegments,
    reader: &LinsjoarReader,
    pointer: &LinsjoarPlace,
) -> Result<ReadStruct>
    ensures { let place = pointer_among segments.now reader.now pointer.now in MatchResult result
        (λ found. ShowsStruct place segments.now.bytes.now found.fields
        × TakesOff place found.words_left)
        (λ error. ReadError place StructFormError error.kind) }
{
    match enter(segments, reader, pointer)? {
        Some(entered) => match fields_of(&entered) {
            Some(fields) => Ok(ReadStruct {
                fields,
                words_left: entered.words_left,
            }),
            None => Err(Error::from_kind(ErrorKind::WrongPointerKind)),
        },
        None => Ok(ReadStruct {
            fields: LinsjoarStruct::empty(pointer.nowhere_below()),
            words_left: reader.words_left,
        }),
    }
}

// The struct that an object is.
#[inline(always)]
fn fields_of(entered: &Entered) -> Option<LinsjoarStruct>
    requires { entered.now.object.start.word + room_of entered.now.object.body
        ≤ length entered.now.object.segment.now / 8 }
    ensures { let object = entered.now.object in MatchOption result
        ((size : StructSize) → object.body ≡ Body.Struct size → ⊥)
        (λ fields. (size : StructSize) × (object.body ≡ Body.Struct size) × (fields ≡ record {
          start = entered.now.start;
          data_len = 8 * size.data_words;
          first = record {
            word = object.start.word + size.data_words;
            segment = object.start.segment;
            nesting = entered.now.nesting;
            is_there = 1;
          };
          pointers = size.pointers;
        })) }
{
    let object = &entered.object;
    // For the prover: each word is below 2^64, and so is the number of bytes.
    words_fit(object.segment);
    let Some(size) = object.body.as_struct() else {
        return None;
    };
    let place = Place {
        segment: object.start.segment,
        word: object.start.word + size.data_words as usize,
    };
    Some(LinsjoarStruct {
        start: entered.start,
        data_len: 8 * size.data_words as usize,
        first: LinsjoarPlace::of(place, entered.nesting),
        pointers: size.pointers,
    })
}

/// Finds a pointer of a struct; past its last one there is none, which is as null. Returns
/// `InvalidArgument` (27) where the pointer's word would be past 64 bits: no call wrote the struct.
#[unsafe(no_mangle)]
pub extern "C" fn linsjoar_struct_pointer(
    fields: &LinsjoarStruct,
    index: u16,
    pointer: &mut LinsjoarPlace,
) -> u32
    ensures { FindsPointer fields.now index pointer.new result }
{
    *pointer = LinsjoarPlace::nowhere(0);
    if index >= fields.pointers {
        *pointer = LinsjoarPlace::nowhere(fields.first.nesting);
        return 0;
    }
    match fields.first.after(index as usize) {
        Some(found) => {
            *pointer = found;
            0
        }
        None => INVALID_ARGUMENT,
    }
}
