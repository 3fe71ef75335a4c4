//! The object that a pointer points to.
ghost use Rattle.std.specs.Prelude.{ℕ, List, Option, MatchOption, MatchResult};
ghost use Rattle.capnp_layout.specs.Prelude.{nothing, shape_of};
ghost use Rattle.capnp_layout.specs.declared.place.Place.{Place};
ghost use Rattle.capnp_wire.specs.Prelude.{Denotes, IsInvalidPointer, Shows};
ghost use Rattle.capnp_c.specs.Reading.{EnterError, HasKind, pointer_by};
ghost use Rattle.capnp_c.specs.Entering.{Enters, message_among, pointer_among};
ghost use Rattle.capnp_c.specs.ReadingExports.{TellsKind};

use crate::reading::INVALID_ARGUMENT;
use crate::reading::place::LinsjoarPlace;
use crate::reading::reader::LinsjoarReader;
use crate::reading::segments::MessageSegments;
use capnp_frame::Result;
use capnp_layout::object::{Body, Object, object_at};

/// An object that a pointer points to, and what is left of the reader's limits below it.
#[derive(Drop)]
pub(crate) struct Entered<'a> {
    pub object: Object<'a>,
    /// How many bytes of the message are before the object.
    pub start: usize,
    /// How many words may still be visited.
    pub words_left: usize,
    /// How many objects may follow one another from its pointers on.
    pub nesting: u32,
}

/// The object that the pointer at a place points to; `None` for null. The reader's limit stays as
/// it is: a call that succeeds takes `words_left` over. Fails as `object_at` does, and with
/// `ReadLimitExceeded`.
#[inline(always)]
pub(crate) fn enter<'a>(
    segments: &'a MessageSegments<'a>,
    reader: &LinsjoarReader,
    pointer: &LinsjoarPlace,
) -> Result<Option<Entered<'a>>>
    ensures { let place = pointer_among segments.now reader.now pointer.now in MatchResult result
        (λ found. MatchOption found (Denotes place nothing)
        (λ entered. Enters place segments.now.bytes.now entered))
        (λ error. EnterError place error.kind) }
{
    let Some(place) = pointer.in_message() else {
        return Ok(None);
    };
    let Some(object) = object_at(segments, place, pointer.nesting)? else {
        return Ok(None);
    };
    let words_left = reader.words_left_after(object.traversed)?;
    let start = segments.begin_of(&object);
    Ok(Some(Entered {
        object,
        start,
        words_left,
        nesting: pointer.nesting.saturating_sub(1),
    }))
}

// What `linsjoar_kind` writes.
const KIND_NULL: u8 = 0;

const KIND_STRUCT: u8 = 1;

const KIND_LIST: u8 = 2;

// The code of lists of pointers, and of structs.
const CODE_OF_POINTERS: u8 = 6;

const CODE_OF_STRUCTS: u8 = 7;

/// Tells what a pointer points to: 0 for null, 1 for a struct, and 2 for a list, and the code of the
/// list's elements. It counts nothing against the traversal limit.
///
/// Returns `InvalidArgument` (27) where the reader is not one of these bytes, and the number of the
/// pointer's error where it points to no object.
#[unsafe(no_mangle)]
pub extern "C" fn linsjoar_kind(
    bytes: &[u8],
    reader: &LinsjoarReader,
    pointer: &LinsjoarPlace,
    kind: &mut u8,
    code: &mut u8,
) -> u32
    ensures { TellsKind reader.now bytes.now pointer.now kind.new code.new result }
{
    *kind = 0;
    *code = 0;
    let Some(segments) = reader.segments_in(bytes) else {
        return INVALID_ARGUMENT;
    };
    match kind_at(&segments, pointer) {
        Ok((found_kind, found_code)) => {
            *kind = found_kind;
            *code = found_code;
            0
        }
        Err(error) => error.kind.number() as u32,
    }
}

// The numbers of the kind of object, whatever the limit of words.
fn kind_at(segments: &MessageSegments, pointer: &LinsjoarPlace) -> Result<(u8, u8)>
    ensures { (limit : Option ℕ) →
        let place = pointer_by (message_among segments.now) limit pointer.now in MatchResult result (λ found. Shows place (λ shape. HasKind shape.form found.0 found.1))
        (λ error. IsInvalidPointer place error.kind) }
{
    let Some(place) = pointer.in_message() else {
        return Ok((KIND_NULL, 0));
    };
    let Some(object) = object_at(segments, place, pointer.nesting)? else {
        return Ok((KIND_NULL, 0));
    };
    Ok(kind_of(object.body))
}

// The numbers of the kind of an object.
fn kind_of(body: Body) -> (u8, u8)
    ensures { (words : List ℕ) (start : Place) →
        HasKind (shape_of words start body).form result.0 result.1 }
{
    match body {
        Body::Struct(_) => (KIND_STRUCT, 0),
        Body::Numbers(size, _) => (KIND_LIST, size.code() as u8),
        Body::Pointers(_) => (KIND_LIST, CODE_OF_POINTERS),
        Body::Structs(_, _) => (KIND_LIST, CODE_OF_STRUCTS),
    }
}
