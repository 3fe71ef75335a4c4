//! Fast paths to structs, to lists of structs, and to lists of bytes, in the segments of their pointers, and
//! to lists of bytes in another segment.
ghost use Rattle.std.specs.Prelude.{◌≡◌, ◌<◌, ℕ, List, IfSome, Some, slice_get};
ghost use Rattle.capnp_layout.specs.Prelude.{words_of, word_at, landing_pad, IsFar, IsObject};
ghost use Rattle.capnp_layout.specs.declared.place.Place.{Place};
ghost use Rattle.capnp_c.specs.Entering.{Enters, pointer_among};

use crate::reading::entered::Entered;
use crate::reading::place::LinsjoarPlace;
use crate::reading::reader::LinsjoarReader;
use crate::reading::segments::MessageSegments;
use capnp_frame::message::ReaderSegments;
use capnp_layout::element_size::ElementSize;
use capnp_layout::fast_path::{local_list, local_struct, local_structs};
use capnp_layout::object::Object;
use capnp_layout::place::{Place, word};
use capnp_layout::pointer::{PointerWord, list_code};

/// What a call asks for in the segment of the pointer.
#[derive(Clone, Copy)]
pub(crate) enum ObjectKind {
    Struct,
    Structs,
    Bytes,
}

/// The object of this kind that the pointer at a place points to without a landing pad, within the
/// words that are left. `None` says nothing about what is there; then `enter` is asked.
// Speed: where this is inlined the kind of the object is known, so nothing of it is kept in memory
// (`tools/time classic`).
#[inline(always)]
pub(crate) fn enter_local<'a>(
    segments: &'a MessageSegments<'a>,
    reader: &LinsjoarReader,
    pointer: &LinsjoarPlace,
    kind: ObjectKind,
) -> Option<Entered<'a>>
    ensures { let place = pointer_among segments.now reader.now pointer.now in
        IfSome result (λ entered. Enters place segments.now.bytes.now entered) }
{
    let place = pointer.in_message()?;
    let segment = segments.get_segment(place.segment)?;
    let object = local_object(segment, place, pointer.nesting, kind)?;
    let Ok(words_left) = reader.words_left_after(object.traversed) else {
        return None;
    };
    let start = segments.begin_of(&object);
    Some(Entered {
        object,
        start,
        words_left,
        nesting: pointer.nesting.saturating_sub(1),
    })
}

/// The list of bytes that the pointer at a place points to through a landing pad of one word, within
/// the words that are left. `None` says nothing about what is there; then `enter` is asked.
// Speed: most far pointers have such a landing pad, and texts are read most (`tools/time records`).
#[inline(always)]
pub(crate) fn enter_far_bytes<'a>(
    segments: &'a MessageSegments<'a>,
    reader: &LinsjoarReader,
    pointer: &LinsjoarPlace,
) -> Option<Entered<'a>>
    ensures { let place = pointer_among segments.now reader.now pointer.now in
        IfSome result (λ entered. Enters place segments.now.bytes.now entered) }
{
    let place = pointer.in_message()?;
    let segment = segments.get_segment(place.segment)?;
    let far = word(segment, place.word)?;
    let landing = narrow_landing_pad(far)?;
    let found = segments.segment_and_rest(landing.segment)?;
    let object = bytes_after(found.0, landing, pointer.nesting)?;
    let Ok(words_left) = reader.words_left_after(object.traversed) else {
        return None;
    };
    let start = segments.begin_before(found.1, &object);
    let nesting = pointer.nesting.saturating_sub(1);
    Some(Entered {
        object,
        start,
        words_left,
        nesting,
    })
}

// The landing pad of a far pointer, if it has one word.
#[inline(always)]
fn narrow_landing_pad(pointer: u64) -> Option<Place>
    ensures { IfSome result (λ landing. IsFar pointer 0 × (landing ≡ landing_pad pointer)) }
{
    let PointerWord::Far(far) = PointerWord::read(pointer) else {
        return None;
    };
    if far.is_double_far {
        return None;
    }
    Some(far.landing_pad)
}

// The list of bytes that a far pointer points to through this landing pad in this segment.
#[inline(always)]
fn bytes_after(segment: &[u8], landing: Place, nesting: u32) -> Option<Object<'_>>
    ensures { (m : List (List ℕ)) (place : Place) (far : ℕ) →
        slice_get m landing.segment ≡ Some (words_of segment.now) →
        word_at m place ≡ Some far → IsFar far 0 → landing ≡ landing_pad far →
        IfSome result (λ object. IsObject m place object × (0 < nesting)
        × (object.start.segment ≡ landing.segment)) }
{
    let tag = word(segment, landing.word)?;
    if tag % 4 != 1 {
        return None;
    }
    let list = local_object(segment, landing, nesting, ObjectKind::Bytes)?;
    Some(Object {
        segment: list.segment,
        start: list.start,
        body: list.body,
        traversed: list.traversed.checked_add(1)?,
    })
}

// The object of this kind that the pointer at a place of this segment points to without a landing
// pad.
#[inline(always)]
fn local_object(segment: &[u8], place: Place, nesting: u32, kind: ObjectKind) -> Option<Object<'_>>
    ensures { (m : List (List ℕ)) → slice_get m place.segment ≡ Some (words_of segment.now) →
        IfSome result (λ object. IsObject m place object × (0 < nesting)) }
{
    match kind {
        ObjectKind::Struct => {
            let found = local_struct(segment, place, nesting)?;
            Some(found.object())
        }
        ObjectKind::Structs => {
            let list = local_structs(segment, place, nesting)?;
            Some(list.object())
        }
        ObjectKind::Bytes => {
            let pointer = word(segment, place.word)?;
            if list_code(pointer) != ElementSize::Byte.code() {
                return None;
            }
            let list = local_list(segment, place, nesting)?;
            Some(list.object())
        }
    }
}
