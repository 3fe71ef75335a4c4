//! What pointers point to, through landing pads.
ghost use Rattle.std.specs.Prelude.{◌≡◌, ◌+◌, ◌*◌, ◌/◌, ◌^◌, ◌<◌, ℕ, slice_get, Some, None, IfOk, IfErr, MatchOption, MatchResult, false};
ghost use Rattle.capnp_frame.specs.declared.error.ErrorKind.{ErrorKind};
ghost use Rattle.capnp_layout.specs.Pointer.{words_of};
ghost use Rattle.capnp_layout.specs.PointerWord.{IsLocal, IsFarPointer};
ghost use Rattle.capnp_layout.specs.Object.{message_of, word_at};
ghost use Rattle.capnp_layout.specs.Landing.{HasWideLandingPad, IsLanding, NotLocal};
ghost use Rattle.capnp_layout.specs.PointerErrors.{BadLandingPad, PointerError};
ghost use Rattle.capnp_layout.specs.declared.place.Place.{Place};
ghost use Rattle.capnp_layout.specs.declared.pointer.FarPointer.{FarPointer};

use crate::place::{Place, existing_word, segment};
use crate::pointer::{FarPointer, LocalPointer, LocalShape, PointerWord};
use capnp_frame::message::ReaderSegments;
use capnp_frame::{Error, ErrorKind, Result};

/// Where an object begins, unless its pointer points to a word before the segment, and its shape.
/// The struct or list pointer that gives the shape is its own pointer, or is in a landing pad.
#[derive(Drop)]
pub struct Landing<'a> {
    /// The segment that the object is in.
    pub segment: &'a [u8],
    /// That segment's id.
    pub number: u32,
    pub start: Option<usize>,
    pub shape: LocalShape,
    /// How many words the landing pad has: 0 without one, 2 for a double-far pointer.
    pub landing_pads: u64,
}

/// What the pointer at a place of this segment points to; `None` for null. Fails where there is no
/// word, with a capability, and with a landing pad that points nowhere.
///
/// ```
/// let segment = layout::segment(&message, 0)?;
/// let Some(landing) = resolve(&message, segment, root)? else {
///     panic!(rt; "a null pointer");
/// };
/// assert_eq!(rt; (landing.number, landing.start), (0, Some(1)));
/// assert_eq!(rt; landing.landing_pads, 0);
/// ```
#[inline(always)]
pub fn resolve<'a, S: ReaderSegments>(
    segments: &'a S,
    segment: &'a [u8],
    place: Place,
) -> Result<Option<Landing<'a>>>
    requires content { slice_get (message_of (S.segments segments.now)) place.segment
        ≡ Some (words_of segment.now) }
    ensures found { let m = message_of (S.segments segments.now) in
        IfOk result (λ found. MatchOption found (word_at m place ≡ Some 0)
        (λ landing. IsLanding m place landing)) }
    ensures errors { IfErr result (λ error. (nesting : ℕ) →
        PointerError (message_of (S.segments segments.now)) place nesting error.kind) }
{
    let pointer = existing_word(segment, place.word)?;
    if pointer == 0 {
        return Ok(None);
    }
    match PointerWord::read(pointer) {
        PointerWord::Local(local) => Ok(Some(resolve_local(segment, place, local, 0))),
        PointerWord::Far(far) => Ok(Some(resolve_far(segments, far)?)),
        PointerWord::Other => Err(Error::from_kind(ErrorKind::CapabilityRefused)),
    }
}

/// What a struct or list pointer at a place of this segment points to.
#[inline(always)]
pub fn resolve_local(
    segment: &[u8],
    place: Place,
    local: LocalPointer,
    landing_pads: u64,
) -> Landing<'_>
    requires offset { local.offset.0 < 2 ^ 30 }
    requires place { place.word < 2 ^ 61 }
    ensures segment { result.segment.now ≡ segment.now }
    ensures number { result.number ≡ place.segment }
    ensures shape { result.shape ≡ local.shape }
    ensures landing_pads { result.landing_pads ≡ landing_pads }
    ensures start { let points_to = λ (start : ℕ).
        start + 2 ^ 30 * (local.offset.0 / 2 ^ 29) ≡ place.word + 1 + local.offset.0 in
        MatchOption result.start ((start : ℕ) → points_to start → ⊥) points_to }
{
    Landing {
        segment,
        number: place.segment,
        start: local.offset.target(place.word),
        shape: local.shape,
        landing_pads,
    }
}

// What a far pointer points to.
fn resolve_far<S: ReaderSegments>(segments: &S, far: FarPointer) -> Result<Landing<'_>>
    ensures found { let m = message_of (S.segments segments.now) in
        IfOk result (λ landing. (place : Place) (word : ℕ) → word_at m place ≡ Some word →
        IsFarPointer word far → IsLanding m place landing) }
    ensures errors { IfErr result (λ error. (word : ℕ) → IsFarPointer word far →
        BadLandingPad (message_of (S.segments segments.now)) word error.kind) }
{
    let landing_pad = segment(segments, far.landing_pad.segment)?;
    let first = existing_word(landing_pad, far.landing_pad.word)?;
    if !far.is_double_far {
        let local = local_pointer(first)?;
        return Ok(resolve_local(landing_pad, far.landing_pad, local, 1));
    }
    let tag = existing_word(landing_pad, far.landing_pad.word + 1)?;
    resolve_double_far(segments, first, tag)
}

// What a double-far pointer points to, through a landing pad of these two words: a far pointer to
// the object, and its tag word.
fn resolve_double_far<S: ReaderSegments>(segments: &S, first: u64, tag: u64) -> Result<Landing<'_>>
    ensures found { let m = message_of (S.segments segments.now) in
        IfOk result (λ landing. (place : Place) (word : ℕ) → word_at m place ≡ Some word →
        HasWideLandingPad m word first tag → IsLanding m place landing) }
    ensures errors { let m = message_of (S.segments segments.now) in
        IfErr result (λ error. (word : ℕ) →
        HasWideLandingPad m word first tag → BadLandingPad m word error.kind) }
{
    let content = content_pointer(first)?;
    let segment = segment(segments, content.segment)?;
    let local = local_pointer(tag)?;
    Ok(Landing {
        segment,
        number: content.segment,
        start: Some(content.word),
        shape: local.shape,
        landing_pads: 2,
    })
}

// The place of the object, by the first word of a landing pad of two words.
fn content_pointer(first: u64) -> Result<Place>
    ensures { let is_far = λ (far : FarPointer).
        IsFarPointer first far × (far.is_double_far ≡ false) in
        MatchResult result (λ place. (far : FarPointer) × is_far far × (place ≡ far.landing_pad))
        (λ error. ((far : FarPointer) → is_far far → ⊥)
        × (error.kind ≡ ErrorKind.PointerOutOfBounds)) }
{
    match PointerWord::read(first) {
        PointerWord::Far(far) if !far.is_double_far => Ok(far.landing_pad),
        _ => Err(Error::from_kind(ErrorKind::PointerOutOfBounds)),
    }
}

// Reads a word as a struct or list pointer. Fails where it is neither.
fn local_pointer(word: u64) -> Result<LocalPointer>
    ensures found { IfOk result (λ local. IsLocal word local) }
    ensures errors { IfErr result (λ error. NotLocal word error.kind) }
{
    match PointerWord::read(word) {
        PointerWord::Local(local) => Ok(local),
        PointerWord::Far(_) => Err(Error::from_kind(ErrorKind::PointerOutOfBounds)),
        PointerWord::Other => Err(Error::from_kind(ErrorKind::CapabilityRefused)),
    }
}
