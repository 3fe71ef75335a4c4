//! The objects that pointers lead to, as `capnp_layout` finds them, with their landing pads.
//!
//! Nothing is followed except the landing pads of far pointers, so each result takes a few steps,
//! whatever the words are.
ghost use Rattle.std.specs.Prelude.{◌≡◌, ◌<◌, ◌+◌, ◌*◌, ℕ, List, Some, length, slice_get, slice_range, IfOk, IfErr, MatchOption};
ghost use Rattle.capnp_layout.specs.Prelude.{room_of, message_of, word_at, words_of};
ghost use Rattle.capnp_layout.specs.declared.pointer.FarPointer.{FarPointer};
ghost use Rattle.capnp_show.specs.Objects.{object_traversed, further, landing_pad_words, IsFarIn, IsFoundObject, PlaceError};

use capnp::layout::{
    Body, ElementSize, FarPointer, Place, PointerWord, body_at, resolve, segment, word,
};
use capnp::message::ReaderSegments;
use capnp::{Error, ErrorKind, Result};

/// What a pointer leads to.
#[derive(Clone, Copy)]
pub struct Object {
    /// Where it begins; for a list of structs, where its tag is.
    pub start: Place,
    pub body: Body,
    /// The far pointer that leads to it, which says where the landing pad is; `None` without one.
    pub far: Option<FarPointer>,
}

/// The object that the pointer at a place leads to, as readers find it; `None` for null. Fails as
/// they do where the nesting depth left is not 0.
pub fn object_at<S: ReaderSegments>(segments: &S, place: Place) -> Result<Option<Object>>
    ensures found { let there = S.segments segments.now in IfOk result (λ found.
        MatchOption found (word_at (message_of there) place ≡ Some 0)
        (λ object. IsFoundObject there place object)) }
    ensures errors { IfErr result (λ error.
        PlaceError (S.segments segments.now) place error.kind) }
{
    let pointers = segment(segments, place.segment)?;
    let Some(landing) = resolve(segments, pointers, place)? else {
        return Ok(None);
    };
    let Some(start) = landing.start else {
        return Err(Error::from_kind(ErrorKind::PointerOutOfBounds));
    };
    let body = body_at(landing.segment, start, landing.shape)?;
    Ok(Some(Object {
        start: Place {
            segment: landing.number,
            word: start,
        },
        body,
        far: far_pointer_in(pointers, place.word),
    }))
}

// The far pointer at a word of a segment; `None` where another word is there, or none.
fn far_pointer_in(segment: &[u8], index: usize) -> Option<FarPointer>
    ensures { let is_far = IsFarIn (words_of segment.now) index in
        MatchOption result ((far : FarPointer) → is_far far → ⊥) is_far }
{
    match PointerWord::read(word(segment, index)?) {
        PointerWord::Far(far) => Some(far),
        _ => None,
    }
}

/// How many words the landing pad of a far pointer has.
pub fn words_of_landing_pad(far: FarPointer) -> u64
    ensures { result ≡ landing_pad_words (Some far) }
{
    if far.is_double_far { 2 } else { 1 }
}

impl Object {
    /// The number of words from its start on. A list of structs may have more words than its
    /// elements need.
    pub fn words(&self) -> u64
        ensures { result ≡ room_of self.now.body }
    {
        match self.body {
            Body::Structs(_, following) => 1 + u64::from(following),
            body => body.words(),
        }
    }

    /// The number of words that count against the limit, with the words of the landing pad.
    pub fn traversed(&self) -> u64
        ensures { result ≡ object_traversed self.now }
    {
        let landing_pad = match self.far {
            Some(far) => words_of_landing_pad(far),
            None => 0,
        };
        landing_pad + self.body.traversed()
    }
}

/// The bytes of a list of bytes; `None` of any other object.
pub fn bytes_of<'a, S: ReaderSegments>(segments: &'a S, object: &Object) -> Option<&'a [u8]>
    ensures { let start = 8 * object.now.start.word in
        let is_list = λ (segment : List ℕ) (count : ℕ).
        (object.now.body ≡ Body.Numbers ElementSize.Byte count)
        × (slice_get (S.segments segments.now) object.now.start.segment ≡ Some segment) in
        MatchOption result ((segment : List ℕ) (count : ℕ) → is_list segment count
        → length segment < start + count)
        (λ bytes. (segment : List ℕ) × (count : ℕ) × is_list segment count
        × (bytes.now ≡ slice_range segment start (start + count))) }
{
    let Body::Numbers(ElementSize::Byte, count) = object.body else {
        return None;
    };
    let segment = segments.get_segment(object.start.segment)?;
    let start = object.start.word.checked_mul(8)?;
    let end = start.checked_add(count as usize)?;
    segment.get(start..end)
}

/// The place this many words further; the last possible one where there is none.
pub fn moved(place: Place, words: u64) -> Place
    ensures { result ≡ further place words }
{
    Place {
        segment: place.segment,
        word: place.word.saturating_add(words as usize),
    }
}
