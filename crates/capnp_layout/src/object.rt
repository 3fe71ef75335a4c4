//! From a place to the object that its pointer points to: nesting depth, bounds, and tags of lists.
ghost use Rattle.std.specs.Prelude.{◌≡◌, ◌↔◌, ◌+◌, ◌/◌, ◌^◌, ◌<◌, ◌≤◌, ℕ, [], ◌∷◌, All, length, slice_get, Some, None, IfOk, IfErr, MatchOption, MatchResult, IsTrue};
ghost use Rattle.capnp_frame.specs.declared.error.ErrorKind.{ErrorKind};
ghost use Rattle.capnp_layout.specs.Pointer.{words_of};
ghost use Rattle.capnp_layout.specs.PointerWord.{IsLocalShape};
ghost use Rattle.capnp_layout.specs.Object.{message_of, word_at, elements, ShapeIsAt};
ghost use Rattle.capnp_layout.specs.Tree.{numbers, Trees, depth};
ghost use Rattle.capnp_layout.specs.Reached.{At};
ghost use Rattle.capnp_layout.specs.Body.{IsObject, shape_of, room_of, words_in, traversed_of};
ghost use Rattle.capnp_layout.specs.PointerErrors.{SizeError, PointerError};
ghost use Rattle.capnp_layout.specs.PointerSections.{segment_of, places_in, end_of};
ghost use Rattle.capnp_layout.specs.declared.place.Place.{Place};
ghost use Rattle.capnp_layout.specs.declared.pointer.Elements.{Elements};
ghost use Rattle.capnp_layout.specs.declared.pointer.StructSize.{StructSize};

use crate::element_size::ElementSize;
use crate::landing_pad::resolve;
use crate::place::{Place, existing_word, segment};
use crate::pointer::{Elements, LocalShape, StructSize};
use crate::pointer_slots::PointerSlots;
use capnp_frame::message::ReaderSegments;
use capnp_frame::{Error, ErrorKind, Result};

/// What a pointer points to.
#[derive(Drop)]
pub struct Object<'a> {
    pub segment: &'a [u8],
    pub start: Place,
    pub body: Body,
    /// The number of words that a reader counts against the traversal limit for it, including its
    /// landing pads.
    pub traversed: u64,
}

/// What kind of object it is, and its size.
///
/// ```
/// let list = Body::Numbers(ElementSize::Byte, 9);
/// assert_eq!(rt; list.words(), 2);
/// assert_eq!(rt; list.count_of(ElementSize::Byte), Some(9));
/// assert!(rt; list.as_pointers().is_none());
/// ```
#[derive(Clone, Copy)]
pub enum Body {
    Struct(StructSize),
    Numbers(ElementSize, u32),
    Pointers(u32),
    /// A list of structs: its elements, and how many words follow its tag.
    Structs(Elements, u32),
}

/// The object that the pointer at a place points to, where it may be entered at this nesting depth;
/// `None` for null. Where there is no object the error says why: `specs/PointerErrors.antt` has the
/// cases, in their order.
#[inline(always)]
pub fn object_at<S: ReaderSegments>(
    segments: &S,
    place: Place,
    nesting: u32,
) -> Result<Option<Object<'_>>>
    ensures found { let m = message_of (S.segments segments.now) in
        IfOk result (λ found. MatchOption found (word_at m place ≡ Some 0)
        (λ object. IsObject m place object × (0 < nesting))) }
    ensures errors { IfErr result (λ error.
        PointerError (message_of (S.segments segments.now)) place nesting error.kind) }
{
    let segment = segment(segments, place.segment)?;
    object_in(segments, segment, place, nesting)
}

/// Does what `object_at` does, where the segment of the pointer is known. Fails as it does.
#[inline(always)]
pub fn object_in<'a, S: ReaderSegments>(
    segments: &'a S,
    segment: &'a [u8],
    place: Place,
    nesting: u32,
) -> Result<Option<Object<'a>>>
    requires content { slice_get (message_of (S.segments segments.now)) place.segment
        ≡ Some (words_of segment.now) }
    ensures found { let m = message_of (S.segments segments.now) in
        IfOk result (λ found. MatchOption found (word_at m place ≡ Some 0)
        (λ object. IsObject m place object × (0 < nesting))) }
    ensures errors { IfErr result (λ error.
        PointerError (message_of (S.segments segments.now)) place nesting error.kind) }
{
    let Some(landing) = resolve(segments, segment, place)? else {
        return Ok(None);
    };
    if nesting == 0 {
        return Err(Error::from_kind(ErrorKind::NestingLimitExceeded));
    }
    let Some(start) = landing.start else {
        return Err(Error::from_kind(ErrorKind::PointerOutOfBounds));
    };
    // For the prover: each word is below 2^64, and so is the number of bytes.
    words_fit(landing.segment);
    let body = body_at(landing.segment, start, landing.shape)?;
    Ok(Some(Object {
        segment: landing.segment,
        start: Place {
            segment: landing.number,
            word: start,
        },
        body,
        traversed: landing.landing_pads + body.traversed(),
    }))
}

/// The object that the pointer at a place of this segment points to, where it is known that a tree
/// is there; `None` for null.
#[inline(always)]
pub fn object_there<'a, S: ReaderSegments>(
    segments: &'a S,
    segment: &'a [u8],
    place: Place,
    nesting: u32,
) -> Option<Object<'a>>
    requires content { slice_get (message_of (S.segments segments.now)) place.segment
        ≡ Some (words_of segment.now) }
    requires tree { (trees : Trees) × (traversed : ℕ)
        × At (message_of (S.segments segments.now)) (place ∷ []) trees traversed
        × (depth trees ≤ nesting) }
    ensures { let m = message_of (S.segments segments.now) in
        MatchOption result (word_at m place ≡ Some 0)
        (λ object. IsObject m place object × (0 < nesting)) }
{
    match object_in(segments, segment, place, nesting) {
        Ok(found) => found,
        Err(_) => None,
    }
}

/// Each word of a segment is below 2^64, and so is the number of its bytes.
pub fn words_fit(segment: &[u8])
    ensures words { All (λ w. w < 2 ^ 64) (words_of segment.now) }
    ensures length { length segment.now < 2 ^ 64 }
{}

/// What begins at a word of a segment, as the pointer to it says. Fails with `PointerOutOfBounds`
/// where that doesn't lie within the segment, or with `WrongPointerKind`.
///
/// ```
/// let PointerWord::Local(local) = PointerWord::read(pointer_to_three_bytes) else {
///     panic!(rt; "no pointer to an object in its segment");
/// };
/// let body = layout::body_at(segment, 1, local.shape)?;
/// assert_eq!(rt; body.count_of(ElementSize::Byte), Some(3));
/// assert!(rt; layout::body_at(segment, 2, local.shape).is_err());
/// ```
#[inline(always)]
pub fn body_at(segment: &[u8], start: usize, shape: LocalShape) -> Result<Body>
    ensures found { let words = words_of segment.now in
        IfOk result (λ body. (tag number : ℕ) → IsLocalShape tag shape →
        let place : Place = record { segment = number; word = start } in
        ShapeIsAt words place tag (shape_of words place body)) }
    ensures room { IfOk result (λ body. start + room_of body ≤ length segment.now / 8) }
    ensures elements { IfOk result (λ body. words_in body ≤ room_of body) }
    ensures errors { IfErr result (λ error. (tag : ℕ) → IsLocalShape tag shape →
        SizeError (words_of segment.now) start tag error.kind) }
{
    match shape {
        LocalShape::Struct(size) => {
            expect_room(segment, start, size.words())?;
            Ok(Body::Struct(size))
        }
        LocalShape::Numbers(elements, count) => {
            expect_room(segment, start, elements.words_of_list(count))?;
            Ok(Body::Numbers(elements, count))
        }
        LocalShape::Pointers(count) => {
            expect_room(segment, start, count as u64)?;
            Ok(Body::Pointers(count))
        }
        LocalShape::Structs(words) => structs(segment, start, words),
    }
}

// The list of structs whose tag is at a word of a segment, with this many words after the tag.
fn structs(segment: &[u8], start: usize, words: u32) -> Result<Body>
    ensures found { let words_there = words_of segment.now in
        IfOk result (λ body. (tag number : ℕ) → IsLocalShape tag (LocalShape.Structs words) →
        let place : Place = record { segment = number; word = start } in
        ShapeIsAt words_there place tag (shape_of words_there place body)) }
    ensures room { IfOk result (λ body. start + room_of body ≤ length segment.now / 8) }
    ensures elements { IfOk result (λ body. words_in body ≤ room_of body) }
    ensures errors { IfErr result (λ error. (tag : ℕ) → IsLocalShape tag (LocalShape.Structs words) →
        SizeError (words_of segment.now) start tag error.kind) }
{
    expect_room(segment, start, 1 + words as u64)?;
    let tag = existing_word(segment, start)?;
    let Some(elements) = Elements::read(tag) else {
        return Err(Error::from_kind(ErrorKind::WrongPointerKind));
    };
    if elements.words() > words as u64 {
        return Err(Error::from_kind(ErrorKind::PointerOutOfBounds));
    }
    Ok(Body::Structs(elements, words))
}

// Fails with `PointerOutOfBounds` where a number of words from this one on don't lie within a
// segment.
#[inline(always)]
fn expect_room(segment: &[u8], start: usize, words: u64) -> Result<()>
    ensures { let there = length segment.now / 8 in
        MatchResult result (λ _. start + words ≤ there)
        (λ error. (there < start + words) × (error.kind ≡ ErrorKind.PointerOutOfBounds)) }
{
    if !fits(segment, start, words) {
        return Err(Error::from_kind(ErrorKind::PointerOutOfBounds));
    }
    Ok(())
}

/// Whether a number of words from this one on lie within a segment.
#[inline(always)]
pub fn fits(segment: &[u8], start: usize, words: u64) -> bool
    ensures { IsTrue result ↔ (start + words ≤ length segment.now / 8) }
{
    let there = segment.len() / 8;
    start <= there && words <= (there - start) as u64
}

impl<'a> Object<'a> {
    /// Its pointers.
    #[inline(always)]
    pub fn pointers(&self) -> PointerSlots
        requires room { self.now.start.word + room_of self.now.body
            ≤ length self.now.segment.now / 8 }
        requires elements { words_in self.now.body ≤ room_of self.now.body }
        ensures places { places_in result
            ≡ (shape_of (words_of self.now.segment.now) self.now.start self.now.body).children }
        ensures end { end_of result ≤ self.now.start.word + words_in self.now.body }
        ensures segment { segment_of result ≡ self.now.start.segment }
    {
        PointerSlots::of(self.start, self.body, self.body.section_sizes().pointers)
    }
}

impl Body {
    /// The number of words that a reader counts against the traversal limit for it.
    #[inline(always)]
    pub fn traversed(self) -> u64
        ensures traversed { result ≡ traversed_of self }
        ensures bound { result < 2 ^ 40 }
    {
        match self {
            Body::Struct(size) => size.words(),
            Body::Numbers(ElementSize::Void, count) => count as u64,
            Body::Numbers(elements, count) => elements.words_of_list(count),
            Body::Pointers(count) => count as u64,
            Body::Structs(elements, words) => {
                let of_no_words = if elements.size.words() == 0 {
                    elements.count
                } else {
                    0
                };
                1 + words as u64 + of_no_words as u64
            }
        }
    }

    /// How many words it has; for a list of structs, with its tag.
    #[inline(always)]
    pub fn words(self) -> u64
        ensures { result ≡ words_in self }
    {
        match self {
            Body::Struct(size) => size.words(),
            Body::Numbers(elements, count) => elements.words_of_list(count),
            Body::Pointers(count) => count as u64,
            Body::Structs(elements, _) => 1 + elements.words(),
        }
    }

    /// How many elements it has, where it is a list of numbers of this size.
    pub fn count_of(self, wanted: ElementSize) -> Option<u32>
        ensures { MatchOption result ((count : ℕ) → self ≡ Body.Numbers wanted count → ⊥)
            (λ count. self ≡ Body.Numbers wanted count) }
    {
        match self {
            Body::Numbers(elements, count) if elements == wanted => Some(count),
            _ => None,
        }
    }

    /// Its elements, where it is a list of structs.
    pub fn as_structs(self) -> Option<Elements>
        ensures { MatchOption result
            ((elements : Elements) (following : ℕ) → self ≡ Body.Structs elements following → ⊥)
            (λ elements. (following : ℕ) × (self ≡ Body.Structs elements following)) }
    {
        match self {
            Body::Structs(elements, _) => Some(elements),
            _ => None,
        }
    }

    /// How many pointers it has, where it is a list of pointers.
    pub fn as_pointers(self) -> Option<u32>
        ensures { MatchOption result ((count : ℕ) → self ≡ Body.Pointers count → ⊥)
            (λ count. self ≡ Body.Pointers count) }
    {
        match self {
            Body::Pointers(count) => Some(count),
            _ => None,
        }
    }

    /// Its size, where it is a struct.
    pub fn as_struct(self) -> Option<StructSize>
        ensures { MatchOption result ((size : StructSize) → self ≡ Body.Struct size → ⊥)
            (λ size. self ≡ Body.Struct size) }
    {
        match self {
            Body::Struct(size) => Some(size),
            _ => None,
        }
    }
}
