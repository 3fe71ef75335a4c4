//! Fast paths: to null, to a struct, and to a list of numbers, pointers or structs in the segment
//! of their pointer.
ghost use Rattle.std.specs.Prelude.{◌≡◌, ◌⊎◌, ◌↔◌, ℕ, List, ◌+◌, ◌/◌, ◌^◌, ◌<◌, ◌≤◌, length, Some, slice_get, IfSome, IsTrue};
ghost use Rattle.capnp_layout.specs.Pointer.{words_of, pointer_kind, code};
ghost use Rattle.capnp_layout.specs.Body.{IsObject};
ghost use Rattle.capnp_layout.specs.Local.{AreNull, IsNullOrEmptyStruct, object_of, local_struct_of, pointers_of, structs_of};
ghost use Rattle.capnp_layout.specs.Output.{output_body_of, IsNarrower};
ghost use Rattle.capnp_layout.specs.declared.object.Body.{Body};

use crate::block::used;
use crate::landing_pad::resolve_local;
use crate::number_list::NumberList;
use crate::object::{Body, Object, fits, words_fit};
use crate::output_size::output_size;
use crate::place::{Place, word};
use crate::pointer::{Elements, LocalShape, PointerWord, StructSize};
use crate::pointer_run::PointerRun;
use crate::struct_list::StructList;

// Speed: most pointers of most messages are null, or point to structs, to lists of numbers, or to
// lists of pointers. Code that goes over many pointers of a segment tries these paths first: such a
// pointer needs no call, and its object has at most one run of pointers (workload `canon`,
// `tools/time building`). Copies always try the path for lists of pointers, and walks try it at the
// root alone: in their loops one more fast path costs more than the calls that it saves. Tests for
// canonical form never try it.

// The pointer to a struct of no words, with the offset -1: the struct begins at its pointer.
const EMPTY_STRUCT: u64 = 0xffff_fffc;

/// The pointer at a word of a segment, if it is null, or if it is `EMPTY_STRUCT` and its struct
/// may be entered at this nesting depth. Other pointer words may also point to structs of no words:
/// `local_struct` finds these.
#[inline(always)]
pub fn null_or_empty_struct(segment: &[u8], index: usize, nesting: u32) -> Option<u64>
    ensures { IfSome result (λ pointer. (slice_get (words_of segment.now) index ≡ Some pointer)
        × IsNullOrEmptyStruct pointer nesting) }
{
    let pointer = word(segment, index)?;
    if pointer == 0 || (pointer == EMPTY_STRUCT && nesting > 0) {
        return Some(pointer);
    }
    None
}

/// Whether a pointer is null, or of a kind for which there is a fast path.
#[inline(always)]
pub fn has_fast_path(pointer: u64) -> bool
    ensures { IsTrue result ↔ ((pointer_kind pointer ≡ 0) ⊎ ((pointer_kind pointer ≡ 1)
        × (code pointer < 7))) }
{
    pointer % 4 == 0 || (pointer % 4 == 1 && pointer / (1 << 32) % 8 < 7)
}

/// The list of numbers that the pointer at a place of this segment points to without a landing pad,
/// where it may be entered at this nesting depth. `None` says nothing about what is there: the
/// caller then asks `object_in`.
#[inline(always)]
pub fn local_list(segment: &[u8], place: Place, nesting: u32) -> Option<NumberList<'_>>
    ensures { (m : List (List ℕ)) → slice_get m place.segment ≡ Some (words_of segment.now) →
        IfSome result (λ list. IsObject m place (object_of list) × (0 < nesting)) }
{
    let pointer = word(segment, place.word)?;
    let PointerWord::Local(local) = PointerWord::read(pointer) else {
        return None;
    };
    let LocalShape::Numbers(size, count) = local.shape else {
        return None;
    };
    let landing = resolve_local(segment, place, local, 0);
    let start = landing.start?;
    let bits = size.bits_of_list(count);
    if nesting == 0 || !fits(segment, start, bits.div_ceil(64)) {
        return None;
    }
    // For the prover: each word is below 2^64, and so is the number of bytes.
    words_fit(segment);
    Some(NumberList {
        segment,
        start: Place {
            segment: place.segment,
            word: start,
        },
        size,
        count,
        bits,
    })
}

/// The struct that the pointer at a place of this segment points to without a landing pad.
#[inline(always)]
pub fn local_struct(segment: &[u8], place: Place, nesting: u32) -> Option<LocalStruct<'_>>
    ensures { (m : List (List ℕ)) → slice_get m place.segment ≡ Some (words_of segment.now) →
        IfSome result (λ found. IsObject m place (local_struct_of found) × (0 < nesting)) }
{
    let pointer = word(segment, place.word)?;
    if pointer == 0 {
        return None;
    }
    let PointerWord::Local(local) = PointerWord::read(pointer) else {
        return None;
    };
    let LocalShape::Struct(size) = local.shape else {
        return None;
    };
    let landing = resolve_local(segment, place, local, 0);
    let start = landing.start?;
    if nesting == 0 || !fits(segment, start, size.words()) {
        return None;
    }
    // For the prover: each word is below 2^64, and so is the number of bytes.
    words_fit(segment);
    Some(LocalStruct {
        segment,
        start: Place {
            segment: place.segment,
            word: start,
        },
        size,
    })
}

/// The list of pointers that the pointer at a place of this segment points to, without a landing
/// pad.
#[inline(always)]
pub fn local_pointers(segment: &[u8], place: Place, nesting: u32) -> Option<PointerRun<'_>>
    ensures { (m : List (List ℕ)) → slice_get m place.segment ≡ Some (words_of segment.now) →
        IfSome result (λ list. IsObject m place (pointers_of list) × (0 < nesting)) }
{
    let pointer = word(segment, place.word)?;
    let PointerWord::Local(local) = PointerWord::read(pointer) else {
        return None;
    };
    let LocalShape::Pointers(count) = local.shape else {
        return None;
    };
    let landing = resolve_local(segment, place, local, 0);
    let start = landing.start?;
    if nesting == 0 || !fits(segment, start, count as u64) {
        return None;
    }
    // For the prover: each word is below 2^64, and so is the number of bytes.
    words_fit(segment);
    Some(PointerRun {
        segment,
        first: Place {
            segment: place.segment,
            word: start,
        },
        count,
    })
}

/// The list of structs that the pointer at a place of this segment points to without a landing pad.
#[inline(always)]
pub fn local_structs(segment: &[u8], place: Place, nesting: u32) -> Option<StructList<'_>>
    ensures { (m : List (List ℕ)) → slice_get m place.segment ≡ Some (words_of segment.now) →
        IfSome result (λ list. IsObject m place (structs_of list) × (0 < nesting)) }
{
    let pointer = word(segment, place.word)?;
    let PointerWord::Local(local) = PointerWord::read(pointer) else {
        return None;
    };
    let LocalShape::Structs(words) = local.shape else {
        return None;
    };
    let landing = resolve_local(segment, place, local, 0);
    let start = landing.start?;
    if nesting == 0 || !fits(segment, start, 1 + words as u64) {
        return None;
    }
    let tag = word(segment, start)?;
    let elements = Elements::read(tag)?;
    if elements.words() > words as u64 {
        return None;
    }
    // For the prover: each word is below 2^64, and so is the number of bytes.
    words_fit(segment);
    Some(StructList {
        segment,
        start: Place {
            segment: place.segment,
            word: start,
        },
        elements,
        words,
    })
}

/// A struct in the segment of its pointer, which has no landing pad.
///
/// Speed: it has a type of its own, since an object whose kind the compiler doesn't know is kept in
/// memory (`tools/time building`).
#[derive(Drop)]
pub struct LocalStruct<'a> {
    pub segment: &'a [u8],
    pub start: Place,
    pub size: StructSize,
}

impl<'a> LocalStruct<'a> {
    /// The struct as an object.
    #[inline(always)]
    pub fn object(&self) -> Object<'a>
        ensures { result ≡ local_struct_of self.now }
    {
        Object {
            segment: self.segment,
            start: self.start,
            body: Body::Struct(self.size),
            traversed: self.size.words(),
        }
    }

    /// The size of its copy.
    #[inline(always)]
    pub fn output(&self, canonical: bool) -> StructSize
        requires room { self.now.start.word + (self.now.size.data_words + self.now.size.pointers)
            ≤ length self.now.segment.now / 8 }
        ensures body { Body.Struct result ≡ output_body_of canonical
            (words_of self.now.segment.now) self.now.start.word (Body.Struct self.now.size) }
        ensures narrower { IsNarrower (Body.Struct self.now.size) (Body.Struct result) }
    {
        output_size(self.segment, self.start.word, self.size, 1, canonical)
    }

    /// The place of its first pointer, if it has one.
    #[inline(always)]
    pub fn first_pointer(&self) -> Place
        requires room { self.now.start.word + (self.now.size.data_words + self.now.size.pointers)
            ≤ length self.now.segment.now / 8 }
        ensures word { result.word ≡ self.now.start.word + self.now.size.data_words }
        ensures segment { result.segment ≡ self.now.start.segment }
        ensures bound { result.word + self.now.size.pointers < 2 ^ 61 }
    {
        // For the prover: each word is below 2^64, and so is the number of bytes.
        words_fit(self.segment);
        Place {
            segment: self.start.segment,
            word: self.start.word + self.size.data_words as usize,
        }
    }

    /// Its pointers.
    #[inline(always)]
    pub fn pointers(&self) -> PointerRun<'a>
        requires room { self.now.start.word + (self.now.size.data_words + self.now.size.pointers)
            ≤ length self.now.segment.now / 8 }
        ensures content { result.segment.now ≡ self.now.segment.now }
        ensures word { result.first.word ≡ self.now.start.word + self.now.size.data_words }
        ensures segment { result.first.segment ≡ self.now.start.segment }
        ensures count { result.count ≡ self.now.size.pointers }
    {
        PointerRun {
            segment: self.segment,
            first: self.first_pointer(),
            count: self.size.pointers as u32,
        }
    }

    /// Whether its first `count` pointers are null.
    ///
    /// Speed: a struct of null pointers is walked and copied as words, without a call
    /// (`tools/time building`).
    #[inline(always)]
    pub fn holds_nulls(&self, count: u16) -> bool
        requires room { self.now.start.word + (self.now.size.data_words + self.now.size.pointers)
            ≤ length self.now.segment.now / 8 }
        requires children { count ≤ self.now.size.pointers }
        ensures { IsTrue result ↔ AreNull (words_of self.now.segment.now)
            (self.now.start.word + self.now.size.data_words) count }
    {
        let first = self.first_pointer().word;
        used(self.segment, first, count as usize) == 0
    }
}
