//! Walks that test whether objects are laid out in canonical form.
ghost use Rattle.std.specs.Prelude.{◌≡◌, ◌≢◌, ◌↔◌, ◌+◌, ◌/◌, ◌^◌, ◌<◌, ◌≤◌, ℕ, [], ◌∷◌, length, slice_get, Option, Some, IfOk, IfErr, IsTrue, true, false};
ghost use Rattle.capnp_layout.specs.Prelude.{words_of, pointer_kind, message_of, IsObject, shape_of, room_of, words_in, root, segment_of, places_in, end_of};
ghost use Rattle.std.specs.Result.{IsErrAnd};
ghost use Rattle.capnp_frame.specs.declared.error.ErrorKind.{ErrorKind};
ghost use Rattle.capnp_wire.specs.Canonical.{IsCanonical};
ghost use Rattle.capnp_wire.specs.Tested.{NextOf, PaddedOf, IsTruncated, links_at, PassesAt, MeetsAt, FailsAt, Ends, fails_with, not_canonical};
ghost use Rattle.capnp_layout.specs.declared.place.Place.{Place};

use crate::layout::canonical_rules::{body_has_zero_padding, is_next, is_truncated};
use crate::layout::walk::Walk;
use capnp_frame::Result;
use capnp_frame::message::ReaderSegments;
use capnp_layout::fast_path::{local_list, local_struct};
use capnp_layout::object::{Object, object_in};
use capnp_layout::place::{Place, existing_word, pointer_at};
use capnp_layout::pointer_slots::PointerSlots;

/// A walk over the objects of a message of one segment, and the first word after the objects that
/// were tested.
#[derive(Drop)]
pub(crate) struct CanonicalWalk {
    walk: Walk,
    next: usize,
}

/// What a pointer points to: null; an object that isn't canonical; or an object that is canonical
/// by itself, with its pointers, which are still to be tested.
#[derive(Drop)]
pub(crate) enum Met {
    Null,
    NotCanonical,
    Pointers(PointerSlots),
}

impl CanonicalWalk {
    /// A walk that begins: only the root pointer is before the next free word.
    pub(crate) fn new(limit: Option<usize>) -> CanonicalWalk
        ensures left { result.walk.left ≡ limit }
        ensures next { result.next ≡ 1 }
    {
        CanonicalWalk {
            walk: Walk::new(limit),
            next: 1,
        }
    }

    /// The first word after all objects that were tested.
    pub(crate) fn next(&self) -> usize
        ensures { result ≡ self.now.next }
    {
        self.next
    }

    /// Whether the object that the pointer at a word points to, and all below it, are laid out as
    /// in canonical form, from the next free word on. The walk goes in preorder, and stops at the
    /// first object that isn't canonical, or at the first error.
    #[inline(always)]
    #[cycle(testing)]
    pub(crate) fn test<S: ReaderSegments>(
        &mut self,
        segments: &S,
        segment: &[u8],
        word: usize,
        nesting: u32,
    ) -> Result<bool>
        requires one { message_of (S.segments segments.now) ≡ words_of segment.now ∷ [] }
        requires before { word < self.now.next }
        requires within { self.now.next ≤ length segment.now / 8 }
        ensures passed { let place : Place = record { segment = 0; word = word } in
            IfOk result (λ passes. passes ≡ true →
            PassesAt (words_of segment.now) (place ∷ []) nesting
            self.old.walk.left self.new.walk.left self.old.next self.new.next) }
        ensures ended { let place : Place = record { segment = 0; word = word } in
            IfOk result (λ passes. passes ≡ false → Ends (words_of segment.now) (place ∷ []) nesting
            self.old.walk.left self.old.next not_canonical) }
        ensures errors { let place : Place = record { segment = 0; word = word } in
            IfErr result (λ error. Ends (words_of segment.now) (place ∷ []) nesting
            self.old.walk.left self.old.next (fails_with error.kind)) }
    {
        match self.visit(segments, segment, word, nesting)? {
            Met::Null => Ok(true),
            Met::NotCanonical => Ok(false),
            Met::Pointers(pointers) => {
                // Speed: most objects have no pointers, and only those that have some take a call
                // (workload `canon`).
                if pointers.is_empty() {
                    return Ok(true);
                }
                self.test_pointers(segments, segment, pointers, nesting - 1)
            }
        }
    }

    // Tests all objects that these pointers point to.
    // Speed: the recursion goes through this call, and all else is inlined (workload `canon`).
    #[inline(never)]
    #[cycle(testing)]
    fn test_pointers<S: ReaderSegments>(
        &mut self,
        segments: &S,
        segment: &[u8],
        mut pointers: PointerSlots,
        nesting: u32,
    ) -> Result<bool>
        requires one { message_of (S.segments segments.now) ≡ words_of segment.now ∷ [] }
        requires first { segment_of pointers ≡ 0 }
        requires before { end_of pointers ≤ self.now.next }
        requires within { self.now.next ≤ length segment.now / 8 }
        ensures passed { IfOk result (λ passes. passes ≡ true →
            PassesAt (words_of segment.now) (places_in pointers) nesting
            self.old.walk.left self.new.walk.left self.old.next self.new.next) }
        ensures ended { IfOk result (λ passes. passes ≡ false → Ends (words_of segment.now)
            (places_in pointers) nesting self.old.walk.left self.old.next not_canonical) }
        ensures errors { IfErr result (λ error.
            Ends (words_of segment.now) (places_in pointers) nesting
            self.old.walk.left self.old.next (fails_with error.kind)) }
    {
        'pointers: while !pointers.is_empty() {
            let place = pointers.take();
            if !self.test(segments, segment, place.word, nesting)? {
                return Ok(false);
            }
        }
        Ok(true)
    }

    // Enters the object that the pointer at a word points to, and tests it alone.
    // Speed: what most pointers point to is found in the segment in hand (workload `canon`).
    #[inline(always)]
    fn visit<S: ReaderSegments>(
        &mut self,
        segments: &S,
        segment: &[u8],
        word: usize,
        nesting: u32,
    ) -> Result<Met>
        requires one { message_of (S.segments segments.now) ≡ words_of segment.now ∷ [] }
        requires before { word < self.now.next }
        requires within { self.now.next ≤ length segment.now / 8 }
        ensures found { MeetsAt (words_of segment.now) word nesting self.old self.new result }
        ensures errors { FailsAt (words_of segment.now) word nesting self.old result }
    {
        let pointer = existing_word(segment, word)?;
        if pointer == 0 {
            return Ok(Met::Null);
        }
        if pointer % 4 == 2 {
            return Ok(Met::NotCanonical);
        }
        let place = Place { segment: 0, word };
        if let Some(found) = local_struct(segment, place, nesting) {
            return self.enter(segment, pointer, word, &found.object());
        }
        if let Some(list) = local_list(segment, place, nesting) {
            return self.enter(segment, pointer, word, &list.object());
        }
        self.visit_object(segments, segment, pointer, word, nesting)
    }

    // Does the same for a pointer of any kind but a far pointer.
    #[inline(never)]
    fn visit_object<S: ReaderSegments>(
        &mut self,
        segments: &S,
        segment: &[u8],
        pointer: u64,
        word: usize,
        nesting: u32,
    ) -> Result<Met>
        requires one { message_of (S.segments segments.now) ≡ words_of segment.now ∷ [] }
        requires before { word < self.now.next }
        requires within { self.now.next ≤ length segment.now / 8 }
        requires there { slice_get (words_of segment.now) word ≡ Some pointer }
        requires not_far { pointer_kind pointer ≢ 2 }
        ensures found { MeetsAt (words_of segment.now) word nesting self.old self.new result }
        ensures errors { FailsAt (words_of segment.now) word nesting self.old result }
    {
        let place = Place { segment: 0, word };
        let Some(object) = object_in(segments, segment, place, nesting)? else {
            return Ok(Met::Null);
        };
        self.enter(segment, pointer, word, &object)
    }

    // Enters an object that the pointer at a word points to, and tests it alone.
    #[inline(always)]
    fn enter(
        &mut self,
        segment: &[u8],
        pointer: u64,
        word: usize,
        object: &Object<'_>,
    ) -> Result<Met>
        requires before { word < self.now.next }
        requires within { self.now.next ≤ length segment.now / 8 }
        requires there { slice_get (words_of segment.now) word ≡ Some pointer }
        requires not_far { pointer_kind pointer ≢ 2 }
        requires object { let place : Place = record { segment = 0; word = word } in
            IsObject (words_of segment.now ∷ []) place object.now }
        ensures found { (nesting : ℕ) → 0 < nesting →
            MeetsAt (words_of segment.now) word nesting self.old self.new result }
        ensures errors { (nesting : ℕ) → 0 < nesting →
            FailsAt (words_of segment.now) word nesting self.old result }
    {
        self.walk.count_traversed(object.traversed)?;
        if !is_laid_out(segment, pointer, word, self.next, object) {
            return Ok(Met::NotCanonical);
        }
        self.next += object.body.words() as usize;
        Ok(Met::Pointers(object.pointers()))
    }
}

/// Whether the one segment of a message is the canonical form of its root tree.
///
/// Speed: it is a call, so that few instructions decide that a message has more segments (workload
/// `roots`).
#[inline(never)]
pub(crate) fn is_canonical<S: ReaderSegments>(
    segments: &S,
    segment: &[u8],
    nesting: u32,
    limit: Option<usize>,
) -> Result<bool>
    requires { message_of (S.segments segments.now) ≡ words_of segment.now ∷ [] }
    ensures said { IfOk result (λ is. IsTrue is ↔ IsCanonical (words_of segment.now ∷ [])) }
    ensures errors { IfErr result (λ error.
        Ends (words_of segment.now) (root ∷ []) nesting limit 1 (fails_with error.kind)) }
    ensures exact { (kind : ErrorKind) →
        Ends (words_of segment.now) (root ∷ []) nesting limit 1 (fails_with kind) →
        IsErrAnd result (λ error. error.kind ≡ kind) }
{
    let root = Place {
        segment: 0,
        word: 0,
    };
    pointer_at(segments, root)?;
    let mut walk = CanonicalWalk::new(limit);
    let passes = walk.test(segments, segment, 0, nesting)?;
    Ok(passes && walk.next() == segment.len() / 8)
}

// Whether an object alone is as the canonical form has it.
#[inline(always)]
fn is_laid_out(segment: &[u8], pointer: u64, word: usize, next: usize, object: &Object<'_>) -> bool
    requires before { word < next }
    requires bound { next < 2 ^ 62 }
    requires room { object.now.start.word + room_of object.now.body
        ≤ length object.now.segment.now / 8 }
    requires elements { words_in object.now.body ≤ room_of object.now.body }
    ensures { let words = words_of object.now.segment.now in
        let shape = shape_of words object.now.start object.now.body in
        let is_next = NextOf pointer word next object.now.body in
        (is_next → next + words_in object.now.body ≤ length segment.now / 8) →
        IsTrue result ↔ (is_next × PaddedOf (words_of segment.now) next object.now.body
        × IsTruncated shape.form (links_at words shape.children)) }
{
    is_next(pointer, word, next, object.body)
        && body_has_zero_padding(segment, next, object.body)
        && is_truncated(object)
}
