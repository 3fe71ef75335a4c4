//! What a walk does at one pointer, without going below.
ghost use Rattle.std.specs.Prelude.{◌≡◌, ◌+◌, ◌/◌, ◌<◌, ◌≤◌, Bool, ℕ, List, [], ◌∷◌, length, slice_get, Some, IfErr, IfOk, OnOk, MatchOption, IsTrue};
ghost use Rattle.capnp_layout.specs.Prelude.{words_of, message_of, IsObject, object_of, local_struct_of, pointers_of, WalkError};
ghost use Rattle.capnp_wire.specs.Traversed.{counted, EntersObject, Walked};

use crate::layout::walk::Walk;
use capnp_frame::Result;
use capnp_frame::message::ReaderSegments;
use capnp_layout::fast_path::LocalStruct;
use capnp_layout::number_list::NumberList;
use capnp_layout::object::{Object, object_in};
use capnp_layout::place::Place;
use capnp_layout::pointer_run::PointerRun;

impl Walk {
    /// Enters the object that the pointer at a place of this segment points to, and nothing below
    /// it; `None` for null.
    #[inline(always)]
    pub(crate) fn visit<'a, S: ReaderSegments>(
        &mut self,
        segments: &'a S,
        segment: &'a [u8],
        place: Place,
        nesting: u32,
        canonical: bool,
    ) -> Result<Option<Object<'a>>>
        requires content { slice_get (message_of (S.segments segments.now)) place.segment
            ≡ Some (words_of segment.now) }
        ensures found { let m = message_of (S.segments segments.now) in
            IfOk result (λ met. MatchOption met
            (Walked m canonical place nesting
            self.old.left self.new.left (counted self.old) (counted self.new))
            (λ object. EntersObject m canonical place object nesting
            self.old.left self.new.left (counted self.old) (counted self.new))) }
        ensures errors { let m = message_of (S.segments segments.now) in
            IfErr result (λ error. WalkError m (place ∷ []) nesting self.old.left error.kind) }
    {
        let Some(object) = object_in(segments, segment, place, nesting)? else {
            return Ok(None);
        };
        self.enter(&object, canonical)?;
        Ok(Some(object))
    }

    /// Counts a struct against the traversal limit, and the words of its copy, without following
    /// its pointers. Returns whether all of them are null.
    #[inline(always)]
    pub(crate) fn visit_struct(&mut self, found: &LocalStruct<'_>, canonical: bool) -> Result<bool>
        requires room { found.now.start.word + (found.now.size.data_words + found.now.size.pointers)
            ≤ length found.now.segment.now / 8 }
        ensures found { (m : List (List ℕ)) (place : Place) (nesting : ℕ) →
            IsObject m place (local_struct_of found.now) → 0 < nesting → IfOk result (λ alone.
            EntersObject m canonical place (local_struct_of found.now) nesting
            self.old.left self.new.left (counted self.old) (counted self.new)
            × (IsTrue alone → Walked m canonical place nesting
            self.old.left self.new.left (counted self.old) (counted self.new))) }
        ensures errors { (m : List (List ℕ)) (place : Place) (nesting : ℕ) →
            IsObject m place (local_struct_of found.now) → 0 < nesting → IfErr result (λ error.
            WalkError m (place ∷ []) nesting self.old.left error.kind) }
    {
        self.count_traversed(found.size.words())?;
        self.count(found.output(canonical).words());
        Ok(found.holds_nulls(found.size.pointers))
    }

    /// Counts a list of numbers, which has no pointers, against the traversal limit, and its words.
    #[inline(always)]
    pub(crate) fn visit_numbers(&mut self, list: &NumberList<'_>) -> Result<()>
        ensures found { (m : List (List ℕ)) (canonical : Bool) (place : Place) (nesting : ℕ) →
            IsObject m place (object_of list.now) → 0 < nesting →
            OnOk result (Walked m canonical place nesting
            self.old.left self.new.left (counted self.old) (counted self.new)) }
        ensures errors { (m : List (List ℕ)) (place : Place) (nesting : ℕ) →
            IsObject m place (object_of list.now) → 0 < nesting → IfErr result (λ error.
            WalkError m (place ∷ []) nesting self.old.left error.kind) }
    {
        self.count_traversed(list.traversed())?;
        self.count(list.words());
        Ok(())
    }

    /// Counts a list of pointers against the traversal limit, and its words, without following the
    /// pointers.
    #[inline(always)]
    pub(crate) fn visit_pointers(&mut self, list: &PointerRun<'_>) -> Result<()>
        ensures found { (m : List (List ℕ)) (canonical : Bool) (place : Place) (nesting : ℕ) →
            IsObject m place (pointers_of list.now) → 0 < nesting →
            OnOk result (EntersObject m canonical place (pointers_of list.now) nesting
            self.old.left self.new.left (counted self.old) (counted self.new)) }
        ensures errors { (m : List (List ℕ)) (place : Place) (nesting : ℕ) →
            IsObject m place (pointers_of list.now) → 0 < nesting → IfErr result (λ error.
            WalkError m (place ∷ []) nesting self.old.left error.kind) }
    {
        let words = list.count as u64;
        self.count_traversed(words)?;
        self.count(words);
        Ok(())
    }
}
