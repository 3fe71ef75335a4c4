//! Where the block of a value is placed, and the pointer to it.
ghost use Rattle.std.specs.Prelude.{◌≡◌, ℕ, ◌+◌, ◌-◌, ◌*◌, ◌/◌, ◌^◌, ◌<◌, ◌≤◌, List, length, Some, None, IfOk, IfErr, OnErr};
ghost use Rattle.capnp_frame.specs.declared.error.ErrorKind.TheVariants.{SegmentTaken};
ghost use Rattle.capnp_build.specs.Out.{Out, HasLarge};
ghost use Rattle.capnp_build.specs.BuilderState.{space_at, free_words_of, pairs};
ghost use Rattle.capnp_build.specs.Built.{state_of, IsSet, IsWhole};
ghost use Rattle.capnp_build.specs.Placed.{SegmentError, IsAdded};
ghost use Rattle.capnp_layout.specs.Prelude.{count, root, pointer};
ghost use Rattle.capnp_wire.specs.Prelude.{HasWords};
ghost use Rattle.capnp_build.specs.Blocks.{LeavesNull, PutsBlock, PlacesBlock};

use crate::allocator::Allocator;
use crate::arena::builder_arena::BuilderArena;
use capnp_frame::Result;
use capnp_wire::traits::SetterInput;

impl<A: Allocator> BuilderArena<A> {
    // A segment with room for this many words, other than the first one: an old one, or a new one.
    pub(crate) fn find_room(&mut self, words: u32) -> Result<u32>
        requires there { 0 < length self.old.spaces }
        requires null { self.old.location ≡ None }
        requires few { words ≤ 2 ^ 29 }
        ensures found { IfOk result (λ segment. (0 < segment) × (segment < length self.new.spaces)
            × (words ≤ free_words_of (space_at self.new.spaces segment))) }
        ensures first { IfOk result (λ segment. (i : ℕ) → 0 < i → i < segment →
            free_words_of (space_at self.old.spaces i) < words) }
        ensures older { IfOk result (λ segment. segment < length self.old.spaces →
            self.new.spaces ≡ self.old.spaces) }
        ensures newer { IfOk result (λ segment. length self.old.spaces ≤ segment →
            (segment ≡ length self.old.spaces) × IsAdded self.old.spaces self.new.spaces) }
        ensures leaves { LeavesNull A.Allocator self.old self.new }
        ensures kept { OnErr result (self.new.spaces ≡ self.old.spaces) }
        ensures full { OnErr result ((i : ℕ) → 0 < i → i < length self.old.spaces →
            free_words_of (space_at self.old.spaces i) < words) }
        ensures kind { IfErr result (λ error. SegmentError A.Allocator (state_of self.old) words error.kind) }
        ensures taken { IfErr result (λ error. error.kind ≡ SegmentTaken → (others : List Out) →
            A.out self.old.allocator (pairs self.old.spaces others) →
            HasLarge words (pairs self.old.spaces others)) }
    {
        let count = self.segments.len();
        for segment in 1..count {
            if words <= self.segments.room(segment) {
                return Ok(segment);
            }
        }
        self.segments.add(words)?;
        Ok(count)
    }

    pub(crate) fn put_local<T, V: SetterInput<T>>(&mut self, canonical: bool, value: &V, words: u32)
        requires there { 0 < length self.old.spaces }
        requires null { self.old.location ≡ None }
        requires value { HasWords (V.has_tree value.now) canonical words }
        requires room { words ≤ free_words_of (space_at self.old.spaces 0) }
        ensures whole { length self.old.spaces ≡ 1 → length (space_at self.old.spaces 0).used ≡ 8 →
            IsWhole (V.has_tree value.now) canonical self.new.spaces }
        ensures block { PlacesBlock A.Allocator (V.has_tree value.now) canonical 0 0 words
            self.old self.new }
    {
        let location = self.segments.append_value(0, canonical, value, words);
        self.segments.point_local(location);
        self.location = Some(location);
    }

    pub(crate) fn put_far<T, V: SetterInput<T>>(
        &mut self,
        segment: u32,
        canonical: bool,
        value: &V,
        words: u32,
    )
        requires within { segment < length self.old.spaces }
        requires other { 0 < segment }
        requires null { self.old.location ≡ None }
        requires some { 0 < words }
        requires value { HasWords (V.has_tree value.now) canonical words }
        requires room { words + 1 ≤ free_words_of (space_at self.old.spaces segment) }
        ensures { PlacesBlock A.Allocator (V.has_tree value.now) canonical segment 1 words
            self.old self.new }
    {
        self.segments.grow(segment, 1);
        let location = self.segments.append_value(segment, canonical, value, words);
        self.segments.point_far(location);
        self.location = Some(location);
    }

    // Places a value, where the root is null.
    pub(crate) fn put<T, V: SetterInput<T>>(
        &mut self,
        canonical: bool,
        value: &V,
        words: u32,
    ) -> Result<()>
        requires there { 0 < length self.old.spaces }
        requires null { self.old.location ≡ None }
        requires value { HasWords (V.has_tree value.now) canonical words }
        ensures { PutsBlock A.Allocator (IsSet (V.has_tree value.now) canonical) words
            self.old self.new result }
    {
        if words <= self.segments.room(0) {
            self.put_local(canonical, value, words);
            return Ok(());
        }
        let segment = self.find_room(words + 1)?;
        self.put_far(segment, canonical, value, words);
        Ok(())
    }
}
