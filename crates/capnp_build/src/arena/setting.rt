//! The root of a message, set to a value or to a new object.
ghost use Rattle.std.specs.Prelude.{◌≡◌, ℕ, ◌-◌, ◌/◌, ◌<◌, length, false, true, Some, None};
ghost use Rattle.capnp_build.specs.Built.{message, Built};
ghost use Rattle.capnp_build.specs.Placed.{NewWords};
ghost use Rattle.capnp_build.specs.NewBody.{Fits, zero_form};
ghost use Rattle.capnp_layout.specs.Prelude.{none, root};
ghost use Rattle.capnp_build.specs.Outcomes.{SetsRoot, SetsRootCanonical, InitsRoot};
ghost use Rattle.capnp_build.specs.Blocks.{IsNew, PutsBlock};

use crate::allocator::Allocator;
use crate::arena::builder_arena::BuilderArena;
use crate::new_object::NewObject;
use crate::object::NewBody;
use crate::owned_builder::OwnedBuilder;
use capnp_frame::{Error, ErrorKind, Result};
use capnp_wire::traits::SetterInput;

impl<A: Allocator> BuilderArena<A> {
    /// Sets the root to a value.
    ///
    /// Fails as the allocator does for the first segment, and as `measure` of the value does. Where
    /// no segment has room, it fails with `AllocationTooLarge` at 2^32 - 1 segments, with
    /// `OutOfMemory` where the list of segments can't grow, and else as the allocator does for a
    /// further one. The root is then null.
    pub fn set_root<T, V: SetterInput<T>>(&mut self, value: &V) -> Result<()>
        ensures { SetsRoot A.Allocator (V.has_tree value.now) (V.fails value.now)
            self.old self.new result }
    {
        self.clear_root()?;
        let words = value.measure(false)?;
        self.put(false, value, words)
    }

    /// Makes the root a new object of length `n`, or null where the type has none of this length.
    ///
    /// Fails as the allocator does for the first segment, with a kind that `fails` of the type
    /// names for `n`, and where no segment has room as `set_root` does. The root is then null.
    pub fn init_object<K: OwnedBuilder>(&mut self, n: u32) -> Result<()>
        ensures { InitsRoot A.Allocator K.OwnedBuilder n self.old self.new result }
    {
        self.clear_root()?;
        match K::object(n)? {
            Some(body) => self.put_new(body),
            None => Ok(()),
        }
    }

    // Places a new object, where the root is null.
    fn put_new(&mut self, body: NewBody) -> Result<()>
        requires there { 0 < length self.old.spaces }
        requires null { self.old.location ≡ None }
        requires fits { Fits body }
        ensures { (words : ℕ) × NewWords (zero_form body) words
            × PutsBlock A.Allocator (IsNew (zero_form body)) words self.old self.new result }
    {
        let new_object = NewObject::new(body);
        let words = new_object.words();
        self.put(false, &new_object, words)
    }

    /// Sets the root to a value in canonical form, in the first segment.
    ///
    /// Fails with the first of these errors: the allocator's for the first segment; `NotOneSegment`
    /// where there are more segments; the error of `measure` of the value; `NotOneSegment` where
    /// the segment has no room. The root is then null.
    pub fn set_root_canonical<T, V: SetterInput<T>>(&mut self, value: &V) -> Result<()>
        ensures { SetsRootCanonical A.Allocator (V.has_tree value.now) (V.fails value.now)
            self.old self.new result }
    {
        self.clear_root()?;
        if self.segments.len() > 1 {
            return Err(Error::from_kind(ErrorKind::NotOneSegment));
        }
        let words = value.measure(true)?;
        if words > self.segments.room(0) {
            return Err(Error::from_kind(ErrorKind::NotOneSegment));
        }
        self.put_local(true, value, words);
        Ok(())
    }
}
