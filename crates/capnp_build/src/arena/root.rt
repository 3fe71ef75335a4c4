//! The object at the root of a message that is built, as a view that writes it.
ghost use Rattle.std.specs.Prelude.{◌+◌, ◌<◌, ◌≤◌, [], length, None, OnErr};
ghost use Rattle.std.specs.Borrow.{RestsIfErr, sem};
ghost use Rattle.capnp_build.specs.Built.{message};
ghost use Rattle.capnp_build.specs.Outcomes.{LooksAtRoot};
ghost use Rattle.capnp_build.specs.RootViews.{InitsView, GetsView, FailsWithNull, LeavesRoot};

use crate::allocator::Allocator;
use crate::arena::builder_arena::BuilderArena;
use crate::owned_builder::OwnedBuilder;
use crate::view::{View, init};
use capnp_frame::Result;

impl<A: Allocator> BuilderArena<A> {
    ghost use Rattle.capnp_build.specs.contracts.arena.builder_arena.BuilderArena.{the_row};

    /// Makes the root a new object of length `n`, and returns a view that writes it.
    ///
    /// Fails as `BuilderArena::init_object` does, and the root is then null.
    pub fn initn_root<'a, K: OwnedBuilder>(
        &'a mut self,
        n: u32,
    ) -> Result<View<'a, BuilderArena<A>, K>>
        ensures* rests { sem 𝓛 (RestsIfErr
            (the_row A.row A.Segment.row A.Allocator A.Segment.SegmentSpace) self.entry
            (λ view. view.message.ghost_name) result
            (λ last. FailsWithNull A.Allocator K.OwnedBuilder n self.old last result)) }
        ensures inits { InitsView A.Allocator K.OwnedBuilder n (λ arena. arena)
            (λ view. view.message) self.entry result }
    {
        init::<BuilderArena<A>, K>(self, n)?;
        Ok(View::new(self))
    }

    /// Makes the root a new object of length 0, and returns a view that writes it. Fails as
    /// `initn_root` does.
    pub fn init_root<'a, K: OwnedBuilder>(&'a mut self) -> Result<View<'a, BuilderArena<A>, K>>
        ensures* rests { sem 𝓛 (RestsIfErr
            (the_row A.row A.Segment.row A.Allocator A.Segment.SegmentSpace) self.entry
            (λ view. view.message.ghost_name) result
            (λ last. FailsWithNull A.Allocator K.OwnedBuilder 0 self.old last result)) }
        ensures inits { InitsView A.Allocator K.OwnedBuilder 0 (λ arena. arena)
            (λ view. view.message) self.entry result }
    {
        self.initn_root::<K>(0)
    }

    /// Tests that the object at the root can be viewed as this type. The root stays as it is.
    ///
    /// Fails as the allocator does for the first segment, where there is none, and with a kind that
    /// `form_error` of the type names, where the type doesn't accept the object.
    pub fn accept_root<K: OwnedBuilder>(&mut self) -> Result<()>
        ensures { LooksAtRoot A.Allocator K.OwnedBuilder self.old self.new result }
    {
        self.ensure_root()?;
        K::accept(self.root_kind(), self.root_bytes())
    }

    /// The object at the root, as a view that writes it. Fails as `accept_root` does, and the root
    /// stays as it is.
    pub fn get_root<'a, K: OwnedBuilder>(&'a mut self) -> Result<View<'a, BuilderArena<A>, K>>
        ensures* rests { sem 𝓛 (RestsIfErr
            (the_row A.row A.Segment.row A.Allocator A.Segment.SegmentSpace) self.entry
            (λ view. view.message.ghost_name) result
            (λ last. LeavesRoot A.Allocator K.OwnedBuilder self.old last result)) }
        ensures gets { GetsView A.Allocator K.OwnedBuilder (λ arena. arena)
            (λ view. view.message) self.entry result }
    {
        self.accept_root::<K>()?;
        Ok(View::new(self))
    }
}
