//! The object at the root of a message that is built, as a view that writes the object.
ghost use Rattle.std.specs.Prelude.{length};
ghost use Rattle.std.specs.Borrow.{RestsIfErr, sem};
ghost use Rattle.capnp_build.specs.Prelude.{message, InitsView, GetsView, FailsWithNull, LeavesRoot};

use crate::builder::Builder;
use capnp_build::allocator::Allocator;
use capnp_build::owned_builder::OwnedBuilder;
use capnp_build::root_kind::RootKind;
use capnp_build::view::{Building, View, init};
use capnp_frame::Result;
use capnp_wire::MessageSize;
use capnp_wire::traits::SetterInput;

impl<A: Allocator> Building for Builder<A> {
    type Allocator = A;

    ghost built = { λ message. message };

    fn root_kind(&self) -> RootKind {
        self.arena.root_kind()
    }

    fn root_bytes(&self) -> &[u8] {
        self.arena.root_bytes()
    }

    fn set_word(&mut self, index: u16, word: u64) {
        self.arena.set_word(index, word);
    }

    fn set_number(&mut self, index: u32, number: u64) {
        self.arena.set_number(index, number);
    }

    fn write_bytes(&mut self, index: u32, bytes: &[u8]) {
        self.arena.write_bytes(index, bytes);
    }

    fn target_size(&self) -> Result<MessageSize> {
        self.arena.target_size()
    }

    fn init_object<K: OwnedBuilder>(&mut self, n: u32) -> Result<()> {
        self.arena.init_object::<K>(n)
    }

    fn set_root<T, V: SetterInput<T>>(&mut self, value: &V) -> Result<()> {
        self.arena.set_root::<T, V>(value)
    }
}

impl<A: Allocator> Builder<A> {
    ghost use Rattle.capnp_message.specs.contracts.builder.Builder.{the_row};

    /// Makes the root a new object of length `n`, all zero, and returns a view that writes it.
    ///
    /// Fails as the allocator does to hand out the first segment. Fails with a kind that `fails` of
    /// the type names, where the type has no object of this length; the types of `capnp_build` fail
    /// with `AllocationTooLarge`. Without room it fails as `set_root` does. The root is then null.
    ///
    /// ```
    /// let mut numbers = message.initn_root::<primitive_list::Owned<u64>>(3)?;
    /// numbers.set(1, 500);
    /// assert_eq!(rt; numbers.get(1), 500);
    /// ```
    pub fn initn_root<'a, K: OwnedBuilder>(&'a mut self, n: u32) -> Result<View<'a, Builder<A>, K>>
        ensures* rests { sem 𝓛 (RestsIfErr
            (the_row A.row A.Segment.row A.Allocator A.Segment.SegmentSpace)
            self.entry (λ view. view.message.ghost_name) result
            (λ last. FailsWithNull A.Allocator K.OwnedBuilder n self.old last result)) }
        ensures inits { InitsView A.Allocator K.OwnedBuilder n (λ message. message)
            (λ view. view.message) self.entry result }
    {
        init::<Builder<A>, K>(self, n)?;
        Ok(View::new(self))
    }

    /// Makes the root a new object of length 0, and returns a view that writes it. Fails as
    /// `initn_root` does.
    pub fn init_root<'a, K: OwnedBuilder>(&'a mut self) -> Result<View<'a, Builder<A>, K>>
        ensures* rests { sem 𝓛 (RestsIfErr
            (the_row A.row A.Segment.row A.Allocator A.Segment.SegmentSpace)
            self.entry (λ view. view.message.ghost_name) result
            (λ last. FailsWithNull A.Allocator K.OwnedBuilder 0 self.old last result)) }
        ensures inits { InitsView A.Allocator K.OwnedBuilder 0 (λ message. message)
            (λ view. view.message) self.entry result }
    {
        self.initn_root::<K>(0)
    }

    /// The object at the root, as a view that writes it.
    ///
    /// Fails as the allocator does to hand out the first segment. Fails with a kind that
    /// `form_error` of the type names, where the type doesn't accept the object; the types of
    /// `capnp_build` fail with `WrongPointerKind` or `TextNotTerminated`, as their reading views
    /// do. The root stays the same.
    pub fn get_root<'a, K: OwnedBuilder>(&'a mut self) -> Result<View<'a, Builder<A>, K>>
        ensures* rests { sem 𝓛 (RestsIfErr
            (the_row A.row A.Segment.row A.Allocator A.Segment.SegmentSpace)
            self.entry (λ view. view.message.ghost_name) result
            (λ last. LeavesRoot A.Allocator K.OwnedBuilder self.old last result)) }
        ensures gets { GetsView A.Allocator K.OwnedBuilder (λ message. message)
            (λ view. view.message) self.entry result }
    {
        self.arena.accept_root::<K>()?;
        Ok(View::new(self))
    }
}
