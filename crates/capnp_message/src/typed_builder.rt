//! Builders of messages whose root has a type.
ghost use Rattle.std.specs.Prelude.{◌≡◌, ◌+◌, ◌^◌, ◌-◌, length, map};
ghost use Rattle.std.specs.Borrow.{RestsIfErr, sem};
ghost use Rattle.capnp_wire.specs.Prelude.{unlimited_root, IsViewOf};
ghost use Rattle.capnp_build.specs.Prelude.{used_of, Built, message, SetsRoot, IsNewMessage, InitsView, GetsView, FailsWithNull, LeavesRoot};
ghost use Rattle.capnp_message.specs.Roots.{IsReadUnlimited};
ghost use Rattle.capnp_message.specs.Heaps.{IsHeapOf};
ghost use Rattle.capnp_message.specs.declared.heap_allocator.AllocationStrategy.TheVariants.{GrowHeuristically};

use crate::builder::Builder;
use crate::heap_allocator::HeapAllocator;
use crate::typed_reader::TypedReader;
use capnp_build::allocator::Allocator;
use capnp_build::arena::builder_arena::BuilderArena;
use capnp_build::owned_builder::OwnedBuilder;
use capnp_build::root_kind::RootKind;
use capnp_build::view::{Building, View, init};
use capnp_frame::Result;
use capnp_wire::MessageSize;
use capnp_wire::traits::{Owned, SetterInput};
use std::alloc::Global;
use std::marker::{Model, PhantomData};

/// A message that is built, with a root of type `T`.
///
/// ```
/// let mut message: TypedBuilder<text::Owned, HeapAllocator> = TypedBuilder::new_default(alloc);
/// message.set_root::<&str>("Hello, World!")?;
/// let greeting: text::Reader<'_> = message.get_root_as_reader()?;
/// assert_eq!(rt; greeting.as_bytes(), b"Hello, World!".as_slice());
/// ```
#[derive(Drop)]
pub struct TypedBuilder<T, A: Allocator> {
    message: Builder<A>,
    marker: PhantomData<T>,
}

// Clauses see the builder.
impl<T, A: Allocator> Model for TypedBuilder<T, A> {
    ghost use Rattle.capnp_build.specs.Built.{Built};

    ghost Value = { Built A };

    ghost view = { λ typed. typed.message };
}

impl<T, A: Allocator> TypedBuilder<T, A> {
    ghost use Rattle.std.specs.Borrow.{Lends};
    ghost use Rattle.capnp_message.specs.contracts.typed_builder.TypedBuilder.{the_row as typed_row};
    ghost use Rattle.capnp_message.specs.contracts.builder.Builder.{the_row as inner_row};

    /// Builds the root of this message as a `T`.
    pub fn new(message: Builder<A>) -> TypedBuilder<T, A>
        ensures { result ≡ message }
    {
        TypedBuilder {
            message,
            marker: PhantomData,
        }
    }

    /// The message.
    pub fn into_inner(self) -> Builder<A>
        ensures { result ≡ self }
    {
        let TypedBuilder { message, marker: _ } = self;
        message
    }

    /// The message.
    pub fn borrow_inner(&self) -> &Builder<A>
        ensures { result.now ≡ self.now }
    {
        &self.message
    }

    /// The message, to change it.
    pub fn borrow_inner_mut(&mut self) -> &mut Builder<A>
        ensures* writes_back { sem 𝓛 (Lends
            (typed_row T.row A.row A.Segment.row A.Allocator A.Segment.SegmentSpace)
            (inner_row A.row A.Segment.row A.Allocator A.Segment.SegmentSpace)
            self.entry result (λ message. message)) }
        ensures value { result.now ≡ self.old }
    {
        &mut self.message
    }

    /// The message as one to be read, without a traversal limit and with objects nested up to
    /// 2^31 - 1 deep.
    pub fn into_reader(self) -> TypedReader<Builder<A>, T>
        ensures { IsReadUnlimited self result }
    {
        TypedReader::new(self.into_inner().into_reader())
    }

    /// Sets the root to a value. Fails as `set_root` of the message does.
    pub fn set_root<V: SetterInput<T> + Drop>(&mut self, value: V) -> Result<()>
        ensures { SetsRoot A.Allocator (V.has_tree value) (V.fails value)
            self.old self.new result }
    {
        self.message.set_root::<T, V>(value)
    }

    /// The root as a view of its type to read. Fails as `get_root_as_reader` of the message does.
    pub fn get_root_as_reader<'a>(&'a self) -> Result<T::Reader>
    where
        T: Owned<'a, BuilderArena<A>>,
        ensures { let pointer = unlimited_root (map used_of self.now.spaces) in
            IsViewOf pointer (T.Reader.shows pointer) (T.Reader.accepts pointer)
            (T.Reader.fails pointer) (T.Reader.form_error pointer) result }
    {
        self.message.get_root_as_reader()
    }
}

impl<A: Allocator, T> From<Builder<A>> for TypedBuilder<T, A> {
    ghost from_gives = { λ message typed. typed ≡ message };

    fn from(message: Builder<A>) -> TypedBuilder<T, A> {
        TypedBuilder::new(message)
    }
}

impl<T> TypedBuilder<T, HeapAllocator> {
    /// A message over a heap that begins with 1,024 words.
    pub fn new_default(alloc: Global) -> TypedBuilder<T, HeapAllocator>
        ensures { IsNewMessage (IsHeapOf 1024 GrowHeuristically (2 ^ 29)) result }
    {
        TypedBuilder::new(Builder::new_default(alloc))
    }
}

impl<T, A: Allocator> Building for TypedBuilder<T, A> {
    type Allocator = A;

    ghost built = { λ typed. typed };

    fn root_kind(&self) -> RootKind {
        self.message.root_kind()
    }

    fn root_bytes(&self) -> &[u8] {
        self.message.root_bytes()
    }

    fn set_word(&mut self, index: u16, word: u64) {
        self.message.set_word(index, word);
    }

    fn set_number(&mut self, index: u32, number: u64) {
        self.message.set_number(index, number);
    }

    fn write_bytes(&mut self, index: u32, bytes: &[u8]) {
        self.message.write_bytes(index, bytes);
    }

    fn target_size(&self) -> Result<MessageSize> {
        self.message.target_size()
    }

    fn init_object<K: OwnedBuilder>(&mut self, n: u32) -> Result<()> {
        self.message.init_object::<K>(n)
    }

    fn set_root<U, V: SetterInput<U>>(&mut self, value: &V) -> Result<()> {
        self.message.arena.set_root::<U, V>(value)
    }
}

impl<T: OwnedBuilder, A: Allocator> TypedBuilder<T, A> {
    ghost use Rattle.capnp_message.specs.contracts.typed_builder.TypedBuilder.{the_row as typed_row};

    /// Makes the root a new object of length `n`. Fails as `initn_root` of the message does.
    pub fn initn_root<'a>(&'a mut self, n: u32) -> Result<View<'a, TypedBuilder<T, A>, T>>
        ensures* rests { sem 𝓛 (RestsIfErr
            (typed_row T.row A.row A.Segment.row A.Allocator A.Segment.SegmentSpace)
            self.entry (λ view. view.message.ghost_name) result
            (λ last. FailsWithNull A.Allocator T.OwnedBuilder n self.old last result)) }
        ensures inits { InitsView A.Allocator T.OwnedBuilder n (λ typed. typed)
            (λ view. view.message) self.entry result }
    {
        init::<TypedBuilder<T, A>, T>(self, n)?;
        Ok(View::new(self))
    }

    /// Makes the root a new object of length 0. Fails as `initn_root` does.
    pub fn init_root<'a>(&'a mut self) -> Result<View<'a, TypedBuilder<T, A>, T>>
        ensures* rests { sem 𝓛 (RestsIfErr
            (typed_row T.row A.row A.Segment.row A.Allocator A.Segment.SegmentSpace)
            self.entry (λ view. view.message.ghost_name) result
            (λ last. FailsWithNull A.Allocator T.OwnedBuilder 0 self.old last result)) }
        ensures inits { InitsView A.Allocator T.OwnedBuilder 0 (λ typed. typed)
            (λ view. view.message) self.entry result }
    {
        self.initn_root(0)
    }

    /// The object at the root, as a view that writes it. Fails as `get_root` of the message does.
    pub fn get_root<'a>(&'a mut self) -> Result<View<'a, TypedBuilder<T, A>, T>>
        ensures* rests { sem 𝓛 (RestsIfErr
            (typed_row T.row A.row A.Segment.row A.Allocator A.Segment.SegmentSpace)
            self.entry (λ view. view.message.ghost_name) result
            (λ last. LeavesRoot A.Allocator T.OwnedBuilder self.old last result)) }
        ensures gets { GetsView A.Allocator T.OwnedBuilder (λ typed. typed)
            (λ view. view.message) self.entry result }
    {
        self.message.arena.accept_root::<T>()?;
        Ok(View::new(self))
    }
}
