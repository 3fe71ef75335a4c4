//! Builders of messages.
ghost use Rattle.std.specs.Prelude.{◌≡◌, ◌<◌, ◌^◌, ◌-◌, ◌↔◌, [], false, IsTrue, length, map, None};
ghost use Rattle.capnp_frame.specs.Prelude.{IsWritable};
ghost use Rattle.capnp_wire.specs.Prelude.{unlimited_root, IsViewOf};
ghost use Rattle.capnp_build.specs.Prelude.{used_of, Built, state_of, size_in_words, SetsRoot, SetsRootCanonical, IsNewMessage, GivesBack};
ghost use Rattle.capnp_message.specs.Roots.{IsReadUnlimited};
ghost use Rattle.capnp_message.specs.Heaps.{IsHeapOf};
ghost use Rattle.capnp_message.specs.declared.heap_allocator.AllocationStrategy.TheVariants.{GrowHeuristically};

use crate::heap_allocator::HeapAllocator;
use crate::output_segments::OutputSegments;
use crate::reader::Reader;
use crate::typed_builder::TypedBuilder;
use capnp_build::allocator::Allocator;
use capnp_build::arena::builder_arena::BuilderArena;
use capnp_frame::Result;
use capnp_frame::message::{BuiltMessage, ReaderOptions, ReaderSegments};
use capnp_wire::traits::{FromPointerReader, SetterInput};
use std::alloc::Global;
use std::marker::Model;

/// A message that is built in segments that an allocator hands out. When it is dropped, each
/// segment goes back to the allocator.
///
/// ```
/// let mut message = Builder::new_default(alloc);
/// message.set_root::<text::Owned, &str>("Hello, World!")?;
/// let greeting: text::Reader<'_> = message.get_root_as_reader()?;
/// assert_eq!(rt; greeting.as_bytes(), b"Hello, World!".as_slice());
/// ```
#[derive(Drop)]
pub struct Builder<A: Allocator> {
    pub(crate) arena: BuilderArena<A>,
}

// Clauses see the segments, the location of the root's tree, and the allocator.
impl<A: Allocator> Model for Builder<A> {
    ghost use Rattle.capnp_build.specs.Built.{Built};

    ghost Value = { Built A };

    ghost view = { λ message. message.arena };
}

impl<A: Allocator> Builder<A> {
    /// A message of no segments, whose root is null. From the second segment on, `alloc` serves the
    /// list of its segments.
    pub fn new(alloc: Global, allocator: A) -> Builder<A>
        ensures { IsNewMessage (λ own. own ≡ allocator) result }
    {
        Builder {
            arena: BuilderArena::new(alloc, allocator),
        }
    }

    /// Sets the root to a value.
    ///
    /// The value is written as one block, after the used words of the first segment where these
    /// leave room for it. Else the block goes, with its landing pad, into another segment that has
    /// room, or into a new one.
    ///
    /// Fails with the first of these errors, and the root is then null:
    ///
    /// - as the allocator does to hand out the first segment: with `OutOfMemory`,
    ///   `AllocationTooLarge` or `SegmentTaken`;
    /// - as `measure` of the value does;
    /// - where no segment has room: with `AllocationTooLarge` at 2^32 - 1 segments, with
    ///   `OutOfMemory` where the list of segments can't grow, and as the allocator does to hand out
    ///   a new segment.
    pub fn set_root<T, V: SetterInput<T> + Drop>(&mut self, value: V) -> Result<()>
        ensures { SetsRoot A.Allocator (V.has_tree value) (V.fails value)
            self.old self.new result }
    {
        self.arena.set_root::<T, V>(&value)
    }

    /// Sets the root to a value in canonical form, in the first segment. If this is the first
    /// action on the message, its one segment is then the canonical form.
    ///
    /// Fails with the first of these errors, and the root is then null:
    ///
    /// - as the allocator does to hand out the first segment;
    /// - with `NotOneSegment` where there are more segments;
    /// - as `measure` of the value does;
    /// - with `NotOneSegment` where the segment has no room.
    pub fn set_root_canonical<T, V: SetterInput<T> + Drop>(&mut self, value: V) -> Result<()>
        ensures { SetsRootCanonical A.Allocator (V.has_tree value) (V.fails value)
            self.old self.new result }
    {
        self.arena.set_root_canonical::<T, V>(&value)
    }

    /// The root as a view to read, which borrows from the segments; null where there is no segment.
    /// It has no traversal limit, and no segment is allocated.
    ///
    /// Fails as `any_pointer::Reader::get_as` of `capnp_wire` does for the root.
    pub fn get_root_as_reader<'a, T: FromPointerReader<'a, BuilderArena<A>>>(&'a self) -> Result<T>
        ensures { let pointer = unlimited_root (map used_of self.now.spaces) in
            IsViewOf pointer (T.shows pointer) (T.accepts pointer) (T.fails pointer)
            (T.form_error pointer) result }
    {
        self.arena.get_root_as_reader().get_as()
    }

    /// The used words of each segment, for writing the message. They can be written once there is
    /// a segment.
    pub fn get_segments_for_output(&self) -> OutputSegments<'_, A>
        ensures segments { result ≡ map used_of self.now.spaces }
        ensures writable { 0 < length self.now.spaces → IsWritable result }
    {
        OutputSegments::new(&self.arena)
    }

    /// The number of used words in all segments.
    pub fn size_in_words(&self) -> usize
        ensures { result ≡ size_in_words self.now.spaces }
    {
        self.arena.size_in_words()
    }

    /// The message as one to be read, without a traversal limit and with objects nested up to
    /// 2^31 - 1 deep.
    pub fn into_reader(self) -> Reader<Builder<A>>
        ensures { IsReadUnlimited self result }
    {
        Reader::new(
            self,
            ReaderOptions {
                traversal_limit_in_words: None,
                nesting_limit: i32::MAX,
            },
        )
    }

    /// The same message, with a root of this type.
    pub fn into_typed<T>(self) -> TypedBuilder<T, A>
        ensures { result ≡ self }
    {
        TypedBuilder::new(self)
    }

    /// The allocator, once each segment has gone back to it with its number of used words.
    pub fn into_allocator(self) -> A
        ensures { GivesBack A.Allocator (state_of self) result }
    {
        let Builder { arena } = self;
        arena.into_allocator()
    }
}

impl Builder<HeapAllocator> {
    /// A message over a heap that begins with 1,024 words.
    pub fn new_default(alloc: Global) -> Builder<HeapAllocator>
        ensures { IsNewMessage (IsHeapOf 1024 GrowHeuristically (2 ^ 29)) result }
    {
        Builder::new(alloc, HeapAllocator::new(alloc))
    }
}

// Segment `id` is the used words of the builder's segment `id`.
impl<A: Allocator> ReaderSegments for Builder<A> {
    ghost segments = { λ message. map used_of message.spaces };

    fn get_segment(&self, id: u32) -> Option<&[u8]> {
        self.arena.get_segment(id)
    }

    fn is_empty(&self) -> bool
        ensures empty { IsTrue result ↔ (map used_of self.now.spaces ≡ []) }
        // Where this returns false, the message can be written.
        ensures some { result ≡ false → 0 < length self.now.spaces }
    {
        self.arena.is_empty()
    }
}

impl<A: Allocator> BuiltMessage for Builder<A> {
    ghost has_segment = { λ message. 0 < length message.spaces };

    #[inline(always)]
    fn can_be_written(&self) {
        self.arena.are_writable();
    }
}
