//! The arena that a message is built in.
ghost use Rattle.std.specs.Prelude.{⊤, MatchOption, ◌≡◌, ℕ, ◌+◌, ◌-◌, ◌*◌, ◌/◌, ◌<◌, ◌≤◌, [], ◌∷◌, length, map, max, slice_index_or, take, drop, Some, None, IfErr, IsOk, OnOk, OnErr};
ghost use Rattle.capnp_build.specs.BuilderState.{used_of, space_at};
ghost use Rattle.capnp_build.specs.Built.{state_of, ForRoot, IsRootKind, size_in_words, message, HasNullRoot, KeepsOutside, Built};
ghost use Rattle.capnp_build.specs.Placed.{HasRootAlone, IsZeroAt, KeepsRooms};
ghost use Rattle.capnp_build.specs.RootKind.{ShowsRoot, HoldsForm};
ghost use Rattle.capnp_build.specs.Output.{CanBeWritten};
ghost use Rattle.capnp_layout.specs.Prelude.{Form, Trees, none, tree, count, At, root, pointer};
ghost use Rattle.capnp_wire.specs.Prelude.{pointer_of, unlimited_root};
ghost use Rattle.capnp_build.specs.Outcomes.{ClearsRoot, EnsuresRoot, FirstSegmentError, NotExhaustedWhileAvailable, IsNewMessage, GivesBack};
ghost use Rattle.capnp_build.specs.Blocks.{LeavesNull};
ghost use Rattle.capnp_build.specs.RootViews.{HoldsTree};

use crate::allocator::Allocator;
use crate::arena::location::RootLocation;
use crate::root_kind::{RootKind, read_pointer_word};
use crate::segments::Segments;
use capnp_frame::Result;
use capnp_frame::message::ReaderSegments;
use capnp_wire::any_pointer;
use std::alloc::Global;
use std::marker::Model;

/// The segments of a message, and the location of the tree at its root.
///
/// ```
/// let mut arena = BuilderArena::new(alloc, HeapAllocator::new(alloc));
/// let mut numbers = arena.initn_root::<primitive_list::Owned<u64>>(3)?;
/// numbers.set(1, 500);
/// assert_eq!(rt; numbers.get(1), 500);
/// assert_eq!(rt; arena.size_in_words(), 4);
/// ```
#[derive(Drop)]
pub struct BuilderArena<A: Allocator> {
    pub(crate) segments: Segments<A>,
    pub(crate) location: Option<RootLocation>,
}

impl<A: Allocator> Model for BuilderArena<A> {
    ghost use Rattle.capnp_build.specs.Built.{Built, IsBuilt};

    ghost Value = { Built A };

    ghost view = { λ arena. record {
      spaces = arena.segments.spaces;
      location = arena.location;
      allocator = arena.segments.allocator;
    } };

    ghost invariant = { λ arena. IsBuilt arena.segments.spaces arena.location };
}

impl<A: Allocator> BuilderArena<A> {
    /// A message of no segments, whose root is null.
    pub fn new(alloc: Global, allocator: A) -> BuilderArena<A>
        ensures { IsNewMessage (λ own. own ≡ allocator) result }
    {
        BuilderArena {
            segments: Segments::new(alloc, allocator),
            location: None,
        }
    }

    /// Makes the root null, and its old object zero.
    ///
    /// Fails as `ensure_root` does.
    pub fn clear_root(&mut self) -> Result<()>
        ensures { ClearsRoot A.Allocator self.old self.new result }
    {
        self.zero_root()
    }

    // What `clear_root` does. For the prover: it finds each of these clauses by itself, and makes
    // the record of them.
    fn zero_root(&mut self) -> Result<()>
        ensures leaves { LeavesNull A.Allocator self.old self.new }
        ensures null_word { HasNullRoot self.new.spaces }
        ensures zero { MatchOption self.old.location ⊤ (IsZeroAt self.new.spaces) }
        ensures following { MatchOption self.old.location ⊤ (λ location. 0 < location.start) }
        ensures outside { KeepsOutside self.old.location self.old.spaces self.new.spaces }
        ensures there { OnOk result (0 < length self.new.spaces) }
        ensures none { OnErr result (self.new.spaces ≡ []) }
        ensures kind { IfErr result (λ error. FirstSegmentError A.Allocator self.old error.kind) }
        ensures stays { 0 < length self.old.spaces → self.new.allocator ≡ self.old.allocator }
        ensures size { OnOk result (size_in_words self.new.spaces ≡ max 1 (size_in_words self.old.spaces)) }
        ensures rooms { KeepsRooms self.old.spaces self.new.spaces }
        ensures new_object { self.old.spaces ≡ [] → OnOk result (HasRootAlone self.new.spaces) }
        ensures granted { self.old.spaces ≡ [] → (most : ℕ) → A.grants self.old.allocator 1 most →
            IsOk result × ((space_at self.new.spaces 0).size / 8 ≡ most) }
        ensures available { NotExhaustedWhileAvailable A.Allocator (λ kind. ⊥) self.old result }
    {
        if self.segments.len() == 0 {
            self.location = None;
            self.segments.add(1)?;
            self.segments.grow(0, 1);
            return Ok(());
        }
        self.segments.zero_root(self.location);
        self.location = None;
        Ok(())
    }

    /// Makes a null root in a new segment, where there is no segment yet.
    ///
    /// Fails as the allocator does for the first segment: with `OutOfMemory`,
    /// `AllocationTooLarge(1)` or `SegmentTaken`.
    pub fn ensure_root(&mut self) -> Result<()>
        ensures { EnsuresRoot A.Allocator self.old self.new result }
    {
        if self.segments.len() == 0 {
            return self.clear_root();
        }
        Ok(())
    }

    /// The allocator, to which each segment went back with its used words.
    pub fn into_allocator(self) -> A
        ensures { GivesBack A.Allocator (state_of self) result }
    {
        let BuilderArena {
            segments,
            location: _,
        } = self;
        segments.into_allocator()
    }

    /// The kind of the object at the root.
    pub fn root_kind(&self) -> RootKind
        ensures form { ForRoot self.now.spaces (ShowsRoot result) }
        ensures is_kind { IsRootKind result self.now.spaces }
    {
        match self.location {
            None => RootKind::Null,
            Some(location) => read_pointer_word(location.pointer_word),
        }
    }

    /// The bytes of the tree at the root, without the root pointer; none where the root is null.
    pub fn root_bytes(&self) -> &[u8]
        ensures form { ForRoot self.now.spaces (HoldsForm result.now) }
        ensures tree { HoldsTree self.now.spaces result.now }
    {
        let Some(location) = self.location else {
            return &[];
        };
        let Some(used) = self.segments.get(location.segment) else {
            return &[];
        };
        // For the prover: each of these is below 256.
        each_is_a_byte(used);
        subslice(
            used,
            8 * location.start as usize,
            8 * location.words as usize,
        )
    }

    /// The root as a pointer to read, which borrows the segments as they are; null where there are
    /// none.
    pub fn get_root_as_reader(&self) -> any_pointer::Reader<'_, BuilderArena<A>>
        ensures { let segments = λ (arena : Built A). map used_of arena.spaces in
            pointer_of segments result ≡ unlimited_root (map used_of self.now.spaces) }
    {
        any_pointer::Reader::root_of(self)
    }

    /// The number of used words of all segments.
    pub fn size_in_words(&self) -> usize
        ensures { result ≡ size_in_words self.now.spaces }
    {
        self.segments.size_in_words()
    }

    /// A fact for callers: the used words can be written, once there is a segment.
    pub fn are_writable(&self)
        ensures { CanBeWritten self.now.spaces }
    {
        // For the prover: the used words can be written, once there is a segment.
        self.segments.are_writable();
    }

    /// A fact for callers: there is a tree at the root.
    pub fn root_is_there(&self)
        ensures { 0 < length self.now.spaces → (form : Form) × (children : Trees) × (traversed : ℕ)
            × At (message self.now.spaces) (root ∷ []) (tree form children none) traversed }
    {
        // For the prover: reading a field brings in the invariant, which says this.
        let location = self.location;
    }
}

impl<A: Allocator> ReaderSegments for BuilderArena<A> {
    ghost segments = { λ arena. map used_of arena.spaces };

    fn get_segment(&self, id: u32) -> Option<&[u8]> {
        self.segments.get(id)
    }
}

// This many bytes, from this index on.
fn subslice(bytes: &[u8], from: usize, count: usize) -> &[u8]
    requires { from + count ≤ length bytes.now }
    ensures { result.now ≡ take count (drop from bytes.now) }
{
    let rest = &bytes[from..];
    &rest[..count]
}

// Each byte is a number below 256.
pub(crate) fn each_is_a_byte(bytes: &[u8])
    ensures { (i : ℕ) → slice_index_or bytes.now i 0 < 256 }
{}
