//! Allocators of segments.
ghost use Rattle.std.specs.Prelude.{◌≡◌, ℕ, ◌+◌, ◌*◌, ◌/◌, ◌^◌, ◌<◌, ◌≤◌, ◌⊎◌, List, length};
ghost use Rattle.capnp_frame.specs.declared.error.ErrorKind.{ErrorKind};
ghost use Rattle.capnp_frame.specs.Prelude.{IsPreorder};
ghost use Rattle.capnp_build.specs.Bytes.{ZeroFrom};
ghost use Rattle.capnp_build.specs.Out.{Out, IsOut};
ghost use Rattle.capnp_build.specs.Allocating.{HandsOut, TakesBack};

use crate::segment_space::SegmentSpace;
use capnp_frame::Result;

/// Hands out segments, and takes them back.
///
/// For implementers: `out` says which segments may be out, each by its length in bytes and whether
/// it is caller-provided. `same` is what no call changes, as the caller-provided region of an
/// allocator. `grants` says which requests have to be granted, where an allocator can promise that:
/// memory is never sure to be there. `fails` says with which kinds a request may fail, and
/// `returns` what taking a segment back does, by the segment and its used words. An allocator may
/// leave the last two open where nothing depends on them. Code over any allocator still shows for
/// how many words it asked where a request failed, and with how many used words it gave each
/// segment back.
///
/// ```
/// let mut heap = HeapAllocator::new(alloc).first_segment_words(16);
/// assert_eq!(rt; heap.allocate_segment(1)?.len(), 128);
/// assert_eq!(rt; heap.allocate_segment(100)?.len(), 800);
/// ```
pub trait Allocator: Drop {
    /// The bytes of a segment.
    type Segment: SegmentSpace;

    /// Which segments may be out of the allocator.
    ghost out: { Self → List Out → Type 0 };

    /// What no call changes.
    ghost same: { Self → Self → Type 0 };

    /// Which requests have to be granted: of this many words, by a segment of that many words.
    ghost grants: { Self → ℕ → ℕ → Type 0 };

    /// With which kinds a request of this many words may fail.
    ghost fails: { Self → ℕ → ErrorKind → Type 0 };

    /// How taking back a segment, with this many used words, changes the allocator: from the one
    /// state to the other.
    ghost returns: { Self → Out → ℕ → Self → Type 0 };

    /// Hands out a segment of at least this many words and fewer than 2^32, all zero.
    ///
    /// Fails only with `OutOfMemory`, with `AllocationTooLarge` of the words asked for, or with
    /// `SegmentTaken`, and with that only while a segment is out that is large enough.
    fn allocate_segment(&mut self, minimum_size: u32) -> Result<Self::Segment>
        ensures { HandsOut out same grants fails Self.Segment.content Self.Segment.is_provided
            minimum_size self.old self.new result };

    /// Takes a segment back, whose first `words_used` words were used. The rest of it is zero.
    fn deallocate_segment(&mut self, segment: Self::Segment, words_used: u32)
        requires is_out { IsOut (out self.old) (record {
          length = length (Self.Segment.content segment);
          is_provided = Self.Segment.is_provided segment;
        }) }
        requires used { 8 * words_used ≤ length (Self.Segment.content segment) }
        requires zero { ZeroFrom (8 * words_used) (Self.Segment.content segment) }
        ensures { TakesBack out same returns
            (record { length = length (Self.Segment.content segment); is_provided = Self.Segment.is_provided segment })
            words_used self.old self.new };

    /// What no call changes, several calls don't change, either.
    ghost keeps: { IsPreorder same };

    /// Some list of segments, which may be empty, is out.
    ghost accounts: { (allocator : Self) → (list : List Out) × out allocator list };
}

/// A reference to an allocator, which its owner keeps.
impl<A: Allocator> Allocator for &mut A {
    type Segment = A::Segment;

    ghost use Rattle.std.specs.Prelude.{◌≡◌, refl};
    ghost use Rattle.std.proofs.Common.{◌∙◌};

    ghost out = { λ allocator list. A.out allocator.now list };

    ghost same = { λ old new. (new.ghost_name ≡ old.ghost_name) × A.same old.now new.now };

    ghost grants = { λ allocator asked words. A.grants allocator.now asked words };

    ghost fails = { λ allocator asked kind. A.fails allocator.now asked kind };

    ghost returns = { λ old segment words new. (new.ghost_name ≡ old.ghost_name)
        × A.returns old.now segment words new.now };

    fn allocate_segment(&mut self, minimum_size: u32) -> Result<A::Segment> {
        (**self).allocate_segment(minimum_size)
    }

    fn deallocate_segment(&mut self, segment: A::Segment, words_used: u32) {
        (**self).deallocate_segment(segment, words_used);
    }

    ghost keeps = { record {
      reflexive = λ s. (refl, A.keeps.reflexive s.now);
      transitive = λ s t u p q. (q.0 ∙ p.0, A.keeps.transitive s.now t.now u.now p.1 q.1);
    } };

    ghost accounts = { λ s. A.accounts s.now };
}
