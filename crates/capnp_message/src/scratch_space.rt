//! An allocator of one caller-provided region, and after it of segments from the heap.
ghost use Rattle.std.specs.Prelude.{◌≡◌, ◌⊎◌, ℕ, ◌*◌, ◌/◌, ◌^◌, ◌<◌, ◌≤◌, true, false, length, IfOk, IfErr, IsSome, IsOk, OnOk, OnErr, None};
ghost use Rattle.std.specs.Option.{ForSome};
ghost use Rattle.capnp_frame.specs.declared.error.ErrorKind.TheVariants.{OutOfMemory};
ghost use Rattle.capnp_build.specs.Prelude.{ZeroFrom, HandsOut};
ghost use Rattle.capnp_message.specs.Next.{size_of};
ghost use Rattle.capnp_message.specs.Region.{IsProvidedAlone, GrantsRegion, HoldsRegion};
ghost use Rattle.capnp_message.specs.Scratch.{scratch_bytes, scratch_provided};

use crate::heap_allocator::{AllocationStrategy, HeapAllocator};
use capnp_build::allocator::Allocator;
use capnp_build::segment_space::SegmentSpace;
use capnp_frame::{Result, Word};
use capnp_wire::traits::SetterInput;
use std::alloc::Global;

/// A segment of a `ScratchSpaceHeapAllocator`.
///
/// ```
/// let mut region = [0; 16];
/// let mut scratch = ScratchSpaceHeapAllocator::new(alloc, &mut region);
/// let provided = scratch.allocate_segment(1)?;
/// assert!(rt; matches!(provided, ScratchSegment::Lent(_)));
/// let owned = scratch.allocate_segment(1)?;
/// ```
#[derive(Drop)]
pub enum ScratchSegment<'a> {
    /// The region.
    Lent(&'a mut [u8]),
    /// A segment from the heap.
    Owned(Vec<u8>),
}

impl<'a> SegmentSpace for ScratchSegment<'a> {
    ghost content = { scratch_bytes };

    ghost is_provided = { scratch_provided };

    fn bytes(&self) -> &[u8] {
        match self {
            ScratchSegment::Lent(provided) => provided.bytes(),
            ScratchSegment::Owned(owned) => owned.bytes(),
        }
    }

    fn write_at(&mut self, at: usize, bytes: &[u8]) {
        match self {
            ScratchSegment::Lent(provided) => provided.write_at(at, bytes),
            ScratchSegment::Owned(owned) => owned.write_at(at, bytes),
        }
    }

    fn zero(&mut self, from: usize, to: usize) {
        match self {
            ScratchSegment::Lent(provided) => provided.zero(from, to),
            ScratchSegment::Owned(owned) => owned.zero(from, to),
        }
    }

    fn write_value<T, V: SetterInput<T>>(
        &mut self,
        from: usize,
        to: usize,
        canonical: bool,
        value: &V,
    ) -> Word {
        match self {
            ScratchSegment::Lent(provided) => provided.write_value::<T, V>(
                from, to, canonical, value,
            ),
            ScratchSegment::Owned(owned) => owned.write_value::<T, V>(from, to, canonical, value),
        }
    }
}

/// Hands out one caller-provided region while it is available and large enough, and else segments
/// from the heap. While the region is available, it is all zero.
///
/// ```
/// let mut region = [0; 8];
/// let mut scratch = ScratchSpaceHeapAllocator::new(alloc, &mut region);
/// let mut message = Builder::new(alloc, &mut scratch);
/// message.set_root::<text::Owned, &str>("Hello, World!")?;
/// assert_eq!(rt; (message.len(), message.size_in_words()), (2, 4));
/// ```
#[derive(Drop)]
pub struct ScratchSpaceHeapAllocator<'a> {
    region: Option<&'a mut [u8]>,
    size: usize,
    heap: HeapAllocator,
    ghost whole: { ForSome region (λ r. length r.now ≡ size) },
    ghost few: { size / 8 < 2 ^ 32 },
    ghost zero: { ForSome region (λ r. ZeroFrom 0 r.now) },
    ghost maximum: { heap.max_segment_words ≡ 2 ^ 29 },
}

impl<'a> ScratchSpaceHeapAllocator<'a> {
    ghost use Rattle.capnp_message.specs.Heaps.{WithHeap};

    /// An allocator of this region, which is made zero, and then of a heap. Bytes after the last
    /// whole word of the region are not used.
    pub fn new(alloc: Global, region: &'a mut [u8]) -> ScratchSpaceHeapAllocator<'a>
        requires { length region.old / 8 < 2 ^ 32 }
        ensures holds { HoldsRegion result.region result.size region.entry }
        ensures next { result.heap.next_size ≡ 1024 }
        ensures strategy { result.heap.allocation_strategy ≡ AllocationStrategy.GrowHeuristically }
    {
        region.fill(0);
        let size = region.len();
        ScratchSpaceHeapAllocator {
            region: Some(region),
            size,
            heap: HeapAllocator::new(alloc),
        }
    }

    /// Sets how many words the first segment of the heap has, at most 2^29.
    pub fn second_segment_words(self, words: u32) -> ScratchSpaceHeapAllocator<'a>
        requires { words ≤ 2 ^ 29 }
        ensures { WithHeap self.entry words self.entry.heap.allocation_strategy result }
    {
        let ScratchSpaceHeapAllocator { region, size, heap } = self;
        ScratchSpaceHeapAllocator {
            region,
            size,
            heap: heap.first_segment_words(words),
        }
    }

    /// Sets how segments from the heap grow.
    pub fn allocation_strategy(self, strategy: AllocationStrategy) -> ScratchSpaceHeapAllocator<'a>
        ensures { WithHeap self.entry self.entry.heap.next_size strategy result }
    {
        let ScratchSpaceHeapAllocator { region, size, heap } = self;
        ScratchSpaceHeapAllocator {
            region,
            size,
            heap: heap.allocation_strategy(strategy),
        }
    }
}

impl<'a> Allocator for ScratchSpaceHeapAllocator<'a> {
    type Segment = ScratchSegment<'a>;

    ghost use Rattle.std.specs.Prelude.{refl};
    ghost use Rattle.std.proofs.Common.{◌∙◌};
    ghost use Rattle.capnp_message.specs.Region.{some_provided};
    ghost use Rattle.capnp_message.specs.Heaps.{KeepsHeap, CountsHeapSegment, ReturnsTo};

    ghost out = { λ allocator list. IsProvidedAlone allocator.region allocator.size list };

    ghost same = { λ old new. new.size ≡ old.size };

    ghost grants = { λ allocator. GrantsRegion allocator.region allocator.size };

    ghost fails = { λ allocator asked kind. kind ≡ OutOfMemory };

    // The region is available again, or the heap has taken back one of its segments.
    ghost returns = { λ old segment words new. ReturnsTo segment.is_provided old new };

    // In addition to what any allocator ensures: where the segment is the caller-provided region,
    // and what the heap hands out.
    fn allocate_segment(&mut self, minimum_size: u32) -> Result<ScratchSegment<'a>>
        ensures hands_out { HandsOut (λ allocator. IsProvidedAlone allocator.region allocator.size)
            (λ old new. new.size ≡ old.size)
            (λ allocator. GrantsRegion allocator.region allocator.size)
            (λ allocator asked kind. kind ≡ OutOfMemory) scratch_bytes scratch_provided
            minimum_size self.old self.new result }
        ensures provided { minimum_size ≤ self.old.size / 8 → IsSome self.old.region →
            IsOk result × IfOk result (λ s. scratch_provided s ≡ true) }
        ensures large { self.old.size / 8 < minimum_size → IfOk result (λ s.
            (scratch_provided s ≡ false)
            × (length (scratch_bytes s) ≡ 8 * size_of self.old.heap.next_size minimum_size)) }
        ensures away { self.old.region ≡ None → IfOk result (λ s. (scratch_provided s ≡ false)
            × (length (scratch_bytes s) ≡ 8 * size_of self.old.heap.next_size minimum_size)) }
        ensures kind { IfErr result (λ error. error.kind ≡ OutOfMemory) }
        ensures counts { IfOk result (λ s.
            CountsHeapSegment (scratch_provided s) minimum_size self.old.heap self.new.heap) }
        ensures unchanged { OnErr result (KeepsHeap self.old.heap self.new.heap) }
    {
        if minimum_size as usize <= self.size / 8 {
            match self.region.take() {
                Some(region) => return Ok(ScratchSegment::Lent(region)),
                None => {}
            }
        }
        let segment = self.heap.allocate_segment(minimum_size)?;
        Ok(ScratchSegment::Owned(segment))
    }

    // The used words of the region are made zero, so all of it is zero while it is available. A
    // segment from the heap goes back to the heap, as with a `HeapAllocator` alone.
    fn deallocate_segment(&mut self, segment: ScratchSegment<'a>, words_used: u32) {
        match segment {
            ScratchSegment::Lent(region) => {
                region[..8 * words_used as usize].fill(0);
                self.region = Some(region);
            }
            ScratchSegment::Owned(owned) => {
                self.heap.deallocate_segment(owned, words_used);
            }
        }
    }

    ghost keeps = { record { reflexive = λ s. refl; transitive = λ s t u p q. q ∙ p } };

    ghost accounts = { λ s. some_provided s.region s.size };
}
