//! An allocator of segments from the heap.
ghost use Rattle.std.specs.Prelude.{⊤, ◌≡◌, ℕ, ◌-◌, ◌*◌, ◌/◌, ◌≤◌, ◌<◌, ◌^◌, false, [], length, IfOk, OnOk, OnErr, IfErr};
ghost use Rattle.capnp_frame.specs.declared.error.ErrorKind.TheVariants.{OutOfMemory};
ghost use Rattle.capnp_message.specs.Next.{size_of, next_after};
ghost use Rattle.capnp_message.specs.declared.heap_allocator.AllocationStrategy.TheVariants.{GrowHeuristically};
ghost use Rattle.capnp_build.specs.Prelude.{HandsOut};

use capnp_build::allocator::Allocator;
use capnp_frame::{Error, ErrorKind, Result};
use capnp_layout::limits::MAX_SEGMENT_WORDS;
use std::alloc::Global;

/// How the sizes of segments from the heap grow.
///
/// ```
/// let mut heap = HeapAllocator::new(alloc)
///     .first_segment_words(16)
///     .allocation_strategy(AllocationStrategy::FixedSize);
/// assert_eq!(rt; heap.allocate_segment(1)?.len(), 128);
/// assert_eq!(rt; heap.allocate_segment(1)?.len(), 128);
/// ```
#[derive(Clone, Copy, Debug)]
pub enum AllocationStrategy {
    /// Each segment has as many words as the first, or as many as are asked for if that is more.
    FixedSize,
    /// The next size grows by the words of each segment, up to the maximum.
    GrowHeuristically,
}

/// The number of words of the first segment.
pub const SUGGESTED_FIRST_SEGMENT_WORDS: u32 = 1024;

/// How segments grow by default.
pub const SUGGESTED_ALLOCATION_STRATEGY: AllocationStrategy = AllocationStrategy::GrowHeuristically;

/// Allocates segments from the heap. Each has as many words as are asked for, or the next size
/// where that is more.
///
/// ```
/// let heap = HeapAllocator::new(alloc).first_segment_words(1);
/// let mut message = Builder::new(alloc, heap);
/// message.set_root::<text::Owned, &str>("Hello, World!")?;
/// assert_eq!(rt; (message.len(), message.size_in_words()), (2, 4));
/// ```
#[derive(Drop)]
pub struct HeapAllocator {
    alloc: Global,
    next_size: u32,
    allocation_strategy: AllocationStrategy,
    max_segment_words: u32,
    ghost most: { next_size ≤ max_segment_words },
}

impl HeapAllocator {
    ghost use Rattle.capnp_message.specs.Heaps.{IsHeapOf};

    /// A first segment of 1,024 words, and then segments that grow up to 2^29 words.
    pub fn new(alloc: Global) -> HeapAllocator
        ensures { IsHeapOf 1024 GrowHeuristically (2 ^ 29) result }
    {
        HeapAllocator {
            alloc,
            next_size: SUGGESTED_FIRST_SEGMENT_WORDS,
            allocation_strategy: AllocationStrategy::GrowHeuristically,
            max_segment_words: MAX_SEGMENT_WORDS,
        }
    }

    /// Sets how many words the first segment has, at most the maximum.
    pub fn first_segment_words(self, words: u32) -> HeapAllocator
        requires { words ≤ self.max_segment_words }
        ensures { IsHeapOf words self.allocation_strategy self.max_segment_words result }
    {
        HeapAllocator {
            alloc: self.alloc,
            next_size: words,
            allocation_strategy: self.allocation_strategy,
            max_segment_words: self.max_segment_words,
        }
    }

    /// Sets the maximum segment size in words, at least the next size. A larger request still gets
    /// the words that it asks for.
    pub fn max_segment_words(self, words: u32) -> HeapAllocator
        requires { self.next_size ≤ words }
        ensures { IsHeapOf self.next_size self.allocation_strategy words result }
    {
        HeapAllocator {
            alloc: self.alloc,
            next_size: self.next_size,
            allocation_strategy: self.allocation_strategy,
            max_segment_words: words,
        }
    }

    /// Sets how segments grow.
    pub fn allocation_strategy(self, strategy: AllocationStrategy) -> HeapAllocator
        ensures { IsHeapOf self.next_size strategy self.max_segment_words result }
    {
        HeapAllocator {
            alloc: self.alloc,
            next_size: self.next_size,
            allocation_strategy: strategy,
            max_segment_words: self.max_segment_words,
        }
    }

    // Counts a segment of this many words: the next size grows.
    fn grow(&mut self, size: u32)
        ensures { IsHeapOf
            (next_after self.old.allocation_strategy
            self.old.next_size self.old.max_segment_words size)
            self.old.allocation_strategy self.old.max_segment_words self.new }
    {
        if size == 0 {
            return;
        }
        match self.allocation_strategy {
            AllocationStrategy::FixedSize => {}
            AllocationStrategy::GrowHeuristically => {
                if size < self.max_segment_words - self.next_size {
                    self.next_size += size;
                } else {
                    self.next_size = self.max_segment_words;
                }
            }
        }
    }
}

impl Allocator for HeapAllocator {
    ghost use Rattle.capnp_message.specs.Heaps.{StartsAnew};

    type Segment = Vec<u8>;

    ghost out = { λ allocator list. ⊤ };

    ghost same = { λ old new. ⊤ };

    // No request is sure to be granted.
    ghost grants = { λ allocator asked words. ⊥ };

    ghost fails = { λ allocator asked kind. kind ≡ OutOfMemory };

    // The next size is then the suggested first size again, or the maximum.
    ghost returns = { λ old segment words new. StartsAnew old new };

    // In addition to what any allocator ensures: how many words there are, and what the next size
    // is.
    fn allocate_segment(&mut self, minimum_size: u32) -> Result<Vec<u8>>
        ensures hands_out { HandsOut (λ allocator list. ⊤) (λ old new. ⊤) (λ allocator asked words. ⊥)
            (λ allocator asked kind. kind ≡ OutOfMemory) (λ s. s.items) (λ s. false)
            minimum_size self.old self.new result }
        ensures kind { IfErr result (λ error. error.kind ≡ OutOfMemory) }
        ensures size { IfOk result (λ s.
            length s.items ≡ 8 * size_of self.old.next_size minimum_size) }
        ensures next { OnOk result (self.new.next_size ≡ next_after self.old.allocation_strategy
            self.old.next_size self.old.max_segment_words (size_of self.old.next_size minimum_size)) }
        ensures unchanged { OnErr result (self.new.next_size ≡ self.old.next_size) }
        ensures strategy { self.new.allocation_strategy ≡ self.old.allocation_strategy }
        ensures maximum { self.new.max_segment_words ≡ self.old.max_segment_words }
    {
        let size = minimum_size.max(self.next_size);
        let Ok(segment) = vec![in self.alloc; 0u8; 8 * size as usize] else {
            return Err(Error::from_kind(ErrorKind::OutOfMemory));
        };
        self.grow(size);
        Ok(segment)
    }

    fn deallocate_segment(&mut self, segment: Vec<u8>, words_used: u32) {
        self.next_size = SUGGESTED_FIRST_SEGMENT_WORDS.min(self.max_segment_words);
        drop(segment);
    }

    ghost keeps = { record { reflexive = λ s. tt; transitive = λ s t u p q. tt } };

    ghost accounts = { λ s. ([], tt) };
}
