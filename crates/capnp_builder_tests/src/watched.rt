//! An allocator that notes what is asked of it and what comes back, and that may fail once.
use capnp_build::allocator::Allocator;
use capnp_build::segment_space::SegmentSpace;
use capnp_frame::{Error, ErrorKind, Result};
use capnp_message::heap_allocator::{AllocationStrategy, HeapAllocator};
use std::alloc::Global;

/// A heap whose segments have a given number of words, or as many as are asked. It counts the
/// requests, may fail one of them, and notes the words of the last one. For each segment that comes
/// back it notes its words, and how many of them were used.
#[derive(Drop)]
pub struct Watched {
    heap: HeapAllocator,
    fails_at: u32,
    pub requests: u32,
    pub last: u32,
    pub back: Vec<(usize, u32)>,
}

impl Watched {
    /// Where `fails_at` is 0, no request fails.
    pub fn new(alloc: Global, words: u16, fails_at: u32) -> Watched {
        let heap = HeapAllocator::new(alloc)
            .first_segment_words(words as u32)
            .max_segment_words(words as u32)
            .allocation_strategy(AllocationStrategy::FixedSize);
        Watched {
            heap,
            fails_at,
            requests: 0,
            last: 0,
            back: Vec::new(alloc),
        }
    }
}

impl Allocator for Watched {
    type Segment = Vec<u8>;

    ghost use Rattle.std.specs.Prelude.{⊤, []};

    ghost out = { λ allocator list. ⊤ };

    ghost same = { λ old new. ⊤ };

    ghost grants = { λ allocator asked words. ⊥ };

    ghost fails = { λ allocator asked kind. ⊤ };

    ghost returns = { λ old segment words new. ⊤ };

    fn allocate_segment(&mut self, minimum_size: u32) -> Result<Vec<u8>> {
        self.requests = self.requests.saturating_add(1);
        self.last = minimum_size;
        if self.requests == self.fails_at {
            return Err(Error::from_kind(ErrorKind::OutOfMemory));
        }
        self.heap.allocate_segment(minimum_size)
    }

    // Where what comes back can't be noted, no request is counted.
    fn deallocate_segment(&mut self, segment: Vec<u8>, words_used: u32) {
        let words = segment.bytes().len() / 8;
        if self.back.push((words, words_used)).is_err() {
            self.requests = 0;
        }
        self.heap.deallocate_segment(segment, words_used);
    }

    ghost keeps = { record { reflexive = λ s. tt; transitive = λ s t u p q. tt } };

    ghost accounts = { λ s. ([], tt) };
}
