//! A growing segment on the heap.
ghost use Rattle.std.specs.Prelude.{◌≡◌, ◌<◌, ◌≤◌, ◌^◌, ◌++◌, ℕ, IsTrue, false, length, replicate, None, MatchResult};
ghost use Rattle.capnp_frame.specs.declared.error.ErrorKind.TheVariants.{OutOfMemory};

use crate::object::Object;
use crate::segment::{GrowingSegment, put_first, write_over, zero_first};
use capnp_frame::{Error, ErrorKind, Result};
use std::alloc::Global;
use std::marker::Model;

// The bytes that are asked for at first: as many as `HeapAllocator` asks for.
//
// Speed: most messages have fewer, and need no further request (`tools/time classic`, in new
// memory).
const FIRST_BYTES: usize = 8192;

/// A segment on the heap. The first bytes of its vector are used.
///
/// Speed: the bytes after these have been written or made zero before, so an object is written over
/// them, and `clear` is one store (`tools/time building built`, `tree` and `table`).
///
/// ```
/// let mut objects: Orphanage<Heap> = Orphanage::new(alloc)?;
/// let name = objects.text("Alice")?;
/// objects.set_root(name);
/// assert_eq!(rt; objects.bytes().len(), 16);
/// ```
#[derive(Drop)]
pub struct Heap {
    bytes: Vec<u8>,
    used: u32,
}

impl Model for Heap {
    ghost use Rattle.std.specs.Prelude.{◌≤◌, ◌<◌, ◌^◌, length, take, None};
    ghost use Rattle.capnp_orphans.specs.Segments.{Segment};

    ghost Value = { Segment };

    ghost view = { λ heap. record {
      bytes = take heap.used heap.bytes.items;
      most = None;
      capacity = heap.bytes.cap;
    } };

    ghost invariant = { λ heap. (heap.used ≤ length heap.bytes.items)
        × (length heap.bytes.items ≤ heap.bytes.cap)
        × (length heap.bytes.items < 2 ^ 32) };
}

impl Heap {
    /// A segment whose first word is used, and zero. Fails with `OutOfMemory` alone.
    pub(crate) fn new(alloc: Global) -> Result<Heap>
        ensures { MatchResult result
            (λ heap. (heap.bytes ≡ replicate 8 0) × (heap.most ≡ None))
            (λ error. error.kind ≡ OutOfMemory) }
    {
        let mut bytes = Vec::with_capacity(alloc, FIRST_BYTES)?;
        bytes.resize(8, 0)?;
        Ok(Heap { bytes, used: 8 })
    }
}

impl GrowingSegment for Heap {
    ghost state = { λ heap. heap };

    fn bytes(&self) -> &[u8] {
        &self.bytes.as_slice()[..self.used as usize]
    }

    #[inline(always)]
    fn append<O: Object>(&mut self, object: &O, words: u32) -> Result<u64> {
        let from = self.used as usize;
        let end = from + 8 * words as usize;
        if end > self.bytes.len() && !grown(&mut self.bytes, end) {
            return Err(Error::from_kind(ErrorKind::OutOfMemory));
        }
        let word = write_over(self.bytes.as_mut_slice(), from, words, object);
        self.used = end as u32;
        Ok(word)
    }

    #[inline(always)]
    fn append_within<O: Object>(&mut self, object: &O, words: u32) -> Option<u64> {
        let end = self.used as usize + 8 * words as usize;
        if end > self.bytes.len() {
            return None;
        }
        let word = write_over(self.bytes.as_mut_slice(), self.used as usize, words, object);
        self.used = end as u32;
        Some(word)
    }

    fn set_root_word(&mut self, word: u64) {
        put_first(self.bytes.as_mut_slice(), self.used as usize, word);
    }

    fn clear(&mut self) {
        zero_first(self.bytes.as_mut_slice());
        self.used = 8;
    }
}

// Adds zeros to a vector, so that it has at least this many bytes, and returns true. When out of
// memory it changes nothing and returns false.
//
// Speed: it adds more zeros where the memory has room for them, so the next objects need no call.
#[inline(never)]
fn grown(bytes: &mut Vec<u8>, end: usize) -> bool
    requires longer { length bytes.old.items ≤ end }
    requires few { end < 2 ^ 32 }
    ensures items { (zeros : ℕ) × (bytes.new.items ≡ bytes.old.items ++ replicate zeros 0) }
    ensures long { IsTrue result → end ≤ length bytes.new.items }
    ensures room { IsTrue result → length bytes.new.items ≤ bytes.new.cap }
    ensures short { IsTrue result → length bytes.new.items < 2 ^ 32 }
    ensures capacity { bytes.old.cap ≤ bytes.new.cap }
    ensures full { result ≡ false → bytes.old.cap < end }
    ensures same { result ≡ false → bytes.new.items ≡ bytes.old.items }
    ensures kept { result ≡ false → bytes.new.cap ≡ bytes.old.cap }
{
    let len = bytes.len();
    if bytes.reserve(end - len).is_err() {
        return false;
    }
    let all = bytes.capacity().min(end + 512).min(u32::MAX as usize);
    bytes.resize(all, 0).is_ok()
}
