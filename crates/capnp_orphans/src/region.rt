//! A caller-provided region, as a growing segment.
ghost use Rattle.std.specs.Prelude.{◌≡◌, ◌<◌, ◌≤◌, take, length, replicate, Some, MatchResult};
ghost use Rattle.capnp_frame.specs.declared.error.ErrorKind.TheVariants.{AllocationTooLarge};

use crate::object::Object;
use crate::segment::{GrowingSegment, put_first, write_over, zero_first};
use capnp_frame::{Error, ErrorKind, Result};
use std::marker::Model;

/// A caller-provided region. Its first bytes are used, and it does not matter what the others are.
/// It takes no memory.
///
/// Speed: it keeps how many bytes a segment can have there, so one test tells whether an object
/// fits (`tools/time building built`, `records` in a region).
///
/// ```
/// let mut bytes = [7; 16];
/// let mut objects: Orphanage<Region<'_>> = Orphanage::in_region(&mut bytes)?;
/// let name = objects.text("Alice")?;
/// objects.set_root(name);
/// assert!(rt; objects.text("Bob").is_err());
/// ```
#[derive(Drop)]
pub struct Region<'a> {
    bytes: &'a mut [u8],
    used: u32,
    room: u32,
}

impl<'a> Model for Region<'a> {
    ghost use Rattle.std.specs.Prelude.{◌≤◌, length, take, Some};
    ghost use Rattle.capnp_orphans.specs.Segments.{Segment};

    ghost Value = { Segment };

    ghost view = { λ region. record {
      bytes = take region.used region.bytes.now;
      most = Some (length region.bytes.now);
      capacity = length region.bytes.now;
    } };

    ghost invariant = { λ region. (region.used ≤ length region.bytes.now)
        × (region.room ≤ length region.bytes.now) };
}

impl<'a> Region<'a> {
    /// A region whose first word is used, and zero. Fails with `AllocationTooLarge` where it has
    /// fewer than 8 bytes.
    pub(crate) fn new(bytes: &'a mut [u8]) -> Result<Region<'a>>
        ensures { MatchResult result
            (λ region. (region.bytes ≡ replicate 8 0) × (region.most ≡ Some (length bytes.old))
            × (region.capacity ≡ length bytes.old))
            (λ error. (length bytes.old < 8) × (error.kind ≡ AllocationTooLarge 1)) }
    {
        if bytes.len() < 8 {
            return Err(Error::from_kind(ErrorKind::AllocationTooLarge(1)));
        }
        zero_first(bytes);
        let room = bytes.len().min(u32::MAX as usize) as u32;
        Ok(Region {
            bytes,
            used: 8,
            room,
        })
    }
}

impl<'a> GrowingSegment for Region<'a> {
    ghost state = { λ region. region };

    fn bytes(&self) -> &[u8] {
        &self.bytes[..self.used as usize]
    }

    #[inline(always)]
    fn append<O: Object>(&mut self, object: &O, words: u32) -> Result<u64> {
        let from = self.used as usize;
        let end = from + 8 * words as usize;
        if end > self.bytes.len() {
            return Err(Error::from_kind(ErrorKind::AllocationTooLarge(words)));
        }
        let word = write_over(self.bytes, from, words, object);
        self.used = end as u32;
        Ok(word)
    }

    #[inline(always)]
    fn append_within<O: Object>(&mut self, object: &O, words: u32) -> Option<u64> {
        let end = self.used as usize + 8 * words as usize;
        if end > self.room as usize {
            return None;
        }
        let word = write_over(self.bytes, self.used as usize, words, object);
        self.used = end as u32;
        Some(word)
    }

    fn set_root_word(&mut self, word: u64) {
        put_first(self.bytes, self.used as usize, word);
    }

    fn clear(&mut self) {
        zero_first(self.bytes);
        self.used = 8;
    }
}
