//! The lengths of segments that follow one another.
ghost use Rattle.std.specs.Prelude.{◌≡◌, ℕ, ◌+◌, ◌*◌, ◌<◌, ◌≤◌, ◌^◌, ◌↔◌, List, [], ◌∷◌, ◌++◌, length, map, drop, sum, replicate, IfOk, OnOk, OnErr, IfErr, ◌⊎◌, vec_len, slice_get, option_copied};
ghost use Rattle.capnp_frame.specs.SegmentLengths.{ranges, range_len, cut, AreRanges};
ghost use Rattle.capnp_frame.specs.Errors.{MayOverflow};

use crate::error::{Error, ErrorKind, Result};
use crate::serialize::buffer_segments::BufferSegments;
use crate::serialize::owned_segments::OwnedSegments;
use crate::serialize::segment_indices::SegmentIndices;
use std::alloc::Global;
use std::marker::Model;

/// Collects the lengths of segments, in words, in the order of the segments.
///
/// ```
/// let mut lengths = SegmentLengthsBuilder::with_capacity(alloc, 2)?;
/// lengths.try_push_segment(1)?;
/// lengths.try_push_segment(2)?;
/// assert_eq!(rt; lengths.total_words(), 3);
/// let segments = lengths.into_owned_segments()?;
/// assert_eq!(rt; segments.as_bytes().len(), 24);
/// ```
#[derive(Drop)]
pub struct SegmentLengthsBuilder {
    segment_indices: Vec<(usize, usize)>,
    total_words: usize,
}

// Clauses see the lengths, in the order of the segments.
impl Model for SegmentLengthsBuilder {
    ghost Value = { List ℕ };

    ghost view = { λ builder. map range_len builder.segment_indices.items };

    ghost invariant = { λ builder. AreRanges builder.segment_indices.items builder.total_words };
}

impl SegmentLengthsBuilder {
    /// No lengths yet, with room for `capacity` of them. Fails with `OutOfMemory` alone.
    pub fn with_capacity(alloc: Global, capacity: usize) -> Result<SegmentLengthsBuilder>
        ensures ok { IfOk result (λ builder. builder ≡ []) }
        ensures memory { IfErr result (λ error. error.kind ≡ ErrorKind.OutOfMemory) }
    {
        let segment_indices = Vec::with_capacity(alloc, capacity)?;
        Ok(SegmentLengthsBuilder {
            segment_indices,
            total_words: 0,
        })
    }

    /// No lengths, with no memory.
    pub fn empty(alloc: Global) -> SegmentLengthsBuilder
        ensures { result ≡ [] }
    {
        SegmentLengthsBuilder::from_indices(Vec::new(alloc), 0)
    }

    /// The lengths of the segments between these indices, in words, whose sum is `total_words`.
    pub(crate) fn from_indices(
        segment_indices: Vec<(usize, usize)>,
        total_words: usize,
    ) -> SegmentLengthsBuilder
        requires { AreRanges segment_indices.items total_words }
        ensures { result ≡ map range_len segment_indices.items }
    {
        SegmentLengthsBuilder {
            segment_indices,
            total_words,
        }
    }

    /// Adds the length of the next segment, in words.
    ///
    /// Fails with `MessageSizeOverflow` exactly where the sum of the lengths passes `usize`, and
    /// else with `OutOfMemory` alone. The lengths are then as they were.
    pub fn try_push_segment(&mut self, length_in_words: usize) -> Result<()>
        ensures ok { OnOk result (self.new ≡ self.old ++ length_in_words ∷ []) }
        ensures err { OnErr result (self.new ≡ self.old) }
        ensures sized { MayOverflow (2 ^ 64 ≤ sum self.old + length_in_words) result }
    {
        let Some(end) = self.total_words.checked_add(length_in_words) else {
            return Err(Error::from_kind(ErrorKind::MessageSizeOverflow));
        };
        self.segment_indices.push((self.total_words, end))?;
        self.total_words = end;
        Ok(())
    }

    /// The sum of the lengths so far.
    pub fn total_words(&self) -> usize
        ensures { result ≡ sum self.now }
    {
        self.total_words
    }

    /// How many lengths there are.
    pub fn segments_count(&self) -> usize
        ensures { result ≡ length self.now }
    {
        self.segment_indices.len()
    }

    /// The length of the segment of this number, in words; `None` past the last.
    pub fn length_of(&self, id: u32) -> Option<usize>
        ensures { result ≡ slice_get self.now id }
    {
        length_at(&self.segment_indices, id)
    }

    /// Where each segment begins and ends, in words from the start of the first.
    pub fn to_segment_indices(self) -> Vec<(usize, usize)>
        ensures { result.items ≡ ranges self }
    {
        self.segment_indices
    }

    /// Where the segments of these lengths begin and end. No memory is taken.
    pub(crate) fn into_indices(self) -> SegmentIndices
        ensures { result ≡ self }
    {
        SegmentIndices::from_several(self.segment_indices, self.total_words)
    }

    /// Segments of these lengths, all zeros.
    ///
    /// Fails with `MessageSizeOverflow` exactly where the number of their bytes passes `usize`, and
    /// else with `OutOfMemory` alone.
    pub fn into_owned_segments(self) -> Result<OwnedSegments>
        ensures ok { IfOk result (λ segments. segments ≡ cut self (replicate (8 * sum self) 0)) }
        ensures sized { MayOverflow (2 ^ 64 ≤ 8 * sum self) result }
    {
        let Some(length) = self.total_words().checked_mul(8) else {
            return Err(Error::from_kind(ErrorKind::MessageSizeOverflow));
        };
        let bytes = vec![in *self.segment_indices.allocator(); 0; length]?;
        Ok(OwnedSegments::from_parts(self.into_indices(), bytes))
    }

    /// The segments of these lengths that follow the first `table_len` bytes of `slice`.
    pub fn into_slice_segments(self, slice: &[u8], table_len: usize) -> BufferSegments<&[u8]>
        requires { table_len + 8 * sum self ≤ length slice.now }
        ensures buffer { result.buffer.now ≡ slice.now }
        ensures segments { result.segments ≡ cut self (drop table_len slice.now) }
    {
        BufferSegments::from_parts(slice, table_len, self.into_indices())
    }
}

// The length of the part of this number; `None` past the last.
fn length_at(parts: &[(usize, usize)], id: u32) -> Option<usize>
    requires { parts.now ≡ ranges (map range_len parts.now) }
    ensures { result ≡ slice_get (map range_len parts.now) id }
{
    let (start, end) = *parts.get(id as usize)?;
    Some(end - start)
}

/// The part of `bytes` between the indices of this number, which are in words; `None` past the
/// last.
pub(crate) fn part<'a>(bytes: &'a [u8], indices: &[(usize, usize)], id: u32) -> Option<&'a [u8]>
    requires running { indices.now ≡ ranges (map range_len indices.now) }
    requires room { 8 * sum (map range_len indices.now) ≤ length bytes.now }
    ensures { option_copied result ≡ slice_get (cut (map range_len indices.now) bytes.now) id }
{
    let (start, end) = *indices.get(id as usize)?;
    Some(&bytes[8 * start..8 * end])
}
