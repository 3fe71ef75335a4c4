//! Where the segments of a message begin and end.
ghost use Rattle.std.specs.Prelude.{◌≡◌, ℕ, ◌≤◌, max, List, [], ◌∷◌, length, map, sum, vec_len};
ghost use Rattle.capnp_frame.specs.SegmentLengths.{ranges, range_len, kept_ranges, AreRanges};

use std::alloc::Global;
use std::marker::Model;
use std::slice;

/// Where each segment begins and ends, in words from the start of the first.
///
/// Speed: most messages have one segment, whose range is kept here. So a message that is read takes
/// memory for its bytes alone, and one in a buffer none (`log` allocates once a message, not
/// twice).
#[derive(Drop)]
pub(crate) struct SegmentIndices {
    // Where the first segment begins and the last ends: the range of one that is alone.
    all: (usize, usize),
    is_single: bool,
    // The ranges of any other number of segments. Where there is one, the memory is spare.
    several: Vec<(usize, usize)>,
}

// Clauses see the lengths, in words, in the order of the segments.
impl Model for SegmentIndices {
    ghost Value = { List ℕ };

    ghost view = { λ indices. map range_len (kept_ranges indices.is_single indices.all indices.several.items) };

    ghost invariant = { λ indices. AreRanges (kept_ranges indices.is_single indices.all indices.several.items) indices.all.1 };
}

impl SegmentIndices {
    /// No segments, with no memory.
    pub(crate) fn empty(alloc: Global) -> SegmentIndices
        ensures { result ≡ [] }
    {
        SegmentIndices::from_several(Vec::new(alloc), 0)
    }

    /// The segments between these indices, in words, the sum of whose lengths is `total_words`.
    pub(crate) fn from_several(several: Vec<(usize, usize)>, total_words: usize) -> SegmentIndices
        requires { AreRanges several.items total_words }
        ensures { result ≡ map range_len several.items }
    {
        SegmentIndices {
            all: (0, total_words),
            is_single: false,
            several,
        }
    }

    /// One segment of this length, in words. The memory stays, as spare.
    pub(crate) fn with_single(self, length: usize) -> SegmentIndices
        ensures { result ≡ length ∷ [] }
    {
        SegmentIndices {
            all: (0, length),
            is_single: true,
            several: self.several,
        }
    }

    /// The memory, for the ranges of more than one segment.
    pub(crate) fn into_several(self) -> Vec<(usize, usize)>
        ensures { length self ≤ max 1 (vec_len result) }
    {
        self.several
    }

    /// The sum of the lengths, in words.
    pub(crate) fn total_words(&self) -> usize
        ensures { result ≡ sum self.now }
    {
        self.all.1
    }

    /// How many segments there are.
    pub(crate) fn len(&self) -> usize
        ensures { result ≡ length self.now }
    {
        self.as_slice().len()
    }

    /// Where each segment begins and ends.
    pub(crate) fn as_slice(&self) -> &[(usize, usize)]
        ensures running { result.now ≡ ranges (map range_len result.now) }
        ensures lengths { map range_len result.now ≡ self.now }
    {
        if self.is_single {
            slice::from_ref(&self.all)
        } else {
            &self.several
        }
    }
}
