//! Segments that own their bytes.
ghost use Rattle.std.specs.Prelude.{◌≡◌, ℕ, ◌*◌, List, [], length, sum, vec_len};
ghost use Rattle.std.specs.List.{concat};
ghost use Rattle.capnp_frame.specs.SegmentLengths.{cut};

use crate::message::ReaderSegments;
use crate::serialize::segment_indices::SegmentIndices;
use crate::serialize::segment_lengths::part;
use std::alloc::Global;
use std::marker::Model;

/// The segments of a message in one chunk of memory.
///
/// ```
/// let message = serialize::read_message(alloc, &mut source, DEFAULT_READER_OPTIONS)?;
/// let segments = message.into_segments();
/// assert_eq!(rt; segments.len(), 2);
/// assert_eq!(rt; segments.as_bytes(), [1, 2, 3, 4, 5, 6, 7, 8].as_slice());
/// ```
#[derive(Drop)]
pub struct OwnedSegments {
    segment_indices: SegmentIndices,
    bytes: Vec<u8>,
}

// Clauses see the segments, each its bytes.
impl Model for OwnedSegments {
    ghost Value = { List (List ℕ) };

    ghost view = { λ segments. cut segments.segment_indices segments.bytes.items };

    ghost invariant = { λ segments. length segments.bytes.items ≡ 8 * sum segments.segment_indices };
}

impl OwnedSegments {
    /// The parts of `bytes` that lie between these indices, in words.
    pub(crate) fn from_parts(segment_indices: SegmentIndices, bytes: Vec<u8>) -> OwnedSegments
        requires { vec_len bytes ≡ 8 * sum segment_indices }
        ensures { result ≡ cut segment_indices bytes.items }
    {
        OwnedSegments {
            segment_indices,
            bytes,
        }
    }

    /// No segments, with no memory.
    pub fn empty(alloc: Global) -> OwnedSegments
        ensures { result ≡ [] }
    {
        OwnedSegments {
            segment_indices: SegmentIndices::empty(alloc),
            bytes: Vec::new(alloc),
        }
    }

    /// The memory of the segments: where each begins and ends, in words, and their bytes.
    pub(crate) fn into_parts(self) -> (SegmentIndices, Vec<u8>)
        ensures segments { self ≡ cut result.0 result.1.items }
        ensures whole { vec_len result.1 ≡ 8 * sum result.0 }
    {
        (self.segment_indices, self.bytes)
    }

    /// All segments, joined.
    pub fn as_bytes(&self) -> &[u8]
        ensures { result.now ≡ concat self.now }
    {
        &self.bytes
    }
}

impl OwnedSegments {
    ghost use Rattle.std.specs.Prelude.{◌≡◌};
    ghost use Rattle.std.specs.List.{concat};
    ghost use Rattle.std.specs.Borrow.{sem};
    ghost use Rattle.capnp_frame.specs.Lending.{LendsBytes};

    /// All segments, joined. What is written there changes the segments.
    pub fn as_bytes_mut(&mut self) -> &mut [u8]
        ensures* writes_back { sem 𝓛 (LendsBytes self.entry result) }
        ensures value { result.now ≡ concat self.old }
    {
        &mut self.bytes
    }
}

impl ReaderSegments for OwnedSegments {
    ghost segments = { λ segments. segments };

    fn get_segment(&self, id: u32) -> Option<&[u8]> {
        part(&self.bytes, self.segment_indices.as_slice(), id)
    }

    fn len(&self) -> usize
        ensures { result ≡ length self.now }
    {
        self.segment_indices.len()
    }
}
