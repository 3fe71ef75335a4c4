//! Segments in a buffer that are found without memory.
ghost use Rattle.std.specs.Prelude.{◌≡◌, ℕ, ◌+◌, ◌<◌, ◌≤◌, List, length, sum, Some};
ghost use Rattle.capnp_frame.specs.Front.{HasFrame, IsDescribed, HoldsMessage, declared_lengths, declared_segments};
ghost use Rattle.capnp_frame.specs.KeptTables.{KeepsEnds};
ghost use Rattle.capnp_frame.specs.FlatReaders.{no_alloc_rules, ReadsBuffer, ReadsFlat};

use crate::error::Result;
use crate::message::{AsBytes, ReaderOptions, ReaderSegments};
use crate::serialize::segment_table::{Padding, TableRules, field_at, table_len};
use crate::serialize::segment_table_info::{NoAllocSegmentTableInfo, read_table_info};
use std::marker::Model;

// How many segments' ends are kept.
const KEPT_ENDS: usize = 8;

/// A message's segments in a buffer that holds its table and after it the segments.
///
/// No segment is copied and no memory is taken. The ends of the first eight segments are kept. To
/// find a later segment, the table is read again each time, from its ninth length on.
///
/// ```
/// let message = NoAllocBufferSegments::from_buffer(buffer, DEFAULT_READER_OPTIONS)?;
/// assert_eq!(rt; message.len(), 2);
/// assert_eq!(rt;
///     message.get_segment(1),
///     Some([1, 2, 3, 4, 5, 6, 7, 8].as_slice())
/// );
/// ```
#[derive(Drop)]
pub struct NoAllocBufferSegments<T: AsBytes> {
    buffer: T,
    segments_count: usize,
    // Where the first segments end, in words after the table.
    ends: [usize; KEPT_ENDS],
}

/// Segments in a slice that are found without memory.
///
/// ```
/// let mut rest = stream;
/// let message = NoAllocSliceSegments::from_slice(&mut rest, DEFAULT_READER_OPTIONS)?;
/// assert_eq!(rt;
///     message.get_segment(1),
///     Some([1, 2, 3, 4, 5, 6, 7, 8].as_slice())
/// );
/// assert!(rt; rest.is_empty());
/// ```
pub type NoAllocSliceSegments<'b> = NoAllocBufferSegments<&'b [u8]>;

// Clauses see the buffer and the segments.
impl<T: AsBytes> Model for NoAllocBufferSegments<T> {
    ghost use Rattle.capnp_frame.specs.Front.{declared_segments, HoldsMessage};
    ghost use Rattle.capnp_frame.specs.Views.{SeenBuffer};
    ghost use Rattle.capnp_frame.specs.KeptTables.{KeepsEnds};

    ghost Value = { SeenBuffer T };

    ghost view = { λ reader. record {
      buffer = reader.buffer;
      segments = declared_segments reader.segments_count (T.bytes reader.buffer);
    } };

    ghost invariant = { λ reader. HoldsMessage (T.bytes reader.buffer) reader.segments_count
        × KeepsEnds reader.ends reader.segments_count (T.bytes reader.buffer) };
}

impl<T: AsBytes> NoAllocBufferSegments<T> {
    /// The message at the front of `buffer`, where its table is known already.
    pub fn from_segment_table_info(
        buffer: T,
        info: NoAllocSegmentTableInfo,
    ) -> NoAllocBufferSegments<T>
        requires { IsDescribed (T.bytes buffer) info }
        ensures buffer { result.buffer ≡ buffer }
        ensures found { (rest : List ℕ) × HasFrame Padding.Any (T.bytes buffer) result.segments rest }
    {
        NoAllocBufferSegments::of_message(buffer, info.segments_count)
    }

    /// The message that the buffer holds, of a given number of segments.
    pub(crate) fn of_message(buffer: T, segments_count: usize) -> NoAllocBufferSegments<T>
        requires { HoldsMessage (T.bytes buffer) segments_count }
        ensures { result ≡ record {
          buffer = buffer;
          segments = declared_segments segments_count (T.bytes buffer);
        } }
    {
        let ends = first_ends(buffer.as_bytes(), segments_count);
        NoAllocBufferSegments {
            buffer,
            segments_count,
            ends,
        }
    }
}

impl<T: AsBytes + Drop> NoAllocBufferSegments<T> {
    /// Finds the message at the front of a buffer. Any bytes may follow it.
    ///
    /// Fails as the module `serialize` lists: with `MessageEndsPrematurely` where the table or the
    /// segments are cut, with `NonZeroPadding` where the padding isn't zero.
    pub fn from_buffer(buffer: T, options: ReaderOptions) -> Result<NoAllocBufferSegments<T>>
        ensures { ReadsBuffer (no_alloc_rules Padding.Zero options.traversal_limit_in_words)
            buffer (T.bytes buffer) result }
    {
        NoAllocBufferSegments::from_buffer_with_rules(
            buffer,
            TableRules::new(Padding::Zero, options),
        )
    }

    /// Finds the message at the front of a buffer as `from_buffer` does, but accepts any padding in
    /// the segment table.
    pub fn from_buffer_lenient(
        buffer: T,
        options: ReaderOptions,
    ) -> Result<NoAllocBufferSegments<T>>
        ensures { ReadsBuffer (no_alloc_rules Padding.Any options.traversal_limit_in_words)
            buffer (T.bytes buffer) result }
    {
        NoAllocBufferSegments::from_buffer_with_rules(
            buffer,
            TableRules::new(Padding::Any, options),
        )
    }

    /// Finds the message at the front of a buffer as `from_buffer` does, by these rules.
    ///
    /// Fails as `from_buffer` does: with `NonZeroPadding` where `Padding::Zero` alone is accepted
    /// and the padding isn't zero.
    pub fn from_buffer_with_rules(buffer: T, rules: TableRules) -> Result<NoAllocBufferSegments<T>>
        ensures { ReadsBuffer (no_alloc_rules rules.padding rules.limit_in_words)
            buffer (T.bytes buffer) result }
    {
        let info = read_table_info(buffer.as_bytes(), rules)?;
        Ok(NoAllocBufferSegments::of_message(buffer, info.segments_count))
    }
}

impl<'b> NoAllocBufferSegments<&'b [u8]> {
    /// Finds the message at the front of a slice, and moves the slice after it.
    ///
    /// Fails as `from_buffer` does, and the slice is then as it was.
    pub fn from_slice(
        slice: &mut &'b [u8],
        options: ReaderOptions,
    ) -> Result<NoAllocBufferSegments<&'b [u8]>>
        ensures { ReadsFlat (no_alloc_rules Padding.Zero options.traversal_limit_in_words)
            slice.old.now (Some slice.new.now) (λ found. found.segments) result }
    {
        NoAllocBufferSegments::from_slice_with_rules(slice, TableRules::new(Padding::Zero, options))
    }

    /// Finds the message at the front of a slice as `from_slice` does, but accepts any padding in
    /// the segment table.
    pub fn from_slice_lenient(
        slice: &mut &'b [u8],
        options: ReaderOptions,
    ) -> Result<NoAllocBufferSegments<&'b [u8]>>
        ensures { ReadsFlat (no_alloc_rules Padding.Any options.traversal_limit_in_words)
            slice.old.now (Some slice.new.now) (λ found. found.segments) result }
    {
        NoAllocBufferSegments::from_slice_with_rules(slice, TableRules::new(Padding::Any, options))
    }

    /// Finds the message at the front of a slice as `from_slice` does, by these rules.
    ///
    /// Fails as `from_buffer_with_rules` does, and the slice is then as it was.
    pub fn from_slice_with_rules(
        slice: &mut &'b [u8],
        rules: TableRules,
    ) -> Result<NoAllocBufferSegments<&'b [u8]>>
        ensures { ReadsFlat (no_alloc_rules rules.padding rules.limit_in_words)
            slice.old.now (Some slice.new.now) (λ found. found.segments) result }
    {
        let all: &'b [u8] = *slice;
        let info = read_table_info(all, rules)?;
        let end = info.segment_table_length_bytes + info.total_segments_length_bytes;
        *slice = &all[end..];
        Ok(NoAllocBufferSegments::of_message(all, info.segments_count))
    }
}

impl<T: AsBytes> ReaderSegments for NoAllocBufferSegments<T> {
    ghost segments = { λ message. message.segments };

    fn get_segment(&self, id: u32) -> Option<&[u8]> {
        let index = id as usize;
        if index >= self.segments_count {
            return None;
        }
        let bytes = self.buffer.as_bytes();
        let (start, end) = place(bytes, &self.ends, index);
        let front = table_len(self.segments_count);
        Some(&bytes[front + 8 * start..front + 8 * end])
    }

    fn len(&self) -> usize
        ensures { result ≡ length self.now.segments }
    {
        self.segments_count
    }
}

// Where the first segments end, in words after the table, of a message of a given number of
// segments.
fn first_ends(bytes: &[u8], count: usize) -> [usize; KEPT_ENDS]
    requires { HoldsMessage bytes.now count }
    ensures { KeepsEnds result count bytes.now }
{
    let mut ends = [0; KEPT_ENDS];
    let mut end = 0;
    for index in 0..count.min(KEPT_ENDS) {
        end += field_at(bytes, 4 * (index + 1)) as usize;
        ends[index] = end;
    }
    ends
}

// Where the segment at this index begins and ends, in words after the table.
fn place(bytes: &[u8], ends: &[usize; KEPT_ENDS], index: usize) -> (usize, usize)
    requires message { (count : ℕ) × HoldsMessage bytes.now count × (index < count)
        × KeepsEnds ends.now count bytes.now }
    ensures start { result.0 ≡ sum (declared_lengths index bytes.now) }
    ensures end { result.1 ≡ sum (declared_lengths (index + 1) bytes.now) }
{
    if index < KEPT_ENDS {
        let start = if index == 0 { 0 } else { ends[index - 1] };
        return (start, ends[index]);
    }
    let start = later_start(bytes, ends[KEPT_ENDS - 1], index);
    (start, start + field_at(bytes, 4 * (index + 1)) as usize)
}

// Where a segment from the ninth on begins, counted from where the eighth one ends.
//
// Speed: below 2^35 bytes each sum fits a `u32`, as the lengths do, so the loop adds a whole SIMD
// register of them without widening (workload `far`).
#[inline(always)]
fn later_start(bytes: &[u8], end: usize, index: usize) -> usize
    requires message { (count : ℕ) × HoldsMessage bytes.now count × (index < count) }
    requires later { 8 ≤ index }
    requires end { end ≡ sum (declared_lengths 8 bytes.now) }
    ensures { result ≡ sum (declared_lengths index bytes.now) }
{
    if bytes.len() < 1 << 35 {
        let mut start = end as u32;
        'short: for before in KEPT_ENDS..index {
            start += field_at(bytes, 4 * (before + 1));
        }
        return start as usize;
    }
    let mut start = end;
    'long: for before in KEPT_ENDS..index {
        start += field_at(bytes, 4 * (before + 1)) as usize;
    }
    start
}
