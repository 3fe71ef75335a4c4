//! Segments that stay in the buffer that holds their message.
ghost use Rattle.std.specs.Prelude.{◌≡◌, ◌+◌, ◌*◌, ◌≤◌, length, drop, sum, ◌⊎◌, IfOk, IfErr};
ghost use Rattle.capnp_frame.specs.SegmentLengths.{cut};
ghost use Rattle.capnp_frame.specs.Limits.{AreWithin};
ghost use Rattle.capnp_frame.specs.SegmentTable.{table_size, KeepsPadding};
ghost use Rattle.capnp_frame.specs.Front.{HoldsMessage, declared_lengths, declared_padding};
ghost use Rattle.capnp_frame.specs.FlatErrors.{by_words, AcceptsSeveral, FlatError};
ghost use Rattle.capnp_frame.specs.FlatReaders.{buffer_rules, slice_rules, ReadsBuffer, TakesSegments};
ghost use Rattle.capnp_frame.specs.declared.error.ErrorKind.{ErrorKind};

use crate::error::{Error, ErrorKind, Result};
use crate::message::{AsBytes, ReaderOptions, ReaderSegments};
use crate::serialize::segment_indices::SegmentIndices;
use crate::serialize::segment_lengths::part;
use crate::serialize::segment_table::{Padding, TableRules};
use crate::serialize::stream_table::read_indices;
use std::alloc::Global;
use std::marker::Model;

/// A message's segments in a buffer that holds its table and after it the segments.
///
/// Where each segment begins and ends is kept, so no segment is copied and the table is read once.
///
/// ```
/// let message = BufferSegments::new(alloc, buffer, DEFAULT_READER_OPTIONS)?;
/// assert_eq!(rt; message.len(), 2);
/// assert_eq!(rt;
///     message.get_segment(1),
///     Some([1, 2, 3, 4, 5, 6, 7, 8].as_slice())
/// );
/// assert_eq!(rt; message.into_buffer().len(), 24);
/// ```
#[derive(Drop)]
pub struct BufferSegments<T: AsBytes> {
    buffer: T,
    table_len: usize,
    segment_indices: SegmentIndices,
}

// Clauses see the buffer and the segments.
impl<T: AsBytes> Model for BufferSegments<T> {
    ghost use Rattle.std.specs.Prelude.{◌+◌, ◌*◌, ◌≤◌, length, drop, sum};
    ghost use Rattle.capnp_frame.specs.SegmentLengths.{cut};
    ghost use Rattle.capnp_frame.specs.Views.{SeenBuffer};

    ghost Value = { SeenBuffer T };

    ghost view = { λ reader. record {
      buffer = reader.buffer;
      segments = cut reader.segment_indices (drop reader.table_len (T.bytes reader.buffer));
    } };

    ghost invariant = { λ reader.
        reader.table_len + 8 * sum reader.segment_indices ≤ length (T.bytes reader.buffer) };
}

impl<T: AsBytes> BufferSegments<T> {
    /// The parts of `buffer` after its first `table_len` bytes that lie between these indices, in
    /// words.
    pub(crate) fn from_parts(
        buffer: T,
        table_len: usize,
        segment_indices: SegmentIndices,
    ) -> BufferSegments<T>
        requires { table_len + 8 * sum segment_indices ≤ length (T.bytes buffer) }
        ensures { result ≡ record {
          buffer = buffer;
          segments = cut segment_indices (drop table_len (T.bytes buffer));
        } }
    {
        BufferSegments {
            buffer,
            table_len,
            segment_indices,
        }
    }

    /// The buffer.
    pub fn into_buffer(self) -> T
        ensures { result ≡ self.buffer }
    {
        self.buffer
    }
}

impl<T: AsBytes + Drop> BufferSegments<T> {
    /// Finds the message at the front of a buffer. Any bytes may follow it.
    ///
    /// Memory is taken only for the lengths of more than one segment. Fails as the module
    /// `serialize` lists: with `EmptyBuffer` for no bytes, with `NonZeroPadding` where the padding
    /// isn't zero.
    pub fn new(alloc: Global, buffer: T, options: ReaderOptions) -> Result<BufferSegments<T>>
        ensures { ReadsBuffer (buffer_rules Padding.Zero options.traversal_limit_in_words)
            buffer (T.bytes buffer) result }
    {
        BufferSegments::with_rules(alloc, buffer, TableRules::new(Padding::Zero, options))
    }

    /// Finds the message at the front of a buffer as `new` does, but accepts any padding in the
    /// segment table.
    pub fn new_lenient(
        alloc: Global,
        buffer: T,
        options: ReaderOptions,
    ) -> Result<BufferSegments<T>>
        ensures { ReadsBuffer (buffer_rules Padding.Any options.traversal_limit_in_words)
            buffer (T.bytes buffer) result }
    {
        BufferSegments::with_rules(alloc, buffer, TableRules::new(Padding::Any, options))
    }

    /// Finds the message at the front of a buffer as `new` does, by these rules.
    ///
    /// Fails as `new` does: with `NonZeroPadding` where `Padding::Zero` alone is accepted and the
    /// padding isn't zero.
    pub fn with_rules(alloc: Global, buffer: T, rules: TableRules) -> Result<BufferSegments<T>>
        ensures { ReadsBuffer (buffer_rules rules.padding rules.limit_in_words)
            buffer (T.bytes buffer) result }
    {
        let (segment_indices, table_len) = find_message(
            alloc,
            buffer.as_bytes(),
            rules,
            ErrorKind::EmptyBuffer,
        )?;
        Ok(BufferSegments::from_parts(buffer, table_len, segment_indices))
    }
}

impl<T: AsBytes> ReaderSegments for BufferSegments<T> {
    ghost segments = { λ message. message.segments };

    fn get_segment(&self, id: u32) -> Option<&[u8]> {
        part(
            &self.buffer.as_bytes()[self.table_len..],
            self.segment_indices.as_slice(),
            id,
        )
    }

    fn len(&self) -> usize
        ensures { result ≡ length self.now.segments }
    {
        self.segment_indices.len()
    }
}

/// Finds the message at the front of a slice, and moves the slice after it.
///
/// No segment is copied, and memory is taken only for the lengths of more than one segment. Fails
/// as the module `serialize` lists: with `EmptySlice` for no bytes, with `NonZeroPadding` where the
/// padding isn't zero. The slice is then as it was.
pub fn take_segments<'a>(
    alloc: Global,
    slice: &mut &'a [u8],
    options: ReaderOptions,
) -> Result<BufferSegments<&'a [u8]>>
    ensures { TakesSegments (slice_rules Padding.Zero options.traversal_limit_in_words)
        slice.old.now slice.new.now result }
{
    take_segments_with_rules(alloc, slice, TableRules::new(Padding::Zero, options))
}

/// Finds the message at the front of a slice as `take_segments` does, but accepts any padding in
/// the segment table.
pub fn take_segments_lenient<'a>(
    alloc: Global,
    slice: &mut &'a [u8],
    options: ReaderOptions,
) -> Result<BufferSegments<&'a [u8]>>
    ensures { TakesSegments (slice_rules Padding.Any options.traversal_limit_in_words)
        slice.old.now slice.new.now result }
{
    take_segments_with_rules(alloc, slice, TableRules::new(Padding::Any, options))
}

/// Finds the message at the front of a slice as `take_segments` does, by these rules.
///
/// Fails as that does, and the slice is then as it was: with `NonZeroPadding` where `Padding::Zero`
/// alone is accepted and the padding isn't zero.
pub fn take_segments_with_rules<'a>(
    alloc: Global,
    slice: &mut &'a [u8],
    rules: TableRules,
) -> Result<BufferSegments<&'a [u8]>>
    ensures { TakesSegments (slice_rules rules.padding rules.limit_in_words)
        slice.old.now slice.new.now result }
{
    let all: &'a [u8] = *slice;
    let (segment_indices, table_len) = find_message(alloc, all, rules, ErrorKind::EmptySlice)?;
    *slice = &all[table_len + 8 * segment_indices.total_words()..];
    Ok(BufferSegments::from_parts(all, table_len, segment_indices))
}

// Where the segments of the message at the front of these bytes begin and end, and the length of
// its table, in bytes. No bytes fail with `empty`.
fn find_message(
    alloc: Global,
    bytes: &[u8],
    rules: TableRules,
    empty: ErrorKind,
) -> Result<(SegmentIndices, usize)>
    ensures holds { IfOk result (λ found. HoldsMessage bytes.now (length found.0)) }
    ensures lengths { IfOk result (λ found. declared_lengths (length found.0) bytes.now ≡ found.0) }
    ensures table { IfOk result (λ found. found.1 ≡ table_size (length found.0)) }
    ensures within { IfOk result (λ found. AreWithin found.0 rules.limit_in_words) }
    ensures padding { IfOk result (λ found.
        KeepsPadding rules.padding (declared_padding (length found.0) bytes.now)) }
    ensures errors { IfErr result (λ error. ((error.kind ≡ ErrorKind.OutOfMemory)
        × AcceptsSeveral (by_words empty) bytes.now)
        ⊎ FlatError (by_words empty) rules.padding rules.limit_in_words error.kind bytes.now) }
{
    let mut rest = bytes;
    let spare = SegmentIndices::empty(alloc);
    let Some(indices) = read_indices(&mut rest, &rules, spare)? else {
        return Err(Error::from_kind(empty));
    };
    let total = indices.total_words();
    if rest.len() < 8 * total {
        return Err(Error::from_kind(ErrorKind::MessageEndsPrematurely(total, rest.len() / 8)));
    }
    Ok((indices, bytes.len() - rest.len()))
}
