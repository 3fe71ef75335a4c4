//! Writing messages to a sink.
ghost use Rattle.std.specs.Prelude.{◌≡◌, ◌+◌, ◌<◌, ◌≤◌, ◌^◌, length, take, drop, replicate, ◌++◌, slice_get, Some, IfSome, IfNone, IfErr};
ghost use Rattle.std.specs.List.{AllByRecursion, concat};
ghost use Rattle.capnp_frame.specs.Message.{IsWholeWords, lengths};
ghost use Rattle.capnp_frame.specs.SegmentTable.{table_field, zero_padded_table, table_size};
ghost use Rattle.capnp_frame.specs.Writing.{IsWritable, SegmentCountError, word_and_rest, table_chunks};
ghost use Rattle.capnp_frame.specs.Sink.{AppendsAll, LeavesSome, ChunksError};
ghost use Rattle.capnp_frame.specs.Writers.{WritesTo, WritesChunks, WritesSegments, TakesGranted, NoError, TableMemoryError, KeepsCount, ReturnsEncoding, CountsWords};

use crate::error::{Error, ErrorKind, Result};
use crate::io::Write;
use crate::message::ReaderSegments;
use crate::serialize::segment_table::{SEGMENTS_COUNT_LIMIT, table_len};
use std::alloc::Global;

/// Writes a message: the first word of its table, with two segments or more the table's other words
/// as one chunk, and then each segment as a chunk ("Serialization Over a Stream").
///
/// Fails with `InvalidNumberOfSegments`, with their number, for more than 511 segments, before all
/// else. From four segments on it fails with `OutOfMemory` where there is no memory for the table,
/// before anything is written. Else it fails as the sink does, which never rejects what it
/// `grants`.
pub fn write_segments<W: Write, S: ReaderSegments>(
    alloc: Global,
    sink: &mut W,
    segments: &S,
) -> Result<()>
    requires { IsWritable (S.segments segments.now) }
    ensures { WritesSegments W.Write sink.old sink.new (S.segments segments.now) result }
{
    check_count(segments)?; // before anything is written
    write_table(alloc, sink, segments)?;
    write_each(sink, segments)
}

/// Returns the framed encoding of a message, in bytes.
///
/// Fails with `InvalidNumberOfSegments`, with their number, for more than 511 segments, before
/// memory is taken, and else with `OutOfMemory` alone.
pub fn segments_to_words<S: ReaderSegments>(alloc: Global, segments: &S) -> Result<Vec<u8>>
    requires { IsWritable (S.segments segments.now) }
    ensures { ReturnsEncoding (S.segments segments.now) (λ encoding. encoding.items) result }
{
    check_count(segments)?; // before memory is taken
    let words = serialized_size_in_words(segments)?;
    let mut encoding = Vec::with_capacity(alloc, 8 * words)?;
    write_segments(alloc, &mut encoding, segments)?;
    Ok(encoding)
}

/// Returns how many words a message takes with its table; for no segments, one word.
///
/// Fails with `MessageSizeOverflow` exactly where this number does not fit `usize`.
pub fn serialized_size_in_words<S: ReaderSegments>(segments: &S) -> Result<usize>
    requires few { length (S.segments segments.now) < 2 ^ 32 }
    requires whole { AllByRecursion IsWholeWords (S.segments segments.now) }
    ensures { CountsWords (S.segments segments.now) result }
{
    let mut words = segments.len() / 2 + 1;
    let mut index = 0;
    while let Some(segment) = segment_at(segments, index) {
        let Some(more) = words.checked_add(segment.len() / 8) else {
            return Err(Error::from_kind(ErrorKind::MessageSizeOverflow));
        };
        words = more;
        index += 1;
    }
    Ok(words)
}

// Fails with `InvalidNumberOfSegments` for more segments than a reader accepts.
fn check_count<S: ReaderSegments>(segments: &S) -> Result<()>
    requires { length (S.segments segments.now) < 2 ^ 32 }
    ensures count { KeepsCount (S.segments segments.now) result }
    ensures errors { IfErr result (λ error. SegmentCountError (S.segments segments.now) error.kind) }
{
    let count = segments.len();
    if count >= SEGMENTS_COUNT_LIMIT {
        return Err(Error::from_kind(ErrorKind::InvalidNumberOfSegments(count)));
    }
    Ok(())
}

// Writes the table, with memory for it from four segments on.
fn write_table<W: Write, S: ReaderSegments>(alloc: Global, sink: &mut W, segments: &S) -> Result<()>
    requires { IsWritable (S.segments segments.now) }
    ensures writes { WritesChunks W.Write sink.old sink.new
        (table_chunks (lengths (S.segments segments.now)))
        (TableMemoryError (S.segments segments.now)) result }
    ensures granted { TakesGranted W.grants sink.old sink.new
        (table_size (length (S.segments segments.now))) (TableMemoryError (S.segments segments.now)) result }
{
    let count = segments.len();
    if count < 4 {
        let mut table = [0; 16];
        let table = &mut table[..table_len(count)];
        fill_table(table, segments);
        return write_in_parts(sink, table);
    }
    let mut table = vec![in alloc; 0; table_len(count)]?;
    fill_table(&mut table, segments);
    write_in_parts(sink, &table)
}

// Writes the first word of a table, and then its other words where it has any.
fn write_in_parts<W: Write>(sink: &mut W, table: &[u8]) -> Result<()>
    requires { 8 ≤ length table.now }
    ensures writes { WritesTo W.Write sink.old sink.new
        (AppendsAll W.appends (word_and_rest table.now))
        (LeavesSome W.appends W.leaves (word_and_rest table.now))
        (ChunksError W.refuses (word_and_rest table.now)) result }
    ensures granted { TakesGranted W.grants sink.old sink.new (length table.now) NoError result }
{
    sink.write_all(&table[..8])?;
    if table.len() > 8 {
        sink.write_all(&table[8..])?;
    }
    Ok(())
}

// Writes each segment as a chunk.
fn write_each<W: Write, S: ReaderSegments>(sink: &mut W, segments: &S) -> Result<()>
    requires { length (S.segments segments.now) < 2 ^ 32 }
    ensures writes { WritesTo W.Write sink.old sink.new
        (AppendsAll W.appends (S.segments segments.now))
        (LeavesSome W.appends W.leaves (S.segments segments.now))
        (ChunksError W.refuses (S.segments segments.now)) result }
    ensures granted { TakesGranted W.grants sink.old sink.new
        (length (concat (S.segments segments.now))) NoError result }
{
    let mut index = 0;
    while let Some(segment) = segment_at(segments, index) {
        sink.write_all(segment)?;
        index += 1;
    }
    Ok(())
}

// The segment at this index; `None` after the last.
fn segment_at<S: ReaderSegments>(segments: &S, index: u32) -> Option<&[u8]>
    ensures here { IfSome result (λ segment.
        slice_get (S.segments segments.now) index ≡ Some segment.now) }
    ensures within { IfSome result (λ segment. index < length (S.segments segments.now)) }
    ensures end { IfNone result (length (S.segments segments.now) ≤ index) }
{
    segments.get_segment(index)
}

// Fills a table of zeros with the number of segments and their lengths.
fn fill_table<S: ReaderSegments>(table: &mut [u8], segments: &S)
    requires writable { IsWritable (S.segments segments.now) }
    requires zero { table.old ≡ replicate (table_size (length (S.segments segments.now))) 0 }
    ensures { table.new ≡ zero_padded_table (lengths (S.segments segments.now)) }
{
    put_field(table, 0, (segments.len() - 1) as u32);
    let mut index = 0;
    while let Some(segment) = segment_at(segments, index) {
        put_field(table, 4 * (index as usize + 1), (segment.len() / 8) as u32);
        index += 1;
    }
}

// Writes a number into the four bytes at `at`.
fn put_field(table: &mut [u8], at: usize, number: u32)
    requires { at + 4 ≤ length table.old }
    ensures { table.new ≡ take at table.old ++ table_field number ++ drop (at + 4) table.old }
{
    table[at..at + 4].copy_from_slice(&number.to_le_bytes());
}
