//! Reading messages from a source into a caller-provided buffer.
ghost use Rattle.std.specs.Prelude.{◌≡◌, ◌+◌, ◌*◌, ◌<◌, ◌≤◌, ◌^◌, [], length, take, sum, IfOk, IfErr, OnOk, IfSome, IfNone, Option, Some, None};
ghost use Rattle.capnp_frame.specs.SegmentTable.{table_size, KeepsPadding};
ghost use Rattle.capnp_frame.specs.Limits.{KeepsLimit};
ghost use Rattle.capnp_frame.specs.Front.{declared_lengths, declared_padding, declared_segments, DeclaresTable, HoldsMessage};
ghost use Rattle.capnp_frame.specs.Source.{IfKnown};
ghost use Rattle.capnp_frame.specs.Asking.{Asked, FailsOr};
ghost use Rattle.capnp_frame.specs.Errors.{FailsWith};
ghost use Rattle.capnp_frame.specs.Streams.{next_in, framed_rules, ReadsStreamInto};
ghost use Rattle.capnp_frame.specs.Steps.{FindsTable, FindsMessageSize, AsksNextInto, TableRestError, CompleteTableError};
ghost use Rattle.capnp_frame.specs.Requests.{RestFound, TableFound, MessageFound};
ghost use Rattle.capnp_frame.specs.StreamErrors.{DeclaresAccepted, TableError, StreamError, IsTableKind, IsProvidedReaderKind};
ghost use Rattle.capnp_frame.specs.declared.error.ErrorKind.{ErrorKind};

use crate::error::{Error, ErrorKind, Result};
use crate::io::Read;
use crate::message::ReaderOptions;
use crate::serialize::no_alloc_buffer_segments::NoAllocBufferSegments;
use crate::serialize::segment_table::{
    Padding, TableRules, accepted_count, check_limit, check_padding, lengths_total, table_len,
};
use crate::serialize::segment_table_info::NoAllocSegmentTableInfo;
use crate::serialize::stream_table::{complete_table, read_chunk, read_first};

/// Reads the next message of a source into a caller-provided buffer, or returns `None` where
/// nothing is unread.
///
/// The source is asked for three chunks, as by `try_read_segments`, and only these are consumed. No
/// memory is taken.
///
/// Fails as the module `serialize` lists. `BufferNotLargeEnough` comes where the buffer is shorter
/// than 8 bytes, than the table, or than table and segments, which is tested before each chunk.
/// `NonZeroPadding` comes, with the table consumed, where the padding isn't zero.
pub fn try_read_segments_into<'b, R: Read>(
    source: &mut R,
    buffer: &'b mut [u8],
    options: ReaderOptions,
) -> Result<Option<NoAllocBufferSegments<&'b [u8]>>>
    ensures { ReadsStreamInto R.Read source.old source.new
        (framed_rules Padding.Zero R.gives R.refuses) options.traversal_limit_in_words
        (length buffer.old) (next_in (λ message. message.segments) result) }
{
    try_read_segments_into_with_rules(source, TableRules::new(Padding::Zero, options), buffer)
}

/// Reads the next message as `try_read_segments_into` does, but accepts any padding in the segment
/// table.
pub fn try_read_segments_into_lenient<'b, R: Read>(
    source: &mut R,
    buffer: &'b mut [u8],
    options: ReaderOptions,
) -> Result<Option<NoAllocBufferSegments<&'b [u8]>>>
    ensures { ReadsStreamInto R.Read source.old source.new
        (framed_rules Padding.Any R.gives R.refuses) options.traversal_limit_in_words
        (length buffer.old) (next_in (λ message. message.segments) result) }
{
    try_read_segments_into_with_rules(source, TableRules::new(Padding::Any, options), buffer)
}

/// Reads the next message as `try_read_segments_into` does, by these rules.
///
/// Fails as that does: with `NonZeroPadding`, the table consumed, where `Padding::Zero` alone is
/// accepted and the padding isn't zero.
pub fn try_read_segments_into_with_rules<'b, R: Read>(
    source: &mut R,
    rules: TableRules,
    buffer: &'b mut [u8],
) -> Result<Option<NoAllocBufferSegments<&'b [u8]>>>
    ensures { ReadsStreamInto R.Read source.old source.new
        (framed_rules rules.padding R.gives R.refuses) rules.limit_in_words
        (length buffer.old) (next_in (λ message. message.segments) result) }
{
    let Some(info) = read_into(source, rules, buffer)? else {
        return Ok(None);
    };
    Ok(Some(NoAllocBufferSegments::of_message(buffer, info.segments_count)))
}

// Reads the next message of a source into a buffer, or none at the source's end.
pub(crate) fn read_into<R: Read>(
    source: &mut R,
    rules: TableRules,
    buffer: &mut [u8],
) -> Result<Option<NoAllocSegmentTableInfo>>
    ensures message { IfOk result (λ found. IfSome found (λ info.
        FindsMessageSize rules.padding R.gives rules.limit_in_words buffer.new info.segments_count info.total_segments_length_bytes
        (R.unread source.old) (R.unread source.new))) }
    ensures asks { AsksNextInto R.Read source.old source.new rules.padding (length buffer.old)
        (StreamError rules.padding R.gives R.refuses rules.limit_in_words
        (Some (length buffer.old))) result }
{
    let Some((segments_count, total)) = read_table_into(source, rules, buffer)? else {
        return Ok(None);
    };
    let start = table_len(segments_count);
    let end = start + 8 * total;
    if buffer.len() < end {
        return Err(Error::from_kind(ErrorKind::BufferNotLargeEnough));
    }
    read_chunk(source, &mut buffer[start..end])?;
    Ok(Some(NoAllocSegmentTableInfo {
        segments_count,
        segment_table_length_bytes: start,
        total_segments_length_bytes: 8 * total,
    }))
}

// Reads the next table to the front of a buffer, and returns the number of segments and the sum of
// their lengths, or none at the source's end.
fn read_table_into<R: Read>(
    source: &mut R,
    rules: TableRules,
    buffer: &mut [u8],
) -> Result<Option<(usize, usize)>>
    ensures table { IfOk result (λ found. IfSome found (λ table.
        FindsTable rules.padding R.gives rules.limit_in_words buffer.new table.0 table.1 (R.unread source.old) (R.unread source.new))) }
    ensures bound { IfOk result (λ found. IfSome found (λ table. table.1 < 2 ^ 42)) }
    ensures asks { AsksNextInto R.Read source.old source.new rules.padding (length buffer.old)
        (TableError rules.padding R.gives R.refuses rules.limit_in_words
        (Some (length buffer.old))) result }
{
    if buffer.len() < 8 {
        return Err(Error::from_kind(ErrorKind::BufferNotLargeEnough));
    }
    let Some(first) = read_first(source)? else {
        return Ok(None);
    };
    let count = accepted_count(&first)?;
    let size = table_len(count);
    if buffer.len() < size {
        return Err(Error::from_kind(ErrorKind::BufferNotLargeEnough));
    }
    let total = read_total(source, &first, count, &mut buffer[..size], rules)?;
    Ok(Some((count, total)))
}

// Completes a table whose first word this is, tests the limit and the padding, and returns the sum
// of its lengths.
fn read_total<R: Read>(
    source: &mut R,
    first: &[u8; 8],
    count: usize,
    table: &mut [u8],
    rules: TableRules,
) -> Result<usize>
    requires accepted { DeclaresAccepted first.now count }
    requires size { length table.old ≡ table_size count }
    ensures found { OnOk result (IfKnown (R.unread source.old) (R.unread source.new)
        (RestFound rules.padding R.gives first.now (declared_lengths count table.new))) }
    ensures tells { OnOk result (DeclaresTable table.new count) }
    ensures total { IfOk result (λ total. total ≡ sum (declared_lengths count table.new)) }
    ensures bound { IfOk result (λ total. total < 2 ^ 42) }
    ensures within { OnOk result
        (KeepsLimit (declared_lengths count table.new) rules.limit_in_words) }
    ensures errors { FailsOr result (λ kind. IfKnown (R.unread source.old) (R.unread source.new)
        (TableRestError rules.padding R.gives R.refuses rules.limit_in_words kind first.now
        count)) }
    ensures kinds { IfErr result (λ error. IsTableKind rules.padding R.refuses error.kind) }
    ensures asked { Asked R.unread R.failures R.same source.old source.new result }
{
    complete_table(source, first, table)?;
    accepted_total(table, count, rules)
}

// The sum of the lengths in a table that is complete, once the limit and the padding are tested.
fn accepted_total(table: &[u8], count: usize, rules: TableRules) -> Result<usize>
    requires accepted { DeclaresAccepted (take 8 table.now) count }
    requires size { length table.now ≡ table_size count }
    ensures tells { DeclaresTable table.now count }
    ensures total { IfOk result (λ total. total ≡ sum (declared_lengths count table.now)) }
    ensures bound { IfOk result (λ total. total < 2 ^ 42) }
    ensures padding { OnOk result (KeepsPadding rules.padding (declared_padding count table.now)) }
    ensures within { OnOk result
        (KeepsLimit (declared_lengths count table.now) rules.limit_in_words) }
    ensures errors { IfErr result (λ error.
        CompleteTableError rules.padding rules.limit_in_words error.kind table.now) }
{
    let total = lengths_total(table, count);
    check_limit(total, rules.limit_in_words)?;
    check_padding(table, count, rules.padding)?;
    Ok(total)
}
