//! Reading segment tables from a source.
ghost use Rattle.std.specs.Prelude.{◌≡◌, ◌-◌, ◌<◌, ◌≤◌, ◌^◌, max, [], length, take, drop, map, IfOk, IfErr, OnOk, IfSome, IfNone, IsOk, Some};
ghost use Rattle.capnp_frame.specs.SegmentTable.{table_size, KeepsPadding};
ghost use Rattle.capnp_frame.specs.SegmentLengths.{range_len, AreRanges};
ghost use Rattle.capnp_frame.specs.Front.{declared_lengths, declared_padding, DeclaresTable};
ghost use Rattle.capnp_frame.specs.Limits.{KeepsLimit};
ghost use Rattle.capnp_frame.specs.Source.{IfKnown, RequestError};
ghost use Rattle.capnp_frame.specs.Asking.{Asked, FailsOr};
ghost use Rattle.capnp_frame.specs.Steps.{ReadsLengths, ReadsTable, CompleteTableError};
ghost use Rattle.capnp_frame.specs.StreamErrors.{DeclaresAccepted};
ghost use Rattle.capnp_frame.specs.declared.error.ErrorKind.{ErrorKind};

use crate::error::Result;
use crate::io::Read;
use crate::serialize::segment_indices::SegmentIndices;
use crate::serialize::segment_lengths::SegmentLengthsBuilder;
use crate::serialize::segment_table::{
    LONGEST_TABLE, TableRules, accepted_count, check_limit, check_padding, fill_segment_ranges,
    table_len,
};

// The bytes of a table of up to 63 segments.
const SHORT_TABLE: usize = 256;

// Where the segments of the next table begin and end, or none at the source's end. Memory is taken
// only for more segments than one, and than `spare` has.
pub(crate) fn read_indices<R: Read>(
    source: &mut R,
    rules: &TableRules,
    spare: SegmentIndices,
) -> Result<Option<SegmentIndices>>
    ensures { ReadsTable R.Read source.old source.new rules.now.padding rules.now.limit_in_words
        (max 1 (length spare)) result }
{
    let Some(first) = read_first(source)? else {
        return Ok(None);
    };
    let count = accepted_count(&first)?;
    if count == 1 {
        let total = read_lengths(source, &first, &mut [(0, 0)], rules)?;
        return Ok(Some(spare.with_single(total)));
    }
    let mut several = spare.into_several();
    several.resize(count, (0, 0))?;
    let total = read_lengths(source, &first, &mut several, rules)?;
    Ok(Some(SegmentIndices::from_several(several, total)))
}

/// Reads the next segment table of a source, and returns the lengths of the segments, in words, or
/// `None` where nothing is unread. It is the first step of a reader that takes the segments in a
/// way of its own.
///
/// The source is asked for the first word of the table, and for its other words where it has any,
/// and nothing else is consumed. The lengths are put into the memory of `lengths`, whatever these
/// are, which grows where they are fewer than there are segments.
///
/// Fails as the module `serialize` lists, but for segments that are cut. It fails with
/// `MessageTooLarge` where they have more words than the limit, and with `NonZeroPadding` where
/// `Padding::Zero` alone is accepted and the padding isn't zero. Where the memory can't grow, it
/// fails with `OutOfMemory`, the table's first word alone consumed.
pub fn read_table<R: Read>(
    source: &mut R,
    rules: TableRules,
    lengths: SegmentLengthsBuilder,
) -> Result<Option<SegmentLengthsBuilder>>
    ensures { ReadsTable R.Read source.old source.new rules.padding rules.limit_in_words
        (length lengths) result }
{
    let Some(first) = read_first(source)? else {
        return Ok(None);
    };
    let count = accepted_count(&first)?;
    let mut indices = lengths.to_segment_indices();
    indices.resize(count, (0, 0))?;
    let total = read_lengths(source, &first, &mut indices, &rules)?;
    Ok(Some(SegmentLengthsBuilder::from_indices(indices, total)))
}

// Reads the table's other words, tests the limit and the padding, fills in where each segment
// begins and ends, and returns the sum of the lengths.
//
// Speed: most messages have one segment, whose length is in the first word. A buffer is filled with
// zeros first, so only a longer table takes a longer one (`capnp_ls list` of small records).
fn read_lengths<R: Read>(
    source: &mut R,
    first: &[u8; 8],
    indices: &mut [(usize, usize)],
    rules: &TableRules,
) -> Result<usize>
    requires accepted { DeclaresAccepted first.now (length indices.old) }
    ensures { ReadsLengths R.Read source.old source.new rules.now.padding
        rules.now.limit_in_words first.now indices.new result }
{
    let size = table_len(indices.len());
    if size == 8 {
        return fill_lengths(indices, first, rules);
    }
    if size <= 16 {
        let mut table = [0; 16];
        return read_lengths_by(source, first, indices, &mut table[..size], rules);
    }
    if size <= SHORT_TABLE {
        let mut table = [0; SHORT_TABLE];
        return read_lengths_by(source, first, indices, &mut table[..size], rules);
    }
    let mut table = [0; LONGEST_TABLE];
    read_lengths_by(source, first, indices, &mut table[..size], rules)
}

// Reads the table's other words into a buffer of the table's size, and goes on as `read_lengths`.
fn read_lengths_by<R: Read>(
    source: &mut R,
    first: &[u8; 8],
    indices: &mut [(usize, usize)],
    table: &mut [u8],
    rules: &TableRules,
) -> Result<usize>
    requires accepted { DeclaresAccepted first.now (length indices.old) }
    requires size { length table.old ≡ table_size (length indices.old) }
    ensures { ReadsLengths R.Read source.old source.new rules.now.padding
        rules.now.limit_in_words first.now indices.new result }
{
    complete_table(source, first, table)?;
    fill_lengths(indices, table, rules)
}

// Fills in where each segment begins and ends by a table that is complete, tests the limit and the
// padding, and returns the sum of the lengths.
fn fill_lengths(indices: &mut [(usize, usize)], table: &[u8], rules: &TableRules) -> Result<usize>
    requires accepted { DeclaresAccepted (take 8 table.now) (length indices.old) }
    requires size { length table.now ≡ table_size (length indices.old) }
    ensures declared { map range_len indices.new ≡ declared_lengths (length indices.new) table.now }
    ensures tells { DeclaresTable table.now (length indices.new) }
    ensures ranges { IfOk result (AreRanges indices.new) }
    ensures bound { IfOk result (λ total. total < 2 ^ 42) }
    ensures padding { OnOk result
        (KeepsPadding rules.now.padding (declared_padding (length indices.new) table.now)) }
    ensures within { OnOk result (KeepsLimit (map range_len indices.new) rules.now.limit_in_words) }
    ensures errors { IfErr result (λ error.
        CompleteTableError rules.now.padding rules.now.limit_in_words error.kind table.now) }
{
    let total = fill_segment_ranges(indices, table);
    check_limit(total, rules.limit_in_words)?;
    check_padding(table, indices.len(), rules.padding)?;
    Ok(total)
}

// Puts a table's first word into its place, and reads the other words after it.
pub(crate) fn complete_table<R: Read>(
    source: &mut R,
    first: &[u8; 8],
    table: &mut [u8],
) -> Result<()>
    requires { 8 ≤ length table.old }
    ensures front { OnOk result (take 8 table.new ≡ first.now) }
    ensures others { OnOk result (IfKnown (R.unread source.old) (R.unread source.new)
        (λ raw rest. R.gives raw (length table.new - 8) (drop 8 table.new) rest)) }
    ensures errors { FailsOr result
        (RequestError R.refuses (length table.new - 8) (R.unread source.old)) }
    ensures asked { Asked R.unread R.failures R.same source.old source.new result }
{
    table[..8].copy_from_slice(first);
    read_chunk(source, &mut table[8..])
}

// The next word, or none at the source's end.
pub(crate) fn read_first<R: Read>(source: &mut R) -> Result<Option<[u8; 8]>>
    ensures found { IfOk result (λ found. IfSome found (λ word. IfKnown (R.unread source.old)
        (R.unread source.new) (λ raw rest. R.gives raw 8 word rest))) }
    ensures none { IfOk result (λ found. IfNone found
        (IfSome (R.unread source.old) (λ raw. raw ≡ []))) }
    ensures errors { FailsOr result (RequestError R.refuses 8 (R.unread source.old)) }
    ensures end { IfErr result (λ error. R.unread source.old ≡ Some [] →
        error.kind ≡ ErrorKind.DeviceFailed) }
    ensures asked { Asked R.unread R.failures R.same source.old source.new result }
{
    let mut word = [0; 8];
    let count = source.read(&mut word)?;
    if count == 0 {
        return Ok(None);
    }
    read_chunk(source, &mut word[count..])?;
    Ok(Some(word))
}

// Fills a chunk by one request, or by none where the chunk has no bytes.
pub(crate) fn read_chunk<R: Read>(source: &mut R, chunk: &mut [u8]) -> Result<()>
    ensures given { OnOk result (IfKnown (R.unread source.old) (R.unread source.new)
        (λ raw rest. R.gives raw (length chunk.new) chunk.new rest)) }
    ensures quiet { chunk.old ≡ [] → (source.new ≡ source.old) × IsOk result }
    ensures errors { FailsOr result
        (RequestError R.refuses (length chunk.new) (R.unread source.old)) }
    ensures asked { Asked R.unread R.failures R.same source.old source.new result }
{
    if chunk.is_empty() {
        return Ok(());
    }
    source.read_exact(chunk)
}
