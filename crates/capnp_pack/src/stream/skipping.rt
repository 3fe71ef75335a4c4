//! Skipping packed messages of a source: only the lengths of their segments are returned.
ghost use Rattle.std.specs.Prelude.{length};
ghost use Rattle.capnp_frame.specs.Prelude.{SkipsMessage, ReadsTable, ReadsStream};
ghost use Rattle.capnp_pack.specs.PackedStreams.{packed_skipping_rules, packed_source};

use crate::packed_read::PackedRead;
use crate::skip::skip_chunk;
use capnp_frame::Result;
use capnp_frame::io::{BufRead, Read};
use capnp_frame::serialize::{SegmentLengthsBuilder, TableRules, read_table};

/// Skips the next packed message of a source, and returns the lengths of its segments, or `None`
/// where nothing is unread.
///
/// It returns, consumes and fails as `try_read_packed_segments` does, but takes no memory for the
/// segments, whose groups are passed over. The lengths are put into the memory of `lengths`,
/// whatever these are, which grows where it is too small. So it fails with `OutOfMemory` only for
/// more segments than these are, and then the group of the table's first word alone is consumed.
pub fn try_skip_packed_segments<R: BufRead>(
    source: &mut R,
    rules: TableRules,
    lengths: SegmentLengthsBuilder,
) -> Result<Option<SegmentLengthsBuilder>>
    ensures { SkipsMessage (ReadsStream R.Read source.old source.new
        (packed_skipping_rules rules.padding (length lengths)) rules.limit_in_words) result }
{
    let Some(found) = read_packed_table(source, rules, lengths)? else {
        return Ok(None);
    };
    skip_chunk(source, 8 * found.total_words())?;
    Ok(Some(found))
}

// The lengths in the next table, or none at the source's end.
fn read_packed_table<R: BufRead>(
    source: &mut R,
    rules: TableRules,
    lengths: SegmentLengthsBuilder,
) -> Result<Option<SegmentLengthsBuilder>>
    ensures { ReadsTable (packed_source R.Read) source.old source.new rules.padding
        rules.limit_in_words (length lengths) result }
{
    let mut packed = PackedRead::new(source);
    read_table(&mut packed, rules, lengths)
}
