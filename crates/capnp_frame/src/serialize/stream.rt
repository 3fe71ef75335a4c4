//! Reading messages from a source.
ghost use Rattle.std.specs.Prelude.{◌≡◌, ◌*◌, length, sum, vec_len, IfOk, IfSome, None};
ghost use Rattle.std.specs.List.{AllByRecursion};
ghost use Rattle.capnp_frame.specs.Message.{IsWholeWords};
ghost use Rattle.capnp_frame.specs.Limits.{IsWithin};
ghost use Rattle.capnp_frame.specs.Source.{IfKnown};
ghost use Rattle.capnp_frame.specs.Streams.{framed_rules, reusing_rules, ReadsStream};
ghost use Rattle.capnp_frame.specs.Steps.{AsksNext};
ghost use Rattle.capnp_frame.specs.Requests.{MessageFound};
ghost use Rattle.capnp_frame.specs.StreamErrors.{StreamError, Outgrows};

use crate::error::Result;
use crate::io::Read;
use crate::message::ReaderOptions;
use crate::serialize::owned_segments::OwnedSegments;
use crate::serialize::segment_indices::SegmentIndices;
use crate::serialize::segment_table::{Padding, TableRules};
use crate::serialize::stream_table::{read_chunk, read_indices};
use std::alloc::Global;

/// Reads the next message of a source, or returns `None` where nothing is unread.
///
/// The source is asked for three chunks: the first word of the table, the table's other words, and
/// all segments together. A chunk of no bytes is not asked for, and nothing else is consumed.
/// Memory is taken for the lengths of more than one segment, and for the segments once the limit
/// and the padding are tested.
///
/// Fails as the module `serialize` lists: with `NonZeroPadding`, the table consumed, where the
/// padding isn't zero.
pub fn try_read_segments<R: Read>(
    alloc: Global,
    source: &mut R,
    options: ReaderOptions,
) -> Result<Option<OwnedSegments>>
    ensures { ReadsStream R.Read source.old source.new
        (framed_rules Padding.Zero R.gives R.refuses) options.traversal_limit_in_words result }
{
    let rules = TableRules::new(Padding::Zero, options);
    try_read_segments_reusing(source, rules, OwnedSegments::empty(alloc))
}

/// Reads the next message as `try_read_segments` does, but accepts any padding in the segment
/// table.
pub fn try_read_segments_lenient<R: Read>(
    alloc: Global,
    source: &mut R,
    options: ReaderOptions,
) -> Result<Option<OwnedSegments>>
    ensures { ReadsStream R.Read source.old source.new
        (framed_rules Padding.Any R.gives R.refuses) options.traversal_limit_in_words result }
{
    let rules = TableRules::new(Padding::Any, options);
    try_read_segments_reusing(source, rules, OwnedSegments::empty(alloc))
}

/// Reads the next message as `try_read_segments` does, by these rules, into the memory of an
/// earlier message, which grows where it is too small.
///
/// Fails as the module `serialize` lists: with `MessageTooLarge` where the segments have more words
/// than the limit, and with `NonZeroPadding`, the table consumed, where `Padding::Zero` alone is
/// accepted and the padding isn't zero. It fails with `OutOfMemory` only for more bytes than the
/// segments of `spare` have, or for more segments than one and than `spare` has.
pub fn try_read_segments_reusing<R: Read>(
    source: &mut R,
    rules: TableRules,
    spare: OwnedSegments,
) -> Result<Option<OwnedSegments>>
    ensures { ReadsStream R.Read source.old source.new
        (reusing_rules rules.padding R.gives R.refuses spare) rules.limit_in_words result }
{
    let (indices, bytes) = spare.into_parts();
    read_segments(source, rules, indices, bytes)
}

// Reads the table and the segments, into this memory.
fn read_segments<R: Read>(
    source: &mut R,
    rules: TableRules,
    spare_indices: SegmentIndices,
    spare_bytes: Vec<u8>,
) -> Result<Option<OwnedSegments>>
    ensures found { IfOk result (λ found. IfSome found (λ segments. IfKnown (R.unread source.old)
        (R.unread source.new) (MessageFound rules.padding R.gives segments))) }
    ensures within { IfOk result (λ found. IfSome found (λ segments.
        IsWithin segments rules.limit_in_words)) }
    ensures whole { IfOk result (λ found. IfSome found (AllByRecursion IsWholeWords)) }
    ensures asks { AsksNext R.Read source.old source.new rules.padding
        (Outgrows (length spare_indices) (vec_len spare_bytes) rules.padding R.gives
        rules.limit_in_words)
        (StreamError rules.padding R.gives R.refuses rules.limit_in_words None) result }
{
    let Some(indices) = read_indices(source, &rules, spare_indices)? else {
        return Ok(None);
    };
    let mut bytes = spare_bytes;
    bytes.resize(8 * indices.total_words(), 0)?;
    read_chunk(source, &mut bytes)?;
    Ok(Some(OwnedSegments::from_parts(indices, bytes)))
}
