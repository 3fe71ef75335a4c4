//! What is known of a message from its segment table, found without memory.
ghost use Rattle.std.specs.Prelude.{◌≡◌, ◌*◌, ◌↔◌, length, sum, IfOk, IfErr, IsTrue};
ghost use Rattle.capnp_frame.specs.SegmentTable.{table_size, KeepsPadding};
ghost use Rattle.capnp_frame.specs.Limits.{KeepsLimit};
ghost use Rattle.capnp_frame.specs.Front.{IsDescribed, HaveSameNumbers, HoldsMessage, declared_lengths, declared_padding};
ghost use Rattle.capnp_frame.specs.FlatErrors.{by_fields, cut_kind, FlatError};

use crate::error::{Error, ErrorKind, Result};
use crate::message::AsBytes;
use crate::serialize::segment_table::{
    Padding, SEGMENTS_COUNT_LIMIT, TableRules, check_limit, check_padding, field_at, lengths_total,
    table_len,
};

/// How many segments a message has, and how long its table and its segments are, as the segment
/// table at its front declares.
///
/// ```
/// let info = NoAllocSegmentTableInfo {
///     segments_count: 2,
///     segment_table_length_bytes: 16,
///     total_segments_length_bytes: 8,
/// };
/// let end = info.segment_table_length_bytes + info.total_segments_length_bytes;
/// assert_eq!(rt; end, buffer.len());
/// ```
#[derive(Clone, Copy, Debug)]
pub struct NoAllocSegmentTableInfo {
    /// The number of segments.
    pub segments_count: usize,

    /// The bytes of the segment table.
    pub segment_table_length_bytes: usize,

    /// The bytes of all segments together.
    pub total_segments_length_bytes: usize,
}

/// Whether a buffer begins with a message of 1 to 511 segments, with any padding, whose table has
/// these numbers.
pub fn describes<T: AsBytes>(buffer: &T, info: &NoAllocSegmentTableInfo) -> bool
    ensures { IsTrue result ↔ IsDescribed (T.bytes buffer.now) info.now }
{
    let any = TableRules {
        padding: Padding::Any,
        limit_in_words: None,
    };
    match read_table_info(buffer.as_bytes(), any) {
        Ok(found) => has_same_numbers(&found, info),
        Err(_) => false,
    }
}

// Whether the numbers of two tables are the same.
fn has_same_numbers(found: &NoAllocSegmentTableInfo, info: &NoAllocSegmentTableInfo) -> bool
    ensures { IsTrue result ↔ HaveSameNumbers found.now info.now }
{
    found.segments_count == info.segments_count
        && found.segment_table_length_bytes == info.segment_table_length_bytes
        && found.total_segments_length_bytes == info.total_segments_length_bytes
}

/// Reads the table at the front of these bytes field by field, and tests that the segments follow.
///
/// A number of segments past 32 bits doesn't wrap: `ff ff ff ff` fails as 2^32 segments, where
/// `accepted_count` fails as 0.
pub(crate) fn read_table_info(bytes: &[u8], rules: TableRules) -> Result<NoAllocSegmentTableInfo>
    ensures holds { IfOk result (λ info. HoldsMessage bytes.now info.segments_count) }
    ensures table { IfOk result (λ info.
        info.segment_table_length_bytes ≡ table_size info.segments_count) }
    ensures total { IfOk result (λ info. info.total_segments_length_bytes
        ≡ 8 * sum (declared_lengths info.segments_count bytes.now)) }
    ensures within { IfOk result (λ info.
        KeepsLimit (declared_lengths info.segments_count bytes.now) rules.limit_in_words) }
    ensures padding { IfOk result (λ info.
        KeepsPadding rules.padding (declared_padding info.segments_count bytes.now)) }
    ensures errors { IfErr result (λ error.
        FlatError by_fields rules.padding rules.limit_in_words error.kind bytes.now) }
{
    let length = bytes.len();
    if length < 4 {
        return Err(cut_field(bytes));
    }
    let segments_count = field_at(bytes, 0) as usize + 1;
    if segments_count >= SEGMENTS_COUNT_LIMIT {
        return Err(Error::from_kind(ErrorKind::InvalidNumberOfSegments(segments_count)));
    }
    if length < 4 * (segments_count + 1) {
        return Err(cut_field(bytes));
    }
    let total = lengths_total(bytes, segments_count);
    check_limit(total, rules.limit_in_words)?;
    let table_length = table_len(segments_count);
    if length < table_length {
        return Err(cut_field(bytes));
    }
    check_padding(bytes, segments_count, rules.padding)?;
    let there = length - table_length;
    if there < 8 * total {
        return Err(Error::from_kind(ErrorKind::MessageEndsPrematurely(total, there / 8)));
    }
    Ok(NoAllocSegmentTableInfo {
        segments_count,
        segment_table_length_bytes: table_length,
        total_segments_length_bytes: 8 * total,
    })
}

// The error where the bytes end before or within a field.
fn cut_field(bytes: &[u8]) -> Error
    ensures { result.kind ≡ cut_kind by_fields (length bytes.now) }
{
    Error::from_kind(ErrorKind::MessageEndsPrematurely(4, bytes.len() % 4))
}
