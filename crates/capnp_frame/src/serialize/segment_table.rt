//! The segment table at the front of a framed message: its fields, and the lengths that they
//! declare.
ghost use Rattle.std.specs.Prelude.{◌≡◌, ◌+◌, ◌*◌, ◌<◌, ◌≤◌, ◌^◌, length, map, take, drop, sum, ℕ, OnOk, IfOk, IfErr, IfSome, IsSomeAnd};
ghost use Rattle.capnp_frame.specs.SegmentTable.{table_field, table_size, KeepsPadding};
ghost use Rattle.capnp_frame.specs.SegmentLengths.{range_len, AreRanges};
ghost use Rattle.capnp_frame.specs.StreamErrors.{DeclaresCount, DeclaresAccepted, IsOutOfRange};
ghost use Rattle.capnp_frame.specs.Front.{declared_lengths, declared_padding, SpellsLengths};

use crate::error::{Error, ErrorKind, Result};
use crate::message::ReaderOptions;

/// A message that is read has fewer segments than this, so at most 511.
///
/// The limit keeps a hostile table from asking for much memory before any segment is there.
pub const SEGMENTS_COUNT_LIMIT: usize = 512;

/// The length of the longest table that is read, of 511 segments, in bytes.
pub(crate) const LONGEST_TABLE: usize = 4 * SEGMENTS_COUNT_LIMIT;

/// What a reader accepts as the padding of a segment table: the four bytes after an even number of
/// lengths. Encoding document, "Serialization Over a Stream".
///
/// ```
/// let strict = TableRules::new(Padding::Zero, DEFAULT_READER_OPTIONS);
/// let Err(error) = NoAllocBufferSegments::from_buffer_with_rules(padded_with_nines, strict) else {
///     panic!(rt; "a padding of nines");
/// };
/// assert_eq!(rt; error.kind, ErrorKind::NonZeroPadding);
/// let lenient = TableRules::new(Padding::Any, DEFAULT_READER_OPTIONS);
/// let message = NoAllocBufferSegments::from_buffer_with_rules(padded_with_nines, lenient)?;
/// assert_eq!(rt; message.len(), 2);
/// ```
#[derive(Clone, Copy, Debug, PartialEq, Eq)]
pub enum Padding {
    /// Any bytes.
    Any,
    /// Zeros alone, as writers put there.
    Zero,
}

/// What the segment table of a message has to keep for a reader to accept it.
///
/// ```
/// let rules = TableRules {
///     padding: Padding::Any,
///     limit_in_words: Some(1),
/// };
/// let message = BufferSegments::with_rules(alloc, padded_with_nines, rules)?;
/// assert_eq!(rt; message.len(), 2);
/// ```
#[derive(Clone, Copy, Debug, PartialEq, Eq)]
pub struct TableRules {
    /// The padding that is accepted.
    pub padding: Padding,

    /// The most words that the segments may have together. `None` sets no limit.
    pub limit_in_words: Option<usize>,
}

impl TableRules {
    /// The rules of a reader with these options, which accepts this padding.
    pub fn new(padding: Padding, options: ReaderOptions) -> TableRules
        ensures { result ≡ record {
          padding = padding;
          limit_in_words = options.traversal_limit_in_words;
        } }
    {
        TableRules {
            padding,
            limit_in_words: options.traversal_limit_in_words,
        }
    }
}

/// The number of bytes of a table of this many segments.
pub(crate) fn table_len(count: usize) -> usize
    requires { count < 2 ^ 32 }
    ensures { result ≡ table_size count }
{
    8 * (count / 2 + 1)
}

/// The number in the four bytes at `at`.
pub(crate) fn field_at(table: &[u8], at: usize) -> u32
    requires { at + 4 ≤ length table.now }
    ensures { table_field result ≡ take 4 (drop at table.now) }
{
    u32::from_le_bytes([table[at], table[at + 1], table[at + 2], table[at + 3]])
}

/// The number of segments by the first word of a table: one more than its field holds. Fails with
/// `InvalidNumberOfSegments` where it isn't from 1 to 511.
///
/// The number wraps at 32 bits, so `ff ff ff ff` fails as 0; `read_table_info` doesn't wrap, and
/// fails as 2^32 there.
pub(crate) fn accepted_count(first: &[u8; 8]) -> Result<usize>
    ensures accepted { IfOk result (DeclaresAccepted first.now) }
    ensures errors { IfErr result (λ error. (count : ℕ) × DeclaresCount first.now count
        × IsOutOfRange count × (error.kind ≡ ErrorKind.InvalidNumberOfSegments count)) }
{
    let count = field_at(first, 0).wrapping_add(1) as usize;
    if count == 0 || count >= SEGMENTS_COUNT_LIMIT {
        return Err(Error::from_kind(ErrorKind::InvalidNumberOfSegments(count)));
    }
    Ok(count)
}

/// Fails with `MessageTooLarge` where there are more words than the limit.
pub(crate) fn check_limit(total: usize, limit: Option<usize>) -> Result<()>
    ensures kept { OnOk result (IfSome limit (λ most. total ≤ most)) }
    ensures errors { IfErr result (λ error. IsSomeAnd limit (λ most. most < total)
        × (error.kind ≡ ErrorKind.MessageTooLarge total)) }
{
    if let Some(most) = limit
        && total > most
    {
        return Err(Error::from_kind(ErrorKind::MessageTooLarge(total)));
    }
    Ok(())
}

/// Fails with `NonZeroPadding` where the rule doesn't accept the padding of a table of this many
/// segments.
pub(crate) fn check_padding(table: &[u8], count: usize, rule: Padding) -> Result<()>
    requires few { count < SEGMENTS_COUNT_LIMIT }
    requires room { table_size count ≤ length table.now }
    ensures kept { OnOk result (KeepsPadding rule (declared_padding count table.now)) }
    ensures errors { IfErr result (λ error. (rule ≡ Padding.Zero)
        × (KeepsPadding rule (declared_padding count table.now) → ⊥)
        × (error.kind ≡ ErrorKind.NonZeroPadding)) }
{
    match rule {
        Padding::Any => Ok(()),
        Padding::Zero => check_zeros(table, count),
    }
}

// Fails where there is a padding that isn't zero.
fn check_zeros(table: &[u8], count: usize) -> Result<()>
    requires few { count < SEGMENTS_COUNT_LIMIT }
    requires room { table_size count ≤ length table.now }
    ensures kept { OnOk result (KeepsPadding Padding.Zero (declared_padding count table.now)) }
    ensures errors { IfErr result (λ error.
        (KeepsPadding Padding.Zero (declared_padding count table.now) → ⊥)
        × (error.kind ≡ ErrorKind.NonZeroPadding)) }
{
    if count % 2 == 1 {
        return Ok(());
    }
    if field_at(table, 4 * (count + 1)) != 0 {
        return Err(Error::from_kind(ErrorKind::NonZeroPadding));
    }
    Ok(())
}

/// The sum of the lengths of the first `count` segments.
pub(crate) fn lengths_total(table: &[u8], count: usize) -> usize
    requires few { count < SEGMENTS_COUNT_LIMIT }
    requires room { 4 * (count + 1) ≤ length table.now }
    ensures total { result ≡ sum (declared_lengths count table.now) }
    ensures bound { result < 2 ^ 42 }
    ensures lengths { SpellsLengths table.now count }
{
    let mut total = 0;
    for index in 0..count {
        total += field_at(table, 4 * (index + 1)) as usize;
    }
    total
}

/// Fills in where each segment begins and ends, in words, by the lengths in a table of as many
/// segments, and returns the sum of the lengths.
pub(crate) fn fill_segment_ranges(indices: &mut [(usize, usize)], table: &[u8]) -> usize
    requires few { length indices.old < SEGMENTS_COUNT_LIMIT }
    requires room { 4 * (length indices.old + 1) ≤ length table.now }
    ensures declared { map range_len indices.new ≡ declared_lengths (length indices.new) table.now }
    ensures ranges { AreRanges indices.new result }
    ensures bound { result < 2 ^ 42 }
    ensures lengths { SpellsLengths table.now (length indices.new) }
{
    let mut end = 0;
    for index in 0..indices.len() {
        let start = end;
        end += field_at(table, 4 * (index + 1)) as usize;
        indices[index] = (start, end);
    }
    end
}
