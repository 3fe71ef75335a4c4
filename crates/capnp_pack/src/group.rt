//! Reading a chunk group by group.
//!
//! Groups that the source shows whole are unpacked from what it shows. A group that the source cuts
//! is read byte by byte, so no more than its own bytes are consumed, wherever the cut is.
ghost use Rattle.std.specs.Prelude.{◌≡◌, ◌<◌, ◌≤◌, ◌%◌, [], ◌∷◌, ◌++◌, length, take, Option, Some, IfOk, IfErr, IfSome, ◌⊎◌, ◌↔◌};
ghost use Rattle.capnp_frame.specs.declared.error.ErrorKind.{ErrorKind};
ghost use Rattle.capnp_frame.specs.Prelude.{IsWholeWords, IfKnown, RequestError, ReturnsPart, RunsShort, Asked, FailsOr};
ghost use Rattle.capnp_pack.specs.Calls.{TakesFrom, TakesNext};
ghost use Rattle.capnp_pack.specs.PackedSource.{Unpacks, ChunkError, LeavesOverrun, Overran};
ghost use Rattle.capnp_pack.specs.Steps.{TakesGroups, HeadOver, CountOver, GroupAt, FirstGroupError, ErrorAfter, MarkedAt, marked_count, CutError, RunAt, CountedRunError};

use crate::copies::copy_front;
use crate::lanes::unpack_word;
use crate::unpack::unpack_shown;
use capnp_frame::io::{BufRead, Read};
use capnp_frame::{Error, ErrorKind, Result};

// Unpacks a chunk of the buffer's length, or returns 0 at the end of the source.
pub(crate) fn read_chunk<R: BufRead>(source: &mut R, buffer: &mut [u8]) -> Result<usize>
    requires { IsWholeWords buffer.old }
    ensures whole { IfOk result (λ count. (count ≡ 0) ⊎ (count ≡ length buffer.new)) }
    ensures taken { IfOk result (λ count. IfKnown (R.unread source.old) (R.unread source.new)
        (ReturnsPart Unpacks ChunkError (length buffer.new) (take count buffer.new))) }
    ensures end { IfOk result (λ count. IfSome (R.unread source.old)
        (λ raw. 0 < length buffer.new → (count ≡ 0) ↔ (raw ≡ []))) }
    ensures spent { IfOk result (λ count. count ≡ 0 → 0 < length buffer.new →
        RequestError ChunkError (length buffer.new) (R.unread source.old)
        ErrorKind.FailedToFillTheWholeBuffer) }
    ensures errors { FailsOr result
        (RequestError ChunkError (length buffer.new) (R.unread source.old)) }
    ensures overrun { Overran result (R.unread source.old) (R.unread source.new)
        (LeavesOverrun (length buffer.new)) }
    ensures at_end { IfErr result (λ error. R.unread source.old ≡ Some [] →
        error.kind ≡ ErrorKind.DeviceFailed) }
    ensures asked { Asked R.unread R.failures R.same source.old source.new result }
{
    let mut filled = 0;
    while filled < buffer.len() {
        match read_groups(source, &mut buffer[filled..])? {
            Some(count) => filled += count,
            None if filled == 0 => return Ok(0),
            None => return Err(Error::from_kind(ErrorKind::PrematureEndOfPackedInput)),
        }
    }
    Ok(filled)
}

// Unpacks the groups that the source shows whole into the front of the buffer, or the next group
// where it shows none whole, and returns how many bytes they have; `None` at the end.
fn read_groups<R: BufRead>(source: &mut R, buffer: &mut [u8]) -> Result<Option<usize>>
    requires { 8 ≤ length buffer.old }
    ensures takes { TakesNext R.Read source.old source.new
        (TakesGroups (R.unread source.old) (R.unread source.new) buffer.new)
        (RequestError FirstGroupError (length buffer.new) (R.unread source.old)) result }
    ensures overrun { Overran result (R.unread source.old) (R.unread source.new)
        (LeavesOverrun (length buffer.new)) }
{
    let taken = unpack_shown(source.fill_buf()?, buffer);
    if taken.filled == 0 {
        return read_group(source, buffer);
    }
    source.consume(taken.used);
    Ok(Some(taken.filled))
}

// Unpacks the next group into the front of the buffer, looking at one byte at a time, and returns
// how many bytes it has; `None` at the end.
pub(crate) fn read_group<R: BufRead>(source: &mut R, buffer: &mut [u8]) -> Result<Option<usize>>
    requires { 8 ≤ length buffer.old }
    ensures takes { TakesNext R.Read source.old source.new
        (TakesGroups (R.unread source.old) (R.unread source.new) buffer.new)
        (RequestError FirstGroupError (length buffer.new) (R.unread source.old)) result }
    ensures overrun { Overran result (R.unread source.old) (R.unread source.new)
        (LeavesOverrun (length buffer.new)) }
{
    let Some(tag) = next_byte(source)? else {
        return Ok(None);
    };
    let count = match tag {
        0 => read_zeros(source, buffer)?,
        _ => read_words(source, tag, buffer)?,
    };
    Ok(Some(count))
}

// Unpacks a group of zero words, whose tag has been read.
fn read_zeros<R: BufRead>(source: &mut R, buffer: &mut [u8]) -> Result<usize>
    requires room { 8 ≤ length buffer.old }
    ensures within { IfOk result (λ count. (0 < count) × (count ≤ length buffer.new)
        × (count % 8 ≡ 0)) }
    ensures takes { TakesFrom R.Read source.old source.new (λ count.
        IfKnown (R.unread source.old) (R.unread source.new) (GroupAt 0 (take count buffer.new)))
        (RequestError (ErrorAfter 0) (length buffer.new) (R.unread source.old)) result }
    ensures overrun { Overran result (R.unread source.old) (R.unread source.new)
        (HeadOver 0 (length buffer.new)) }
{
    let Some(further) = next_byte(source)? else {
        return Err(Error::from_kind(ErrorKind::PrematureEndOfPackedInput));
    };
    let count = 8 * (further as usize + 1);
    if count > buffer.len() {
        return Err(Error::from_kind(ErrorKind::PackedInputDidNotEndCleanlyOnASegmentBoundary));
    }
    buffer[..count].fill(0);
    Ok(count)
}

// Unpacks any other group, whose tag has been read.
fn read_words<R: BufRead>(source: &mut R, tag: u8, buffer: &mut [u8]) -> Result<usize>
    requires tag { 0 < tag }
    requires room { 8 ≤ length buffer.old }
    ensures within { IfOk result (λ count. (0 < count) × (count ≤ length buffer.new)
        × (count % 8 ≡ 0)) }
    ensures takes { TakesFrom R.Read source.old source.new (λ count.
        IfKnown (R.unread source.old) (R.unread source.new) (GroupAt tag (take count buffer.new)))
        (RequestError (ErrorAfter tag) (length buffer.new) (R.unread source.old)) result }
    ensures overrun { Overran result (R.unread source.old) (R.unread source.new)
        (HeadOver tag (length buffer.new)) }
{
    read_word(source, tag, &mut buffer[..8])?;
    if tag < 255 {
        return Ok(8);
    }
    let count = read_run(source, &mut buffer[8..])?;
    Ok(8 + count)
}

// Fills a word with the bytes that a tag marks, at once where they are shown.
fn read_word<R: BufRead>(source: &mut R, tag: u8, word: &mut [u8]) -> Result<()>
    requires { length word.old ≡ 8 }
    ensures { TakesFrom R.Read source.old source.new (λ _.
        IfKnown (R.unread source.old) (R.unread source.new) (MarkedAt tag word.new))
        (CutError (marked_count tag (length word.new)) (R.unread source.old)) result }
{
    let shown = source.fill_buf()?;
    if shown.len() < 8 {
        return read_marked(source, tag, word);
    }
    let used = unpack_word(tag, shown, word);
    source.consume(used);
    Ok(())
}

// Fills a word with the bytes that a tag marks, looking at the source for each of them.
fn read_marked<R: BufRead>(source: &mut R, tag: u8, word: &mut [u8]) -> Result<()>
    ensures { TakesFrom R.Read source.old source.new (λ _.
        IfKnown (R.unread source.old) (R.unread source.new) (MarkedAt tag word.new))
        (CutError (marked_count tag (length word.new)) (R.unread source.old)) result }
{
    let mut bits = tag;
    for byte in word.iter_mut() {
        *byte = read_byte(source, bits)?;
        bits /= 2;
    }
    Ok(())
}

// Reads a byte where the lowest of the bits marks it, else returns zero.
fn read_byte<R: BufRead>(source: &mut R, bits: u8) -> Result<u8>
    ensures { TakesFrom R.Read source.old source.new (λ byte.
        IfKnown (R.unread source.old) (R.unread source.new) (MarkedAt bits (byte ∷ [])))
        (CutError (marked_count bits 1) (R.unread source.old)) result }
{
    if bits % 2 == 0 {
        return Ok(0);
    }
    required_byte(source)
}

// Reads the words after the first one of a literal group, and returns how many bytes they have.
fn read_run<R: BufRead>(source: &mut R, buffer: &mut [u8]) -> Result<usize>
    ensures within { IfOk result (λ count. (count ≤ length buffer.new) × (count % 8 ≡ 0)) }
    ensures takes { TakesFrom R.Read source.old source.new (λ count.
        IfKnown (R.unread source.old) (R.unread source.new) (RunAt (take count buffer.new)))
        (RequestError CountedRunError (length buffer.new) (R.unread source.old)) result }
    ensures overrun { Overran result (R.unread source.old) (R.unread source.new)
        (CountOver (length buffer.new)) }
{
    let further = required_byte(source)?;
    let count = 8 * further as usize;
    if count > buffer.len() {
        return Err(Error::from_kind(ErrorKind::PackedInputDidNotEndCleanlyOnASegmentBoundary));
    }
    read_stored(source, &mut buffer[..count])?;
    Ok(count)
}

// Fills the buffer with unpacked bytes: what is shown is copied, and the rest is read by one
// request.
fn read_stored<R: BufRead>(source: &mut R, buffer: &mut [u8]) -> Result<()>
    ensures { TakesFrom R.Read source.old source.new (λ _.
        IfKnown (R.unread source.old) (R.unread source.new) (λ raw left. raw ≡ buffer.new ++ left))
        (RequestError RunsShort (length buffer.new) (R.unread source.old)) result }
{
    if buffer.is_empty() {
        return Ok(());
    }
    let copied = copy_shown(source, buffer)?;
    if copied == buffer.len() {
        return Ok(());
    }
    source.read_exact(&mut buffer[copied..])?;
    Ok(())
}

// Copies what is shown into the front of the buffer, and returns how many bytes they are.
fn copy_shown<R: BufRead>(source: &mut R, buffer: &mut [u8]) -> Result<usize>
    ensures within { IfOk result (λ count. count ≤ length buffer.new) }
    ensures takes { TakesFrom R.Read source.old source.new (λ count.
        IfKnown (R.unread source.old) (R.unread source.new)
        (λ raw left. raw ≡ take count buffer.new ++ left)) (λ _. ⊥) result }
{
    let shown = source.fill_buf()?;
    let count = shown.len().min(buffer.len());
    copy_front(count, shown, buffer);
    source.consume(count);
    Ok(count)
}

// Takes the next byte of a group.
fn required_byte<R: BufRead>(source: &mut R) -> Result<u8>
    ensures { TakesFrom R.Read source.old source.new (λ byte.
        IfKnown (R.unread source.old) (R.unread source.new) (λ raw left. raw ≡ byte ∷ left))
        (CutError 1 (R.unread source.old)) result }
{
    match next_byte(source)? {
        Some(byte) => Ok(byte),
        None => Err(Error::from_kind(ErrorKind::PrematureEndOfPackedInput)),
    }
}

// Takes the next byte, if there is one.
fn next_byte<R: BufRead>(source: &mut R) -> Result<Option<u8>>
    ensures { TakesNext R.Read source.old source.new (λ byte.
        IfKnown (R.unread source.old) (R.unread source.new) (λ raw left. raw ≡ byte ∷ left))
        (λ _. ⊥) result }
{
    let Some(byte) = source.fill_buf()?.first().copied() else {
        return Ok(None);
    };
    source.consume(1);
    Ok(Some(byte))
}
