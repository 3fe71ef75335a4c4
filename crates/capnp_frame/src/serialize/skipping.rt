//! Skipping messages of a source: only the lengths of their segments are returned.
ghost use Rattle.std.specs.Prelude.{◌≡◌, ◌-◌, ◌*◌, ◌<◌, ◌≤◌, [], length, IfOk, IfErr, IfSome};
ghost use Rattle.capnp_frame.specs.Source.{IfKnown};
ghost use Rattle.capnp_frame.specs.Asking.{Asked};
ghost use Rattle.capnp_frame.specs.Streams.{skipping_rules, ReadsStream};
ghost use Rattle.capnp_frame.specs.Skipping.{SkipsMessage, SkipsBytes, Drops};
ghost use Rattle.capnp_frame.specs.declared.error.ErrorKind.{ErrorKind};

use crate::error::{Error, ErrorKind, Result};
use crate::io::BufRead;
use crate::serialize::segment_lengths::SegmentLengthsBuilder;
use crate::serialize::segment_table::TableRules;
use crate::serialize::stream_table::read_table;

// Segments of this many bytes or more are read in chunks of this length, not through a source's own
// buffer.
const LONG: usize = 32768;

/// Skips the next message of a source, and returns the lengths of its segments, or `None` where
/// nothing is unread.
///
/// It returns, consumes and fails as `try_read_segments_reusing` does by these rules, but takes no
/// memory for the segments. The lengths are put into the memory of `lengths`, whatever these are,
/// which grows where it is too small. So it fails with `OutOfMemory` only for more segments than
/// these are, and then the table's first word alone is consumed.
pub fn try_skip_segments<R: BufRead>(
    source: &mut R,
    rules: TableRules,
    lengths: SegmentLengthsBuilder,
) -> Result<Option<SegmentLengthsBuilder>>
    ensures { SkipsMessage (ReadsStream R.Read source.old source.new
        (skipping_rules rules.padding R.gives R.refuses (length lengths)) rules.limit_in_words)
        result }
{
    let Some(found) = read_table(source, rules, lengths)? else {
        return Ok(None);
    };
    skip_bytes(source, 8 * found.total_words())?;
    Ok(Some(found))
}

// Skips a given number of bytes.
fn skip_bytes<R: BufRead>(source: &mut R, count: usize) -> Result<()>
    ensures { SkipsBytes R.Read source.old source.new count result }
{
    if count < LONG {
        return skip_shown(source, count);
    }
    let mut part = [0; LONG];
    skip_parts(source, count, &mut part)
}

// Skips bytes: whole chunks are read into `part`, and the rest is skipped as the source shows it.
fn skip_parts<R: BufRead>(source: &mut R, count: usize, part: &mut [u8]) -> Result<()>
    requires { 0 < length part.old }
    ensures { SkipsBytes R.Read source.old source.new count result }
{
    let size = part.len();
    let mut left = count;
    while left >= size {
        source.read_exact(part)?;
        left -= size;
    }
    skip_shown(source, left)
}

// Skips bytes as the source shows them, part after part.
fn skip_shown<R: BufRead>(source: &mut R, count: usize) -> Result<()>
    ensures { SkipsBytes R.Read source.old source.new count result }
{
    let mut left = count;
    while left > 0 {
        let taken = skip_some(source, left)?;
        if taken == 0 {
            return Err(Error::from_kind(ErrorKind::FailedToFillTheWholeBuffer));
        }
        left -= taken;
    }
    Ok(())
}

// Skips what is shown, at most a given number of bytes, and returns how many: none only at the end.
fn skip_some<R: BufRead>(source: &mut R, most: usize) -> Result<usize>
    requires { 0 < most }
    ensures within { IfOk result (λ count. count ≤ most) }
    ensures end { IfOk result (λ count. count ≡ 0 → IfSome (R.unread source.old) (λ raw. raw ≡ [])) }
    ensures dropped { IfOk result (λ count.
        IfKnown (R.unread source.old) (R.unread source.new) (Drops count)) }
    ensures device { IfErr result (λ error. error.kind ≡ ErrorKind.DeviceFailed) }
    ensures asked { Asked R.unread R.failures R.same source.old source.new result }
{
    let count = source.fill_buf()?.len().min(most);
    source.consume(count);
    Ok(count)
}
