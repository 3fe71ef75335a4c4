//! Packed messages, read by the readers of `capnp_frame` over `PackedRead`.
ghost use Rattle.std.specs.Prelude.{length};
ghost use Rattle.capnp_frame.specs.Prelude.{next_in, ReadsStream, ReadsStreamInto, ReadsFramedInto};
ghost use Rattle.capnp_pack.specs.PackedStreams.{packed_rules, packed_reusing_rules};

mod skipping;

use crate::packed_read::PackedRead;
use capnp_frame::Result;
use capnp_frame::io::BufRead;
use capnp_frame::serialize::{
    NoAllocBufferSegments, NoAllocSegmentTableInfo, OwnedSegments, TableRules,
    try_read_framed_into, try_read_segments_into_with_rules, try_read_segments_reusing,
};
pub use skipping::try_skip_packed_segments;

/// Reads the next packed message of a source, or returns `None` where nothing is unread.
///
/// Only the message's packed bytes are consumed, however the source cuts them. The segments are put
/// into the memory of an earlier message, which grows as by `try_read_segments_reusing`. The call
/// fails as that does over a packed source, with the errors of `PackedRead`.
pub fn try_read_packed_segments<R: BufRead>(
    source: &mut R,
    rules: TableRules,
    spare: OwnedSegments,
) -> Result<Option<OwnedSegments>>
    ensures { ReadsStream R.Read source.old source.new (packed_reusing_rules rules.padding spare)
        rules.limit_in_words result }
{
    let mut packed = PackedRead::new(source);
    try_read_segments_reusing(&mut packed, rules, spare)
}

/// Reads the next packed message of a source into a caller-provided buffer, or returns `None` where
/// nothing is unread.
///
/// No memory is taken. Fails as `try_read_segments_into_with_rules` does over a packed source, with
/// the errors of `PackedRead`, and with `BufferNotLargeEnough` where table and segments don't fit
/// the buffer.
pub fn try_read_packed_segments_into<'b, R: BufRead>(
    source: &mut R,
    rules: TableRules,
    buffer: &'b mut [u8],
) -> Result<Option<NoAllocBufferSegments<&'b [u8]>>>
    ensures { ReadsStreamInto R.Read source.old source.new (packed_rules rules.padding)
        rules.limit_in_words (length buffer.old) (next_in (λ message. message.segments) result) }
{
    let mut packed = PackedRead::new(source);
    try_read_segments_into_with_rules(&mut packed, rules, buffer)
}

/// Reads the next packed message of a source into a caller-provided buffer, and returns what its
/// table says, or `None` where nothing is unread. The buffer then begins with the framed encoding
/// that a writer writes.
///
/// No memory is taken. It fails as `try_read_packed_segments_into` does.
pub fn try_read_packed_framed_into<R: BufRead>(
    source: &mut R,
    rules: TableRules,
    buffer: &mut [u8],
) -> Result<Option<NoAllocSegmentTableInfo>>
    ensures { ReadsFramedInto R.Read source.old source.new (packed_rules rules.padding)
        rules.limit_in_words buffer.old buffer.new result }
{
    let mut packed = PackedRead::new(source);
    try_read_framed_into(&mut packed, rules, buffer)
}
