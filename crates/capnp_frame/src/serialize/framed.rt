//! Reading the framed encoding of a message from a source into a caller-provided buffer.
ghost use Rattle.capnp_frame.specs.Streams.{framed_rules};
ghost use Rattle.capnp_frame.specs.FramedInto.{ReadsFramedInto};

use crate::error::Result;
use crate::io::Read;
use crate::serialize::provided_stream::read_into;
use crate::serialize::segment_table::{TableRules, table_len};
use crate::serialize::segment_table_info::NoAllocSegmentTableInfo;

/// Reads the next message of a source into a caller-provided buffer, and returns what its table
/// says, or `None` where nothing is unread. The buffer then begins with the framed encoding that a
/// writer writes.
///
/// It asks the source for the same chunks as `try_read_segments_into_with_rules`, tests the buffer
/// in the same way, and fails as that does. No memory is taken.
pub fn try_read_framed_into<R: Read>(
    source: &mut R,
    rules: TableRules,
    buffer: &mut [u8],
) -> Result<Option<NoAllocSegmentTableInfo>>
    ensures { ReadsFramedInto R.Read source.old source.new
        (framed_rules rules.padding R.gives R.refuses) rules.limit_in_words buffer.old buffer.new
        result }
{
    let Some(info) = read_into(source, rules, buffer)? else {
        return Ok(None);
    };
    let segments_count = info.segments_count;
    let segment_table_length_bytes = table_len(segments_count);
    buffer[4 * (segments_count + 1)..segment_table_length_bytes].fill(0);
    Ok(Some(NoAllocSegmentTableInfo {
        segments_count,
        segment_table_length_bytes,
        total_segments_length_bytes: info.total_segments_length_bytes,
    }))
}
