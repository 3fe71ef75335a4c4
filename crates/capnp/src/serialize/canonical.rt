//! Writing the canonical form of a message.
ghost use Rattle.capnp_message.specs.Seen.{root_of};
ghost use Rattle.capnp.specs.Canonical.{WritesForm};

use capnp_frame::Result;
use capnp_frame::io::Write;
use capnp_frame::message::{ReaderSegments, SegmentArray};
use capnp_frame::serialize::write_segments;
use capnp_message::Reader;
use std::alloc::Global;

/// Writes the canonical form of a message, as a message of one segment.
///
/// Fails as `Reader::canonicalize` does, with nothing written, and as the sink does.
///
/// ```
/// let mut source = two_segments;
/// let message = serialize::read_message(alloc, &mut source, options)?;
/// let mut canonical = Vec::new(alloc);
/// serialize::write_canonical_message(alloc, &mut canonical, &message)?;
/// assert_eq!(rt; (two_segments.len(), canonical.len()), (40, 32));
/// ```
pub fn write_canonical_message<W: Write, S: ReaderSegments>(
    alloc: Global,
    sink: &mut W,
    reader: &Reader<S>,
) -> Result<()>
    ensures { WritesForm W.Write sink.old sink.new (root_of S.segments reader.now) result }
{
    let form = reader.canonical_segment(alloc)?;
    let segments = [form.as_slice()];
    write_segments(alloc, sink, &SegmentArray::new(&segments))
}
