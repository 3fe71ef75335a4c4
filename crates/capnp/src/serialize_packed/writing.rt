//! Writing packed messages to a sink.
ghost use Rattle.capnp_frame.specs.Prelude.{IsWritable};
ghost use Rattle.capnp.specs.declared.streams.Format.{Format};
ghost use Rattle.capnp.specs.Written.{WritesMessage};

use capnp_frame::Result;
use capnp_frame::io::Write;
use capnp_frame::message::{BuiltMessage, ReaderSegments};
use capnp_frame::serialize::write_segments;
use capnp_pack::PackedWrite;
use std::alloc::Global;

/// Writes a message that was built by a `Builder` or in an orphanage (`capnp_orphans`), packed,
/// each segment up to its last used word. A builder must have a segment; `is_empty` says whether it
/// has none.
///
/// Fails as `write_message_segments` does.
///
/// ```
/// let mut message = Builder::new_default(alloc);
/// message.set_root::<text::Owned, &str>("Hello, World!")?;
/// let mut stream = Vec::new(alloc);
/// serialize_packed::write_message(alloc, &mut stream, &message)?;
/// assert_eq!(rt; stream.len(), 21);
/// ```
pub fn write_message<W: Write, M: BuiltMessage>(
    alloc: Global,
    sink: &mut W,
    message: &M,
) -> Result<()>
    requires { M.has_segment message.now }
    ensures { WritesMessage Format.Packed W.Write sink.old sink.new
        (M.segments message.now) result }
{
    message.can_be_written();
    write_message_segments(alloc, sink, message)
}

/// Writes a message, packed: the first word of its table, the table's other words, and each segment
/// are packed one by one ("Packing"). The segments must be as the framed writer needs them.
///
/// Fails with `InvalidNumberOfSegments` for more than 511 segments, which no reader accepts, and
/// with `OutOfMemory` from four segments on, where there is no memory for the table. Both are found
/// before anything is written. Otherwise it fails as the sink does.
///
/// ```
/// let segments = [[0; 8].as_slice()];
/// let message = SegmentArray::new(&segments);
/// let mut stream = Vec::new(alloc);
/// serialize_packed::write_message_segments(alloc, &mut stream, &message)?;
/// assert_eq!(rt; stream.as_slice(), [0x10, 1, 0, 0].as_slice());
/// ```
pub fn write_message_segments<W: Write, S: ReaderSegments>(
    alloc: Global,
    sink: &mut W,
    segments: &S,
) -> Result<()>
    requires { IsWritable (S.segments segments.now) }
    ensures { WritesMessage Format.Packed W.Write sink.old sink.new
        (S.segments segments.now) result }
{
    let mut packed = PackedWrite::new(sink);
    write_segments(alloc, &mut packed, segments)
}
