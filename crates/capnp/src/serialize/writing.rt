//! Writing messages to a sink.
ghost use Rattle.std.specs.Prelude.{◌≡◌, ◌*◌, ◌<◌, ℕ, List, length, IfOk};
ghost use Rattle.capnp_frame.specs.Prelude.{ReturnsEncoding, CountsWords, IsWritable};
ghost use Rattle.capnp.specs.declared.streams.Format.{Format};
ghost use Rattle.capnp.specs.Written.{IsFrameEncoding, WritesMessage};

use capnp_frame::Result;
use capnp_frame::io::Write;
use capnp_frame::message::{BuiltMessage, ReaderSegments};
use capnp_frame::serialize::{segments_to_words, serialized_size_in_words, write_segments};
use std::alloc::Global;

/// Writes a message that was built by a `Builder` or in an orphanage (`capnp_orphans`), each
/// segment up to its last used word. A builder must have a segment; `is_empty` says whether it has
/// none.
///
/// Fails with `InvalidNumberOfSegments` for more than 511 segments, which no reader accepts, and
/// with `OutOfMemory` from four segments on, where there is no memory for the table. Both are found
/// before anything is written. Otherwise it fails as the sink does.
///
/// ```
/// let mut message = Builder::new_default(alloc);
/// message.set_root::<text::Owned, &str>("Hello, World!")?;
/// let mut stream = Vec::new(alloc);
/// serialize::write_message(alloc, &mut stream, &message)?;
/// assert_eq!(rt; stream.len(), 32);
/// ```
pub fn write_message<W: Write, M: BuiltMessage>(
    alloc: Global,
    sink: &mut W,
    message: &M,
) -> Result<()>
    requires { M.has_segment message.now }
    ensures { WritesMessage Format.Framed W.Write sink.old sink.new
        (M.segments message.now) result }
{
    message.can_be_written();
    write_message_segments(alloc, sink, message)
}

/// Writes a message ("Serialization Over a Stream"). It needs 1 to 2^32 - 1 segments, each of whole
/// words and fewer than 2^32 of them.
///
/// Fails as `write_message` does.
///
/// ```
/// let segments = [[0; 8].as_slice()];
/// let message = SegmentArray::new(&segments);
/// let mut stream = Vec::new(alloc);
/// serialize::write_message_segments(alloc, &mut stream, &message)?;
/// assert_eq!(rt; stream.len(), 16);
/// ```
pub fn write_message_segments<W: Write, S: ReaderSegments>(
    alloc: Global,
    sink: &mut W,
    segments: &S,
) -> Result<()>
    requires { IsWritable (S.segments segments.now) }
    ensures { WritesMessage Format.Framed W.Write sink.old sink.new
        (S.segments segments.now) result }
{
    write_segments(alloc, sink, segments)
}

/// Returns the framed encoding of a message, in bytes.
///
/// Fails with `InvalidNumberOfSegments` exactly where there are more than 511 segments, before
/// memory is taken, and else with `OutOfMemory` alone.
///
/// ```
/// let segments = [[0; 8].as_slice()];
/// let message = SegmentArray::new(&segments);
/// let encoding = serialize::write_message_segments_to_words(alloc, &message)?;
/// assert_eq!(rt; encoding.len(), 16);
/// ```
pub fn write_message_segments_to_words<S: ReaderSegments>(
    alloc: Global,
    segments: &S,
) -> Result<Vec<u8>>
    requires { IsWritable (S.segments segments.now) }
    ensures { ReturnsEncoding (S.segments segments.now) (λ encoding. encoding.items) result }
{
    segments_to_words(alloc, segments)
}

/// Returns the framed encoding, in bytes, of a message that is built, which must have a segment.
///
/// Fails as `write_message_segments_to_words` does.
///
/// ```
/// let mut message = Builder::new_default(alloc);
/// message.set_root::<text::Owned, &str>("Hello, World!")?;
/// let encoding = serialize::write_message_to_words(alloc, &message)?;
/// assert_eq!(rt; encoding.len(), 32);
/// ```
pub fn write_message_to_words<M: BuiltMessage>(alloc: Global, message: &M) -> Result<Vec<u8>>
    requires { M.has_segment message.now }
    ensures { ReturnsEncoding (M.segments message.now) (λ encoding. encoding.items) result }
{
    message.can_be_written();
    write_message_segments_to_words(alloc, message)
}

/// Returns how many words the framed encoding of a message that is built has, with its table: an
/// eighth of the bytes that `write_message` adds to a plain sink.
///
/// Fails with `MessageSizeOverflow` exactly where this number does not fit `usize`.
///
/// ```
/// let mut message = Builder::new_default(alloc);
/// message.set_root::<text::Owned, &str>("Hello, World!")?;
/// assert_eq!(rt; message.size_in_words(), 3);
/// assert_eq!(rt; serialize::compute_serialized_size_in_words(&message)?, 4);
/// ```
pub fn compute_serialized_size_in_words<M: BuiltMessage>(message: &M) -> Result<usize>
    requires { M.has_segment message.now }
    ensures bytes { IfOk result (λ words. (encoding : List ℕ) →
        IsFrameEncoding (M.segments message.now) encoding → length encoding ≡ 8 * words) }
    ensures counts { CountsWords (M.segments message.now) result }
{
    message.can_be_written();
    serialized_size_in_words(message)
}
