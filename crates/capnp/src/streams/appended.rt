//! Lists of messages, written and read one after the other.
ghost use Rattle.std.specs.Prelude.{map};
ghost use Rattle.std.specs.List.{AllByRecursion};
ghost use Rattle.capnp_frame.specs.Prelude.{IsWritable};
ghost use Rattle.capnp.specs.Appended.{ReadsMessages};
ghost use Rattle.capnp.specs.Headline.{by_format, ReadsMessage, OrFailsAtEnd};
ghost use Rattle.capnp.specs.Written.{WritesMessage, WritesMessages};

use crate::streams::{Format, next_message, required};
use crate::{serialize, serialize_packed};
use capnp_frame::Result;
use capnp_frame::io::{BufRead, Write};
use capnp_frame::message::{ReaderOptions, ReaderSegments};
use capnp_frame::serialize::{OwnedSegments, Padding};
use capnp_message::Reader;
use std::alloc::Global;

/// Writes a message in this format.
///
/// Fails as `serialize::write_message_segments` or `serialize_packed::write_message_segments` does.
///
/// ```
/// let message = SegmentArray::new(&segments);
/// let mut stream = Vec::new(alloc);
/// streams::write_message(alloc, &mut stream, Format::Packed, &message)?;
/// assert_eq!(rt; stream.as_slice(), [0x10, 1, 0, 0].as_slice());
/// ```
pub fn write_message<W: Write, S: ReaderSegments>(
    alloc: Global,
    sink: &mut W,
    format: Format,
    message: &S,
) -> Result<()>
    requires { IsWritable (S.segments message.now) }
    ensures { WritesMessage format W.Write sink.old sink.new (S.segments message.now) result }
{
    match format {
        Format::Framed => serialize::write_message_segments(alloc, sink, message),
        Format::Packed => serialize_packed::write_message_segments(alloc, sink, message),
    }
}

/// Writes messages one after the other.
///
/// Fails as `write_message` does for one of them. The messages before it are then written, and of
/// this one what the sink leaves of its chunks.
///
/// ```
/// let mut stream = Vec::new(alloc);
/// streams::write_messages(alloc, &mut stream, Format::Packed, &messages)?;
/// assert_eq!(rt; stream.len(), 8);
/// ```
pub fn write_messages<W: Write, S: ReaderSegments>(
    alloc: Global,
    sink: &mut W,
    format: Format,
    messages: &[S],
) -> Result<()>
    requires { AllByRecursion IsWritable (map S.segments messages.now) }
    ensures { WritesMessages format W.Write sink.old sink.new
        (map S.segments messages.now) result }
{
    for message in messages {
        write_message(alloc, sink, format, message)?;
    }
    Ok(())
}

/// Reads `count` messages, one after the other, with zero padding.
///
/// Fails with `PrematureEndOfFile` where the stream ends after fewer messages, with `OutOfMemory`,
/// and as `next_message` does for one of them: also where the stream ends within it.
///
/// ```
/// let mut source = stream.as_slice();
/// let options = DEFAULT_READER_OPTIONS;
/// let readers = streams::read_messages(alloc, &mut source, Format::Packed, 2, options)?;
/// assert_eq!(rt; readers.len(), 2);
/// assert!(rt; source.is_empty());
/// ```
pub fn read_messages<R: BufRead>(
    alloc: Global,
    source: &mut R,
    format: Format,
    count: usize,
    options: ReaderOptions,
) -> Result<Vec<Reader<OwnedSegments>>>
    ensures { ReadsMessages R.Read source.old source.new format options count
        (λ readers. readers.items) (λ reader. reader.segments) (λ reader. reader.options) result }
{
    let mut readers = Vec::new(alloc);
    for index in 0..count {
        let reader = read_message(alloc, source, format, options)?;
        readers.push(reader)?;
    }
    Ok(readers)
}

// Reads the next message, with zero padding, and fails where nothing is unread.
fn read_message<R: BufRead>(
    alloc: Global,
    source: &mut R,
    format: Format,
    options: ReaderOptions,
) -> Result<Reader<OwnedSegments>>
    ensures { OrFailsAtEnd (ReadsMessage R.Read source.old source.new
        (by_format Padding.Zero format) options) result }
{
    required(next_message(alloc, source, format, Padding::Zero, options))
}
