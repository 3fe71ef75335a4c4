//! Streams that are read message by message.
ghost use Rattle.std.specs.Prelude.{◌≡◌, IfSome, IfOk};
ghost use Rattle.capnp_frame.specs.declared.message.options.TheConstants.{DEFAULT_READER_OPTIONS};
ghost use Rattle.capnp_frame.specs.declared.serialize.segment_table.Padding.TheVariants.{Zero};
ghost use Rattle.capnp.specs.Prelude.{by_format, ReadsMessage};
ghost use Rattle.capnp_uses.specs.Streaming.{SkipsNextMessage, ReadsTwo};

use capnp::Result;
use capnp::io::BufRead;
use capnp::message::{DEFAULT_READER_OPTIONS, Reader, ReaderOptions};
use capnp::serialize::{OwnedSegments, Padding};
use capnp::streams::{self, Format, MessageStream};
use std::alloc::Global;

/// The next message of a stream in either format, of zero padding, or `None` at its end.
///
/// What the contract says of bytes holds where the source's bytes are known, as a slice's are. A
/// device's are not: for it `reads.failed` says that `DeviceFailed` is returned only where the
/// device failed.
pub fn next_message<R: BufRead>(
    alloc: Global,
    source: &mut R,
    format: Format,
    options: ReaderOptions,
) -> Result<Option<Reader<OwnedSegments>>>
    ensures { ReadsMessage R.Read source.old source.new (by_format Zero format) options result }
{
    streams::next_message(alloc, source, format, Padding::Zero, options)
}

/// Reads past the next message of a stream, and returns whether there was one.
pub fn skip_message<R: BufRead>(
    alloc: Global,
    source: &mut R,
    format: Format,
    options: ReaderOptions,
) -> Result<bool>
    ensures { SkipsNextMessage R.Read source.old source.new format options.traversal_limit_in_words
        result }
{
    let message = next_message(alloc, source, format, options)?;
    Ok(message.is_some())
}

/// The first two messages of a stream in memory, by an iterator over its messages, or `None` where
/// it has fewer.
///
/// Fails as the reader of the first message does, or as the reader of the second one.
pub fn first_two(
    alloc: Global,
    stream: &[u8],
    format: Format,
) -> Result<Option<(Reader<OwnedSegments>, Reader<OwnedSegments>)>>
    ensures two { ReadsTwo format stream.now (λ reader. reader.segments) result }
    ensures options { IfOk result (λ found. IfSome found (λ two.
        (two.0.options ≡ DEFAULT_READER_OPTIONS) × (two.1.options ≡ DEFAULT_READER_OPTIONS))) }
{
    let options = DEFAULT_READER_OPTIONS;
    let mut messages = MessageStream::new(alloc, stream, format, Padding::Zero, options);
    let first = match messages.next() {
        Some(Ok(first)) => first,
        Some(Err(error)) => return Err(error),
        None => return Ok(None),
    };
    match messages.next() {
        Some(Ok(second)) => Ok(Some((first, second))),
        Some(Err(error)) => Err(error),
        None => Ok(None),
    }
}
