//! From one format to the other.
ghost use Rattle.std.specs.Prelude.{◌≡◌};
ghost use Rattle.capnp.specs.Transcoding.{input_of, Transcodes, TranscodedErrors, TranscodesEach};

use crate::streams::{Format, MessageWriter, write_each_message};
use crate::{serialize, serialize_packed};
use capnp_frame::Result;
use capnp_frame::io::{BufRead, Write};
use capnp_frame::message::ReaderOptions;
use capnp_frame::serialize::{OwnedSegments, Padding, TableRules};
use std::alloc::Global;

/// Which format is read, and which is written.
///
/// ```
/// let way = Way::Unpack;
/// assert_eq!(rt; way.input(), Format::Packed);
/// transcode(alloc, way, &mut source, &mut framed, options)?;
/// ```
#[derive(Clone, Copy, Debug, PartialEq, Eq)]
pub enum Way {
    /// From framed messages to packed ones.
    Pack,
    /// From packed messages to framed ones.
    Unpack,
}

impl Way {
    /// The format that is read.
    pub fn input(self) -> Format
        ensures { result ≡ input_of self }
    {
        match self {
            Way::Pack => Format::Framed,
            Way::Unpack => Format::Packed,
        }
    }
}

impl MessageWriter for Way {
    ghost use Rattle.capnp.specs.Transcoding.{Transcodes, TranscodedErrors};

    ghost writes = { Transcodes };

    ghost writing_errors = { TranscodedErrors };

    fn write_message<W: Write>(
        &self,
        alloc: Global,
        _index: u64,
        message: &OwnedSegments,
        _memory: &mut Vec<u8>,
        sink: &mut W,
    ) -> Result<()> {
        match self {
            Way::Pack => serialize_packed::write_message_segments(alloc, sink, message),
            Way::Unpack => serialize::write_message_segments(alloc, sink, message),
        }
    }
}

/// Writes each message of a source in the other format, until none is left.
///
/// It takes at most 2^64 - 1 messages, and leaves the rest unread.
///
/// Fails as the reader of the next message does, with `NonZeroPadding` for a padding that isn't
/// zero, or as the sink does, or with `OutOfMemory`. The messages before it are then written.
///
/// ```
/// let mut packed = Vec::new(alloc);
/// let options = DEFAULT_READER_OPTIONS;
/// transcode(alloc, Way::Pack, &mut source, &mut packed, options)?;
/// ```
pub fn transcode<R: BufRead, W: Write>(
    alloc: Global,
    way: Way,
    source: &mut R,
    sink: &mut W,
    options: ReaderOptions,
) -> Result<()>
    ensures { TranscodesEach R.Read source.old source.new W.Write sink.old sink.new
        Padding.Zero way options.traversal_limit_in_words result }
{
    transcode_by(alloc, source, sink, way, Padding::Zero, options)
}

/// Writes each message as `transcode` does, but accepts any padding in the segment table, which
/// older writers may have left. What is written has zero padding.
///
/// ```
/// let mut source = NONZERO_PADDING.as_slice();
/// let mut packed = Vec::new(alloc);
/// transcode_lenient(alloc, Way::Pack, &mut source, &mut packed, options)?;
/// assert_eq!(rt; packed.len(), 24);
/// ```
pub fn transcode_lenient<R: BufRead, W: Write>(
    alloc: Global,
    way: Way,
    source: &mut R,
    sink: &mut W,
    options: ReaderOptions,
) -> Result<()>
    ensures { TranscodesEach R.Read source.old source.new W.Write sink.old sink.new
        Padding.Any way options.traversal_limit_in_words result }
{
    transcode_by(alloc, source, sink, way, Padding::Any, options)
}

// Writes each message in the other format, by this rule of padding.
fn transcode_by<R: BufRead, W: Write>(
    alloc: Global,
    source: &mut R,
    sink: &mut W,
    way: Way,
    padding: Padding,
    options: ReaderOptions,
) -> Result<()>
    ensures { TranscodesEach R.Read source.old source.new W.Write sink.old sink.new
        padding way options.traversal_limit_in_words result }
{
    let rules = TableRules::new(padding, options);
    match write_each_message(alloc, source, sink, way.input(), rules, &way) {
        Ok(()) => Ok(()),
        Err(failure) => Err(failure.error),
    }
}
