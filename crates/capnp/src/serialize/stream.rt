//! Reading messages from a source, and skipping them.
ghost use Rattle.std.specs.Prelude.{length};
ghost use Rattle.capnp_frame.specs.Prelude.{SkipsMessage, ReadsStream};
ghost use Rattle.capnp.specs.Headline.{framed, framed_reusing, ReadsMessage, ReadsMessageInto, OrFailsAtEnd};
ghost use Rattle.capnp.specs.Streams.{skipping_rules_of};
ghost use Rattle.capnp.specs.declared.streams.Format.{Format};

use crate::streams::{reader_of, required};
use capnp_frame::Result;
use capnp_frame::io::{BufRead, Read};
use capnp_frame::message::ReaderOptions;
use capnp_frame::serialize::{
    NoAllocBufferSegments, OwnedSegments, Padding, SegmentLengthsBuilder, TableRules,
    try_read_segments_into_with_rules, try_read_segments_reusing, try_skip_segments,
};
use capnp_message::Reader;
use std::alloc::Global;

/// Reads the next message of a source, or returns `None` where nothing is unread.
///
/// The message is returned exactly where the unread bytes begin with a framed encoding of it, and
/// only that encoding is consumed. Memory is taken for the lengths of more than one segment, and
/// for the segments once the limit of words is tested.
///
/// Fails as `try_read_segments` of `capnp_frame` does: with `InvalidNumberOfSegments`,
/// `MessageTooLarge` or `NonZeroPadding` for the table, as the source does where bytes are missing,
/// with `OutOfMemory`, and with `DeviceFailed`.
///
/// ```
/// let options = DEFAULT_READER_OPTIONS;
/// let Some(message) = serialize::try_read_message(alloc, &mut source, options)? else {
///     panic!(rt; "no message");
/// };
/// let greeting: text::Reader<'_> = message.get_root()?;
/// assert_eq!(rt; greeting.as_bytes(), b"Hello, World!".as_slice());
/// ```
pub fn try_read_message<R: Read>(
    alloc: Global,
    source: &mut R,
    options: ReaderOptions,
) -> Result<Option<Reader<OwnedSegments>>>
    ensures { ReadsMessage R.Read source.old source.new (framed Padding.Zero R.Read) options result }
{
    try_read_message_reusing(source, Padding::Zero, options, OwnedSegments::empty(alloc))
}

/// Reads the next message as `try_read_message` does, but accepts any padding in the segment table.
///
/// ```
/// let mut source = NONZERO_PADDING.as_slice();
/// let Some(message) = serialize::try_read_message_lenient(alloc, &mut source, options)? else {
///     panic!(rt; "no message");
/// };
/// let greeting: text::Reader<'_> = message.get_root()?;
/// assert_eq!(rt; greeting.as_bytes(), b"Hello, World!".as_slice());
/// ```
pub fn try_read_message_lenient<R: Read>(
    alloc: Global,
    source: &mut R,
    options: ReaderOptions,
) -> Result<Option<Reader<OwnedSegments>>>
    ensures { ReadsMessage R.Read source.old source.new (framed Padding.Any R.Read) options result }
{
    try_read_message_reusing(source, Padding::Any, options, OwnedSegments::empty(alloc))
}

/// Reads the next message as `try_read_message` does, by this rule of padding, into the memory of
/// an earlier message, which grows where it is too small. `spare` is what `Reader::into_segments`
/// returns, or `OwnedSegments::empty`.
///
/// Fails as `try_read_message` does, but with `OutOfMemory` only for more bytes than the segments
/// of `spare` have, or for more than one segment and more than `spare` has. It fails with
/// `NonZeroPadding` only where `padding` is `Padding::Zero`.
///
/// ```
/// let first = serialize::read_message(alloc, &mut source, options)?;
/// let spare = first.into_segments();
/// let second = serialize::try_read_message_reusing(&mut source, padding, options, spare)?;
/// assert!(rt; second.is_some());
/// ```
pub fn try_read_message_reusing<R: Read>(
    source: &mut R,
    padding: Padding,
    options: ReaderOptions,
    spare: OwnedSegments,
) -> Result<Option<Reader<OwnedSegments>>>
    ensures { ReadsMessage R.Read source.old source.new (framed_reusing padding R.Read spare)
        options result }
{
    let rules = TableRules::new(padding, options);
    reader_of(try_read_segments_reusing(source, rules, spare), options)
}

/// Reads the next message of a source. Fails with `PrematureEndOfFile` where nothing is unread, and
/// else as `try_read_message` does.
///
/// ```
/// let message = serialize::read_message(alloc, &mut source, options)?;
/// let greeting: text::Reader<'_> = message.get_root()?;
/// assert_eq!(rt; greeting.as_bytes(), b"Hello, World!".as_slice());
/// ```
pub fn read_message<R: Read>(
    alloc: Global,
    source: &mut R,
    options: ReaderOptions,
) -> Result<Reader<OwnedSegments>>
    ensures { OrFailsAtEnd (ReadsMessage R.Read source.old source.new
        (framed Padding.Zero R.Read) options) result }
{
    required(try_read_message(alloc, source, options))
}

/// Reads the next message as `read_message` does, but accepts any padding in the segment table.
///
/// ```
/// let mut source = NONZERO_PADDING.as_slice();
/// let message = serialize::read_message_lenient(alloc, &mut source, options)?;
/// let greeting: text::Reader<'_> = message.get_root()?;
/// assert_eq!(rt; greeting.as_bytes(), b"Hello, World!".as_slice());
/// ```
pub fn read_message_lenient<R: Read>(
    alloc: Global,
    source: &mut R,
    options: ReaderOptions,
) -> Result<Reader<OwnedSegments>>
    ensures { OrFailsAtEnd (ReadsMessage R.Read source.old source.new
        (framed Padding.Any R.Read) options) result }
{
    required(try_read_message_lenient(alloc, source, options))
}

/// Reads the next message of a source into a caller-provided buffer, or returns `None` where
/// nothing is unread.
///
/// The buffer then holds the table and the segments. No memory is taken.
///
/// Fails with `BufferNotLargeEnough` where the buffer is shorter than 8 bytes, than the table, or
/// than table and segments, and else as `try_read_message` does, but never with `OutOfMemory`.
///
/// ```
/// let mut buffer = [0; 32];
/// let read = serialize::try_read_message_no_alloc(&mut source, &mut buffer, options)?;
/// let Some(message) = read else {
///     panic!(rt; "no message");
/// };
/// assert_eq!(rt; message.get_segments().len(), 1);
/// ```
pub fn try_read_message_no_alloc<'b, R: Read>(
    source: &mut R,
    buffer: &'b mut [u8],
    options: ReaderOptions,
) -> Result<Option<Reader<NoAllocBufferSegments<&'b [u8]>>>>
    ensures { ReadsMessageInto R.Read source.old source.new (framed Padding.Zero R.Read) options
        (length buffer.old) result }
{
    try_read_message_into(source, Padding::Zero, options, buffer)
}

/// Reads the next message as `try_read_message_no_alloc` does, but accepts any padding in the
/// segment table.
///
/// ```
/// let mut buffer = [0; 40];
/// let read = serialize::try_read_message_no_alloc_lenient(&mut source, &mut buffer, options)?;
/// let Some(message) = read else {
///     panic!(rt; "no message");
/// };
/// assert_eq!(rt; message.get_segments().len(), 2);
/// ```
pub fn try_read_message_no_alloc_lenient<'b, R: Read>(
    source: &mut R,
    buffer: &'b mut [u8],
    options: ReaderOptions,
) -> Result<Option<Reader<NoAllocBufferSegments<&'b [u8]>>>>
    ensures { ReadsMessageInto R.Read source.old source.new (framed Padding.Any R.Read) options
        (length buffer.old) result }
{
    try_read_message_into(source, Padding::Any, options, buffer)
}

// Reads the next message by this rule of padding into a caller-provided buffer, or none where
// nothing is unread.
fn try_read_message_into<'b, R: Read>(
    source: &mut R,
    padding: Padding,
    options: ReaderOptions,
    buffer: &'b mut [u8],
) -> Result<Option<Reader<NoAllocBufferSegments<&'b [u8]>>>>
    ensures { ReadsMessageInto R.Read source.old source.new (framed padding R.Read) options
        (length buffer.old) result }
{
    let rules = TableRules::new(padding, options);
    reader_of(
        try_read_segments_into_with_rules(source, rules, buffer),
        options,
    )
}

/// Reads the next message of a source into a caller-provided buffer. Fails with
/// `PrematureEndOfFile` where nothing is unread, and else as `try_read_message_no_alloc` does.
///
/// ```
/// let mut buffer = [0; 32];
/// let message = serialize::read_message_no_alloc(&mut source, &mut buffer, options)?;
/// let greeting: text::Reader<'_> = message.get_root()?;
/// assert_eq!(rt; greeting.as_bytes(), b"Hello, World!".as_slice());
/// ```
pub fn read_message_no_alloc<'b, R: Read>(
    source: &mut R,
    buffer: &'b mut [u8],
    options: ReaderOptions,
) -> Result<Reader<NoAllocBufferSegments<&'b [u8]>>>
    ensures { OrFailsAtEnd (ReadsMessageInto R.Read source.old source.new
        (framed Padding.Zero R.Read) options (length buffer.old)) result }
{
    required(try_read_message_no_alloc(source, buffer, options))
}

/// Reads the next message as `read_message_no_alloc` does, but accepts any padding in the segment
/// table.
///
/// ```
/// let mut source = NONZERO_PADDING.as_slice();
/// let mut buffer = [0; 40];
/// let message = serialize::read_message_no_alloc_lenient(&mut source, &mut buffer, options)?;
/// let greeting: text::Reader<'_> = message.get_root()?;
/// assert_eq!(rt; greeting.as_bytes(), b"Hello, World!".as_slice());
/// ```
pub fn read_message_no_alloc_lenient<'b, R: Read>(
    source: &mut R,
    buffer: &'b mut [u8],
    options: ReaderOptions,
) -> Result<Reader<NoAllocBufferSegments<&'b [u8]>>>
    ensures { OrFailsAtEnd (ReadsMessageInto R.Read source.old source.new
        (framed Padding.Any R.Read) options (length buffer.old)) result }
{
    required(try_read_message_no_alloc_lenient(source, buffer, options))
}

/// Skips the next message of a stream by this rule of padding, and returns the lengths of its
/// segments in words, or `None` where nothing is unread.
///
/// It consumes what `try_read_message` does, and fails as that does, but takes no memory for the
/// segments. It fails with `NonZeroPadding` only where `padding` is `Padding::Zero`. The lengths
/// are put into the memory of `lengths`, which grows where it is too small. So it fails with
/// `OutOfMemory` only for more segments than `lengths` has, and then it has consumed only the
/// table's first word.
///
/// ```
/// let spare = SegmentLengthsBuilder::empty(alloc);
/// let skipped = serialize::try_skip_message(&mut source, Padding::Zero, options, spare)?;
/// let Some(lengths) = skipped else {
///     panic!(rt; "no message");
/// };
/// assert_eq!(rt; (lengths.segments_count(), lengths.total_words()), (1, 3));
/// ```
pub fn try_skip_message<R: BufRead>(
    source: &mut R,
    padding: Padding,
    options: ReaderOptions,
    lengths: SegmentLengthsBuilder,
) -> Result<Option<SegmentLengthsBuilder>>
    ensures { SkipsMessage (ReadsStream R.Read source.old source.new
        (skipping_rules_of padding Format.Framed (length lengths))
        options.traversal_limit_in_words) result }
{
    try_skip_segments(source, TableRules::new(padding, options), lengths)
}
