//! The messages of a stream as an iterator: of a file, of another device, or of bytes in memory.
ghost use Rattle.std.specs.Prelude.{◌≡◌, ◌-◌, ◌*◌, ◌^◌, None, min, IfOk};
ghost use Rattle.std.specs.Iterator.{at_most};
ghost use Rattle.capnp_frame.specs.Prelude.{IsWithin, IsWholeWords, next_in, serialized_words};
ghost use Rattle.std.specs.List.{AllByRecursion};
ghost use Rattle.capnp.specs.CountedSource.{ShowsUnread};
ghost use Rattle.capnp.specs.Headline.{by_format, ReadsMessage};
ghost use Rattle.capnp.specs.MessageStreams.{source_of, end_of, AddsItsBytes, IsNewStream, GivesMessage};

use crate::Result;
use crate::devices::Input;
use crate::streams::counted::Counted;
use crate::streams::{Format, next_message};
use capnp_frame::io::BufRead;
use capnp_frame::message::ReaderOptions;
use capnp_frame::serialize::{OwnedSegments, Padding, serialized_size_in_words};
use capnp_message::Reader;
use std::alloc::Global;
use std::path::AsPath;
use std::rt::Files;
use std::{fs, io};

/// The messages of a stream, in order, each as a result.
///
/// It ends where nothing is unread, and after an error, since nothing says where a further message
/// would begin. Of more than 2^64 - 1 messages it returns the first ones.
///
/// ```
/// let options = DEFAULT_READER_OPTIONS;
/// for message in MessageStream::new(alloc, source, Format::Packed, Padding::Zero, options) {
///     assert!(rt; is_greeting(&message?)?);
/// }
/// ```
#[derive(Drop)]
pub struct MessageStream<R> {
    source: R,
    alloc: Global,
    format: Format,
    padding: Padding,
    options: ReaderOptions,
    left: u64,
    end: u64,
}

impl<R: BufRead> MessageStream<R> {
    /// The messages of a source, such as a slice or an `Input` over a device, in this format and by
    /// this rule of padding. Nothing is read yet.
    pub fn new(
        alloc: Global,
        source: R,
        format: Format,
        padding: Padding,
        options: ReaderOptions,
    ) -> MessageStream<R>
        ensures source { source_of result ≡ source }
        ensures begins { IsNewStream result format padding options }
    {
        MessageStream {
            source,
            alloc,
            format,
            padding,
            options,
            left: u64::MAX,
            end: 0,
        }
    }

    /// After how many bytes of the source, packed or framed, the last message ended that was
    /// returned: 0 before the first one, and at most 2^64 - 1.
    ///
    /// Where the stream is cut within a message, that is the length to which it is truncated before
    /// more is appended.
    ///
    /// ```
    /// for message in messages.by_ref() {
    ///     assert!(rt; is_greeting_or_cut(message)?);
    /// }
    /// assert_eq!(rt; messages.end(), 21);
    /// ```
    pub fn end(&self) -> u64
        ensures { result ≡ end_of self.now }
    {
        self.end
    }
}

impl<R: BufRead + Drop> Iterator for MessageStream<R> {
    type Item = Result<Reader<OwnedSegments>>;

    // Each item is what the reader of the next message returns.
    ghost next_gives = { GivesMessage R.Read R.shown (λ reader. reader.segments) (λ reader. reader.options) };

    ghost remaining = { λ stream. at_most stream.left };

    fn next(&mut self) -> Option<Result<Reader<OwnedSegments>>> {
        if self.left == 0 {
            return None;
        }
        match next_counted(
            self.alloc,
            &mut self.source,
            &mut self.end,
            self.format,
            self.padding,
            self.options,
        ) {
            Ok(Some(message)) => {
                self.left -= 1;
                Some(Ok(message))
            }
            Ok(None) => {
                self.left = 0;
                None
            }
            Err(error) => {
                self.left = 0;
                Some(Err(error))
            }
        }
    }
}

// Reads the next message of a source, and adds the bytes that it takes to `end`.
fn next_counted<R: BufRead>(
    alloc: Global,
    source: &mut R,
    end: &mut u64,
    format: Format,
    padding: Padding,
    options: ReaderOptions,
) -> Result<Option<Reader<OwnedSegments>>>
    ensures reads { ReadsMessage R.Read source.old source.new (by_format padding format) options
        result }
    ensures counts { AddsItsBytes (ShowsUnread R.unread R.shown) format (R.unread source.old)
        (R.unread source.new) end.old end.new (next_in (λ reader. reader.segments) result) }
{
    match format {
        Format::Framed => {
            let Some(message) = next_message(alloc, source, format, padding, options)? else {
                return Ok(None);
            };
            *end = end.saturating_add(framed_len(message.get_segments()));
            Ok(Some(message))
        }
        Format::Packed => {
            let mut counted = Counted::new(source);
            let Some(message) = next_message(alloc, &mut counted, format, padding, options)? else {
                return Ok(None);
            };
            *end = end.saturating_add(counted.taken());
            Ok(Some(message))
        }
    }
}

// How many bytes the framed encoding of a message has, at most 2^64 - 1.
fn framed_len(segments: &OwnedSegments) -> u64
    requires within { IsWithin segments.now None }
    requires whole { AllByRecursion IsWholeWords segments.now }
    ensures { result ≡ min (8 * serialized_words segments.now) (2 ^ 64 - 1) }
{
    match serialized_size_in_words(segments) {
        Ok(words) => (words as u64).saturating_mul(8),
        Err(_) => u64::MAX,
    }
}

/// The messages of the file at this path, in this format and by this rule of padding.
///
/// Fails with the system's error where the file can't be opened, and with std's `OutOfMemory` where
/// there is no memory for the buffer. Each item fails as `next_message` does; a read that fails is
/// `DeviceFailed`.
///
/// ```
/// for message in streams::open_file(&rt, path, Format::Packed, Padding::Zero, options)? {
///     print_greeting(rt, &message?)?;
/// }
/// ```
pub fn open_file<R: Files + AllocGlobal, P: AsPath>(
    rt: &R,
    path: P,
    format: Format,
    padding: Padding,
    options: ReaderOptions,
) -> io::Result<MessageStream<Input<R::File>>>
    ensures { IfOk result (λ stream. IsNewStream stream format padding options) }
{
    let alloc = rt.alloc();
    let file = fs::open(rt, path)?;
    match Input::new(alloc, file) {
        Ok(source) => Ok(MessageStream::new(alloc, source, format, padding, options)),
        Err(_) => Err(io::Error::from(io::ErrorKind::OutOfMemory)),
    }
}
