//! The next message of a stream in either format, and all messages of a stream in memory.
ghost use Rattle.std.specs.Prelude.{◌≡◌, ◌<◌, ◌++◌, ◌∷◌, [], ◌⊎◌, ◌↔◌, List, ℕ, Some, length, map, IsTrue, IsFalse, IfOk, IfErr, OnErr};
ghost use Rattle.std.specs.List.{AllByRecursion};
ghost use Rattle.capnp_frame.specs.declared.error.ErrorKind.{ErrorKind};
ghost use Rattle.capnp.specs.Headline.{by_format, reader_of, required, ReadsMessage};
ghost use Rattle.capnp.specs.Streams.{FoundNext, EndsBy};
ghost use Rattle.capnp.specs.Reading.{IsCutKind, TellsCut, TakesForListed, ReadsEach};

use crate::streams::{Format, read_next};
use capnp_frame::io::BufRead;
use capnp_frame::message::{ReaderOptions, ReaderSegments};
use capnp_frame::serialize::{OwnedSegments, Padding, TableRules};
use capnp_frame::{Error, ErrorKind, Result};
use capnp_message::Reader;
use std::alloc::Global;

/// Reads the next message of a stream in this format, by this rule of padding, or returns `None`
/// where nothing is unread.
///
/// Fails as `try_read_message` of the format does, or its lenient form.
///
/// ```
/// let mut source = PACKED.as_slice();
/// let format = Format::Packed;
/// let first = streams::next_message(alloc, &mut source, format, Padding::Zero, options)?;
/// assert!(rt; first.is_some());
/// let second = streams::next_message(alloc, &mut source, format, Padding::Zero, options)?;
/// assert!(rt; second.is_none());
/// ```
pub fn next_message<R: BufRead>(
    alloc: Global,
    source: &mut R,
    format: Format,
    padding: Padding,
    options: ReaderOptions,
) -> Result<Option<Reader<OwnedSegments>>>
    ensures { ReadsMessage R.Read source.old source.new (by_format padding format) options result }
{
    let rules = TableRules::new(padding, options);
    let spare = OwnedSegments::empty(alloc);
    reader_of(read_next(source, format, rules, spare), options)
}

/// A reader of the segments that were read, with these options. Fails as reading them did.
pub(crate) fn reader_of<S: ReaderSegments>(
    next: Result<Option<S>>,
    options: ReaderOptions,
) -> Result<Option<Reader<S>>>
    ensures { result ≡ reader_of options next }
{
    match next? {
        Some(segments) => Ok(Some(Reader::new(segments, options))),
        None => Ok(None),
    }
}

/// The message that was read. Fails as its reader did, and with `PrematureEndOfFile` where there is
/// none.
pub(crate) fn required<M>(next: Result<Option<M>>) -> Result<M>
    ensures { result ≡ required next }
{
    match next? {
        Some(message) => Ok(message),
        None => Err(Error::from_kind(ErrorKind::PrematureEndOfFile)),
    }
}

/// Whether a reader's error says that the stream ends within a message: one that is cut, or whose
/// rest is still to be written.
///
/// It returns true for `FailedToFillTheWholeBuffer` and, for packed messages,
/// `PrematureEndOfPackedInput`: with these the readers of streams fail. It returns false for
/// `MessageEndsPrematurely`, with which readers of slices and calls from C fail for a cut message.
///
/// ```
/// let mut source = &HELLO[..31];
/// match streams::next_message(alloc, &mut source, format, Padding::Zero, options) {
///     Ok(_) => return Err(Fail::new("it is whole")),
///     Err(error) => assert!(rt; streams::is_cut(&error)),
/// }
/// ```
pub fn is_cut(error: &Error) -> bool
    ensures { IsTrue result ↔ IsCutKind error.now.kind }
{
    matches!(
        error.kind,
        ErrorKind::FailedToFillTheWholeBuffer | ErrorKind::PrematureEndOfPackedInput
    )
}

/// What was read of a stream in memory.
///
/// ```
/// let read = streams::every_message(alloc, &stream, Format::Framed, Padding::Zero, options);
/// if read.is_cut() {
///     stream.truncate(read.end);
/// }
/// ```
#[derive(Drop)]
pub struct StreamRead {
    /// The messages, in order.
    pub messages: Vec<Reader<OwnedSegments>>,
    /// Where the last of them ends, in bytes.
    pub end: usize,
    /// Why no further one was read, or `None` at the end of the stream.
    pub error: Option<Error>,
}

impl StreamRead {
    /// Whether the stream ends within a message, by `is_cut`. Truncated to `end`, it is the
    /// messages that were read, and more can be appended.
    pub fn is_cut(&self) -> bool
        ensures { TellsCut self.now.error result }
    {
        match &self.error {
            Some(error) => is_cut(error),
            None => false,
        }
    }
}

/// Reads every message of a stream, one after another, by this rule of padding, up to the end of
/// the stream or the first error.
///
/// When out of memory, `error` is `OutOfMemory`, and the messages before are returned. An empty
/// stream takes no memory.
///
/// ```
/// let read = streams::every_message(alloc, stream, Format::Framed, Padding::Zero, options);
/// assert_eq!(rt; (read.messages.len(), read.end), (1, 32));
/// assert!(rt; read.error.is_none());
/// ```
pub fn every_message(
    alloc: Global,
    stream: &[u8],
    format: Format,
    padding: Padding,
    options: ReaderOptions,
) -> StreamRead
    ensures read { ReadsEach padding format options.traversal_limit_in_words stream.now
        (map (λ reader. reader.segments) result.messages.items) result.end result.error }
    ensures options { AllByRecursion (λ reader. reader.options ≡ options) result.messages.items }
{
    let mut messages = Vec::new(alloc);
    let mut rest = stream;
    let mut end = 0;
    for count in 0..u64::MAX {
        match add_next(alloc, &mut rest, format, padding, options, &mut messages) {
            Ok(true) => end = stream.len() - rest.len(),
            Ok(false) => {
                return StreamRead {
                    messages,
                    end,
                    error: None,
                };
            }
            Err(error) => {
                return StreamRead {
                    messages,
                    end,
                    error: Some(error),
                };
            }
        }
    }
    StreamRead {
        messages,
        end,
        error: Some(Error::from_kind(ErrorKind::OutOfMemory)),
    }
}

// Adds the next message to those before it, or returns that none is left.
fn add_next(
    alloc: Global,
    rest: &mut &[u8],
    format: Format,
    padding: Padding,
    options: ReaderOptions,
    messages: &mut Vec<Reader<OwnedSegments>>,
) -> Result<bool>
    ensures added { IfOk result (λ more. IsTrue more → (message : List (List ℕ))
        × FoundNext padding format options.traversal_limit_in_words message rest.old.now rest.new.now
        × (map (λ reader. reader.segments) messages.new.items
        ≡ map (λ reader. reader.segments) messages.old.items ++ message ∷ [])) }
    ensures ended { IfOk result (λ more. IsFalse more →
        (rest.old.now ≡ []) × (messages.new.items ≡ messages.old.items)) }
    ensures errors { IfErr result (λ error. ((error.kind ≡ ErrorKind.OutOfMemory)
        × TakesForListed padding format options.traversal_limit_in_words rest.old.now)
        ⊎ EndsBy padding format options.traversal_limit_in_words (Some error.kind) rest.old.now) }
    ensures some { IfErr result (λ error. error.kind ≡ ErrorKind.OutOfMemory →
        0 < length rest.old.now) }
    ensures kept { OnErr result (messages.new.items ≡ messages.old.items) }
    // All readers keep having these options.
    ensures options { AllByRecursion (λ reader. reader.options ≡ options) messages.old.items →
        AllByRecursion (λ reader. reader.options ≡ options) messages.new.items }
{
    match next_message(alloc, rest, format, padding, options)? {
        Some(message) => {
            messages.push(message)?;
            Ok(true)
        }
        None => Ok(false),
    }
}
