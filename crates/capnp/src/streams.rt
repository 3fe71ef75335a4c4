//! Streams of messages: the next message, or all of them, as an iterator, at once, or each handed
//! to a writer.
ghost use Rattle.std.specs.Prelude.{◌≡◌, None, OnOk, OnErr, IfErr};
ghost use Rattle.std.specs.List.{AllByRecursion};
ghost use Rattle.capnp_frame.specs.declared.error.ErrorKind.{ErrorKind};
ghost use Rattle.capnp_frame.specs.Prelude.{IsWithin, IsWholeWords, IfKnown, Fails, Appending, Leaving, Declining, Adds, Grows, ReadsStream};
ghost use Rattle.capnp.specs.Streams.{rules_of};
ghost use Rattle.capnp.specs.Runs.{Writing, WritingErrors, WritingError, FailsWithinOr, WritesEach};

mod appended;
mod counted;
mod message_stream;
mod reading;

pub use appended::{read_messages, write_message, write_messages};
use capnp_frame::io::{BufRead, Write};
use capnp_frame::serialize::{OwnedSegments, TableRules, try_read_segments_reusing};
use capnp_frame::{Error, Result};
use capnp_pack::stream::try_read_packed_segments;
pub use message_stream::{MessageStream, open_file};
pub(crate) use reading::{reader_of, required};
pub use reading::{StreamRead, every_message, is_cut, next_message};
use std::alloc::Global;

/// The formats of a stream.
///
/// ```
/// let mut framed = Vec::new(alloc);
/// streams::write_message(alloc, &mut framed, Format::Framed, &message)?;
/// let mut packed = Vec::new(alloc);
/// streams::write_message(alloc, &mut packed, Format::Packed, &message)?;
/// assert_eq!(rt; (framed.len(), packed.len()), (16, 4));
/// ```
#[derive(Clone, Copy, Debug, PartialEq, Eq)]
pub enum Format {
    Framed,
    Packed,
}

/// Where a run over the messages of a stream failed.
///
/// ```
/// match streams::write_each_message(alloc, &mut source, &mut sink, format, rules, &Way::Pack) {
///     Ok(()) => return Err(Fail::new("it is whole")),
///     Err(failed) => {
///         assert_eq!(rt; failed.message, 1);
///         assert_eq!(rt; failed.error.kind, ErrorKind::FailedToFillTheWholeBuffer);
///     }
/// }
/// ```
#[derive(Debug, Drop)]
pub struct FailedAt {
    /// How many messages were written completely: the index of the one at which it failed, from 0.
    pub message: u64,
    /// Why the next one was not read, or not written completely.
    pub error: Error,
}

/// What is written for each message of a stream.
///
/// ```
/// let writer = Way::Unpack;
/// let format = writer.input();
/// let mut framed = Vec::new(alloc);
/// streams::write_each_message(alloc, &mut source, &mut framed, format, rules, &writer)?;
/// assert_eq!(rt; framed.as_slice(), HELLO.as_slice());
/// ```
pub trait MessageWriter {
    /// What is added for a message, by its index, to a sink that appends in this way.
    ghost writes: { Self → Appending → Writing };

    /// How writing a message may fail, to a sink that appends, leaves and fails in this way:
    /// with which kinds, whether memory is taken for it, and what is left of it.
    ghost writing_errors: { Self → Appending → Leaving → Declining → WritingErrors };

    /// Writes what there is to write for the message of this index.
    ///
    /// The message has 1 to 511 segments, each of whole words and fewer than 2^32 of them. `memory`
    /// is caller-provided scratch space, whose content doesn't matter before or after the call.
    ///
    /// Fails with a kind that `writing_errors` names, with `OutOfMemory` only where
    /// `writing_errors` says that memory is taken, and with `DeviceFailed` only where the sink's
    /// device failed.
    fn write_message<W: Write>(
        &self,
        alloc: Global,
        index: u64,
        message: &OwnedSegments,
        memory: &mut Vec<u8>,
        sink: &mut W,
    ) -> Result<()>
        requires accepted { IsWithin message.now None }
        requires whole { AllByRecursion IsWholeWords message.now }
        ensures written { OnOk result (IfKnown (W.written sink.old) (W.written sink.new)
            (Adds (writes self.now W.appends index message.now))) }
        ensures errors { IfErr result (λ error. WritingError
            (writing_errors self.now W.appends W.leaves W.refuses) index message.now error.kind) }
        ensures left { OnErr result (IfKnown (W.written sink.old) (W.written sink.new)
            (Adds (WritingErrors.leaves (writing_errors self.now W.appends W.leaves W.refuses)
            index message.now))) }
        ensures untouched { IfErr result (λ error. FailsWithinOr
            (writing_errors self.now W.appends W.leaves W.refuses) index message.now
            (sink.new ≡ sink.old) error.kind) }
        ensures failed { IfErr result (λ error. error.kind ≡ ErrorKind.DeviceFailed →
            Fails (W.failures sink.old) (W.failures sink.new)) }
        ensures grows { Grows W.written W.failures W.same sink.old sink.new };
}

/// Reads each message of `source` by these rules, and writes what `writer` writes for it, until no
/// message is left.
///
/// It takes at most 2^64 - 1 messages, and leaves the rest unread. The memory of a message is
/// reused for the next one.
///
/// Fails where the reader of the next message fails, or where `writer` fails for that message.
/// `FailedAt` says after how many messages.
///
/// ```
/// let mut packed = Vec::new(alloc);
/// let rules = TableRules::new(Padding::Zero, DEFAULT_READER_OPTIONS);
/// let format = Format::Framed;
/// streams::write_each_message(alloc, &mut source, &mut packed, format, rules, &Way::Pack)?;
/// assert_eq!(rt; packed.as_slice(), PACKED.as_slice());
/// ```
pub fn write_each_message<R: BufRead, W: Write, M: MessageWriter>(
    alloc: Global,
    source: &mut R,
    sink: &mut W,
    format: Format,
    rules: TableRules,
    writer: &M,
) -> std::result::Result<(), FailedAt>
    ensures { WritesEach R.Read source.old source.new W.Write sink.old sink.new rules.padding format
        rules.limit_in_words (M.writes writer.now W.appends)
        (M.writing_errors writer.now W.appends W.leaves W.refuses) result }
{
    let mut spare = OwnedSegments::empty(alloc);
    let mut memory = Vec::new(alloc);
    for message in 0..u64::MAX {
        let segments = match read_next(source, format, rules, spare) {
            Ok(Some(segments)) => segments,
            Ok(None) => return Ok(()),
            Err(error) => return Err(FailedAt { message, error }),
        };
        match writer.write_message(alloc, message, &segments, &mut memory, sink) {
            Ok(()) => spare = segments,
            Err(error) => return Err(FailedAt { message, error }),
        }
    }
    Ok(())
}

// Reads the next message of a stream in this format, by these rules, into the memory of the message
// before it.
fn read_next<R: BufRead>(
    source: &mut R,
    format: Format,
    rules: TableRules,
    spare: OwnedSegments,
) -> Result<Option<OwnedSegments>>
    ensures { ReadsStream R.Read source.old source.new (rules_of rules.padding format)
        rules.limit_in_words result }
{
    match format {
        Format::Framed => try_read_segments_reusing(source, rules, spare),
        Format::Packed => try_read_packed_segments(source, rules, spare),
    }
}
