//! What is said of errors.
ghost use Rattle.std.specs.Prelude.{◌≡◌, ◌++◌, [], IfOk, codes, string_bytes};
ghost use Rattle.capnp_show.specs.ErrorLines.{IsInputErrorLine, sentence_of, unwritten_of};
ghost use Rattle.capnp_show.specs.Output.{AddsEscaped};

use crate::escapes::push_escaped;
use capnp::{Error, ErrorKind};
use std::alloc::{AllocError, Global};
use std::fmt::Write;
use std::io;

/// The sentence for an error of this kind.
pub fn sentence(kind: ErrorKind) -> &'static str
    ensures { result.now ≡ sentence_of kind }
{
    match kind {
        ErrorKind::FailedToFillTheWholeBuffer => "the input ends within a message",
        ErrorKind::BufferNotLargeEnough => "a buffer is too short for what was to be put there",
        ErrorKind::EmptyBuffer => "a buffer that was to hold a message is empty",
        ErrorKind::EmptySlice => "the bytes that were to begin with a message are none",
        ErrorKind::InvalidNumberOfSegments(_) => {
            "the segment table has a number of segments that is not from 1 to 511"
        }
        ErrorKind::MessageEndsPrematurely(_, _) => "the input ends before the message does",
        ErrorKind::MessageSizeOverflow => "the size of the message does not fit 64 bits",
        ErrorKind::MessageTooLarge(_) => "the message has more words than --words allows",
        ErrorKind::PrematureEndOfFile => "the input ends where a message was to begin",
        ErrorKind::PrematureEndOfPackedInput => "the packed input ends within a message",
        ErrorKind::PackedInputDidNotEndCleanlyOnASegmentBoundary => {
            "a run of packed words goes past the end of the segments"
        }
        ErrorKind::OutOfMemory => "there is not enough memory",
        ErrorKind::DeviceFailed => "the input can't be read",
        ErrorKind::NotWholeWords => "what was to be packed or unpacked is no whole number of words",
        ErrorKind::AllocationTooLarge(_) => "an object is larger than a segment may be",
        ErrorKind::SegmentTaken => "the only segment is in use",
        ErrorKind::PointerOutOfBounds => "a pointer leads outside of its segment",
        ErrorKind::InvalidSegmentId(_) => "a pointer leads to a segment that is not there",
        ErrorKind::NestingLimitExceeded => "objects are nested deeper than --nesting allows",
        ErrorKind::ReadLimitExceeded => "the objects have more words than --words allows",
        ErrorKind::CapabilityRefused => "a pointer leads to a capability",
        ErrorKind::WrongPointerKind => "a pointer leads to another kind of object",
        ErrorKind::TextNotTerminated => "a text has no zero byte at its end",
        ErrorKind::CanonicalTooLarge => "the canonical form is larger than a segment may be",
        ErrorKind::NotOneSegment => "the message has more than one segment",
        ErrorKind::NonZeroPadding => "the padding of the segment table is not zero",
    }
}

/// Adds what is said of a pointer that is not followed.
pub fn push_error(output: &mut String, kind: ErrorKind) -> Result<(), AllocError> {
    let said = sentence(kind);
    write!(output, "refused, since {said} ({kind})")
}

/// Why the messages of an input are not all shown.
#[derive(Drop)]
pub enum Stop {
    /// Reading the message of this index failed; its first byte is at this offset.
    Unread {
        index: u64,
        offset: u64,
        error: Error,
    },
    /// What is shown could not be written, or there was no memory for it.
    Unwritten(Error),
}

/// The line for a message that could not be read.
pub fn message_error_line(
    alloc: Global,
    name: &str,
    index: u64,
    offset: u64,
    error: &Error,
) -> Result<String, AllocError> {
    let said = sentence(error.kind);
    let mut line = named_line(alloc, name)?;
    write!(line, "message {index} at byte {offset}: {said} ({error})\n")?;
    Ok(line)
}

/// The line for a file that can't be opened.
pub fn unopened_line(alloc: Global, name: &str, error: &io::Error) -> Result<String, AllocError> {
    let mut line = named_line(alloc, name)?;
    write!(line, "the file can't be opened: {error}\n")?;
    Ok(line)
}

/// The line that gives the system's reason why the device of an input failed.
pub fn device_error_line(alloc: Global, name: &str, error: &io::Error) -> Result<String, AllocError>
    ensures { IfOk result (λ line. IsInputErrorLine name.now (string_bytes line)) }
{
    let reason = error.to_string(alloc)?;
    input_line(alloc, name, &reason)
}

/// The line that says this of an input.
#[tactic(auto, using(crate::proofs::JoinedAddedStringsLemmas::escaped_and_more))]
pub fn input_line(alloc: Global, name: &str, said: &str) -> Result<String, AllocError>
    ensures { IfOk result (λ line. AddsEscaped (codes "capnp_show: ") name.now
        (codes ": " ++ (said.now ++ codes "\n")) [] (string_bytes line)) }
{
    let mut line = named_line(alloc, name)?;
    write!(line, "{said}\n")?;
    Ok(line)
}

/// The front of a line about an input.
#[tactic(auto, using(crate::proofs::JoinedAddedStringsLemmas::escaped_between))]
pub fn named_line(alloc: Global, name: &str) -> Result<String, AllocError>
    ensures { IfOk result (λ line. AddsEscaped (codes "capnp_show: ") name.now (codes ": ")
        [] (string_bytes line)) }
{
    let mut line = String::from_str(alloc, "capnp_show: ")?;
    push_escaped(&mut line, name)?;
    line.push_str(": ")?;
    Ok(line)
}

/// The line for output that is not written.
pub fn unwritten_line(alloc: Global, error: &Error) -> Result<String, AllocError>
    ensures { IfOk result (λ line. string_bytes line ≡ codes "capnp_show: "
        ++ (unwritten_of error.now.kind ++ codes "\n")) }
{
    match error.kind {
        ErrorKind::DeviceFailed => {
            format!(in alloc; "capnp_show: standard output can't be written\n")
        }
        kind => {
            let said = sentence(kind);
            format!(in alloc; "capnp_show: {said}\n")
        }
    }
}
