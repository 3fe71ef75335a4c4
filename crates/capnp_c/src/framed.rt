//! Framed messages: checked and listed.
ghost use Rattle.capnp_frame.specs.declared.message.options.TheConstants.{DEFAULT_READER_OPTIONS};
ghost use Rattle.capnp_c.specs.Exports.{FindsMessage, CountsSegment, StepsOver};
ghost use Rattle.capnp_c.specs.Options.{options_of};

use crate::options::LinsjoarOptions;
use capnp_frame::ErrorKind;
use capnp_frame::message::{DEFAULT_READER_OPTIONS, ReaderOptions, ReaderSegments};
use capnp_frame::serialize::NoAllocBufferSegments;

/// Where the framed message at the front of a buffer is, in bytes.
#[repr(C)]
#[derive(Clone, Copy)]
pub struct LinsjoarMessage {
    /// How many segments it has.
    pub segments: usize,
    /// Where the first of them begins, after their table.
    pub start: usize,
    /// Where the last of them ends.
    pub end: usize,
}

/// Finds the framed message at the front of these bytes. Returns 0, or the number of the reader's
/// error.
#[unsafe(no_mangle)]
pub extern "C" fn linsjoar_message(bytes: &[u8], message: &mut LinsjoarMessage) -> u32
    ensures { FindsMessage DEFAULT_READER_OPTIONS bytes.now message.new result }
{
    find_message(bytes, DEFAULT_READER_OPTIONS, message)
}

/// Finds that message as `linsjoar_message` does, within the limits of these options.
#[unsafe(no_mangle)]
pub extern "C" fn linsjoar_message_with_options(
    bytes: &[u8],
    options: &LinsjoarOptions,
    message: &mut LinsjoarMessage,
) -> u32
    ensures { FindsMessage (options_of options.now) bytes.now message.new result }
{
    find_message(bytes, options.reader_options(), message)
}

fn find_message(bytes: &[u8], options: ReaderOptions, message: &mut LinsjoarMessage) -> u32
    ensures { FindsMessage options bytes.now message.new result }
{
    *message = LinsjoarMessage {
        segments: 0,
        start: 0,
        end: 0,
    };
    let mut rest = bytes;
    match NoAllocBufferSegments::from_slice(&mut rest, options) {
        Ok(segments) => {
            let count = segments.len();
            *message = LinsjoarMessage {
                segments: count,
                start: 8 * (count / 2 + 1),
                end: bytes.len() - rest.len(),
            };
            0
        }
        Err(error) => error.kind.number() as u32,
    }
}

/// Counts the words of a segment of that message. The segments follow one another.
///
/// Returns 18 where the message has no segment of this number, and else what `linsjoar_message`
/// returns.
#[unsafe(no_mangle)]
pub extern "C" fn linsjoar_segment(bytes: &[u8], id: u32, words: &mut usize) -> u32
    ensures { CountsSegment DEFAULT_READER_OPTIONS bytes.now id words.new result }
{
    count_segment(bytes, DEFAULT_READER_OPTIONS, id, words)
}

/// Counts them as `linsjoar_segment` does, within the limits of these options.
#[unsafe(no_mangle)]
pub extern "C" fn linsjoar_segment_with_options(
    bytes: &[u8],
    options: &LinsjoarOptions,
    id: u32,
    words: &mut usize,
) -> u32
    ensures { CountsSegment (options_of options.now) bytes.now id words.new result }
{
    count_segment(bytes, options.reader_options(), id, words)
}

fn count_segment(bytes: &[u8], options: ReaderOptions, id: u32, words: &mut usize) -> u32
    ensures { CountsSegment options bytes.now id words.new result }
{
    *words = 0;
    match NoAllocBufferSegments::from_buffer(bytes, options) {
        Ok(segments) => match segments.get_segment(id) {
            Some(segment) => {
                *words = segment.len() / 8;
                0
            }
            None => ErrorKind::InvalidSegmentId(id).number() as u32,
        },
        Err(error) => error.kind.number() as u32,
    }
}

/// Counts the bytes of the framed message at the front of these bytes, so that a caller can step
/// from one message to the next. Returns what `linsjoar_message` returns, but 0 for no bytes, which
/// are no message.
#[unsafe(no_mangle)]
pub extern "C" fn linsjoar_next_message(bytes: &[u8], message_len: &mut usize) -> u32
    ensures { StepsOver DEFAULT_READER_OPTIONS bytes.now message_len.new result }
{
    step_over(bytes, DEFAULT_READER_OPTIONS, message_len)
}

/// Counts them as `linsjoar_next_message` does, within the limits of these options.
#[unsafe(no_mangle)]
pub extern "C" fn linsjoar_next_message_with_options(
    bytes: &[u8],
    options: &LinsjoarOptions,
    message_len: &mut usize,
) -> u32
    ensures { StepsOver (options_of options.now) bytes.now message_len.new result }
{
    step_over(bytes, options.reader_options(), message_len)
}

fn step_over(bytes: &[u8], options: ReaderOptions, message_len: &mut usize) -> u32
    ensures { StepsOver options bytes.now message_len.new result }
{
    *message_len = 0;
    if bytes.is_empty() {
        return 0;
    }
    let mut rest = bytes;
    match NoAllocBufferSegments::from_slice(&mut rest, options) {
        Ok(_) => {
            *message_len = bytes.len() - rest.len();
            0
        }
        Err(error) => error.kind.number() as u32,
    }
}
