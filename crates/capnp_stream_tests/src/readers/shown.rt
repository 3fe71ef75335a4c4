//! The calls of either format, over sources that show bytes.
use crate::readers::{is_message, segments_of};
use capnp::streams::{Format, MessageStream, next_message, read_messages};
use capnp::{serialize, serialize_packed};
use capnp_frame::Result;
use capnp_frame::io::BufRead;
use capnp_frame::message::DEFAULT_READER_OPTIONS;
use capnp_frame::serialize::{Padding, SegmentLengthsBuilder};
use capnp_frame_tests::messages::has_segments;
use std::alloc::Global;

/// Whether there is a message, which is skipped.
pub fn is_skipped<R: BufRead>(
    alloc: Global,
    (format, padding): (Format, Padding),
    source: &mut R,
) -> Result<bool> {
    let spare = SegmentLengthsBuilder::empty(alloc);
    let options = DEFAULT_READER_OPTIONS;
    let skipped = match format {
        Format::Framed => serialize::try_skip_message(source, padding, options, spare),
        Format::Packed => serialize_packed::try_skip_message(source, padding, options, spare),
    };
    Ok(skipped?.is_some())
}

/// Whether the next message has these segments.
pub fn is_next<R: BufRead>(
    alloc: Global,
    (format, padding): (Format, Padding),
    source: &mut R,
    segments: &[&[u8]],
) -> Result<bool> {
    let read = next_message(alloc, source, format, padding, DEFAULT_READER_OPTIONS);
    is_message(segments_of(read), segments)
}

/// Whether a list of one message has one of these segments.
pub fn is_listed<R: BufRead>(
    alloc: Global,
    format: Format,
    source: &mut R,
    segments: &[&[u8]],
) -> Result<bool> {
    let messages = read_messages(alloc, source, format, 1, DEFAULT_READER_OPTIONS)?;
    match messages.first() {
        Some(message) => Ok(has_segments(message.get_segments(), segments)),
        None => Ok(false),
    }
}

/// Whether the first message of an iterator has these segments.
pub fn is_iterated<R: BufRead>(
    alloc: Global,
    (format, padding): (Format, Padding),
    source: &mut R,
    segments: &[&[u8]],
) -> Result<bool> {
    let mut stream = MessageStream::new(alloc, source, format, padding, DEFAULT_READER_OPTIONS);
    match stream.next() {
        Some(message) => {
            let message = message?;
            Ok(has_segments(message.get_segments(), segments))
        }
        None => Ok(false),
    }
}
