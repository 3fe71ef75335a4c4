//! The calls that read the next message of a stream, each by the rule of padding that it has or is
//! given.
mod framed;
mod packed;
mod shown;

pub use crate::readers::framed::is_read;
use crate::readers::packed::is_unpacked;
pub use crate::readers::shown::is_skipped;
use crate::readers::shown::{is_iterated, is_listed, is_next};
use capnp::message;
use capnp::streams::Format;
use capnp_frame::Result;
use capnp_frame::io::BufRead;
use capnp_frame::message::{DEFAULT_READER_OPTIONS, ReaderSegments};
use capnp_frame::serialize::{NoAllocBufferSegments, NoAllocSegmentTableInfo, Padding};
use capnp_frame_tests::messages::has_segments;
use std::alloc::Global;

/// The calls that each format has.
#[derive(Clone, Copy, Debug)]
pub enum FormatReader {
    /// Into memory that grows.
    Copying,
    /// Into the memory of a message before, here of none.
    Reusing,
    /// Into a caller-provided buffer.
    Lending,
    /// As a message, into memory that grows.
    Message,
    /// As a message, into a caller-provided buffer.
    ProvidedMessage,
    /// As a message that has to be there, into memory that grows.
    Needed,
    /// As a message that has to be there, into a caller-provided buffer.
    ProvidedNeeded,
    /// With its table, into a caller-provided buffer.
    WithTable,
}

pub const FORMAT_READERS: [FormatReader; 8] = [
    FormatReader::Copying,
    FormatReader::Reusing,
    FormatReader::Lending,
    FormatReader::Message,
    FormatReader::ProvidedMessage,
    FormatReader::Needed,
    FormatReader::ProvidedNeeded,
    FormatReader::WithTable,
];

/// The calls that read the next message.
#[derive(Clone, Copy, Debug)]
pub enum Reader {
    OfFormat(FormatReader),
    /// The lengths of its segments alone.
    Skipping,
    /// By a format.
    Next,
    /// A list of one message.
    Listed,
    /// The first one of an iterator.
    Iterated,
}

pub const READERS: [Reader; 12] = [
    Reader::OfFormat(FormatReader::Copying),
    Reader::OfFormat(FormatReader::Reusing),
    Reader::OfFormat(FormatReader::Lending),
    Reader::OfFormat(FormatReader::Message),
    Reader::OfFormat(FormatReader::ProvidedMessage),
    Reader::OfFormat(FormatReader::Needed),
    Reader::OfFormat(FormatReader::ProvidedNeeded),
    Reader::OfFormat(FormatReader::WithTable),
    Reader::Skipping,
    Reader::Next,
    Reader::Listed,
    Reader::Iterated,
];

/// Both formats.
pub const FORMATS: [Format; 2] = [Format::Framed, Format::Packed];

/// Both rules of padding.
pub const RULES: [Padding; 2] = [Padding::Zero, Padding::Any];

/// A call: the format that it reads, its rule of padding, and how it reads.
pub type Call = (Format, Padding, Reader);

/// Whether the call returns a message of these segments.
pub fn is_returned<R: BufRead>(
    alloc: Global,
    (format, padding, reader): Call,
    source: &mut R,
    segments: &[&[u8]],
) -> Result<bool> {
    match reader {
        Reader::OfFormat(reader) => match format {
            Format::Framed => is_read(alloc, (padding, reader), source, segments),
            Format::Packed => is_unpacked(alloc, (padding, reader), source, segments),
        },
        Reader::Skipping => is_skipped(alloc, (format, padding), source),
        Reader::Next => is_next(alloc, (format, padding), source, segments),
        Reader::Listed => is_listed(alloc, format, source, segments),
        Reader::Iterated => is_iterated(alloc, (format, padding), source, segments),
    }
}

/// The segments of a message that was read.
pub fn segments_of<S: ReaderSegments + Drop>(
    returned: Result<Option<message::Reader<S>>>,
) -> Result<Option<S>> {
    match returned? {
        Some(reader) => Ok(Some(reader.into_segments())),
        None => Ok(None),
    }
}

/// Whether a message of these segments is returned.
pub fn is_message<S: ReaderSegments + Drop>(
    returned: Result<Option<S>>,
    segments: &[&[u8]],
) -> Result<bool> {
    match returned? {
        Some(found) => Ok(has_segments(&found, segments)),
        None => Ok(false),
    }
}

// The same of a message that has to be there.
fn is_needed_message<S: ReaderSegments + Drop>(
    returned: Result<message::Reader<S>>,
    segments: &[&[u8]],
) -> Result<bool> {
    let message = returned?;
    Ok(has_segments(message.get_segments(), segments))
}

// The same of a message that was read into a buffer with its table.
fn is_in_buffer(
    returned: Result<Option<NoAllocSegmentTableInfo>>,
    buffer: &[u8],
    segments: &[&[u8]],
) -> Result<bool> {
    if returned?.is_none() {
        return Ok(false);
    }
    let found = NoAllocBufferSegments::from_buffer(buffer, DEFAULT_READER_OPTIONS)?;
    Ok(has_segments(&found, segments))
}
