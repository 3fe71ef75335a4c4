//! The calls that read packed messages, few in each function.
use crate::readers::{FormatReader, is_in_buffer, is_message, is_needed_message, segments_of};
use capnp::serialize_packed;
use capnp_frame::Result;
use capnp_frame::io::BufRead;
use capnp_frame::message::DEFAULT_READER_OPTIONS;
use capnp_frame::serialize::{OwnedSegments, Padding, TableRules};
use capnp_pack::stream::{
    try_read_packed_framed_into, try_read_packed_segments, try_read_packed_segments_into,
};
use std::alloc::Global;

/// Whether a packed call reads a message of these segments.
pub fn is_unpacked<R: BufRead>(
    alloc: Global,
    (rule, reader): (Padding, FormatReader),
    source: &mut R,
    segments: &[&[u8]],
) -> Result<bool> {
    let mut buffer = [0xaa; 4096];
    match reader {
        FormatReader::Copying | FormatReader::Reusing => is_reused(alloc, rule, source, segments),
        FormatReader::Lending => is_provided(rule, source, &mut buffer, segments),
        FormatReader::Message => is_message_read(alloc, rule, source, segments),
        FormatReader::ProvidedMessage => is_message_provided(rule, source, &mut buffer, segments),
        FormatReader::Needed => is_needed(alloc, rule, source, segments),
        FormatReader::ProvidedNeeded => is_needed_provided(rule, source, &mut buffer, segments),
        FormatReader::WithTable => is_with_table(rule, source, &mut buffer, segments),
    }
}

fn is_reused<R: BufRead>(
    alloc: Global,
    rule: Padding,
    source: &mut R,
    segments: &[&[u8]],
) -> Result<bool> {
    let rules = TableRules::new(rule, DEFAULT_READER_OPTIONS);
    let spare = OwnedSegments::empty(alloc);
    is_message(try_read_packed_segments(source, rules, spare), segments)
}

fn is_provided<R: BufRead>(
    rule: Padding,
    source: &mut R,
    buffer: &mut [u8],
    segments: &[&[u8]],
) -> Result<bool> {
    let rules = TableRules::new(rule, DEFAULT_READER_OPTIONS);
    is_message(
        try_read_packed_segments_into(source, rules, buffer),
        segments,
    )
}

fn is_message_read<R: BufRead>(
    alloc: Global,
    rule: Padding,
    source: &mut R,
    segments: &[&[u8]],
) -> Result<bool> {
    let options = DEFAULT_READER_OPTIONS;
    let read = match rule {
        Padding::Zero => serialize_packed::try_read_message(alloc, source, options),
        Padding::Any => serialize_packed::try_read_message_lenient(alloc, source, options),
    };
    is_message(segments_of(read), segments)
}

fn is_message_provided<R: BufRead>(
    rule: Padding,
    source: &mut R,
    buffer: &mut [u8],
    segments: &[&[u8]],
) -> Result<bool> {
    let options = DEFAULT_READER_OPTIONS;
    let read = match rule {
        Padding::Zero => serialize_packed::try_read_message_no_alloc(source, buffer, options),
        Padding::Any => {
            serialize_packed::try_read_message_no_alloc_lenient(source, buffer, options)
        }
    };
    is_message(segments_of(read), segments)
}

fn is_needed<R: BufRead>(
    alloc: Global,
    rule: Padding,
    source: &mut R,
    segments: &[&[u8]],
) -> Result<bool> {
    let options = DEFAULT_READER_OPTIONS;
    let read = match rule {
        Padding::Zero => serialize_packed::read_message(alloc, source, options),
        Padding::Any => serialize_packed::read_message_lenient(alloc, source, options),
    };
    is_needed_message(read, segments)
}

fn is_needed_provided<R: BufRead>(
    rule: Padding,
    source: &mut R,
    buffer: &mut [u8],
    segments: &[&[u8]],
) -> Result<bool> {
    let options = DEFAULT_READER_OPTIONS;
    let read = match rule {
        Padding::Zero => serialize_packed::read_message_no_alloc(source, buffer, options),
        Padding::Any => serialize_packed::read_message_no_alloc_lenient(source, buffer, options),
    };
    is_needed_message(read, segments)
}

fn is_with_table<R: BufRead>(
    rule: Padding,
    source: &mut R,
    buffer: &mut [u8],
    segments: &[&[u8]],
) -> Result<bool> {
    let rules = TableRules::new(rule, DEFAULT_READER_OPTIONS);
    let read = try_read_packed_framed_into(source, rules, buffer);
    is_in_buffer(read, buffer, segments)
}
