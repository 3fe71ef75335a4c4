//! The calls that read framed messages, few in each function, since a function of many is dear to
//! prove.
use crate::readers::{FormatReader, is_in_buffer, is_message, is_needed_message, segments_of};
use capnp::serialize;
use capnp_frame::Result;
use capnp_frame::io::Read;
use capnp_frame::message::DEFAULT_READER_OPTIONS;
use capnp_frame::serialize::{
    OwnedSegments, Padding, TableRules, try_read_framed_into, try_read_segments,
    try_read_segments_into, try_read_segments_into_lenient, try_read_segments_lenient,
    try_read_segments_reusing,
};
use std::alloc::Global;

/// Whether a framed call reads a message of these segments from a source, which need not show
/// bytes.
pub fn is_read<R: Read>(
    alloc: Global,
    (rule, reader): (Padding, FormatReader),
    source: &mut R,
    segments: &[&[u8]],
) -> Result<bool> {
    let mut buffer = [0xaa; 4096];
    match reader {
        FormatReader::Copying => is_copied(alloc, rule, source, segments),
        FormatReader::Reusing => is_reused(alloc, rule, source, segments),
        FormatReader::Lending => is_provided(rule, source, &mut buffer, segments),
        FormatReader::Message => is_message_read(alloc, rule, source, segments),
        FormatReader::ProvidedMessage => is_message_provided(rule, source, &mut buffer, segments),
        FormatReader::Needed => is_needed(alloc, rule, source, segments),
        FormatReader::ProvidedNeeded => is_needed_provided(rule, source, &mut buffer, segments),
        FormatReader::WithTable => is_with_table(rule, source, &mut buffer, segments),
    }
}

fn is_copied<R: Read>(
    alloc: Global,
    rule: Padding,
    source: &mut R,
    segments: &[&[u8]],
) -> Result<bool> {
    let options = DEFAULT_READER_OPTIONS;
    let read = match rule {
        Padding::Zero => try_read_segments(alloc, source, options),
        Padding::Any => try_read_segments_lenient(alloc, source, options),
    };
    is_message(read, segments)
}

fn is_reused<R: Read>(
    alloc: Global,
    rule: Padding,
    source: &mut R,
    segments: &[&[u8]],
) -> Result<bool> {
    let rules = TableRules::new(rule, DEFAULT_READER_OPTIONS);
    let spare = OwnedSegments::empty(alloc);
    is_message(try_read_segments_reusing(source, rules, spare), segments)
}

fn is_provided<R: Read>(
    rule: Padding,
    source: &mut R,
    buffer: &mut [u8],
    segments: &[&[u8]],
) -> Result<bool> {
    let options = DEFAULT_READER_OPTIONS;
    let read = match rule {
        Padding::Zero => try_read_segments_into(source, buffer, options),
        Padding::Any => try_read_segments_into_lenient(source, buffer, options),
    };
    is_message(read, segments)
}

fn is_message_read<R: Read>(
    alloc: Global,
    rule: Padding,
    source: &mut R,
    segments: &[&[u8]],
) -> Result<bool> {
    let options = DEFAULT_READER_OPTIONS;
    let read = match rule {
        Padding::Zero => serialize::try_read_message(alloc, source, options),
        Padding::Any => serialize::try_read_message_lenient(alloc, source, options),
    };
    is_message(segments_of(read), segments)
}

fn is_message_provided<R: Read>(
    rule: Padding,
    source: &mut R,
    buffer: &mut [u8],
    segments: &[&[u8]],
) -> Result<bool> {
    let options = DEFAULT_READER_OPTIONS;
    let read = match rule {
        Padding::Zero => serialize::try_read_message_no_alloc(source, buffer, options),
        Padding::Any => serialize::try_read_message_no_alloc_lenient(source, buffer, options),
    };
    is_message(segments_of(read), segments)
}

fn is_needed<R: Read>(
    alloc: Global,
    rule: Padding,
    source: &mut R,
    segments: &[&[u8]],
) -> Result<bool> {
    let options = DEFAULT_READER_OPTIONS;
    let read = match rule {
        Padding::Zero => serialize::read_message(alloc, source, options),
        Padding::Any => serialize::read_message_lenient(alloc, source, options),
    };
    is_needed_message(read, segments)
}

fn is_needed_provided<R: Read>(
    rule: Padding,
    source: &mut R,
    buffer: &mut [u8],
    segments: &[&[u8]],
) -> Result<bool> {
    let options = DEFAULT_READER_OPTIONS;
    let read = match rule {
        Padding::Zero => serialize::read_message_no_alloc(source, buffer, options),
        Padding::Any => serialize::read_message_no_alloc_lenient(source, buffer, options),
    };
    is_needed_message(read, segments)
}

fn is_with_table<R: Read>(
    rule: Padding,
    source: &mut R,
    buffer: &mut [u8],
    segments: &[&[u8]],
) -> Result<bool> {
    let rules = TableRules::new(rule, DEFAULT_READER_OPTIONS);
    let read = try_read_framed_into(source, rules, buffer);
    is_in_buffer(read, buffer, segments)
}
