//! Messages that are read into the memory of the one before.
//!
//! Whichever allocation fails, only the first reading of the longest message may be out of memory.
use crate::samples::{SAMPLES, append_word, encoding_of};
use capnp::message::Reader;
use capnp::streams::Format;
use capnp::{serialize, serialize_packed};
use capnp_frame::message::DEFAULT_READER_OPTIONS;
use capnp_frame::serialize::{OwnedSegments, Padding, TableRules, try_read_segments_reusing};
use capnp_frame::{Error, ErrorKind, Result};
use capnp_frame_tests::retried;
use capnp_pack::stream::try_read_packed_segments;
use std::alloc::Global;

// What a reader returns.
#[derive(Clone, Copy)]
enum Returned {
    Segments,
    Message,
}

// A reader: its format, its rule of padding, and what it returns.
type Call = (Format, Padding, Returned);

#[rattlefmt::skip]
const CALLS: [Call; 8] = [
    (Format::Framed, Padding::Zero, Returned::Segments),
    (Format::Framed, Padding::Zero, Returned::Message),
    (Format::Framed, Padding::Any, Returned::Segments),
    (Format::Framed, Padding::Any, Returned::Message),
    (Format::Packed, Padding::Zero, Returned::Segments),
    (Format::Packed, Padding::Zero, Returned::Message),
    (Format::Packed, Padding::Any, Returned::Segments),
    (Format::Packed, Padding::Any, Returned::Message),
];

// The message that is encoded, by a call.
fn read_encoding(call: Call, encoding: &[u8], spare: OwnedSegments) -> Result<OwnedSegments> {
    let found = match call.2 {
        Returned::Segments => next_segments(call, encoding, spare)?,
        Returned::Message => next_message(call, encoding, spare)?.map(Reader::into_segments),
    };
    match found {
        Some(found) => Ok(found),
        None => Err(Error::from_kind(ErrorKind::PrematureEndOfFile)),
    }
}

fn next_segments(
    (format, padding, _): Call,
    encoding: &[u8],
    spare: OwnedSegments,
) -> Result<Option<OwnedSegments>> {
    let rules = TableRules::new(padding, DEFAULT_READER_OPTIONS);
    let mut source = encoding;
    match format {
        Format::Framed => try_read_segments_reusing(&mut source, rules, spare),
        Format::Packed => try_read_packed_segments(&mut source, rules, spare),
    }
}

fn next_message(
    (format, padding, _): Call,
    encoding: &[u8],
    spare: OwnedSegments,
) -> Result<Option<Reader<OwnedSegments>>> {
    let options = DEFAULT_READER_OPTIONS;
    let mut source = encoding;
    match format {
        Format::Framed => {
            serialize::try_read_message_reusing(&mut source, padding, options, spare)
        }
        Format::Packed => {
            serialize_packed::try_read_message_reusing(&mut source, padding, options, spare)
        }
    }
}

// A message of one segment in which the last word alone isn't zero, of a number of parts of 256
// words. Packed, the words before the last are runs of 256, and one of 255.
fn long_message(alloc: Global, format: Format, parts: u32) -> Result<Vec<u8>> {
    let mut encoding = Vec::new(alloc);
    append_word(&mut encoding, format, (parts as u64) << 40)?;
    for _ in 1..parts {
        match format {
            Format::Framed => encoding.extend_from_slice(&[0; 2048])?,
            Format::Packed => encoding.extend_from_slice(&[0, 255])?,
        }
    }
    match format {
        Format::Framed => encoding.extend_from_slice(&[0; 2040])?,
        Format::Packed => encoding.extend_from_slice(&[0, 254])?,
    }
    append_word(&mut encoding, format, 7)?;
    Ok(encoding)
}

// Of 153,600 words and of 3,507,200.
const LONG: u32 = 600;

const LONGEST: u32 = 13_700;

#[test]
fn long_messages_take_no_more_memory(rt: HostRuntime) -> Result<()> {
    for call in &CALLS {
        read_long(&rt, *call, LONG)?;
    }
    read_long(&rt, CALLS[1], LONGEST)?;
    read_long(&rt, CALLS[5], LONGEST)
}

fn read_long(rt: &impl AllocGlobal, call: Call, parts: u32) -> Result<()> {
    let encoding = retried!(long_message(rt.alloc(), call.0, parts))?;
    read_smaller(rt, call, &encoding, 1)
}

// A message of three segments, of 32, 32 and no words.
fn large_message(alloc: Global, format: Format) -> Result<Vec<u8>> {
    let mut encoding = Vec::new(alloc);
    append_word(&mut encoding, format, 32 << 32 | 2)?;
    append_word(&mut encoding, format, 32)?;
    for _ in 0..64 {
        append_word(&mut encoding, format, 7)?;
    }
    Ok(encoding)
}

#[test]
fn smaller_messages_take_no_more_memory(rt: HostRuntime) -> Result<()> {
    for call in &CALLS {
        let large = retried!(large_message(rt.alloc(), call.0))?;
        read_smaller(&rt, *call, &large, 2105)?;
    }
    Ok(())
}

// After a message smaller ones, and the same one again, a given number of times. What is read
// contracts say.
fn read_smaller(rt: &impl AllocGlobal, call: Call, large: &[u8], times: u32) -> Result<()> {
    let mut kept = retried!(read_encoding(call, large, OwnedSegments::empty(rt.alloc())))?;
    for _ in 0..times {
        for sample in &SAMPLES {
            kept = read_encoding(call, encoding_of(sample, call.0), kept)?;
        }
        kept = read_encoding(call, large, kept)?;
    }
    Ok(())
}
