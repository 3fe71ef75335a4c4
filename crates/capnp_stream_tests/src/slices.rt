//! Slices as sources and sinks, and messages that are found in them.
use crate::fixtures::expect;
use crate::readers::RULES;
use crate::samples::TWO_SEGMENTS;
use crate::sink_cases::Writer;
use crate::writers::write_by;
use capnp::serialize::{read_message_from_flat_slice, read_message_from_flat_slice_lenient};
use capnp_frame::Result;
use capnp_frame::io::{BufRead, Read};
use capnp_frame::message::DEFAULT_READER_OPTIONS;
use capnp_frame::serialize::{
    BufferSegments, Padding, TableRules, take_segments, take_segments_lenient, try_read_framed_into,
};
use capnp_frame_tests::limits::STRICT;
use capnp_frame_tests::retried;
use capnp_pack::stream::try_read_packed_framed_into;
use std::alloc::Global;

const BYTES: [u8; 11] = [1, 2, 3, 4, 5, 6, 7, 8, 9, 10, 11];

// As much as there is room for is read at once, and all is shown.
#[test]
fn a_slice_is_read_and_shown(rt: HostRuntime) -> Result<()> {
    let mut source = BYTES.as_slice();
    let mut part = [0; 8];
    expect(&rt, "read", source.read(&mut part)?, 8);
    let shown = source.fill_buf()?;
    assert!(rt; shown.len() == 3 && shown == &BYTES[8..]);
    source.consume(1);
    expect(&rt, "read after it", source.read(&mut part)?, 2);
    Ok(())
}

// Segments of 1, 0 and 1 words.
const SEGMENTS: [&[u8]; 3] = [&[1, 2, 3, 4, 5, 6, 7, 8], &[], &[0; 8]];

const PACKED: [u8; 17] = [0x11, 2, 1, 0x10, 1, 0xff, 1, 2, 3, 4, 5, 6, 7, 8, 0, 0, 0];

// No clause says that a slice of just as many bytes is enough.
#[test]
fn a_packed_message_fills_a_slice(rt: HostRuntime) -> Result<()> {
    let mut packed = [9; 17];
    let mut left: &mut [u8] = &mut packed;
    write_by(&rt, Writer::Packed, &mut left, &SEGMENTS)?;
    expect(&rt, "left", left.len(), 0);
    expect(&rt, "packed", packed.as_slice(), &PACKED);
    Ok(())
}

// Two segments, of one and of two words, and after their frame two words more.
#[rattlefmt::skip]
const FRAME_AND_MORE: [u8; 56] = [
    1, 0, 0, 0, 1, 0, 0, 0, 2, 0, 0, 0, 0, 0, 0, 0,
    123, 0, 0, 0, 0, 0, 0, 0,
    4, 0, 0, 0, 0, 0, 0, 0, 5, 0, 0, 0, 0, 0, 0, 0,
    9, 9, 9, 9, 9, 9, 9, 9, 8, 7, 6, 5, 4, 3, 2, 1,
];

// The encoding of that message as it is written, in a buffer of ones.
#[rattlefmt::skip]
const ENCODING_AND_ROOM: [u8; 48] = [
    1, 0, 0, 0, 1, 0, 0, 0, 2, 0, 0, 0, 0, 0, 0, 0,
    123, 0, 0, 0, 0, 0, 0, 0,
    4, 0, 0, 0, 0, 0, 0, 0, 5, 0, 0, 0, 0, 0, 0, 0,
    1, 1, 1, 1, 1, 1, 1, 1,
];

// A message of one word of nines and a byte after it, and its framed encoding in a buffer that is a
// byte longer.
const PACKED_NINES: [u8; 13] = [0x10, 1, 0xff, 9, 9, 9, 9, 9, 9, 9, 9, 0, 7];

const NINES_AND_ROOM: [u8; 17] = [0, 0, 0, 0, 1, 0, 0, 0, 9, 9, 9, 9, 9, 9, 9, 9, 1];

// What comes after the encoding in a buffer stays.
#[test]
fn a_buffer_stays_after_the_encoding(rt: HostRuntime) -> Result<()> {
    let mut room = [1; 48];
    try_read_framed_into(&mut FRAME_AND_MORE.as_slice(), STRICT, &mut room)?;
    expect(&rt, "framed", room.as_slice(), &ENCODING_AND_ROOM);
    let mut room = [1; 17];
    try_read_packed_framed_into(&mut PACKED_NINES.as_slice(), STRICT, &mut room)?;
    expect(&rt, "packed", room.as_slice(), &NINES_AND_ROOM);
    Ok(())
}

// Where two segments are takes memory, and each of these calls finds them where it is there.
#[test]
fn two_segments_are_found(rt: HostRuntime) -> Result<()> {
    for rule in &RULES {
        retried!(take_two(rt.alloc(), *rule))?;
        retried!(borrow_two(rt.alloc(), *rule))?;
        retried!(read_two(rt.alloc(), *rule))?;
    }
    Ok(())
}

fn take_two(alloc: Global, rule: Padding) -> Result<()> {
    let options = DEFAULT_READER_OPTIONS;
    let mut slice = TWO_SEGMENTS.framed;
    match rule {
        Padding::Zero => take_segments(alloc, &mut slice, options)?,
        Padding::Any => take_segments_lenient(alloc, &mut slice, options)?,
    };
    Ok(())
}

fn borrow_two(alloc: Global, rule: Padding) -> Result<()> {
    let options = DEFAULT_READER_OPTIONS;
    let buffer = TWO_SEGMENTS.framed;
    match rule {
        Padding::Zero => BufferSegments::new(alloc, buffer, options)?,
        Padding::Any => BufferSegments::new_lenient(alloc, buffer, options)?,
    };
    BufferSegments::with_rules(alloc, buffer.to_vec(alloc)?, TableRules::new(rule, options))?;
    Ok(())
}

fn read_two(alloc: Global, rule: Padding) -> Result<()> {
    let options = DEFAULT_READER_OPTIONS;
    let mut slice = TWO_SEGMENTS.framed;
    match rule {
        Padding::Zero => read_message_from_flat_slice(alloc, &mut slice, options)?,
        Padding::Any => read_message_from_flat_slice_lenient(alloc, &mut slice, options)?,
    };
    Ok(())
}
