//! Streams of 2,105 messages, each told from the others by its words, by the calls that go over a
//! stream, and messages that are skipped one after another.
use crate::devices::giving;
use crate::fixtures::expect;
use crate::readers::{FORMATS, RULES};
use crate::samples::append_word;
use capnp::devices::Input;
use capnp::io::BufRead;
use capnp::message::{DEFAULT_READER_OPTIONS, Reader};
use capnp::serialize::SegmentLengthsBuilder;
use capnp::streams::{Format, MessageStream, every_message, read_messages, write_each_message};
use capnp::{Way, serialize, serialize_packed};
use capnp_frame::message::ReaderSegments;
use capnp_frame::serialize::{OwnedSegments, Padding, TableRules};
use capnp_frame::{Error, ErrorKind, Result};
use capnp_frame_tests::messages::shows;
use capnp_frame_tests::sources::Trickle;
use std::alloc::Global;
use std::process::Abort;

const COUNT: u64 = 2105;

// Message 1 has two segments of the word 1, message 2 three of the word 2, message 3 one of the
// word 3, and so on. No word is zero, and each has a zero byte.
fn segments_in(index: u64) -> usize {
    match index % 3 {
        0 => 1,
        1 => 2,
        _ => 3,
    }
}

// The table: the number of segments less one, the length of each, a word, and zeros up to a word.
fn append_message(stream: &mut Vec<u8>, format: Format, index: u64) -> Result<()> {
    append_word(stream, format, 1 << 32 | index % 3)?;
    match index % 3 {
        0 => {}
        1 => append_word(stream, format, 1)?,
        _ => append_word(stream, format, 1 << 32 | 1)?,
    }
    for _ in 0..segments_in(index) {
        append_word(stream, format, index)?;
    }
    Ok(())
}

fn stream_of(alloc: Global, format: Format) -> Result<Vec<u8>> {
    let mut stream = Vec::new(alloc);
    for index in 1..=COUNT {
        append_message(&mut stream, format, index)?;
    }
    Ok(stream)
}

// Whether this is the message of this index.
fn is_message(message: Result<Reader<OwnedSegments>>, index: u64) -> Result<bool> {
    let message = message?;
    let segments = message.get_segments();
    let word = index.to_le_bytes();
    let last_id = segments_in(index).saturating_sub(1).min(2) as u32;
    let last = shows(segments, last_id, &word);
    Ok(shows(segments, 0, &word) && last && segments.get_segment(last_id + 1).is_none())
}

// Over a slice, and over a device that gives seven bytes a read, of whose bytes no contract speaks.
#[test]
fn calls_go_over_each_message(rt: HostRuntime) -> Result<()> {
    for format in &FORMATS {
        let stream = stream_of(rt.alloc(), *format)?;
        for padding in &RULES {
            read_all(&rt, (*format, *padding), &stream)?;
            iterate(&rt, (*format, *padding), stream.as_slice())?;
            iterate_device(&rt, (*format, *padding), &stream)?;
            write_each(&rt, (*format, *padding), &stream)?;
            skip_each(rt.alloc(), (*format, *padding), &stream)?;
        }
    }
    Ok(())
}

// What is read contracts say. The second source shows one byte at a time.
fn read_all(
    rt: &(impl Abort + AllocGlobal),
    (format, padding): (Format, Padding),
    stream: &[u8],
) -> Result<()> {
    let options = DEFAULT_READER_OPTIONS;
    let read = every_message(rt.alloc(), stream, format, padding, options);
    expect(rt, "at once", read.messages.len(), COUNT as usize);
    let mut source = Trickle::new(stream, 1);
    read_messages(rt.alloc(), &mut source, format, COUNT as usize, options)?;
    Ok(())
}

fn iterate_device(
    rt: &(impl Abort + AllocGlobal),
    call: (Format, Padding),
    stream: &[u8],
) -> Result<()> {
    let mut device = giving(stream, 7, 0, 0);
    let input = Input::new(rt.alloc(), &mut device)?;
    iterate(rt, call, input)
}

fn iterate<R: BufRead + Drop>(
    rt: &(impl Abort + AllocGlobal),
    (format, padding): (Format, Padding),
    source: R,
) -> Result<()> {
    let options = DEFAULT_READER_OPTIONS;
    let mut index = 0u64;
    for message in MessageStream::new(rt.alloc(), source, format, padding, options) {
        index = index.wrapping_add(1);
        expect(rt, index, is_message(message, index)?, true);
    }
    expect(rt, "messages", index, COUNT);
    Ok(())
}

// The stream in the other format.
fn write_each(
    rt: &(impl Abort + AllocGlobal),
    (format, padding): (Format, Padding),
    stream: &[u8],
) -> Result<()> {
    let way = match format {
        Format::Framed => Way::Pack,
        Format::Packed => Way::Unpack,
    };
    let rules = TableRules::new(padding, DEFAULT_READER_OPTIONS);
    let mut source = stream;
    let mut sink: Vec<u8> = Vec::new(rt.alloc());
    let returned = write_each_message(rt.alloc(), &mut source, &mut sink, format, rules, &way);
    expect(rt, "written", returned.is_ok(), true);
    Ok(())
}

// Each message is skipped, into the lengths of the one before.
fn skip_each(alloc: Global, (format, padding): (Format, Padding), stream: &[u8]) -> Result<()> {
    let options = DEFAULT_READER_OPTIONS;
    let mut source = stream;
    let mut kept = SegmentLengthsBuilder::empty(alloc);
    for _ in 0..COUNT {
        let skipped = match format {
            Format::Framed => serialize::try_skip_message(&mut source, padding, options, kept)?,
            Format::Packed => {
                serialize_packed::try_skip_message(&mut source, padding, options, kept)?
            }
        };
        let Some(lengths) = skipped else {
            return Err(Error::from_kind(ErrorKind::PrematureEndOfFile));
        };
        kept = lengths;
    }
    Ok(())
}
