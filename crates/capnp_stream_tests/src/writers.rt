//! The calls that write messages, each of either format.
use crate::sink_cases::{EMPTY, ONE_AND_TWO, PACKED_THREE, THREE, TWO, Writer};
use capnp::message::{Builder, HeapAllocator, ReaderSegments};
use capnp::streams::{Format, write_messages};
use capnp::{Way, serialize, serialize_packed, text, transcode};
use capnp_frame::Result;
use capnp_frame::io::Write;
use capnp_frame::message::{DEFAULT_READER_OPTIONS, SegmentArray};
use capnp_frame::serialize::{is_writable, write_segments};
use capnp_pack::PackedWrite;
use std::alloc::Global;
use std::process::Abort;

/// Writes the message of these segments.
pub fn write_by<W: Write>(
    rt: &(impl Abort + AllocGlobal),
    writer: Writer,
    sink: &mut W,
    segments: &[&[u8]],
) -> Result<()> {
    let array = SegmentArray::new(segments);
    assert!(rt; is_writable(&array));
    let alloc = rt.alloc();
    match writer {
        Writer::Framed => write_segments(alloc, sink, &array),
        Writer::FramedMessage => serialize::write_message_segments(alloc, sink, &array),
        Writer::Packed => write_segments(alloc, &mut PackedWrite::new(sink), &array),
        Writer::PackedMessage => serialize_packed::write_message_segments(alloc, sink, &array),
    }
}

/// Writes a message that has a segment.
pub fn write_built<W: Write>(
    rt: &(impl Abort + AllocGlobal),
    format: Format,
    sink: &mut W,
    message: &Builder<HeapAllocator>,
) -> Result<()> {
    assert!(rt; !message.is_empty());
    match format {
        Format::Framed => serialize::write_message(rt.alloc(), sink, message),
        Format::Packed => serialize_packed::write_message(rt.alloc(), sink, message),
    }
}

/// Builds the message of case hello-far: the first segment has room for the root's word alone, and
/// the text is after a landing pad in a second one.
pub fn build_far(alloc: Global) -> Result<Builder<HeapAllocator>> {
    let heap = HeapAllocator::new(alloc).first_segment_words(1);
    let mut message = Builder::new(alloc, heap);
    message.set_root::<text::Owned, &str>("hello world!")?;
    Ok(message)
}

/// Writes the message that `build_far` builds.
pub fn write_far<W: Write>(
    rt: &(impl Abort + AllocGlobal),
    format: Format,
    sink: &mut W,
) -> Result<()> {
    let message = build_far(rt.alloc())?;
    write_built(rt, format, sink, &message)
}

/// Writes three messages.
pub fn write_three<W: Write>(
    rt: &(impl Abort + AllocGlobal),
    format: Format,
    sink: &mut W,
) -> Result<()> {
    let messages = [
        SegmentArray::new(ONE_AND_TWO),
        SegmentArray::new(TWO),
        SegmentArray::new(EMPTY),
    ];
    assert!(rt;
        is_writable(&messages[0]) && is_writable(&messages[1]) && is_writable(&messages[2])
    );
    write_messages(rt.alloc(), sink, format, &messages)
}

/// Writes the same messages, from the other format.
pub fn transcode_three<W: Write>(alloc: Global, way: Way, sink: &mut W) -> Result<()> {
    let mut source = match way {
        Way::Pack => THREE,
        Way::Unpack => PACKED_THREE,
    };
    transcode(alloc, way, &mut source, sink, DEFAULT_READER_OPTIONS)
}
