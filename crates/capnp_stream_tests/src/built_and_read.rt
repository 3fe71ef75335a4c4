//! Messages of as many segments as a reader accepts, which are built, written and read back.
use crate::readers::FORMATS;
use crate::writers::write_built;
use capnp::message::{
    AllocationStrategy, Builder, DEFAULT_READER_OPTIONS, HeapAllocator, ReaderSegments,
};
use capnp::serialize::{write_message_segments_to_words, write_message_to_words};
use capnp::streams::{Format, read_messages};
use capnp::text;
use capnp_frame::Result;
use capnp_frame::serialize::segments_to_words;
use capnp_frame_tests::retried;
use std::alloc::Global;
use std::process::Abort;

// A segment of one word for the root, and one more for each text that is set.
#[test]
fn as_many_segments_as_a_reader_accepts(rt: HostRuntime) -> Result<()> {
    retried!(write_many(&rt))
}

// A message of the root's segment and of 510 others.
fn build_many(alloc: Global) -> Result<Builder<HeapAllocator>> {
    let heap = HeapAllocator::new(alloc)
        .first_segment_words(1)
        .allocation_strategy(AllocationStrategy::FixedSize);
    let mut message = Builder::new(alloc, heap);
    for _ in 0..510u32 {
        message.set_root::<text::Owned, &str>("hello world!")?;
    }
    Ok(message)
}

fn write_many(rt: &(impl Abort + AllocGlobal)) -> Result<()> {
    let message = build_many(rt.alloc())?;
    for format in &FORMATS {
        read_back(rt, *format, &message)?;
    }
    return_words(rt, &message)
}

fn read_back(
    rt: &(impl Abort + AllocGlobal),
    format: Format,
    message: &Builder<HeapAllocator>,
) -> Result<()> {
    let mut stream: Vec<u8> = Vec::new(rt.alloc());
    write_built(rt, format, &mut stream, message)?;
    let mut source = stream.as_slice();
    read_messages(rt.alloc(), &mut source, format, 1, DEFAULT_READER_OPTIONS)?;
    Ok(())
}

// The calls that return the framed encoding.
fn return_words(rt: &(impl Abort + AllocGlobal), message: &Builder<HeapAllocator>) -> Result<()> {
    assert!(rt; !message.is_empty());
    write_message_to_words(rt.alloc(), message)?;
    let segments = message.get_segments_for_output();
    segments_to_words(rt.alloc(), &segments)?;
    write_message_segments_to_words(rt.alloc(), &segments)?;
    Ok(())
}
