//! Regions that come back from builders.
use crate::building::{expect_segments, expect_zeros, set_canonical_text, set_text, text_of};
use crate::fixtures::expect;
use crate::hostile_messages::{set, set_canonical};
use capnp_build::allocator::Allocator;
use capnp_frame::message::ReaderSegments;
use capnp_frame::serialize::{is_writable, write_segments};
use capnp_frame::{ErrorKind, Result};
use capnp_frame_tests::limits::NO_LIMIT;
use capnp_frame_tests::retried;
use capnp_message::{Builder, ScratchSpaceHeapAllocator, SingleSegmentAllocator};
use capnp_object_tests::arenas::kind_of;
use capnp_object_tests::messages::reader_of;
use capnp_object_tests::trees::shared_lists;
use std::alloc::Global;
use std::process::Abort;

const LONG: &str = "a text of more words than the region has";

// Why a root is not set to a text; again where the list of segments could not grow.
fn error_of_root<A: Allocator>(message: &mut Builder<A>, text: &str) -> Option<ErrorKind> {
    match kind_of(set_text(message, text)) {
        Some(ErrorKind::OutOfMemory) => kind_of(set_text(message, text)),
        other => other,
    }
}

// "hello" is in two words after its root; "Hello, World!" does not fit after it.
#[test]
fn a_single_region_comes_home(rt: HostRuntime) {
    let mut region = [7; 24];
    let mut single = SingleSegmentAllocator::new(&mut region);
    let mut message = Builder::new(rt.alloc(), &mut single);
    assert!(rt; set_text(&mut message, "hello").is_ok());
    let errors = [
        error_of_root(&mut message, "Hello, World!"),
        kind_of(set_canonical_text(&mut message, "Hello, World!")),
        error_of_root(&mut message, LONG),
    ];
    let wanted = [
        Some(ErrorKind::SegmentTaken),
        Some(ErrorKind::NotOneSegment),
        Some(ErrorKind::AllocationTooLarge(7)),
    ];
    expect(&rt, "a text, canonical, and a long one", errors, wanted);
    drop(message);
    drop(single);
    expect_zeros(&rt, "the region", &region);
}

// A scratch region that has too little room left for the text serves for the root alone, also where
// it is large enough for the segment that is asked for, since it is out.
#[test]
fn a_scratch_region_comes_home(rt: HostRuntime) -> Result<()> {
    retried!(set_past_a_region(&rt, 16))?;
    retried!(set_past_a_region(&rt, 56))
}

// Of the bytes of a region there are 56 at most.
fn set_past_a_region(rt: &(impl Abort + AllocGlobal), bytes: usize) -> Result<()> {
    let mut region = [7; 56];
    let region = &mut region[..bytes.min(56)];
    let mut scratch = ScratchSpaceHeapAllocator::new(rt.alloc(), region);
    let mut message = Builder::new(rt.alloc(), &mut scratch);
    set_text(&mut message, "hello")?;
    // The list of segments and the heap's segment are made, or one of them fails.
    if let Some(kind) = kind_of(set_text(&mut message, LONG)) {
        assert!(rt; kind == ErrorKind::OutOfMemory);
        expect_segments(rt, "the root's segment", &message, &[&[0; 16]]);
        set_text(&mut message, LONG)?;
    }
    expect(rt, "the text", text_of(&message)?, LONG.as_bytes());
    drop(message);
    drop(scratch);
    expect_zeros(rt, "the region", region);
    Ok(())
}

// What fails with 15 or with 24 leaves a region zero, too.
#[test]
fn a_region_after_a_message_that_is_too_large(rt: HostRuntime) -> Result<()> {
    retried!(set_what_is_too_large(&rt))
}

fn set_what_is_too_large(rt: &(impl Abort + AllocGlobal)) -> Result<()> {
    let bytes = shared_lists(rt.alloc())?;
    let segments = [bytes.as_slice()];
    let reader = reader_of(&segments, NO_LIMIT);
    let mut region = [7; 32];
    let mut scratch = ScratchSpaceHeapAllocator::new(rt.alloc(), &mut region);
    let mut message = Builder::new(rt.alloc(), &mut scratch);
    set_text(&mut message, "hello")?;
    let errors = [
        kind_of(set_canonical(&mut message, &reader)),
        kind_of(set(&mut message, &reader)),
    ];
    let wanted = [
        Some(ErrorKind::CanonicalTooLarge),
        Some(ErrorKind::AllocationTooLarge(536936448)),
    ];
    expect(rt, "canonical, and untrimmed", errors, wanted);
    expect_segments(rt, "the root's segment", &message, &[&[0; 16]]);
    drop(message);
    drop(scratch);
    expect_zeros(rt, "the region", &region);
    Ok(())
}

const HELLO: &[u8] = b"\x01\0\0\0\x72\0\0\0Hello, World!\0\0\0";

const FRAMED: &[u8] = b"\0\0\0\0\x03\0\0\0\x01\0\0\0\x72\0\0\0Hello, World!\0\0\0";

// Over a region that has room a builder takes no memory, nor does what is read of it.
#[test]
fn a_region_with_room(rt: HostRuntime) -> Result<()> {
    let mut region = [7; 32];
    let mut single = SingleSegmentAllocator::new(&mut region);
    let mut message = Builder::new(rt.alloc(), &mut single);
    assert!(rt; message.is_empty());
    set_canonical_text(&mut message, "Hello, World!")?;
    expect(&rt, "words", message.size_in_words(), 3);
    expect_hello(&rt, &message)?;
    let reader = message.into_reader();
    assert!(rt; reader.is_canonical()?);
    drop(reader);
    drop(single);
    expect_zeros(&rt, "the region", &region);
    Ok(())
}

fn expect_hello<A: Allocator>(rt: &impl Abort, message: &Builder<A>) -> Result<()> {
    expect(
        rt,
        "the text",
        text_of(message)?,
        b"Hello, World!".as_slice(),
    );
    expect_segments(rt, "the segment", message, &[HELLO]);
    Ok(())
}

// Nor does what is written of it.
#[test]
fn a_region_that_is_written(rt: HostRuntime) -> Result<()> {
    let mut region = [7; 32];
    let mut message = Builder::new(rt.alloc(), SingleSegmentAllocator::new(&mut region));
    set_canonical_text(&mut message, "Hello, World!")?;
    let mut framed = [9; 32];
    assert!(rt; write_framed(rt.alloc(), &mut framed, &message)?);
    expect(&rt, "framed", framed.as_slice(), FRAMED);
    Ok(())
}

// Writes a message's segments, and returns whether they fill the room.
fn write_framed<A: Allocator>(
    alloc: Global,
    room: &mut [u8],
    message: &Builder<A>,
) -> Result<bool> {
    let output = message.get_segments_for_output();
    if !is_writable(&output) {
        return Ok(false);
    }
    let mut left = room;
    write_segments(alloc, &mut left, &output)?;
    Ok(left.is_empty())
}
