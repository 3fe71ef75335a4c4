//! Lengths of segments, and segments and words of these lengths, where memory is there.
use crate::fixtures::expect;
use capnp_frame::serialize::SegmentLengthsBuilder;
use capnp_frame::{Result, Word};
use capnp_frame_tests::failed_allocations::is_out_of_memory;
use capnp_frame_tests::retried;
use std::alloc::Global;
use std::process::Abort;

const LENGTHS: [&[usize]; 3] = [&[], &[1, 0, 2], &[9]];

#[test]
fn segments_and_words_are_made(rt: HostRuntime) -> Result<()> {
    for lengths in &LENGTHS {
        retried!(make(rt.alloc(), lengths))?;
    }
    Ok(())
}

// What is in them contracts say.
fn make(alloc: Global, lengths: &[usize]) -> Result<()> {
    let mut pushed = SegmentLengthsBuilder::with_capacity(alloc, lengths.len())?;
    for length in lengths {
        pushed.try_push_segment(*length)?;
    }
    Word::allocate_zeroed_vec(alloc, pushed.total_words())?;
    pushed.into_owned_segments()?;
    Ok(())
}

#[test]
fn a_failed_length_is_not_added(rt: HostRuntime) -> Result<()> {
    retried!(push_after_three(&rt))
}

// There is room for the first length, and the second grows.
fn push_after_three(rt: &(impl Abort + AllocGlobal)) -> Result<()> {
    let mut lengths = SegmentLengthsBuilder::with_capacity(rt.alloc(), 1)?;
    assert!(rt; lengths.try_push_segment(3).is_ok());
    let pushed = lengths.try_push_segment(5);
    let wanted = if pushed.is_ok() { 8 } else { 3 };
    expect(rt, "3 and 5 words", lengths.total_words(), wanted);
    assert!(rt; pushed.is_ok() || is_out_of_memory(&pushed));
    Ok(())
}
