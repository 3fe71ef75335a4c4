//! What errors are printed as.
use crate::fixtures::expect;
use capnp_frame::{Error, ErrorKind, Result};
use capnp_frame_tests::retried;
use std::process::Abort;

#[rattlefmt::skip]
const SENTENCES: [(ErrorKind, &[u8]); 26] = [
    (ErrorKind::FailedToFillTheWholeBuffer, b"FailedToFillTheWholeBuffer"),
    (ErrorKind::BufferNotLargeEnough, b"BufferNotLargeEnough"),
    (ErrorKind::EmptyBuffer, b"EmptyBuffer"),
    (ErrorKind::EmptySlice, b"EmptySlice"),
    (ErrorKind::InvalidNumberOfSegments(4294967296), b"InvalidNumberOfSegments(4294967296)"),
    (ErrorKind::MessageEndsPrematurely(4, 0), b"MessageEndsPrematurely(4, 0)"),
    (ErrorKind::MessageSizeOverflow, b"MessageSizeOverflow"),
    (ErrorKind::MessageTooLarge(4294967297), b"MessageTooLarge(4294967297)"),
    (ErrorKind::PrematureEndOfFile, b"PrematureEndOfFile"),
    (ErrorKind::PrematureEndOfPackedInput, b"PrematureEndOfPackedInput"),
    (ErrorKind::PackedInputDidNotEndCleanlyOnASegmentBoundary,
     b"PackedInputDidNotEndCleanlyOnASegmentBoundary"),
    (ErrorKind::OutOfMemory, b"OutOfMemory"),
    (ErrorKind::DeviceFailed, b"DeviceFailed"),
    (ErrorKind::NotWholeWords, b"NotWholeWords"),
    (ErrorKind::AllocationTooLarge(3), b"AllocationTooLarge(3)"),
    (ErrorKind::SegmentTaken, b"SegmentTaken"),
    (ErrorKind::PointerOutOfBounds, b"PointerOutOfBounds"),
    (ErrorKind::InvalidSegmentId(0), b"InvalidSegmentId(0)"),
    (ErrorKind::NestingLimitExceeded, b"NestingLimitExceeded"),
    (ErrorKind::ReadLimitExceeded, b"ReadLimitExceeded"),
    (ErrorKind::CapabilityRefused, b"CapabilityRefused"),
    (ErrorKind::WrongPointerKind, b"WrongPointerKind"),
    (ErrorKind::TextNotTerminated, b"TextNotTerminated"),
    (ErrorKind::CanonicalTooLarge, b"CanonicalTooLarge"),
    (ErrorKind::NotOneSegment, b"NotOneSegment"),
    (ErrorKind::NonZeroPadding, b"NonZeroPadding"),
];

#[test]
fn sentences(rt: HostRuntime) -> Result<()> {
    retried!(print_each(&rt))
}

fn print_each(rt: &(impl Abort + AllocGlobal)) -> Result<()> {
    for (kind, sentence) in &SENTENCES {
        let printed = format!(in rt.alloc(); "{}", Error::from_kind(*kind))?;
        expect(rt, *kind, printed.as_bytes(), *sentence);
    }
    Ok(())
}
