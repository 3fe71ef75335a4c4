//! Packed messages that fail when they are skipped.
use crate::fixtures::expect;
use crate::readers::is_skipped;
use capnp::streams::Format;
use capnp_frame::serialize::Padding;
use capnp_frame::{ErrorKind, Result};
use capnp_frame_tests::errors::kind_of;
use capnp_frame_tests::retried;
use capnp_frame_tests::sources::Trickle;
use std::process::Abort;

// What a message fails by, and how many of its bytes stay unread. No clause says how many.
#[rattlefmt::skip]
const FAILING: [(&str, &[u8], ErrorKind, usize); 14] = [
    ("a tag", &[0x10], ErrorKind::PrematureEndOfPackedInput, 0),
    ("the table's second word is missing", &[1, 1], ErrorKind::FailedToFillTheWholeBuffer, 0),
    ("the table's second word is cut", &[1, 1, 0x11, 1], ErrorKind::PrematureEndOfPackedInput, 0),
    ("two words, none there", &[0x10, 2], ErrorKind::FailedToFillTheWholeBuffer, 0),
    ("two words, one there", &[0x10, 2, 1, 7], ErrorKind::PrematureEndOfPackedInput, 0),
    ("two words, the second cut", &[0x10, 2, 1, 7, 3, 5], ErrorKind::PrematureEndOfPackedInput, 0),
    ("no count of zero words", &[0x10, 2, 0], ErrorKind::PrematureEndOfPackedInput, 0),
    ("no count of literal words", &[0x10, 2, 0xff, 1, 2, 3, 4, 5, 6, 7, 8],
     ErrorKind::PrematureEndOfPackedInput, 0),
    ("a literal run that is cut", &[0x10, 2, 0xff, 1, 2, 3, 4, 5, 6, 7, 8, 1, 9, 10],
     ErrorKind::FailedToFillTheWholeBuffer, 0),
    ("a run past the table's first word", &[0, 1, 7],
     ErrorKind::PackedInputDidNotEndCleanlyOnASegmentBoundary, 1),
    ("a run past the table's second word", &[1, 1, 0, 3, 7],
     ErrorKind::PackedInputDidNotEndCleanlyOnASegmentBoundary, 1),
    ("a zero run past the end", &[0x10, 2, 0, 2, 7],
     ErrorKind::PackedInputDidNotEndCleanlyOnASegmentBoundary, 1),
    ("a zero run past the end, after a word", &[0x10, 2, 1, 7, 0, 1, 5, 5],
     ErrorKind::PackedInputDidNotEndCleanlyOnASegmentBoundary, 2),
    ("a literal run past the end", &[0x10, 2, 0xff, 1, 2, 3, 4, 5, 6, 7, 8, 2, 9, 9, 9],
     ErrorKind::PackedInputDidNotEndCleanlyOnASegmentBoundary, 3),
];

#[test]
fn messages_fail(rt: HostRuntime) -> Result<()> {
    retried!(skip_failing(&rt))
}

fn skip_failing(rt: &(impl Abort + AllocGlobal)) -> Result<()> {
    for (name, encoding, kind, unread) in &FAILING {
        for most in 1..=24 {
            let mut source = Trickle::new(encoding, most);
            let call = (Format::Packed, Padding::Zero);
            let returned = kind_of(is_skipped(rt.alloc(), call, &mut source))?;
            expect(
                rt,
                (*name, most),
                (returned, source.bytes.len()),
                (Some(*kind), *unread),
            );
        }
    }
    Ok(())
}
