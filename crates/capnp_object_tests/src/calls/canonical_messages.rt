//! Canonical forms of messages.
use crate::fixtures::expect;
use capnp_frame::Result;
use capnp_frame::message::{ReaderOptions, SegmentArray};
use capnp_message::laws::canonicalize_twice;

const HELLO_FAR: [&[u8]; 2] = [
    b"\x02\0\0\0\x01\0\0\0",
    b"\x01\0\0\0\x6a\0\0\0hello world!\0\0\0\0",
];

#[test]
fn canonical_twice(rt: HostRuntime) -> Result<()> {
    let returned = canonicalize_twice(
        rt.alloc(),
        SegmentArray::new(&HELLO_FAR),
        ReaderOptions::new(),
    )?;
    let words = [returned.words.len(), returned.again.len()];
    expect(&rt, "words", words, [3, 3]);
    Ok(())
}
