//! The callers that build a root and read it back, by the words that the segment then has.
use crate::fixtures::expect;
use capnp::Result;
use capnp::message::{Builder, HeapAllocator};
use capnp_frame_tests::messages::has_segments;
use capnp_uses::building::{
    a_struct_is_read_back, data_is_read_back, null_is_read_back, numbers_are_read_back,
    text_is_read_back,
};
use std::alloc::Global;

// A root that a caller builds.
#[derive(Clone, Copy, Debug)]
enum Root {
    Text,
    Data,
    Numbers,
    Struct,
    Null,
    // A struct, and null after it.
    Cleared,
}

// Roots, and the segment that is left of them.
#[rattlefmt::skip]
const ROOTS: [(Root, &[u8]); 6] = [
    (Root::Text, b"\x01\0\0\0\x32\0\0\0hello\0\0\0"),
    (Root::Data, b"\x01\0\0\0\x2a\0\0\0hello\0\0\0"),
    (Root::Numbers, b"\x01\0\0\0\x15\0\0\0\x0a\0\0\0\0\0\0\0\x14\0\0\0\0\0\0\0"),
    (Root::Struct, b"\0\0\0\0\x02\0\0\0\x0a\0\0\0\0\0\0\0\x14\0\0\0\0\0\0\0"),
    (Root::Null, &[0; 8]),
    (Root::Cleared, &[0; 24]),
];

#[test]
fn the_words_of_each_root(rt: HostRuntime) -> Result<()> {
    for (root, segment) in &ROOTS {
        let mut message = Builder::new_default(rt.alloc());
        build(rt.alloc(), &mut message, *root)?;
        expect(&rt, *root, has_segments(&message, &[*segment]), true);
    }
    Ok(())
}

// What is read back contracts say.
fn build(alloc: Global, message: &mut Builder<HeapAllocator>, root: Root) -> Result<()> {
    match root {
        Root::Text => {
            text_is_read_back(alloc, message, b"hello")?;
        }
        Root::Data => {
            data_is_read_back(alloc, message, b"hello")?;
        }
        Root::Numbers => {
            numbers_are_read_back(alloc, message, 10, 20)?;
        }
        Root::Struct => {
            a_struct_is_read_back(message, 10, 20)?;
        }
        Root::Null => {
            null_is_read_back(message)?;
        }
        Root::Cleared => {
            a_struct_is_read_back(message, 10, 20)?;
            null_is_read_back(message)?;
        }
    }
    Ok(())
}
