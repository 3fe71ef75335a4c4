//! The callers that set a root to what another message holds, by the words that the segment then
//! has.
use crate::fixtures::{Message, expect, message_of, roomy_message};
use capnp::Result;
use capnp::message::{Builder, HeapAllocator, ReaderOptions};
use capnp_frame_tests::messages::has_segments;
use capnp_uses::roots::{copy_root, set_text_is_read_back};
use capnp_uses::setting::{set_canonical, set_tree, set_tree_and_word};
use std::alloc::Global;

// A struct of two data words, the last one zero, and a text, after a far pointer: with the landing
// pad five words are counted against the traversal limit.
const FAR: &[&[u8]] = &[
    b"\x02\0\0\0\x01\0\0\0",
    b"\0\0\0\0\x02\0\x01\0\x07\0\0\0\0\0\0\0\0\0\0\0\0\0\0\0\x05\0\0\0\x12\0\0\0\xff\0\0\0\0\0\0\0A\0\0\0\0\0\0\0",
];

// A struct of two pointers to one list of a bit: as a tree each has its own.
const SHARED: &[&[u8]] = &[
    b"\0\0\0\0\0\0\x02\0\x04\0\0\0\x01\0\0\0\0\0\0\0\x01\0\0\0\x09\0\0\0\0\0\0\0",
];

const NULL: &[&[u8]] = &[b"\0\0\0\0\0\0\0\0"];

// Segments; the segment of a root that is set to theirs, the same with a first data word of 9, and
// the canonical form.
#[rattlefmt::skip]
const FORMS: [(&[&[u8]], [&[u8]; 3]); 3] = [
    (FAR, [
        b"\0\0\0\0\x02\0\x01\0\x07\0\0\0\0\0\0\0\0\0\0\0\0\0\0\0\x01\0\0\0\x12\0\0\0A\0\0\0\0\0\0\0",
        b"\0\0\0\0\x02\0\x01\0\x09\0\0\0\0\0\0\0\0\0\0\0\0\0\0\0\x01\0\0\0\x12\0\0\0A\0\0\0\0\0\0\0",
        b"\0\0\0\0\x01\0\x01\0\x07\0\0\0\0\0\0\0\x01\0\0\0\x12\0\0\0A\0\0\0\0\0\0\0",
    ]),
    (SHARED, [
        b"\0\0\0\0\0\0\x02\0\x04\0\0\0\x01\0\0\0\x04\0\0\0\x01\0\0\0\x09\0\0\0\0\0\0\0\x09\0\0\0\0\0\0\0",
        b"\0\0\0\0\0\0\x02\0\x04\0\0\0\x01\0\0\0\x04\0\0\0\x01\0\0\0\x09\0\0\0\0\0\0\0\x09\0\0\0\0\0\0\0",
        b"\0\0\0\0\0\0\x02\0\x04\0\0\0\x01\0\0\0\x04\0\0\0\x01\0\0\0\x09\0\0\0\0\0\0\0\x09\0\0\0\0\0\0\0",
    ]),
    (NULL, [&[0; 8], &[0; 8], &[0; 8]]),
];

// How a root is set to the root of another message.
#[derive(Clone, Copy, Debug)]
enum Way {
    Untrimmed,
    WithAWord,
    Canonical,
    // Untrimmed, from the message.
    Copied,
}

// The ways, with which of the forms each makes.
const WAYS: [(Way, usize); 4] = [
    (Way::Untrimmed, 0),
    (Way::WithAWord, 1),
    (Way::Canonical, 2),
    (Way::Copied, 0),
];

// A new message whose root is set.
fn set(alloc: Global, reader: &Message<'_>, way: Way) -> Result<Builder<HeapAllocator>> {
    let mut message = Builder::new_default(alloc);
    match way {
        Way::Untrimmed => set_tree(&mut message, reader.get_root()?)?,
        Way::WithAWord => set_tree_and_word(&mut message, reader.get_root()?, 9)?,
        Way::Canonical => set_canonical(&mut message, reader.get_root()?)?,
        Way::Copied => copy_root(&mut message, reader)?,
    }
    Ok(message)
}

#[test]
fn roots_of_other_messages(rt: HostRuntime) -> Result<()> {
    for (segments, forms) in &FORMS {
        let reader = message_of(segments, ReaderOptions::new());
        for (way, form) in &WAYS {
            let message = set(rt.alloc(), &reader, *way)?;
            let wanted = forms[*form % 3];
            expect(&rt, (*way, wanted), has_segments(&message, &[wanted]), true);
        }
    }
    Ok(())
}

// The first segment has room for the root's word alone.
#[test]
fn a_text_is_read_back(rt: HostRuntime) -> Result<()> {
    let mut message = roomy_message(rt.alloc(), 1);
    assert!(rt; set_text_is_read_back(&mut message, "hello")?);
    Ok(())
}
