//! What builders ask of their allocators: a call that needs a segment asks for it before it fails.
use crate::building::{init_words, is_null_word};
use crate::fixtures::expect;
use crate::watched::Watched;
use capnp_frame::{ErrorKind, Result};
use capnp_message::builder::Builder;
use capnp_object_tests::arenas::kind_of;
use std::process::Abort;

const NO_MEMORY: Option<ErrorKind> = Some(ErrorKind::OutOfMemory);

// A list that finds no room after the root's word. Its segment, the second one, is asked for, and
// where that fails the root is null.
fn expect_asked(rt: &(impl Abort + AllocGlobal), words: u32) {
    let mut allocator = Watched::new(rt.alloc(), 1, 2);
    let mut message = Builder::new(rt.alloc(), &mut allocator);
    let failed = kind_of(init_words(&mut message, words));
    expect(
        rt,
        words,
        (failed, is_null_word(&message)),
        (NO_MEMORY, true),
    );
    drop(message);
    let asked = (allocator.requests, allocator.last);
    expect(rt, words, asked, (2, words.saturating_add(1)));
}

#[test]
fn a_second_segment_is_asked_for(rt: HostRuntime) {
    for words in &[1, 2, 63, 1024, 4096, 70_000, (1 << 29) - 1] {
        expect_asked(&rt, *words);
    }
}

// Longer and longer lists, each in a further segment, until one fails.
#[test]
fn each_further_segment_is_asked_for(rt: HostRuntime) -> Result<()> {
    let mut allocator = Watched::new(rt.alloc(), 1, 71);
    let mut message = Builder::new(rt.alloc(), &mut allocator);
    for words in 1..70 {
        init_words(&mut message, words)?;
    }
    let failed = kind_of(init_words(&mut message, 70));
    expect(&rt, "fails", failed, NO_MEMORY);
    drop(message);
    let asked = (allocator.requests, allocator.last);
    expect(&rt, "asked", asked, (71, 71));
    Ok(())
}
