//! Failed allocations of a builder.
//!
//! A builder over a heap takes memory for each of its segments, and from the second on for the list
//! of them. `rt try --test --fail-alloc N` makes the Nth allocation fail: then the call returns
//! `OutOfMemory`, the root is null with no word taken but its own, and the same call succeeds when
//! it is made again.
use crate::building::{
    expect_segments, far_message, init_words, is_null_root, set_canonical_text, set_text,
};
use crate::fixtures::expect;
use capnp_build::allocator::Allocator;
use capnp_build::{any_pointer, primitive_list};
use capnp_frame::Result;
use capnp_frame::message::ReaderSegments;
use capnp_frame_tests::failed_allocations::is_out_of_memory;
use capnp_frame_tests::retried;
use capnp_message::{Builder, HeapAllocator, SingleSegmentAllocator};
use capnp_wire::text;
use std::process::Abort;

// A call that takes memory.
#[derive(Clone, Copy)]
enum Call<'a> {
    SetText(&'a str),
    InitWords(u32),
    SetCanonicalText(&'a str),
    LookAtRoot,
}

fn make<A: Allocator>(message: &mut Builder<A>, call: Call<'_>) -> Result<()> {
    match call {
        Call::SetText(text) => set_text(message, text),
        Call::InitWords(count) => init_words(message, count),
        Call::SetCanonicalText(text) => set_canonical_text(message, text),
        Call::LookAtRoot => {
            is_null_root(message)?;
            Ok(())
        }
    }
}

// The root is null, also where there is no segment yet.
fn is_null<A: Allocator>(message: &Builder<A>) -> bool {
    match message.get_segment(0) {
        Some(segment) => segment.starts_with(&[0; 8]),
        None => true,
    }
}

// Makes a call, and again where it fails. What a failed call leaves are the words that were used
// before, or the root's own; a look and a canonical form leave none but the words before.
fn make_in_the_end<A: Allocator>(
    rt: &impl Abort,
    message: &mut Builder<A>,
    call: Call<'_>,
) -> Result<()> {
    let words = message.size_in_words();
    let returned = make(message, call);
    if returned.is_ok() {
        return returned;
    }
    assert!(rt; is_out_of_memory(&returned));
    let most = match call {
        Call::SetText(_) | Call::InitWords(_) => words.max(1),
        Call::SetCanonicalText(_) | Call::LookAtRoot => words,
    };
    assert!(rt; is_null(message) && message.size_in_words() <= most);
    make(message, call)
}

const HELLO: &[u8] = b"\x01\0\0\0\x72\0\0\0Hello, World!\0\0\0";

#[test]
fn a_failed_root_is_set_later(rt: HostRuntime) -> Result<()> {
    let mut message = Builder::new_default(rt.alloc());
    make_in_the_end(&rt, &mut message, Call::SetText("Hello, World!"))?;
    expect(&rt, "words", message.size_in_words(), 3);
    expect_segments(&rt, "the segment", &message, &[HELLO]);
    Ok(())
}

const FAR: &[u8] = b"\x02\0\0\0\x01\0\0\0";

const PADDED: &[u8] = b"\x01\0\0\0\x6a\0\0\0hello world!\0\0\0\0";

// The text has a segment of its own, and so has each list after it.
#[test]
fn failed_segments_are_taken_later(rt: HostRuntime) -> Result<()> {
    let mut message = far_message(rt.alloc());
    make_in_the_end(&rt, &mut message, Call::SetText("hello world!"))?;
    expect(&rt, "words", message.size_in_words(), 4);
    expect_segments(&rt, "the segments", &message, &[FAR, PADDED]);
    for segment in 2..9 {
        let words = message.size_in_words();
        let count: u32 = 40 << segment;
        make_in_the_end(&rt, &mut message, Call::InitWords(count))?;
        let taken = message.size_in_words().checked_sub(words);
        expect(&rt, segment, taken, Some(count as usize + 1));
        assert!(rt; message.get_segment(segment).is_some());
    }
    Ok(())
}

#[test]
fn a_failed_look_is_made_later(rt: HostRuntime) -> Result<()> {
    let mut message = Builder::new_default(rt.alloc());
    make_in_the_end(&rt, &mut message, Call::LookAtRoot)?;
    assert!(rt; is_null_root(&mut message)?);
    expect(&rt, "words", message.size_in_words(), 1);
    Ok(())
}

#[test]
fn a_failed_canonical_root_is_set_later(rt: HostRuntime) -> Result<()> {
    let mut message = Builder::new_default(rt.alloc());
    make_in_the_end(&rt, &mut message, Call::SetCanonicalText("hello"))?;
    expect(&rt, "words", message.size_in_words(), 2);
    Ok(())
}

// The same through the root's builder, whose own word is taken first.
#[test]
fn a_failed_root_builder_sets_later(rt: HostRuntime) -> Result<()> {
    let mut message = far_message(rt.alloc());
    assert!(rt; retried!(is_null_root(&mut message))?);
    let mut root: any_pointer::Builder<'_, Builder<HeapAllocator>> = message.get_root::<
        any_pointer::Owned,
    >()?;
    let returned = root.set_as::<text::Owned, &str>("hello world!");
    if returned.is_err() {
        assert!(rt; is_out_of_memory(&returned) && root.is_null());
        root.set_as::<text::Owned, &str>("hello world!")?;
    }
    expect(&rt, "words", root.target_size()?.word_count, 2);
    Ok(())
}

// Makes a list of words the root through the root's builder.
fn init_at_root<A: Allocator>(message: &mut Builder<A>, count: u32) -> Result<()> {
    message
        .get_root::<any_pointer::Owned>()?
        .initn_as::<primitive_list::Owned<u64>>(count)?;
    Ok(())
}

// Over one region a builder takes none, while its block fits.
#[test]
fn one_region_takes_no_memory(rt: HostRuntime) -> Result<()> {
    let mut region = [7; 56];
    let mut message = Builder::new(rt.alloc(), SingleSegmentAllocator::new(&mut region));
    set_text(&mut message, "hello")?;
    set_canonical_text(&mut message, "hello")?;
    init_at_root(&mut message, 4)?;
    expect(&rt, "words", message.size_in_words(), 7);
    Ok(())
}
