//! What builders give back to their allocators: each segment once, with the words that were used of
//! it.
use crate::building::{init_words, is_null_root, set_text};
use crate::fixtures::expect;
use crate::watched::Watched;
use capnp_build::allocator::Allocator;
use capnp_frame::Result;
use capnp_message::builder::Builder;
use capnp_wire::text;
use std::alloc::Global;
use std::process::Abort;

// Segments of eight words, or as many as are asked.
fn noting_heap(alloc: Global) -> Watched {
    Watched::new(alloc, 8, 0)
}

// Five roots, one after the other. In the first segment the root's word and texts of two words and
// of one are used. Then, after its landing pad each, a list of five words is in another segment,
// and one of nine in a third; at last another word is used in the first.
fn build<A: Allocator>(message: &mut Builder<A>) -> Result<()> {
    set_text(message, "Hello, World!")?;
    set_text(message, "hello")?;
    init_words(message, 5)?;
    init_words(message, 9)?;
    set_text(message, "hello")
}

const BACK: [(usize, u32); 3] = [(8, 5), (8, 6), (10, 10)];

fn assert_given_back(rt: &impl Abort, allocator: &Watched, wanted: &[(usize, u32)]) {
    let counts = (allocator.requests as usize, allocator.back.len());
    expect(rt, "how many", counts, (wanted.len(), wanted.len()));
    for segment in wanted {
        expect(rt, *segment, allocator.back.contains(segment), true);
    }
}

// A message that is dropped.
#[test]
fn each_segment_comes_back(rt: HostRuntime) -> Result<()> {
    let mut allocator = noting_heap(rt.alloc());
    let mut message = Builder::new(rt.alloc(), &mut allocator);
    build(&mut message)?;
    drop(message);
    assert_given_back(&rt, &allocator, &BACK);
    Ok(())
}

// One that is read and dropped.
#[test]
fn each_segment_comes_back_from_a_reader(rt: HostRuntime) -> Result<()> {
    let mut allocator = noting_heap(rt.alloc());
    let mut message = Builder::new(rt.alloc(), &mut allocator);
    build(&mut message)?;
    let reader = message.into_reader();
    let text: text::Reader<'_> = reader.get_root()?;
    expect(&rt, "the text", text.as_bytes(), b"hello".as_slice());
    drop(reader);
    assert_given_back(&rt, &allocator, &BACK);
    Ok(())
}

// One whose allocator is taken.
#[test]
fn each_segment_comes_back_with_the_allocator(rt: HostRuntime) -> Result<()> {
    let mut message = Builder::new(rt.alloc(), noting_heap(rt.alloc()));
    build(&mut message)?;
    expect(&rt, "words", message.size_in_words(), 21);
    assert_given_back(&rt, &message.into_allocator(), &BACK);
    Ok(())
}

// From a message of no segments none comes back; where only the root was looked at, its word was
// used.
#[test]
fn little_comes_back(rt: HostRuntime) -> Result<()> {
    let mut allocator = noting_heap(rt.alloc());
    drop(Builder::new(rt.alloc(), &mut allocator));
    assert_given_back(&rt, &allocator, &[]);
    let mut message = Builder::new(rt.alloc(), &mut allocator);
    assert!(rt; is_null_root(&mut message)?);
    drop(message);
    assert_given_back(&rt, &allocator, &[(8, 1)]);
    Ok(())
}
