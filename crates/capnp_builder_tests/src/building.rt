//! Messages that these tests build: each call that sets a root, or reads it, in one place.
use crate::fixtures::expect;
use capnp_build::allocator::Allocator;
use capnp_build::owned_builder::OwnedBuilder;
use capnp_build::{any_pointer, primitive_list};
use capnp_frame::Result;
use capnp_frame::message::ReaderSegments;
use capnp_frame_tests::errors::allocation_error;
use capnp_frame_tests::messages::has_segments;
use capnp_message::{Builder, HeapAllocator};
use capnp_wire::text;
use std::alloc::Global;
use std::process::Abort;

/// A message whose first segment has room for the root's word alone.
pub fn far_message(alloc: Global) -> Builder<HeapAllocator> {
    let heap = HeapAllocator::new(alloc).first_segment_words(1);
    Builder::new(alloc, heap)
}

pub fn set_text<A: Allocator>(message: &mut Builder<A>, text: &str) -> Result<()> {
    message.set_root::<text::Owned, &str>(text)
}

pub fn set_canonical_text<A: Allocator>(message: &mut Builder<A>, text: &str) -> Result<()> {
    message.set_root_canonical::<text::Owned, &str>(text)
}

/// Makes a list of a given number of words the root.
pub fn init_words<A: Allocator>(message: &mut Builder<A>, count: u32) -> Result<()> {
    message.initn_root::<primitive_list::Owned<u64>>(count)?;
    Ok(())
}

/// What the root's builder says of it.
pub fn is_null_root<A: Allocator>(message: &mut Builder<A>) -> Result<bool> {
    let root = message.get_root::<any_pointer::Owned>()?;
    Ok(root.is_null())
}

/// The error of a new object at the root.
pub fn init_error<K: OwnedBuilder, A: Allocator>(
    message: &mut Builder<A>,
    length: u32,
) -> (u8, u32) {
    allocation_error(message.initn_root::<K>(length))
}

/// The text that is read at the root.
pub fn text_of<A: Allocator>(message: &Builder<A>) -> Result<&[u8]> {
    let text: text::Reader<'_> = message.get_root_as_reader()?;
    Ok(text.as_bytes())
}

/// Whether the root is null, and its word alone is used.
pub fn is_null_word<A: Allocator>(message: &Builder<A>) -> bool {
    message.size_in_words() == 1 && has_segments(message, &[&[0; 8]])
}

/// These are the segments of a message.
pub fn expect_segments<S: ReaderSegments>(
    rt: &impl Abort,
    case: &str,
    message: &S,
    wanted: &[&[u8]],
) {
    assert!(rt;
        has_segments(message, wanted),
        "at {case}: other segments than {wanted:?}"
    );
}

/// A region that was given back is zero.
pub fn expect_zeros(rt: &impl Abort, case: &str, region: &[u8]) {
    expect(rt, case, region.iter().all(|byte| *byte == 0), true);
}
