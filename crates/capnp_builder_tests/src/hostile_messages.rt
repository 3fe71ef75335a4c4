//! Canonical words of hostile messages, and new messages whose root is set to theirs.
use crate::fixtures::expect;
use capnp_build::allocator::Allocator;
use capnp_frame::message::{ReaderSegments, SegmentArray};
use capnp_frame::{ErrorKind, Result};
use capnp_frame_tests::errors::kind_of;
use capnp_frame_tests::limits::{DEFAULT_LIMIT, NO_LIMIT};
use capnp_frame_tests::messages::has_segments;
use capnp_frame_tests::retried;
use capnp_message::{Builder, HeapAllocator};
use capnp_object_tests::messages::{Source, reader_of};
use capnp_object_tests::trees::{doublings, shared_lists};
use capnp_wire::any_pointer;
use std::process::Abort;

/// Sets the root of a message to the root of another one.
pub fn set<A: Allocator>(message: &mut Builder<A>, reader: &Source<'_>) -> Result<()> {
    let root: any_pointer::Reader<'_, SegmentArray<'_>> = reader.get_root()?;
    message.set_root::<any_pointer::Owned, any_pointer::Reader<'_, SegmentArray<'_>>>(root)
}

/// Sets it to the canonical form of the other one's root.
pub fn set_canonical<A: Allocator>(message: &mut Builder<A>, reader: &Source<'_>) -> Result<()> {
    let root: any_pointer::Reader<'_, SegmentArray<'_>> = reader.get_root()?;
    message.set_root_canonical::<any_pointer::Owned, any_pointer::Reader<'_, SegmentArray<'_>>>(
        root,
    )
}

// Whether the one word of the message is a null root; where there was no root to set, there is none.
fn is_null<A: Allocator>(message: &Builder<A>) -> bool {
    message.is_empty() || message.size_in_words() == 1 && has_segments(message, &[&[0; 8]])
}

// Messages that fail: by `canonicalize`, by `set_root`, and by `set_root_canonical`.
fn assert_failure(
    rt: &(impl Abort + AllocGlobal),
    segments: &[&[u8]],
    limit: Option<usize>,
    [canonical, untrimmed, in_canonical_form]: [ErrorKind; 3],
) -> Result<()> {
    let alloc = rt.alloc();
    let reader = reader_of(segments, limit);
    let found = kind_of(reader.canonicalize(alloc))?;
    expect(rt, segments, found, Some(canonical));
    let mut message: Builder<HeapAllocator> = Builder::new_default(alloc);
    let found = kind_of(set(&mut message, &reader))?;
    expect(rt, segments, found, Some(untrimmed));
    assert!(rt; is_null(&message));
    let found = kind_of(set_canonical(&mut message, &reader))?;
    expect(rt, segments, found, Some(in_canonical_form));
    assert!(rt; is_null(&message));
    Ok(())
}

const LIMITED: ErrorKind = ErrorKind::ReadLimitExceeded;

const TOO_LARGE: ErrorKind = ErrorKind::CanonicalTooLarge;

// A tree of 2^40 - 1 structs in 81 words ends at the limit. At the default one, of 8,388,608 words,
// it does in a fraction of a second (tools/fuzz), but takes a minute in a build with checks: there
// each struct has 256 words.
#[test]
fn doublings_end_at_the_limit(rt: HostRuntime) -> Result<()> {
    retried!(fail_doublings(&rt))
}

fn fail_doublings(rt: &(impl Abort + AllocGlobal)) -> Result<()> {
    let bytes = doublings(rt.alloc(), 0)?;
    assert_failure(rt, &[bytes.as_slice()], Some(1 << 16), [LIMITED; 3])?;
    let bytes = doublings(rt.alloc(), 254)?;
    assert_failure(rt, &[bytes.as_slice()], DEFAULT_LIMIT, [LIMITED; 3])
}

// 65,536 pointers to one list: 536,936,448 words as a tree, more than a builder or a canonical form
// has.
#[test]
fn shared_lists_are_too_large(rt: HostRuntime) -> Result<()> {
    retried!(fail_shared_lists(&rt))
}

fn fail_shared_lists(rt: &(impl Abort + AllocGlobal)) -> Result<()> {
    let bytes = shared_lists(rt.alloc())?;
    let segments = [bytes.as_slice()];
    let too_large = ErrorKind::AllocationTooLarge(536936448);
    assert_failure(rt, &segments, NO_LIMIT, [TOO_LARGE, too_large, TOO_LARGE])?;
    assert_failure(rt, &segments, DEFAULT_LIMIT, [LIMITED; 3])
}
