//! Walks that few words make long: each ends, at once or at the limit. What else hostile words may be
//! read as is in `conformance/`.
use crate::fixtures::{Walked, arena_of, expect, is_canonical, size_of};
use crate::trees::{doublings, shared_lists};
use capnp_frame::{ErrorKind, Result};
use capnp_frame_tests::limits::{DEFAULT_LIMIT, NO_LIMIT};
use capnp_frame_tests::retried;
use std::process::Abort;

const LIMITED: ErrorKind = ErrorKind::ReadLimitExceeded;

#[test]
fn walks_over_many_objects(rt: HostRuntime) -> Result<()> {
    retried!(walk_doublings(&rt, 0, Some(1 << 16)))?;
    retried!(walk_doublings(&rt, 254, DEFAULT_LIMIT))?;
    retried!(walk_shared_lists(&rt))
}

fn walk_doublings(
    rt: &(impl Abort + AllocGlobal),
    data_words: u16,
    limit: Option<usize>,
) -> Result<()> {
    let tree = doublings(rt.alloc(), data_words)?;
    expect_walks(rt, &tree, limit, Err(LIMITED));
    Ok(())
}

fn walk_shared_lists(rt: &(impl Abort + AllocGlobal)) -> Result<()> {
    let shared = shared_lists(rt.alloc())?;
    expect_walks(rt, &shared, NO_LIMIT, Ok(536936448));
    expect_walks(rt, &shared, DEFAULT_LIMIT, Err(LIMITED));
    Ok(())
}

// The words of a tree, which is not in canonical form.
fn expect_walks(rt: &impl Abort, bytes: &[u8], limit: Option<usize>, words: Walked<u64>) {
    let segments = [bytes];
    let arena = arena_of(&segments, limit, 64);
    let found = (size_of(&arena), is_canonical(&arena));
    expect(rt, limit, found, (words, Ok(false)));
}
