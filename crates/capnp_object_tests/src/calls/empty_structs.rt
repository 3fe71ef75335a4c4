//! Lists of structs of no words: two words may hold many of them.
use crate::fixtures::{Arena, arena_of, expect};
use capnp_frame::Result;
use capnp_wire::canonical::{canonical_bytes, canonical_size};
use std::process::Abort;

// A list of 1,073,741,823 structs: the walks over it have no step to take for one of them.
const EMPTY_STRUCTS: &[u8] = b"\x01\0\0\0\x07\0\0\0\xfc\xff\xff\xff\0\0\0\0";

// The words of the tree, the words of its canonical form, and whether the segment is in that form.
fn walks(arena: &Arena<'_>) -> Result<(u64, u64, bool)> {
    let root = arena.get_root()?;
    let size = root.target_size()?.word_count;
    Ok((size, canonical_size(&root)? as u64, arena.is_canonical()?))
}

fn expect_walks(rt: &(impl Abort + AllocGlobal), arena: &Arena<'_>) -> Result<()> {
    expect(rt, "walks", walks(arena)?, (1, 2, true));
    let bytes = canonical_bytes(rt.alloc(), &arena.get_root()?)?;
    expect(rt, "form", bytes.as_slice(), EMPTY_STRUCTS);
    Ok(())
}

#[test]
fn structs_of_no_words(rt: HostRuntime) -> Result<()> {
    let segments = [EMPTY_STRUCTS];
    let arena = arena_of(&segments, None, 64);
    for _time in 0..100u32 {
        expect_walks(&rt, &arena)?;
    }
    Ok(())
}
