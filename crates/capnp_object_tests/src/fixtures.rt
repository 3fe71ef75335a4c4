//! What these tests share: what views and walks say of roots, and what is expected at a case.
pub use crate::arenas::{Arena, Walked, arena_of, plain_arena, root_as, text_at};
use capnp_frame::Result;
use capnp_frame::message::ReaderSegments;
use capnp_wire::any_struct::StructReader;
use capnp_wire::arena::ReaderArena;
use capnp_wire::upgraded::EnumElement;
use std::fmt::Debug;
use std::process::Abort;

/// A value of an enum that names none of its numbers.
#[derive(PartialEq, Eq, Hash, Drop)]
pub struct Unnamed(pub u16);

impl EnumElement for Unnamed {
    ghost named = { 0 };

    fn from_number(number: u16) -> Unnamed {
        Unnamed(number)
    }
}

/// What is found at a case is what is wanted there.
pub fn expect<R: Debug + Drop, T: PartialEq + Debug + Drop>(
    rt: &impl Abort,
    case: R,
    found: T,
    wanted: T,
) {
    assert!(rt; found == wanted, "at {case:?}: {found:?} is not {wanted:?}");
}

pub fn root_as_struct<S: ReaderSegments>(arena: &ReaderArena<S>) -> Result<StructReader<'_, S>> {
    root_as(arena)
}

fn target_words<S: ReaderSegments>(arena: &ReaderArena<S>) -> Result<u64> {
    Ok(arena.get_root()?.target_size()?.word_count)
}

/// The words of the tree at the root.
pub fn size_of<S: ReaderSegments>(arena: &ReaderArena<S>) -> Walked<u64> {
    match target_words(arena) {
        Ok(words) => Ok(words),
        Err(error) => Err(error.kind),
    }
}

/// Whether the segments are in canonical form.
pub fn is_canonical<S: ReaderSegments>(arena: &ReaderArena<S>) -> Walked<bool> {
    match arena.is_canonical() {
        Ok(canonical) => Ok(canonical),
        Err(error) => Err(error.kind),
    }
}
