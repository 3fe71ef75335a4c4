//! The segments of a message that is built, for writing it.
ghost use Rattle.std.specs.Prelude.{◌≡◌, ℕ, ◌<◌, List, length, map};
ghost use Rattle.capnp_frame.specs.Prelude.{IsWritable};
ghost use Rattle.capnp_build.specs.Prelude.{used_of};

use capnp_build::allocator::Allocator;
use capnp_build::arena::builder_arena::BuilderArena;
use capnp_frame::message::ReaderSegments;
use std::marker::Model;

/// The segments of a message that is built, each up to its last used word.
///
/// ```
/// message.set_root::<text::Owned, &str>("Hello, World!")?;
/// let output = message.get_segments_for_output();
/// assert_eq!(rt; output.len(), 1);
/// assert_eq!(rt; output.get_segment(0), Some(&HELLO[8..]));
/// ```
#[derive(Drop)]
pub struct OutputSegments<'a, A: Allocator> {
    arena: &'a BuilderArena<A>,
}

// Clauses see the segments: the used bytes of each.
impl<'a, A: Allocator> Model for OutputSegments<'a, A> {
    ghost Value = { List (List ℕ) };

    ghost view = { λ output. map used_of output.arena.now.spaces };
}

impl<'a, A: Allocator> OutputSegments<'a, A> {
    /// The segments of an arena.
    pub(crate) fn new(arena: &'a BuilderArena<A>) -> OutputSegments<'a, A>
        ensures segments { result ≡ map used_of arena.now.spaces }
        ensures writable { 0 < length arena.now.spaces → IsWritable result }
    {
        // For the prover: once there is a segment, the used words can be written.
        arena.are_writable();
        OutputSegments { arena }
    }
}

impl<A: Allocator> ReaderSegments for OutputSegments<'_, A> {
    ghost segments = { λ output. output };

    fn get_segment(&self, id: u32) -> Option<&[u8]> {
        self.arena.get_segment(id)
    }
}
