//! Writing into the object at the root.
ghost use Rattle.std.specs.Prelude.{◌+◌, ◌*◌, ◌/◌, ◌<◌, length, Some};
ghost use Rattle.capnp_build.specs.Written.{HasField, IsFieldSet, HasBytes, IsBytesSet, HasNumber, IsNumberSet};
ghost use Rattle.capnp_layout.specs.Prelude.{root};
ghost use Rattle.capnp_build.specs.RootViews.{WritesRoot};

use crate::allocator::Allocator;
use crate::arena::builder_arena::{BuilderArena, each_is_a_byte};

impl<A: Allocator> BuilderArena<A> {
    /// Sets a data word of the struct at the root, which must have one of this index.
    pub fn set_word(&mut self, index: u16, word: u64)
        requires { HasField self.old.spaces index }
        ensures { WritesRoot (λ old new. IsFieldSet old new index word) self.old self.new }
    {
        if let Some(location) = self.location {
            let at = 8 * (location.start as usize + index as usize);
            self.segments
                .write_at(location.segment, at, &word.to_le_bytes());
        }
    }

    /// Sets an element of the list of words at the root, which must have one of this index.
    pub fn set_number(&mut self, index: u32, number: u64)
        requires { HasNumber self.old.spaces index }
        ensures { WritesRoot (λ old new. IsNumberSet old new index number) self.old self.new }
    {
        if let Some(location) = self.location {
            let at = 8 * location.start as usize + 8 * index as usize;
            self.segments
                .write_at(location.segment, at, &number.to_le_bytes());
        }
    }

    /// Replaces bytes of the list of bytes at the root, from this index on. The list must have that
    /// many there.
    pub fn write_bytes(&mut self, index: u32, bytes: &[u8])
        requires { HasBytes self.old.spaces index (length bytes.now) }
        ensures { WritesRoot (λ old new. IsBytesSet old new index bytes.now) self.old self.new }
    {
        let Some(location) = self.location else {
            return;
        };
        let Some(used) = self.segments.get(location.segment) else {
            return;
        };
        // For the prover: each of these is below 256.
        each_is_a_byte(used);
        each_is_a_byte(bytes);
        let at = 8 * location.start as usize + index as usize;
        self.segments.write_at(location.segment, at, bytes);
    }
}
