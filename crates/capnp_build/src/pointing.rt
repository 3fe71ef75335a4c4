//! Blocks of values after the used words of segments, and the root's pointer to them.
ghost use Rattle.std.specs.Prelude.{◌≡◌, ℕ, ◌+◌, ◌-◌, ◌*◌, ◌^◌, ◌<◌, ◌≤◌, length, Some};
ghost use Rattle.capnp_build.specs.BuilderState.{space_at, free_words_of};
ghost use Rattle.capnp_build.specs.Built.{HasSomeBody, HasValue, IsBuilt, IsLonger};
ghost use Rattle.capnp_build.specs.Placed.{IsAtEnd};
ghost use Rattle.capnp_wire.specs.Prelude.{HasWords};
ghost use Rattle.capnp_build.specs.Blocks.{PointsRoot, ZeroesRoot};

use crate::allocator::Allocator;
use crate::arena::location::RootLocation;
use crate::segments::Segments;
use capnp_layout::pointer_word::{far_word, moved};
use capnp_wire::traits::SetterInput;

impl<A: Allocator> Segments<A> {
    /// Makes the root null: zeroes its pointer word, and the words of the object that it points to,
    /// where there is one.
    pub fn zero_root(&mut self, location: Option<RootLocation>)
        requires there { 0 < length self.old.spaces }
        requires built { IsBuilt self.old.spaces location }
        ensures { ZeroesRoot A.Allocator location self.old self.new }
    {
        if let Some(location) = location {
            let from = 8 * location.start as usize;
            let to = from + 8 * location.words as usize;
            self.zero(location.segment, from, to);
            self.zero(0, 0, 8);
            return;
        }
        self.zero(0, 0, 8);
    }

    /// Appends a value to a segment, in the words after the used ones, and returns where it is.
    pub fn append_value<T, V: SetterInput<T>>(
        &mut self,
        segment: u32,
        canonical: bool,
        value: &V,
        words: u32,
    ) -> RootLocation
        requires within { segment < length self.old.spaces }
        requires following { 8 ≤ length (space_at self.old.spaces segment).used }
        requires room { words ≤ free_words_of (space_at self.old.spaces segment) }
        requires value { HasWords (V.has_tree value.now) canonical words }
        ensures body { HasValue (V.has_tree value.now) canonical self.new.spaces result }
        ensures place { IsAtEnd self.old.spaces (Some result) segment 0 words }
        ensures longer { IsLonger self.old self.new segment words }
    {
        let start = self.words(segment);
        let word = self.append(segment, canonical, value, words);
        RootLocation {
            segment,
            start,
            words,
            pointer_word: u64::from_le_bytes(word.bytes()),
        }
    }

    /// Makes the root's word a pointer to a body in the first segment.
    pub fn point_local(&mut self, location: RootLocation)
        requires first { location.segment ≡ 0 }
        requires body { HasSomeBody self.old.spaces location }
        ensures { PointsRoot location self.old self.new }
    {
        let pointer = moved(location.pointer_word, location.start - 1);
        self.write_at(0, 0, &pointer.to_le_bytes());
    }

    /// Makes the word before a body in another segment its landing pad, and the root's word a far
    /// pointer to the landing pad.
    pub fn point_far(&mut self, location: RootLocation)
        requires other { 0 < location.segment }
        requires some { 0 < location.words }
        requires first { 8 ≤ length (space_at self.old.spaces 0).used }
        requires body { HasSomeBody self.old.spaces location }
        ensures { PointsRoot location self.old self.new }
    {
        let landing_pad = location.start - 1;
        self.write_at(
            location.segment,
            8 * landing_pad as usize,
            &location.pointer_word.to_le_bytes(),
        );
        let pointer = far_word(location.segment, landing_pad);
        self.write_at(0, 0, &pointer.to_le_bytes());
    }
}
