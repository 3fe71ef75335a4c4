//! A segment of an arena, whose first words are used.
ghost use Rattle.std.specs.Prelude.{◌≡◌, ℕ, ◌+◌, ◌-◌, ◌*◌, ◌/◌, ◌%◌, ◌^◌, ◌<◌, ◌≤◌, Bool, List, [], length, take, drop, replicate, min, max};
ghost use Rattle.capnp_build.specs.Bytes.{written, ZeroFrom, Space, with_block, with_bytes};
ghost use Rattle.capnp_build.specs.Filled.{IsAppended};
ghost use Rattle.capnp_wire.specs.Prelude.{HasWords};
ghost use Rattle.capnp_build.specs.Output.{CountsUsedWords};

use crate::segment_space::SegmentSpace;
use capnp_frame::Word;
use capnp_layout::limits::MAX_SEGMENT_WORDS;
use capnp_wire::traits::SetterInput;
use std::marker::Model;

/// A segment whose first words are used; the rest is zero.
#[derive(Drop)]
pub struct BuilderSegment<S: SegmentSpace> {
    segment: S,
    words: u32,
}

impl<S: SegmentSpace> Model for BuilderSegment<S> {
    ghost use Rattle.std.specs.Prelude.{◌*◌, ◌/◌, ◌≤◌, ◌<◌, ◌^◌, length, take};
    ghost use Rattle.capnp_build.specs.Bytes.{Space, ZeroFrom};

    ghost Value = { Space };

    ghost view = { λ part. record {
      used = take (8 * part.words) (S.content part.segment);
      size = length (S.content part.segment);
      is_provided = S.is_provided part.segment;
    } };

    ghost invariant = { λ part. (8 * part.words ≤ length (S.content part.segment))
        × ZeroFrom (8 * part.words) (S.content part.segment) × (part.words ≤ 2 ^ 29) };
}

impl<S: SegmentSpace> BuilderSegment<S> {
    /// A segment of zeros, with no used words.
    pub fn new(segment: S) -> BuilderSegment<S>
        requires { ZeroFrom 0 (S.content segment) }
        ensures used { result.used ≡ [] }
        ensures size { result.size ≡ length (S.content segment) }
        ensures provided { result.is_provided ≡ S.is_provided segment }
    {
        BuilderSegment { segment, words: 0 }
    }

    /// The used bytes.
    pub fn bytes(&self) -> &[u8]
        ensures { result.now ≡ self.now.used }
    {
        &self.segment.bytes()[..8 * self.words as usize]
    }

    /// The number of used words.
    pub fn words(&self) -> u32
        ensures within { length self.now.used ≤ self.now.size }
        ensures counts { CountsUsedWords result self.now.used }
    {
        self.words
    }

    /// The number of free words, where at most 2^29 words of a segment are used.
    pub fn room(&self) -> u32
        ensures { result ≡ min (self.now.size / 8) (2 ^ 29) - length self.now.used / 8 }
    {
        let size = self.segment.bytes().len() / 8;
        let most = size.min(MAX_SEGMENT_WORDS as usize) as u32;
        most - self.words
    }

    /// Uses this many more words.
    pub fn grow(&mut self, words: u32)
        requires { words ≤ min (self.old.size / 8) (2 ^ 29) - length self.old.used / 8 }
        ensures { self.new ≡ with_block self.old (8 * words) }
    {
        // For the prover: the length of the segment fits `usize`.
        let size = self.segment.bytes().len();
        self.words = self.words + words;
    }

    /// Writes a value, in canonical form if `canonical`, into the `words` words after the used
    /// ones. Returns the pointer to it, as the word that belongs just before these words.
    pub fn append<T, V: SetterInput<T>>(&mut self, canonical: bool, value: &V, words: u32) -> Word
        requires room { words ≤ min (self.old.size / 8) (2 ^ 29) - length self.old.used / 8 }
        requires words { HasWords (V.has_tree value.now) canonical words }
        ensures { IsAppended (V.has_tree value.now) canonical result words self.old self.new }
    {
        // For the prover: the length of the segment fits `usize`.
        let size = self.segment.bytes().len();
        let from = 8 * self.words as usize;
        let to = from + 8 * words as usize;
        let pointer = self.segment.write_value(from, to, canonical, value);
        self.words = self.words + words;
        pointer
    }

    /// Replaces used bytes, from this index on.
    pub fn write_at(&mut self, at: usize, bytes: &[u8])
        requires { at + length bytes.now ≤ length self.old.used }
        ensures { self.new ≡ with_bytes self.old at bytes.now }
    {
        self.segment.write_at(at, bytes);
    }

    /// Makes the used bytes at the indexes `from..to` zero.
    pub fn zero(&mut self, from: usize, to: usize)
        requires order { from ≤ to }
        requires within { to ≤ length self.old.used }
        ensures { self.new ≡ with_bytes self.old from (replicate (to - from) 0) }
    {
        self.segment.zero(from, to);
    }

    /// The segment, and how many words of it are used.
    pub fn into_segment(self) -> (S, u32)
        ensures size { length (S.content result.0) ≡ self.size }
        ensures provided { S.is_provided result.0 ≡ self.is_provided }
        ensures used { 8 * result.1 ≤ length (S.content result.0) }
        ensures words { 8 * result.1 ≡ length self.used }
        ensures zero { ZeroFrom (8 * result.1) (S.content result.0) }
    {
        let BuilderSegment { segment, words } = self;
        (segment, words)
    }
}
