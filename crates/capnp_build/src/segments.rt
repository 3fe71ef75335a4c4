//! The segments of a message that is built.
ghost use Rattle.std.specs.Prelude.{◌≡◌, ◌⊎◌, ℕ, ◌+◌, ◌-◌, ◌*◌, ◌/◌, ◌^◌, ◌<◌, ◌≤◌, List, [], ◌∷◌, ◌++◌, length, map, replicate, slice_get, slice_index_or, slice_set, option_copied, Some};
ghost use Rattle.std.specs.Prelude.{None, IfOk, IfErr, IsOk, OnOk, OnErr};
ghost use Rattle.capnp_frame.specs.declared.error.ErrorKind.{ErrorKind};
ghost use Rattle.capnp_frame.specs.declared.error.ErrorKind.TheVariants.{SegmentTaken};
ghost use Rattle.capnp_build.specs.Bytes.{Space, with_block, with_bytes};
ghost use Rattle.capnp_build.specs.Out.{Out, HasLarge, IsOut};
ghost use Rattle.capnp_build.specs.Built.{size_in_words};
ghost use Rattle.capnp_build.specs.BuilderState.{IsAppendedAt, index_of, BuilderState, pair, pairs, spaces_of, used_of, space_at, free_words_of, with_space, KeepsOthers};
ghost use Rattle.capnp_build.specs.Placed.{SegmentError};
ghost use Rattle.capnp_build.specs.Output.{CanBeWritten, CountsUsedWords};
ghost use Rattle.capnp_wire.specs.Prelude.{HasWords};
ghost use Rattle.capnp_build.specs.Allocating.{TakesBack};
ghost use Rattle.capnp_build.specs.Outcomes.{GivesBack};

use crate::allocator::Allocator;
use crate::builder_segment::BuilderSegment;
use capnp_frame::{Error, ErrorKind, Result, Word, word};
use capnp_wire::traits::SetterInput;
use std::alloc::Global;
use std::marker::Model;

// Where a segment of a message is kept: in its own field, or at an index of the vector of the
// others.
#[derive(Clone, Copy)]
enum SegmentPlace {
    First,
    Further(usize),
}

impl SegmentPlace {
    // Where the segment of this number is kept.
    fn of(index: u32) -> SegmentPlace
        ensures { index ≡ index_of result }
    {
        if index == 0 {
            return SegmentPlace::First;
        }
        SegmentPlace::Further(index as usize - 1)
    }
}

/// The segments of a message: the first one in a field of its own, the others in a vector.
pub struct Segments<A: Allocator> {
    allocator: A,
    first: Option<BuilderSegment<A::Segment>>,
    others: Vec<BuilderSegment<A::Segment>>,
}

impl<A: Allocator> Model for Segments<A> {
    ghost use Rattle.std.specs.Prelude.{◌≡◌, ℕ, ◌+◌, ◌<◌, ◌^◌, List, [], ⊤, MatchOption, length};
    ghost use Rattle.std.specs.List.{AllByRecursion};
    ghost use Rattle.capnp_build.specs.BuilderState.{BuilderState, spaces_of, AreOut};
    ghost use Rattle.capnp_build.specs.Output.{UsesWords};

    ghost Value = { BuilderState A };

    ghost view = { λ s. record { spaces = spaces_of s.first s.others.items; allocator = s.allocator } };

    ghost invariant = { λ s. (MatchOption s.first (s.others.items ≡ []) (λ _. ⊤))
        × AreOut (A.out s.allocator) (spaces_of s.first s.others.items)
        × (length s.others.items + 1 < 2 ^ 32)
        × AllByRecursion UsesWords (spaces_of s.first s.others.items) };
}

impl<A: Allocator> Segments<A> {
    /// No segments yet.
    pub fn new(alloc: Global, allocator: A) -> Segments<A>
        ensures spaces { result.spaces ≡ [] }
        ensures allocator { result.allocator ≡ allocator }
    {
        Segments {
            allocator,
            first: None,
            others: Vec::new(alloc),
        }
    }

    pub fn len(&self) -> u32
        ensures { result ≡ length self.now.spaces }
    {
        match &self.first {
            None => 0,
            Some(_) => self.others.len() as u32 + 1,
        }
    }

    /// The used bytes of a segment.
    pub fn get(&self, index: u32) -> Option<&[u8]>
        ensures { option_copied result ≡ slice_get (map used_of self.now.spaces) index }
    {
        match &self.first {
            None => None,
            Some(first) => match SegmentPlace::of(index) {
                SegmentPlace::First => Some(first.bytes()),
                SegmentPlace::Further(other) => {
                    if other >= self.others.len() {
                        return None;
                    }
                    Some(self.others[other].bytes())
                }
            },
        }
    }

    /// The number of free words of a segment.
    pub fn room(&self, index: u32) -> u32
        requires { index < length self.now.spaces }
        ensures { result ≡ free_words_of (space_at self.now.spaces index) }
    {
        match &self.first {
            None => 0,
            Some(first) => match SegmentPlace::of(index) {
                SegmentPlace::First => first.room(),
                SegmentPlace::Further(other) => self.others[other].room(),
            },
        }
    }

    /// The number of used words of a segment.
    pub fn words(&self, index: u32) -> u32
        requires { index < length self.now.spaces }
        ensures { CountsUsedWords result (space_at self.now.spaces index).used }
    {
        match &self.first {
            None => 0,
            Some(first) => match SegmentPlace::of(index) {
                SegmentPlace::First => first.words(),
                SegmentPlace::Further(other) => self.others[other].words(),
            },
        }
    }

    /// A fact for callers: the used words can be written, once there is a segment.
    pub fn are_writable(&self)
        ensures { CanBeWritten self.now.spaces }
    {
        // For the prover: reading a field brings in the invariant, which says this.
        let first = &self.first;
    }

    /// The number of used words of all segments.
    pub fn size_in_words(&self) -> usize
        ensures { result ≡ size_in_words self.now.spaces }
    {
        let mut words: usize = 0;
        for index in 0..self.len() {
            words += self.words(index) as usize;
        }
        words
    }

    /// Uses this many more words of a segment.
    pub fn grow(&mut self, index: u32, words: u32)
        requires within { index < length self.old.spaces }
        requires room { words ≤ free_words_of (space_at self.old.spaces index) }
        ensures { self.new ≡ with_space self.old index (with_block (space_at self.old.spaces index) (8 * words)) }
    {
        match SegmentPlace::of(index) {
            SegmentPlace::First => {
                if let Some(first) = &mut self.first {
                    first.grow(words);
                }
            }
            SegmentPlace::Further(other) => {
                let part = &mut self.others[other];
                part.grow(words);
            }
        }
    }

    /// Replaces used bytes of a segment, from this index on.
    pub fn write_at(&mut self, index: u32, at: usize, bytes: &[u8])
        requires within { index < length self.old.spaces }
        requires room { at + length bytes.now ≤ length (space_at self.old.spaces index).used }
        ensures { self.new ≡ with_space self.old index (with_bytes (space_at self.old.spaces index) at bytes.now) }
    {
        match SegmentPlace::of(index) {
            SegmentPlace::First => {
                if let Some(first) = &mut self.first {
                    first.write_at(at, bytes);
                }
            }
            SegmentPlace::Further(other) => {
                let part = &mut self.others[other];
                part.write_at(at, bytes);
            }
        }
    }

    /// Makes the used bytes of a segment at the indexes `from..to` zero.
    pub fn zero(&mut self, index: u32, from: usize, to: usize)
        requires within { index < length self.old.spaces }
        requires order { from ≤ to }
        requires room { to ≤ length (space_at self.old.spaces index).used }
        ensures { self.new ≡ with_space self.old index
            (with_bytes (space_at self.old.spaces index) from (replicate (to - from) 0)) }
    {
        match SegmentPlace::of(index) {
            SegmentPlace::First => {
                if let Some(first) = &mut self.first {
                    first.zero(from, to);
                }
            }
            SegmentPlace::Further(other) => {
                let part = &mut self.others[other];
                part.zero(from, to);
            }
        }
    }

    /// Writes a value, in canonical form if `canonical`, into the `words` words after the used ones
    /// of segment `index`. Returns the pointer to it, as the word that belongs just before these
    /// words.
    pub fn append<T, V: SetterInput<T>>(
        &mut self,
        index: u32,
        canonical: bool,
        value: &V,
        words: u32,
    ) -> Word
        requires within { index < length self.old.spaces }
        requires room { words ≤ free_words_of (space_at self.old.spaces index) }
        requires words { HasWords (V.has_tree value.now) canonical words }
        ensures { IsAppendedAt (V.has_tree value.now) canonical result words index self.old self.new }
    {
        match SegmentPlace::of(index) {
            SegmentPlace::First => {
                if let Some(first) = &mut self.first {
                    return first.append(canonical, value, words);
                }
                word(0, 0, 0, 0, 0, 0, 0, 0)
            }
            SegmentPlace::Further(other) => {
                let part = &mut self.others[other];
                part.append(canonical, value, words)
            }
        }
    }

    /// Adds an unused segment of at least this many words. Fails with the kinds of `SegmentError`.
    pub fn add(&mut self, words: u32) -> Result<()>
        ensures added { OnOk result ((space : Space)
            × (self.new.spaces ≡ self.old.spaces ++ space ∷ []) × (space.used ≡ [])
            × (words ≤ space.size / 8)) }
        ensures errors { OnErr result (self.new.spaces ≡ self.old.spaces) }
        ensures kind { IfErr result (λ error. SegmentError A.Allocator self.old words error.kind) }
        ensures granted { self.old.spaces ≡ [] → (most : ℕ) → A.grants self.old.allocator words most →
            IsOk result × ((space_at self.new.spaces 0).size / 8 ≡ most) }
        ensures taken { IfErr result (λ error. error.kind ≡ SegmentTaken → (others : List Out) →
            A.out self.old.allocator (pairs self.old.spaces others) →
            HasLarge words (pairs self.old.spaces others)) }
        ensures same { A.same self.old.allocator self.new.allocator }
        ensures others { KeepsOthers A.out self.old self.new }
    {
        if self.first.is_none() {
            let segment = self.allocator.allocate_segment(words)?;
            self.first = Some(BuilderSegment::new(segment));
            return Ok(());
        }
        if self.others.len() as u64 + 2 >= 1 << 32 {
            return Err(Error::from_kind(ErrorKind::AllocationTooLarge(words)));
        }
        if self.others.reserve(1).is_err() {
            return Err(Error::from_kind(ErrorKind::OutOfMemory));
        }
        let segment = self.allocator.allocate_segment(words)?;
        self.others.push_reserved(BuilderSegment::new(segment));
        Ok(())
    }

    /// The allocator, to which each segment went back.
    pub fn into_allocator(self) -> A
        ensures { GivesBack A.Allocator self result }
    {
        let Segments {
            mut allocator,
            first,
            mut others,
        } = self;
        while let Some(part) = others.pop() {
            return_segment(&mut allocator, part);
        }
        if let Some(part) = first {
            return_segment(&mut allocator, part);
            return allocator;
        }
        allocator
    }
}

// Returns a segment to its allocator, with the number of words that are used of it.
fn return_segment<A: Allocator>(allocator: &mut A, part: BuilderSegment<A::Segment>)
    requires { IsOut (A.out allocator.old) (pair part) }
    ensures { TakesBack A.out A.same A.returns (pair part) (length part.used / 8) allocator.old allocator.new }
{
    let (segment, words) = part.into_segment();
    allocator.deallocate_segment(segment, words);
}

impl<A: Allocator> Drop for Segments<A> {
    // Each segment goes back to the allocator.
    fn drop(self)
        ensures { (last : A) × GivesBack A.Allocator self last }
    {
        let allocator = self.into_allocator();
        drop(allocator);
    }
}
