//! The segments that readers read.
ghost use Rattle.std.specs.Prelude.{◌≡◌, ◌≢◌, ◌↔◌, ◌<◌, ◌≤◌, ◌^◌, ◌-◌, ℕ, List, [], ◌∷◌, length, min, Some, None, slice_get, IfOk, IfErr, IsOk, IsTrue, MatchResult};
ghost use Rattle.std.specs.Result.{IsErrAnd};
ghost use Rattle.capnp_frame.specs.Prelude.{size_in_words};
ghost use Rattle.capnp_frame.specs.declared.error.ErrorKind.{ErrorKind};
ghost use Rattle.capnp_layout.specs.Prelude.{message_of, word_at, Form, Trees, none, tree, depth, root, Root, Within, NoWord, WalkError};
ghost use Rattle.capnp_wire.specs.Canonical.{IsCanonical};
ghost use Rattle.capnp_wire.specs.Tested.{CanonicityError};
ghost use Rattle.capnp_wire.specs.Readers.{pointer_of, nesting_of};

use crate::any_pointer;
use crate::layout::canonical::is_canonical;
use crate::read_limiter::ReadLimiter;
use capnp_frame::message::{ReaderOptions, ReaderSegments};
use capnp_frame::{Error, ErrorKind, Result};
use capnp_layout::place::{Place, pointer_at};

/// The segments of a message, read in place, and what readers may read of them.
#[derive(Drop)]
pub struct ReaderArena<S> {
    pub(crate) segments: S,
    nesting_limit: i32,
    limiter: ReadLimiter,
}

impl<S: ReaderSegments> ReaderArena<S> {
    /// An arena with nothing read so far.
    pub fn new(segments: S, options: ReaderOptions) -> ReaderArena<S>
        ensures segments { result.segments ≡ segments }
        ensures nesting { result.nesting_limit ≡ options.nesting_limit }
        ensures limit { result.limiter.limit ≡ options.traversal_limit_in_words }
    {
        ReaderArena {
            segments,
            nesting_limit: options.nesting_limit,
            limiter: ReadLimiter::new(options.traversal_limit_in_words),
        }
    }

    /// The root pointer, which is the first word of the first segment.
    ///
    /// Fails with `InvalidSegmentId(0)` without a segment, and with `PointerOutOfBounds` where the
    /// first segment has no word.
    pub fn get_root(&self) -> Result<any_pointer::Reader<'_, S>>
        ensures returned { let m = message_of (S.segments self.now.segments) in
            MatchResult result
            (λ reader. pointer_of S.segments reader ≡ record {
              message = m;
              place = Some root;
              nesting = nesting_of self.now.nesting_limit;
              limit = self.now.limiter.limit;
            })
            (λ error. NoWord m root error.kind) }
        ensures has_word { IfOk result (λ reader. (word : ℕ)
            × (word_at (message_of (S.segments self.now.segments)) root ≡ Some word)) }
    {
        let place = Place {
            segment: 0,
            word: 0,
        };
        pointer_at(&self.segments, place)?;
        Ok(any_pointer::Reader {
            segments: &self.segments,
            limiter: Some(&self.limiter),
            place: Some(place),
            nesting: self.nesting(),
        })
    }

    /// The pointer at a place, below which as many objects may follow one another; null where there
    /// is no place. Nothing is read.
    pub fn pointer_at(&self, place: Option<Place>, nesting: u32) -> any_pointer::Reader<'_, S>
        ensures { pointer_of S.segments result ≡ record {
          message = message_of (S.segments self.now.segments);
          place = place;
          nesting = nesting;
          limit = self.now.limiter.limit;
        } }
    {
        any_pointer::Reader {
            segments: &self.segments,
            limiter: Some(&self.limiter),
            place,
            nesting,
        }
    }

    /// Whether the message is in canonical form: one segment, whose words are the canonical form of
    /// its root tree.
    ///
    /// A message of more than one segment is not canonical, nor is one with a far pointer.
    ///
    /// Fails with `InvalidSegmentId(0)` without a segment, and else where the walk over the objects
    /// stops before it meets one that is not canonical. The error is the error of a view of one of
    /// them, or `ReadLimitExceeded` where they have more words than the traversal limit. The walk
    /// counts from 0, takes no memory, and does not change what views have counted.
    pub fn is_canonical(&self) -> Result<bool>
        ensures returned { let m = message_of (S.segments self.now.segments) in
            let nesting = nesting_of self.now.nesting_limit in
            MatchResult result (λ is. IsTrue is ↔ IsCanonical m)
            (λ error. CanonicityError m nesting self.now.limiter.limit error.kind) }
        ensures exact { let m = message_of (S.segments self.now.segments) in
            let nesting = nesting_of self.now.nesting_limit in
            (kind : ErrorKind) → CanonicityError m nesting self.now.limiter.limit kind →
            IsErrAnd result (λ error. error.kind ≡ kind) }
        ensures found { let m = message_of (S.segments self.now.segments) in
            (form : Form) (children : Trees) (traversed : ℕ) → Root m form children traversed →
            depth (tree form children none) ≤ nesting_of self.now.nesting_limit →
            Within self.now.limiter.limit traversed → IsOk result }
        ensures walk_error { let m = message_of (S.segments self.now.segments) in
            let nesting = nesting_of self.now.nesting_limit in
            IfErr result (λ error. WalkError m (root ∷ []) nesting self.now.limiter.limit error.kind) }
    {
        let Some(segment) = self.segments.get_segment(0) else {
            return Err(Error::from_kind(ErrorKind::InvalidSegmentId(0)));
        };
        if self.segments.get_segment(1).is_some() {
            return Ok(false);
        }
        is_canonical(&self.segments, segment, self.nesting(), self.limiter.limit)
    }

    // The longest chain of objects that may be followed from the root.
    fn nesting(&self) -> u32
        ensures { result ≡ nesting_of self.now.nesting_limit }
    {
        self.nesting_limit.max(0) as u32
    }

    /// The segments.
    pub fn get_segments(&self) -> &S
        ensures { result.now ≡ self.now.segments }
    {
        &self.segments
    }

    /// The segments, back from the arena.
    pub fn into_segments(self) -> S
        ensures { result ≡ self.segments }
    {
        let ReaderArena {
            segments,
            nesting_limit: _,
            limiter: _,
        } = self;
        segments
    }

    /// How deep objects may be nested.
    pub fn nesting_limit(&self) -> i32
        ensures { result ≡ self.now.nesting_limit }
    {
        self.nesting_limit
    }

    /// The number of words of all segments, at most `usize::MAX`. Bytes after the last whole word
    /// of a segment are not counted.
    pub fn size_in_words(&self) -> usize
        requires { length (S.segments self.now.segments) < 2 ^ 32 }
        ensures { result ≡ min (size_in_words (S.segments self.now.segments)) (2 ^ 64 - 1) }
    {
        let mut words: usize = 0;
        for id in 0..self.segments.len() as u32 {
            if let Some(segment) = self.segments.get_segment(id) {
                words = words.saturating_add(segment.len() / 8);
            }
        }
        words
    }
}
