//! Readers of messages.
ghost use Rattle.std.specs.Prelude.{◌≡◌, ◌⊎◌, ◌<◌, ◌^◌, ◌-◌, ◌↔◌, ℕ, length, min, IfOk, IfErr, IsOk, IsTrue, MatchResult};
ghost use Rattle.std.specs.Result.{IsErrAnd};
ghost use Rattle.capnp_frame.specs.Prelude.{IsWholeWords, size_in_words};
ghost use Rattle.capnp_frame.specs.declared.error.ErrorKind.{ErrorKind};
ghost use Rattle.capnp_frame.specs.declared.error.ErrorKind.TheVariants.{ReadLimitExceeded, OutOfMemory};
ghost use Rattle.capnp_layout.specs.Prelude.{root, words_of, Trees, word_numbers};
ghost use Rattle.capnp_wire.specs.Prelude.{IsCanonical, CanonicityError, PointsToTree, WalkErrorFrom, IsCanonicalForm};
ghost use Rattle.capnp_message.specs.Seen.{root_of};
ghost use Rattle.capnp_message.specs.Canonical.{HasForm, CanonicalFormError, ReturnsForm};
ghost use Rattle.capnp_message.specs.Roots.{ReadsRoot};

use crate::typed_reader::TypedReader;
use capnp_frame::message::{ReaderOptions, ReaderSegments};
use capnp_frame::{Result, Word};
use capnp_wire::arena::ReaderArena;
use capnp_wire::canonical::{canonical_bytes, canonical_words};
use capnp_wire::traits::FromPointerReader;
use std::alloc::Global;
use std::marker::Model;

/// A message that is read in place from its segments.
///
/// ```
/// let segments = [words];
/// let message = Reader::new(SegmentArray::new(&segments), DEFAULT_READER_OPTIONS);
/// let greeting: text::Reader<'_> = message.get_root()?;
/// assert_eq!(rt; greeting.as_bytes(), b"Hello, World!".as_slice());
/// assert_eq!(rt; message.size_in_words(), 3);
/// ```
#[derive(Drop)]
pub struct Reader<S> {
    arena: ReaderArena<S>,
}

// Clauses see the segments and the options.
impl<S> Model for Reader<S> {
    ghost use Rattle.capnp_message.specs.Seen.{ReadMessage};

    ghost Value = { ReadMessage S };

    ghost view = { λ reader. record {
      segments = reader.arena.segments;
      options = record {
        traversal_limit_in_words = reader.arena.limiter.limit;
        nesting_limit = reader.arena.nesting_limit;
      };
    } };
}

impl<S: ReaderSegments> Reader<S> {
    /// Reads a message from these segments.
    pub fn new(segments: S, options: ReaderOptions) -> Reader<S>
        ensures { result ≡ record { segments = segments; options = options } }
    {
        Reader {
            arena: ReaderArena::new(segments, options),
        }
    }

    /// The root as a view, which borrows from the segments.
    ///
    /// Fails with `InvalidSegmentId(0)` without a segment, with `PointerOutOfBounds` where the
    /// first segment has no word, and else as `any_pointer::Reader::get_as` of `capnp_wire` does
    /// for the root pointer.
    pub fn get_root<'a, T: FromPointerReader<'a, S>>(&'a self) -> Result<T>
        ensures { let pointer = root_of S.segments self.now in
            ReadsRoot pointer (T.shows pointer) (T.accepts pointer) (T.fails pointer)
            (T.form_error pointer) result }
    {
        self.arena.get_root()?.get_as()
    }

    /// Whether the message is in canonical form: one segment that is the canonical form of its root
    /// tree.
    ///
    /// A message of more than one segment is not canonical, nor is one with a far pointer.
    ///
    /// Fails with `InvalidSegmentId(0)` without a segment. Else it fails where the walk over the
    /// objects stops before it meets anything that is not canonical. The error is then the error of
    /// a view of one of the objects, or `ReadLimitExceeded` where they have more words than the
    /// traversal limit. The walk counts from 0, takes no memory, and does not change what views
    /// have counted.
    pub fn is_canonical(&self) -> Result<bool>
        ensures returned { let pointer = root_of S.segments self.now in
            MatchResult result (λ is. IsTrue is ↔ IsCanonical pointer.message)
            (λ error. CanonicityError pointer.message pointer.nesting pointer.limit error.kind) }
        ensures exact { let pointer = root_of S.segments self.now in
            (kind : ErrorKind) → CanonicityError pointer.message pointer.nesting pointer.limit kind →
            IsErrAnd result (λ error. error.kind ≡ kind) }
        ensures found { (trees : Trees) → PointsToTree (root_of S.segments self.now) trees → IsOk result }
        ensures walk_error { IfErr result (λ error.
            WalkErrorFrom (root_of S.segments self.now) error.kind) }
    {
        self.arena.is_canonical()
    }

    /// The canonical form of the message, as the bytes of its one segment.
    ///
    /// Fails where there is no first word, as `get_root` does. Fails where a walk over the root
    /// tree stops: with the error of a view of one of its objects, or with `ReadLimitExceeded`
    /// where they have more words than the traversal limit. Fails with `CanonicalTooLarge` above
    /// 2^29 words, the root pointer among them, and with `OutOfMemory` where the form, once
    /// measured, can't be allocated. The walk counts from 0, and does not change what views have
    /// counted.
    pub fn canonical_segment(&self, alloc: Global) -> Result<Vec<u8>>
        ensures returned { let pointer = root_of S.segments self.now in MatchResult result
            (λ bytes. IsCanonicalForm pointer (words_of bytes.items))
            (λ error. CanonicalFormError pointer error.kind ⊎ (error.kind ≡ OutOfMemory)) }
        ensures whole { IfOk result (λ bytes. IsWholeWords bytes.items) }
        ensures found { HasForm (root_of S.segments self.now) →
            IfErr result (λ error. error.kind ≡ OutOfMemory) }
        ensures exact { (kind : ErrorKind) → CanonicalFormError (root_of S.segments self.now) kind →
            IsErrAnd result (λ error. error.kind ≡ kind) }
    {
        let root = self.arena.get_root()?;
        canonical_bytes(alloc, &root)
    }

    /// The canonical form of the message, as words. Two messages have the same form exactly where
    /// their root trees, once trimmed, are equal.
    ///
    /// Fails as `canonical_segment` does.
    ///
    /// ```
    /// let options = DEFAULT_READER_OPTIONS;
    /// let message = serialize::read_message_from_flat_slice_no_alloc(&mut rest, options)?;
    /// let words = message.canonicalize(alloc)?;
    /// ```
    pub fn canonicalize(&self, alloc: Global) -> Result<Vec<Word>>
        ensures { ReturnsForm (root_of S.segments self.now)
            (λ words. word_numbers words.items) result }
    {
        let root = self.arena.get_root()?;
        canonical_words(alloc, &root)
    }

    /// The segments.
    pub fn get_segments(&self) -> &S
        ensures { result.now ≡ self.now.segments }
    {
        self.arena.get_segments()
    }

    /// Gives the segments back.
    pub fn into_segments(self) -> S
        ensures { result ≡ self.segments }
    {
        let Reader { arena } = self;
        arena.into_segments()
    }

    /// The number of words in all segments, at most `usize::MAX`. Bytes after the last whole word
    /// of a segment are not counted.
    pub fn size_in_words(&self) -> usize
        requires { length (S.segments self.now.segments) < 2 ^ 32 }
        ensures { result ≡ min (size_in_words (S.segments self.now.segments)) (2 ^ 64 - 1) }
    {
        self.arena.size_in_words()
    }

    /// The same message, with a root of this type.
    pub fn into_typed<T>(self) -> TypedReader<S, T>
        ensures { result ≡ self }
    {
        TypedReader::new(self)
    }
}
