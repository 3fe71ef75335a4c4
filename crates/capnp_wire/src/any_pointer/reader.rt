//! Readers of pointers.
ghost use Rattle.std.specs.Prelude.{⊤, ◌≡◌, ◌≢◌, ◌↔◌, ◌⊎◌, ◌<◌, ◌^◌, ℕ, List, None, IfOk, IfErr, IsOk, IsTrue, MatchOption, MatchResult};
ghost use Rattle.std.specs.Result.{IsErrAnd};
ghost use Rattle.capnp_frame.specs.declared.error.ErrorKind.{ErrorKind};
ghost use Rattle.capnp_frame.specs.declared.error.ErrorKind.TheVariants.{ReadLimitExceeded};
ghost use Rattle.capnp_layout.specs.Prelude.{nothing};
ghost use Rattle.capnp_wire.specs.Views.{Pointer, IsViewOf, Denotes, ObjectError, IsInvalidPointer, MeetsLimit, Measures, MeasuringError};
ghost use Rattle.capnp_wire.specs.Readers.{pointer_of, unlimited_root, IsEntered};

use crate::layout::walk::Walk;
use crate::message_size::MessageSize;
use crate::read_limiter::{ReadLimiter, limit_in_words, traversed};
use crate::traits::FromPointerReader;
use capnp_frame::message::ReaderSegments;
use capnp_frame::{Error, ErrorKind, Result};
use capnp_layout::object::{Object, object_at};
use capnp_layout::place::{Place, pointer_at};

/// A pointer of a message. A pointer past the last one of a struct is null.
///
/// ```
/// let root: any_pointer::Reader<'_, OwnedSegments> = message.get_root()?;
/// assert!(rt; !root.is_null());
/// let greeting: text::Reader<'_> = root.get_as()?;
/// assert_eq!(rt; greeting.as_bytes(), b"Hello, World!".as_slice());
/// ```
#[derive(Drop)]
pub struct Reader<'a, S> {
    pub(crate) segments: &'a S,
    pub(crate) limiter: Option<&'a ReadLimiter>,
    pub(crate) place: Option<Place>,
    pub(crate) nesting: u32,
}

impl<'a, S: ReaderSegments> Reader<'a, S> {
    /// The root pointer of trusted segments, such as the segments of a message that is being built.
    /// It is read under no traversal limit, and under a nesting limit of 2^31 - 1. It is null where
    /// there is no first segment.
    pub fn root_of(segments: &'a S) -> Reader<'a, S>
        ensures { pointer_of S.segments result ≡ unlimited_root (S.segments segments.now) }
    {
        let place = match segments.get_segment(0) {
            None => None,
            Some(_) => Some(Place {
                segment: 0,
                word: 0,
            }),
        };
        Reader {
            segments,
            limiter: None,
            place,
            nesting: i32::MAX as u32,
        }
    }

    /// Whether the pointer is null, and so points to no object. Only its own word is read.
    pub fn is_null(&self) -> bool
        ensures { IsTrue result ↔ Denotes (pointer_of S.segments self.now) nothing }
    {
        match self.place {
            None => true,
            Some(place) => match pointer_at(self.segments, place) {
                Ok(word) => word == 0,
                Err(_) => false,
            },
        }
    }

    /// The size of the object that the pointer points to, with all below it, without the landing
    /// pads of far pointers.
    ///
    /// Fails where the walk over these objects stops: with the error of a view of one of them, or
    /// with `ReadLimitExceeded` where they have more words than the traversal limit. A size past 64
    /// bits fails with `AllocationTooLarge(4294967295)`. The walk counts from 0, and does not
    /// change what views have counted.
    pub fn target_size(&self) -> Result<MessageSize>
        ensures returned { let pointer = pointer_of S.segments self.now in MatchResult result
            (λ size. Measures pointer size.word_count × (size.cap_count ≡ 0))
            (λ error. MeasuringError pointer error.kind) }
        ensures measured { (words : ℕ) → Measures (pointer_of S.segments self.now) words →
            words < 2 ^ 64 → IsOk result }
        ensures exact { (kind : ErrorKind) → MeasuringError (pointer_of S.segments self.now) kind →
            IsErrAnd result (λ error. error.kind ≡ kind) }
    {
        self.measure()
    }

    // The size of all that the pointer points to.
    fn measure(&self) -> Result<MessageSize>
        ensures returned { let pointer = pointer_of S.segments self.now in MatchResult result
            (λ size. Measures pointer size.word_count × (size.cap_count ≡ 0))
            (λ error. MeasuringError pointer error.kind) }
        ensures bound { IfOk result (λ size. size.word_count < 2 ^ 64) }
    {
        let mut walk = Walk::new(limit_in_words(self.limiter));
        let Some(place) = self.place else {
            return Ok(MessageSize {
                word_count: 0,
                cap_count: 0,
            });
        };
        walk.walk(self.segments, place, self.nesting, false)?;
        match walk.words() {
            Some(word_count) => Ok(MessageSize {
                word_count,
                cap_count: 0,
            }),
            None => Err(Error::from_kind(ErrorKind::AllocationTooLarge(u32::MAX))),
        }
    }

    /// The object that the pointer points to, as a view that borrows it from the segments.
    ///
    /// Fails with `InvalidSegmentId`, `PointerOutOfBounds`, `CapabilityRefused` or
    /// `WrongPointerKind` where no object is there, and with `NestingLimitExceeded` where the
    /// object is deeper than the nesting limit. Fails with `ReadLimitExceeded` where the object
    /// would bring the words that are read past the traversal limit, and else with
    /// `WrongPointerKind` or `TextNotTerminated`, as the type of the view says.
    #[inline(always)]
    pub fn get_as<T: FromPointerReader<'a, S>>(&self) -> Result<T>
        ensures returned { let pointer = pointer_of S.segments self.now in MatchResult result
            (λ view. T.shows pointer view) (λ error. T.fails pointer error.kind) }
        ensures found { let pointer = pointer_of S.segments self.now in
            pointer.limit ≡ None → T.accepts pointer → IsOk result }
        ensures unlimited { let pointer = pointer_of S.segments self.now in
            pointer.limit ≡ None → IfErr result (λ error. error.kind ≢ ReadLimitExceeded) }
        // Where no object is there, this is the error, whatever was read before, unless the view
        // accepts the pointer itself.
        ensures exact { let pointer = pointer_of S.segments self.now in
            (kind : ErrorKind) → IsInvalidPointer pointer kind → (T.accepts pointer → ⊥) →
            IsErrAnd result (λ error. error.kind ≡ kind) }
        // Where an object is there that the view rejects.
        ensures form_errors { let pointer = pointer_of S.segments self.now in
            (kind : ErrorKind) → T.form_error pointer kind →
            IsErrAnd result (λ error. (error.kind ≡ kind) ⊎ MeetsLimit pointer error.kind) }
    {
        T::get_from_pointer(self.copied())
    }

    /// A copy of this reader, for the slow path.
    ///
    /// Speed: the address of the original never escapes, so it stays in registers
    /// (`tools/time reading`).
    #[inline(always)]
    pub(crate) fn copied(&self) -> Reader<'a, S>
        ensures { result ≡ self.now }
    {
        Reader {
            segments: self.segments,
            limiter: self.limiter,
            place: self.place,
            nesting: self.nesting,
        }
    }

    /// Counts the object that the pointer points to against the traversal limit, and returns it;
    /// `None` for null.
    pub(crate) fn enter(&self) -> Result<Option<Object<'a>>>
        ensures found { let pointer = pointer_of S.segments self.now in
            IfOk result (λ found. MatchOption found (Denotes pointer nothing)
            (λ object. IsEntered pointer object)) }
        ensures errors { let pointer = pointer_of S.segments self.now in
            IfErr result (λ error. ObjectError pointer error.kind) }
    {
        let Some(place) = self.place else {
            return Ok(None);
        };
        let Some(object) = object_at(self.segments, place, self.nesting)? else {
            return Ok(None);
        };
        traversed(self.limiter, object.traversed)?;
        Ok(Some(object))
    }
}

// A view of the pointer itself doesn't follow the pointer, and never fails.
impl<'a, S: ReaderSegments> FromPointerReader<'a, S> for Reader<'a, S> {
    ghost shows = { λ pointer view. pointer_of S.segments view ≡ pointer };

    ghost accepts = { λ pointer. ⊤ };

    ghost fails = { λ pointer kind. ⊥ };

    ghost form_error = { λ pointer kind. ⊥ };

    fn get_from_pointer(reader: Reader<'a, S>) -> Result<Self>
        ensures { let pointer = pointer_of S.segments reader.entry in IsViewOf pointer
            (λ view. pointer_of S.segments view ≡ pointer) ⊤ (λ kind. ⊥) (λ kind. ⊥) result }
    {
        Ok(reader)
    }
}
