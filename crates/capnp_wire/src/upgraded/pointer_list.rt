//! Lists that are read as lists of pointers.
ghost use Rattle.std.specs.Prelude.{◌≡◌, ◌+◌, ◌*◌, ◌^◌, ◌<◌, length, MatchOption, MatchResult};
ghost use Rattle.std.specs.Option.{ForSome};
ghost use Rattle.capnp_layout.specs.Prelude.{words_of};

use crate::any_pointer::ObjectKind;
use crate::object_content::wrong_kind;
use crate::object_view::{ObjectView, read};
use crate::read_limiter::ReadLimiter;
use crate::traits::{FromPointerInSegment, FromPointerReader, IndexMove, ListIter};
use crate::{any_pointer, any_pointer_list};
use capnp_frame::Result;
use capnp_frame::message::ReaderSegments;
use capnp_layout::object::{Object, words_fit};
use capnp_layout::place::Place;

/// A list of pointers in a message, or of structs whose first pointer is such a pointer.
///
/// ```
/// let message = serialize::read_message(alloc, &mut list_of_structs, options)?;
/// let pointers: upgraded::PointerList<'_, OwnedSegments> = message.get_root()?;
/// let Some(pointer) = pointers.try_get(1) else {
///     panic!(rt; "no second pointer");
/// };
/// let name: text::Reader<'_> = pointer.get_as()?;
/// assert!(rt; name.is("Bob"));
/// ```
#[derive(Drop)]
pub struct PointerList<'a, S> {
    pub(crate) segments: &'a S,
    pub(crate) limiter: Option<&'a ReadLimiter>,
    /// The place of the first pointer.
    pub(crate) first: Place,
    /// The number of words from one pointer to the next.
    pub(crate) step: usize,
    pub(crate) count: u32,
    pub(crate) nesting: u32,
    ghost bound: { first.word + count * step < 2 ^ 64 },
    ghost run: { step ≡ 1 → first.word + count < 2 ^ 61 },
    ghost few: { count < 2 ^ 29 },
}

impl<'a, S: ReaderSegments> PointerList<'a, S> {
    ghost use Rattle.capnp_wire.specs.Lists.{FindsElement, IteratesOver};
    ghost use Rattle.capnp_wire.specs.Readers.{pointer_of, IsEntered};
    ghost use Rattle.capnp_wire.specs.Views.{HasSegment, ViewError};
    ghost use Rattle.capnp_wire.specs.ListViews.{pointer_at, pointer_list_of};
    ghost use Rattle.capnp_wire.specs.UpgradedViews.{IsUpgradedPointers, FirstPointersFormError};
    ghost use Rattle.capnp_wire.specs.UpgradedReaders.{upgraded_pointers_of, pointers_from};
    ghost use Rattle.capnp_wire.specs.UpgradedValues.{IsConsecutive};
    ghost use Rattle.capnp_layout.specs.Object.{places};

    /// The number of elements.
    pub fn len(&self) -> u32
        ensures { result ≡ length (upgraded_pointers_of S.segments self.now).children }
    {
        self.count
    }

    /// The pointer at this index, which must be below `len`; `try_get` takes any. What it points to
    /// is counted against the traversal limit when it is followed.
    pub fn get(&self, index: u32) -> any_pointer::Reader<'a, S>
        requires { index < length (upgraded_pointers_of S.segments self.now).children }
        ensures { pointer_of S.segments result
            ≡ pointer_at (upgraded_pointers_of S.segments self.now) index }
    {
        // `rt try`, which tests no `requires`, stops here at an index past the end.
        let len = self.len();
        prove!(index < len);
        let words_before = index as usize * self.step;
        any_pointer::Reader {
            segments: self.segments,
            limiter: self.limiter,
            place: Some(Place {
                segment: self.first.segment,
                word: self.first.word + words_before,
            }),
            nesting: self.nesting,
        }
    }

    /// The element at this index, or `None` where the list ends before it.
    pub fn try_get(&self, index: u32) -> Option<any_pointer::Reader<'a, S>>
        ensures { FindsElement (length (upgraded_pointers_of S.segments self.now).children) index
            (λ item. pointer_of S.segments item
            ≡ pointer_at (upgraded_pointers_of S.segments self.now) index) result }
    {
        self.try_index_move(index)
    }

    /// An iterator over the elements.
    pub fn iter(&self) -> ListIter<'_, Self>
        ensures { IteratesOver (length (upgraded_pointers_of S.segments self.now).children)
            self.now result }
    {
        ListIter::new(self)
    }

    /// The list as a list of consecutive pointers; `None` where other words are between them.
    pub(crate) fn consecutive(&self) -> Option<any_pointer_list::Reader<'a, S>>
        ensures { MatchOption result (IsConsecutive self.now → ⊥) (λ list. IsConsecutive self.now
            × (pointer_list_of S.segments list ≡ upgraded_pointers_of S.segments self.now)) }
    {
        if self.count == 0 {
            let nowhere = Place {
                segment: 0,
                word: 0,
            };
            return Some(self.run(nowhere, 0));
        }
        if self.step != 1 {
            return None;
        }
        Some(self.run(self.first, self.count))
    }

    // Consecutive pointers of the list's message.
    fn run(&self, first: Place, count: u32) -> any_pointer_list::Reader<'a, S>
        requires bound { first.word + count < 2 ^ 61 }
        requires few { count < 2 ^ 29 }
        ensures { pointer_list_of S.segments result ≡ record (upgraded_pointers_of S.segments self.now)
            { children = places first.segment first.word count } }
    {
        any_pointer_list::Reader {
            segments: self.segments,
            limiter: self.limiter,
            first,
            count,
            nesting: self.nesting,
        }
    }

    // Pointers at this distance from one another.
    #[inline(always)]
    fn new(
        reader: &any_pointer::Reader<'a, S>,
        first: Place,
        step: usize,
        count: u32,
    ) -> PointerList<'a, S>
        requires bound { first.word + count * step < 2 ^ 64 }
        requires run { step ≡ 1 → first.word + count < 2 ^ 61 }
        requires few { count < 2 ^ 29 }
        ensures { upgraded_pointers_of S.segments result
            ≡ pointers_from (pointer_of S.segments reader.now) first step count }
    {
        PointerList {
            segments: reader.segments,
            limiter: reader.limiter,
            first,
            step,
            count,
            nesting: reader.nesting.saturating_sub(1),
        }
    }
}

impl<'a, S: ReaderSegments> ObjectView<'a, S> for PointerList<'a, S> {
    ghost use Rattle.std.proofs.Common.{inl};
    ghost use Rattle.capnp_wire.specs.Readers.{pointer_of};
    ghost use Rattle.capnp_wire.specs.Views.{IsViewOf, Accepts, ViewError, FormError};
    ghost use Rattle.capnp_wire.specs.UpgradedViews.{IsUpgradedPointers, TakesFirstPointers, FirstPointersFormError};
    ghost use Rattle.capnp_wire.specs.UpgradedReaders.{upgraded_pointers_of};

    ghost shows = { λ pointer view.
        IsUpgradedPointers pointer (upgraded_pointers_of S.segments view) };

    ghost fails = { λ pointer kind. ViewError pointer FirstPointersFormError kind };

    #[inline(always)]
    fn kind() -> ObjectKind {
        ObjectKind::Pointers
    }

    #[inline(always)]
    fn of_null(reader: &any_pointer::Reader<'a, S>) -> Self {
        let nowhere = Place {
            segment: 0,
            word: 0,
        };
        PointerList::new(reader, nowhere, 0, 0)
    }

    #[inline(always)]
    fn of_object(reader: &any_pointer::Reader<'a, S>, object: &Object<'a>) -> Result<Self> {
        // For the prover: each word is below 2^64, and so is the number of bytes.
        words_fit(object.segment);
        if let Some(count) = object.body.as_pointers() {
            return Ok(PointerList::new(reader, object.start, 1, count));
        }
        let Some(elements) = object.body.as_structs() else {
            return Err(wrong_kind());
        };
        if elements.size.pointers == 0 {
            return Err(wrong_kind());
        }
        let first = Place {
            segment: object.start.segment,
            word: object.start.word + 1 + elements.size.data_words as usize,
        };
        let step = elements.size.words() as usize;
        Ok(PointerList::new(reader, first, step, elements.count))
    }

    ghost unread = { λ pointer kind error. inl error };
}

impl<'a, S: ReaderSegments> IndexMove for PointerList<'a, S> {
    ghost use Rattle.capnp_wire.specs.Views.{Pointer};
    ghost use Rattle.capnp_wire.specs.Readers.{pointer_of};
    ghost use Rattle.capnp_wire.specs.ListViews.{pointer_at};
    ghost use Rattle.capnp_wire.specs.UpgradedReaders.{upgraded_pointers_of};

    type Item = any_pointer::Reader<'a, S>;

    ghost Element = { Pointer };

    ghost seen = { pointer_of S.segments };

    ghost size = { λ list. length (upgraded_pointers_of S.segments list).children };

    ghost element = { λ list index. pointer_at (upgraded_pointers_of S.segments list) index };

    fn len(&self) -> u32 {
        self.len()
    }

    fn index_move(&self, index: u32) -> any_pointer::Reader<'a, S> {
        self.get(index)
    }
}

// Null is an empty list; any object other than a list of pointers, or of structs that have one,
// fails with `WrongPointerKind`.
impl<'a, S: ReaderSegments> FromPointerReader<'a, S> for PointerList<'a, S> {
    ghost use Rattle.capnp_wire.specs.Readers.{pointer_of};
    ghost use Rattle.capnp_wire.specs.Views.{IsViewOf, Accepts, ViewError, FormError};
    ghost use Rattle.capnp_wire.specs.UpgradedViews.{IsUpgradedPointers, TakesFirstPointers, FirstPointersFormError};
    ghost use Rattle.capnp_wire.specs.UpgradedReaders.{upgraded_pointers_of};

    ghost shows = { λ pointer view.
        IsUpgradedPointers pointer (upgraded_pointers_of S.segments view) };

    ghost accepts = { λ pointer. Accepts pointer TakesFirstPointers };

    ghost fails = { λ pointer kind. ViewError pointer FirstPointersFormError kind };

    ghost form_error = { λ pointer kind. FormError pointer FirstPointersFormError kind };

    #[inline(always)]
    fn get_from_pointer(reader: any_pointer::Reader<'a, S>) -> Result<Self>
        ensures { let pointer = pointer_of S.segments reader.entry in IsViewOf pointer
            (λ view. IsUpgradedPointers pointer (upgraded_pointers_of S.segments view))
            (Accepts pointer TakesFirstPointers) (ViewError pointer FirstPointersFormError)
            (FormError pointer FirstPointersFormError) result }
    {
        read(&reader, None)
    }
}

impl<'a, S: ReaderSegments> FromPointerInSegment<'a, S> for PointerList<'a, S> {
    ghost use Rattle.capnp_wire.specs.Readers.{pointer_of};
    ghost use Rattle.capnp_wire.specs.Views.{HasSegment, IsViewOf, Accepts, ViewError, FormError};
    ghost use Rattle.capnp_wire.specs.UpgradedViews.{IsUpgradedPointers, TakesFirstPointers, FirstPointersFormError};
    ghost use Rattle.capnp_wire.specs.UpgradedReaders.{upgraded_pointers_of};

    #[inline(always)]
    fn get_from_segment(reader: any_pointer::Reader<'a, S>, segment: &'a [u8]) -> Result<Self>
        requires { HasSegment (pointer_of S.segments reader) (words_of segment.now) }
        ensures { let pointer = pointer_of S.segments reader.entry in IsViewOf pointer
            (λ view. IsUpgradedPointers pointer (upgraded_pointers_of S.segments view))
            (Accepts pointer TakesFirstPointers) (ViewError pointer FirstPointersFormError)
            (FormError pointer FirstPointersFormError) result }
    {
        read(&reader, Some(segment))
    }
}
