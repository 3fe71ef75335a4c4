//! Readers of lists of pointers.
ghost use Rattle.std.specs.Prelude.{◌≡◌, ◌+◌, ◌^◌, ◌<◌, length, MatchResult};
ghost use Rattle.std.specs.Option.{ForSome};
ghost use Rattle.capnp_layout.specs.Prelude.{words_of};

use crate::any_pointer;
use crate::any_pointer::ObjectKind;
use crate::object_content::wrong_kind;
use crate::object_view::{ObjectView, read};
use crate::read_limiter::ReadLimiter;
use crate::traits::{FromPointerInSegment, FromPointerReader, IndexMove, ListIter};
use capnp_frame::Result;
use capnp_frame::message::ReaderSegments;
use capnp_layout::object::{Object, words_fit};
use capnp_layout::place::Place;

/// A list of pointers in a message.
///
/// ```
/// let names: any_pointer_list::Reader<'_, OwnedSegments> = message.get_root()?;
/// let Some(pointer) = names.try_get(1) else {
///     panic!(rt; "no second pointer");
/// };
/// let name: text::Reader<'_> = pointer.get_as()?;
/// assert!(rt; name.is("Bob"));
/// assert!(rt; names.try_get(2).is_none());
/// ```
#[derive(Drop)]
pub struct Reader<'a, S> {
    pub(crate) segments: &'a S,
    pub(crate) limiter: Option<&'a ReadLimiter>,
    /// The place of the first pointer.
    pub(crate) first: Place,
    pub(crate) count: u32,
    pub(crate) nesting: u32,
    ghost bound: { first.word + count < 2 ^ 61 },
    ghost few: { count < 2 ^ 29 },
}

impl<'a, S: ReaderSegments> Reader<'a, S> {
    ghost use Rattle.capnp_wire.specs.Lists.{FindsElement, IteratesOver};
    ghost use Rattle.capnp_wire.specs.Readers.{pointer_of, IsEntered};
    ghost use Rattle.capnp_wire.specs.Views.{HasSegment, ViewError};
    ghost use Rattle.capnp_wire.specs.ListViews.{pointer_list_of, pointer_at, IsPointerList, PointersFormError};

    /// The number of elements.
    pub fn len(&self) -> u32
        ensures { result ≡ length (pointer_list_of S.segments self.now).children }
    {
        self.count
    }

    /// The pointer at this index, which must be below `len`; `try_get` takes any. What it points to
    /// is counted against the traversal limit when it is followed.
    pub fn get(&self, index: u32) -> any_pointer::Reader<'a, S>
        requires { index < length (pointer_list_of S.segments self.now).children }
        ensures { pointer_of S.segments result
            ≡ pointer_at (pointer_list_of S.segments self.now) index }
    {
        // `rt try`, which tests no `requires`, stops here at an index past the end.
        let len = self.len();
        prove!(index < len);
        any_pointer::Reader {
            segments: self.segments,
            limiter: self.limiter,
            place: Some(Place {
                segment: self.first.segment,
                word: self.first.word + index as usize,
            }),
            nesting: self.nesting,
        }
    }

    /// The element at this index, or `None` where the list ends before it.
    pub fn try_get(&self, index: u32) -> Option<any_pointer::Reader<'a, S>>
        ensures { FindsElement (length (pointer_list_of S.segments self.now).children) index
            (λ item. pointer_of S.segments item
            ≡ pointer_at (pointer_list_of S.segments self.now) index) result }
    {
        self.try_index_move(index)
    }

    /// An iterator over the elements.
    pub fn iter(&self) -> ListIter<'_, Self>
        ensures { IteratesOver (length (pointer_list_of S.segments self.now).children)
            self.now result }
    {
        ListIter::new(self)
    }
}

impl<'a, S: ReaderSegments> ObjectView<'a, S> for Reader<'a, S> {
    ghost use Rattle.std.proofs.Common.{inl};
    ghost use Rattle.capnp_wire.specs.Views.{ViewError};
    ghost use Rattle.capnp_wire.specs.ListViews.{pointer_list_of, IsPointerList, PointersFormError};

    ghost shows = { λ pointer view. IsPointerList pointer (pointer_list_of S.segments view) };

    ghost fails = { λ pointer kind. ViewError pointer PointersFormError kind };

    #[inline(always)]
    fn kind() -> ObjectKind {
        ObjectKind::Pointers
    }

    #[inline(always)]
    fn of_null(reader: &any_pointer::Reader<'a, S>) -> Self {
        Reader {
            segments: reader.segments,
            limiter: reader.limiter,
            first: Place {
                segment: 0,
                word: 0,
            },
            count: 0,
            nesting: reader.nesting.saturating_sub(1),
        }
    }

    #[inline(always)]
    fn of_object(reader: &any_pointer::Reader<'a, S>, object: &Object<'a>) -> Result<Self> {
        let nesting = reader.nesting.saturating_sub(1);
        let Some(count) = object.body.as_pointers() else {
            return Err(wrong_kind());
        };
        // For the prover: each word is below 2^64, and so is the number of bytes.
        words_fit(object.segment);
        Ok(Reader {
            segments: reader.segments,
            limiter: reader.limiter,
            first: object.start,
            count,
            nesting,
        })
    }

    ghost unread = { λ pointer kind error. inl error };
}

impl<'a, S: ReaderSegments> IndexMove for Reader<'a, S> {
    ghost use Rattle.capnp_wire.specs.Views.{Pointer};
    ghost use Rattle.capnp_wire.specs.Readers.{pointer_of};
    ghost use Rattle.capnp_wire.specs.ListViews.{pointer_list_of, pointer_at};

    type Item = any_pointer::Reader<'a, S>;

    ghost Element = { Pointer };

    ghost seen = { pointer_of S.segments };

    ghost size = { λ list. length (pointer_list_of S.segments list).children };

    ghost element = { λ list index. pointer_at (pointer_list_of S.segments list) index };

    fn len(&self) -> u32 {
        self.len()
    }

    fn index_move(&self, index: u32) -> any_pointer::Reader<'a, S> {
        self.get(index)
    }
}

// Null is an empty list; any object other than a list of pointers fails with `WrongPointerKind`.
impl<'a, S: ReaderSegments> FromPointerReader<'a, S> for Reader<'a, S> {
    ghost use Rattle.capnp_wire.specs.Readers.{pointer_of};
    ghost use Rattle.capnp_wire.specs.Views.{IsViewOf, Accepts, ViewError, FormError};
    ghost use Rattle.capnp_wire.specs.ListViews.{pointer_list_of, IsPointerList, TakesPointers, PointersFormError};

    ghost shows = { λ pointer view. IsPointerList pointer (pointer_list_of S.segments view) };

    ghost accepts = { λ pointer. Accepts pointer TakesPointers };

    ghost fails = { λ pointer kind. ViewError pointer PointersFormError kind };

    ghost form_error = { λ pointer kind. FormError pointer PointersFormError kind };

    #[inline(always)]
    fn get_from_pointer(reader: any_pointer::Reader<'a, S>) -> Result<Self>
        ensures { let pointer = pointer_of S.segments reader.entry in IsViewOf pointer
            (λ view. IsPointerList pointer (pointer_list_of S.segments view))
            (Accepts pointer TakesPointers) (ViewError pointer PointersFormError)
            (FormError pointer PointersFormError) result }
    {
        read(&reader, None)
    }
}

impl<'a, S: ReaderSegments> FromPointerInSegment<'a, S> for Reader<'a, S> {
    ghost use Rattle.capnp_wire.specs.Readers.{pointer_of};
    ghost use Rattle.capnp_wire.specs.Views.{HasSegment, IsViewOf, Accepts, ViewError, FormError};
    ghost use Rattle.capnp_wire.specs.ListViews.{pointer_list_of, IsPointerList, TakesPointers, PointersFormError};

    #[inline(always)]
    fn get_from_segment(reader: any_pointer::Reader<'a, S>, segment: &'a [u8]) -> Result<Self>
        requires { HasSegment (pointer_of S.segments reader) (words_of segment.now) }
        ensures { let pointer = pointer_of S.segments reader.entry in IsViewOf pointer
            (λ view. IsPointerList pointer (pointer_list_of S.segments view))
            (Accepts pointer TakesPointers) (ViewError pointer PointersFormError)
            (FormError pointer PointersFormError) result }
    {
        read(&reader, Some(segment))
    }
}
