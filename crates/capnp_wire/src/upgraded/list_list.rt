//! Lists that are read as lists of pointers to views of one type.
ghost use Rattle.std.specs.Prelude.{◌≡◌, ◌<◌, length};
ghost use Rattle.capnp_layout.specs.Prelude.{words_of};

use crate::any_pointer;
use crate::list_list::view_iter::ViewIter;
use crate::traits::{FromPointerInSegment, FromPointerReader};
use crate::upgraded::pointer_list::PointerList;
use capnp_frame::Result;
use capnp_frame::message::ReaderSegments;
use std::marker::PhantomData;

/// A list of pointers in a message, or of structs whose first pointer is such a pointer, read as
/// views of one type: of text, data or a list.
///
/// ```
/// let message = serialize::read_message(alloc, &mut list_of_structs, options)?;
/// let lists: upgraded::ListList<'_, OwnedSegments, upgraded::NumberList<'_, u16>> =
///     message.get_root()?;
/// let Some(list) = lists.try_get(0) else {
///     panic!(rt; "no first list");
/// };
/// assert_eq!(rt; list?.try_get(1), Some(2));
/// assert_eq!(rt; lists.len(), 2);
/// ```
#[derive(Drop)]
pub struct ListList<'a, S, T> {
    pub(crate) pointers: PointerList<'a, S>,
    element: PhantomData<T>,
}

impl<'a, S: ReaderSegments, T: FromPointerReader<'a, S>> ListList<'a, S, T> {
    ghost use Rattle.capnp_wire.specs.Lists.{FindsElement, IteratesOver};
    ghost use Rattle.capnp_wire.specs.Views.{IsViewOf};
    ghost use Rattle.capnp_wire.specs.ListViews.{pointer_at};
    ghost use Rattle.capnp_wire.specs.UpgradedReaders.{upgraded_pointers_of};

    /// The number of elements.
    pub fn len(&self) -> u32
        ensures { result ≡ length (upgraded_pointers_of S.segments self.now.pointers).children }
    {
        self.pointers.len()
    }

    /// The view of the element at this index, which must be below `len`; `try_get` takes any. The
    /// element is counted against the traversal limit each time.
    ///
    /// Fails as `any_pointer::Reader::get_as` does for the element's pointer.
    pub fn get(&self, index: u32) -> Result<T>
        requires { index < length (upgraded_pointers_of S.segments self.now.pointers).children }
        ensures { let pointer = pointer_at (upgraded_pointers_of S.segments self.now.pointers) index in
            IsViewOf pointer (T.shows pointer) (T.accepts pointer) (T.fails pointer)
            (T.form_error pointer) result }
    {
        T::get_from_pointer(self.pointers.get(index))
    }

    /// The element at this index, or `None` where the list ends before it.
    ///
    /// The element fails as `get` does.
    pub fn try_get(&self, index: u32) -> Option<Result<T>>
        ensures { FindsElement
            (length (upgraded_pointers_of S.segments self.now.pointers).children) index
            (let pointer = pointer_at (upgraded_pointers_of S.segments self.now.pointers) index in
            IsViewOf pointer (T.shows pointer) (T.accepts pointer)
            (T.fails pointer) (T.form_error pointer)) result }
    {
        match self.pointers.try_get(index) {
            Some(pointer) => Some(T::get_from_pointer(pointer)),
            None => None,
        }
    }

    /// An iterator over the elements.
    pub fn iter(&self) -> ViewIter<'_, PointerList<'a, S>, T>
        ensures { IteratesOver (length (upgraded_pointers_of S.segments self.now.pointers).children)
            self.now.pointers result.pointers }
    {
        ViewIter::new(&self.pointers)
    }
}

// Null is an empty list; any object other than a list of pointers, or of structs that have one,
// fails with `WrongPointerKind`.
impl<'a, S: ReaderSegments, T> FromPointerReader<'a, S> for ListList<'a, S, T> {
    ghost use Rattle.capnp_wire.specs.Readers.{pointer_of};
    ghost use Rattle.capnp_wire.specs.Views.{IsViewOf, Accepts, ViewError, FormError};
    ghost use Rattle.capnp_wire.specs.UpgradedViews.{IsUpgradedPointers, TakesFirstPointers, FirstPointersFormError};
    ghost use Rattle.capnp_wire.specs.UpgradedReaders.{upgraded_pointers_of};

    ghost shows = { λ pointer view.
        IsUpgradedPointers pointer (upgraded_pointers_of S.segments view.pointers) };

    ghost accepts = { λ pointer. Accepts pointer TakesFirstPointers };

    ghost fails = { λ pointer kind. ViewError pointer FirstPointersFormError kind };

    ghost form_error = { λ pointer kind. FormError pointer FirstPointersFormError kind };

    #[inline(always)]
    fn get_from_pointer(reader: any_pointer::Reader<'a, S>) -> Result<Self>
        ensures { let pointer = pointer_of S.segments reader.entry in IsViewOf pointer
            (λ view. IsUpgradedPointers pointer (upgraded_pointers_of S.segments view.pointers))
            (Accepts pointer TakesFirstPointers) (ViewError pointer FirstPointersFormError)
            (FormError pointer FirstPointersFormError) result }
    {
        match PointerList::get_from_pointer(reader) {
            Ok(pointers) => Ok(ListList {
                pointers,
                element: PhantomData,
            }),
            Err(error) => Err(error),
        }
    }
}

impl<'a, S: ReaderSegments, T> FromPointerInSegment<'a, S> for ListList<'a, S, T> {
    ghost use Rattle.capnp_wire.specs.Readers.{pointer_of};
    ghost use Rattle.capnp_wire.specs.Views.{HasSegment, IsViewOf, Accepts, ViewError, FormError};
    ghost use Rattle.capnp_wire.specs.UpgradedViews.{IsUpgradedPointers, TakesFirstPointers, FirstPointersFormError};
    ghost use Rattle.capnp_wire.specs.UpgradedReaders.{upgraded_pointers_of};

    #[inline(always)]
    fn get_from_segment(reader: any_pointer::Reader<'a, S>, segment: &'a [u8]) -> Result<Self>
        requires { HasSegment (pointer_of S.segments reader) (words_of segment.now) }
        ensures { let pointer = pointer_of S.segments reader.entry in IsViewOf pointer
            (λ view. IsUpgradedPointers pointer (upgraded_pointers_of S.segments view.pointers))
            (Accepts pointer TakesFirstPointers) (ViewError pointer FirstPointersFormError)
            (FormError pointer FirstPointersFormError) result }
    {
        match PointerList::get_from_segment(reader, segment) {
            Ok(pointers) => Ok(ListList {
                pointers,
                element: PhantomData,
            }),
            Err(error) => Err(error),
        }
    }
}
