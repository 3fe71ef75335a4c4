//! Iterators that own lists of pointers to views of one type.
ghost use Rattle.std.specs.Prelude.{◌≡◌, ◌-◌};
ghost use Rattle.std.specs.Iterator.{YieldsFirstBy, at_most};
ghost use Rattle.capnp_wire.specs.Views.{IsViewOf};
ghost use Rattle.capnp_wire.specs.Readers.{pointer_of};
ghost use Rattle.capnp_wire.specs.Lists.{IsIntoIter, YieldsView, owned_left};

use crate::any_pointer;
use crate::list_into_iter::ListIntoIter;
use crate::list_iter::IndexMove;
use crate::traits::FromPointerReader;
use capnp_frame::Result;
use capnp_frame::message::ReaderSegments;
use std::marker::PhantomData;

/// The elements of a list of pointers that the iterator owns, each read as a view of one type, from
/// the first to the last.
#[derive(Drop)]
pub struct ViewIntoIter<L, T> {
    pointers: ListIntoIter<L>,
    element: PhantomData<T>,
}

impl<L: IndexMove, T> ViewIntoIter<L, T> {
    /// The elements that these pointers point to.
    pub fn new(pointers: L) -> ViewIntoIter<L, T>
        ensures { IsIntoIter (L.size pointers) pointers result.pointers }
    {
        ViewIntoIter {
            pointers: ListIntoIter::new(pointers),
            element: PhantomData,
        }
    }
}

// Each call follows the pointer at the next index, as `get` of the list does.
impl<'a, S, L, T> Iterator for ViewIntoIter<L, T>
where
    S: ReaderSegments + 'a,
    L: IndexMove<Item = any_pointer::Reader<'a, S>> + Drop,
    T: FromPointerReader<'a, S>,
{
    type Item = Result<T>;

    ghost next_gives = { λ old result new.
        YieldsView (YieldsFirstBy L.seen (owned_left L.size L.element))
        (λ reader view. let pointer = pointer_of S.segments reader in
        IsViewOf pointer (T.shows pointer) (T.accepts pointer) (T.fails pointer)
        (T.form_error pointer) view) old.pointers result new.pointers };

    ghost remaining = { λ views. at_most (L.size views.pointers.list - views.pointers.index) };

    fn next(&mut self) -> Option<Result<T>> {
        match self.pointers.next() {
            Some(pointer) => Some(T::get_from_pointer(pointer)),
            None => None,
        }
    }

    fn size_hint(&self) -> (usize, Option<usize>) {
        self.pointers.size_hint()
    }
}

impl<'a, S, L, T> ExactSizeIterator for ViewIntoIter<L, T>
where
    S: ReaderSegments + 'a,
    L: IndexMove<Item = any_pointer::Reader<'a, S>> + Drop,
    T: FromPointerReader<'a, S>,
{
    fn len(&self) -> usize {
        self.pointers.len()
    }
}
