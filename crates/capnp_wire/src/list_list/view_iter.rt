//! Iterators over lists of pointers to views of one type.
ghost use Rattle.std.specs.Prelude.{◌≡◌, ◌-◌};
ghost use Rattle.std.specs.Iterator.{YieldsFirstBy, at_most};
ghost use Rattle.capnp_wire.specs.Views.{IsViewOf};
ghost use Rattle.capnp_wire.specs.Readers.{pointer_of};
ghost use Rattle.capnp_wire.specs.Lists.{elements_left, IteratesOver, YieldsView};

use crate::any_pointer;
use crate::list_iter::{IndexMove, ListIter};
use crate::traits::FromPointerReader;
use capnp_frame::Result;
use capnp_frame::message::ReaderSegments;
use std::marker::PhantomData;

/// The elements of a list of pointers, each read as a view of one type, from the first to the last.
#[derive(Drop)]
pub struct ViewIter<'l, L, T> {
    pointers: ListIter<'l, L>,
    element: PhantomData<T>,
}

impl<'l, L: IndexMove, T> ViewIter<'l, L, T> {
    /// The elements that these pointers point to.
    pub fn new(pointers: &'l L) -> ViewIter<'l, L, T>
        ensures { IteratesOver (L.size pointers.now) pointers.now result.pointers }
    {
        ViewIter {
            pointers: ListIter::new(pointers),
            element: PhantomData,
        }
    }
}

// Each call follows the pointer at the next index, as `get` of the list does.
impl<'l, 'a, S, L, T> Iterator for ViewIter<'l, L, T>
where
    S: ReaderSegments + 'a,
    L: IndexMove<Item = any_pointer::Reader<'a, S>>,
    T: FromPointerReader<'a, S>,
{
    type Item = Result<T>;

    ghost next_gives = { λ old result new.
        YieldsView (YieldsFirstBy L.seen (elements_left L.size L.element))
        (λ reader view. let pointer = pointer_of S.segments reader in
        IsViewOf pointer (T.shows pointer) (T.accepts pointer) (T.fails pointer)
        (T.form_error pointer) view) old.pointers result new.pointers };

    ghost remaining = { λ views.
        at_most (L.size views.pointers.list.now - views.pointers.index) };

    fn next(&mut self) -> Option<Result<T>> {
        match self.pointers.next() {
            Some(pointer) => Some(T::get_from_pointer(pointer)),
            None => None,
        }
    }

    fn size_hint(&self) -> (usize, Option<usize>) {
        self.pointers.size_hint()
    }
}

impl<'l, 'a, S, L, T> ExactSizeIterator for ViewIter<'l, L, T>
where
    S: ReaderSegments + 'a,
    L: IndexMove<Item = any_pointer::Reader<'a, S>>,
    T: FromPointerReader<'a, S>,
{
    fn len(&self) -> usize {
        self.pointers.len()
    }
}
