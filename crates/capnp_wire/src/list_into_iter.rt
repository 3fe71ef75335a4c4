//! Iterators that own the list that they read: `for element in list`.
//!
//! A crate that doesn't list this one has these alone, since it sees no impl for a reference.
ghost use Rattle.std.specs.Prelude.{length, ◌-◌};
ghost use Rattle.std.specs.Iterator.{YieldsFirstBy, at_most};
ghost use Rattle.capnp_wire.specs.ListViews.{pointer_list_of, struct_list_of};
ghost use Rattle.capnp_wire.specs.Lists.{IsIntoIter, owned_left};
ghost use Rattle.capnp_wire.specs.NumberViews.{numbers_of};
ghost use Rattle.capnp_wire.specs.UpgradedReaders.{upgraded_numbers_of, upgraded_pointers_of, upgraded_structs_of};

use crate::list_iter::IndexMove;
use crate::list_list::ViewIntoIter;
use crate::primitive_element::PrimitiveElement;
use crate::traits::FromPointerReader;
use crate::upgraded::{
    EnumElement, EnumList, FromStruct, ListList, NumberList, PointerList, StructList, Structs,
};
use crate::{any_pointer, any_pointer_list, any_struct, list_list, primitive_list, struct_list};
use capnp_frame::Result;
use capnp_frame::message::ReaderSegments;

/// The elements of a list that the iterator owns, from the first to the last.
///
/// ```
/// let ports: primitive_list::Reader<'_, u16> = message.get_root()?;
/// let mut rest = ports.into_iter();
/// assert_eq!(rt; rest.next(), Some(80));
/// assert_eq!(rt; rest.len(), 2);
/// ```
#[derive(Drop)]
pub struct ListIntoIter<L> {
    list: L,
    /// The index of the next element.
    index: u32,
}

impl<L: IndexMove> ListIntoIter<L> {
    /// The elements of this list.
    pub fn new(list: L) -> ListIntoIter<L>
        ensures { IsIntoIter (L.size list) list result }
    {
        // For the prover: the number of elements is below 2^32.
        let _ = list.len();
        ListIntoIter { list, index: 0 }
    }
}

// Each call returns the element at the next index, and `None` from the end on.
impl<L: IndexMove + Drop> Iterator for ListIntoIter<L> {
    type Item = L::Item;

    ghost next_gives = { YieldsFirstBy L.seen (owned_left L.size L.element) };

    ghost remaining = { λ elements. at_most (L.size elements.list - elements.index) };

    fn next(&mut self) -> Option<L::Item> {
        if self.index >= self.list.len() {
            return None;
        }
        let element = self.list.index_move(self.index);
        self.index += 1;
        Some(element)
    }

    fn size_hint(&self) -> (usize, Option<usize>) {
        let left = self.len();
        (left, Some(left))
    }
}

impl<L: IndexMove + Drop> ExactSizeIterator for ListIntoIter<L> {
    fn len(&self) -> usize {
        self.list.len().saturating_sub(self.index) as usize
    }
}

impl<'a, S, T> IntoIterator for Structs<'a, S, T>
where
    S: ReaderSegments,
    T: FromStruct<any_struct::StructReader<'a, S>>,
{
    type Item = T;

    type IntoIter = ListIntoIter<Structs<'a, S, T>>;

    ghost into_iter_gives = { λ list elements. IsIntoIter (length (upgraded_structs_of S.segments list.elements).elements) list elements };

    fn into_iter(self) -> ListIntoIter<Structs<'a, S, T>> {
        ListIntoIter::new(self)
    }
}

impl<'a, S: ReaderSegments> IntoIterator for StructList<'a, S> {
    type Item = any_struct::StructReader<'a, S>;

    type IntoIter = ListIntoIter<StructList<'a, S>>;

    ghost into_iter_gives = { λ list elements. IsIntoIter (length (upgraded_structs_of S.segments list).elements) list elements };

    fn into_iter(self) -> ListIntoIter<StructList<'a, S>> {
        ListIntoIter::new(self)
    }
}

impl<'a, S: ReaderSegments> IntoIterator for struct_list::Reader<'a, S> {
    type Item = any_struct::StructReader<'a, S>;

    type IntoIter = ListIntoIter<struct_list::Reader<'a, S>>;

    ghost into_iter_gives = { λ list elements. IsIntoIter (length (struct_list_of S.segments list).elements) list elements };

    fn into_iter(self) -> ListIntoIter<struct_list::Reader<'a, S>> {
        ListIntoIter::new(self)
    }
}

impl<'a, S: ReaderSegments> IntoIterator for PointerList<'a, S> {
    type Item = any_pointer::Reader<'a, S>;

    type IntoIter = ListIntoIter<PointerList<'a, S>>;

    ghost into_iter_gives = { λ list elements. IsIntoIter (length (upgraded_pointers_of S.segments list).children) list elements };

    fn into_iter(self) -> ListIntoIter<PointerList<'a, S>> {
        ListIntoIter::new(self)
    }
}

impl<'a, S: ReaderSegments> IntoIterator for any_pointer_list::Reader<'a, S> {
    type Item = any_pointer::Reader<'a, S>;

    type IntoIter = ListIntoIter<any_pointer_list::Reader<'a, S>>;

    ghost into_iter_gives = { λ list elements. IsIntoIter (length (pointer_list_of S.segments list).children) list elements };

    fn into_iter(self) -> ListIntoIter<any_pointer_list::Reader<'a, S>> {
        ListIntoIter::new(self)
    }
}

impl<'a, T: PrimitiveElement> IntoIterator for NumberList<'a, T> {
    type Item = T;

    type IntoIter = ListIntoIter<NumberList<'a, T>>;

    ghost into_iter_gives = { λ list elements. IsIntoIter (length (upgraded_numbers_of T.code list)) list elements };

    fn into_iter(self) -> ListIntoIter<NumberList<'a, T>> {
        ListIntoIter::new(self)
    }
}

impl<'a, T: PrimitiveElement> IntoIterator for primitive_list::Reader<'a, T> {
    type Item = T;

    type IntoIter = ListIntoIter<primitive_list::Reader<'a, T>>;

    ghost into_iter_gives = { λ list elements. IsIntoIter (length (numbers_of T.code list)) list elements };

    fn into_iter(self) -> ListIntoIter<primitive_list::Reader<'a, T>> {
        ListIntoIter::new(self)
    }
}

impl<'a, E: EnumElement> IntoIterator for EnumList<'a, E> {
    type Item = E;

    type IntoIter = ListIntoIter<EnumList<'a, E>>;

    ghost into_iter_gives = { λ list elements. IsIntoIter (length (upgraded_numbers_of 3 list.numbers)) list elements };

    fn into_iter(self) -> ListIntoIter<EnumList<'a, E>> {
        ListIntoIter::new(self)
    }
}

impl<'a, S: ReaderSegments, T: FromPointerReader<'a, S>> IntoIterator for ListList<'a, S, T> {
    type Item = Result<T>;

    type IntoIter = ViewIntoIter<PointerList<'a, S>, T>;

    ghost into_iter_gives = { λ list elements.
        IsIntoIter (length (upgraded_pointers_of S.segments list.pointers).children) list.pointers elements.pointers };

    fn into_iter(self) -> ViewIntoIter<PointerList<'a, S>, T> {
        ViewIntoIter::new(self.pointers)
    }
}

impl<'a, S: ReaderSegments, T: FromPointerReader<'a, S>> IntoIterator
    for list_list::Reader<'a, S, T> {
    type Item = Result<T>;

    type IntoIter = ViewIntoIter<any_pointer_list::Reader<'a, S>, T>;

    ghost into_iter_gives = { λ list elements.
        IsIntoIter (length (pointer_list_of S.segments list.pointers).children) list.pointers elements.pointers };

    fn into_iter(self) -> ViewIntoIter<any_pointer_list::Reader<'a, S>, T> {
        ViewIntoIter::new(self.pointers)
    }
}
