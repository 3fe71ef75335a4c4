//! Loops over lists: `for element in &list` is `for element in list.iter()`.
ghost use Rattle.capnp_wire.specs.Lists.{IsIterator};

use crate::list_iter::ListIter;
use crate::list_list::ViewIter;
use crate::primitive_element::PrimitiveElement;
use crate::traits::FromPointerReader;
use crate::upgraded::{
    EnumElement, EnumList, FromStruct, ListList, NumberList, PointerList, StructList, Structs,
};
use crate::{any_pointer, any_pointer_list, any_struct, list_list, primitive_list, struct_list};
use capnp_frame::Result;
use capnp_frame::message::ReaderSegments;

impl<'l, 'a, S: ReaderSegments> IntoIterator for &'l StructList<'a, S> {
    type Item = any_struct::StructReader<'a, S>;

    type IntoIter = ListIter<'l, StructList<'a, S>>;

    ghost into_iter_gives = { λ list elements. IsIterator list.now elements };

    fn into_iter(self) -> ListIter<'l, StructList<'a, S>> {
        self.iter()
    }
}

impl<'l, 'a, S: ReaderSegments, T: FromStruct<any_struct::StructReader<'a, S>>> IntoIterator
    for &'l Structs<'a, S, T> {
    type Item = T;

    type IntoIter = ListIter<'l, Structs<'a, S, T>>;

    ghost into_iter_gives = { λ list elements. IsIterator list.now elements };

    fn into_iter(self) -> ListIter<'l, Structs<'a, S, T>> {
        self.iter()
    }
}

impl<'l, 'a, S: ReaderSegments> IntoIterator for &'l struct_list::Reader<'a, S> {
    type Item = any_struct::StructReader<'a, S>;

    type IntoIter = ListIter<'l, struct_list::Reader<'a, S>>;

    ghost into_iter_gives = { λ list elements. IsIterator list.now elements };

    fn into_iter(self) -> ListIter<'l, struct_list::Reader<'a, S>> {
        self.iter()
    }
}

impl<'l, 'a, S: ReaderSegments> IntoIterator for &'l PointerList<'a, S> {
    type Item = any_pointer::Reader<'a, S>;

    type IntoIter = ListIter<'l, PointerList<'a, S>>;

    ghost into_iter_gives = { λ list elements. IsIterator list.now elements };

    fn into_iter(self) -> ListIter<'l, PointerList<'a, S>> {
        self.iter()
    }
}

impl<'l, 'a, S: ReaderSegments> IntoIterator for &'l any_pointer_list::Reader<'a, S> {
    type Item = any_pointer::Reader<'a, S>;

    type IntoIter = ListIter<'l, any_pointer_list::Reader<'a, S>>;

    ghost into_iter_gives = { λ list elements. IsIterator list.now elements };

    fn into_iter(self) -> ListIter<'l, any_pointer_list::Reader<'a, S>> {
        self.iter()
    }
}

impl<'l, 'a, T: PrimitiveElement> IntoIterator for &'l NumberList<'a, T> {
    type Item = T;

    type IntoIter = ListIter<'l, NumberList<'a, T>>;

    ghost into_iter_gives = { λ list elements. IsIterator list.now elements };

    fn into_iter(self) -> ListIter<'l, NumberList<'a, T>> {
        self.iter()
    }
}

impl<'l, 'a, T: PrimitiveElement> IntoIterator for &'l primitive_list::Reader<'a, T> {
    type Item = T;

    type IntoIter = ListIter<'l, primitive_list::Reader<'a, T>>;

    ghost into_iter_gives = { λ list elements. IsIterator list.now elements };

    fn into_iter(self) -> ListIter<'l, primitive_list::Reader<'a, T>> {
        self.iter()
    }
}

impl<'l, 'a, E: EnumElement> IntoIterator for &'l EnumList<'a, E> {
    type Item = E;

    type IntoIter = ListIter<'l, EnumList<'a, E>>;

    ghost into_iter_gives = { λ list elements. IsIterator list.now elements };

    fn into_iter(self) -> ListIter<'l, EnumList<'a, E>> {
        self.iter()
    }
}

impl<'l, 'a, S: ReaderSegments, T: FromPointerReader<'a, S>> IntoIterator
    for &'l ListList<'a, S, T> {
    type Item = Result<T>;

    type IntoIter = ViewIter<'l, PointerList<'a, S>, T>;

    ghost into_iter_gives = { λ list elements. IsIterator list.now.pointers elements.pointers };

    fn into_iter(self) -> ViewIter<'l, PointerList<'a, S>, T> {
        self.iter()
    }
}

impl<'l, 'a, S: ReaderSegments, T: FromPointerReader<'a, S>> IntoIterator
    for &'l list_list::Reader<'a, S, T> {
    type Item = Result<T>;

    type IntoIter = ViewIter<'l, any_pointer_list::Reader<'a, S>, T>;

    ghost into_iter_gives = { λ list elements. IsIterator list.now.pointers elements.pointers };

    fn into_iter(self) -> ViewIter<'l, any_pointer_list::Reader<'a, S>, T> {
        self.iter()
    }
}
