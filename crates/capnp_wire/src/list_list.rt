//! Lists of pointers to views of one type: lists of lists, and of text and data, which have modules
//! of their own.
mod reader;
mod view_into_iter;
pub(crate) mod view_iter;

use crate::any_pointer_list;
use crate::layout::copy::Copied;
use crate::traits::{self, SetterInput};
use capnp_frame::Result;
use capnp_frame::message::ReaderSegments;
pub use reader::Reader;
use std::marker::PhantomData;
pub use view_into_iter::ViewIntoIter;
pub use view_iter::ViewIter;

/// A list of pointers to objects of one type of a schema, as a type of a schema.
///
/// ```
/// let lists = [objects.numbers(&[1, 2])?, objects.numbers(&[3])?];
/// let list: Orphan<list_list::Owned<primitive_list::Owned<u16>>> = objects.pointer_list(&lists)?;
/// objects.set_root(list);
/// assert_eq!(rt; objects.bytes().len(), 8 * 5);
/// ```
pub struct Owned<T> {
    element: PhantomData<T>,
}

impl<'a, S: ReaderSegments + 'a, T: traits::Owned<'a, S>> traits::Owned<'a, S> for Owned<T> {
    type Reader = Reader<'a, S, T::Reader>;
}

// The value is the list of the pointers, with all below them, whatever the elements are.
impl<'a, S: ReaderSegments + 'a, T: traits::Owned<'a, S>> SetterInput<Owned<T>>
    for Reader<'a, S, T::Reader> {
    ghost use Rattle.capnp_wire.specs.ListViews.{pointer_list_of};
    ghost use Rattle.capnp_wire.specs.ListValues.{IsListTree, WalkErrorInList};
    ghost use Rattle.capnp_layout.specs.Tree.{count, pointers};
    ghost use Rattle.std.proofs.Common.{ap};

    ghost has_tree = { λ list trees.
        IsListTree pointers (pointer_list_of S.segments list.pointers) trees };

    ghost fails = { λ list kind. WalkErrorInList (pointer_list_of S.segments list.pointers) kind };

    ghost one = { λ value trees is. ap count is.whole };

    fn measure(&self, canonical: bool) -> Result<u32> {
        SetterInput::<any_pointer_list::Owned>::measure(&self.pointers, canonical)
    }

    fn is_null(&self) -> bool {
        false
    }

    fn write(&self, canonical: bool, block: &mut [u8], following: usize, next: usize) -> Copied {
        let pointers = &self.pointers;
        SetterInput::<any_pointer_list::Owned>::write(pointers, canonical, block, following, next)
    }
}
