//! Lists of numbers.
mod reader;

use crate::layout::copy::Copied;
use crate::layout::value;
use crate::primitive_element::PrimitiveElement;
use crate::traits::{self, SetterInput};
use capnp_frame::Result;
use capnp_frame::message::ReaderSegments;
pub use reader::Reader;
use std::marker::PhantomData;

/// A list of numbers, as a type of a schema.
///
/// ```
/// let ports: Orphan<primitive_list::Owned<u16>> = objects.numbers(&[80, 443, 8080])?;
/// objects.set_root(ports);
/// assert_eq!(rt; objects.bytes().len(), 8 * 2);
/// ```
pub struct Owned<T> {
    element: PhantomData<T>,
}

impl<'a, S: ReaderSegments, T: PrimitiveElement + 'a> traits::Owned<'a, S> for Owned<T> {
    type Reader = Reader<'a, T>;
}

// The value is the list of the numbers.
impl<'a, T: PrimitiveElement> SetterInput<Owned<T>> for Reader<'a, T> {
    ghost use Rattle.capnp_wire.specs.NumberViews.{numbers_of};
    ghost use Rattle.capnp_wire.specs.ListValues.{IsNumbersTree, TooManyNumbers};
    ghost use Rattle.capnp_layout.specs.Tree.{count};
    ghost use Rattle.std.proofs.Common.{ap};

    ghost has_tree = { λ list trees. IsNumbersTree T.code (numbers_of T.code list) trees };

    ghost fails = { λ list kind. TooManyNumbers T.code (numbers_of T.code list) kind };

    ghost one = { λ value trees is. ap count is.1 };

    fn measure(&self, _canonical: bool) -> Result<u32> {
        value::measure_numbers(T::size(), self.count)
    }

    fn is_null(&self) -> bool {
        false
    }

    fn write(&self, _canonical: bool, block: &mut [u8], following: usize, next: usize) -> Copied {
        value::write_numbers(&self.as_value(), block, following, next)
    }
}
