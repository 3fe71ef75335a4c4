//! Lists that are read as lists of an enum's values.
ghost use Rattle.std.specs.Prelude.{◌≡◌, ◌<◌, ℕ, length, slice_index};
ghost use Rattle.capnp_layout.specs.Prelude.{words_of};
ghost use Rattle.capnp_wire.specs.Enums.{hash_of_number};

use crate::any_pointer;
use crate::traits::{FromPointerInSegment, FromPointerReader, IndexMove, ListIter};
use crate::upgraded::number_list::NumberList;
use capnp_frame::Result;
use capnp_frame::message::ReaderSegments;
use std::hash::Hash;
use std::marker::PhantomData;

/// An enum of a schema, whose values a message holds by their numbers: a variant for each number
/// that the schema names, in their order, and a last one that keeps any other number.
///
/// Contracts see a value by what its derived `Hash` feeds: the index of the variant, and the number
/// that the last one keeps. No clause says that two values never feed the same.
///
/// ```
/// assert!(rt; Color::from_number(0) == Color::Red);
/// assert!(rt; Color::from_number(7) == Color::NotInSchema(7));
/// ```
pub trait EnumElement: Hash + Sized {
    /// How many numbers the schema names.
    ghost named: { ℕ };

    /// The value of this number; where the schema names none, the variant that keeps the number.
    fn from_number(number: u16) -> Self
        ensures { Self.hash_input result ≡ hash_of_number named number };
}

/// A list of an enum's values in a message, or of structs whose first field is such a value.
///
/// Contracts see it by its numbers, and an element as the value of its number.
///
/// ```
/// let colors: upgraded::EnumList<'_, Color> = message.get_root()?;
/// assert!(rt; colors.try_get(0) == Some(Color::Green));
/// assert!(rt; colors.try_get(2) == Some(Color::NotInSchema(7)));
/// ```
#[derive(Drop)]
pub struct EnumList<'a, E> {
    pub(crate) numbers: NumberList<'a, u16>,
    element: PhantomData<E>,
}

impl<'a, E: EnumElement> EnumList<'a, E> {
    ghost use Rattle.capnp_wire.specs.Lists.{FindsElement, IteratesOver};
    ghost use Rattle.capnp_wire.specs.UpgradedReaders.{upgraded_numbers_of};

    /// The numbers of the values.
    pub fn numbers(&self) -> &NumberList<'a, u16>
        ensures { result.now ≡ self.now.numbers }
    {
        &self.numbers
    }

    /// The number of elements.
    pub fn len(&self) -> u32
        ensures { result ≡ length (upgraded_numbers_of 3 self.now.numbers) }
    {
        self.numbers.len()
    }

    /// The element at this index, which must be below `len`; `try_get` takes any.
    pub fn get(&self, index: u32) -> E
        requires { index < length (upgraded_numbers_of 3 self.now.numbers) }
        ensures { E.hash_input result ≡ hash_of_number E.named
            (slice_index (upgraded_numbers_of 3 self.now.numbers) index) }
    {
        E::from_number(self.numbers.get(index))
    }

    /// The element at this index, or `None` where the list ends before it.
    pub fn try_get(&self, index: u32) -> Option<E>
        ensures { FindsElement (length (upgraded_numbers_of 3 self.now.numbers)) index
            (λ item. E.hash_input item ≡ hash_of_number E.named
            (slice_index (upgraded_numbers_of 3 self.now.numbers) index)) result }
    {
        self.try_index_move(index)
    }

    /// An iterator over the elements.
    pub fn iter(&self) -> ListIter<'_, Self>
        ensures { IteratesOver (length (upgraded_numbers_of 3 self.now.numbers)) self.now result }
    {
        ListIter::new(self)
    }
}

// A contract sees of an element which value it is.
impl<'a, E: EnumElement> IndexMove for EnumList<'a, E> {
    ghost use Rattle.std.specs.Hash.{HashWrites};
    ghost use Rattle.capnp_wire.specs.UpgradedReaders.{upgraded_numbers_of};

    type Item = E;

    ghost Element = { HashWrites };

    ghost seen = { E.hash_input };

    ghost size = { λ list. length (upgraded_numbers_of 3 list.numbers) };

    ghost element = { λ list index.
        hash_of_number E.named (slice_index (upgraded_numbers_of 3 list.numbers) index) };

    fn len(&self) -> u32 {
        self.len()
    }

    fn index_move(&self, index: u32) -> E {
        self.get(index)
    }
}

// Null is an empty list; anything else is read as a list of 16-bit numbers, each as a value of the
// enum.
impl<'a: 'v, 'v, S: ReaderSegments, E> FromPointerReader<'a, S> for EnumList<'v, E> {
    ghost use Rattle.capnp_wire.specs.Readers.{pointer_of};
    ghost use Rattle.capnp_wire.specs.Views.{IsViewOf, Accepts, Reads, ViewError, FormError};
    ghost use Rattle.capnp_wire.specs.UpgradedViews.{ReadsAsNumbers, TakesFields, FieldsFormError};
    ghost use Rattle.capnp_wire.specs.UpgradedReaders.{upgraded_numbers_of};

    ghost shows = { λ pointer view.
        Reads pointer (λ form. ReadsAsNumbers 3 form (upgraded_numbers_of 3 view.numbers)) };

    ghost accepts = { λ pointer. Accepts pointer (TakesFields 3) };

    ghost fails = { λ pointer kind. ViewError pointer (FieldsFormError 3) kind };

    ghost form_error = { λ pointer kind. FormError pointer (FieldsFormError 3) kind };

    #[inline(always)]
    fn get_from_pointer(reader: any_pointer::Reader<'a, S>) -> Result<Self>
        ensures { let pointer = pointer_of S.segments reader.entry in IsViewOf pointer
            (λ view. Reads pointer (λ form.
            ReadsAsNumbers 3 form (upgraded_numbers_of 3 view.numbers)))
            (Accepts pointer (TakesFields 3)) (ViewError pointer (FieldsFormError 3))
            (FormError pointer (FieldsFormError 3)) result }
    {
        match NumberList::get_from_pointer(reader) {
            Ok(numbers) => Ok(EnumList {
                numbers,
                element: PhantomData,
            }),
            Err(error) => Err(error),
        }
    }
}

impl<'a: 'v, 'v, S: ReaderSegments, E> FromPointerInSegment<'a, S> for EnumList<'v, E> {
    ghost use Rattle.capnp_wire.specs.Readers.{pointer_of};
    ghost use Rattle.capnp_wire.specs.Views.{HasSegment, IsViewOf, Accepts, Reads, ViewError, FormError};
    ghost use Rattle.capnp_wire.specs.UpgradedViews.{ReadsAsNumbers, TakesFields, FieldsFormError};
    ghost use Rattle.capnp_wire.specs.UpgradedReaders.{upgraded_numbers_of};

    #[inline(always)]
    fn get_from_segment(reader: any_pointer::Reader<'a, S>, segment: &'a [u8]) -> Result<Self>
        requires { HasSegment (pointer_of S.segments reader) (words_of segment.now) }
        ensures { let pointer = pointer_of S.segments reader.entry in IsViewOf pointer
            (λ view. Reads pointer (λ form.
            ReadsAsNumbers 3 form (upgraded_numbers_of 3 view.numbers)))
            (Accepts pointer (TakesFields 3)) (ViewError pointer (FieldsFormError 3))
            (FormError pointer (FieldsFormError 3)) result }
    {
        match NumberList::get_from_segment(reader, segment) {
            Ok(numbers) => Ok(EnumList {
                numbers,
                element: PhantomData,
            }),
            Err(error) => Err(error),
        }
    }
}
