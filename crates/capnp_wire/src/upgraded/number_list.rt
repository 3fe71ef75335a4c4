//! Lists that are read as lists of numbers.
ghost use Rattle.std.specs.Prelude.{◌≡◌, ◌↔◌, ◌+◌, ◌*◌, ◌/◌, ◌<◌, ◌≤◌, length, slice_index, IsTrue, MatchResult};
ghost use Rattle.std.specs.Option.{ForSome};
ghost use Rattle.capnp_layout.specs.Prelude.{code_of, width, room_of, words_in, words_of};
ghost use Rattle.capnp_wire.specs.UpgradedViews.{IsFirstField};

use crate::any_pointer::ObjectKind;
use crate::object_content::{object_numbers, wrong_kind};
use crate::object_view::{ObjectView, read};
use crate::primitive_element::PrimitiveElement;
use crate::traits::{FromPointerInSegment, FromPointerReader, IndexMove, ListIter};
use crate::{any_pointer, primitive_list};
use capnp_frame::Result;
use capnp_frame::message::ReaderSegments;
use capnp_layout::element_size::ElementSize;
use capnp_layout::object::{Object, words_fit};
use capnp_layout::place::word;
use capnp_layout::pointer::StructSize;
use std::marker::PhantomData;

/// A list of numbers in a message, or of structs whose first field is such a number.
///
/// ```
/// let message = serialize::read_message(alloc, &mut list_of_structs, options)?;
/// let ports: upgraded::NumberList<'_, u16> = message.get_root()?;
/// assert_eq!(rt; ports.len(), 2);
/// assert_eq!(rt; ports.try_get(1), Some(443));
/// ```
#[derive(Drop)]
pub struct NumberList<'a, T: PrimitiveElement> {
    pub(crate) numbers: Numbers<primitive_list::Reader<'a, T>, FirstFields<'a, T>>,
}

/// The elements: numbers of a list, or the first fields of structs.
#[derive(Drop)]
pub(crate) enum Numbers<L, F> {
    InPlace(L),
    OfStructs(F),
}

/// The first fields of consecutive structs.
#[derive(Drop)]
pub(crate) struct FirstFields<'a, T: PrimitiveElement> {
    pub segment: &'a [u8],
    /// The word at which the first struct begins.
    pub first: usize,
    pub size: StructSize,
    pub count: u32,
    pub element: PhantomData<T>,
    ghost room: { first + count * (size.data_words + size.pointers) ≤ length segment.now / 8 },
    ghost inside: { width T.code ≤ 64 * size.data_words },
}

impl<'a, T: PrimitiveElement> FirstFields<'a, T> {
    ghost use Rattle.capnp_wire.specs.UpgradedReaders.{fields_of};

    // The first field of the struct at this index.
    fn get(&self, index: u32) -> T
        requires { index < length (fields_of T.code self.now) }
        ensures { result ≡ T.value_of (slice_index (fields_of T.code self.now) index) }
    {
        // For the prover: each word is below 2^64, and so is the number of bytes.
        words_fit(self.segment);
        let size = T::size();
        let words_before = index as usize * self.size.words() as usize;
        let word = word(self.segment, self.first + words_before).unwrap_or(0);
        T::from_bits(size.in_word(word, 0))
    }
}

impl<'a, T: PrimitiveElement> NumberList<'a, T> {
    ghost use Rattle.capnp_wire.specs.Lists.{FindsElement, IteratesOver};
    ghost use Rattle.capnp_wire.specs.Readers.{pointer_of, form_of};
    ghost use Rattle.capnp_wire.specs.Views.{HasSegment, Reads, ViewError};
    ghost use Rattle.capnp_wire.specs.UpgradedViews.{ReadsAsNumbers, FieldsFormError};
    ghost use Rattle.capnp_wire.specs.UpgradedReaders.{upgraded_numbers_of};

    /// The number of elements.
    pub fn len(&self) -> u32
        ensures { result ≡ length (upgraded_numbers_of T.code self.now) }
    {
        match &self.numbers {
            Numbers::InPlace(list) => list.len(),
            Numbers::OfStructs(list) => list.count,
        }
    }

    /// The element at this index, which must be below `len`; `try_get` takes any.
    pub fn get(&self, index: u32) -> T
        requires { index < length (upgraded_numbers_of T.code self.now) }
        ensures { result ≡ T.value_of (slice_index (upgraded_numbers_of T.code self.now) index) }
    {
        match &self.numbers {
            Numbers::InPlace(list) => list.get(index),
            Numbers::OfStructs(list) => list.get(index),
        }
    }

    /// The element at this index, or `None` where the list ends before it.
    pub fn try_get(&self, index: u32) -> Option<T>
        ensures { FindsElement (length (upgraded_numbers_of T.code self.now)) index
            (λ item. item ≡ T.value_of (slice_index (upgraded_numbers_of T.code self.now) index)) result }
    {
        self.try_index_move(index)
    }

    /// An iterator over the elements.
    pub fn iter(&self) -> ListIter<'_, Self>
        ensures { IteratesOver (length (upgraded_numbers_of T.code self.now)) self.now result }
    {
        ListIter::new(self)
    }

    // The list of numbers that an object is read as.
    #[inline(always)]
    fn of(object: &Object<'a>) -> Result<NumberList<'a, T>>
        requires room { object.now.start.word + room_of object.now.body
            ≤ length object.now.segment.now / 8 }
        requires elements { words_in object.now.body ≤ room_of object.now.body }
        ensures { MatchResult result (λ view.
            ReadsAsNumbers T.code (form_of object.now) (upgraded_numbers_of T.code view))
            (λ error. FieldsFormError T.code (form_of object.now) error.kind) }
    {
        let Some(elements) = object.body.as_structs() else {
            let list = object_numbers(object, T::size())?;
            return Ok(NumberList {
                numbers: Numbers::InPlace(primitive_list::Reader {
                    bytes: list.bytes,
                    count: list.count,
                    element: PhantomData,
                }),
            });
        };
        if !is_first_field(T::size(), elements.size.data_words) {
            return Err(wrong_kind());
        }
        // For the prover: each word is below 2^64, and so is the number of bytes.
        words_fit(object.segment);
        Ok(NumberList {
            numbers: Numbers::OfStructs(FirstFields {
                segment: object.segment,
                first: object.start.word + 1,
                size: elements.size,
                count: elements.count,
                element: PhantomData,
            }),
        })
    }
}

// Whether an element of this size can be the first field of structs of this many data words.
fn is_first_field(size: ElementSize, data_words: u16) -> bool
    ensures { IsTrue result ↔ IsFirstField (code_of size) data_words }
{
    size != ElementSize::Bit && size.bits() <= 64 * data_words as u64
}

impl<'a, T: PrimitiveElement> IndexMove for NumberList<'a, T> {
    ghost use Rattle.capnp_wire.specs.UpgradedReaders.{upgraded_numbers_of};

    type Item = T;

    ghost Element = { T };

    ghost seen = { λ item. item };

    ghost size = { λ list. length (upgraded_numbers_of T.code list) };

    ghost element = { λ list index. T.value_of (slice_index (upgraded_numbers_of T.code list) index) };

    fn len(&self) -> u32 {
        self.len()
    }

    fn index_move(&self, index: u32) -> T {
        self.get(index)
    }
}

// Null is an empty list; a list of numbers of this size shows its numbers, and a list of structs
// that have a data word shows their first fields. Any other object fails with `WrongPointerKind`;
// where bits are asked for, so does any object other than a list of bits.
impl<'a: 'v, 'v, S: ReaderSegments, T: PrimitiveElement> FromPointerReader<'a, S>
    for NumberList<'v, T> {
    ghost use Rattle.capnp_wire.specs.Readers.{pointer_of};
    ghost use Rattle.capnp_wire.specs.Views.{IsViewOf, Accepts, Reads, ViewError, FormError};
    ghost use Rattle.capnp_wire.specs.UpgradedViews.{ReadsAsNumbers, TakesFields, FieldsFormError};
    ghost use Rattle.capnp_wire.specs.UpgradedReaders.{upgraded_numbers_of};

    ghost shows = { λ pointer view.
        Reads pointer (λ form. ReadsAsNumbers T.code form (upgraded_numbers_of T.code view)) };

    ghost accepts = { λ pointer. Accepts pointer (TakesFields T.code) };

    ghost fails = { λ pointer kind. ViewError pointer (FieldsFormError T.code) kind };

    ghost form_error = { λ pointer kind. FormError pointer (FieldsFormError T.code) kind };

    #[inline(always)]
    fn get_from_pointer(reader: any_pointer::Reader<'a, S>) -> Result<Self>
        ensures { let pointer = pointer_of S.segments reader.entry in IsViewOf pointer
            (λ view. Reads pointer (λ form.
            ReadsAsNumbers T.code form (upgraded_numbers_of T.code view)))
            (Accepts pointer (TakesFields T.code)) (ViewError pointer (FieldsFormError T.code))
            (FormError pointer (FieldsFormError T.code)) result }
    {
        read(&reader, None)
    }
}

impl<'a: 'v, 'v, S: ReaderSegments, T: PrimitiveElement> FromPointerInSegment<'a, S>
    for NumberList<'v, T> {
    ghost use Rattle.capnp_wire.specs.Readers.{pointer_of};
    ghost use Rattle.capnp_wire.specs.Views.{HasSegment, IsViewOf, Accepts, Reads, ViewError, FormError};
    ghost use Rattle.capnp_wire.specs.UpgradedViews.{ReadsAsNumbers, TakesFields, FieldsFormError};
    ghost use Rattle.capnp_wire.specs.UpgradedReaders.{upgraded_numbers_of};

    #[inline(always)]
    fn get_from_segment(reader: any_pointer::Reader<'a, S>, segment: &'a [u8]) -> Result<Self>
        requires { HasSegment (pointer_of S.segments reader) (words_of segment.now) }
        ensures { let pointer = pointer_of S.segments reader.entry in IsViewOf pointer
            (λ view. Reads pointer (λ form.
            ReadsAsNumbers T.code form (upgraded_numbers_of T.code view)))
            (Accepts pointer (TakesFields T.code)) (ViewError pointer (FieldsFormError T.code))
            (FormError pointer (FieldsFormError T.code)) result }
    {
        read(&reader, Some(segment))
    }
}

impl<'a: 'v, 'v, S: ReaderSegments, T: PrimitiveElement> ObjectView<'a, S> for NumberList<'v, T> {
    ghost use Rattle.std.proofs.Common.{inl};
    ghost use Rattle.capnp_wire.specs.Views.{Reads, ViewError};
    ghost use Rattle.capnp_wire.specs.UpgradedViews.{ReadsAsNumbers, FieldsFormError};
    ghost use Rattle.capnp_wire.specs.UpgradedReaders.{upgraded_numbers_of};

    ghost shows = { λ pointer view.
        Reads pointer (λ form. ReadsAsNumbers T.code form (upgraded_numbers_of T.code view)) };

    ghost fails = { λ pointer kind. ViewError pointer (FieldsFormError T.code) kind };

    #[inline(always)]
    fn kind() -> ObjectKind {
        ObjectKind::Numbers(T::size())
    }

    #[inline(always)]
    fn of_null(_reader: &any_pointer::Reader<'a, S>) -> Self {
        NumberList {
            numbers: Numbers::InPlace(primitive_list::Reader {
                bytes: &[],
                count: 0,
                element: PhantomData,
            }),
        }
    }

    #[inline(always)]
    fn of_object(_reader: &any_pointer::Reader<'a, S>, object: &Object<'a>) -> Result<Self> {
        NumberList::of(object)
    }

    ghost unread = { λ pointer kind error. inl error };
}
