//! Readers of lists of numbers.
ghost use Rattle.std.specs.Prelude.{◌≡◌, ◌+◌, ◌*◌, ◌/◌, ◌<◌, ◌≤◌, length, slice_index, MatchResult};
ghost use Rattle.std.specs.Option.{ForSome};
ghost use Rattle.capnp_layout.specs.Prelude.{words_of, code_of, width, words_for, room_of};

use crate::any_pointer;
use crate::any_pointer::ObjectKind;
use crate::object_content::object_numbers;
use crate::object_view::{ObjectView, read};
use crate::primitive_element::PrimitiveElement;
use crate::traits::{FromPointerInSegment, FromPointerReader, IndexMove, ListIter};
use capnp_frame::Result;
use capnp_frame::message::ReaderSegments;
use capnp_layout::number_list::NumberList;
use capnp_layout::object::{Object, words_fit};
use capnp_layout::place::{Place, word};
use std::marker::PhantomData;

/// A list of numbers, of bools or of `Void` in a message.
///
/// ```
/// let ports: primitive_list::Reader<'_, u16> = message.get_root()?;
/// assert_eq!(rt; (ports.try_get(1), ports.try_get(3)), (Some(443), None));
/// assert_eq!(rt; ports.iter().max(), Some(8080));
/// ```
#[derive(Drop)]
pub struct Reader<'a, T: PrimitiveElement> {
    /// The words of the list.
    pub(crate) bytes: &'a [u8],
    pub(crate) count: u32,
    pub(crate) element: PhantomData<T>,
    ghost whole: { length bytes.now ≡ 8 * words_for count (width T.code) },
}

impl<'a, T: PrimitiveElement> Reader<'a, T> {
    ghost use Rattle.capnp_wire.specs.Lists.{FindsElement, IteratesOver};
    ghost use Rattle.capnp_wire.specs.NumberViews.{numbers_of, IsNumbers};
    ghost use Rattle.capnp_wire.specs.Views.{HasSegment, Reads, ViewError, NumbersFormError};
    ghost use Rattle.capnp_wire.specs.Readers.{pointer_of, form_of};

    /// The number of elements.
    pub fn len(&self) -> u32
        ensures { result ≡ length (numbers_of T.code self.now) }
    {
        self.count
    }

    /// The element at this index, which must be below `len`; `try_get` takes any.
    pub fn get(&self, index: u32) -> T
        requires { index < length (numbers_of T.code self.now) }
        ensures { result ≡ T.value_of (slice_index (numbers_of T.code self.now) index) }
    {
        // `rt try`, which tests no `requires`, stops here at an index past the end.
        let len = self.len();
        prove!(index < len);
        // For the prover: each word is below 2^64, and so is the number of bytes.
        words_fit(self.bytes);
        let size = T::size();
        let word = word(self.bytes, size.word_of(index) as usize).unwrap_or(0);
        T::from_bits(size.in_word(word, index))
    }

    /// The element at this index, or `None` where the list ends before it.
    pub fn try_get(&self, index: u32) -> Option<T>
        ensures { FindsElement (length (numbers_of T.code self.now)) index
            (λ item. item ≡ T.value_of (slice_index (numbers_of T.code self.now) index)) result }
    {
        self.try_index_move(index)
    }

    /// An iterator over the elements.
    pub fn iter(&self) -> ListIter<'_, Self>
        ensures { IteratesOver (length (numbers_of T.code self.now)) self.now result }
    {
        ListIter::new(self)
    }

    /// The list as a value to be copied.
    pub(crate) fn as_value(&self) -> NumberList<'a>
        ensures size { code_of result.size ≡ T.code }
        ensures count { result.count ≡ self.now.count }
        ensures start { result.start.word ≡ 0 }
        ensures bytes { result.segment.now ≡ self.now.bytes.now }
    {
        let size = T::size();
        NumberList {
            segment: self.bytes,
            start: Place {
                segment: 0,
                word: 0,
            },
            size,
            count: self.count,
            bits: size.bits_of_list(self.count),
        }
    }

    // The object as a list.
    #[inline(always)]
    fn in_object(object: &Object<'a>) -> Result<Reader<'a, T>>
        requires { object.now.start.word + room_of object.now.body
            ≤ length object.now.segment.now / 8 }
        ensures { MatchResult result
            (λ view. IsNumbers T.code (form_of object.now) (numbers_of T.code view))
            (λ error. NumbersFormError T.code (form_of object.now) error.kind) }
    {
        let list = object_numbers(object, T::size())?;
        Ok(Reader {
            bytes: list.bytes,
            count: list.count,
            element: PhantomData,
        })
    }
}

impl<'a, T: PrimitiveElement> IndexMove for Reader<'a, T> {
    ghost use Rattle.capnp_wire.specs.NumberViews.{numbers_of};

    type Item = T;

    ghost Element = { T };

    ghost seen = { λ item. item };

    ghost size = { λ list. length (numbers_of T.code list) };

    ghost element = { λ list index. T.value_of (slice_index (numbers_of T.code list) index) };

    fn len(&self) -> u32 {
        self.len()
    }

    fn index_move(&self, index: u32) -> T {
        self.get(index)
    }
}

// Null is an empty list; a list of numbers of this size shows its numbers; any other object fails
// with `WrongPointerKind`.
impl<'a: 'v, 'v, S: ReaderSegments, T: PrimitiveElement> FromPointerReader<'a, S>
    for Reader<'v, T> {
    ghost use Rattle.capnp_wire.specs.NumberViews.{numbers_of, IsNumbers};
    ghost use Rattle.capnp_wire.specs.Views.{IsViewOf, Accepts, Reads, ViewError, FormError, TakesNumbers, NumbersFormError};
    ghost use Rattle.capnp_wire.specs.Readers.{pointer_of};

    ghost shows = { λ pointer view.
        Reads pointer (λ form. IsNumbers T.code form (numbers_of T.code view)) };

    ghost accepts = { λ pointer. Accepts pointer (TakesNumbers T.code) };

    ghost fails = { λ pointer kind. ViewError pointer (NumbersFormError T.code) kind };

    ghost form_error = { λ pointer kind. FormError pointer (NumbersFormError T.code) kind };

    #[inline(always)]
    fn get_from_pointer(reader: any_pointer::Reader<'a, S>) -> Result<Self>
        ensures { let pointer = pointer_of S.segments reader.entry in IsViewOf pointer
            (λ view. Reads pointer (λ form. IsNumbers T.code form (numbers_of T.code view)))
            (Accepts pointer (TakesNumbers T.code)) (ViewError pointer (NumbersFormError T.code))
            (FormError pointer (NumbersFormError T.code)) result }
    {
        read(&reader, None)
    }
}

impl<'a: 'v, 'v, S: ReaderSegments, T: PrimitiveElement> FromPointerInSegment<'a, S>
    for Reader<'v, T> {
    ghost use Rattle.capnp_wire.specs.NumberViews.{numbers_of, IsNumbers};
    ghost use Rattle.capnp_wire.specs.Views.{HasSegment, IsViewOf, Accepts, Reads, ViewError, FormError, TakesNumbers, NumbersFormError};
    ghost use Rattle.capnp_wire.specs.Readers.{pointer_of};

    #[inline(always)]
    fn get_from_segment(reader: any_pointer::Reader<'a, S>, segment: &'a [u8]) -> Result<Self>
        requires { HasSegment (pointer_of S.segments reader) (words_of segment.now) }
        ensures { let pointer = pointer_of S.segments reader.entry in IsViewOf pointer
            (λ view. Reads pointer (λ form. IsNumbers T.code form (numbers_of T.code view)))
            (Accepts pointer (TakesNumbers T.code)) (ViewError pointer (NumbersFormError T.code))
            (FormError pointer (NumbersFormError T.code)) result }
    {
        read(&reader, Some(segment))
    }
}

impl<'a: 'v, 'v, S: ReaderSegments, T: PrimitiveElement> ObjectView<'a, S> for Reader<'v, T> {
    ghost use Rattle.std.proofs.Common.{inl};
    ghost use Rattle.capnp_wire.specs.NumberViews.{numbers_of, IsNumbers};
    ghost use Rattle.capnp_wire.specs.Views.{Reads, ViewError, NumbersFormError};

    ghost shows = { λ pointer view.
        Reads pointer (λ form. IsNumbers T.code form (numbers_of T.code view)) };

    ghost fails = { λ pointer kind. ViewError pointer (NumbersFormError T.code) kind };

    #[inline(always)]
    fn kind() -> ObjectKind {
        ObjectKind::Numbers(T::size())
    }

    #[inline(always)]
    fn of_null(_reader: &any_pointer::Reader<'a, S>) -> Self {
        Reader {
            bytes: &[],
            count: 0,
            element: PhantomData,
        }
    }

    #[inline(always)]
    fn of_object(_reader: &any_pointer::Reader<'a, S>, object: &Object<'a>) -> Result<Self> {
        Reader::in_object(object)
    }

    ghost unread = { λ pointer kind error. inl error };
}
