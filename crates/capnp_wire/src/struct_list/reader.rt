//! Readers of lists of structs.
ghost use Rattle.std.specs.Prelude.{◌≡◌, ◌+◌, ◌*◌, ◌/◌, ◌^◌, ◌<◌, ◌≤◌, length, MatchResult};
ghost use Rattle.std.specs.Option.{ForSome};
ghost use Rattle.capnp_layout.specs.Prelude.{words_of, message_of};
ghost use Rattle.capnp_wire.specs.Values.{HasPointersSegment};

use crate::any_pointer;
use crate::any_pointer::ObjectKind;
use crate::any_struct::StructReader;
use crate::object_content::wrong_kind;
use crate::object_view::{ObjectView, read};
use crate::read_limiter::ReadLimiter;
use crate::traits::{FromPointerInSegment, FromPointerReader, IndexMove, ListIter};
use capnp_frame::Result;
use capnp_frame::message::ReaderSegments;
use capnp_layout::object::{Object, words_fit};
use capnp_layout::place::Place;
use capnp_layout::pointer::{Elements, StructSize};

/// A list of structs in a message, all of one size.
///
/// ```
/// let entries: struct_list::Reader<'_, OwnedSegments> = message.get_root()?;
/// let mut total: u32 = 0;
/// for entry in entries.iter() {
///     total = total.saturating_add(entry.get_data_field::<u32>(0));
/// }
/// assert_eq!(rt; total, 42);
/// ```
#[derive(Drop)]
pub struct Reader<'a, S: ReaderSegments> {
    pub(crate) segments: &'a S,
    pub(crate) limiter: Option<&'a ReadLimiter>,
    pub(crate) segment: &'a [u8],
    /// Where the first element begins, after the tag.
    pub(crate) first: Place,
    pub(crate) elements: Elements,
    pub(crate) nesting: u32,
    ghost room: { first.word + elements.count * (elements.size.data_words + elements.size.pointers)
        ≤ length segment.now / 8 },
    ghost content: { HasPointersSegment (message_of (S.segments segments.now)) (words_of segment.now)
        first elements.size },
    ghost few: { elements.count < 2 ^ 30 },
    ghost few_words: { elements.count * (elements.size.data_words + elements.size.pointers)
        < 2 ^ 29 },
}

impl<'a, S: ReaderSegments> Reader<'a, S> {
    ghost use Rattle.capnp_wire.specs.Lists.{FindsElement, IteratesOver};
    ghost use Rattle.capnp_wire.specs.Readers.{struct_of, pointer_of, IsEntered};
    ghost use Rattle.capnp_wire.specs.Views.{HasSegment, ViewError};
    ghost use Rattle.capnp_wire.specs.ListViews.{struct_list_of, element_of, no_structs, structs_in, IsStructList, StructsFormError};

    /// The number of elements.
    pub fn len(&self) -> u32
        ensures { result ≡ length (struct_list_of S.segments self.now).elements }
    {
        self.elements.count
    }

    /// The element at this index, which must be below `len`; `try_get` takes any. Its pointers have
    /// the nesting depth that is left below the list. Its words were counted against the traversal
    /// limit with the list's.
    pub fn get(&self, index: u32) -> StructReader<'a, S>
        requires { index < length (struct_list_of S.segments self.now).elements }
        ensures { struct_of S.segments result
            ≡ element_of (struct_list_of S.segments self.now) index }
    {
        // `rt try`, which tests no `requires`, stops here at an index past the end.
        let len = self.len();
        prove!(index < len);
        let words_before = index as usize * self.elements.size.words() as usize;
        StructReader {
            segments: self.segments,
            limiter: self.limiter,
            segment: self.segment,
            start: Place {
                segment: self.first.segment,
                word: self.first.word + words_before,
            },
            size: self.elements.size,
            nesting: self.nesting,
            part: None,
        }
    }

    /// The element at this index, or `None` where the list ends before it.
    pub fn try_get(&self, index: u32) -> Option<StructReader<'a, S>>
        ensures { FindsElement (length (struct_list_of S.segments self.now).elements) index
            (λ item. struct_of S.segments item
            ≡ element_of (struct_list_of S.segments self.now) index) result }
    {
        self.try_index_move(index)
    }

    /// An iterator over the elements.
    pub fn iter(&self) -> ListIter<'_, Self>
        ensures { IteratesOver (length (struct_list_of S.segments self.now).elements)
            self.now result }
    {
        ListIter::new(self)
    }

    /// The list that null is read as, which has no elements.
    pub(crate) fn empty(reader: &any_pointer::Reader<'a, S>) -> Reader<'a, S>
        ensures { struct_list_of S.segments result ≡ no_structs (pointer_of S.segments reader.now) }
    {
        Reader {
            segments: reader.segments,
            limiter: reader.limiter,
            segment: &[],
            first: Place {
                segment: 0,
                word: 0,
            },
            elements: Elements {
                size: StructSize {
                    data_words: 0,
                    pointers: 0,
                },
                count: 0,
            },
            nesting: reader.nesting.saturating_sub(1),
        }
    }

    /// The structs in an object, after this many of its words.
    #[inline(always)]
    pub(crate) fn within(
        reader: &any_pointer::Reader<'a, S>,
        object: &Object<'a>,
        skipped: usize,
        elements: Elements,
    ) -> Reader<'a, S>
        requires entered { IsEntered (pointer_of S.segments reader.now) object.now }
        requires room { object.now.start.word + skipped
            + elements.count * (elements.size.data_words + elements.size.pointers)
            ≤ length object.now.segment.now / 8 }
        requires few { elements.count < 2 ^ 30 }
        requires few_words { elements.count * (elements.size.data_words + elements.size.pointers)
            < 2 ^ 29 }
        ensures { struct_list_of S.segments result
            ≡ structs_in (pointer_of S.segments reader.now) object.now skipped elements }
    {
        // For the prover: each word is below 2^64, and so is the number of bytes.
        words_fit(object.segment);
        Reader {
            segments: reader.segments,
            limiter: reader.limiter,
            segment: object.segment,
            first: Place {
                segment: object.start.segment,
                word: object.start.word + skipped,
            },
            elements,
            nesting: reader.nesting.saturating_sub(1),
        }
    }
}

impl<'a, S: ReaderSegments> ObjectView<'a, S> for Reader<'a, S> {
    ghost use Rattle.std.proofs.Common.{inl};
    ghost use Rattle.capnp_wire.specs.Views.{ViewError};
    ghost use Rattle.capnp_wire.specs.ListViews.{struct_list_of, IsStructList, StructsFormError};

    ghost shows = { λ pointer view. IsStructList pointer (struct_list_of S.segments view) };

    ghost fails = { λ pointer kind. ViewError pointer StructsFormError kind };

    #[inline(always)]
    fn kind() -> ObjectKind {
        ObjectKind::Structs
    }

    fn of_null(reader: &any_pointer::Reader<'a, S>) -> Self {
        Reader::empty(reader)
    }

    #[inline(always)]
    fn of_object(reader: &any_pointer::Reader<'a, S>, object: &Object<'a>) -> Result<Self> {
        let Some(elements) = object.body.as_structs() else {
            return Err(wrong_kind());
        };
        Ok(Reader::within(reader, object, 1, elements))
    }

    ghost unread = { λ pointer kind error. inl error };
}

impl<'a, S: ReaderSegments> IndexMove for Reader<'a, S> {
    ghost use Rattle.capnp_wire.specs.Views.{Struct};
    ghost use Rattle.capnp_wire.specs.Readers.{struct_of};
    ghost use Rattle.capnp_wire.specs.ListViews.{struct_list_of, element_of};

    type Item = StructReader<'a, S>;

    ghost Element = { Struct };

    ghost seen = { struct_of S.segments };

    ghost size = { λ list. length (struct_list_of S.segments list).elements };

    ghost element = { λ list index. element_of (struct_list_of S.segments list) index };

    fn len(&self) -> u32 {
        self.len()
    }

    fn index_move(&self, index: u32) -> StructReader<'a, S> {
        self.get(index)
    }
}

// Null is an empty list; any object other than a list of structs fails with `WrongPointerKind`.
impl<'a, S: ReaderSegments> FromPointerReader<'a, S> for Reader<'a, S> {
    ghost use Rattle.capnp_wire.specs.Readers.{pointer_of};
    ghost use Rattle.capnp_wire.specs.Views.{IsViewOf, Accepts, ViewError, FormError};
    ghost use Rattle.capnp_wire.specs.ListViews.{struct_list_of, IsStructList, TakesStructs, StructsFormError};

    ghost shows = { λ pointer view. IsStructList pointer (struct_list_of S.segments view) };

    ghost accepts = { λ pointer. Accepts pointer TakesStructs };

    ghost fails = { λ pointer kind. ViewError pointer StructsFormError kind };

    ghost form_error = { λ pointer kind. FormError pointer StructsFormError kind };

    #[inline(always)]
    fn get_from_pointer(reader: any_pointer::Reader<'a, S>) -> Result<Self>
        ensures { let pointer = pointer_of S.segments reader.entry in IsViewOf pointer
            (λ view. IsStructList pointer (struct_list_of S.segments view))
            (Accepts pointer TakesStructs) (ViewError pointer StructsFormError)
            (FormError pointer StructsFormError) result }
    {
        read(&reader, None)
    }
}

impl<'a, S: ReaderSegments> FromPointerInSegment<'a, S> for Reader<'a, S> {
    ghost use Rattle.capnp_wire.specs.Readers.{pointer_of};
    ghost use Rattle.capnp_wire.specs.Views.{HasSegment, IsViewOf, Accepts, ViewError, FormError};
    ghost use Rattle.capnp_wire.specs.ListViews.{struct_list_of, IsStructList, TakesStructs, StructsFormError};

    #[inline(always)]
    fn get_from_segment(reader: any_pointer::Reader<'a, S>, segment: &'a [u8]) -> Result<Self>
        requires { HasSegment (pointer_of S.segments reader) (words_of segment.now) }
        ensures { let pointer = pointer_of S.segments reader.entry in IsViewOf pointer
            (λ view. IsStructList pointer (struct_list_of S.segments view))
            (Accepts pointer TakesStructs) (ViewError pointer StructsFormError)
            (FormError pointer StructsFormError) result }
    {
        read(&reader, Some(segment))
    }
}
