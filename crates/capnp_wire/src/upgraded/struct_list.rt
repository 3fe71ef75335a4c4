//! Lists that are read as lists of structs.
ghost use Rattle.std.specs.Prelude.{◌≡◌, ◌+◌, ◌*◌, ◌/◌, ◌^◌, ◌<◌, ◌≤◌, length, MatchResult};
ghost use Rattle.std.specs.Option.{ForSome};
ghost use Rattle.capnp_layout.specs.Prelude.{words_of};
ghost use Rattle.capnp_layout.specs.declared.object.Body.{Body};
ghost use Rattle.capnp_wire.specs.UpgradedViews.{elements_without_data as elements_of};

use crate::any_pointer::ObjectKind;
use crate::any_struct::StructReader;
use crate::object_content::{words_at, wrong_kind};
use crate::object_view::{ObjectView, read};
use crate::traits::{FromPointerInSegment, FromPointerReader, IndexMove, ListIter};
use crate::upgraded::number_structs::NumberStructs;
use crate::{any_pointer, struct_list};
use capnp_frame::Result;
use capnp_frame::message::ReaderSegments;
use capnp_layout::element_size::ElementSize;
use capnp_layout::object::{Body, Object};
use capnp_layout::pointer::{Elements, StructSize};

/// A list of structs, of numbers or of pointers in a message, read as a list of structs. A number
/// is in the low bits of its struct's one data word, and a pointer is its struct's one pointer.
///
/// ```
/// let message = serialize::read_message(alloc, &mut list_of_numbers, options)?;
/// let entries: upgraded::StructList<'_, OwnedSegments> = message.get_root()?;
/// let Some(entry) = entries.try_get(2) else {
///     panic!(rt; "no third entry");
/// };
/// assert_eq!(rt; entry.get_data_field::<u16>(0), 7);
/// assert_eq!(rt; entries.len(), 3);
/// ```
#[derive(Drop)]
pub struct StructList<'a, S: ReaderSegments> {
    pub(crate) elements: StructElements<'a, S>,
}

/// The elements.
#[derive(Drop)]
pub(crate) enum StructElements<'a, S: ReaderSegments> {
    /// Structs, and lists that have the layout of structs: pointers, and elements of no bytes.
    InPlace(struct_list::Reader<'a, S>),
    Numbers(NumberStructs<'a, S>),
}

impl<'a, S: ReaderSegments> StructList<'a, S> {
    ghost use Rattle.capnp_wire.specs.Lists.{FindsElement, IteratesOver};
    ghost use Rattle.capnp_wire.specs.Readers.{struct_of, pointer_of, IsEntered};
    ghost use Rattle.capnp_wire.specs.Views.{HasSegment, ViewError};
    ghost use Rattle.capnp_wire.specs.ListViews.{element_of, structs_in};
    ghost use Rattle.capnp_wire.specs.UpgradedViews.{IsUpgradedStructs, ElementsFormError};
    ghost use Rattle.capnp_wire.specs.UpgradedReaders.{upgraded_structs_of};

    /// The number of elements.
    pub fn len(&self) -> u32
        ensures { result ≡ length (upgraded_structs_of S.segments self.now).elements }
    {
        match &self.elements {
            StructElements::InPlace(list) => list.len(),
            StructElements::Numbers(numbers) => numbers.count,
        }
    }

    /// The element at this index, which must be below `len`; `try_get` takes any. Its pointers have
    /// the nesting depth that is left below the list. Its words were counted against the traversal
    /// limit with the list's.
    pub fn get(&self, index: u32) -> StructReader<'a, S>
        requires { index < length (upgraded_structs_of S.segments self.now).elements }
        ensures { struct_of S.segments result
            ≡ element_of (upgraded_structs_of S.segments self.now) index }
    {
        match &self.elements {
            StructElements::InPlace(list) => list.get(index),
            StructElements::Numbers(numbers) => numbers.get(index),
        }
    }

    /// The element at this index, or `None` where the list ends before it.
    pub fn try_get(&self, index: u32) -> Option<StructReader<'a, S>>
        ensures { FindsElement (length (upgraded_structs_of S.segments self.now).elements) index
            (λ item. struct_of S.segments item
            ≡ element_of (upgraded_structs_of S.segments self.now) index) result }
    {
        self.try_index_move(index)
    }

    /// An iterator over the elements.
    pub fn iter(&self) -> ListIter<'_, Self>
        ensures { IteratesOver (length (upgraded_structs_of S.segments self.now).elements)
            self.now result }
    {
        ListIter::new(self)
    }

    // A list of numbers as a list of structs.
    #[inline(never)]
    fn of_numbers(
        reader: &any_pointer::Reader<'a, S>,
        object: &Object<'a>,
        size: ElementSize,
        count: u32,
    ) -> Result<StructList<'a, S>>
        requires entered { IsEntered (pointer_of S.segments reader.now) object.now }
        requires numbers { object.now.body ≡ Body.Numbers size count }
        ensures { let pointer = pointer_of S.segments reader.now in MatchResult result
            (λ view. IsUpgradedStructs pointer (upgraded_structs_of S.segments view))
            (λ error. ViewError pointer ElementsFormError error.kind) }
    {
        let bits = size.bits();
        if bits == 1 {
            return Err(wrong_kind());
        }
        if bits == 0 {
            let elements = elements_without_data(0, count);
            return Ok(StructList::in_place(reader, object, 0, elements));
        }
        Ok(StructList {
            elements: StructElements::Numbers(NumberStructs {
                segments: reader.segments,
                limiter: reader.limiter,
                bytes: words_at(object.segment, object.start.word, size, count),
                size,
                count,
                nesting: reader.nesting.saturating_sub(1),
            }),
        })
    }

    // The structs of an object that has the layout of a list of structs.
    #[inline(always)]
    fn in_place(
        reader: &any_pointer::Reader<'a, S>,
        object: &Object<'a>,
        skipped: usize,
        elements: Elements,
    ) -> StructList<'a, S>
        requires entered { IsEntered (pointer_of S.segments reader.now) object.now }
        requires room { object.now.start.word + skipped
            + elements.count * (elements.size.data_words + elements.size.pointers)
            ≤ length object.now.segment.now / 8 }
        requires few { elements.count < 2 ^ 30 }
        requires few_words { elements.count * (elements.size.data_words + elements.size.pointers)
            < 2 ^ 29 }
        ensures { upgraded_structs_of S.segments result
            ≡ structs_in (pointer_of S.segments reader.now) object.now skipped elements }
    {
        StructList {
            elements: StructElements::InPlace(struct_list::Reader::within(
                reader, object, skipped, elements,
            )),
        }
    }
}

impl<'a, S: ReaderSegments> ObjectView<'a, S> for StructList<'a, S> {
    ghost use Rattle.std.proofs.Common.{inl};
    ghost use Rattle.capnp_wire.specs.Readers.{pointer_of};
    ghost use Rattle.capnp_wire.specs.Views.{IsViewOf, Accepts, ViewError, FormError};
    ghost use Rattle.capnp_wire.specs.UpgradedViews.{IsUpgradedStructs, TakesAsStructs, ElementsFormError};
    ghost use Rattle.capnp_wire.specs.UpgradedReaders.{upgraded_structs_of};

    ghost shows = { λ pointer view.
        IsUpgradedStructs pointer (upgraded_structs_of S.segments view) };

    ghost fails = { λ pointer kind. ViewError pointer ElementsFormError kind };

    #[inline(always)]
    fn kind() -> ObjectKind {
        ObjectKind::Structs
    }

    #[inline(always)]
    fn of_null(reader: &any_pointer::Reader<'a, S>) -> Self {
        StructList {
            elements: StructElements::InPlace(struct_list::Reader::empty(reader)),
        }
    }

    #[inline(always)]
    fn of_object(reader: &any_pointer::Reader<'a, S>, object: &Object<'a>) -> Result<Self> {
        match object.body {
            Body::Structs(elements, _) => Ok(StructList::in_place(reader, object, 1, elements)),
            Body::Pointers(count) => {
                Ok(StructList::in_place(reader, object, 0, elements_without_data(1, count)))
            }
            Body::Numbers(size, count) => StructList::of_numbers(reader, object, size, count),
            Body::Struct(_) => Err(wrong_kind()),
        }
    }

    ghost unread = { λ pointer kind error. inl error };
}

impl<'a, S: ReaderSegments> IndexMove for StructList<'a, S> {
    ghost use Rattle.capnp_wire.specs.Views.{Struct};
    ghost use Rattle.capnp_wire.specs.Readers.{struct_of};
    ghost use Rattle.capnp_wire.specs.ListViews.{element_of};
    ghost use Rattle.capnp_wire.specs.UpgradedReaders.{upgraded_structs_of};

    type Item = StructReader<'a, S>;

    ghost Element = { Struct };

    ghost seen = { struct_of S.segments };

    ghost size = { λ list. length (upgraded_structs_of S.segments list).elements };

    ghost element = { λ list index. element_of (upgraded_structs_of S.segments list) index };

    fn len(&self) -> u32 {
        self.len()
    }

    fn index_move(&self, index: u32) -> StructReader<'a, S> {
        self.get(index)
    }
}

// Structs of no data words, each with this many pointers.
fn elements_without_data(pointers: u16, count: u32) -> Elements
    ensures { result ≡ elements_of pointers count }
{
    Elements {
        size: StructSize {
            data_words: 0,
            pointers,
        },
        count,
    }
}

// Null is an empty list; a struct, and a list of bits, fail with `WrongPointerKind`.
impl<'a, S: ReaderSegments> FromPointerReader<'a, S> for StructList<'a, S> {
    ghost use Rattle.capnp_wire.specs.Readers.{pointer_of};
    ghost use Rattle.capnp_wire.specs.Views.{IsViewOf, Accepts, ViewError, FormError};
    ghost use Rattle.capnp_wire.specs.UpgradedViews.{IsUpgradedStructs, TakesAsStructs, ElementsFormError};
    ghost use Rattle.capnp_wire.specs.UpgradedReaders.{upgraded_structs_of};

    ghost shows = { λ pointer view.
        IsUpgradedStructs pointer (upgraded_structs_of S.segments view) };

    ghost accepts = { λ pointer. Accepts pointer TakesAsStructs };

    ghost fails = { λ pointer kind. ViewError pointer ElementsFormError kind };

    ghost form_error = { λ pointer kind. FormError pointer ElementsFormError kind };

    #[inline(always)]
    fn get_from_pointer(reader: any_pointer::Reader<'a, S>) -> Result<Self>
        ensures { let pointer = pointer_of S.segments reader.entry in IsViewOf pointer
            (λ view. IsUpgradedStructs pointer (upgraded_structs_of S.segments view))
            (Accepts pointer TakesAsStructs) (ViewError pointer ElementsFormError)
            (FormError pointer ElementsFormError) result }
    {
        read(&reader, None)
    }
}

impl<'a, S: ReaderSegments> FromPointerInSegment<'a, S> for StructList<'a, S> {
    ghost use Rattle.capnp_wire.specs.Readers.{pointer_of};
    ghost use Rattle.capnp_wire.specs.Views.{HasSegment, IsViewOf, Accepts, ViewError, FormError};
    ghost use Rattle.capnp_wire.specs.UpgradedViews.{IsUpgradedStructs, TakesAsStructs, ElementsFormError};
    ghost use Rattle.capnp_wire.specs.UpgradedReaders.{upgraded_structs_of};

    #[inline(always)]
    fn get_from_segment(reader: any_pointer::Reader<'a, S>, segment: &'a [u8]) -> Result<Self>
        requires { HasSegment (pointer_of S.segments reader) (words_of segment.now) }
        ensures { let pointer = pointer_of S.segments reader.entry in IsViewOf pointer
            (λ view. IsUpgradedStructs pointer (upgraded_structs_of S.segments view))
            (Accepts pointer TakesAsStructs) (ViewError pointer ElementsFormError)
            (FormError pointer ElementsFormError) result }
    {
        read(&reader, Some(segment))
    }
}
