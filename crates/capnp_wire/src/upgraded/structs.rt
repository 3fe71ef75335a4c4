//! Lists of structs of one type of a schema.
ghost use Rattle.std.specs.Prelude.{◌≡◌, ◌<◌, length};
ghost use Rattle.capnp_layout.specs.Prelude.{words_of};
ghost use Rattle.capnp_wire.specs.Views.{Struct};
ghost use Rattle.capnp_wire.specs.Readers.{struct_of};

use crate::any_struct::StructReader;
use crate::layout::copy::Copied;
use crate::traits::{
    self, FromPointerInSegment, FromPointerReader, IndexMove, ListIter, SetterInput,
};
use crate::upgraded::struct_list::StructList;
use crate::{any_pointer, struct_list};
use capnp_frame::Result;
use capnp_frame::message::ReaderSegments;
use std::marker::PhantomData;

/// Fields of a struct.
pub trait StructFields: Sized {
    /// The struct whose fields these are.
    ghost fields: { Self → Struct };
}

impl<'a, S: ReaderSegments> StructFields for StructReader<'a, S> {
    ghost fields = { struct_of S.segments };
}

/// A reader of structs of one type of a schema, as the schema compiler writes them.
pub trait FromStruct<F: StructFields>: Sized {
    /// The struct whose fields it reads.
    ghost shown: { Self → Struct };

    /// The reader of this struct.
    fn from_struct(fields: F) -> Self
        ensures { shown result ≡ F.fields fields };
}

/// A list of structs of one type of a schema, of numbers or of pointers in a message, read as a
/// list of such structs, as `StructList` reads it.
#[derive(Drop)]
pub struct Structs<'a, S: ReaderSegments, T> {
    /// The list whose elements these are.
    pub elements: StructList<'a, S>,
    element: PhantomData<T>,
}

impl<'a, S: ReaderSegments, T: FromStruct<StructReader<'a, S>>> Structs<'a, S, T> {
    ghost use Rattle.capnp_wire.specs.Lists.{FindsElement, IteratesOver};
    ghost use Rattle.capnp_wire.specs.ListViews.{element_of};
    ghost use Rattle.capnp_wire.specs.UpgradedReaders.{upgraded_structs_of};

    /// The number of elements.
    pub fn len(&self) -> u32
        ensures { result ≡ length (upgraded_structs_of S.segments self.now.elements).elements }
    {
        self.elements.len()
    }

    /// The element at this index, which must be below `len`; `try_get` takes any.
    pub fn get(&self, index: u32) -> T
        requires { index < length (upgraded_structs_of S.segments self.now.elements).elements }
        ensures { T.shown result ≡ element_of (upgraded_structs_of S.segments self.now.elements) index }
    {
        T::from_struct(self.elements.get(index))
    }

    /// The element at this index, or `None` where the list ends before it.
    pub fn try_get(&self, index: u32) -> Option<T>
        ensures { let list = upgraded_structs_of S.segments self.now.elements in
            FindsElement (length list.elements) index
            (λ item. T.shown item ≡ element_of list index) result }
    {
        self.try_index_move(index)
    }

    /// An iterator over the elements.
    pub fn iter(&self) -> ListIter<'_, Self>
        ensures { IteratesOver (length (upgraded_structs_of S.segments self.now.elements).elements)
            self.now result }
    {
        ListIter::new(self)
    }
}

impl<'a, S: ReaderSegments, T: FromStruct<StructReader<'a, S>>> IndexMove for Structs<'a, S, T> {
    ghost use Rattle.capnp_wire.specs.ListViews.{element_of};
    ghost use Rattle.capnp_wire.specs.UpgradedReaders.{upgraded_structs_of};

    type Item = T;

    ghost Element = { Struct };

    ghost seen = { T.shown };

    ghost size = { λ list. length (upgraded_structs_of S.segments list.elements).elements };

    ghost element = { λ list index.
        element_of (upgraded_structs_of S.segments list.elements) index };

    fn len(&self) -> u32 {
        self.len()
    }

    fn index_move(&self, index: u32) -> T {
        self.get(index)
    }
}

// Null is an empty list; a struct, and a list of bits, fail with `WrongPointerKind`.
impl<'a, S: ReaderSegments, T> FromPointerReader<'a, S> for Structs<'a, S, T> {
    ghost use Rattle.capnp_wire.specs.Readers.{pointer_of};
    ghost use Rattle.capnp_wire.specs.Views.{IsViewOf, Accepts, ViewError, FormError};
    ghost use Rattle.capnp_wire.specs.UpgradedViews.{IsUpgradedStructs, TakesAsStructs, ElementsFormError};
    ghost use Rattle.capnp_wire.specs.UpgradedReaders.{upgraded_structs_of};

    ghost shows = { λ pointer view.
        IsUpgradedStructs pointer (upgraded_structs_of S.segments view.elements) };

    ghost accepts = { λ pointer. Accepts pointer TakesAsStructs };

    ghost fails = { λ pointer kind. ViewError pointer ElementsFormError kind };

    ghost form_error = { λ pointer kind. FormError pointer ElementsFormError kind };

    #[inline(always)]
    fn get_from_pointer(reader: any_pointer::Reader<'a, S>) -> Result<Self>
        ensures { let pointer = pointer_of S.segments reader.entry in IsViewOf pointer
            (λ view. IsUpgradedStructs pointer (upgraded_structs_of S.segments view.elements))
            (Accepts pointer TakesAsStructs) (ViewError pointer ElementsFormError)
            (FormError pointer ElementsFormError) result }
    {
        match StructList::get_from_pointer(reader) {
            Ok(elements) => Ok(Structs {
                elements,
                element: PhantomData,
            }),
            Err(error) => Err(error),
        }
    }
}

impl<'a, S: ReaderSegments, T> FromPointerInSegment<'a, S> for Structs<'a, S, T> {
    ghost use Rattle.capnp_wire.specs.Readers.{pointer_of};
    ghost use Rattle.capnp_wire.specs.Views.{HasSegment, IsViewOf, Accepts, ViewError, FormError};
    ghost use Rattle.capnp_wire.specs.UpgradedViews.{IsUpgradedStructs, TakesAsStructs, ElementsFormError};
    ghost use Rattle.capnp_wire.specs.UpgradedReaders.{upgraded_structs_of};

    #[inline(always)]
    fn get_from_segment(reader: any_pointer::Reader<'a, S>, segment: &'a [u8]) -> Result<Self>
        requires { HasSegment (pointer_of S.segments reader) (words_of segment.now) }
        ensures { let pointer = pointer_of S.segments reader.entry in IsViewOf pointer
            (λ view. IsUpgradedStructs pointer (upgraded_structs_of S.segments view.elements))
            (Accepts pointer TakesAsStructs) (ViewError pointer ElementsFormError)
            (FormError pointer ElementsFormError) result }
    {
        match StructList::get_from_segment(reader, segment) {
            Ok(elements) => Ok(Structs {
                elements,
                element: PhantomData,
            }),
            Err(error) => Err(error),
        }
    }
}

/// A list of structs of one type of a schema, as a type of the schema.
pub struct OwnedStructs<T> {
    element: PhantomData<T>,
}

impl<'a, S: ReaderSegments + 'a, T: traits::Owned<'a, S>> traits::Owned<'a, S> for OwnedStructs<T> {
    type Reader = Structs<'a, S, T::Reader>;
}

// The value is the list of the structs, with all below them, as of a `StructList`.
impl<'a, S: ReaderSegments + 'a, T: traits::Owned<'a, S>> SetterInput<OwnedStructs<T>>
    for Structs<'a, S, T::Reader> {
    ghost use Rattle.capnp_wire.specs.UpgradedValues.{IsStructListValue, StructListValueError, one_struct_list};

    ghost has_tree = { λ list trees. IsStructListValue S.segments list.elements trees };

    ghost fails = { λ list kind. StructListValueError S.segments list.elements kind };

    ghost one = { λ list trees is. one_struct_list S.segments list.elements trees is };

    fn measure(&self, canonical: bool) -> Result<u32> {
        SetterInput::<struct_list::Owned>::measure(&self.elements, canonical)
    }

    fn is_null(&self) -> bool {
        false
    }

    fn write(&self, canonical: bool, block: &mut [u8], following: usize, next: usize) -> Copied {
        SetterInput::<struct_list::Owned>::write(&self.elements, canonical, block, following, next)
    }
}

// A struct, with its fields; none of these from null.
impl<'a, S: ReaderSegments + 'a, T: FromStruct<StructReader<'a, S>>> FromPointerReader<'a, S>
    for T {
    ghost use Rattle.capnp_wire.specs.Readers.{pointer_of};
    ghost use Rattle.capnp_wire.specs.Views.{IsViewOf, IsStruct, Accepts, ViewError, FormError, TakesStruct, StructFormError};

    ghost shows = { λ pointer view. IsStruct pointer (T.shown view) };

    ghost accepts = { λ pointer. Accepts pointer TakesStruct };

    ghost fails = { λ pointer kind. ViewError pointer StructFormError kind };

    ghost form_error = { λ pointer kind. FormError pointer StructFormError kind };

    #[inline(always)]
    fn get_from_pointer(reader: any_pointer::Reader<'a, S>) -> Result<Self>
        ensures { let pointer = pointer_of S.segments reader.entry in IsViewOf pointer
            (λ view. IsStruct pointer (T.shown view))
            (Accepts pointer TakesStruct) (ViewError pointer StructFormError)
            (FormError pointer StructFormError) result }
    {
        match StructReader::get_from_pointer(reader) {
            Ok(fields) => Ok(T::from_struct(fields)),
            Err(error) => Err(error),
        }
    }
}

impl<'a, S, T> FromPointerInSegment<'a, S> for T
where
    S: ReaderSegments + 'a,
    T: FromStruct<StructReader<'a, S>>,
{
    ghost use Rattle.capnp_wire.specs.Readers.{pointer_of};
    ghost use Rattle.capnp_wire.specs.Views.{HasSegment, IsViewOf, IsStruct, Accepts, ViewError, FormError, TakesStruct, StructFormError};

    #[inline(always)]
    fn get_from_segment(reader: any_pointer::Reader<'a, S>, segment: &'a [u8]) -> Result<Self>
        requires { HasSegment (pointer_of S.segments reader) (words_of segment.now) }
        ensures { let pointer = pointer_of S.segments reader.entry in IsViewOf pointer
            (λ view. IsStruct pointer (T.shown view))
            (Accepts pointer TakesStruct) (ViewError pointer StructFormError)
            (FormError pointer StructFormError) result }
    {
        match StructReader::get_from_segment(reader, segment) {
            Ok(fields) => Ok(T::from_struct(fields)),
            Err(error) => Err(error),
        }
    }
}
