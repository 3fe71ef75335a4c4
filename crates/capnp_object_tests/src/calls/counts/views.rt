//! Views of every kind, asked for three times by one way.
use crate::calls::counts::{Asked, Root, Way};
use crate::fixtures::{Arena, Unnamed, root_as};
use capnp_frame::message::SegmentArray;
use capnp_frame::{Error, ErrorKind, Result};
use capnp_frame_tests::errors::error_of;
use capnp_wire::any_struct::StructReader;
use capnp_wire::primitive_element::PrimitiveElement;
use capnp_wire::traits::{FromPointerInSegment, FromPointerReader};
use capnp_wire::upgraded::{EnumList, ListList, NumberList, PointerList, StructList};
use capnp_wire::{
    any_object, any_pointer, any_pointer_list, list_list, primitive_list, struct_list, text,
};

pub type Segments<'a> = SegmentArray<'a>;

pub type Pointer<'a> = any_pointer::Reader<'a, Segments<'a>>;

pub type Struct<'a> = StructReader<'a, Segments<'a>>;

type Object<'a> = any_object::Reader<'a, Segments<'a>>;

/// Which of three views fail for the limit.
pub type Limited = [bool; 3];

/// The elements of lists of numbers.
#[derive(Clone, Copy, Debug)]
pub enum Elements {
    Nothings,
    Bools,
    Bytes,
    Pairs,
    Quads,
    Words,
}

/// The kinds of views.
#[derive(Clone, Copy, Debug)]
pub enum View {
    Text,
    Data,
    Struct,
    Structs,
    Pointers,
    Texts,
    Numbers(Elements),
    UpgradedStructs,
    UpgradedPointers,
    UpgradedTexts,
    UpgradedNumbers(Elements),
    Enums,
    Object,
}

pub const VIEWS: [View; 23] = [
    View::Text,
    View::Data,
    View::Struct,
    View::Structs,
    View::Pointers,
    View::Texts,
    View::Numbers(Elements::Nothings),
    View::Numbers(Elements::Bools),
    View::Numbers(Elements::Bytes),
    View::Numbers(Elements::Pairs),
    View::Numbers(Elements::Quads),
    View::Numbers(Elements::Words),
    View::UpgradedStructs,
    View::UpgradedPointers,
    View::UpgradedTexts,
    View::UpgradedNumbers(Elements::Nothings),
    View::UpgradedNumbers(Elements::Bools),
    View::UpgradedNumbers(Elements::Bytes),
    View::UpgradedNumbers(Elements::Pairs),
    View::UpgradedNumbers(Elements::Quads),
    View::UpgradedNumbers(Elements::Words),
    View::Enums,
    View::Object,
];

type Lists<'a, T> = list_list::Reader<'a, Segments<'a>, T>;

type UpgradedLists<'a, T> = ListList<'a, Segments<'a>, T>;

/// Three views of one kind, one after the other, of the object that a way ends at.
pub fn views<'a>(arena: &'a Arena<'a>, way: Way, view: View) -> Result<Limited> {
    match view {
        View::Text => views_as::<text::Reader<'a>>(arena, way),
        View::Data => views_as::<&'a [u8]>(arena, way),
        View::Struct => views_as::<Struct<'a>>(arena, way),
        View::Structs => views_as::<struct_list::Reader<'a, Segments<'a>>>(arena, way),
        View::Pointers => views_as::<any_pointer_list::Reader<'a, Segments<'a>>>(arena, way),
        View::Texts => views_as::<Lists<'a, text::Reader<'a>>>(arena, way),
        View::UpgradedStructs => views_as::<StructList<'a, Segments<'a>>>(arena, way),
        View::UpgradedPointers => views_as::<PointerList<'a, Segments<'a>>>(arena, way),
        View::UpgradedTexts => views_as::<UpgradedLists<'a, text::Reader<'a>>>(arena, way),
        View::Enums => views_as::<EnumList<'a, Unnamed>>(arena, way),
        View::Object => pointer_views::<Object<'a>>(arena, way.0),
        View::Numbers(elements) | View::UpgradedNumbers(elements) => {
            number_views(arena, way, view, elements)
        }
    }
}

// The same as a list of numbers.
fn number_views<'a>(
    arena: &'a Arena<'a>,
    way: Way,
    view: View,
    elements: Elements,
) -> Result<Limited> {
    match elements {
        Elements::Nothings => views_of::<()>(arena, way, view),
        Elements::Bools => views_of::<bool>(arena, way, view),
        Elements::Bytes => views_of::<u8>(arena, way, view),
        Elements::Pairs => views_of::<i16>(arena, way, view),
        Elements::Quads => views_of::<f32>(arena, way, view),
        Elements::Words => views_of::<u64>(arena, way, view),
    }
}

fn views_of<'a, T: PrimitiveElement>(
    arena: &'a Arena<'a>,
    way: Way,
    view: View,
) -> Result<Limited> {
    match view {
        View::Numbers(_) => views_as::<primitive_list::Reader<'a, T>>(arena, way),
        _ => views_as::<NumberList<'a, T>>(arena, way),
    }
}

fn views_as<'a, T: FromPointerInSegment<'a, Segments<'a>> + Drop>(
    arena: &'a Arena<'a>,
    (root, asked): Way,
) -> Result<Limited> {
    match asked {
        Asked::Pointer => pointer_views::<T>(arena, root),
        Asked::Struct => Ok(in_struct::<T>(&struct_by(arena, root)?)),
    }
}

/// Whether a view fails for the limit.
pub fn is_limited<T: Drop>(view: Result<T>) -> bool {
    error_of(view) == 20
}

// As the pointer of a struct, by the segment of the struct.
fn in_struct<'a, T: FromPointerInSegment<'a, Segments<'a>> + Drop>(fields: &Struct<'a>) -> Limited {
    let first = is_limited(fields.get_pointer_as::<T>(0));
    let second = is_limited(fields.get_pointer_as::<T>(0));
    [first, second, is_limited(fields.get_pointer_as::<T>(0))]
}

fn at_pointer<'a, T: FromPointerReader<'a, Segments<'a>> + Drop>(pointer: &Pointer<'a>) -> Limited {
    let first = is_limited(pointer.get_as::<T>());
    let second = is_limited(pointer.get_as::<T>());
    [first, second, is_limited(pointer.get_as::<T>())]
}

// As elements of lists, and else as what a pointer points to.
fn pointer_views<'a, T: FromPointerReader<'a, Segments<'a>> + Drop>(
    arena: &'a Arena<'a>,
    root: Root,
) -> Result<Limited> {
    match root {
        Root::Lists => Ok(in_list::<T>(&root_as(arena)?)),
        Root::UpgradedLists => Ok(in_upgraded_list::<T>(&root_as(arena)?)),
        _ => Ok(at_pointer::<T>(&pointer_by(arena, root)?)),
    }
}

// By index, by an index that may be too large, and by an iterator.
fn in_list<'a, T: FromPointerReader<'a, Segments<'a>> + Drop>(list: &Lists<'a, T>) -> Limited {
    let first = list.len() == 0 || is_limited(list.get(0));
    let second = is_limited_or_missing(list.try_get(0));
    [first, second, is_limited_or_missing(list.iter().next())]
}

fn in_upgraded_list<'a, T: FromPointerReader<'a, Segments<'a>> + Drop>(
    list: &UpgradedLists<'a, T>,
) -> Limited {
    let first = list.len() == 0 || is_limited(list.get(0));
    let second = is_limited_or_missing(list.try_get(0));
    [first, second, is_limited_or_missing(list.iter().next())]
}

fn is_limited_or_missing<T: Drop>(view: Option<Result<T>>) -> bool {
    match view {
        Some(view) => is_limited(view),
        None => true,
    }
}

// What a test fails with where an element is missing.
fn missing() -> Error {
    Error::from_kind(ErrorKind::PrematureEndOfFile)
}

fn there<T>(element: Option<T>) -> Result<T> {
    match element {
        Some(element) => Ok(element),
        None => Err(missing()),
    }
}

// The pointer that a way ends at.
fn pointer_by<'a>(arena: &'a Arena<'a>, root: Root) -> Result<Pointer<'a>> {
    match root {
        Root::Pointer => arena.get_root(),
        Root::Pointers => {
            let list: any_pointer_list::Reader<'a, Segments<'a>> = root_as(arena)?;
            there(list.try_get(0))
        }
        Root::UpgradedPointers => {
            let list: PointerList<'a, Segments<'a>> = root_as(arena)?;
            there(list.try_get(0))
        }
        Root::Object => match root_as(arena)? {
            any_object::Reader::Pointers(list) => there(list.try_get(0)),
            object => Ok(struct_in(object)?.get_pointer(0)),
        },
        _ => Ok(struct_by(arena, root)?.get_pointer(0)),
    }
}

// The struct that a way ends at.
fn struct_by<'a>(arena: &'a Arena<'a>, root: Root) -> Result<Struct<'a>> {
    match root {
        Root::Structs => {
            let list: struct_list::Reader<'a, Segments<'a>> = root_as(arena)?;
            there(list.try_get(0))
        }
        Root::UpgradedStructs => {
            let list: StructList<'a, Segments<'a>> = root_as(arena)?;
            there(list.try_get(0))
        }
        Root::Object => struct_in(root_as(arena)?),
        _ => root_as(arena),
    }
}

// The object as a struct, or the first one of a list.
fn struct_in<'a>(object: Object<'a>) -> Result<Struct<'a>> {
    match object {
        any_object::Reader::Struct(fields) => Ok(fields),
        any_object::Reader::Structs(list) => there(list.try_get(0)),
        _ => Err(missing()),
    }
}
