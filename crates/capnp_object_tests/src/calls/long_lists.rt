//! Lists of 70,005 elements that are read within a traversal limit, by every view of a list, and whose
//! elements are viewed one by one. Clauses say which elements they are.
use crate::fixtures::{Arena, Unnamed, arena_of, expect, plain_arena, root_as};
use capnp_frame::Result;
use capnp_frame::message::SegmentArray;
use capnp_frame_tests::long_lists::{
    MANY, Texts, list_of_bits, list_of_nothings, list_of_numbers, list_of_structs, list_of_texts,
};
use capnp_wire::any_struct::StructReader;
use capnp_wire::list_list::{self, ViewIter};
use capnp_wire::primitive_element::PrimitiveElement;
use capnp_wire::traits::{FromPointerReader, IndexMove, ListIter};
use capnp_wire::upgraded::{EnumList, ListList, NumberList, PointerList, StructList};
use capnp_wire::{any_pointer, any_pointer_list, primitive_list, struct_list, text};
use std::alloc::Global;

type Segments<'a> = SegmentArray<'a>;

type Pointer<'a> = any_pointer::Reader<'a, Segments<'a>>;

type Struct<'a> = StructReader<'a, Segments<'a>>;

type Text<'a> = text::Reader<'a>;

type Lists<'a, T> = list_list::Reader<'a, Segments<'a>, T>;

// Whether the root is a list of a type, with all its elements.
fn is_list<'a, L: FromPointerReader<'a, Segments<'a>> + IndexMove + Drop>(
    arena: &'a Arena<'a>,
) -> bool {
    let list: Result<L> = root_as(arena);
    match list {
        Ok(list) => list.len() == MANY,
        Err(_) => false,
    }
}

// As a list of numbers, and as what became of one.
fn are_numbers<T: PrimitiveElement>(segment: &[u8]) -> bool {
    let segments = [segment];
    let arena = plain_arena(&segments);
    is_list::<primitive_list::Reader<'_, T>>(&arena) && is_list::<NumberList<'_, T>>(&arena)
}

// As what became of a list of numbers of two bytes: structs, and values of an enum.
fn are_pairs(segment: &[u8]) -> bool {
    let segments = [segment];
    let arena = plain_arena(&segments);
    is_list::<StructList<'_, Segments<'_>>>(&arena) && is_list::<EnumList<'_, Unnamed>>(&arena)
}

fn are_of_width<T: PrimitiveElement>(alloc: Global, width: usize) -> Result<bool> {
    Ok(are_numbers::<T>(&list_of_numbers(alloc, width, MANY)?))
}

#[test]
fn numbers_of_long_lists(rt: HostRuntime) -> Result<()> {
    let alloc = rt.alloc();
    assert!(rt; are_numbers::<()>(&list_of_nothings(alloc, MANY)?));
    assert!(rt; are_numbers::<bool>(&list_of_bits(alloc, MANY)?));
    assert!(rt; are_of_width::<u8>(alloc, 1)?);
    assert!(rt; are_of_width::<i16>(alloc, 2)?);
    assert!(rt; are_of_width::<u32>(alloc, 4)?);
    assert!(rt; are_of_width::<u64>(alloc, 8)?);
    assert!(rt; are_pairs(&list_of_numbers(alloc, 2, MANY)?));
    Ok(())
}

// How many pointers point to texts that are read.
fn texts_at<'a, L: IndexMove<Item = Pointer<'a>>>(pointers: &L) -> u32 {
    let mut texts = 0u32;
    for pointer in ListIter::new(pointers) {
        if pointer.get_as::<Text<'a>>().is_ok() {
            texts = texts.wrapping_add(1);
        }
    }
    texts
}

// How many structs have texts that are read.
fn texts_in<'a, L: IndexMove<Item = Struct<'a>>>(structs: &L) -> u32 {
    let mut texts = 0u32;
    for fields in ListIter::new(structs) {
        if fields.get_pointer(0).get_as::<Text<'a>>().is_ok() {
            texts = texts.wrapping_add(1);
        }
    }
    texts
}

// How many elements are read by an iterator.
fn views_by<
    'l,
    'a,
    L: IndexMove<Item = Pointer<'a>>,
    T: FromPointerReader<'a, Segments<'a>> + Drop,
>(elements: ViewIter<'l, L, T>) -> u32 {
    let mut views = 0u32;
    for view in elements {
        if view.is_ok() {
            views = views.wrapping_add(1);
        }
    }
    views
}

// How many elements are read by their indices, and by an iterator.
fn views_of<'a, T: FromPointerReader<'a, Segments<'a>> + Drop>(list: &Lists<'a, T>) -> [u32; 2] {
    let mut views = 0u32;
    for index in 0..list.len() {
        if index < list.len() && list.get(index).is_ok() {
            views = views.wrapping_add(1);
        }
    }
    [views, views_by(list.iter())]
}

// The same of a list of pointers that may have become one of structs.
fn upgraded_views<'a>(arena: &'a Arena<'a>) -> Result<[u32; 2]> {
    let list: ListList<'a, Segments<'a>, Text<'a>> = root_as(arena)?;
    let mut views = 0u32;
    for index in 0..list.len() {
        if index < list.len() && list.get(index).is_ok() {
            views = views.wrapping_add(1);
        }
    }
    Ok([views, views_by(list.iter())])
}

// As a list of structs and as what became of one; as what became of numbers, and of pointers.
fn views_of_structs<'a>(arena: &'a Arena<'a>) -> Result<[u32; 4]> {
    let structs: struct_list::Reader<'a, Segments<'a>> = root_as(arena)?;
    let upgraded: StructList<'a, Segments<'a>> = root_as(arena)?;
    let numbers: NumberList<'a, u64> = root_as(arena)?;
    let pointers: PointerList<'a, Segments<'a>> = root_as(arena)?;
    Ok([
        texts_in(&structs),
        texts_in(&upgraded),
        numbers.len(),
        texts_at(&pointers),
    ])
}

#[test]
fn structs_of_long_lists(rt: HostRuntime) -> Result<()> {
    let segment = list_of_structs(rt.alloc(), Texts::After, MANY)?;
    let segments = [segment.as_slice()];
    let arena = plain_arena(&segments);
    expect(&rt, "structs", views_of_structs(&arena)?, [MANY; 4]);
    expect(&rt, "texts", upgraded_views(&arena)?, [MANY; 2]);
    assert!(rt; is_list::<EnumList<'_, Unnamed>>(&arena));
    Ok(())
}

// As lists of pointers.
fn views_of_pointers<'a>(arena: &'a Arena<'a>) -> Result<[u32; 2]> {
    let pointers: any_pointer_list::Reader<'a, Segments<'a>> = root_as(arena)?;
    let upgraded: PointerList<'a, Segments<'a>> = root_as(arena)?;
    Ok([texts_at(&pointers), texts_at(&upgraded)])
}

// As a list of objects of one type.
fn views_as<'a, T: FromPointerReader<'a, Segments<'a>> + Drop>(
    arena: &'a Arena<'a>,
) -> Result<[u32; 2]> {
    let list: Lists<'a, T> = root_as(arena)?;
    Ok(views_of::<T>(&list))
}

#[test]
fn texts_of_long_lists(rt: HostRuntime) -> Result<()> {
    let segment = list_of_texts(rt.alloc(), Texts::After, MANY)?;
    let segments = [segment.as_slice()];
    let arena = plain_arena(&segments);
    expect(&rt, "pointers", views_of_pointers(&arena)?, [MANY; 2]);
    expect(&rt, "texts", views_as::<Text<'_>>(&arena)?, [MANY; 2]);
    expect(&rt, "data", views_as::<&[u8]>(&arena)?, [MANY; 2]);
    let lists = views_as::<primitive_list::Reader<'_, u8>>(&arena)?;
    expect(&rt, "lists", lists, [MANY; 2]);
    expect(&rt, "upgraded", upgraded_views(&arena)?, [MANY; 2]);
    Ok(())
}

// How many texts of a list are read one by one within a limit, until one fails, and how many when
// they are read again.
fn read_within(segment: &[u8], limit: usize) -> Result<[u32; 2]> {
    let segments = [segment];
    let arena = arena_of(&segments, Some(limit), 64);
    views_as::<Text<'_>>(&arena)
}

// Limits, and how many texts are read twice within them: the list's 70,005 words are counted once,
// and the word of each text each time.
const LIMITS: [(usize, [u32; 2]); 6] = [
    (70_005, [0, 0]),
    (77_776, [7771, 0]),
    (140_009, [70_004, 0]),
    (140_010, [70_005, 0]),
    (210_014, [70_005, 70_004]),
    (210_015, [70_005, 70_005]),
];

#[test]
fn limits_past_many_views(rt: HostRuntime) -> Result<()> {
    let segment = list_of_texts(rt.alloc(), Texts::After, MANY)?;
    for (limit, wanted) in &LIMITS {
        expect(&rt, *limit, read_within(&segment, *limit)?, *wanted);
    }
    Ok(())
}
