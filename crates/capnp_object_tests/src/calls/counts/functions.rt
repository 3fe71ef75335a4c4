//! What the public functions of the types that reach the limiter count, whatever they return: most
//! of them nothing. Each is called by the path that docs/API.md gives it, by which `tools/lint counts`
//! finds one that isn't called here.
ghost use Rattle.capnp_wire.specs.Readers.{struct_of};

use crate::calls::counts::views::{Pointer, Segments, Struct, is_limited};
use crate::fixtures::{arena_of, expect, root_as};
use capnp_frame::Result;
use capnp_frame::message::{ReaderOptions, ReaderSegments, SegmentArray};
use capnp_message as message;
use capnp_wire::{
    any_pointer, any_pointer_list, any_struct, arena, list_list, struct_list, text, traits,
    upgraded,
};
use std::alloc::Global;

type Message<'a> = message::Reader<Segments<'a>>;

type Typed<'a> = message::TypedReader<Segments<'a>, any_struct::Owned>;

type Text<'a> = text::Reader<'a>;

type Pointers<'a> = any_pointer_list::Reader<'a, Segments<'a>>;

type Texts<'a> = list_list::Reader<'a, Segments<'a>, Text<'a>>;

type UpgradedPointers<'a> = upgraded::PointerList<'a, Segments<'a>>;

type Structs<'a> = struct_list::Reader<'a, Segments<'a>>;

type UpgradedStructs<'a> = upgraded::StructList<'a, Segments<'a>>;

type SchemaStructs<'a> = upgraded::Structs<'a, Segments<'a>, Schema<'a, Segments<'a>>>;

type UpgradedTexts<'a> = upgraded::ListList<'a, Segments<'a>, Text<'a>>;

// A struct of a type of a schema.
#[derive(Drop)]
struct Schema<'a, S: ReaderSegments> {
    fields: any_struct::StructReader<'a, S>,
}

impl<'a, S: ReaderSegments> upgraded::FromStruct<any_struct::StructReader<'a, S>>
    for Schema<'a, S> {
    ghost shown = { λ view. struct_of S.segments view.fields };

    fn from_struct(fields: any_struct::StructReader<'a, S>) -> Schema<'a, S> {
        Schema { fields }
    }
}

// A struct of a data word and three pointers. They point to a text, to a list of a pointer to that
// text, and to a list of a struct of a data word and a pointer.
const MESSAGE: &[u8] = b"\0\0\0\0\x01\0\x03\0\x07\0\0\0\0\0\0\0\
\x09\0\0\0\x72\0\0\0\x0d\0\0\0\x0e\0\0\0\x0d\0\0\0\x17\0\0\0Hello, World!\0\0\0\
\xf5\xff\xff\xff\x72\0\0\0\x04\0\0\0\x01\0\x01\0\x05\0\0\0\0\0\0\0\0\0\0\0\0\0\0\0";

// The words of the root and of the text.
const ROOT: usize = 4;

const TEXT: usize = 2;

/// Whose functions are called.
#[derive(Clone, Copy, Debug)]
enum Called {
    Arena,
    Message,
    Pointer,
    Struct,
    Pointers,
    Texts,
    Structs,
    UpgradedPointers,
    UpgradedTexts,
    UpgradedStructs,
    SchemaStructs,
}

// How many words are counted, in addition to the root's words and the text's, which are viewed at the
// end.
const CALLED: [(Called, usize); 11] = [
    (Called::Arena, 0),
    // the root's words a second time: `TypedReader::get`, and `get_root`
    (Called::Message, ROOT),
    // `get_as`
    (Called::Pointer, TEXT),
    // `get_pointer_as`, and `get_pointer_or` where the pointer isn't null
    (Called::Struct, 2 * TEXT),
    // the list's own word, and `ViewIter` and `ViewIntoIter`
    (Called::Pointers, 1 + 2 * TEXT),
    // the list's own word, and `get`, `try_get` and `iter`
    (Called::Texts, 1 + 3 * TEXT),
    // the list's tag and its struct
    (Called::Structs, 3),
    (Called::UpgradedPointers, 1),
    (Called::UpgradedTexts, 1 + 3 * TEXT),
    (Called::UpgradedStructs, 3),
    (Called::SchemaStructs, 3),
];

// With just these words left the text is viewed, and with one word less it is not.
#[test]
fn what_functions_count(rt: HostRuntime) -> Result<()> {
    for (called, words) in &CALLED {
        let one_less = words.saturating_add(ROOT + TEXT - 1);
        let within = is_limited_after(rt.alloc(), *called, one_less.saturating_add(1))?;
        let beyond = is_limited_after(rt.alloc(), *called, one_less)?;
        expect(&rt, *called, [within, beyond], [false, true]);
    }
    Ok(())
}

// Whether the text is past the limit, after the calls.
fn is_limited_after(alloc: Global, called: Called, limit: usize) -> Result<bool> {
    match called {
        Called::Arena => is_limited_in_arena(limit),
        Called::Message => is_limited_in_message(alloc, limit),
        _ => {
            let segments = [MESSAGE];
            let arena = arena_of(&segments, Some(limit), 64);
            let fields: Struct<'_> = root_as(&arena)?;
            call(&fields, called)?;
            Ok(text_is_limited(&fields))
        }
    }
}

fn text_is_limited(fields: &Struct<'_>) -> bool {
    is_limited(fields.get_pointer_as::<Text<'_>>(0))
}

fn options_of(limit: usize) -> ReaderOptions {
    let mut options = ReaderOptions::new();
    options.traversal_limit_in_words(Some(limit));
    options
}

fn is_limited_in_arena(limit: usize) -> Result<bool> {
    let segments = [MESSAGE];
    let arena = arena::ReaderArena::new(SegmentArray::new(&segments), options_of(limit));
    let _ = arena::ReaderArena::size_in_words(&arena);
    let _ = any_pointer::Reader::root_of(arena::ReaderArena::get_segments(&arena));
    let _ = arena::ReaderArena::nesting_limit(&arena);
    let _ = arena::ReaderArena::is_canonical(&arena);
    let _ = arena::ReaderArena::pointer_at(&arena, None, 64);
    let limited = text_is_limited(&arena::ReaderArena::get_root(&arena)?.get_as()?);
    let _ = arena::ReaderArena::into_segments(arena);
    Ok(limited)
}

fn is_limited_in_message(alloc: Global, limit: usize) -> Result<bool> {
    let segments = [MESSAGE];
    let message = message::Reader::new(SegmentArray::new(&segments), options_of(limit));
    let _ = message::Reader::size_in_words(&message);
    call_message(alloc, &message);
    let typed = message::Reader::into_typed::<any_struct::Owned>(message);
    is_limited_in_typed(message::TypedReader::new(message::TypedReader::into_inner(typed)))
}

fn call_message(alloc: Global, message: &Message<'_>) {
    let _ = message::Reader::get_segments(message);
    let _ = message::Reader::is_canonical(message);
    let _ = message::Reader::canonical_segment(message, alloc);
    let _ = message::Reader::canonicalize(message, alloc);
}

fn is_limited_in_typed(typed: Typed<'_>) -> Result<bool> {
    let _ = message::TypedReader::get_segments(&typed);
    let _ = message::TypedReader::get(&typed)?;
    let message = message::TypedReader::into_inner(typed);
    let limited = text_is_limited(&message::Reader::get_root(&message)?);
    let _ = message::Reader::into_segments(message);
    Ok(limited)
}

fn call(fields: &Struct<'_>, called: Called) -> Result<()> {
    match called {
        Called::Pointer => call_pointer(&fields.get_pointer(0)),
        Called::Struct => call_struct(fields)?,
        Called::Pointers => call_pointers(fields.get_pointer_as(1)?),
        Called::Texts => call_texts(&fields.get_pointer_as(1)?),
        Called::UpgradedPointers => call_upgraded_pointers(&fields.get_pointer_as(1)?),
        Called::UpgradedTexts => call_upgraded_texts(&fields.get_pointer_as(1)?),
        Called::Structs => call_structs(fields.get_pointer_as(2)?),
        Called::UpgradedStructs => call_upgraded_structs(&fields.get_pointer_as(2)?),
        _ => call_schema_structs(&fields.get_pointer_as(2)?),
    }
    Ok(())
}

fn call_pointer(pointer: &Pointer<'_>) {
    let _ = any_pointer::Reader::is_null(pointer);
    let _ = any_pointer::Reader::target_size(pointer);
    let _ = any_pointer::Reader::get_as::<Text<'_>>(pointer);
}

fn call_struct(fields: &Struct<'_>) -> Result<()> {
    let _ = any_struct::StructReader::data_words(fields);
    let _ = any_struct::StructReader::get_word(fields, 0);
    let _ = any_struct::StructReader::get_data_field::<u16>(fields, 0);
    let _ = any_struct::StructReader::get_data_field_mask::<u16>(fields, 0, 1);
    let _ = any_struct::StructReader::pointers(fields);
    let _ = any_struct::StructReader::has_pointer(fields, 0);
    let pointer = any_struct::StructReader::get_pointer(fields, 0);
    let _ = any_struct::StructReader::data_at(fields, &pointer);
    view_pointers(fields)
}

// Null, past the last pointer, is the empty text, and counts nothing.
fn view_pointers(fields: &Struct<'_>) -> Result<()> {
    let default = any_struct::StructReader::get_pointer_as::<Text<'_>>(fields, 9)?;
    let _ = any_struct::StructReader::get_pointer_as::<Text<'_>>(fields, 0);
    let _ = any_struct::StructReader::get_pointer_or(fields, 0, default);
    let _ = any_struct::StructReader::get_pointer_or(fields, 9, default);
    Ok(())
}

fn call_pointers(list: Pointers<'_>) {
    if any_pointer_list::Reader::len(&list) > 0 {
        let _ = any_pointer_list::Reader::get(&list, 0);
    }
    let _ = any_pointer_list::Reader::try_get(&list, 0);
    let _ = any_pointer_list::Reader::iter(&list).next();
    let _ = traits::ListIter::new(&list).next();
    view_by_iterators(list);
}

fn view_by_iterators(list: Pointers<'_>) {
    let mut texts: list_list::ViewIter<'_, Pointers<'_>, Text<'_>> = list_list::ViewIter::new(
        &list,
    );
    let _ = texts.next();
    let mut texts: list_list::ViewIntoIter<Pointers<'_>, Text<'_>> = list_list::ViewIntoIter::new(
        list,
    );
    let _ = texts.next();
}

fn call_texts(list: &Texts<'_>) {
    if list_list::Reader::len(list) > 0 {
        let _ = list_list::Reader::get(list, 0);
    }
    let _ = list_list::Reader::try_get(list, 0);
    let _ = list_list::Reader::iter(list).next();
}

fn call_structs(list: Structs<'_>) {
    if struct_list::Reader::len(&list) > 0 {
        let _ = struct_list::Reader::get(&list, 0);
    }
    let _ = struct_list::Reader::try_get(&list, 0);
    let _ = struct_list::Reader::iter(&list).next();
    let _ = traits::ListIntoIter::new(list).next();
}

fn call_upgraded_pointers(list: &UpgradedPointers<'_>) {
    if upgraded::PointerList::len(list) > 0 {
        let _ = upgraded::PointerList::get(list, 0);
    }
    let _ = upgraded::PointerList::try_get(list, 0);
    let _ = upgraded::PointerList::iter(list).next();
}

fn call_upgraded_texts(list: &UpgradedTexts<'_>) {
    if upgraded::ListList::len(list) > 0 {
        let _ = upgraded::ListList::get(list, 0);
    }
    let _ = upgraded::ListList::try_get(list, 0);
    let _ = upgraded::ListList::iter(list).next();
}

fn call_upgraded_structs(list: &UpgradedStructs<'_>) {
    if upgraded::StructList::len(list) > 0 {
        let _ = upgraded::StructList::get(list, 0);
    }
    let _ = upgraded::StructList::try_get(list, 0);
    let _ = upgraded::StructList::iter(list).next();
}

fn call_schema_structs(list: &SchemaStructs<'_>) {
    if upgraded::Structs::len(list) > 0 {
        let _ = upgraded::Structs::get(list, 0);
    }
    let _ = upgraded::Structs::try_get(list, 0);
    let _ = upgraded::Structs::iter(list).next();
}
