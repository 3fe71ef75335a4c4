//! Lists that were read from one message and are set in another, by hand-computed bytes: what no
//! contract says, above all that they succeed.
use crate::values::{compare_by_each, compare_canonical};
use capnp_frame::Result;
use capnp_frame::message::{ReaderSegments, SegmentArray};
use capnp_object_tests::arenas::{plain_arena, root_as};
use capnp_wire::arena::ReaderArena;
use capnp_wire::traits::{FromPointerReader, SetterInput};
use capnp_wire::{any_pointer_list, list_list, primitive_list, struct_list, text_list};
use std::process::Abort;

// A tag for two structs of a data word and a pointer, the two structs, and their texts: the first
// pointer points past the struct after it, the second past the text before its own.
#[rattlefmt::skip]
const PHONES: &[u8] = b"\x01\0\0\0\x27\0\0\0\x08\0\0\0\x01\0\x01\0\
    \x01\0\0\0\0\0\0\0\x09\0\0\0\x22\0\0\0\x02\0\0\0\0\0\0\0\x05\0\0\0\x42\0\0\0\
    123\0\0\0\0\04567890\0";

// Two structs of two data words and two pointers, where no second word or pointer is used.
#[rattlefmt::skip]
const WIDE: &[u8] = b"\x01\0\0\0\x47\0\0\0\x08\0\0\0\x02\0\x02\0\
    \x07\0\0\0\0\0\0\0\0\0\0\0\0\0\0\0\x15\0\0\0\x22\0\0\0\0\0\0\0\0\0\0\0\
    \0\0\0\0\0\0\0\0\0\0\0\0\0\0\0\0\x09\0\0\0\x0a\0\0\0\0\0\0\0\0\0\0\0\
    Ann\0\0\0\0\0\0\0\0\0\0\0\0\0";

// The same in canonical form, each of one word and one pointer.
#[rattlefmt::skip]
const NARROW: &[u8] = b"\x01\0\0\0\x27\0\0\0\x08\0\0\0\x01\0\x01\0\
    \x07\0\0\0\0\0\0\0\x09\0\0\0\x22\0\0\0\0\0\0\0\0\0\0\0\x05\0\0\0\x0a\0\0\0\
    Ann\0\0\0\0\0\0\0\0\0\0\0\0\0";

// A list of two lists of numbers of two bytes.
#[rattlefmt::skip]
const LISTS: &[u8] = b"\x01\0\0\0\x16\0\0\0\x05\0\0\0\x13\0\0\0\x05\0\0\0\x0b\0\0\0\
    \x01\0\x02\0\0\0\0\0\x03\0\0\0\0\0\0\0";

// A list of three pointers, each over those after it and the texts before its own: of four bytes,
// of the zero byte alone, and of three.
#[rattlefmt::skip]
const NAMES: &[u8] = b"\x01\0\0\0\x1e\0\0\0\
    \x09\0\0\0\x22\0\0\0\x09\0\0\0\x0a\0\0\0\x09\0\0\0\x1a\0\0\0\
    Ann\0\0\0\0\0\0\0\0\0\0\0\0\0Bo\0\0\0\0\0\0";

// A far pointer, and in its segment the pointer to a list of one struct, which everything else
// follows.
const FAR: &[u8] = b"\x02\0\0\0\x01\0\0\0";

#[rattlefmt::skip]
const ONE_PHONE: &[u8] = b"\x01\0\0\0\x17\0\0\0\x04\0\0\0\x01\0\x01\0\
    \x05\0\0\0\0\0\0\0\x01\0\0\0\x22\0\0\0123\0\0\0\0\0";

type Structs<'a> = struct_list::Reader<'a, SegmentArray<'a>>;

type Pointers<'a> = any_pointer_list::Reader<'a, SegmentArray<'a>>;

type Texts<'a> = text_list::Reader<'a, SegmentArray<'a>>;

type Lists<'a> = list_list::Reader<'a, SegmentArray<'a>, primitive_list::Reader<'a, u16>>;

// Reads the root of segments as a list, and sets that as the root of other messages.
fn compare_read<'a, S: ReaderSegments, T, V: FromPointerReader<'a, S> + SetterInput<T> + Drop>(
    rt: &(impl Abort + AllocGlobal),
    arena: &'a ReaderArena<S>,
    expected: &[u8],
) -> Result<()> {
    let list: V = root_as(arena)?;
    compare_by_each::<T, V>(rt, &list, expected)
}

#[test]
fn lists_of_structs_are_set_again(rt: HostRuntime) -> Result<()> {
    let phones = plain_arena(&[PHONES]);
    compare_read::<_, struct_list::Owned, Structs<'_>>(&rt, &phones, PHONES)?;
    let wide = plain_arena(&[WIDE]);
    compare_read::<_, struct_list::Owned, Structs<'_>>(&rt, &wide, WIDE)?;
    let list: Structs<'_> = root_as(&wide)?;
    compare_canonical::<struct_list::Owned, Structs<'_>>(&rt, &list, NARROW)?;
    let far = plain_arena(&[FAR, ONE_PHONE]);
    compare_read::<_, struct_list::Owned, Structs<'_>>(&rt, &far, ONE_PHONE)
}

#[test]
fn lists_of_pointers_are_set_again(rt: HostRuntime) -> Result<()> {
    let names = plain_arena(&[NAMES]);
    compare_read::<_, any_pointer_list::Owned, Pointers<'_>>(&rt, &names, NAMES)?;
    compare_read::<_, text_list::Owned, Texts<'_>>(&rt, &names, NAMES)?;
    let lists = plain_arena(&[LISTS]);
    compare_read::<_, list_list::Owned<primitive_list::Owned<u16>>, Lists<'_>>(&rt, &lists, LISTS)
}
