//! Loops over the lists of a message, by hand-computed bytes (encoding document, "Lists").
use crate::fixtures::expect;
use capnp::any_struct::StructReader;
use capnp::message::{DEFAULT_READER_OPTIONS, Reader};
use capnp::serialize::{self, OwnedSegments};
use capnp::{Result, any_pointer_list, data_list, primitive_list, struct_list, text_list};
use capnp_uses::loops::{ListsReader, outwards};
use capnp_wire::traits::FromPointerInSegment;
use std::alloc::Global;

// A message of 24 words: a struct of six pointers, and the lists that these point to, each of two
// elements. The elements are "a" and "bc"; one byte and three; two numbers and one; structs of 5
// and 6; 1 and 2 in 16 bits; 7 and 8 in 32.
#[rattlefmt::skip]
const LISTS: &[u8] = b"\0\0\0\0\x18\0\0\0\0\0\0\0\0\0\x06\0\
    \x15\0\0\0\x16\0\0\0\x21\0\0\0\x16\0\0\0\x2d\0\0\0\x16\0\0\0\
    \x39\0\0\0\x17\0\0\0\x41\0\0\0\x13\0\0\0\x41\0\0\0\x14\0\0\0\
    \x05\0\0\0\x12\0\0\0\x05\0\0\0\x1a\0\0\0a\0\0\0\0\0\0\0bc\0\0\0\0\0\0\
    \x05\0\0\0\x0a\0\0\0\x05\0\0\0\x1a\0\0\0\x01\0\0\0\0\0\0\0\x02\x03\x04\0\0\0\0\0\
    \x05\0\0\0\x14\0\0\0\x05\0\0\0\x0c\0\0\0\x01\0\0\0\x02\0\0\0\x03\0\0\0\0\0\0\0\
    \x08\0\0\0\x01\0\0\0\x05\0\0\0\0\0\0\0\x06\0\0\0\0\0\0\0\
    \x01\0\x02\0\0\0\0\0\x07\0\0\0\x08\0\0\0";

// The message of these lists.
fn message(alloc: Global) -> Result<Reader<OwnedSegments>> {
    let mut source = LISTS;
    serialize::read_message(alloc, &mut source, DEFAULT_READER_OPTIONS)
}

type Root<'a> = StructReader<'a, OwnedSegments>;

// What a pointer of the struct points to.
fn view<'a, T: FromPointerInSegment<'a, OwnedSegments>>(root: &Root<'a>, index: u16) -> Result<T> {
    root.get_pointer_as(index)
}

// The sum over these lists. The first one is both the tags and the pointers.
fn sum(root: &Root<'_>) -> Result<u64> {
    let tags: text_list::Reader<'_, OwnedSegments> = view(root, 0)?;
    let scans: data_list::Reader<'_, OwnedSegments> = view(root, 1)?;
    let lists: ListsReader<'_> = view(root, 2)?;
    let parts: struct_list::Reader<'_, OwnedSegments> = view(root, 3)?;
    let weights: primitive_list::Reader<'_, u32> = view(root, 5)?;
    let pointers: any_pointer_list::Reader<'_, OwnedSegments> = view(root, 0)?;
    outwards(&tags, &scans, &lists, &parts, &weights, &pointers)
}

// 2 for the pointers; 15 for the weights, twice; 11 for the parts, 4 times; 3 for the lists, 8
// times; 4 for the scans, 16 times; 3 for the tags, 32 times.
#[test]
fn lists_in_one_another_are_looped_over(rt: HostRuntime) -> Result<()> {
    let message = message(rt.alloc())?;
    expect(
        &rt,
        "the sum",
        sum(&message.get_root()?)?,
        2 + 30 + 44 + 24 + 64 + 96,
    );
    Ok(())
}
