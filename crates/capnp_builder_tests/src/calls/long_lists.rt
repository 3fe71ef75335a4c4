//! Objects of some seventy thousand elements or words: what no clause says is that memory suffices for
//! them.
use crate::building::init_error;
use crate::fixtures::expect;
use capnp_build::{any_struct, data, primitive_list};
use capnp_frame::Result;
use capnp_frame::message::ReaderSegments;
use capnp_frame_tests::long_lists::{MANY, list_of_numbers};
use capnp_message::{Builder, HeapAllocator};
use capnp_object_tests::arenas::{plain_arena, root_as};
use capnp_values::Borrowed;
use capnp_wire::traits::SetterInput;
use std::alloc::Global;
use std::process::Abort;

// A message whose first segment has room for each of these objects.
fn large_message(alloc: Global) -> Builder<HeapAllocator> {
    let heap = HeapAllocator::new(alloc).first_segment_words(1 << 18);
    Builder::new(alloc, heap)
}

fn has_segment(message: &Builder<HeapAllocator>, wanted: &[u8]) -> bool {
    match message.get_segment(0) {
        Some(segment) => segment == wanted,
        None => false,
    }
}

// A root that is set to a value is this segment, untrimmed and in canonical form.
fn expect_set<T, V: SetterInput<T>>(
    rt: &(impl Abort + AllocGlobal),
    value: &V,
    segment: &[u8],
) -> Result<()> {
    let mut message = large_message(rt.alloc());
    message.set_root::<T, Borrowed<'_, V>>(Borrowed::new(value))?;
    let mut form = large_message(rt.alloc());
    form.set_root_canonical::<T, Borrowed<'_, V>>(Borrowed::new(value))?;
    let found = [has_segment(&message, segment), has_segment(&form, segment)];
    expect(rt, "the root", found, [true, true]);
    Ok(())
}

#[test]
fn a_long_list_is_set(rt: HostRuntime) -> Result<()> {
    let segment = list_of_numbers(rt.alloc(), 8, MANY)?;
    let segments = [segment.as_slice()];
    let arena = plain_arena(&segments);
    let list: capnp_wire::primitive_list::Reader<'_, u64> = root_as(&arena)?;
    expect_set::<
        capnp_wire::primitive_list::Owned<u64>,
        capnp_wire::primitive_list::Reader<'_, u64>,
    >(&rt, &list, &segment)
}

// The most words that a struct has.
const MOST: u32 = 65_535;

#[test]
fn long_objects_are_made(rt: HostRuntime) {
    let mut message = large_message(rt.alloc());
    let failed = [
        init_error::<primitive_list::Owned<u64>, HeapAllocator>(&mut message, MANY),
        init_error::<any_struct::Owned, HeapAllocator>(&mut message, MOST),
        init_error::<data::Owned, HeapAllocator>(&mut message, MANY),
    ];
    expect(&rt, "none fails", failed, [(0, 0); 3]);
}
