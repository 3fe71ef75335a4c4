//! Composed values that are set at the root of a message, by bytes computed by hand from the
//! encoding document, "Structs", "Lists" and "Canonicalization".
use crate::building::{expect_segments, far_message};
use crate::fixtures::expect;
use capnp_build::allocator::Allocator;
use capnp_frame::Result;
use capnp_frame::message::ReaderSegments;
use capnp_frame_tests::retried;
use capnp_message::{Builder, HeapAllocator, ScratchSpaceHeapAllocator, SingleSegmentAllocator};
use capnp_values::{Borrowed, Field, NoFields, Null, NumberList, PointerList, StructValue};
use capnp_wire::traits::SetterInput;
use capnp_wire::{any_struct, data, list_list, primitive_list, text};
use std::process::Abort;

// A number, and pointers to such a struct, to nothing and to a text: the first points past the two
// after it, the last past the struct with its name.
#[rattlefmt::skip]
const NESTED: &[u8] = b"\0\0\0\0\x01\0\x03\0\x09\0\0\0\0\0\0\0\
    \x08\0\0\0\x01\0\x01\0\0\0\0\0\0\0\0\0\x0d\0\0\0\x1a\0\0\0\
    \x07\0\0\0\0\0\0\0\x01\0\0\0\x22\0\0\0Ann\0\0\0\0\0Bo\0\0\0\0\0\0";

// Two data words and pointers to a struct of a zero and a null, to a text and to nothing, in
// canonical form: a data word and two pointers, the first to an empty struct.
#[rattlefmt::skip]
const TIGHT: &[u8] = b"\0\0\0\0\x01\0\x02\0\x07\0\0\0\0\0\0\0\
    \xfc\xff\xff\xff\0\0\0\0\x01\0\0\0\x22\0\0\0Ann\0\0\0\0\0";

const EMPTY: &[u8] = b"\xfc\xff\xff\xff\0\0\0\0";

const NULL: &[u8] = b"\0\0\0\0\0\0\0\0";

type Named<'a> = StructValue<1, Field<text::Owned, &'a str, NoFields>>;

type AfterInner<'a> = Field<data::Owned, Null, Field<text::Owned, &'a str, NoFields>>;

type Nested<'a> = StructValue<1, Field<any_struct::Owned, Named<'a>, AfterInner<'a>>>;

type Hollow = StructValue<1, Field<text::Owned, Null, NoFields>>;

type AfterHollow<'a> = Field<text::Owned, &'a str, Field<data::Owned, Null, NoFields>>;

type Loose<'a> = StructValue<2, Field<any_struct::Owned, Hollow, AfterHollow<'a>>>;

fn named<'a>(number: u64, name: &'a str) -> Named<'a> {
    StructValue::new([number], Field::new(name, NoFields))
}

fn nested<'a>() -> Nested<'a> {
    let after = Field::new(Null, Field::new("Bo", NoFields));
    StructValue::new([9], Field::new(named(7, "Ann"), after))
}

fn loose<'a>() -> Loose<'a> {
    let hollow = StructValue::new([0], Field::new(Null, NoFields));
    let after = Field::new("Ann", Field::new(Null, NoFields));
    StructValue::new([7, 0], Field::new(hollow, after))
}

// Sets the root, and compares the segment where the value is.
fn compare<T, V: SetterInput<T>, A: Allocator>(
    rt: &impl Abort,
    message: &mut Builder<A>,
    value: &V,
    segment: u32,
    expected: &[u8],
) -> Result<()> {
    retried!(set::<T, V, A>(message, value))?;
    expect(rt, segment, message.get_segment(segment), Some(expected));
    Ok(())
}

fn set<T, V: SetterInput<T>, A: Allocator>(message: &mut Builder<A>, value: &V) -> Result<()> {
    message.set_root::<T, Borrowed<'_, V>>(Borrowed::new(value))
}

/// The same by each allocator.
pub(crate) fn compare_by_each<T, V: SetterInput<T>>(
    rt: &(impl Abort + AllocGlobal),
    value: &V,
    expected: &[u8],
) -> Result<()> {
    compare_in_heaps::<T, V>(rt, value, expected)?;
    compare_in_regions::<T, V>(rt, value, expected)
}

// In a heap whose first segment has room for the root alone the value is in the next one, after a
// landing pad that is as the root's pointer would be.
fn compare_in_heaps<T, V: SetterInput<T>>(
    rt: &(impl Abort + AllocGlobal),
    value: &V,
    expected: &[u8],
) -> Result<()> {
    let mut message = Builder::new_default(rt.alloc());
    compare::<T, V, HeapAllocator>(rt, &mut message, value, 0, expected)?;
    let mut message = far_message(rt.alloc());
    let near = expected.len() == 8;
    let segment = if near { 0 } else { 1 };
    compare::<T, V, HeapAllocator>(rt, &mut message, value, segment, expected)
}

fn compare_in_regions<T, V: SetterInput<T>>(
    rt: &(impl Abort + AllocGlobal),
    value: &V,
    expected: &[u8],
) -> Result<()> {
    let mut region = [7; 96];
    let mut single = SingleSegmentAllocator::new(&mut region);
    let mut message = Builder::new(rt.alloc(), &mut single);
    compare::<T, V, _>(rt, &mut message, value, 0, expected)?;
    drop(message);
    drop(single);
    let mut scratch = ScratchSpaceHeapAllocator::new(rt.alloc(), &mut region);
    let mut message = Builder::new(rt.alloc(), &mut scratch);
    compare::<T, V, _>(rt, &mut message, value, 0, expected)
}

#[test]
fn values_are_at_the_root(rt: HostRuntime) -> Result<()> {
    compare_by_each::<any_struct::Owned, Nested<'_>>(&rt, &nested(), NESTED)?;
    let empty = StructValue::new([], NoFields);
    compare_by_each::<any_struct::Owned, StructValue<0, NoFields>>(&rt, &empty, EMPTY)?;
    compare_by_each::<text::Owned, Null>(&rt, &Null, NULL)
}

// Makes a value the root in canonical form, and compares the one segment.
pub(crate) fn compare_canonical<T, V: SetterInput<T>>(
    rt: &(impl Abort + AllocGlobal),
    value: &V,
    expected: &[u8],
) -> Result<()> {
    let mut message = Builder::new_default(rt.alloc());
    retried!(set_canonical::<T, V>(&mut message, value))?;
    expect_segments(rt, "canonical form", &message, &[expected]);
    Ok(())
}

fn set_canonical<T, V: SetterInput<T>>(
    message: &mut Builder<HeapAllocator>,
    value: &V,
) -> Result<()> {
    message.set_root_canonical::<T, Borrowed<'_, V>>(Borrowed::new(value))
}

#[test]
fn canonical_forms_are_trimmed(rt: HostRuntime) -> Result<()> {
    compare_canonical::<any_struct::Owned, Loose<'_>>(&rt, &loose(), TIGHT)
}

// A list of two lists of numbers of two bytes.
#[rattlefmt::skip]
const LISTS: &[u8] = b"\x01\0\0\0\x16\0\0\0\x05\0\0\0\x13\0\0\0\x05\0\0\0\x0b\0\0\0\
    \x01\0\x02\0\0\0\0\0\x03\0\0\0\0\0\0\0";

type Numbers<'a> = NumberList<'a, u16>;

#[test]
fn lists_of_lists_are_at_the_root(rt: HostRuntime) -> Result<()> {
    let lists = [NumberList::new(&[1, 2]), NumberList::new(&[3])];
    let list = PointerList::new(&lists);
    compare_by_each::<
        list_list::Owned<primitive_list::Owned<u16>>,
        PointerList<'_, primitive_list::Owned<u16>, Numbers<'_>>,
    >(&rt, &list, LISTS)
}
