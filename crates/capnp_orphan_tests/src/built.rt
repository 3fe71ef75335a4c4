//! Objects of each kind, as they are built.
use capnp_frame::Result;
use capnp_orphans::{DraftSource, GrowingSegment, Orphan, Orphanage, StructDraft};
use capnp_values::{Field, NoFields, StructValue};
use capnp_wire::primitive_element::PrimitiveElement;
use capnp_wire::{any_pointer, any_struct, primitive_list, text};
use std::marker::PhantomData;

/// What is built.
#[derive(Clone, Copy, Debug)]
pub enum Built {
    Null,
    Text,
    Data,
    Voids,
    Bools,
    Shorts,
    Doubles,
    EmptyStruct,
    Struct,
    Masked,
    Texts,
    Lists,
    Structs,
    MadeStructs,
    NoStructs,
    Value,
}

/// The object, which is to be the root.
pub fn build<S: GrowingSegment>(
    objects: &mut Orphanage<S>,
    built: Built,
) -> Result<Orphan<any_pointer::Owned>> {
    match built {
        Built::Null => Ok(Orphan::null()),
        Built::Text => short_text(objects),
        Built::Data => three_bytes(objects),
        Built::Voids => numbers(objects, &[(), (), ()]),
        Built::Bools => numbers(objects, &[true, false, true]),
        Built::Shorts => numbers::<S, i16>(objects, &[1, -2, 3]),
        Built::Doubles => numbers::<S, f64>(objects, &[1.0, -2.0]),
        Built::EmptyStruct => add(objects, &empty()),
        Built::Struct => person(objects),
        Built::Masked => add(objects, &masked()),
        Built::Texts => texts(objects),
        Built::Lists => lists(objects),
        Built::Structs => structs(objects),
        Built::MadeStructs => made_structs(objects),
        Built::NoStructs => no_structs(objects),
        Built::Value => value(objects),
    }
}

fn short_text<S: GrowingSegment>(objects: &mut Orphanage<S>) -> Result<Orphan<any_pointer::Owned>> {
    Ok(objects.text("hi")?.of_type())
}

fn three_bytes<S: GrowingSegment>(
    objects: &mut Orphanage<S>,
) -> Result<Orphan<any_pointer::Owned>> {
    Ok(objects.data(&[1, 2, 255])?.of_type())
}

fn numbers<S: GrowingSegment, N: PrimitiveElement + Copy>(
    objects: &mut Orphanage<S>,
    items: &[N],
) -> Result<Orphan<any_pointer::Owned>> {
    Ok(objects.numbers(items)?.of_type())
}

fn add<S: GrowingSegment, const D: usize, const P: usize>(
    objects: &mut Orphanage<S>,
    draft: &StructDraft<any_struct::Owned, D, P>,
) -> Result<Orphan<any_pointer::Owned>> {
    Ok(objects.add(draft)?.of_type())
}

fn made_structs<S: GrowingSegment>(
    objects: &mut Orphanage<S>,
) -> Result<Orphan<any_pointer::Owned>> {
    Ok(objects.lazy_struct_list(&Squares)?.of_type())
}

fn empty() -> StructDraft<any_struct::Owned, 0, 0> {
    StructDraft::new()
}

// The second pointer stays null.
fn person<S: GrowingSegment>(objects: &mut Orphanage<S>) -> Result<Orphan<any_pointer::Owned>> {
    let name = objects.text("hi")?;
    let mut draft = StructDraft::<any_struct::Owned, 1, 2>::new();
    draft.set_data_field::<u32>(1, 123);
    draft.set_data_field(0, true);
    draft.adopt(0, name);
    add(objects, &draft)
}

// 5 where 4 is the default, and the default itself.
fn masked() -> StructDraft<any_struct::Owned, 1, 0> {
    let mut draft = StructDraft::new();
    draft.set_data_field_mask::<u8>(1, 5, 4);
    draft.set_data_field_mask::<u16>(1, 7, 7);
    draft
}

// One text is adopted twice.
fn texts<S: GrowingSegment>(objects: &mut Orphanage<S>) -> Result<Orphan<any_pointer::Owned>> {
    let one = objects.text("a")?;
    let names: [Orphan<text::Owned>; 3] = [one, Orphan::null(), one];
    Ok(objects.pointer_list(&names)?.of_type())
}

fn lists<S: GrowingSegment>(objects: &mut Orphanage<S>) -> Result<Orphan<any_pointer::Owned>> {
    let first = objects.numbers::<u8>(&[7])?;
    let second = objects.numbers::<u8>(&[])?;
    let elements: [Orphan<primitive_list::Owned<u8>>; 2] = [first, second];
    Ok(objects.pointer_list(&elements)?.of_type())
}

fn structs<S: GrowingSegment>(objects: &mut Orphanage<S>) -> Result<Orphan<any_pointer::Owned>> {
    let name = objects.text("a")?;
    let mut first = StructDraft::<any_struct::Owned, 1, 1>::new();
    first.set_data_field::<u16>(0, 1);
    let mut second = StructDraft::<any_struct::Owned, 1, 1>::new();
    second.set_data_field::<u16>(0, 2);
    second.adopt(0, name);
    Ok(objects.struct_list(&[first, second])?.of_type())
}

fn no_structs<S: GrowingSegment>(objects: &mut Orphanage<S>) -> Result<Orphan<any_pointer::Owned>> {
    let none: [StructDraft<any_struct::Owned, 2, 1>; 0] = [];
    Ok(objects.struct_list(&none)?.of_type())
}

type Phone<'a> = StructValue<1, Field<text::Owned, &'a str, NoFields>>;

// A struct that is composed, in one block.
fn value<S: GrowingSegment>(objects: &mut Orphanage<S>) -> Result<Orphan<any_pointer::Owned>> {
    let phone: Phone<'_> = StructValue::new([7], Field::new("hi", NoFields));
    Ok(
        objects
            .set::<any_struct::Owned, Phone<'_>>(&phone)?
            .of_type(),
    )
}

// Structs whose numbers are 0, 1 and 4.
struct Squares;

impl DraftSource<any_struct::Owned, 1, 0> for Squares {
    ghost use Rattle.std.specs.Prelude.{[], ◌∷◌};
    ghost use Rattle.capnp_orphan_tests.specs.Squares.{square};

    ghost drafts = { λ _. square 0 ∷ square 1 ∷ square 2 ∷ [] };

    fn len(&self) -> usize {
        3
    }

    fn get(&self, index: usize) -> StructDraft<any_struct::Owned, 1, 0> {
        let number = index as u64;
        StructDraft {
            words: [number * number],
            pointers: [],
            schema: PhantomData,
        }
    }
}
