//! Objects of 70,005 elements: what no clause says is that memory suffices for them.
use crate::fixtures::{empty, expect};
use capnp::any_struct;
use capnp_frame::Result;
use capnp_frame_tests::long_lists::MANY;
use capnp_orphans::{Orphan, StructDraft};
use capnp_wire::text;

#[test]
fn long_lists_of_numbers(rt: HostRuntime) -> Result<()> {
    let mut objects = empty(&rt)?;
    let numbers = vec![in rt.alloc(); 7u64; MANY as usize]?;
    objects.numbers(&numbers)?;
    expect(&rt, "bytes", objects.bytes().len(), 8 + 8 * 70_005);
    Ok(())
}

#[test]
fn long_lists_of_pointers(rt: HostRuntime) -> Result<()> {
    let mut objects = empty(&rt)?;
    let name: Orphan<text::Owned> = objects.text("Alice")?;
    let names = vec![in rt.alloc(); name; MANY as usize]?;
    objects.pointer_list(&names)?;
    expect(&rt, "bytes", objects.bytes().len(), 8 + 8 + 8 * 70_005);
    Ok(())
}

#[test]
fn long_lists_of_objects(rt: HostRuntime) -> Result<()> {
    let mut objects = empty(&rt)?;
    let draft = StructDraft::<any_struct::Owned, 1, 1>::new();
    let drafts = vec![in rt.alloc(); draft; MANY as usize]?;
    objects.struct_list(&drafts)?;
    expect(&rt, "bytes", objects.bytes().len(), 8 + 8 + 16 * 70_005);
    Ok(())
}
