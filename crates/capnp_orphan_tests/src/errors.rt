//! Failed allocations: what was there before is still there.
use crate::built::{Built, build};
use crate::fixtures::{empty, expect, message_of};
use capnp_frame::Result;
use capnp_frame_tests::failed_allocations::is_out_of_memory;
use capnp_frame_tests::retried;
use capnp_orphans::Orphanage;
use capnp_wire::text;
use std::process::Abort;

const KINDS: [Built; 7] = [
    Built::Text,
    Built::Data,
    Built::Doubles,
    Built::Struct,
    Built::Texts,
    Built::MadeStructs,
    Built::Value,
];

// The root is the text "Alice".
fn expect_alice(rt: &impl Abort, objects: &Orphanage) -> Result<()> {
    let message = message_of(objects);
    let text: text::Reader<'_> = message.get_root()?;
    expect(rt, "the root", text.as_bytes(), b"Alice".as_slice());
    Ok(())
}

// Of the 8,192 bytes that an orphanage has first, two words are left.
fn alice(rt: &impl AllocGlobal) -> Result<Orphanage> {
    let mut objects = empty(rt)?;
    let root = objects.text("Alice")?;
    objects.set_root(root);
    objects.data(&[0; 8160])?;
    Ok(objects)
}

// `rt try --test --fail-alloc N` makes the Nth allocation fail: then the call returns `OutOfMemory`,
// what was there before is still there, and the same object is built when it is asked for again.
fn build_in_the_end(rt: &impl Abort, objects: &mut Orphanage, built: Built) -> Result<()> {
    let length = objects.bytes().len();
    let returned = build(objects, built);
    if returned.is_err() {
        assert!(rt; is_out_of_memory(&returned));
        expect(rt, built, objects.bytes().len(), length);
        expect_alice(rt, objects)?;
        build(objects, built)?;
    }
    Ok(())
}

// Each object in turn after those before it.
#[test]
fn each_object_is_built_after_a_failed_allocation(rt: HostRuntime) -> Result<()> {
    let mut objects = retried!(alice(&rt))?;
    for built in &KINDS {
        build_in_the_end(&rt, &mut objects, *built)?;
    }
    expect_alice(&rt, &objects)
}
