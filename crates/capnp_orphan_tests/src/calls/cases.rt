//! Segments that are built, compared with bytes that are computed by hand from the encoding
//! document.
use crate::built::{Built, build};
use crate::fixtures::{empty, expect};
use capnp_frame::Result;
use capnp_orphans::Orphanage;
use std::process::Abort;

// What is built, and the bytes of the segment: the root's word, then the objects, each after what it
// holds.
type Case = (Built, &'static [u8]);

#[rattlefmt::skip]
const CASES: [Case; 16] = [
    (Built::Null, b"\0\0\0\0\0\0\0\0"),
    // A list of 3 bytes, which begins at word 1.
    (Built::Text, b"\x01\0\0\0\x1a\0\0\0hi\0\0\0\0\0\0"),
    (Built::Data, b"\x01\0\0\0\x1a\0\0\0\x01\x02\xff\0\0\0\0\0"),
    // 3 elements of no bits have no words.
    (Built::Voids, b"\x01\0\0\0\x18\0\0\0"),
    (Built::Bools, b"\x01\0\0\0\x19\0\0\0\x05\0\0\0\0\0\0\0"),
    (Built::Shorts, b"\x01\0\0\0\x1b\0\0\0\x01\0\xfe\xff\x03\0\0\0"),
    (Built::Doubles, b"\x01\0\0\0\x15\0\0\0\0\0\0\0\0\0\xf0\x3f\0\0\0\0\0\0\0\xc0"),
    // The offset is -1.
    (Built::EmptyStruct, b"\xfc\xff\xff\xff\0\0\0\0"),
    // The struct is words 2 to 4, and its first pointer points back to word 1: the offset is -3.
    (Built::Struct, b"\x04\0\0\0\x01\0\x02\0hi\0\0\0\0\0\0\x01\0\0\0\x7b\0\0\0\xf5\xff\xff\xff\x1a\0\0\0\0\0\0\0\0\0\0\0"),
    (Built::Masked, b"\0\0\0\0\x01\0\0\0\0\x01\0\0\0\0\0\0"),
    // The list is words 2 to 4: the offsets are -2 and -4.
    (Built::Texts, b"\x05\0\0\0\x1e\0\0\0a\0\0\0\0\0\0\0\xf9\xff\xff\xff\x12\0\0\0\0\0\0\0\0\0\0\0\xf1\xff\xff\xff\x12\0\0\0"),
    // The empty list begins where the list of both does.
    (Built::Lists, b"\x05\0\0\0\x16\0\0\0\x07\0\0\0\0\0\0\0\xf9\xff\xff\xff\x0a\0\0\0\xf9\xff\xff\xff\x02\0\0\0"),
    // The tag is word 2, and the second struct's pointer is word 6: the offset is -6.
    (Built::Structs, b"\x05\0\0\0\x27\0\0\0a\0\0\0\0\0\0\0\x08\0\0\0\x01\0\x01\0\x01\0\0\0\0\0\0\0\0\0\0\0\0\0\0\0\x02\0\0\0\0\0\0\0\xe9\xff\xff\xff\x12\0\0\0"),
    (Built::MadeStructs, b"\x01\0\0\0\x1f\0\0\0\x0c\0\0\0\x01\0\0\0\0\0\0\0\0\0\0\0\x01\0\0\0\0\0\0\0\x04\0\0\0\0\0\0\0"),
    (Built::NoStructs, b"\x01\0\0\0\x07\0\0\0\0\0\0\0\x02\0\x01\0"),
    // The struct comes before its text.
    (Built::Value, b"\0\0\0\0\x01\0\x01\0\x07\0\0\0\0\0\0\0\x01\0\0\0\x1a\0\0\0hi\0\0\0\0\0\0"),
];

#[test]
fn segments_are_as_the_document_has_them(rt: HostRuntime) -> Result<()> {
    let mut objects = empty(&rt)?;
    for case in &CASES {
        is_at(&rt, &mut objects, case)?;
    }
    Ok(())
}

// Alone in an orphanage that is used again.
fn is_at(rt: &impl Abort, objects: &mut Orphanage, &(built, segment): &Case) -> Result<()> {
    objects.clear();
    let root = build(objects, built)?;
    objects.set_root(root);
    expect(rt, built, objects.bytes(), segment);
    Ok(())
}
