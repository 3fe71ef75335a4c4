//! The callers that read back values that are composed, by hand-computed bytes (encoding document,
//! "Lists").
use crate::fixtures::expect;
use capnp::Result;
use capnp::message::{Builder, HeapAllocator, ReaderOptions};
use capnp::streams::Format;
use capnp_frame_tests::messages::has_segments;
use capnp_uses::values::{contact_is_read_back, person_is_read_back, phone};
use std::alloc::Global;

// A number, pointers to a text and to a struct of no data words, and what these point to.
#[rattlefmt::skip]
const PERSON: &[u8] = b"\0\0\0\0\x01\0\x02\0\x09\0\0\0\0\0\0\0\
    \x05\0\0\0\x22\0\0\0\x04\0\0\0\0\0\x01\0Ann\0\0\0\0\0\x01\0\0\0\x2a\0\0\0Bonn\0\0\0\0";

// A number, pointers to two texts and to a list, and what these point to: the list's tag, two
// structs of a word and a pointer each, and their texts.
#[rattlefmt::skip]
const CONTACT: &[u8] = b"\0\0\0\0\x01\0\x03\0\x09\0\0\0\0\0\0\0\
    \x09\0\0\0\x22\0\0\0\x09\0\0\0\x22\0\0\0\x09\0\0\0\x27\0\0\0\
    Ann\0\0\0\0\0a@b\0\0\0\0\0\x08\0\0\0\x01\0\x01\0\
    \x01\0\0\0\0\0\0\0\x09\0\0\0\x22\0\0\0\x02\0\0\0\0\0\0\0\x05\0\0\0\x42\0\0\0\
    123\0\0\0\0\04567890\0";

const FORMATS: [Format; 2] = [Format::Framed, Format::Packed];

// What is read back contracts say.
#[test]
fn people_and_contacts_are_built(rt: HostRuntime) -> Result<()> {
    for format in &FORMATS {
        let person = build_person(rt.alloc(), *format)?;
        expect(&rt, *format, has_segments(&person, &[PERSON]), true);
        let contact = build_contact(rt.alloc(), *format)?;
        expect(&rt, *format, has_segments(&contact, &[CONTACT]), true);
    }
    Ok(())
}

fn build_person(alloc: Global, format: Format) -> Result<Builder<HeapAllocator>> {
    let options = ReaderOptions::new();
    let mut message = Builder::new_default(alloc);
    person_is_read_back(alloc, format, &mut message, 9, "Ann", "Bonn", options)?;
    Ok(message)
}

fn build_contact(alloc: Global, format: Format) -> Result<Builder<HeapAllocator>> {
    let phones = [phone("123", 1), phone("4567890", 2)];
    let options = ReaderOptions::new();
    let mut message = Builder::new_default(alloc);
    contact_is_read_back(
        alloc,
        format,
        &mut message,
        9,
        "Ann",
        "a@b",
        &phones,
        options,
    )?;
    Ok(message)
}
