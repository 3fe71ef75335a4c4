//! Messages of the address book's types, and what people of it show.
use crate::addressbook_capnp::{address_book, person};
use crate::calls::schema_types::address_book::{Job, append_people, people, write_address_book};
use crate::calls::schema_types::shown::message_in;
use crate::fixtures::expect;
use capnp::message::{DEFAULT_READER_OPTIONS, Reader, ReaderSegments};
use capnp_frame::Result;
use capnp_orphans::{GrowingSegment, Orphanage};
use std::alloc::Global;

/// The person at the root of a message.
pub fn person_of<'a, S: ReaderSegments>(message: &'a Reader<S>) -> Result<person::Reader<'a, S>> {
    message.get_root()
}

// The C++ tool wrote these bytes of the same book: `capnp convert text:canonical`.
#[rattlefmt::skip]
pub(crate) const BOOK: &[u8] = &[
    0, 0, 0, 0, 0, 0, 1, 0,
    1, 0, 0, 0, 87, 0, 0, 0,
    8, 0, 0, 0, 1, 0, 4, 0,
    123, 0, 0, 0, 2, 0, 0, 0,
    33, 0, 0, 0, 50, 0, 0, 0,
    33, 0, 0, 0, 146, 0, 0, 0,
    41, 0, 0, 0, 15, 0, 0, 0,
    53, 0, 0, 0, 34, 0, 0, 0,
    200, 1, 0, 0, 0, 0, 0, 0,
    49, 0, 0, 0, 34, 0, 0, 0,
    49, 0, 0, 0, 130, 0, 0, 0,
    53, 0, 0, 0, 39, 0, 0, 0,
    0, 0, 0, 0, 0, 0, 0, 0,
    65, 108, 105, 99, 101, 0, 0, 0,
    97, 108, 105, 99, 101, 64, 101, 120,
    97, 109, 112, 108, 101, 46, 99, 111,
    109, 0, 0, 0, 0, 0, 0, 0,
    4, 0, 0, 0, 0, 0, 1, 0,
    1, 0, 0, 0, 74, 0, 0, 0,
    53, 53, 53, 45, 49, 50, 49, 50,
    0, 0, 0, 0, 0, 0, 0, 0,
    77, 73, 84, 0, 0, 0, 0, 0,
    66, 111, 98, 0, 0, 0, 0, 0,
    98, 111, 98, 64, 101, 120, 97, 109,
    112, 108, 101, 46, 99, 111, 109, 0,
    8, 0, 0, 0, 1, 0, 1, 0,
    1, 0, 0, 0, 0, 0, 0, 0,
    9, 0, 0, 0, 74, 0, 0, 0,
    2, 0, 0, 0, 0, 0, 0, 0,
    9, 0, 0, 0, 74, 0, 0, 0,
    53, 53, 53, 45, 52, 53, 54, 55,
    0, 0, 0, 0, 0, 0, 0, 0,
    53, 53, 53, 45, 55, 54, 53, 52,
    0, 0, 0, 0, 0, 0, 0, 0,
];

#[test]
fn the_book_is_the_one_that_the_tool_writes(rt: HostRuntime) -> Result<()> {
    let mut objects = Orphanage::new(rt.alloc())?;
    write_address_book(&mut objects)?;
    let bytes = message_in(&objects).canonical_segment(rt.alloc())?;
    expect(&rt, "the book", bytes.as_slice(), BOOK);
    Ok(())
}

// The list is made in a region of the caller's, of just its 25 words.
#[test]
fn elements_have_different_members(rt: HostRuntime) -> Result<()> {
    let entries = [
        ("A", None, Job::Learns("MIT")),
        ("B", Some("b@example.com"), Job::None),
        ("C", None, Job::At("Acme")),
    ];
    let mut region = [1u8; 8 * 25];
    let mut objects = Orphanage::in_region(&mut region)?;
    add_book(rt.alloc(), &mut objects, &entries)?;
    let message = Reader::new(&objects, DEFAULT_READER_OPTIONS);
    let people = people_of(&message)?;
    expect(&rt, "people", people.len(), 3);
    Ok(())
}

// Makes a book of people the root of a message.
fn add_book<S: GrowingSegment>(
    alloc: Global,
    objects: &mut Orphanage<S>,
    entries: &[(&str, Option<&str>, Job<'_>)],
) -> Result<()> {
    let mut book = address_book::Builder::new();
    book.set_people(people(alloc, objects, entries)?);
    book.add_root(objects)
}

// The people of the book at the root of a message.
fn people_of<'a, S: ReaderSegments>(message: &'a Reader<S>) -> Result<person::ListReader<'a, S>> {
    let book: address_book::Reader<'a, S> = message.get_root()?;
    book.get_people()
}

// Each message has a word of framing, the root's word, one of the text and five of the struct.
#[test]
fn records_are_appended(rt: HostRuntime) -> Result<()> {
    let mut log = Vec::new(rt.alloc());
    append_people(rt.alloc(), &mut log, &["Alice", "Bob"])?;
    expect(&rt, "bytes", log.len(), 2 * 8 * 8);
    Ok(())
}
