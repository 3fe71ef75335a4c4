//! What made getters count against the traversal limit: the words of what points to a struct once,
//! and the words of what a getter views each time.
use crate::addressbook_capnp::person::phone_number;
use crate::addressbook_capnp::{address_book, person};
use crate::calls::schema_types::people::BOOK;
use crate::calls::schema_types::samples::{EMPTY, FILLED};
use crate::fixtures::expect;
use crate::sample_capnp::{palette, sample, tree};
use capnp_frame::message::{ReaderOptions, SegmentArray};
use capnp_frame::{Error, ErrorKind, Result};
use capnp_frame_tests::errors::error_of;
use capnp_wire::arena::ReaderArena;
use capnp_wire::traits::FromPointerReader;
use std::process::Abort;

type Segments<'a> = SegmentArray<'a>;

type Arena<'a> = ReaderArena<Segments<'a>>;

// A palette of two colors, in a word, and of no names.
#[rattlefmt::skip]
const PALETTE: &[u8] =
    b"\0\0\0\0\0\0\x02\0\x05\0\0\0\x13\0\0\0\0\0\0\0\0\0\0\0\x01\0\x02\0\0\0\0\0";

// Trees of three words: the left one of the first is another.
const TREE: &[u8] = b"\0\0\0\0\x01\0\x02\0\x01\0\0\0\0\0\0\0\x04\0\0\0\x01\0\x02\0\0\0\0\0\0\0\0\0\
\x02\0\0\0\0\0\0\0\0\0\0\0\0\0\0\0\0\0\0\0\0\0\0\0";

#[derive(Clone, Copy, Debug)]
enum Getter {
    Title,
    Payload,
    Points,
    Numbers,
    Origin,
    Label,
    Which,
    Note,
    Target,
    People,
    Name,
    Email,
    Phones,
    School,
    PhoneNumber,
    Colors,
    Left,
    Right,
}

// Getters, messages, the words that are counted before, and the words of what is viewed.
#[rattlefmt::skip]
const CASES: [(Getter, &[u8], usize, usize); 21] = [
    // after the root's thirteen words
    (Getter::Title, FILLED, 13, 1),
    (Getter::Payload, FILLED, 13, 1),
    (Getter::Points, FILLED, 13, 3),
    (Getter::Numbers, FILLED, 13, 2),
    (Getter::Origin, FILLED, 13, 1),
    (Getter::Label, FILLED, 13, 1),
    (Getter::Which, FILLED, 13, 1),
    (Getter::Note, FILLED, 13, 1),
    (Getter::Target, FILLED, 13, 1),
    // null, and defaults of the schema
    (Getter::Title, EMPTY, 13, 0),
    (Getter::Note, EMPTY, 13, 0),
    (Getter::Target, EMPTY, 13, 0),
    // after the root's word, the eleven of the people, and the two of the phones
    (Getter::People, BOOK, 1, 11),
    (Getter::Name, BOOK, 12, 1),
    (Getter::Email, BOOK, 12, 3),
    (Getter::Phones, BOOK, 12, 2),
    (Getter::School, BOOK, 12, 1),
    (Getter::PhoneNumber, BOOK, 14, 2),
    (Getter::Colors, PALETTE, 2, 1),
    (Getter::Left, TREE, 3, 3),
    (Getter::Right, TREE, 3, 0),
];

fn is_limited<T: Drop>(view: Result<T>) -> bool {
    error_of(view) == 20
}

fn missing() -> Error {
    Error::from_kind(ErrorKind::PrematureEndOfFile)
}

// What a getter is called of.
#[derive(Drop)]
enum Source<'a> {
    Sample(sample::Reader<'a, Segments<'a>>),
    Book(address_book::Reader<'a, Segments<'a>>),
    Person(person::Reader<'a, Segments<'a>>),
    Phone(phone_number::Reader<'a, Segments<'a>>),
    Palette(palette::Reader<'a, Segments<'a>>),
    Tree(tree::Reader<'a, Segments<'a>>),
}

fn root_as<'a, T: FromPointerReader<'a, Segments<'a>>>(arena: &'a Arena<'a>) -> Result<T> {
    arena.get_root()?.get_as()
}

fn source_of<'a>(arena: &'a Arena<'a>, getter: Getter) -> Result<Source<'a>> {
    match getter {
        Getter::People => Ok(Source::Book(root_as(arena)?)),
        Getter::Name | Getter::Email | Getter::Phones | Getter::School => {
            Ok(Source::Person(person_in(&root_as(arena)?)?))
        }
        Getter::PhoneNumber => Ok(Source::Phone(phone_of(&person_in(&root_as(arena)?)?)?)),
        Getter::Colors => Ok(Source::Palette(root_as(arena)?)),
        Getter::Left | Getter::Right => Ok(Source::Tree(root_as(arena)?)),
        _ => Ok(Source::Sample(root_as(arena)?)),
    }
}

// The first person of a book.
fn person_in<'a>(
    book: &address_book::Reader<'a, Segments<'a>>,
) -> Result<person::Reader<'a, Segments<'a>>> {
    match book.get_people()?.try_get(0) {
        Some(person) => Ok(person),
        None => Err(missing()),
    }
}

// The first phone of a person.
fn phone_of<'a>(
    person: &person::Reader<'a, Segments<'a>>,
) -> Result<phone_number::Reader<'a, Segments<'a>>> {
    match person.get_phones()?.try_get(0) {
        Some(phone) => Ok(phone),
        None => Err(missing()),
    }
}

// Whether a getter fails for the limit.
fn getter_is_limited(source: &Source<'_>, getter: Getter) -> bool {
    match source {
        Source::Sample(sample) => sample_is_limited(sample, getter),
        Source::Book(book) => is_limited(book.get_people()),
        Source::Person(person) => person_is_limited(person, getter),
        Source::Phone(phone) => is_limited(phone.get_number()),
        Source::Palette(palette) => is_limited(palette.get_colors()),
        Source::Tree(tree) => match getter {
            Getter::Left => is_limited(tree.get_left()),
            _ => is_limited(tree.get_right()),
        },
    }
}

fn sample_is_limited(sample: &sample::Reader<'_, Segments<'_>>, getter: Getter) -> bool {
    match getter {
        Getter::Title => is_limited(sample.get_title()),
        Getter::Payload => is_limited(sample.get_payload()),
        Getter::Points => is_limited(sample.get_points()),
        Getter::Numbers => is_limited(sample.get_numbers()),
        Getter::Origin => is_limited(sample.get_origin()),
        Getter::Label => is_limited(sample.get_label()),
        Getter::Which => match sample.which() {
            sample::Which::Label(label) => is_limited(label),
            _ => false,
        },
        Getter::Note => is_limited(sample.get_note()),
        _ => is_limited(sample.get_target()),
    }
}

fn person_is_limited(person: &person::Reader<'_, Segments<'_>>, getter: Getter) -> bool {
    match getter {
        Getter::Name => is_limited(person.get_name()),
        Getter::Email => is_limited(person.get_email()),
        Getter::Phones => is_limited(person.get_phones()),
        _ => is_limited(person.get_employment().get_school()),
    }
}

// How often something may be viewed, and which of three calls fail for the limit.
const TIMES: [(usize, [bool; 3]); 4] = [
    (0, [true, true, true]),
    (1, [false, true, true]),
    (2, [false, false, true]),
    (3, [false, false, false]),
];

// Of three calls of a getter, within a limit, those fail that are to fail.
fn expect_within(
    rt: &impl Abort,
    (getter, message): (Getter, &[u8]),
    limit: usize,
    wanted: [bool; 3],
) -> Result<()> {
    let segments = [message];
    let mut options = ReaderOptions::new();
    options.traversal_limit_in_words(Some(limit));
    let arena = ReaderArena::new(SegmentArray::new(&segments), options);
    let source = source_of(&arena, getter)?;
    let first = getter_is_limited(&source, getter);
    let second = getter_is_limited(&source, getter);
    let found = [first, second, getter_is_limited(&source, getter)];
    expect(rt, (getter, limit), found, wanted);
    Ok(())
}

// Within the sum of what is counted each call returns a view, and within one word less the last one
// does not. Where nothing is counted all do.
fn expect_counted(
    rt: &impl Abort,
    call: (Getter, &[u8]),
    before: usize,
    words: usize,
) -> Result<()> {
    if words == 0 {
        return expect_within(rt, call, before, [false; 3]);
    }
    for (times, wanted) in &TIMES {
        let sum = before.saturating_add(words.saturating_mul(*times));
        expect_within(rt, call, sum, *wanted)?;
        expect_within(rt, call, sum.saturating_add(words - 1), *wanted)?;
    }
    Ok(())
}

#[test]
fn what_made_getters_count(rt: HostRuntime) -> Result<()> {
    for (getter, message, before, words) in &CASES {
        expect_counted(&rt, (*getter, message), *before, *words)?;
    }
    Ok(())
}
