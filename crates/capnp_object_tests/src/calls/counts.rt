//! What each view counts against the traversal limit, by each way to it. The words of what points
//! there count once, and the landing pads and the words of the object each time that it is viewed.
mod functions;
mod views;

use crate::calls::counts::views::{Limited, VIEWS, View, views};
use crate::fixtures::{arena_of, expect};
use capnp_frame::Result;
use std::alloc::Global;
use std::process::Abort;

// An object as its pointer with the words right after it, and how many words it counts. Those are
// all the words that it has; for a list of structs the tag and each word that the pointer counts;
// and for elements of no words their number.
#[rattlefmt::skip]
const OBJECTS: [(&[u8], usize); 19] = [
    // structs: of nothing, of two data words and a pointer
    (b"\xfc\xff\xff\xff\0\0\0\0", 0),
    (b"\0\0\0\0\x02\0\x01\0\x07\0\0\0\0\0\0\0\x08\0\0\0\0\0\0\0\0\0\0\0\0\0\0\0", 3),
    // bytes: none, a text of 14, nine with no zero at their end
    (b"\x01\0\0\0\x02\0\0\0", 0),
    (b"\x01\0\0\0\x72\0\0\0Hello, World!\0\0\0", 2),
    (b"\x01\0\0\0\x4a\0\0\0abcdefghi\0\0\0\0\0\0\0", 2),
    // nothings: none, and five
    (b"\x01\0\0\0\0\0\0\0", 0),
    (b"\x01\0\0\0\x28\0\0\0", 5),
    // 70 bits; five numbers of two bytes, three of four, and three of eight
    (b"\x01\0\0\0\x31\x02\0\0\x03\0\0\0\0\0\0\0\x05\0\0\0\0\0\0\0", 2),
    (b"\x01\0\0\0\x2b\0\0\0\x01\0\x02\0\x03\0\x04\0\x05\0\0\0\0\0\0\0", 2),
    (b"\x01\0\0\0\x1c\0\0\0\x01\0\0\0\x02\0\0\0\x03\0\0\0\0\0\0\0", 2),
    (b"\x01\0\0\0\x1d\0\0\0\x01\0\0\0\0\0\0\0\x02\0\0\0\0\0\0\0\x03\0\0\0\0\0\0\0", 3),
    // pointers: none, and three that are null
    (b"\x01\0\0\0\x06\0\0\0", 0),
    (b"\x01\0\0\0\x1e\0\0\0\0\0\0\0\0\0\0\0\0\0\0\0\0\0\0\0\0\0\0\0\0\0\0\0", 3),
    // lists of structs: none; two of a data word; two of a data word and a pointer; one of a data
    // word, and a word after it
    (b"\x01\0\0\0\x07\0\0\0\0\0\0\0\0\0\0\0", 1),
    (b"\x01\0\0\0\x17\0\0\0\x08\0\0\0\x01\0\0\0\x01\0\0\0\0\0\0\0\x02\0\0\0\0\0\0\0", 3),
    (b"\x01\0\0\0\x27\0\0\0\x08\0\0\0\x01\0\x01\0\x01\0\0\0\0\0\0\0\0\0\0\0\0\0\0\0\x02\0\0\0\0\0\0\0\0\0\0\0\0\0\0\0", 5),
    (b"\x01\0\0\0\x17\0\0\0\x04\0\0\0\x01\0\0\0\x01\0\0\0\0\0\0\0\0\0\0\0\0\0\0\0", 3),
    // three structs of nothing, and the same with a word after them
    (b"\x01\0\0\0\x07\0\0\0\x0c\0\0\0\0\0\0\0", 4),
    (b"\x01\0\0\0\x0f\0\0\0\x0c\0\0\0\0\0\0\0\0\0\0\0\0\0\0\0", 5),
];

// What points to an object: the root pointer, and what is after it up to the object's own pointer.
// A struct of a pointer, a list of a pointer, a list of a struct of a pointer, and each of these
// after a landing pad.
const STRUCT: &[u8] = b"\0\0\0\0\0\0\x01\0";

const LIST: &[u8] = b"\x01\0\0\0\x0e\0\0\0";

const STRUCTS: &[u8] = b"\x01\0\0\0\x0f\0\0\0\x04\0\0\0\0\0\x01\0";

const FAR_STRUCT: &[u8] = b"\x0a\0\0\0\0\0\0\0\0\0\0\0\0\0\x01\0";

const FAR_LIST: &[u8] = b"\x0a\0\0\0\0\0\0\0\x01\0\0\0\x0e\0\0\0";

#[rattlefmt::skip]
const FAR_STRUCTS: &[u8] =
    b"\x0a\0\0\0\0\0\0\0\x01\0\0\0\x0f\0\0\0\x04\0\0\0\0\0\x01\0";

/// What the root is read as.
#[derive(Clone, Copy, Debug)]
pub enum Root {
    Pointer,
    Struct,
    Structs,
    Pointers,
    Lists,
    UpgradedStructs,
    UpgradedPointers,
    UpgradedLists,
    Object,
}

/// How a view is asked for: of a pointer or as an element, or of a struct, in whose segment its
/// pointer is.
#[derive(Clone, Copy, Debug)]
pub enum Asked {
    Pointer,
    Struct,
}

/// A way to an object.
pub type Way = (Root, Asked);

// Ways, what is before the object, and how many words of that are counted, once.
#[rattlefmt::skip]
const WAYS: [(Way, &[u8], usize); 26] = [
    ((Root::Pointer, Asked::Pointer), b"", 0),
    ((Root::Struct, Asked::Pointer), STRUCT, 1),
    ((Root::Struct, Asked::Struct), STRUCT, 1),
    ((Root::Structs, Asked::Pointer), STRUCTS, 2),
    ((Root::Structs, Asked::Struct), STRUCTS, 2),
    ((Root::Pointers, Asked::Pointer), LIST, 1),
    ((Root::Lists, Asked::Pointer), LIST, 1),
    ((Root::UpgradedStructs, Asked::Pointer), LIST, 1),
    ((Root::UpgradedStructs, Asked::Struct), LIST, 1),
    ((Root::UpgradedStructs, Asked::Pointer), STRUCTS, 2),
    ((Root::UpgradedStructs, Asked::Struct), STRUCTS, 2),
    ((Root::UpgradedPointers, Asked::Pointer), LIST, 1),
    ((Root::UpgradedPointers, Asked::Pointer), STRUCTS, 2),
    ((Root::UpgradedLists, Asked::Pointer), LIST, 1),
    ((Root::UpgradedLists, Asked::Pointer), STRUCTS, 2),
    ((Root::Object, Asked::Pointer), LIST, 1),
    ((Root::Object, Asked::Struct), STRUCT, 1),
    ((Root::Object, Asked::Struct), STRUCTS, 2),
    ((Root::Struct, Asked::Struct), FAR_STRUCT, 2),
    ((Root::Structs, Asked::Struct), FAR_STRUCTS, 3),
    ((Root::Lists, Asked::Pointer), FAR_LIST, 2),
    ((Root::UpgradedStructs, Asked::Struct), FAR_LIST, 2),
    ((Root::UpgradedStructs, Asked::Struct), FAR_STRUCTS, 3),
    ((Root::UpgradedPointers, Asked::Pointer), FAR_STRUCTS, 3),
    ((Root::UpgradedLists, Asked::Pointer), FAR_LIST, 2),
    ((Root::Object, Asked::Struct), FAR_STRUCT, 2),
];

// Where an object is: after its pointer, or after a landing pad of one word or of two.
#[derive(Clone, Copy, Debug)]
enum Placed {
    Here,
    OnePad,
    TwoPads,
}

// Where it is, and the words of the landing pad.
const PLACEMENTS: [(Placed, usize); 3] = [
    (Placed::Here, 0),
    (Placed::OnePad, 1),
    (Placed::TwoPads, 2),
];

type Segments = (Vec<u8>, Vec<u8>, Vec<u8>);

// Two parts of a segment, one after the other.
type Parts<'a> = (&'a [u8], &'a [u8]);

const NONE: &[u8] = b"";

fn joined(alloc: Global, (first, second): Parts<'_>) -> Result<Vec<u8>> {
    let mut segment = Vec::new(alloc);
    segment.extend_from_slice(first)?;
    segment.extend_from_slice(second)?;
    Ok(segment)
}

fn segments_of_parts(
    alloc: Global,
    first: Parts<'_>,
    second: Parts<'_>,
    third: Parts<'_>,
) -> Result<Segments> {
    Ok((
        joined(alloc, first)?,
        joined(alloc, second)?,
        joined(alloc, third)?,
    ))
}

// Far pointers: to a landing pad of one word or of two in the second segment, and to the object in the
// third.
const FAR: &[u8] = b"\x02\0\0\0\x01\0\0\0";

const DOUBLE_FAR: &[u8] = b"\x06\0\0\0\x01\0\0\0";

const FAR_TO_THIRD: &[u8] = b"\x02\0\0\0\x02\0\0\0";

// The words before an object, and the object at a place.
fn segments_of(alloc: Global, before: &[u8], object: &[u8], place: Placed) -> Result<Segments> {
    match place {
        Placed::Here => segments_of_parts(alloc, (before, object), (NONE, NONE), (NONE, NONE)),
        Placed::OnePad => { segments_of_parts(alloc, (before, FAR), (object, NONE), (NONE, NONE)) }
        Placed::TwoPads => {
            let pointer = object.get(..8).unwrap_or(NONE);
            let words = object.get(8..).unwrap_or(NONE);
            segments_of_parts(
                alloc,
                (before, DOUBLE_FAR),
                (FAR_TO_THIRD, pointer),
                (words, NONE),
            )
        }
    }
}

// How often an object may be viewed, and which of three views fail for the limit.
const TIMES: [(usize, Limited); 4] = [
    (0, [true, true, true]),
    (1, [false, true, true]),
    (2, [false, false, true]),
    (3, [false, false, false]),
];

// Of three views of one object, within a limit, those fail that are to fail.
fn expect_within(
    rt: &impl Abort,
    segments: &Segments,
    limit: usize,
    (way, view): (Way, View),
    wanted: Limited,
) -> Result<()> {
    let segments = [
        segments.0.as_slice(),
        segments.1.as_slice(),
        segments.2.as_slice(),
    ];
    let arena = arena_of(&segments, Some(limit), 64);
    expect(rt, (way, view, limit), views(&arena, way, view)?, wanted);
    Ok(())
}

// Within the sum of what is counted each view is read, and within one word less the last one is
// not. Where nothing is counted all are read.
fn expect_counted(
    rt: &impl Abort,
    segments: &Segments,
    (before, words): (usize, usize),
    call: (Way, View),
) -> Result<()> {
    if words == 0 {
        return expect_within(rt, segments, before, call, [false; 3]);
    }
    for (times, wanted) in &TIMES {
        let sum = before.saturating_add(words.saturating_mul(*times));
        expect_within(rt, segments, sum, call, *wanted)?;
        expect_within(rt, segments, sum.saturating_add(words - 1), call, *wanted)?;
    }
    Ok(())
}

// An object by each way, at these places, by each view.
fn expect_object(
    rt: &(impl Abort + AllocGlobal),
    object: &[u8],
    words: usize,
    placements: &[(Placed, usize)],
) -> Result<()> {
    for (way, before, counted) in &WAYS {
        for (placed, landing_words) in placements {
            let segments = segments_of(rt.alloc(), before, object, *placed)?;
            let counts = (*counted, words.saturating_add(*landing_words));
            for view in &VIEWS {
                expect_counted(rt, &segments, counts, (*way, *view))?;
            }
        }
    }
    Ok(())
}

#[test]
fn what_each_view_counts(rt: HostRuntime) -> Result<()> {
    for (object, words) in &OBJECTS {
        expect_object(&rt, object, *words, &PLACEMENTS)?;
    }
    Ok(())
}

// A null pointer counts nothing, and is read where nothing is left.
#[test]
fn null_counts_nothing(rt: HostRuntime) -> Result<()> {
    expect_object(&rt, &[0; 8], 0, &[(Placed::Here, 0)])
}
