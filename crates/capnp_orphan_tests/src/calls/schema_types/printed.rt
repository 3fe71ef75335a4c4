//! Structs as text, by the method that the schema compiler writes with `print`. The lines are as
//! `capnp decode --short` writes them, and where it has none, as docs/COMPILER.md says.
use crate::calls::schema_types::shown::message_of;
use crate::fixtures::expect;
use crate::printed_capnp::printed;
use capnp_frame::message::SegmentArray;
use std::alloc::Global;
use std::test::Fail;

// (balance = 12, ratio = -2.5, color = deepBlue, title = "A \"title\"\n", payload = 0x"01 41 ff",
// points = [(x = 1, y = -2), ()], colors = [red, deepBlue], any = a struct, size = (width = 80),
// label = "here")
#[rattlefmt::skip]
const FILLED: &[u8] = &[
    0, 0, 0, 0, 2, 0, 6, 0,
    247, 255, 1, 0, 80, 0, 1, 0,
    0, 0, 0, 0, 0, 0, 4, 192,
    21, 0, 0, 0, 90, 0, 0, 0,
    25, 0, 0, 0, 26, 0, 0, 0,
    25, 0, 0, 0, 23, 0, 0, 0,
    33, 0, 0, 0, 19, 0, 0, 0,
    32, 0, 0, 0, 1, 0, 0, 0,
    33, 0, 0, 0, 42, 0, 0, 0,
    65, 32, 34, 116, 105, 116, 108, 101,
    34, 10, 0, 0, 0, 0, 0, 0,
    1, 65, 255, 0, 0, 0, 0, 0,
    8, 0, 0, 0, 1, 0, 0, 0,
    1, 0, 0, 0, 253, 255, 255, 255,
    0, 0, 0, 0, 0, 0, 0, 0,
    0, 0, 1, 0, 0, 0, 0, 0,
    1, 0, 0, 0, 0, 0, 0, 0,
    104, 101, 114, 101, 0, 0, 0, 0,
];

// (inner = (balance = 1, inner = (ratio = 0.1))), without the pointers and words that are zero at the
// end of each struct.
#[rattlefmt::skip]
const NESTED: &[u8] = &[
    0, 0, 0, 0, 1, 0, 6, 0,
    0, 0, 0, 0, 0, 0, 2, 0,
    0, 0, 0, 0, 0, 0, 0, 0,
    0, 0, 0, 0, 0, 0, 0, 0,
    0, 0, 0, 0, 0, 0, 0, 0,
    0, 0, 0, 0, 0, 0, 0, 0,
    0, 0, 0, 0, 0, 0, 0, 0,
    0, 0, 0, 0, 1, 0, 6, 0,
    250, 255, 0, 0, 0, 0, 2, 0,
    0, 0, 0, 0, 0, 0, 0, 0,
    0, 0, 0, 0, 0, 0, 0, 0,
    0, 0, 0, 0, 0, 0, 0, 0,
    0, 0, 0, 0, 0, 0, 0, 0,
    0, 0, 0, 0, 0, 0, 0, 0,
    0, 0, 0, 0, 2, 0, 0, 0,
    0, 0, 0, 0, 0, 0, 0, 0,
    154, 153, 153, 153, 153, 153, 185, 63,
];

// In one data word: an enumerant that the schema doesn't name, and a member of the union whose
// pointer is null and has a default.
#[rattlefmt::skip]
const UNNAMED: &[u8] = &[
    0, 0, 0, 0, 1, 0, 0, 0,
    0, 0, 5, 0, 7, 0, 1, 0,
];

// A member of the union that the schema doesn't name.
#[rattlefmt::skip]
const OTHER_MEMBER: &[u8] = &[
    0, 0, 0, 0, 1, 0, 0, 0,
    0, 0, 0, 0, 0, 0, 9, 0,
];

// A `title` that is no list, and a `payload` past the end of the segment.
#[rattlefmt::skip]
const CORRUPT: &[u8] = &[
    0, 0, 0, 0, 1, 0, 2, 0,
    0, 0, 0, 0, 0, 0, 0, 0,
    252, 255, 255, 255, 0, 0, 0, 0,
    1, 1, 0, 0, 26, 0, 0, 0,
];

// Segments, the depth to which they are printed, and the line.
#[rattlefmt::skip]
const LINES: [(&[u8], u32, &str); 9] = [
    (FILLED, 8, r#"(balance = 12, ratio = -2.5, color = deepBlue, title = "A \"title\"\n", payload = "\001A\377", points = [(x = 1, y = -2), (x = 0, y = 3)], colors = [red, deepBlue], any = <opaque pointer>, size = (width = 80), label = "here")"#),
    (NESTED, 3, "(balance = -5, ratio = 0, color = red, size = (width = 0), inner = (balance = 1, ratio = 0, color = red, size = (width = 0), inner = (balance = -5, ratio = 0.1, color = red, size = (width = 0), nothing = void)))"),
    (UNNAMED, 1, r#"(balance = -5, ratio = 0, color = (5), size = (width = 7), label = "none")"#),
    (OTHER_MEMBER, 1, "(balance = -5, ratio = 0, color = red, size = (width = 0))"),
    (CORRUPT, 1, "(balance = -5, ratio = 0, color = red, title = <WrongPointerKind>, payload = <PointerOutOfBounds>, size = (width = 0), nothing = void)"),
    (FILLED, 2, r#"(balance = 12, ratio = -2.5, color = deepBlue, title = "A \"title\"\n", payload = "\001A\377", points = [(..), (..)], colors = [red, deepBlue], any = <opaque pointer>, size = (width = 80), label = "here")"#),
    (FILLED, 1, r#"(balance = 12, ratio = -2.5, color = deepBlue, title = "A \"title\"\n", payload = "\001A\377", points = [..], colors = [..], any = <opaque pointer>, size = (width = 80), label = "here")"#),
    (NESTED, 2, "(balance = -5, ratio = 0, color = red, size = (width = 0), inner = (balance = 1, ratio = 0, color = red, size = (width = 0), inner = (..)))"),
    (NESTED, 0, "(..)"),
];

// The struct at the root of a segment, as text.
fn shown_of(alloc: Global, segment: &[u8], depth: u32) -> Result<String, Fail> {
    let segments = [segment];
    let message = message_of(&segments);
    let root: printed::Reader<'_, SegmentArray<'_>> = message.get_root()?;
    Ok(root.to_text(alloc, depth)?)
}

#[test]
fn structs_are_printed(rt: HostRuntime) -> Result<(), Fail> {
    for (segment, depth, line) in &LINES {
        let shown = shown_of(rt.alloc(), segment, *depth)?;
        expect(&rt, "a line", shown.as_str(), *line);
    }
    Ok(())
}
