//! Lists of the types that the compiler makes, element by element.
use crate::calls::schema_types::samples::FILLED;
use crate::calls::schema_types::shown::{coordinates, message_of, sample_of};
use crate::fixtures::expect;
use crate::sample_capnp::{palette, point};
use capnp::message::{Reader, ReaderSegments};
use capnp_frame::Result;
use capnp_wire::any_struct::StructReader;
use capnp_wire::constant::OrDefault;
use capnp_wire::upgraded::{FromStruct, Structs};
use std::process::Abort;

// (colors = [green, deepBlue, red], names = ["leaf"]), with 7 as the number of the second color
#[rattlefmt::skip]
const LEAF: &[u8] = &[
    0, 0, 0, 0, 0, 0, 2, 0,
    5, 0, 0, 0, 27, 0, 0, 0,
    5, 0, 0, 0, 14, 0, 0, 0,
    1, 0, 7, 0, 0, 0, 0, 0,
    1, 0, 0, 0, 42, 0, 0, 0,
    108, 101, 97, 102, 0, 0, 0, 0,
];

// ()
#[rattlefmt::skip]
const PLAIN: &[u8] = &[
    0, 0, 0, 0, 0, 0, 2, 0,
    0, 0, 0, 0, 0, 0, 0, 0,
    0, 0, 0, 0, 0, 0, 0, 0,
];

// The sums of the coordinates of points.
fn sums<S: ReaderSegments>(points: &point::ListReader<'_, S>) -> (i32, i32) {
    let mut sums = (0i32, 0i32);
    for point in points.iter() {
        let (x, y) = coordinates(&point);
        sums = (sums.0.wrapping_add(x), sums.1.wrapping_add(y));
    }
    sums
}

// The index of the last element of a list of structs, whatever their type.
fn last_index<'a, S: ReaderSegments, T: FromStruct<StructReader<'a, S>> + Drop>(
    list: Structs<'a, S, T>,
) -> Option<usize> {
    let mut last: Option<usize> = None;
    for (index, _) in list.into_iter().enumerate() {
        last = Some(index);
    }
    last
}

#[test]
fn points_come_one_by_one(rt: HostRuntime) -> Result<()> {
    let segments = [FILLED];
    let message = message_of(&segments);
    let points = sample_of(&message)?.get_points()?;
    expect(&rt, "sums", sums(&points), (4, -2));
    expect(&rt, "the last index", last_index(points), Some(1));
    Ok(())
}

fn palette_of<'a, S: ReaderSegments>(message: &'a Reader<S>) -> Result<palette::Reader<'a, S>> {
    message.get_root()
}

// The first name, of the default where the message has no names; empty where there is none.
fn first_name<'a, S: ReaderSegments>(read: &palette::Reader<'a, S>) -> Result<&'a [u8]> {
    let first = match read.get_names() {
        OrDefault::Stored(names) => names?.try_get(0),
        OrDefault::Default(names) => names?.try_get(0),
    };
    match first {
        Some(name) => Ok(name?.as_bytes()),
        None => Ok(b""),
    }
}

fn expect_first_name(rt: &impl Abort, words: &[u8], wanted: &[u8]) -> Result<()> {
    let segments = [words];
    let message = message_of(&segments);
    let found = first_name(&palette_of(&message)?)?;
    expect(rt, "the first name", found, wanted);
    Ok(())
}

#[test]
fn names_are_stored_or_the_default(rt: HostRuntime) -> Result<()> {
    expect_first_name(&rt, LEAF, b"leaf")?;
    expect_first_name(&rt, PLAIN, b"none")
}
