//! A view that takes several kinds of objects, read from hand-computed bytes.
use crate::fixtures::{expect, message_of};
use capnp::ErrorKind;
use capnp::message::DEFAULT_READER_OPTIONS;
use capnp_uses::any_numbers;

// Lists of two numbers, of 1, 2, 4 and 8 bytes, and of two bits.
#[rattlefmt::skip]
const LISTS: [(&[u8], (u64, u64)); 5] = [
    (b"\x01\0\0\0\x12\0\0\0\x05\xfa\0\0\0\0\0\0", (5, 0xfa)),
    (b"\x01\0\0\0\x13\0\0\0\x05\0\x01\x02\0\0\0\0", (5, 0x0201)),
    (b"\x01\0\0\0\x14\0\0\0\x05\0\0\0\x01\0\0\x80", (5, 0x8000_0001)),
    (b"\x01\0\0\0\x15\0\0\0\x05\0\0\0\0\0\0\0\x01\0\0\0\0\0\0\x80", (5, 0x8000_0000_0000_0001)),
    (b"\x01\0\0\0\x11\0\0\0\x02\0\0\0\0\0\0\0", (0, 1)),
];

// How many numbers there are, and the first two of them, where there are two.
fn numbers_of(segment: &[u8]) -> Result<(u32, Option<(u64, u64)>), ErrorKind> {
    let segments = [segment];
    let message = message_of(&segments, DEFAULT_READER_OPTIONS);
    match message.get_root::<any_numbers::Reader<'_>>() {
        Ok(numbers) => {
            if numbers.len() != 2 {
                return Ok((numbers.len(), None));
            }
            Ok((2, Some((numbers.get(0), numbers.get(1)))))
        }
        Err(error) => Err(error.kind),
    }
}

#[test]
fn numbers_of_each_width_are_read(rt: HostRuntime) {
    for (segment, wanted) in &LISTS {
        expect(&rt, *segment, numbers_of(segment), Ok((2, Some(*wanted))));
    }
    expect(&rt, "null", numbers_of(b"\0\0\0\0\0\0\0\0"), Ok((0, None)));
}
