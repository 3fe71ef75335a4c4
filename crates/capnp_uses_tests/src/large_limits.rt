//! Traversal limits of many words: what views and sizes count of them.
use crate::fixtures::{Message, Source, expect, limited, message_of};
use capnp::any_struct::StructReader;
use capnp::message::SegmentArray;
use capnp::{Result, canonical_size, text};
use capnp_frame_tests::errors::{error_of, numbered};

// What is viewed as a text, though it is none.
fn as_text(reader: &Message<'_>) -> u8 {
    let view: Result<text::Reader<'_>> = reader.get_root();
    error_of(view)
}

// Limits, and the errors of three views as a text, one after the other.
const VIEWS: [(Option<usize>, [u8; 3]); 5] = [
    (Some(65_535), [20, 20, 20]),
    (Some(65_536), [22, 20, 20]),
    (Some(131_071), [22, 20, 20]),
    (Some(131_072), [22, 22, 20]),
    (None, [22, 22, 22]),
];

// 65,536 elements of no size are counted against the traversal limit one word each: a view of the
// wrong kind counts them, and then there are none left.
#[test]
fn as_many_elements_as_the_limit(rt: HostRuntime) {
    let segments: [&[u8]; 1] = [b"\x01\0\0\0\0\0\x08\0"];
    for (limit, views) in &VIEWS {
        let reader = message_of(&segments, limited(*limit));
        let found = [as_text(&reader), as_text(&reader), as_text(&reader)];
        expect(&rt, *limit, found, *views);
    }
}

// Pointers in the order in which they are viewed as texts, and the errors.
#[rattlefmt::skip]
const POINTERS: [(u16, u8); 12] = [
    (0, 22), (0, 22), (0, 22), (0, 22), (0, 22), (0, 22), (0, 22), (0, 22), (0, 20),
    (1, 20), (2, 22), (2, 20),
];

// A struct of three pointers: to 536,870,911 elements of no size, to 6 and to 5. The struct's three
// words, eight times the first list, and once the last are just 2^32.
#[test]
fn a_limit_past_four_bytes(rt: HostRuntime) -> Result<()> {
    let segments: [&[u8]; 1] = [
        b"\0\0\0\0\0\0\x03\0\x09\0\0\0\xf8\xff\xff\xff\x05\0\0\0\x30\0\0\0\x01\0\0\0\x28\0\0\0",
    ];
    let reader = message_of(&segments, limited(Some(1 << 32)));
    let fields: StructReader<'_, SegmentArray<'_>> = reader.get_root()?;
    for (pointer, wanted) in &POINTERS {
        let view: Result<text::Reader<'_>> = fields.get_pointer(*pointer).get_as();
        expect(&rt, *pointer, error_of(view), *wanted);
    }
    assert!(rt; reader.is_canonical()?);
    Ok(())
}

// Segments, a limit, and the words of the canonical form or the error's number. A landing pad is
// counted against the traversal limit, as are all words of a list of structs.
#[rattlefmt::skip]
const SIZES: [(&[&[u8]], Option<usize>, std::result::Result<u32, u8>); 12] = [
    (&[b"\x01\0\0\0\x72\0\0\0Hello, World!\0\0\0"], Some(2), Ok(3)),
    (&[b"\x01\0\0\0\x72\0\0\0Hello, World!\0\0\0"], Some(1), Err(20)),
    (&[b"\0\0\0\0\0\0\0\0"], Some(0), Ok(1)),
    (&[b"\x02\0\0\0\x01\0\0\0", b"\x01\0\0\0\x6a\0\0\0hello world!\0\0\0\0"], Some(3), Ok(3)),
    (&[b"\x02\0\0\0\x01\0\0\0", b"\x01\0\0\0\x6a\0\0\0hello world!\0\0\0\0"], Some(2), Err(20)),
    (&[b"\x01\0\0\0\0\0\x08\0"], Some(65_536), Ok(1)),
    (&[b"\x01\0\0\0\0\0\x08\0"], Some(65_535), Err(20)),
    (&[b"\x01\0\0\0\x17\0\0\0\x04\0\0\0\x01\0\0\0\0\0\0\0\0\0\0\0\0\0\0\0\0\0\0\0"], Some(2), Err(20)),
    (&[b"\x01\0\0\0\xf8\xff\xff\xff"], Some(536_870_911), Ok(1)),
    (&[b"\x01\0\0\0\xf8\xff\xff\xff"], Some(536_870_910), Err(20)),
    (&[b"\0\0\0\0\0\0\x02\0\x04\0\0\0\x01\0\0\0\0\0\0\0\x01\0\0\0\x09\0\0\0\0\0\0\0"], Some(4), Ok(5)),
    (&[b"\0\0\0\0\0\0\x02\0\x04\0\0\0\x01\0\0\0\0\0\0\0\x01\0\0\0\x09\0\0\0\0\0\0\0"], Some(3), Err(20)),
];

fn form_size(reader: &Message<'_>) -> Result<std::result::Result<u32, u8>> {
    let root: Source<'_> = reader.get_root()?;
    Ok(numbered(canonical_size(&root)))
}

// Each size is computed three times: it is counted from none, and counts nothing against the
// traversal limit.
#[test]
fn sizes_of_canonical_forms(rt: HostRuntime) -> Result<()> {
    for (segments, limit, wanted) in &SIZES {
        let reader = message_of(segments, limited(*limit));
        for _ in 0..3u32 {
            expect(&rt, (*segments, *limit), form_size(&reader)?, *wanted);
        }
    }
    Ok(())
}
