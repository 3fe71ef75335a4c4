//! Messages with their two encodings.
use capnp::streams::Format;
use capnp_frame::Result;
use capnp_frame_tests::long_lists::{append, append_packed};

/// A message and its encodings.
#[derive(Clone, Copy)]
pub struct Sample {
    pub name: &'static str,
    pub segments: &'static [&'static [u8]],
    pub framed: &'static [u8],
    pub packed: &'static [u8],
}

/// An empty segment and one of a word.
pub const TWO_SEGMENTS: Sample = Sample {
    name: "two-segments",
    segments: &[&[], &[1, 2, 3, 4, 5, 6, 7, 8]],
    framed: &[
        1, 0, 0, 0, 0, 0, 0, 0, 1, 0, 0, 0, 0, 0, 0, 0, 1, 2, 3, 4, 5, 6, 7, 8,
    ],
    packed: &[1, 1, 1, 1, 0xff, 1, 2, 3, 4, 5, 6, 7, 8, 0],
};

/// Messages by their segments, and by the last group of their packed encodings: a literal word, words
/// with zero bytes, a run of zero words, the same in the table, and a literal run.
#[rattlefmt::skip]
pub const SAMPLES: [Sample; 7] = [
    TWO_SEGMENTS,
    Sample {
        name: "flatten",
        segments: &[&[123, 0, 0, 0, 0, 0, 0, 0], &[4, 0, 0, 0, 0, 0, 0, 0, 5, 0, 0, 0, 0, 0, 0, 0]],
        framed: &[
            1, 0, 0, 0, 1, 0, 0, 0, 2, 0, 0, 0, 0, 0, 0, 0, 123, 0, 0, 0, 0, 0, 0, 0,
            4, 0, 0, 0, 0, 0, 0, 0, 5, 0, 0, 0, 0, 0, 0, 0,
        ],
        packed: &[0x11, 1, 1, 1, 2, 1, 123, 1, 4, 1, 5],
    },
    Sample {
        name: "hello",
        segments: &[b"\x01\0\0\0\x72\0\0\0Hello, World!\0\0\0"],
        framed: b"\0\0\0\0\x03\0\0\0\x01\0\0\0\x72\0\0\0Hello, World!\0\0\0",
        packed: b"\x10\x03\x11\x01\x72\xffHello, W\0\x1forld!",
    },
    // The text "hello world!" in a second segment, after its landing pad.
    Sample {
        name: "hello-far",
        segments: &[b"\x02\0\0\0\x01\0\0\0", b"\x01\0\0\0\x6a\0\0\0hello world!\0\0\0\0"],
        framed: FAR_FRAMED,
        packed: FAR_PACKED,
    },
    Sample {
        name: "two zero words",
        segments: &[&[0; 16]],
        framed: &[0, 0, 0, 0, 2, 0, 0, 0, 0, 0, 0, 0, 0, 0, 0, 0, 0, 0, 0, 0, 0, 0, 0, 0],
        packed: &[0x10, 2, 0, 1],
    },
    Sample {
        name: "an empty segment",
        segments: &[&[]],
        framed: &[0; 8],
        packed: &[0, 0],
    },
    Sample {
        name: "a literal run",
        segments: &[&[1, 2, 3, 4, 5, 6, 7, 8, 1, 2, 3, 4, 5, 6, 7, 8]],
        framed: &[0, 0, 0, 0, 2, 0, 0, 0, 1, 2, 3, 4, 5, 6, 7, 8, 1, 2, 3, 4, 5, 6, 7, 8],
        packed: &[0x10, 2, 0xff, 1, 2, 3, 4, 5, 6, 7, 8, 1, 1, 2, 3, 4, 5, 6, 7, 8],
    },
];

pub const FAR_FRAMED: &[u8] = b"\x01\0\0\0\x01\0\0\0\x03\0\0\0\0\0\0\0\
\x02\0\0\0\x01\0\0\0\x01\0\0\0\x6a\0\0\0hello world!\0\0\0\0";

pub const FAR_PACKED: &[u8] = &[
    0x11, 1, 1, 1, 3, 0x11, 2, 1, 0x11, 1, 0x6a, 0xff, 0x68, 0x65, 0x6c, 0x6c, 0x6f, 0x20, 0x77,
    0x6f, 0, 0x0f, 0x72, 0x6c, 0x64, 0x21,
];

/// The encoding of a message in a format.
pub fn encoding_of(sample: &Sample, format: Format) -> &'static [u8] {
    match format {
        Format::Framed => sample.framed,
        Format::Packed => sample.packed,
    }
}

/// Appends a word that has a zero byte, and after which no word is zero.
pub fn append_word(stream: &mut Vec<u8>, format: Format, word: u64) -> Result<()> {
    match format {
        Format::Framed => append(stream, word),
        Format::Packed => append_packed(stream, word),
    }
}
