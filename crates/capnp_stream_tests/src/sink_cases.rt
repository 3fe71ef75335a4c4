//! What is written to sinks that fail, and the chunks of it.
use crate::samples::{FAR_FRAMED, FAR_PACKED};
use capnp::Way;
use capnp::streams::Format;

/// The calls that write a message's encoding, of segments and of the crate `capnp`.
#[derive(Clone, Copy)]
pub enum Writer {
    Framed,
    FramedMessage,
    Packed,
    PackedMessage,
}

/// What is written, and by which call.
#[derive(Clone, Copy)]
pub enum Written {
    /// Words, packed as one chunk.
    Words(&'static [[u8; 8]]),
    Segments(Writer, &'static [&'static [u8]]),
    /// A message that is built, of case hello-far.
    Built(Format),
    /// Three messages after one another.
    Three(Format),
    /// The same, from the other format.
    Transcoded(Way),
}

/// What is written, its encoding, and in how many chunks it is handed on, packed at least. No more than
/// 64 packed bytes are collected for a chunk, and the words of a literal run that don't fit are one by
/// themselves.
#[derive(Drop)]
pub struct Case {
    pub name: &'static str,
    pub written: Written,
    pub encoding: &'static [u8],
    pub chunks: u64,
    /// How many bytes are written before each chunk, and after the last, where that is known.
    pub ends: &'static [usize],
}

pub const NONE: Case = Case {
    name: "no word",
    written: Written::Words(&[]),
    encoding: &[],
    chunks: 0,
    ends: &[],
};

/// Segments of one and of two words.
pub const ONE_AND_TWO: &[&[u8]] = &[
    &[123, 0, 0, 0, 0, 0, 0, 0],
    &[4, 0, 0, 0, 0, 0, 0, 0, 5, 0, 0, 0, 0, 0, 0, 0],
];

/// An empty segment and one of a word.
pub const TWO: &[&[u8]] = &[&[], &[1, 2, 3, 4, 5, 6, 7, 8]];

pub const EMPTY: &[&[u8]] = &[&[]];

const TWO_FRAMED: &[u8] = &[
    1, 0, 0, 0, 0, 0, 0, 0, 1, 0, 0, 0, 0, 0, 0, 0, 1, 2, 3, 4, 5, 6, 7, 8,
];

const TWO_PACKED: &[u8] = &[1, 1, 1, 1, 0xff, 1, 2, 3, 4, 5, 6, 7, 8, 0];

// The table's first word and its rest, and each segment.
const TWO_ENDS: &[usize] = &[0, 8, 16, 16, 24];

/// The encodings of three messages after one another: of segments of one and of two words, of an
/// empty one and one of a word, and of an empty one.
pub const THREE: &[u8] = &[
    1, 0, 0, 0, 1, 0, 0, 0, 2, 0, 0, 0, 0, 0, 0, 0, 123, 0, 0, 0, 0, 0, 0, 0, 4, 0, 0, 0, 0, 0, 0,
    0, 5, 0, 0, 0, 0, 0, 0, 0, 1, 0, 0, 0, 0, 0, 0, 0, 1, 0, 0, 0, 0, 0, 0, 0, 1, 2, 3, 4, 5, 6, 7,
    8, 0, 0, 0, 0, 0, 0, 0, 0,
];

/// The packed encodings of the same messages.
pub const PACKED_THREE: &[u8] = &[
    0x11, 1, 1, 1, 2, 1, 123, 1, 4, 1, 5, 1, 1, 1, 1, 0xff, 1, 2, 3, 4, 5, 6, 7, 8, 0, 0, 0,
];

const THREE_ENDS: &[usize] = &[0, 8, 16, 24, 40, 48, 56, 56, 64, 72, 72];

#[rattlefmt::skip]
pub const MESSAGES: [Case; 15] = [
    Case {
        name: "segments of 1 and 3 words",
        written: Written::Segments(Writer::Framed, &[&[1; 8], &[2; 24]]),
        encoding: &[1, 0, 0, 0, 1, 0, 0, 0, 3, 0, 0, 0, 0, 0, 0, 0, 1, 1, 1, 1, 1, 1, 1, 1,
                2, 2, 2, 2, 2, 2, 2, 2, 2, 2, 2, 2, 2, 2, 2, 2, 2, 2, 2, 2, 2, 2, 2, 2],
        chunks: 4,
        ends: &[0, 8, 16, 24, 48],
    },
    Case {
        name: "an empty segment",
        written: Written::Segments(Writer::Framed, &[&[]]),
        encoding: &[0; 8],
        chunks: 2,
        ends: &[0, 8, 8],
    },
    Case {
        name: "packed-five",
        written: Written::Segments(Writer::Framed, &[&[0; 8], &[], &[], &[], &[]]),
        encoding: &[4, 0, 0, 0, 1, 0, 0, 0, 0, 0, 0, 0, 0, 0, 0, 0, 0, 0, 0, 0, 0, 0, 0, 0,
                0, 0, 0, 0, 0, 0, 0, 0],
        chunks: 7,
        ends: &[0, 8, 24, 32, 32, 32, 32, 32],
    },
    Case {
        name: "packed-five, packed",
        written: Written::Segments(Writer::Packed, &[&[0; 8], &[], &[], &[], &[]]),
        encoding: &[0x11, 4, 1, 0, 1, 0, 0],
        chunks: 3,
        ..NONE
    },
    Case {
        name: "three segments of zeros",
        written: Written::Segments(Writer::Packed, &[&[0; 8], &[0; 16], &[0; 8]]),
        encoding: &[0x11, 2, 1, 0x11, 2, 1, 0, 0, 0, 1, 0, 0],
        chunks: 5,
        ..NONE
    },
    Case {
        name: "two-segments",
        written: Written::Segments(Writer::Framed, TWO),
        encoding: TWO_FRAMED,
        chunks: 4,
        ends: TWO_ENDS,
    },
    Case {
        name: "two-segments, of a message",
        written: Written::Segments(Writer::FramedMessage, TWO),
        encoding: TWO_FRAMED,
        chunks: 4,
        ends: TWO_ENDS,
    },
    Case {
        name: "two-segments, packed",
        written: Written::Segments(Writer::Packed, TWO),
        encoding: TWO_PACKED,
        chunks: 3,
        ..NONE
    },
    Case {
        name: "two-segments, of a message, packed",
        written: Written::Segments(Writer::PackedMessage, TWO),
        encoding: TWO_PACKED,
        chunks: 3,
        ..NONE
    },
    Case {
        name: "a message that is built",
        written: Written::Built(Format::Framed),
        encoding: FAR_FRAMED,
        chunks: 4,
        ends: &[0, 8, 16, 24, 48],
    },
    Case {
        name: "a message that is built, packed",
        written: Written::Built(Format::Packed),
        encoding: FAR_PACKED,
        chunks: 4,
        ..NONE
    },
    Case {
        name: "three messages",
        written: Written::Three(Format::Framed),
        encoding: THREE,
        chunks: 10,
        ends: THREE_ENDS,
    },
    Case {
        name: "three messages, packed",
        written: Written::Three(Format::Packed),
        encoding: PACKED_THREE,
        chunks: 8,
        ..NONE
    },
    Case {
        name: "three messages, unpacked",
        written: Written::Transcoded(Way::Unpack),
        encoding: THREE,
        chunks: 10,
        ends: THREE_ENDS,
    },
    Case {
        name: "three messages, packed from framed ones",
        written: Written::Transcoded(Way::Pack),
        encoding: PACKED_THREE,
        chunks: 8,
        ..NONE
    },
];
