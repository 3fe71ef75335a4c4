//! Cases of chunks that are packed by themselves, for what no contract says: in how many chunks an
//! encoding is handed on, and what a source is asked for. Encodings are in `conformance/packing.txt`.

/// Chunks, and their packed encodings after one another.
#[derive(Drop)]
pub struct Packed {
    pub name: &'static str,
    pub chunks: &'static [&'static [u8]],
    pub encoding: &'static [u8],
    /// In how many chunks the encoding is handed to the sink, where that is known.
    pub handed: Option<u64>,
    /// Whether this packer writes the encoding.
    pub is_written: bool,
}

const NONE: Packed = Packed {
    name: "no chunk",
    chunks: &[],
    encoding: &[],
    handed: None,
    is_written: true,
};

#[rattlefmt::skip]
pub const PACKED: [Packed; 10] = [
    NONE,
    Packed { name: "packer, no word", chunks: &[&[]], handed: Some(0), ..NONE },
    // The packer hands on what it collected at the end of a chunk: few bytes in one call.
    Packed {
        name: "packer, 258 zero words",
        chunks: &[&[0; 2064]],
        encoding: &[0, 255, 0, 1],
        handed: Some(1),
        ..NONE
    },
    Packed {
        name: "literal-runs, one word",
        chunks: &[&[1, 3, 2, 4, 5, 7, 6, 8]],
        encoding: &[0xff, 1, 3, 2, 4, 5, 7, 6, 8, 0],
        handed: Some(1),
        ..NONE
    },
    // A literal run that fits is collected with what is about it.
    Packed {
        name: "literal-runs, two words and a zero word",
        chunks: &[&[1, 2, 3, 4, 5, 6, 7, 8, 8, 7, 6, 5, 4, 3, 2, 1, 0, 0, 0, 0, 0, 0, 0, 0]],
        encoding: &[0xff, 1, 2, 3, 4, 5, 6, 7, 8, 1, 8, 7, 6, 5, 4, 3, 2, 1, 0, 0],
        handed: Some(1),
        ..NONE
    },
    // One that doesn't fit is handed on by itself.
    Packed {
        name: "literal-runs, eight words and a zero word",
        chunks: &[&[1, 2, 3, 4, 5, 6, 7, 8, 9, 10, 11, 12, 13, 14, 15, 16, 17, 18, 19, 20, 21,
                    22, 23, 24, 1, 2, 3, 4, 5, 6, 7, 8, 9, 10, 11, 12, 13, 14, 15, 16, 17, 18,
                    19, 20, 21, 22, 23, 24, 1, 2, 3, 4, 5, 6, 7, 8, 9, 10, 11, 12, 13, 14, 15,
                    16, 0, 0, 0, 0, 0, 0, 0, 0]],
        encoding: &[0xff, 1, 2, 3, 4, 5, 6, 7, 8, 7, 9, 10, 11, 12, 13, 14, 15, 16, 17, 18, 19,
                20, 21, 22, 23, 24, 1, 2, 3, 4, 5, 6, 7, 8, 9, 10, 11, 12, 13, 14, 15, 16,
                17, 18, 19, 20, 21, 22, 23, 24, 1, 2, 3, 4, 5, 6, 7, 8, 9, 10, 11, 12, 13,
                14, 15, 16, 0, 0],
        handed: Some(3),
        ..NONE
    },
    Packed {
        name: "three chunks of zeros, one of no word",
        chunks: &[&[0; 16], &[], &[0; 2064]],
        encoding: &[0, 1, 0, 255, 0, 1],
        ..NONE
    },
    // A literal run ends before a word with two zero bytes: three words of 27 bytes.
    Packed {
        name: "a literal run before two zero bytes",
        chunks: &[&[1, 2, 3, 4, 5, 6, 7, 8, 1, 2, 3, 4, 5, 6, 0, 0, 1, 2, 3, 4, 5, 6, 7, 8]],
        encoding: &[0xff, 1, 2, 3, 4, 5, 6, 7, 8, 0, 0x3f, 1, 2, 3, 4, 5, 6,
                0xff, 1, 2, 3, 4, 5, 6, 7, 8, 0],
        handed: Some(1),
        ..NONE
    },
    // Encodings that this packer does not write, or that go on after a cut.
    Packed { name: "marked-zero", chunks: &[&[0; 8]], encoding: &[1, 0], is_written: false, ..NONE },
    Packed {
        name: "literal-cut",
        chunks: &[&[1, 2, 3, 4, 5, 6, 7, 8, 9, 10, 11, 12, 13, 14, 15, 16]],
        encoding: &[0xff, 1, 2, 3, 4, 5, 6, 7, 8, 1, 9, 10, 11, 12, 13, 14, 15, 16],
        is_written: false,
        ..NONE
    },
];
