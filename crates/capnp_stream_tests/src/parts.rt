//! Chunks that are packed in several parts.
use crate::sink_cases::{Case, NONE, Written};

// Words without a zero byte.
const A: [u8; 8] = [1, 2, 3, 4, 5, 6, 7, 8];

const B: [u8; 8] = [9, 10, 11, 12, 13, 14, 15, 16];

const C: [u8; 8] = [17, 18, 19, 20, 21, 22, 23, 24];

// A word of seven in its first byte.
const SEVEN: [u8; 8] = [7, 0, 0, 0, 0, 0, 0, 0];

const ZERO: [u8; 8] = [0; 8];

#[rattlefmt::skip]
pub const WORDS: [Case; 12] = [
    Case {
        name: "a literal run of three words",
        written: Written::Words(&[A, B, C]),
        encoding: &[0xff, 1, 2, 3, 4, 5, 6, 7, 8, 2, 9, 10, 11, 12, 13, 14, 15, 16, 17, 18, 19, 20, 21, 22,
                23, 24],
        chunks: 1,
        ..NONE
    },
    Case {
        name: "two literal runs of two words, a zero word between them",
        written: Written::Words(&[A, B, ZERO, C, A]),
        encoding: &[0xff, 1, 2, 3, 4, 5, 6, 7, 8, 1, 9, 10, 11, 12, 13, 14, 15, 16, 0, 0, 0xff, 17, 18, 19,
                20, 21, 22, 23, 24, 1, 1, 2, 3, 4, 5, 6, 7, 8],
        chunks: 1,
        ..NONE
    },
    Case {
        name: "the same, and a word after them",
        written: Written::Words(&[A, B, ZERO, C, A, SEVEN]),
        encoding: &[0xff, 1, 2, 3, 4, 5, 6, 7, 8, 1, 9, 10, 11, 12, 13, 14, 15, 16, 0, 0, 0xff, 17, 18, 19,
                20, 21, 22, 23, 24, 1, 1, 2, 3, 4, 5, 6, 7, 8, 1, 7],
        chunks: 1,
        ..NONE
    },
    Case {
        name: "words before a literal run",
        written: Written::Words(&[SEVEN, ZERO, ZERO, A, B]),
        encoding: &[1, 7, 0, 1, 0xff, 1, 2, 3, 4, 5, 6, 7, 8, 1, 9, 10, 11, 12, 13, 14, 15, 16],
        chunks: 1,
        ..NONE
    },
    Case {
        name: "a literal run of seven words",
        written: Written::Words(&[A, B, C, A, B, C, A]),
        encoding: &[0xff, 1, 2, 3, 4, 5, 6, 7, 8, 6, 9, 10, 11, 12, 13, 14, 15, 16, 17, 18, 19, 20, 21, 22,
                23, 24, 1, 2, 3, 4, 5, 6, 7, 8, 9, 10, 11, 12, 13, 14, 15, 16, 17, 18, 19, 20, 21, 22,
                23, 24, 1, 2, 3, 4, 5, 6, 7, 8],
        chunks: 1,
        ..NONE
    },
    Case {
        name: "a literal run of eight words",
        written: Written::Words(&[A, B, C, A, B, C, A, B]),
        encoding: &[0xff, 1, 2, 3, 4, 5, 6, 7, 8, 7, 9, 10, 11, 12, 13, 14, 15, 16, 17, 18, 19, 20, 21, 22,
                23, 24, 1, 2, 3, 4, 5, 6, 7, 8, 9, 10, 11, 12, 13, 14, 15, 16, 17, 18, 19, 20, 21, 22,
                23, 24, 1, 2, 3, 4, 5, 6, 7, 8, 9, 10, 11, 12, 13, 14, 15, 16],
        chunks: 2,
        ..NONE
    },
    Case {
        name: "two literal runs of eight words, a zero word between them",
        written: Written::Words(&[A, B, C, A, B, C, A, B, ZERO, C, A, B, C, A, B, C, A]),
        encoding: &[0xff, 1, 2, 3, 4, 5, 6, 7, 8, 7, 9, 10, 11, 12, 13, 14, 15, 16, 17, 18, 19, 20, 21, 22,
                23, 24, 1, 2, 3, 4, 5, 6, 7, 8, 9, 10, 11, 12, 13, 14, 15, 16, 17, 18, 19, 20, 21, 22,
                23, 24, 1, 2, 3, 4, 5, 6, 7, 8, 9, 10, 11, 12, 13, 14, 15, 16, 0, 0, 0xff, 17, 18, 19,
                20, 21, 22, 23, 24, 7, 1, 2, 3, 4, 5, 6, 7, 8, 9, 10, 11, 12, 13, 14, 15, 16, 17, 18,
                19, 20, 21, 22, 23, 24, 1, 2, 3, 4, 5, 6, 7, 8, 9, 10, 11, 12, 13, 14, 15, 16, 17, 18,
                19, 20, 21, 22, 23, 24, 1, 2, 3, 4, 5, 6, 7, 8],
        chunks: 4,
        ..NONE
    },
    Case {
        name: "the two, and a word after them",
        written: Written::Words(&[A, B, C, A, B, C, A, B, ZERO, C, A, B, C, A, B, C, A, SEVEN]),
        encoding: &[0xff, 1, 2, 3, 4, 5, 6, 7, 8, 7, 9, 10, 11, 12, 13, 14, 15, 16, 17, 18, 19, 20, 21, 22,
                23, 24, 1, 2, 3, 4, 5, 6, 7, 8, 9, 10, 11, 12, 13, 14, 15, 16, 17, 18, 19, 20, 21, 22,
                23, 24, 1, 2, 3, 4, 5, 6, 7, 8, 9, 10, 11, 12, 13, 14, 15, 16, 0, 0, 0xff, 17, 18, 19,
                20, 21, 22, 23, 24, 7, 1, 2, 3, 4, 5, 6, 7, 8, 9, 10, 11, 12, 13, 14, 15, 16, 17, 18,
                19, 20, 21, 22, 23, 24, 1, 2, 3, 4, 5, 6, 7, 8, 9, 10, 11, 12, 13, 14, 15, 16, 17, 18,
                19, 20, 21, 22, 23, 24, 1, 2, 3, 4, 5, 6, 7, 8, 1, 7],
        chunks: 5,
        ..NONE
    },
    Case {
        name: "words before a literal run of seven words",
        written: Written::Words(&[SEVEN, ZERO, ZERO, A, B, C, A, B, C, A]),
        encoding: &[1, 7, 0, 1, 0xff, 1, 2, 3, 4, 5, 6, 7, 8, 6, 9, 10, 11, 12, 13, 14, 15, 16, 17, 18, 19,
                20, 21, 22, 23, 24, 1, 2, 3, 4, 5, 6, 7, 8, 9, 10, 11, 12, 13, 14, 15, 16, 17, 18, 19,
                20, 21, 22, 23, 24, 1, 2, 3, 4, 5, 6, 7, 8],
        chunks: 1,
        ..NONE
    },
    Case {
        name: "words before a literal run of eight words",
        written: Written::Words(&[SEVEN, ZERO, ZERO, A, B, C, A, B, C, A, B]),
        encoding: &[1, 7, 0, 1, 0xff, 1, 2, 3, 4, 5, 6, 7, 8, 7, 9, 10, 11, 12, 13, 14, 15, 16, 17, 18, 19,
                20, 21, 22, 23, 24, 1, 2, 3, 4, 5, 6, 7, 8, 9, 10, 11, 12, 13, 14, 15, 16, 17, 18, 19,
                20, 21, 22, 23, 24, 1, 2, 3, 4, 5, 6, 7, 8, 9, 10, 11, 12, 13, 14, 15, 16],
        chunks: 2,
        ..NONE
    },
    Case { name: "two bytes a word, of forty", written: Written::Words(&[SEVEN; 40]), encoding: &SEVENS, chunks: 2, ..NONE },
    NONE,
];

#[rattlefmt::skip]
const SEVENS: [u8; 80] = [
    1, 7, 1, 7, 1, 7, 1, 7, 1, 7, 1, 7, 1, 7, 1, 7, 1, 7, 1, 7,
    1, 7, 1, 7, 1, 7, 1, 7, 1, 7, 1, 7, 1, 7, 1, 7, 1, 7, 1, 7,
    1, 7, 1, 7, 1, 7, 1, 7, 1, 7, 1, 7, 1, 7, 1, 7, 1, 7, 1, 7,
    1, 7, 1, 7, 1, 7, 1, 7, 1, 7, 1, 7, 1, 7, 1, 7, 1, 7, 1, 7,
];
