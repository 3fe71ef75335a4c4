//! Segments of long lists, each element told from the others by its index, and the packed encoding
//! of a word: by the encoding document, "Lists" and "Packing".
use capnp_frame::Result;
use std::alloc::Global;

/// More elements than seventy thousand.
pub const MANY: u32 = 70_005;

/// Where the texts of a list are: after it, as in canonical form, or before it, as where a message
/// is built from the bottom up.
#[derive(Clone, Copy, Debug)]
pub enum Texts {
    After,
    Before,
}

// The codes of lists of pointers and of structs, and of a list of bytes.
const POINTERS: u64 = 6;

const STRUCTS: u64 = 7;

const BYTES: u64 = 2;

// A struct of a data word and a pointer, above what says where it is or how many there are.
const DATA_AND_POINTER: u64 = 1 << 32 | 1 << 48;

// The number of an element: its index, and the index again four bytes on.
fn number(index: u32) -> u64 {
    let index = index as u64;
    index | index << 32
}

// Whether a bit of a list is set: one in three is.
fn is_set(index: u32) -> bool {
    index % 3 == 0
}

// The text of an element: seven digits of its index, with zeros in front.
fn digits(index: u32) -> [u8; 7] {
    [
        digit(index / 1_000_000),
        digit(index / 100_000),
        digit(index / 10_000),
        digit(index / 1000),
        digit(index / 100),
        digit(index / 10),
        digit(index),
    ]
}

fn digit(number: u32) -> u8 {
    b'0' + (number % 10) as u8
}

/// Appends a word, the lowest byte first.
pub fn append(bytes: &mut Vec<u8>, word: u64) -> Result<()> {
    bytes.extend_from_slice(&word.to_le_bytes())?;
    Ok(())
}

/// Appends the packed encoding of a word that has a zero byte, and after which no word is zero. It
/// is the tag and the bytes that aren't zero, and where there are none the count of further zero
/// words.
pub fn append_packed(encoding: &mut Vec<u8>, word: u64) -> Result<()> {
    let bytes = word.to_le_bytes();
    let mut tag = 0u8;
    let mut bit = 1u8;
    for byte in &bytes {
        if *byte != 0 {
            tag |= bit;
        }
        bit = bit.wrapping_mul(2);
    }
    encoding.push(tag)?;
    for byte in &bytes {
        if *byte != 0 {
            encoding.push(*byte)?;
        }
    }
    if tag == 0 {
        encoding.push(0)?;
    }
    Ok(())
}

// A pointer to a list: how many words are between them, or 2^64 less as many as it points back, the
// code of the elements, and how many elements, or words of structs, there are.
fn list_pointer(between: u64, code: u64, count: u64) -> u64 {
    let low = between.wrapping_mul(4) % (1 << 32) | 1;
    low | (code | count.wrapping_mul(8)).wrapping_mul(1 << 32)
}

// Zeros up to a whole word.
fn fill_word(bytes: &mut Vec<u8>) -> Result<()> {
    for _ in 0..7 {
        if bytes.len() % 8 != 0 {
            bytes.push(0)?;
        }
    }
    Ok(())
}

/// A list of numbers of one, two, four or eight bytes: the low bytes of `number`.
pub fn list_of_numbers(alloc: Global, width: usize, count: u32) -> Result<Vec<u8>> {
    let code = match width {
        1 => BYTES,
        2 => 3,
        4 => 4,
        _ => 5,
    };
    let mut segment: Vec<u8> = Vec::new(alloc);
    append(&mut segment, list_pointer(0, code, count as u64))?;
    for index in 0..count {
        let bytes = number(index).to_le_bytes();
        segment.extend_from_slice(&bytes[..width.min(8)])?;
    }
    fill_word(&mut segment)?;
    Ok(segment)
}

/// A list of bits, in each byte from the lowest on.
pub fn list_of_bits(alloc: Global, count: u32) -> Result<Vec<u8>> {
    let mut segment: Vec<u8> = Vec::new(alloc);
    append(&mut segment, list_pointer(0, 1, count as u64))?;
    let mut byte = 0u8;
    let mut bit = 1u8;
    for index in 0..count {
        if is_set(index) {
            byte |= bit;
        }
        bit = bit.wrapping_mul(2);
        if bit == 0 {
            segment.push(byte)?;
            byte = 0;
            bit = 1;
        }
    }
    segment.push(byte)?;
    fill_word(&mut segment)?;
    Ok(segment)
}

/// A list of nothing.
pub fn list_of_nothings(alloc: Global, count: u32) -> Result<Vec<u8>> {
    let mut segment: Vec<u8> = Vec::new(alloc);
    append(&mut segment, list_pointer(0, 0, count as u64))?;
    Ok(segment)
}

// The texts of all elements, each a word.
fn append_texts(segment: &mut Vec<u8>, count: u32) -> Result<()> {
    for index in 0..count {
        segment.extend_from_slice(&digits(index))?;
        segment.push(0)?;
    }
    Ok(())
}

// A pointer to a text of seven digits and a zero byte.
fn text_pointer(between: u64) -> u64 {
    list_pointer(between, BYTES, 8)
}

fn append_text_pointers(segment: &mut Vec<u8>, between: u64, count: u32) -> Result<()> {
    for _ in 0..count {
        append(segment, text_pointer(between))?;
    }
    Ok(())
}

/// A list of texts.
///
/// After a list of n, text i begins at word 1 + n + i, and its pointer is word 1 + i. Before the
/// list the two places are the other way round.
pub fn list_of_texts(alloc: Global, place: Texts, count: u32) -> Result<Vec<u8>> {
    let all = count as u64;
    let mut segment: Vec<u8> = Vec::new(alloc);
    match place {
        Texts::After => {
            append(&mut segment, list_pointer(0, POINTERS, all))?;
            append_text_pointers(&mut segment, all.wrapping_sub(1), count)?;
            append_texts(&mut segment, count)?;
        }
        Texts::Before => {
            append(&mut segment, list_pointer(all, POINTERS, all))?;
            append_texts(&mut segment, count)?;
            append_text_pointers(&mut segment, 0u64.wrapping_sub(all + 1), count)?;
        }
    }
    Ok(segment)
}

/// A list of structs, each of its number and its text.
///
/// After a list of n, text i begins at word 2 + 2n + i, and its pointer is word 3 + 2i. Before the
/// list it begins at word 1 + i, and its pointer is word 3 + n + 2i.
pub fn list_of_structs(alloc: Global, place: Texts, count: u32) -> Result<Vec<u8>> {
    let all = count as u64;
    let mut segment: Vec<u8> = Vec::new(alloc);
    match place {
        Texts::After => {
            append(&mut segment, list_pointer(0, STRUCTS, 2 * all))?;
            append_structs(&mut segment, place, count)?;
            append_texts(&mut segment, count)?;
        }
        Texts::Before => {
            append(&mut segment, list_pointer(all, STRUCTS, 2 * all))?;
            append_texts(&mut segment, count)?;
            append_structs(&mut segment, place, count)?;
        }
    }
    Ok(segment)
}

// The tag, which says how many structs there are, and the structs.
fn append_structs(segment: &mut Vec<u8>, place: Texts, count: u32) -> Result<()> {
    let all = count as u64;
    append(segment, 4 * all | DATA_AND_POINTER)?;
    for index in 0..count {
        let passed = index as u64;
        let between = match place {
            Texts::After => (2 * all).wrapping_sub(passed + 2),
            Texts::Before => 0u64.wrapping_sub(all + 3 + passed),
        };
        append(segment, number(index))?;
        append(segment, text_pointer(between))?;
    }
    Ok(())
}
