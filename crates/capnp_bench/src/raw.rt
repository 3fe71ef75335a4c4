//! Messages as words, made without the library (encoding document, "Structs", "Lists").

ghost use Rattle.std.specs.Prelude.{◌≡◌, ◌+◌, ◌/◌};

use crate::random::Random;
use capnp::Result;

/// The pointer to a struct that begins some words after it.
pub fn struct_pointer(offset: u64, data_words: u64, pointers: u64) -> u64 {
    offset << 2 | data_words << 32 | pointers << 48
}

/// The pointer to a list of elements with this size code, that begins some words after it.
pub fn list_pointer(offset: u64, code: u64, count: u64) -> u64 {
    1 | offset << 2 | code << 32 | count << 35
}

/// The pointer to a landing pad of one word, or of two.
pub fn far_pointer(segment: u64, word: u64, wide: bool) -> u64 {
    2 | u64::from(wide) << 2 | word << 3 | segment << 32
}

/// Adds a word.
pub fn push_word(words: &mut Vec<u8>, word: u64) -> Result<()> {
    words.extend_from_slice(&word.to_le_bytes())?;
    Ok(())
}

/// Adds the words of a text of this many bytes, with the zero byte that ends it.
pub fn push_text(words: &mut Vec<u8>, random: &mut Random, length: u64) -> Result<()> {
    let full = length / 8;
    for _ in 0..full {
        push_word(words, letters(random))?;
    }
    let rest = length % 8;
    push_word(
        words,
        letters(random) & (1_u64 << (8 * rest)).wrapping_sub(1),
    )
}

/// Eight small letters.
fn letters(random: &mut Random) -> u64 {
    0x6161_6161_6161_6161_u64.wrapping_add(random.next() & 0x0f0f_0f0f_0f0f_0f0f)
}

/// How many words a text of this many bytes takes.
pub fn text_words(length: u64) -> u64
    ensures { result ≡ length / 8 + 1 }
{
    length / 8 + 1
}

/// Adds the words of a record: a struct of three numbers, two texts and, one time in four, a list
/// of numbers. They are the only segment of a message.
pub fn push_record(words: &mut Vec<u8>, random: &mut Random) -> Result<()> {
    let name = 3 + random.below(14);
    let note = 5 + random.below(40);
    let numbers = if random.below(4) == 0 {
        2 + 2 * random.below(8)
    } else {
        0
    };
    push_word(words, struct_pointer(0, 3, 3))?;
    push_word(words, random.below(100_000))?;
    push_word(words, 1_700_000_000 + random.below(10_000_000))?;
    push_word(words, random.below(3) << 16 | random.below(200))?;
    push_word(words, list_pointer(2, 2, name + 1))?;
    push_word(words, list_pointer(1 + text_words(name), 2, note + 1))?;
    if numbers == 0 {
        push_word(words, 0)?;
    } else {
        push_word(
            words,
            list_pointer(text_words(name) + text_words(note), 4, numbers),
        )?;
    }
    push_text(words, random, name)?;
    push_text(words, random, note)?;
    for _ in 0..numbers / 2 {
        push_word(words, random.below(60_000) | random.below(60_000) << 32)?;
    }
    Ok(())
}

/// Adds the table of a message of one segment, and the segment.
pub fn push_framed(stream: &mut Vec<u8>, segment: &[u8]) -> Result<()> {
    push_word(stream, (segment.len() as u64 / 8) << 32)?;
    stream.extend_from_slice(segment)?;
    Ok(())
}

/// Adds the words of a list of this many structs, a tree of as many nodes and a list of as many
/// lists: the only segment of a message.
pub fn push_large(words: &mut Vec<u8>, random: &mut Random, elements: u64) -> Result<()> {
    let table = elements.wrapping_mul(10).wrapping_add(1);
    let tree = elements.wrapping_mul(3);
    push_word(words, struct_pointer(0, 0, 3))?;
    push_word(words, list_pointer(2, 7, elements.wrapping_mul(4)))?;
    push_word(words, struct_pointer(table.wrapping_add(1), 1, 2))?;
    push_word(words, list_pointer(table.wrapping_add(tree), 6, elements))?;
    push_word(words, struct_pointer(elements, 2, 2))?;
    push_structs(words, random, elements)?;
    push_tree(words, random, elements)?;
    push_lists(words, random, elements)
}

/// Adds the elements of a table, structs of two numbers, a text and a list, and then what each
/// points to: three words of text and three of numbers.
fn push_structs(words: &mut Vec<u8>, random: &mut Random, elements: u64) -> Result<()> {
    for element in 0..elements {
        let after = (elements - element)
            .wrapping_mul(4)
            .wrapping_add(element.wrapping_mul(6));
        push_word(words, element)?;
        push_word(words, random.below(1_000_000))?;
        push_word(
            words,
            list_pointer(after.wrapping_sub(3), 2, 17 + element % 8),
        )?;
        push_word(words, list_pointer(after.wrapping_sub(1), 4, 6))?;
    }
    for element in 0..elements {
        push_text(words, random, 16 + element % 8)?;
        push_word(words, random.next() & 0x0000_ffff_0000_ffff)?;
        push_word(words, random.next() & 0x0000_00ff_0000_00ff)?;
        push_word(words, random.next() & 0x0000_000f_0000_ffff)?;
    }
    Ok(())
}

/// Adds the nodes of a tree, layer by layer: structs of a number and two pointers.
fn push_tree(words: &mut Vec<u8>, random: &mut Random, nodes: u64) -> Result<()> {
    for node in 0..nodes {
        let left = node.wrapping_mul(2).wrapping_add(1);
        let ahead = left.wrapping_sub(node).wrapping_mul(3).wrapping_sub(2);
        let right = left.wrapping_add(1);
        push_word(words, random.below(1000))?;
        push_word(
            words,
            if left < nodes {
                struct_pointer(ahead, 1, 2)
            } else {
                0
            },
        )?;
        let after = ahead.wrapping_add(2);
        push_word(
            words,
            if right < nodes {
                struct_pointer(after, 1, 2)
            } else {
                0
            },
        )?;
    }
    Ok(())
}

/// Adds pointers to lists of two words each, and the lists.
fn push_lists(words: &mut Vec<u8>, random: &mut Random, lists: u64) -> Result<()> {
    for list in 0..lists {
        let after = (lists - list)
            .wrapping_sub(1)
            .wrapping_add(list.wrapping_mul(2));
        push_word(words, list_pointer(after, 5, 2))?;
    }
    for _ in 0..lists {
        push_word(words, random.next())?;
        push_word(words, random.below(50))?;
    }
    Ok(())
}
