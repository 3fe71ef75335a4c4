//! Pointer words: made, read and moved (encoding document, "Structs", "Lists" and "Inter-Segment
//! Pointers").
ghost use Rattle.std.specs.Prelude.{◌≡◌, ◌<◌, ◌^◌, ℕ, [], ◌∷◌, length, MatchOption};
ghost use Rattle.capnp_frame.specs.Prelude.{bytes_of};
ghost use Rattle.capnp_layout.specs.Pointer.{number_of, pointer_kind, words_of};
ghost use Rattle.capnp_layout.specs.Block.{put};
ghost use Rattle.capnp_layout.specs.PointerWord.{IsLocalShape};
ghost use Rattle.capnp_layout.specs.Tree.{Form};
ghost use Rattle.capnp_layout.specs.Layout.{far_pointer, link, list_pointer, pointer, struct_pointer, HasRoom};

use crate::block;
use crate::pointer::PointerWord;
pub use crate::pointer::{LocalShape, StructSize};
use capnp_frame::{Word, word};

/// The code of a list of bytes.
pub const BYTE_LIST: u64 = 2;

/// The code of a list of pointers.
pub const POINTER_LIST: u64 = 6;

/// The code of a composite list, of structs.
pub const STRUCT_LIST: u64 = 7;

/// The pointer to a struct that begins this many words after it, or the tag of a list of that many
/// structs. An offset of 2^30 - 1 is read as -1, the offset of a struct of no words.
#[inline(always)]
pub fn struct_word(offset: u64, data_words: u16, pointers: u16) -> u64
    requires { offset < 2 ^ 30 }
    ensures { result ≡ struct_pointer offset data_words pointers }
{
    4 * offset + (1 << 32) * data_words as u64 + (1 << 48) * pointers as u64
}

/// The pointer to a list that begins this many words after it, with the code and the number of its
/// elements; for a list of structs, with the number of their words.
#[inline(always)]
pub fn list_word(offset: u64, code: u64, count: u64) -> u64
    requires offset { offset < 2 ^ 30 }
    requires code { code < 8 }
    requires count { count < 2 ^ 29 }
    ensures { result ≡ list_pointer offset code count }
{
    1 + 4 * offset + (1 << 32) * code + (1 << 35) * count
}

/// The far pointer to a landing pad of one word, which is at this position of the segment, in
/// words.
pub fn far_word(segment: u32, position: u32) -> u64
    requires { position < 2 ^ 29 }
    ensures { result ≡ far_pointer segment position }
{
    2 + 8 * position as u64 + segment as u64 * (1 << 32)
}

/// What a struct or list pointer points to; `None` for a far pointer and a capability. Null reads
/// as a struct of no words.
pub fn local_shape(word: u64) -> Option<LocalShape>
    ensures { MatchOption result (1 < pointer_kind word) (λ shape. IsLocalShape word shape) }
{
    match PointerWord::read(word) {
        PointerWord::Local(local) => Some(local.shape),
        _ => None,
    }
}

/// The pointer in a tag word, with its offset made larger by this many words. Null and the pointer
/// to a struct of no words, whose offset is -1, stay the same.
pub fn moved(tag: u64, offset: u32) -> u64
    requires local { offset < 2 ^ 29 }
    requires pointer { (form : Form) × (n : ℕ) × HasRoom form n × (tag ≡ pointer form n 0) }
    ensures { (form : Form) (n : ℕ) → HasRoom form n → tag ≡ pointer form n 0 →
        result ≡ pointer form n offset }
{
    if tag == 0 || tag == 4 * ((1 << 30) - 1) {
        return tag;
    }
    tag + 4 * offset as u64
}

/// The pointer at the word `place` of a segment to an object. `word` is that pointer too, but has
/// the index of the word at which the object begins, in place of the offset.
#[inline(always)]
pub fn link(word: u64, place: u32) -> u64
    requires { place < 2 ^ 29 }
    ensures { result ≡ link word place }
{
    let low = word % (1 << 32);
    let high = word / (1 << 32);
    if word % 4 == 0 && word < 1 << 32 {
        return word;
    }
    high * (1 << 32) + (low + (1 << 32) - 4 * (place as u64 + 1)) % (1 << 32)
}

/// Replaces a word of a block of words.
#[inline(always)]
pub fn put_word(block: &mut [u8], at: usize, word: u64)
    requires { at < length (words_of block.old) }
    ensures words { words_of block.new ≡ put at (word ∷ []) (words_of block.old) }
    ensures len { length block.new ≡ length block.old }
{
    block::put_word(block, at, word);
}

/// The word whose bytes are this number, little endian.
pub fn word_of(number: u64) -> Word
    ensures { number_of 256 (bytes_of result) ≡ number }
{
    let bytes = number.to_le_bytes();
    word(
        bytes[0], bytes[1], bytes[2], bytes[3], bytes[4], bytes[5], bytes[6], bytes[7],
    )
}
