//! The data sections and the pointer sections of structs.
ghost use Rattle.std.specs.Prelude.{◌≡◌, ◌↔◌, ◌+◌, ◌*◌, ◌<◌, ◌≤◌, ◌^◌, ◌==◌, if◌then◌else◌, All, IsTrue, length, take};
ghost use Rattle.capnp_layout.specs.Prelude.{words_of, cut_zeros, struct_pointer, minus_one, put};
ghost use Rattle.capnp_wire.specs.Prelude.{IsFreeFrom};
ghost use Rattle.capnp_values.specs.Fields.{AreFieldsWritten};
ghost use Rattle.capnp_values.specs.Structs.{kept_words};
ghost use Rattle.capnp_values.specs.StructListPlaces.{ElementPlace};

use crate::element::Element;
use crate::fields::Fields;
use capnp_layout::body_word::struct_pointer_word;
use capnp_layout::pointer::StructSize;

/// Whether a struct pointer can declare this many data words and this many pointers.
pub(crate) fn fits(words: &[u64], fields: u32) -> bool
    ensures { IsTrue result ↔ ((length words.now < 2 ^ 16) × (fields < 2 ^ 16)) }
{
    words.len() < 1 << 16 && fields < 1 << 16
}

/// Each word is below 2^64.
///
/// ```
/// let words = [7, 256];
/// let mut block = [0; 16];
/// words_fit(&words);
/// put_words(&words, &mut block);
/// assert_eq!(rt; block, [7, 0, 0, 0, 0, 0, 0, 0, 0, 1, 0, 0, 0, 0, 0, 0]);
/// ```
pub fn words_fit(words: &[u64])
    ensures { All (λ word. word < 2 ^ 64) words.now }
{}

/// The number of these words without the zero words at their end.
pub(crate) fn used(words: &[u64]) -> usize
    ensures { result ≡ length (cut_zeros words.now) }
{
    let mut left = words.len();
    'words: while left > 0 {
        if words[left - 1] != 0 {
            return left;
        }
        left -= 1;
    }
    0
}

/// How many of these data words are kept, untrimmed or in canonical form.
pub(crate) fn kept_data(words: &[u64], canonical: bool) -> usize
    ensures value { result ≡ length (kept_words canonical words.now) }
    ensures bound { result ≤ length words.now }
{
    if canonical { used(words) } else { words.len() }
}

/// Puts words into a block of exactly these words.
///
/// ```
/// let mut block = [0; 16];
/// put_words(&[1, 256], &mut block);
/// assert_eq!(rt; block, [1, 0, 0, 0, 0, 0, 0, 0, 0, 1, 0, 0, 0, 0, 0, 0]);
/// ```
pub fn put_words(words: &[u64], block: &mut [u8])
    requires { length block.old ≡ 8 * length words.now }
    ensures { words_of block.new ≡ words.now }
{
    for index in 0..words.len() {
        let at = 8 * index;
        block[at..at + 8].copy_from_slice(&words[index].to_le_bytes());
    }
}

/// The pointer word to a struct that begins this many words after it.
pub(crate) fn struct_word(words: usize, pointers: u32, gap: usize) -> u64
    requires words { words < 2 ^ 16 }
    requires pointers { pointers < 2 ^ 16 }
    requires gap { gap < 2 ^ 29 }
    ensures { result ≡ struct_pointer (if words + pointers == 0 then minus_one else gap) words pointers }
{
    let size = StructSize {
        data_words: words as u16,
        pointers: pointers as u16,
    };
    struct_pointer_word(size, gap as u64)
}

/// What a struct keeps: all that it has, or in canonical form as much as it needs. The elements of
/// a list all keep the same.
#[derive(Clone, Copy)]
pub struct KeptWords {
    /// Its data words.
    pub data_words: usize,

    /// Its pointers.
    pub pointers: u32,
}

/// Writes what a struct keeps into a block from the word `at` on, and what its pointers point to
/// into the words from `next` on, which are zero. Returns the first word after that.
pub(crate) fn write_sections<E: Fields + Element>(
    item: &E,
    canonical: bool,
    kept: KeptWords,
    block: &mut [u8],
    at: usize,
    next: usize,
) -> usize
    requires data { kept.data_words ≤ E.data_words }
    requires place { ElementPlace (E.has_trees item.now) canonical kept.data_words kept.pointers at
        next (length (words_of block.old)) }
    requires free { IsFreeFrom next block.old }
    ensures written { AreFieldsWritten (E.has_trees item.now) canonical (at + kept.data_words) kept.pointers
        next (put at (take kept.data_words (E.words item.now)) (words_of block.old))
        (words_of block.new) result }
    ensures free { IsFreeFrom result block.new }
    ensures wide { length (E.words item.now) ≡ E.data_words }
    ensures len { length block.new ≡ length block.old }
{
    let words = item.words();
    let own = &words[..kept.data_words];
    let slot = at + kept.data_words;
    put_words(own, &mut block[8 * at..8 * slot]);
    item.write(canonical, block, slot, kept.pointers, next)
}
