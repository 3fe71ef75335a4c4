//! Blocks of words, and what is put into them.
ghost use Rattle.std.specs.Prelude.{◌≡◌, ℕ, List, ◌+◌, ◌-◌, ◌*◌, ◌^◌, ◌/◌, ◌%◌, ◌<◌, ◌≤◌, ◌∷◌, [], length, max, slice_get, Some};
ghost use Rattle.capnp_frame.specs.Prelude.{bytes_of};
ghost use Rattle.capnp_layout.specs.Pointer.{words_of, words_from};
ghost use Rattle.capnp_layout.specs.Element.{code_of, width, words_for};
ghost use Rattle.capnp_layout.specs.Tree.{numbers};
ghost use Rattle.capnp_layout.specs.Object.{elements};
ghost use Rattle.capnp_layout.specs.Layout.{own};
ghost use Rattle.capnp_layout.specs.Trim.{cut_zeros};
ghost use Rattle.capnp_layout.specs.Block.{put, word_numbers, most_used};

use crate::number_list::NumberList;
use crate::object::words_fit;
use capnp_frame::Word;

/// The word at this index of a segment, which has one there.
#[inline(always)]
pub fn word_at(segment: &[u8], index: usize) -> u64
    requires { index < length segment.now / 8 }
    ensures { slice_get (words_of segment.now) index ≡ Some result }
{
    let (words, _) = segment.as_chunks::<8>();
    u64::from_le_bytes(words[index])
}

/// An item of a block of words: a byte, eight to a word, or a whole word.
pub trait BlockItem: Sized {
    /// The words of a block.
    ghost as_words: { List Self → List ℕ };

    /// Puts the bytes of whole words into a block, from its word `at` on.
    fn put_bytes(block: &mut [Self], at: usize, bytes: &[u8])
        requires whole { length bytes.now % 8 ≡ 0 }
        requires room { at + length bytes.now / 8 ≤ length (as_words block.old) }
        ensures words { as_words block.new ≡ put at (words_of bytes.now) (as_words block.old) }
        ensures len { length (as_words block.new) ≡ length (as_words block.old) };
}

impl BlockItem for u8 {
    ghost as_words = { words_of };

    #[inline(always)]
    fn put_bytes(block: &mut [u8], at: usize, bytes: &[u8]) {
        let begin = 8 * at;
        copy_bytes(&mut block[begin..begin + bytes.len()], bytes);
    }
}

// Copies bytes.
// Speed: up to three words, whose number is known here, are copied without a call
// (`tools/time building`).
#[inline(always)]
fn copy_bytes(to: &mut [u8], bytes: &[u8])
    requires { length to.old ≡ length bytes.now }
    ensures { to.new ≡ bytes.now }
{
    if let Some(word) = bytes.as_array::<8>() {
        if let Some(place) = to.as_mut_array::<8>() {
            *place = *word;
        }
        return;
    }
    match bytes.len() {
        0 => (),
        16 => to[..16].copy_from_slice(&bytes[..16]),
        24 => to[..24].copy_from_slice(&bytes[..24]),
        _ => copy_long(to, bytes),
    }
}

// Copies more bytes.
// Speed: a call of its own leaves the registers to the loops that copy (`tools/time building`).
#[inline(never)]
fn copy_long(to: &mut [u8], bytes: &[u8])
    requires { length to.old ≡ length bytes.now }
    ensures { to.new ≡ bytes.now }
{
    to.copy_from_slice(bytes);
}

impl BlockItem for Word {
    ghost as_words = { word_numbers };

    #[inline(always)]
    fn put_bytes(block: &mut [Word], at: usize, bytes: &[u8]) {
        let (chunks, _) = bytes.as_chunks::<8>();
        for index in 0..chunks.len() {
            block[at + index] = word_of_bytes(&chunks[index]);
        }
    }
}

// The word of eight bytes.
fn word_of_bytes(bytes: &[u8; 8]) -> Word
    ensures { bytes_of result ≡ bytes.now }
{
    capnp_frame::word(
        bytes[0], bytes[1], bytes[2], bytes[3], bytes[4], bytes[5], bytes[6], bytes[7],
    )
}

/// Puts a word into a block.
#[inline(always)]
pub fn put_word<T: BlockItem>(block: &mut [T], at: usize, word: u64)
    requires { at < length (T.as_words block.old) }
    ensures words { T.as_words block.new ≡ put at (word ∷ []) (T.as_words block.old) }
    ensures len { length (T.as_words block.new) ≡ length (T.as_words block.old) }
{
    T::put_bytes(block, at, &word.to_le_bytes());
}

/// Puts this many words of a segment into a block.
#[inline(always)]
pub fn put_words<T: BlockItem>(
    block: &mut [T],
    at: usize,
    segment: &[u8],
    start: usize,
    count: usize,
)
    requires there { start + count ≤ length segment.now / 8 }
    requires room { at + count ≤ length (T.as_words block.old) }
    ensures words { T.as_words block.new
        ≡ put at (words_from (words_of segment.now) start count) (T.as_words block.old) }
    ensures len { length (T.as_words block.new) ≡ length (T.as_words block.old) }
{
    let begin = 8 * start;
    T::put_bytes(block, at, &segment[begin..begin + 8 * count]);
}

/// Puts the elements of a list into a block, with zero bits after the last one.
#[inline(always)]
pub fn put_elements<T: BlockItem>(block: &mut [T], at: usize, list: &NumberList<'_>)
    requires there { let words = words_for list.now.count (width (code_of list.now.size)) in
        list.now.start.word + words ≤ length list.now.segment.now / 8 }
    requires room { let words = words_for list.now.count (width (code_of list.now.size)) in
        at + words ≤ length (T.as_words block.old) }
    requires bound { length (T.as_words block.old) < 2 ^ 29 }
    ensures words { let code = code_of list.now.size in
        let words = words_of list.now.segment.now in
        let numerals = elements words list.now.start.word code list.now.count in
        T.as_words block.new ≡ put at (own (numbers code numerals) []) (T.as_words block.old) }
    ensures len { length (T.as_words block.new) ≡ length (T.as_words block.old) }
{
    let segment = list.segment;
    // For the prover: each word is below 2^64, and so is the number of bytes.
    words_fit(segment);
    let start = list.start.word;
    let words = list.words() as usize;
    put_words(block, at, segment, start, words);
    let following = list.bits % 64;
    if following != 0 {
        let last = word_at(segment, start + words - 1);
        put_word(block, at + words - 1, last % (1 << following));
    }
}

/// The number of these words without the zero words at their end.
#[inline(always)]
pub fn used(segment: &[u8], start: usize, count: usize) -> usize
    requires { start + count ≤ length segment.now / 8 }
    ensures { result ≡ length (cut_zeros (words_from (words_of segment.now) start count)) }
{
    let mut left = count;
    'words: while left > 0 {
        if word_at(segment, start + left - 1) != 0 {
            return left;
        }
        left -= 1;
    }
    0
}

/// The most words that one of `parts` parts of `segment` needs without the zeros at its end, or 0
/// where there are no parts.
///
/// The first part begins at the word `start` of the segment, and each later one `step` words after
/// the one before it. Of each part the first `count` words are looked at, at most `step`: the data
/// section or the pointer section of an element of a list of structs.
pub fn most_used(segment: &[u8], start: usize, count: usize, step: usize, parts: u32) -> usize
    requires there { start + parts * step ≤ length segment.now / 8 + (step - count) }
    requires inside { count ≤ step }
    requires small { step < 2 ^ 32 }
    ensures value { result ≡ most_used (words_of segment.now) start count step parts }
    ensures bound { result ≤ count }
{
    if count == 0 {
        return 0;
    }
    let mut most = 0;
    let mut part = start;
    'parts: for _part in 0..parts {
        // Speed: no part can need more words, so the others aren't read (`tools/time building`).
        if most == count {
            return count;
        }
        most = larger(most, used(segment, part, count));
        part += step;
    }
    most
}

fn larger(a: usize, b: usize) -> usize
    ensures { result ≡ max a b }
{
    if a < b { b } else { a }
}
