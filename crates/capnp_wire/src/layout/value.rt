//! Trees of a message as values that are measured; lists of bytes and of numbers, which are written
//! as well.
ghost use Rattle.std.specs.Prelude.{◌≡◌, ◌<◌, ◌≤◌, ◌+◌, ◌-◌, ◌++◌, ◌*◌, ◌/◌, ◌^◌, ℕ, All, [], ◌∷◌, length, min, MatchResult};
ghost use Rattle.capnp_frame.specs.declared.error.ErrorKind.TheVariants.{AllocationTooLarge};
ghost use Rattle.capnp_layout.specs.Prelude.{digits, number_of, words_of, code_of, width, words_for, numbers, none, tree, elements, message_of, too_large, put};
ghost use Rattle.capnp_wire.specs.Traversed.{Counts};
ghost use Rattle.capnp_wire.specs.Copy.{IsCopied};
ghost use Rattle.capnp_wire.specs.Values.{Measured, TreeSizeError, ManyBytes, IsFreeFrom};

use crate::layout::copy::Copied;
use crate::layout::walk::Walk;
use capnp_frame::Result;
use capnp_frame::message::ReaderSegments;
use capnp_layout::block::put_elements;
use capnp_layout::element_size::ElementSize;
use capnp_layout::limits::{MAX_ELEMENTS, allocation_too_large, checked_word_count};
use capnp_layout::number_list::NumberList;
use capnp_layout::place::Place;
use capnp_layout::pointer_word::{BYTE_LIST, list_word};

/// The number of words of the tree at a place, without the pointer to it, untrimmed or in canonical
/// form.
#[inline(always)]
pub(crate) fn measure<S: ReaderSegments>(
    segments: &S,
    place: Place,
    nesting: u32,
    limit: Option<usize>,
    canonical: bool,
) -> Result<u32>
    ensures returned { let m = message_of (S.segments segments.now) in MatchResult result
        (λ words. Measured m place nesting limit canonical words)
        (λ error. TreeSizeError m place nesting limit canonical error.kind) }
{
    let mut walk = Walk::new(limit);
    walk.walk(segments, place, nesting, canonical)?;
    checked_walk(walk.words(), canonical)
}

/// Returns the number of words that a walk has counted, where a block may have as many. Fails as
/// `checked_word_count` does.
pub(crate) fn checked_walk(words: Option<u64>, canonical: bool) -> Result<u32>
    ensures { (counted : ℕ) → Counts words counted → MatchResult result
        (λ number. (number ≡ counted) × (number < 2 ^ 29))
        (λ error. (2 ^ 29 ≤ counted) × (error.kind ≡ too_large canonical counted)) }
{
    checked_word_count(words.unwrap_or(u64::MAX), canonical)
}

/// The number of words of a list of bytes.
pub(crate) fn measure_bytes(bytes: &[u8]) -> Result<u32>
    ensures words { MatchResult result
        (λ words. (length bytes.now < 2 ^ 29) × (words ≡ words_for (length bytes.now) 8))
        (λ error. ManyBytes bytes.now error.kind) }
    ensures bytes { All (λ byte. byte < 2 ^ 8) bytes.now }
{
    let words = bytes.len().div_ceil(8) as u64;
    if bytes.len() <= MAX_ELEMENTS as usize {
        return Ok(words as u32);
    }
    Err(allocation_too_large(words))
}

/// Writes a list of bytes into a block that is zero from the word `next` on.
pub(crate) fn write_bytes(bytes: &[u8], block: &mut [u8], following: usize, next: usize) -> Copied
    requires few { length bytes.now < 2 ^ 29 }
    requires room { next + words_for (length bytes.now) 8 ≤ length (words_of block.old) }
    requires free { IsFreeFrom next block.old }
    requires following { following ≤ next }
    ensures written { IsCopied (tree (numbers 2 bytes.now) none none) (next - following) next
        (words_of block.old) (words_of block.new) result }
    ensures len { length block.new ≡ length block.old }
{
    put_padded(bytes, block, next);
    Copied {
        pointer: list_word((next - following) as u64, BYTE_LIST, bytes.len() as u64),
        next: next + bytes.len().div_ceil(8),
    }
}

// Puts bytes into a block that is zero from the word `next` on, so they are padded with zeros.
#[inline(always)]
fn put_padded(bytes: &[u8], block: &mut [u8], next: usize)
    requires room { 8 * next + length bytes.now ≤ length block.old }
    requires free { IsFreeFrom next block.old }
    ensures words { (words : ℕ) → length bytes.now ≤ 8 * words →
        next + words ≤ length (words_of block.old) → words_of block.new
        ≡ put next (digits (2 ^ 64) words (number_of 256 bytes.now)) (words_of block.old) }
    ensures len { length block.new ≡ length block.old }
{
    let begin = 8 * next;
    block[begin..begin + bytes.len()].copy_from_slice(bytes);
}

/// The number of words of a `Text`, with the zero byte at its end.
pub(crate) fn measure_text(bytes: &[u8]) -> Result<u32>
    ensures words { MatchResult result
        (λ words. (length bytes.now + 1 < 2 ^ 29) × (words ≡ words_for (length bytes.now + 1) 8))
        (λ error. (2 ^ 29 ≤ length bytes.now + 1)
        × (error.kind ≡ AllocationTooLarge
        (min (words_for (length bytes.now + 1) 8) (2 ^ 32 - 1)))) }
    ensures bytes { All (λ byte. byte < 2 ^ 8) bytes.now }
{
    let words = bytes.len() as u64 / 8 + 1;
    if bytes.len() < MAX_ELEMENTS as usize {
        return Ok(words as u32);
    }
    Err(allocation_too_large(words))
}

/// Writes a `Text` into a block that is zero from the word `next` on.
pub(crate) fn write_text(bytes: &[u8], block: &mut [u8], following: usize, next: usize) -> Copied
    requires few { length bytes.now + 1 < 2 ^ 29 }
    requires room { next + words_for (length bytes.now + 1) 8 ≤ length (words_of block.old) }
    requires free { IsFreeFrom next block.old }
    requires following { following ≤ next }
    ensures written { IsCopied (tree (numbers 2 (bytes.now ++ 0 ∷ [])) none none)
        (next - following) next (words_of block.old) (words_of block.new) result }
    ensures len { length block.new ≡ length block.old }
{
    put_padded(bytes, block, next);
    Copied {
        pointer: list_word((next - following) as u64, BYTE_LIST, bytes.len() as u64 + 1),
        next: next + bytes.len() / 8 + 1,
    }
}

/// The number of words of a list of this many numbers.
pub(crate) fn measure_numbers(size: ElementSize, count: u32) -> Result<u32>
    ensures { MatchResult result
        (λ words. (count < 2 ^ 29) × (words ≡ words_for count (width (code_of size))))
        (λ error. (2 ^ 29 ≤ count) × (error.kind ≡ AllocationTooLarge
        (min (words_for count (width (code_of size))) (2 ^ 32 - 1)))) }
{
    let words = size.words_of_list(count);
    if count <= MAX_ELEMENTS {
        return Ok(words as u32);
    }
    Err(allocation_too_large(words))
}

/// Writes a list of numbers into a block, from the word `next` on, with zero bits after the last
/// one.
pub(crate) fn write_numbers(
    list: &NumberList<'_>,
    block: &mut [u8],
    following: usize,
    next: usize,
) -> Copied
    requires few { list.now.count < 2 ^ 29 }
    requires there { list.now.start.word + words_for list.now.count (width (code_of list.now.size))
        ≤ length list.now.segment.now / 8 }
    requires room { next + words_for list.now.count (width (code_of list.now.size))
        ≤ length (words_of block.old) }
    requires small { length (words_of block.old) < 2 ^ 29 }
    requires following { following ≤ next }
    ensures written { let code = code_of list.now.size in
        let start = list.now.start.word in
        let values = elements (words_of list.now.segment.now) start code list.now.count in
        IsCopied (tree (numbers code values) none none) (next - following) next
        (words_of block.old) (words_of block.new) result }
    ensures len { length block.new ≡ length block.old }
{
    put_elements(block, next, list);
    Copied {
        pointer: list_word(
            (next - following) as u64,
            list.size.code(),
            list.count as u64,
        ),
        next: next + list.words() as usize,
    }
}
