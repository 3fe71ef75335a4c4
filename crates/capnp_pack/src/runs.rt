//! What a packer looks for in words: their tags, and how long runs are.
ghost use Rattle.std.specs.Prelude.{◌≡◌, ◌<◌, ◌≤◌, length, take};
ghost use Rattle.std.specs.List.{concat, AllByRecursion};
ghost use Rattle.capnp_pack.specs.Group.{zero_bytes};
ghost use Rattle.capnp_pack.specs.Packed.{IfFirst};
ghost use Rattle.capnp_pack.specs.Steps.{IsRun, IsZero, HasFewZeros, tag_of};

use std::simd::prelude::*;

// How many zero words are at the front, at most 255.
#[inline(always)]
pub(crate) fn zero_run(words: &[[u8; 8]]) -> usize
    ensures { IsRun IsZero words.now result }
{
    let most = words.len().min(255);
    let mut count = 0;
    while most - count >= 8 {
        let marks = marks_of_eight(&words[count..count + 8]);
        if marks != 0 {
            return count + marks.trailing_zeros() as usize / 8;
        }
        count += 8;
    }
    while count < most && words[count] == [0; 8] {
        count += 1;
    }
    count
}

// A bit for each byte of eight words that isn't zero.
#[inline(always)]
fn marks_of_eight(words: &[[u8; 8]]) -> u64
    requires { length words.now ≡ 8 }
    ensures { result ≡ tag_of (concat words.now) }
{
    u8x64::from_slice(words.as_flattened())
        .simd_ne(u8x64::splat(0))
        .to_bitmask()
}

// How many words of at most one zero byte are at the front, at most 255.
#[inline(always)]
pub(crate) fn literal_run(words: &[[u8; 8]]) -> usize
    ensures { IsRun HasFewZeros words.now result }
{
    let most = words.len().min(255);
    let mut count = 0;
    while count < most && zeros(&words[count]) <= 1 {
        // Speed: eight words at once are looked at where two words are stored as they are, and then
        // once in eight words (`capnp_ls pack` of short runs without a zero byte).
        if count % 8 == 1 {
            count += full_eights(&words[count..most]).max(1);
        } else {
            count += 1;
        }
    }
    count
}

// How many words with no zero byte are at the front, counted eight at a time.
#[inline(always)]
fn full_eights(words: &[[u8; 8]]) -> usize
    ensures within { result ≤ length words.now }
    ensures each { AllByRecursion HasFewZeros (take result words.now) }
{
    let mut count = 0;
    while words.len() - count >= 8 && zeros_of_eight(&words[count..count + 8]) == 0 {
        count += 8;
    }
    count
}

// How many bytes of eight words are zero.
#[inline(always)]
fn zeros_of_eight(words: &[[u8; 8]]) -> u32
    requires { length words.now ≡ 8 }
    ensures { result ≡ zero_bytes (concat words.now) }
{
    u8x64::from_slice(words.as_flattened())
        .simd_eq(u8x64::splat(0))
        .to_bitmask()
        .count_ones()
}

// How many bytes are zero.
#[inline(always)]
fn zeros(word: &[u8; 8]) -> u32
    ensures { result ≡ zero_bytes word.now }
{
    8 - tag(word).count_ones()
}

// A bit for each byte that isn't zero, the first byte's the least significant.
#[inline(always)]
pub(crate) fn tag(word: &[u8; 8]) -> u8
    ensures { result ≡ tag_of word.now }
{
    let bytes = u8x16::from_array([
        word[0], word[1], word[2], word[3], word[4], word[5], word[6], word[7], 0, 0, 0, 0, 0, 0,
        0, 0,
    ]);
    bytes.simd_ne(u8x16::splat(0)).to_bitmask() as u8
}

// 0 where the first word is zero, and only there.
// Speed: the word itself is the mark, so it is tested together with a tag (`capnp_ls pack`).
#[inline(always)]
pub(crate) fn first_mark(words: &[[u8; 8]]) -> u64
    ensures { 0 < result → IfFirst words.now (λ word. IsZero word → ⊥) }
{
    match words.first() {
        Some(word) => u64::from_le_bytes(*word),
        None => 1,
    }
}
