//! Packed bytes on their way to a sink.
//!
//! They are collected in a buffer, whose first bytes are used. A group adds at most 10 bytes: a
//! tag, a word and a count.
ghost use Rattle.std.specs.Prelude.{◌≡◌, ℕ, ◌+◌, ◌<◌, ◌≤◌, [], ◌∷◌, ◌++◌, IsOk, length, take, count_ones};
ghost use Rattle.capnp_frame.specs.Prelude.{IfKnown};
ghost use Rattle.capnp_pack.specs.Calls.{HandsOn};
ghost use Rattle.capnp_pack.specs.Steps.{Hands, nonzero, tag_of};

use crate::compact_shuffle::COMPACT_SHUFFLE;
use crate::copies::copy_run;
use capnp_frame::Result;
use capnp_frame::io::Write;
use std::simd::prelude::*;

/// How many bytes the buffer has.
pub(crate) const BUFFER_BYTES: usize = 64;

/// The most bytes of the buffer that may be used where a group is added.
pub(crate) const MOST_USED: usize = BUFFER_BYTES - 10;

// Hands the used bytes to the sink.
#[inline(always)]
pub(crate) fn flush<W: Write>(sink: &mut W, bytes: &[u8; BUFFER_BYTES], used: usize) -> Result<()>
    requires { used ≤ BUFFER_BYTES }
    ensures hands { HandsOn W.Write sink.old sink.new (λ encoding. encoding ≡ take used bytes.now) (λ _.
        IfKnown (W.written sink.old) (W.written sink.new)
        (Hands W.appends (take used bytes.now) [] [])) result }
    ensures granted { (more : ℕ) → W.grants sink.old (used + more) →
        IsOk result × W.grants sink.new more }
{
    if used == 0 {
        return Ok(());
    }
    sink.write_all(&bytes[..used])
}

// Adds a byte, and returns how many bytes are then used.
#[inline(always)]
pub(crate) fn push(bytes: &mut [u8; BUFFER_BYTES], used: usize, byte: u8) -> usize
    requires { used < BUFFER_BYTES }
    ensures used { result ≡ used + 1 }
    ensures added { take result bytes.new ≡ take used bytes.old ++ byte ∷ [] }
{
    bytes[used] = byte;
    used + 1
}

// Adds bytes that fit, and returns how many are then used.
#[inline(always)]
pub(crate) fn push_run(bytes: &mut [u8; BUFFER_BYTES], used: usize, run: &[u8]) -> usize
    requires room { used + length run.now ≤ BUFFER_BYTES }
    ensures used { result ≡ used + length run.now }
    ensures added { take result bytes.new ≡ take used bytes.old ++ run.now }
{
    copy_run(run.len(), run, &mut bytes[used..]);
    used + run.len()
}

// Adds a tag, and the bytes of a word that aren't zero, and returns how many bytes are then used.
// Eight bytes are stored at once, however many these are, so a zero follows the tag of a zero word:
// the count of a run of one word.
#[inline(always)]
pub(crate) fn push_word(
    bytes: &mut [u8; BUFFER_BYTES],
    used: usize,
    tag: u8,
    word: &[u8; 8],
) -> usize
    requires room { used ≤ MOST_USED }
    requires tag { tag ≡ tag_of word.now }
    ensures room { result < BUFFER_BYTES }
    ensures used { result ≡ used + 1 + count_ones tag }
    ensures word { take result bytes.new ≡ take used bytes.old ++ tag ∷ nonzero word.now }
    ensures zero { tag ≡ 0 → take (result + 1) bytes.new ≡ take result bytes.new ++ 0 ∷ [] }
{
    let front = nonzero_front(tag, word);
    let at = push(bytes, used, tag);
    front.copy_to_slice(&mut bytes[at..at + 8]);
    at + tag.count_ones() as usize
}

// The bytes of a word that aren't zero, at the front, and then zeros.
#[inline(always)]
fn nonzero_front(tag: u8, word: &[u8; 8]) -> u8x8
    requires { tag ≡ tag_of word.now }
    ensures counted { count_ones tag ≡ length (nonzero word.now) }
    ensures few { count_ones tag ≤ 8 }
    ensures front { take (count_ones tag) result ≡ nonzero word.now }
    ensures zero { tag ≡ 0 → take 1 result ≡ 0 ∷ [] }
{
    let bytes = u8x16::from_array([
        word[0], word[1], word[2], word[3], word[4], word[5], word[6], word[7], 0, 0, 0, 0, 0, 0,
        0, 0,
    ]);
    bytes
        .swizzle_dyn(u8x16::from_array(COMPACT_SHUFFLE[tag as usize]))
        .extract::<0, 8>()
}
