//! Unpacking groups of one word, one after another.
//!
//! Where as many bytes are shown as such a group can have, and a word of the buffer is left, no
//! other test of room is needed. One look-up by the tag then says where the next group begins.
//! Speed: words of every kind may alternate, as in small records (`capnp_ls unpack`).
ghost use Rattle.std.specs.Prelude.{◌≡◌, ◌<◌, ◌≤◌, length, IfSome};
ghost use Rattle.capnp_pack.specs.Steps.{Unpacked};

use crate::lanes::unpack_word;
use crate::sizes::{group_bytes, largest_end};
use crate::unpack::Progress;

// The most bytes that a group of one word can have: a tag, a word and a count.
pub(crate) const REACH: usize = 10;

// Where this many bytes are shown it pays to count the words beforehand.
const MANY: usize = 64;

// Fills the front of a buffer with the groups of one word at the front of what is shown.
//
// It ends at a run, and where a group or its word might not fit. No group takes a branch of its
// own.
#[inline(always)]
pub(crate) fn unpack_single_words(shown: &[u8], buffer: &mut [u8]) -> Progress
    ensures { Unpacked shown.now buffer.new result.used result.filled }
{
    if shown.len() >= MANY {
        return unpack_many_words(shown, buffer);
    }
    let mut used = 0;
    let mut filled = 0;
    if shown.len() < REACH || buffer.len() < 8 {
        return Progress { used, filled };
    }
    let last = shown.len() - REACH;
    let room = buffer.len() - 8;
    while used <= last && filled <= room {
        let Some(group) = unpack_single_word(&shown[used..], &mut buffer[filled..]) else {
            break;
        };
        used += group;
        filled += 8;
    }
    Progress { used, filled }
}

// The same for as many words as surely fit what is shown: with 10 bytes one, with 16 bytes more
// another. It ends at a run.
// Speed: this number is known beforehand, so a word takes one test of room. Where a source shows
// few bytes at a time, counting costs more than it saves (`capnp_bench trickle`).
#[inline(always)]
fn unpack_many_words(shown: &[u8], buffer: &mut [u8]) -> Progress
    ensures { Unpacked shown.now buffer.new result.used result.filled }
{
    let mut used = 0;
    let mut filled = 0;
    let words = ((shown.len() + 6) / 16).min(buffer.len() / 8);
    let room = 8 * words;
    while filled < room {
        let Some(group) = unpack_single_word(&shown[used..], &mut buffer[filled..]) else {
            break;
        };
        used += group;
        filled += 8;
    }
    Progress { used, filled }
}

// Fills the first word with the first group, where that has one word, and returns how many bytes
// the group has.
#[inline(always)]
pub(crate) fn unpack_single_word(shown: &[u8], buffer: &mut [u8]) -> Option<usize>
    requires long { 10 ≤ length shown.now }
    requires room { 8 ≤ length buffer.old }
    ensures few { IfSome result (λ used. used ≤ 10) }
    ensures group { IfSome result (λ used. Unpacked shown.now buffer.new used 8) }
{
    let tag = shown[0];
    let used = group_bytes(tag);
    if shown[used - 1] > largest_end(tag) {
        return None;
    }
    unpack_word(tag, &shown[1..], &mut buffer[..8]);
    Some(used)
}
