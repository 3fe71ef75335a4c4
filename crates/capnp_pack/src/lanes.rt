//! The bytes that a tag marks, moved to their places in a word all at once.
ghost use Rattle.std.specs.Prelude.{◌≡◌, ◌≤◌, length};
ghost use Rattle.std.specs.Int.RustNames.{count_ones};
ghost use Rattle.capnp_pack.specs.Steps.{TakesMarked};

use crate::copies::copy_bytes;
use crate::expand_shuffle::EXPAND_SHUFFLE;
use std::simd::prelude::*;

// Fills a word with the bytes that a tag marks, where eight bytes are shown, and returns how many
// it marks.
#[inline(always)]
pub(crate) fn unpack_word(tag: u8, shown: &[u8], word: &mut [u8]) -> usize
    requires long { 8 ≤ length shown.now }
    requires word { length word.old ≡ 8 }
    ensures count { result ≡ count_ones tag }
    ensures taken { TakesMarked tag shown.now word.new result }
{
    let places = u8x16::from_array(EXPAND_SHUFFLE[tag as usize]);
    let bytes = u8x16::from_array([
        shown[0], shown[1], shown[2], shown[3], shown[4], shown[5], shown[6], shown[7], 0, 0, 0, 0,
        0, 0, 0, 0,
    ]);
    bytes
        .swizzle_dyn(places)
        .extract::<0, 8>()
        .copy_to_slice(word);
    tag.count_ones() as usize
}

// Does the same where fewer than eight bytes may be shown, but all that the tag marks.
#[inline(always)]
pub(crate) fn unpack_short_word(tag: u8, shown: &[u8], word: &mut [u8]) -> usize
    requires long { count_ones tag ≤ length shown.now }
    requires word { length word.old ≡ 8 }
    ensures count { result ≡ count_ones tag }
    ensures taken { TakesMarked tag shown.now word.new result }
{
    let mut bytes = [0; 8];
    copy_bytes(shown.len().min(8), shown, &mut bytes);
    unpack_word(tag, &bytes, word)
}
