//! Putting pointers and structs into blocks.
ghost use Rattle.std.specs.Prelude.{◌≡◌, ◌+◌, ◌*◌, ◌^◌, ◌<◌, ◌++◌, length, map};
ghost use Rattle.capnp_layout.specs.Prelude.{words_of};
ghost use Rattle.capnp_orphans.specs.Orphans.{links};

use crate::orphan::OrphanWord;
use capnp_layout::pointer_word::{link, put_word};
use capnp_values::put_words;

/// Puts the pointers to orphans into a block of exactly as many words, which begins at this word of
/// the segment.
#[inline(always)]
pub(crate) fn put_links<W: OrphanWord>(items: &[W], place: u32, block: &mut [u8])
    requires room { length block.old ≡ 8 * length items.now }
    requires few { place + length items.now < 2 ^ 29 }
    ensures { words_of block.new ≡ links (map W.word items.now) place }
{
    for index in 0..items.len() {
        put_word(
            block,
            index,
            link(items[index].word(), place + index as u32),
        );
    }
}

/// Puts a struct into a block of exactly its words, which begins at this word of the segment.
#[inline(always)]
pub(crate) fn put_struct(words: &[u64], pointers: &[u64], start: u32, block: &mut [u8])
    requires room { length block.old ≡ 8 * (length words.now + length pointers.now) }
    requires few { start + length words.now + length pointers.now < 2 ^ 29 }
    ensures words { words_of block.new
        ≡ words.now ++ links pointers.now (start + length words.now) }
    ensures len { length block.new ≡ length block.old }
{
    let middle = 8 * words.len();
    put_words(words, &mut block[..middle]);
    put_links(pointers, start + words.len() as u32, &mut block[middle..]);
}
