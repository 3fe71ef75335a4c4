//! Lists of structs of any one size.
ghost use Rattle.std.specs.Prelude.{◌≡◌, ◌+◌, ◌*◌, ◌<◌, ◌^◌, length, MatchOption};
ghost use Rattle.capnp_layout.specs.Prelude.{words_of};
ghost use Rattle.capnp_orphans.specs.Holds.{AreSized, element_words};
ghost use Rattle.capnp_orphans.specs.Sized.{drafts_in};

use crate::object::Object;
use crate::written::put_struct;
use capnp_frame::Result;
use capnp_layout::limits::{MAX_ELEMENTS, MAX_WORDS, allocation_too_large};
use capnp_layout::pointer_word::{STRUCT_LIST, StructSize, list_word, struct_word};
use capnp_values::{put_words, words_fit};

/// A list of structs of one size (encoding document, "Lists", the elements of code 7). The words of a
/// struct are its data words, and then the words of the orphans that it has adopted.
///
/// ```
/// let size = StructSize {
///     data_words: 1,
///     pointers: 0,
/// };
/// let points = SizedStructList::new(&[3, 4], 2, size);
/// assert!(rt; points.is_some());
/// ```
#[derive(Drop)]
pub struct SizedStructList<'a> {
    elements: &'a [u64],
    count: usize,
    size: StructSize,
    ghost whole: { length elements.now ≡ count * (size.data_words + size.pointers) },
}

impl<'a> SizedStructList<'a> {
    /// The list of `count` structs of this size, whose words follow one another in `elements`.
    ///
    /// Returns `None` where `count` structs of this size do not have exactly as many words.
    pub fn new(elements: &'a [u64], count: usize, size: StructSize) -> Option<SizedStructList<'a>>
        ensures { let words = size.data_words + size.pointers in MatchOption result
            (length elements.now ≡ count * words → ⊥)
            (λ list. (length elements.now ≡ count * words) × (list.elements.now ≡ elements.now)
            × (list.count ≡ count) × (list.size ≡ size)) }
    {
        let words = size.data_words as u128 + size.pointers as u128;
        if elements.len() as u128 != count as u128 * words {
            return None;
        }
        Some(SizedStructList {
            elements,
            count,
            size,
        })
    }
}

// Fails for 2^29 or more structs or words with `AllocationTooLarge` of their count.
impl<'a> Object for SizedStructList<'a> {
    ghost use Rattle.std.specs.Prelude.{false};
    ghost use Rattle.capnp_orphans.specs.Holds.{HoldsStructs, TakesStructsWords, ManyStructs};
    ghost use Rattle.capnp_orphans.specs.Sized.{drafts_in};

    ghost holds = { λ list old new word. HoldsStructs old
        (drafts_in list.size.data_words list.size.pointers list.count list.elements.now) new word };

    ghost takes = { λ list words.
        TakesStructsWords list.size.data_words list.size.pointers list.count words };

    ghost fails = { λ list kind.
        ManyStructs list.size.data_words list.size.pointers list.count kind };

    ghost wants_zeros = { λ object. false };

    fn measure(&self) -> Result<u32> {
        if self.count > MAX_ELEMENTS as usize {
            return Err(allocation_too_large(self.count as u64));
        }
        let words = 1 + self.elements.len();
        if words > MAX_WORDS as usize {
            return Err(allocation_too_large(words as u64));
        }
        Ok(words as u32)
    }

    #[inline(always)]
    fn wants_zeros(&self) -> bool {
        false
    }

    fn write(&self, start: u32, block: &mut [u8]) -> u64 {
        let size = self.size;
        let tag = struct_word(self.count as u64, size.data_words, size.pointers);
        put_words(&[tag], &mut block[..8]);
        put_elements(self.elements, self.count, size, start + 1, &mut block[8..]);
        list_word(start as u64, STRUCT_LIST, self.elements.len() as u64)
    }
}

// Puts structs into a block of exactly their words, which begins at this word of the segment.
fn put_elements(elements: &[u64], count: usize, size: StructSize, place: u32, block: &mut [u8])
    requires elements { length elements.now ≡ count * (size.data_words + size.pointers) }
    requires room { length block.old ≡ 8 * (count * (size.data_words + size.pointers)) }
    requires few { place + count * (size.data_words + size.pointers) < 2 ^ 29 }
    ensures sized { AreSized (drafts_in size.data_words size.pointers count elements.now) }
    ensures words { words_of block.new
        ≡ element_words (drafts_in size.data_words size.pointers count elements.now) place }
    ensures len { length block.new ≡ length block.old }
{
    // For the prover: each word is below 2^64.
    words_fit(elements);
    let data_words = size.data_words as usize;
    let words = data_words + size.pointers as usize;
    let mut at = 0;
    for _index in 0..count {
        let element = &elements[at..at + words];
        let part = &mut block[8 * at..8 * (at + words)];
        put_struct(
            &element[..data_words],
            &element[data_words..],
            place + at as u32,
            part,
        );
        at += words;
    }
}
