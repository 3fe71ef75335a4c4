//! Lists of pointers to orphans that are given by their words.
ghost use Rattle.std.specs.Prelude.{◌≡◌};

use crate::object::Object;
use crate::written::put_links;
use capnp_frame::Result;
use capnp_layout::limits::{MAX_ELEMENTS, allocation_too_large};
use capnp_layout::pointer_word::{POINTER_LIST, list_word};

/// A list of pointers to the orphans with these words (encoding document, "Lists").
///
/// ```
/// let list = OrphanList::new(&[0, 0]);
/// assert_eq!(rt; list.measure()?, 2);
/// ```
#[derive(Drop)]
pub struct OrphanList<'a> {
    words: &'a [u64],
}

impl<'a> OrphanList<'a> {
    /// The list of pointers to the orphans with these words.
    pub fn new(words: &'a [u64]) -> OrphanList<'a>
        ensures { result.words.now ≡ words.now }
    {
        OrphanList { words }
    }
}

// Fails for 2^29 pointers or more with `AllocationTooLarge` of their count.
impl<'a> Object for OrphanList<'a> {
    ghost use Rattle.std.specs.Prelude.{false, length};
    ghost use Rattle.capnp_orphans.specs.Holds.{HoldsPointers, TakesPointersWords, ManyPointers};

    ghost holds = { λ list old new word. HoldsPointers old list.words.now new word };

    ghost takes = { λ list words. TakesPointersWords (length list.words.now) words };

    ghost fails = { λ list kind. ManyPointers (length list.words.now) kind };

    ghost wants_zeros = { λ object. false };

    fn measure(&self) -> Result<u32> {
        let count = self.words.len();
        if count > MAX_ELEMENTS as usize {
            return Err(allocation_too_large(count as u64));
        }
        Ok(count as u32)
    }

    #[inline(always)]
    fn wants_zeros(&self) -> bool {
        false
    }

    fn write(&self, start: u32, block: &mut [u8]) -> u64 {
        put_links(self.words, start, block);
        list_word(start as u64, POINTER_LIST, self.words.len() as u64)
    }
}
