//! Lists of pointers as objects.
ghost use Rattle.std.specs.Prelude.{◌≡◌};

use crate::object::Object;
use crate::orphan::Orphan;
use crate::written::put_links;
use capnp_frame::Result;
use capnp_layout::limits::{MAX_ELEMENTS, allocation_too_large};
use capnp_layout::pointer_word::{POINTER_LIST, list_word};

/// A list of pointers to some orphans (encoding document, "Lists").
#[derive(Drop)]
pub(crate) struct PointerList<'a, T> {
    items: &'a [Orphan<T>],
}

impl<'a, T> PointerList<'a, T> {
    /// The list of pointers to these orphans.
    pub(crate) fn new(items: &'a [Orphan<T>]) -> PointerList<'a, T>
        ensures { result.items.now ≡ items.now }
    {
        PointerList { items }
    }
}

// Fails for 2^29 pointers or more with `AllocationTooLarge` of their count.
impl<'a, T> Object for PointerList<'a, T> {
    ghost use Rattle.std.specs.Prelude.{false, length, map};
    ghost use Rattle.capnp_orphans.specs.Holds.{HoldsPointers, TakesPointersWords, ManyPointers, word_of};

    ghost holds = { λ list old new word. HoldsPointers old (map word_of list.items.now) new word };

    ghost takes = { λ list words. TakesPointersWords (length list.items.now) words };

    ghost fails = { λ list kind. ManyPointers (length list.items.now) kind };

    ghost wants_zeros = { λ object. false };

    fn measure(&self) -> Result<u32> {
        let count = self.items.len();
        if count > MAX_ELEMENTS as usize {
            return Err(allocation_too_large(count as u64));
        }
        Ok(count as u32)
    }

    #[inline(always)]
    fn wants_zeros(&self) -> bool {
        false
    }

    // Speed: a call leaves the registers to the loop that makes the list's orphans (`texts`).
    #[inline(never)]
    fn write(&self, start: u32, block: &mut [u8]) -> u64 {
        put_links(self.items, start, block);
        list_word(start as u64, POINTER_LIST, self.items.len() as u64)
    }
}
