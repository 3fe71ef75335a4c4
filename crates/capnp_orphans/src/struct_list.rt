//! Lists of structs as objects.
ghost use Rattle.std.specs.Prelude.{◌≡◌, ◌+◌, ◌*◌, ◌<◌, ◌^◌, length};
ghost use Rattle.capnp_layout.specs.Prelude.{words_of};
ghost use Rattle.capnp_orphans.specs.Holds.{AreSized, element_words};

use crate::draft::writing::draft_fits;
use crate::draft_source::DraftSource;
use crate::object::Object;
use crate::written::put_struct;
use capnp_frame::{Error, ErrorKind, Result};
use capnp_layout::limits::{MAX_ELEMENTS, MAX_WORDS, allocation_too_large};
use capnp_layout::pointer_word::{STRUCT_LIST, list_word, struct_word};
use capnp_values::put_words;
use std::marker::PhantomData;

/// A list of structs (encoding document, "Lists", the elements of code 7).
#[derive(Drop)]
pub(crate) struct StructList<'a, T, const D: usize, const P: usize, S> {
    source: &'a S,
    schema: PhantomData<T>,
}

impl<'a, T, const D: usize, const P: usize, S: DraftSource<T, D, P>> StructList<'a, T, D, P, S> {
    /// The list of the structs of a source.
    pub(crate) fn new(source: &'a S) -> StructList<'a, T, D, P, S>
        ensures { result.source.now ≡ source.now }
    {
        StructList {
            source,
            schema: PhantomData,
        }
    }
}

// Fails for 2^29 or more structs or words with `AllocationTooLarge` of their count, and for structs
// too large for a pointer with `AllocationTooLarge(65536)`.
impl<'a, T, const D: usize, const P: usize, S: DraftSource<T, D, P>> Object
    for StructList<'a, T, D, P, S> {
    ghost use Rattle.std.specs.Prelude.{false, length};
    ghost use Rattle.capnp_orphans.specs.Holds.{HoldsStructs, TakesStructsWords, ManyStructs};

    ghost holds = { λ list old new word. HoldsStructs old (S.drafts list.source.now) new word };

    ghost takes = { λ list words. TakesStructsWords D P (length (S.drafts list.source.now)) words };

    ghost fails = { λ list kind. ManyStructs D P (length (S.drafts list.source.now)) kind };

    ghost wants_zeros = { λ object. false };

    fn measure(&self) -> Result<u32> {
        if D >= 1 << 16 || P >= 1 << 16 {
            return Err(Error::from_kind(ErrorKind::AllocationTooLarge(1 << 16)));
        }
        let count = self.source.len();
        if count > MAX_ELEMENTS as usize {
            return Err(allocation_too_large(count as u64));
        }
        let words = 1 + count * (D + P);
        if words > MAX_WORDS as usize {
            return Err(allocation_too_large(words as u64));
        }
        Ok(words as u32)
    }

    #[inline(always)]
    fn wants_zeros(&self) -> bool {
        false
    }

    fn write(&self, start: u32, block: &mut [u8]) -> u64 {
        let count = self.source.len();
        let tag = struct_word(count as u64, D as u16, P as u16);
        put_words(&[tag], &mut block[..8]);
        put_elements(self.source, start + 1, &mut block[8..]);
        list_word(start as u64, STRUCT_LIST, (count * (D + P)) as u64)
    }
}

// Puts structs into a block of exactly their words, which begins at this word of the segment.
#[inline(always)]
fn put_elements<T, const D: usize, const P: usize, S: DraftSource<T, D, P>>(
    source: &S,
    place: u32,
    block: &mut [u8],
)
    requires words { D < 2 ^ 16 }
    requires pointers { P < 2 ^ 16 }
    requires room { length block.old ≡ 8 * (length (S.drafts source.now) * (D + P)) }
    requires few { place + length (S.drafts source.now) * (D + P) < 2 ^ 29 }
    ensures sized { AreSized (S.drafts source.now) }
    ensures words { words_of block.new ≡ element_words (S.drafts source.now) place }
    ensures len { length block.new ≡ length block.old }
{
    let size = D + P;
    let mut at = 0;
    for index in 0..source.len() {
        let draft = source.get(index);
        // For the prover: the draft has as many data words and pointers as its type says.
        draft_fits(&draft);
        let part = &mut block[8 * at..8 * (at + size)];
        put_struct(&draft.words, &draft.pointers, place + at as u32, part);
        at += size;
    }
}
