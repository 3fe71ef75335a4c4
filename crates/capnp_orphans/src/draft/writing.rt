//! Drafts of structs as objects.
ghost use Rattle.std.specs.Prelude.{◌≡◌, ◌+◌, ◌<◌, ◌^◌, ◌==◌, if◌then◌else◌, length, All};
ghost use Rattle.capnp_layout.specs.Prelude.{struct_pointer, minus_one};

use crate::draft::StructDraft;
use crate::object::Object;
use crate::written::put_struct;
use capnp_frame::{Error, ErrorKind, Result};
use capnp_layout::body_word::struct_pointer_word;
use capnp_layout::pointer::StructSize;
use capnp_values::words_fit;

// Writes the data words, and then the pointers. Fails with `AllocationTooLarge` for 2^16 or more of
// either.
impl<T, const D: usize, const P: usize> Object for StructDraft<T, D, P> {
    ghost use Rattle.std.specs.Prelude.{false};
    ghost use Rattle.capnp_orphans.specs.Holds.{HoldsStruct, TakesStructWords, StructSizeError};

    ghost holds = { λ draft old new word. HoldsStruct old draft.words draft.pointers new word };

    ghost takes = { λ draft words. TakesStructWords D P words };

    ghost fails = { λ draft kind. StructSizeError D P kind };

    ghost wants_zeros = { λ object. false };

    #[inline(always)]
    fn measure(&self) -> Result<u32> {
        if D >= 1 << 16 || P >= 1 << 16 {
            return Err(Error::from_kind(ErrorKind::AllocationTooLarge(1 << 16)));
        }
        Ok((D + P) as u32)
    }

    #[inline(always)]
    fn wants_zeros(&self) -> bool {
        false
    }

    #[inline(always)]
    fn write(&self, start: u32, block: &mut [u8]) -> u64 {
        // For the prover: the draft has as many data words and pointers as its type says.
        draft_fits(self);
        put_struct(&self.words, &self.pointers, start, block);
        struct_orphan(start, D, P)
    }
}

/// A draft has as many data words and pointers as its type says.
#[inline(always)]
pub(crate) fn draft_fits<T, const D: usize, const P: usize>(draft: &StructDraft<T, D, P>)
    ensures words { length draft.now.words ≡ D }
    ensures pointers { length draft.now.pointers ≡ P }
    ensures few { All (λ word. word < 2 ^ 64) draft.now.words }
{
    // For the prover: each data word is below 2^64.
    words_fit(&draft.words);
}

/// The orphan's word for a struct that begins at this word of the segment.
#[inline(always)]
pub(crate) fn struct_orphan(start: u32, words: usize, pointers: usize) -> u64
    requires start { start < 2 ^ 29 }
    requires words { words < 2 ^ 16 }
    requires pointers { pointers < 2 ^ 16 }
    ensures { result ≡ struct_pointer (if words + pointers == 0 then minus_one else start)
        words pointers }
{
    let size = StructSize {
        data_words: words as u16,
        pointers: pointers as u16,
    };
    struct_pointer_word(size, start as u64)
}
