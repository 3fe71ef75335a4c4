//! Structs of any size.
ghost use Rattle.std.specs.Prelude.{◌≡◌, length};

use crate::draft::writing::struct_orphan;
use crate::object::Object;
use crate::written::put_struct;
use capnp_frame::{Error, ErrorKind, Result};
use capnp_values::words_fit;

/// A struct of these data words that has adopted the orphans with these words (encoding document,
/// "Structs").
///
/// ```
/// let person = SizedStruct::new(&[30], &[0, 0]);
/// assert_eq!(rt; person.measure()?, 3);
/// ```
#[derive(Drop)]
pub struct SizedStruct<'a> {
    words: &'a [u64],
    pointers: &'a [u64],
}

impl<'a> SizedStruct<'a> {
    /// The struct of these data words that has adopted the orphans with these words.
    pub fn new(words: &'a [u64], pointers: &'a [u64]) -> SizedStruct<'a>
        ensures words { result.words.now ≡ words.now }
        ensures pointers { result.pointers.now ≡ pointers.now }
    {
        SizedStruct { words, pointers }
    }
}

// Fails with `AllocationTooLarge(65536)` for 2^16 or more data words or pointers.
impl<'a> Object for SizedStruct<'a> {
    ghost use Rattle.std.specs.Prelude.{false, length};
    ghost use Rattle.capnp_orphans.specs.Holds.{HoldsStruct, TakesStructWords, StructSizeError};

    ghost holds = { λ object old new word.
        HoldsStruct old object.words.now object.pointers.now new word };

    ghost takes = { λ object words.
        TakesStructWords (length object.words.now) (length object.pointers.now) words };

    ghost fails = { λ object kind.
        StructSizeError (length object.words.now) (length object.pointers.now) kind };

    ghost wants_zeros = { λ object. false };

    fn measure(&self) -> Result<u32> {
        if self.words.len() >= 1 << 16 || self.pointers.len() >= 1 << 16 {
            return Err(Error::from_kind(ErrorKind::AllocationTooLarge(1 << 16)));
        }
        Ok((self.words.len() + self.pointers.len()) as u32)
    }

    #[inline(always)]
    fn wants_zeros(&self) -> bool {
        false
    }

    fn write(&self, start: u32, block: &mut [u8]) -> u64 {
        // For the prover: each data word is below 2^64.
        words_fit(self.words);
        put_struct(self.words, self.pointers, start, block);
        struct_orphan(start, self.words.len(), self.pointers.len())
    }
}
