//! Texts as objects.
ghost use Rattle.std.specs.Prelude.{◌≡◌, ℕ, ◌+◌, ◌-◌, ◌%◌, ◌<◌, ◌≤◌, ◌++◌, length, replicate, slice_index_or};

use crate::object::Object;
use capnp_frame::Result;
use capnp_layout::pointer_word::{BYTE_LIST, list_word};
use capnp_wire::text;
use capnp_wire::traits::SetterInput;

/// A text, as an object that writes all its words.
///
/// Speed: before the bytes are put its last word alone is made zero, where for other values it is
/// the whole block (`tools/time building built`, `table` and `texts`).
#[derive(Drop)]
pub(crate) struct TextObject<'a> {
    text: &'a str,
}

impl<'a> TextObject<'a> {
    /// The object of a text.
    pub(crate) fn new(text: &'a str) -> TextObject<'a>
        ensures { result.text.now ≡ text.now }
    {
        TextObject { text }
    }
}

impl<'a> Object for TextObject<'a> {
    ghost use Rattle.std.specs.Prelude.{false, true};
    ghost use Rattle.capnp_wire.specs.Values.{HasWords, WordsError, IsTextTree, LongText};
    ghost use Rattle.capnp_orphans.specs.Holds.{HoldsValue};

    ghost holds = { λ object old new word. HoldsValue (IsTextTree object.text.now) new word };

    ghost takes = { λ object words. HasWords (IsTextTree object.text.now) false words };

    ghost fails = { λ object kind.
        WordsError (IsTextTree object.text.now) (LongText object.text.now) false kind };

    ghost wants_zeros = { λ object. false };

    #[inline(always)]
    fn measure(&self) -> Result<u32> {
        SetterInput::<text::Owned>::measure(&self.text, false)
    }

    #[inline(always)]
    fn wants_zeros(&self) -> bool {
        false
    }

    #[inline(always)]
    fn write(&self, start: u32, block: &mut [u8]) -> u64 {
        let bytes = self.text.as_bytes();
        put_text(bytes, block);
        list_word(start as u64, BYTE_LIST, bytes.len() as u64 + 1)
    }
}

/// Puts the bytes of a text into a block of exactly its words, and zeros after them.
#[inline(always)]
pub(crate) fn put_text(bytes: &[u8], block: &mut [u8])
    requires whole { length block.old % 8 ≡ 0 }
    requires room { length bytes.now < length block.old }
    requires last { length block.old ≤ length bytes.now + 8 }
    ensures put { block.new ≡ bytes.now ++ replicate (length block.old - length bytes.now) 0 }
    ensures bytes { (i : ℕ) → slice_index_or bytes.now i 0 < 256 }
{
    let last = block.len() - 8;
    block[last..].fill(0);
    block[..bytes.len()].copy_from_slice(bytes);
}
