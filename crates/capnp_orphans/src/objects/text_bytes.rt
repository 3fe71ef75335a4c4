//! Texts that are given as bytes.
ghost use Rattle.std.specs.Prelude.{◌≡◌, ◌+◌, ◌-◌, ◌≤◌, ◌<◌, ◌^◌, All, length, min, MatchResult};
ghost use Rattle.capnp_frame.specs.declared.error.ErrorKind.TheVariants.{AllocationTooLarge};
ghost use Rattle.capnp_layout.specs.Prelude.{words_for};

use crate::object::Object;
use crate::text_object::put_text;
use capnp_frame::Result;
use capnp_layout::limits::{MAX_ELEMENTS, allocation_too_large};
use capnp_layout::pointer_word::{BYTE_LIST, list_word};

/// A `Text` of these bytes, with a zero byte at its end (encoding document, "Blobs"). A text is to be
/// UTF-8, which is not tested.
///
/// ```
/// let mut region = [7; 16];
/// let object = TextBytes::new(b"hi");
/// let words = object.measure()?;
/// continued::begin(&mut region);
/// let orphan = continued::append(&mut region, 8, words, &object);
/// continued::set_root(&mut region, 16, orphan);
/// assert_eq!(rt; &region[..3], [1, 0, 0].as_slice());
/// assert_eq!(rt; &region[8..11], b"hi\0".as_slice());
/// ```
#[derive(Drop)]
pub struct TextBytes<'a> {
    bytes: &'a [u8],
}

impl<'a> TextBytes<'a> {
    /// The text of these bytes.
    pub fn new(bytes: &'a [u8]) -> TextBytes<'a>
        ensures { result.bytes.now ≡ bytes.now }
    {
        TextBytes { bytes }
    }
}

impl<'a> Object for TextBytes<'a> {
    ghost use Rattle.std.specs.Prelude.{false};
    ghost use Rattle.capnp_wire.specs.Values.{HasWords, WordsError, IsTextTree, LongText};
    ghost use Rattle.capnp_orphans.specs.Holds.{HoldsValue};

    ghost holds = { λ object old new word. HoldsValue (IsTextTree object.bytes.now) new word };

    ghost takes = { λ object words. HasWords (IsTextTree object.bytes.now) false words };

    ghost fails = { λ object kind.
        WordsError (IsTextTree object.bytes.now) (LongText object.bytes.now) false kind };

    ghost wants_zeros = { λ object. false };

    fn measure(&self) -> Result<u32> {
        words_of_text(self.bytes)
    }

    #[inline(always)]
    fn wants_zeros(&self) -> bool {
        false
    }

    fn write(&self, start: u32, block: &mut [u8]) -> u64 {
        put_text(self.bytes, block);
        list_word(start as u64, BYTE_LIST, self.bytes.len() as u64 + 1)
    }
}

// The number of words of a text, with the zero byte at its end.
fn words_of_text(bytes: &[u8]) -> Result<u32>
    ensures words { MatchResult result
        (λ words. (length bytes.now + 1 < 2 ^ 29) × (words ≡ words_for (length bytes.now + 1) 8))
        (λ error. (2 ^ 29 ≤ length bytes.now + 1)
        × (error.kind ≡ AllocationTooLarge
        (min (words_for (length bytes.now + 1) 8) (2 ^ 32 - 1)))) }
    ensures bytes { All (λ byte. byte < 2 ^ 8) bytes.now }
{
    let words = bytes.len() as u64 / 8 + 1;
    if bytes.len() < MAX_ELEMENTS as usize {
        return Ok(words as u32);
    }
    Err(allocation_too_large(words))
}
