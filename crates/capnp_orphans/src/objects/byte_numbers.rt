//! Lists of numbers that are given as the bytes that they have in a message.
ghost use Rattle.std.specs.Prelude.{◌≡◌, ◌+◌, ◌-◌, ◌*◌, ◌/◌, ◌%◌, ◌≤◌, ◌<◌, ◌^◌, ◌++◌, All, length, min, replicate, MatchOption, MatchResult};
ghost use Rattle.capnp_frame.specs.declared.error.ErrorKind.TheVariants.{AllocationTooLarge};
ghost use Rattle.capnp_layout.specs.Prelude.{number_of, digits, words_of, code_of, width, words_for};
ghost use Rattle.capnp_orphans.specs.Sized.{FillBytes};

use crate::object::Object;
use capnp_frame::Result;
use capnp_layout::element_size::ElementSize;
use capnp_layout::limits::{MAX_ELEMENTS, allocation_too_large};
use capnp_layout::pointer_word::list_word;

/// A list of numbers (encoding document, "Lists"), given as bytes: each number little endian, one
/// after the other. What is left of the last byte does not matter.
///
/// ```
/// let numbers = ByteNumbers::new(&[1, 0, 2, 0], 2, ElementSize::TwoBytes);
/// assert!(rt; numbers.is_some());
/// ```
#[derive(Drop)]
pub struct ByteNumbers<'a> {
    bytes: &'a [u8],
    count: usize,
    size: ElementSize,
    ghost full: { FillBytes (code_of size) count bytes.now },
}

impl<'a> ByteNumbers<'a> {
    /// The list of `count` numbers of this size, whose bytes are `bytes`.
    ///
    /// Returns `None` where `count` numbers of this size do not take exactly as many bytes. A list of
    /// bits may use its last byte in part.
    pub fn new(bytes: &'a [u8], count: usize, size: ElementSize) -> Option<ByteNumbers<'a>>
        ensures { MatchOption result (FillBytes (code_of size) count bytes.now → ⊥)
            (λ list. FillBytes (code_of size) count bytes.now × (list.bytes.now ≡ bytes.now)
            × (list.count ≡ count) × (list.size ≡ size)) }
    {
        let bits = count as u128 * size.bits() as u128;
        let room = 8 * bytes.len() as u128;
        if bits > room || room >= bits + 8 {
            return None;
        }
        Some(ByteNumbers { bytes, count, size })
    }
}

// Fails for 2^29 numbers or more with `AllocationTooLarge` of their count.
impl<'a> Object for ByteNumbers<'a> {
    ghost use Rattle.std.specs.Prelude.{false};
    ghost use Rattle.capnp_wire.specs.Values.{HasWords, WordsError};
    ghost use Rattle.capnp_values.specs.NumberLists.{IsNumberList, ManyNumbers};
    ghost use Rattle.capnp_orphans.specs.Holds.{HoldsValue};
    ghost use Rattle.capnp_orphans.specs.Sized.{numbers_in_bytes};

    ghost holds = { λ list old new word. HoldsValue (IsNumberList (code_of list.size)
        (numbers_in_bytes (code_of list.size) list.count list.bytes.now)) new word };

    ghost takes = { λ list words. HasWords (IsNumberList (code_of list.size)
        (numbers_in_bytes (code_of list.size) list.count list.bytes.now)) false words };

    ghost fails = { λ list kind. ManyNumbers list.count kind };

    ghost wants_zeros = { λ object. false };

    fn measure(&self) -> Result<u32> {
        words_of_numbers(self.size, self.count)
    }

    #[inline(always)]
    fn wants_zeros(&self) -> bool {
        false
    }

    fn write(&self, start: u32, block: &mut [u8]) -> u64 {
        let count = self.count as u32;
        let bits = self.size.bits_of_list(count);
        put_bits(self.bytes, bits, block);
        list_word(start as u64, self.size.code(), count as u64)
    }
}

// The number of words of a list of as many numbers.
fn words_of_numbers(size: ElementSize, count: usize) -> Result<u32>
    ensures { MatchResult result
        (λ words. (count < 2 ^ 29) × (words ≡ words_for count (width (code_of size))))
        (λ error. (2 ^ 29 ≤ count) × (error.kind ≡ AllocationTooLarge (min count (2 ^ 32 - 1)))) }
{
    if count > MAX_ELEMENTS as usize {
        return Err(allocation_too_large(count as u64));
    }
    Ok(size.words_of_list(count as u32) as u32)
}

// Puts the first bits of these bytes into a block of whole words, and zeros after them.
fn put_bits(bytes: &[u8], bits: u64, block: &mut [u8])
    requires full { bits ≤ 8 * length bytes.now }
    requires last { 8 * length bytes.now < bits + 8 }
    requires whole { length block.old % 8 ≡ 0 }
    requires room { length bytes.now ≤ length block.old }
    ensures words { words_of block.new
        ≡ digits (2 ^ 64) (length block.old / 8) (number_of 256 bytes.now % 2 ^ bits) }
    ensures len { length block.new ≡ length block.old }
{
    put_padded(bytes, block);
    let kept = bits % 8;
    if kept == 0 {
        return;
    }
    let last = bytes.len() - 1;
    let byte = bytes[last];
    block[last] = low_bits(byte, kept);
}

// The lowest bits of a byte.
fn low_bits(byte: u8, kept: u64) -> u8
    requires { kept < 8 }
    ensures { result ≡ byte % 2 ^ kept }
{
    byte % (1 << kept)
}

// Puts bytes into a block, and zeros after them.
fn put_padded(bytes: &[u8], block: &mut [u8])
    requires { length bytes.now ≤ length block.old }
    ensures put { block.new ≡ bytes.now ++ replicate (length block.old - length bytes.now) 0 }
    ensures bytes { All (λ byte. byte < 2 ^ 8) bytes.now }
{
    let len = bytes.len();
    block[..len].copy_from_slice(bytes);
    block[len..].fill(0);
}
