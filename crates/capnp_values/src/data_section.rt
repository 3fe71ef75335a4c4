//! The data sections of structs as values, and their fields (encoding document, "Structs").
ghost use Rattle.std.specs.Prelude.{◌≡◌, ◌+◌, ◌*◌, ◌/◌, ◌%◌, ◌^◌, ◌<◌, ◌≤◌, bit_xor, length};
ghost use Rattle.capnp_layout.specs.Prelude.{width};
ghost use Rattle.capnp_values.specs.DataSections.{with_bits, with_field};

use crate::sections::words_fit;
use crate::struct_value::StructValue;
use capnp_wire::primitive_element::PrimitiveElement;

impl<const D: usize, F> StructValue<D, F> {
    /// The struct with this number in a field of its data section, at an offset in units of the
    /// field's own width.
    #[inline(always)]
    pub fn with_data_field<T: PrimitiveElement>(self, offset: u32, value: T) -> StructValue<D, F>
        requires { width T.code * (offset + 1) ≤ 64 * D }
        ensures words { result.words
            ≡ with_field self.words (width T.code) offset (T.bits_of value) }
        ensures fields { result.fields ≡ self.fields }
    {
        let StructValue { mut words, fields } = self;
        put_field(&mut words, T::size().bits(), offset, value.to_bits());
        StructValue { words, fields }
    }

    /// The struct with this number in a field that has a default, at an offset in units of the
    /// field's own width. The data section gets the bits of the number XORed with the bits of the
    /// default.
    #[tactic(auto, using(std::proofs::lemmas::Nat::xor_lt))]
    #[inline(always)]
    pub fn with_data_field_mask<T: PrimitiveElement>(
        self,
        offset: u32,
        value: T,
        default: T,
    ) -> StructValue<D, F>
        requires { width T.code * (offset + 1) ≤ 64 * D }
        ensures words { result.words ≡ with_field self.words (width T.code) offset
            (bit_xor (T.bits_of value) (T.bits_of default)) }
        ensures fields { result.fields ≡ self.fields }
    {
        let StructValue { mut words, fields } = self;
        let bits = value.to_bits() ^ default.to_bits();
        put_field(&mut words, T::size().bits(), offset, bits);
        StructValue { words, fields }
    }
}

/// Puts bits into a field of this width, which lies within one word.
///
/// Speed: where the offset is known, inlining leaves a few instructions.
///
/// ```
/// let mut words = [0; 2];
/// put_field(&mut words, 16, 5, 7);
/// assert_eq!(rt; words, [0, 0x70000]);
/// ```
#[inline(always)]
pub fn put_field(words: &mut [u64], width: u64, offset: u32, bits: u64)
    requires within { width * (offset + 1) ≤ 64 * length words.old }
    requires one_word { width + width * offset % 64 ≤ 64 }
    requires few { bits < 2 ^ width }
    ensures { words.new ≡ with_field words.old width offset bits }
{
    // For the prover: each data word is below 2^64.
    words_fit(words);
    if width > 0 {
        let start = width * offset as u64;
        let index = (start / 64) as usize;
        words[index] = put_bits(words[index], start % 64, width, bits);
    }
}

// A word with `width` of its bits replaced, from the bit `start` on.
#[inline(always)]
fn put_bits(word: u64, start: u64, width: u64, bits: u64) -> u64
    requires some { 0 < width }
    requires within { width + start ≤ 64 }
    requires few { bits < 2 ^ width }
    ensures { result ≡ with_bits word start width bits }
{
    if width == 64 {
        return bits;
    }
    let old = (word >> start) % (1 << width);
    word - (old << start) + (bits << start)
}
