//! Structs before they are written.
ghost use Rattle.std.specs.Prelude.{◌≡◌, ◌+◌, ◌*◌, ◌/◌, ◌%◌, ◌^◌, ◌<◌, ◌≤◌, ◌↔◌, ◌≢◌, IsTrue, bit_xor, replicate, slice_set, slice_index_or};
ghost use Rattle.capnp_layout.specs.Prelude.{width};
ghost use Rattle.capnp_wire.specs.Prelude.{field};
ghost use Rattle.capnp_values.specs.DataSections.{with_field};

pub(crate) mod writing;

use crate::orphan::Orphan;
use capnp_values::{put_field, words_fit};
use capnp_wire::primitive_element::PrimitiveElement;
use std::marker::PhantomData;

/// A struct of a schema's type that is not written yet, of `D` data words and `P` pointers
/// (encoding document, "Structs").
///
/// It may be written more than once. Then each struct that is written has pointers to the orphans
/// that the draft has adopted.
///
/// ```
/// let mut phone = StructDraft::<any_struct::Owned, 1, 1>::new();
/// phone.set_data_field::<u16>(0, 1);
/// phone.adopt(0, objects.text("555-1212")?);
/// let phones = objects.struct_list(&[phone])?;
/// ```
#[derive_where(Clone, Copy)]
pub struct StructDraft<T, const D: usize, const P: usize> {
    /// The words of its data section.
    pub words: [u64; D],

    /// The words of the orphans that it has adopted, 0 for null. A word that no call returned does
    /// no more harm than an orphan of another orphanage.
    pub pointers: [u64; P],

    /// Its type in a schema.
    pub schema: PhantomData<T>,
}

impl<T, const D: usize, const P: usize> StructDraft<T, D, P> {
    /// A struct of zeros and null pointers.
    #[inline(always)]
    pub fn new() -> StructDraft<T, D, P>
        ensures words { result.words ≡ replicate D 0 }
        ensures pointers { result.pointers ≡ replicate P 0 }
    {
        StructDraft {
            words: [0; D],
            pointers: [0; P],
            schema: PhantomData,
        }
    }

    /// A struct of these data words that has adopted the orphans with these words.
    #[inline(always)]
    pub(crate) fn of_words(words: [u64; D], pointers: [u64; P]) -> StructDraft<T, D, P>
        ensures words { result.words ≡ words.entry }
        ensures pointers { result.pointers ≡ pointers.entry }
    {
        StructDraft {
            words,
            pointers,
            schema: PhantomData,
        }
    }

    /// Sets a field of the data section, at an offset in units of the field's own width.
    #[inline(always)]
    pub fn set_data_field<N: PrimitiveElement>(&mut self, offset: u32, value: N)
        requires { width N.code * (offset + 1) ≤ 64 * D }
        ensures words { self.new.words
            ≡ with_field self.old.words (width N.code) offset (N.bits_of value) }
        ensures pointers { self.new.pointers ≡ self.old.pointers }
    {
        put_field(&mut self.words, N::size().bits(), offset, value.to_bits());
    }

    /// Sets a field that has a default, at an offset in units of the field's own width. The data
    /// section gets the bits of the number XORed with the bits of the default (encoding document,
    /// "Default Values").
    #[tactic(auto, using(std::proofs::lemmas::Nat::xor_lt))]
    #[inline(always)]
    pub fn set_data_field_mask<N: PrimitiveElement>(&mut self, offset: u32, value: N, default: N)
        requires { width N.code * (offset + 1) ≤ 64 * D }
        ensures words { self.new.words ≡ with_field self.old.words (width N.code) offset
            (bit_xor (N.bits_of value) (N.bits_of default)) }
        ensures pointers { self.new.pointers ≡ self.old.pointers }
    {
        let bits = value.to_bits() ^ default.to_bits();
        put_field(&mut self.words, N::size().bits(), offset, bits);
    }

    /// A field of the data section, at an offset in units of its own width; zero past the end of
    /// the section.
    #[inline(always)]
    pub fn get_data_field<N: PrimitiveElement>(&self, offset: u32) -> N
        ensures { result ≡ N.value_of (field self.now.words (width N.code) offset) }
    {
        N::from_bits(field_bits(&self.words, N::size().bits(), offset))
    }

    /// A field that has a default, at an offset in units of its own width; the default past the end
    /// of the section.
    #[tactic(auto, using(std::proofs::lemmas::Nat::xor_lt))]
    #[inline(always)]
    pub fn get_data_field_mask<N: PrimitiveElement>(&self, offset: u32, default: N) -> N
        ensures { result ≡ N.value_of (bit_xor (field self.now.words (width N.code) offset)
            (N.bits_of default)) }
    {
        let default_bits = default.to_bits();
        N::from_bits(field_bits(&self.words, N::size().bits(), offset) ^ default_bits)
    }

    /// Whether the pointer at this index is not null. Past the last one it is null.
    #[inline(always)]
    pub fn has_pointer(&self, index: usize) -> bool
        ensures { IsTrue result ↔ (slice_index_or self.now.pointers index 0 ≢ 0) }
    {
        word_at(&self.pointers, index as u64) != 0
    }

    /// Makes the pointer at this index point to an orphan, or null.
    #[inline(always)]
    pub fn adopt<U>(&mut self, index: usize, orphan: Orphan<U>)
        requires { index < P }
        ensures words { self.new.words ≡ self.old.words }
        ensures pointers { self.new.pointers ≡ slice_set self.old.pointers index orphan.word }
    {
        self.pointers[index] = orphan.word;
    }

    /// Makes the pointer at this index null.
    #[inline(always)]
    pub fn clear_pointer(&mut self, index: usize)
        requires { index < P }
        ensures words { self.new.words ≡ self.old.words }
        ensures pointers { self.new.pointers ≡ slice_set self.old.pointers index 0 }
    {
        self.pointers[index] = 0;
    }
}

// The bits of a field; zero where the words end before it.
#[inline(always)]
fn field_bits(words: &[u64], width: u64, offset: u32) -> u64
    requires few { width ≤ 64 }
    requires one_word { width + width * offset % 64 ≤ 64 }
    ensures bits { result ≡ field words.now width offset }
    ensures below { result < 2 ^ width }
{
    // For the prover: each word is below 2^64.
    words_fit(words);
    let start = width * offset as u64;
    in_word(word_at(words, start / 64), width, start % 64)
}

// `width` bits of a word, from the bit `start` on.
#[inline(always)]
fn in_word(word: u64, bits: u64, start: u64) -> u64
    requires within { bits + start ≤ 64 }
    requires from { start < 64 }
    ensures bits { result ≡ word / 2 ^ start % 2 ^ bits }
    ensures below { result < 2 ^ bits }
{
    let low = word >> start;
    if bits == 64 {
        return low;
    }
    low % (1 << bits)
}

// A word, or 0 past the last one.
#[inline(always)]
fn word_at(words: &[u64], index: u64) -> u64
    ensures { result ≡ slice_index_or words.now index 0 }
{
    if index < words.len() as u64 {
        words[index as usize]
    } else {
        0
    }
}
