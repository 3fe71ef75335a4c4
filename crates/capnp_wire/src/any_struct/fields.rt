//! Fields of structs by their width (encoding document, "Structs").
ghost use Rattle.std.specs.Prelude.{◌≡◌, ◌↔◌, ◌^◌, ◌<◌, length, bit_xor, IsTrue, Ok};
ghost use Rattle.capnp_layout.specs.Prelude.{code_of, width, nothing};
ghost use Rattle.capnp_wire.specs.Fields.{field};
ghost use Rattle.capnp_wire.specs.Readers.{struct_of};
ghost use Rattle.capnp_wire.specs.Views.{Denotes, IsViewOf, pointer_in};

use crate::any_struct::StructReader;
use crate::primitive_element::PrimitiveElement;
use crate::traits::FromPointerReader;
use capnp_frame::Result;
use capnp_frame::message::ReaderSegments;
use capnp_layout::element_size::ElementSize;
use capnp_layout::object::words_fit;

impl<'a, S: ReaderSegments> StructReader<'a, S> {
    /// A field of the data section, at an offset in units of its own width. Its bits are zero where
    /// the section ends before it.
    pub fn get_data_field<T: PrimitiveElement>(&self, offset: u32) -> T
        ensures { result ≡ T.value_of
            (field (struct_of S.segments self.now).words (width T.code) offset) }
    {
        T::from_bits(self.field_bits(T::size(), offset))
    }

    /// A field that has a default, at an offset in units of its own width. The data section has the
    /// bits of the value XORed with the bits of the default. Where the section ends before the
    /// field, the default is returned.
    pub fn get_data_field_mask<T: PrimitiveElement>(&self, offset: u32, default: T) -> T
        ensures { result ≡ T.value_of (bit_xor
            (field (struct_of S.segments self.now).words (width T.code) offset)
            (T.bits_of default)) }
    {
        let default_bits = default.to_bits();
        T::from_bits(self.field_bits(T::size(), offset) ^ default_bits)
    }

    /// Whether the struct has a pointer of this index that isn't null.
    pub fn has_pointer(&self, index: u16) -> bool
        ensures { IsTrue result
            ↔ (Denotes (pointer_in (struct_of S.segments self.now) index) nothing → ⊥) }
    {
        !self.get_pointer(index).is_null()
    }

    /// The view of what a pointer points to, or the default where the pointer is null.
    ///
    /// Where the pointer isn't null, this fails as `any_pointer::Reader::get_as` does.
    pub fn get_pointer_or<T: FromPointerReader<'a, S> + Drop>(
        &self,
        index: u16,
        default: T,
    ) -> Result<T>
        ensures null { Denotes (pointer_in (struct_of S.segments self.now) index) nothing →
            result ≡ Ok default }
        ensures view { let pointer = pointer_in (struct_of S.segments self.now) index in
            (Denotes pointer nothing → ⊥) → IsViewOf pointer (T.shows pointer)
            (T.accepts pointer) (T.fails pointer) (T.form_error pointer) result }
    {
        if !self.has_pointer(index) {
            return Ok(default);
        }
        T::get_from_pointer(self.get_pointer(index))
    }

    // The bits of a field of this size.
    fn field_bits(&self, size: ElementSize, offset: u32) -> u64
        ensures bits { result
            ≡ field (struct_of S.segments self.now).words (width (code_of size)) offset }
        ensures few { result < 2 ^ width (code_of size) }
    {
        // For the prover: each word is below 2^64, and so is the number of bytes.
        words_fit(self.segment);
        size.in_word(self.data_word(size.word_of(offset)), offset)
    }
}
