//! Signed numbers, in two's complement.
ghost use Rattle.std.specs.Int.{w8, w16, w32, w64, cast_signed, cast_unsigned};

use super::PrimitiveElement;
use capnp_layout::element_size::ElementSize;

impl PrimitiveElement for i8 {
    ghost code = { 2 };

    ghost value_of = { λ bits. cast_signed w8 bits };

    ghost bits_of = { λ number. cast_unsigned w8 number };

    fn size() -> ElementSize {
        ElementSize::Byte
    }

    fn from_bits(bits: u64) -> i8 {
        (bits as u8).cast_signed()
    }

    fn to_bits(self) -> u64 {
        self.cast_unsigned() as u64
    }
}

impl PrimitiveElement for i16 {
    ghost code = { 3 };

    ghost value_of = { λ bits. cast_signed w16 bits };

    ghost bits_of = { λ number. cast_unsigned w16 number };

    fn size() -> ElementSize {
        ElementSize::TwoBytes
    }

    fn from_bits(bits: u64) -> i16 {
        (bits as u16).cast_signed()
    }

    fn to_bits(self) -> u64 {
        self.cast_unsigned() as u64
    }
}

impl PrimitiveElement for i32 {
    ghost code = { 4 };

    ghost value_of = { λ bits. cast_signed w32 bits };

    ghost bits_of = { λ number. cast_unsigned w32 number };

    fn size() -> ElementSize {
        ElementSize::FourBytes
    }

    fn from_bits(bits: u64) -> i32 {
        (bits as u32).cast_signed()
    }

    fn to_bits(self) -> u64 {
        self.cast_unsigned() as u64
    }
}

impl PrimitiveElement for i64 {
    ghost code = { 5 };

    ghost value_of = { λ bits. cast_signed w64 bits };

    ghost bits_of = { λ number. cast_unsigned w64 number };

    fn size() -> ElementSize {
        ElementSize::EightBytes
    }

    fn from_bits(bits: u64) -> i64 {
        bits.cast_signed()
    }

    fn to_bits(self) -> u64 {
        self.cast_unsigned()
    }
}
