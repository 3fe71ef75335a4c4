//! Unsigned numbers.
use super::PrimitiveElement;
use capnp_layout::element_size::ElementSize;

impl PrimitiveElement for u8 {
    ghost code = { 2 };

    ghost value_of = { λ bits. bits };

    ghost bits_of = { λ number. number };

    fn size() -> ElementSize {
        ElementSize::Byte
    }

    fn from_bits(bits: u64) -> u8 {
        bits as u8
    }

    fn to_bits(self) -> u64 {
        self as u64
    }
}

impl PrimitiveElement for u16 {
    ghost code = { 3 };

    ghost value_of = { λ bits. bits };

    ghost bits_of = { λ number. number };

    fn size() -> ElementSize {
        ElementSize::TwoBytes
    }

    fn from_bits(bits: u64) -> u16 {
        bits as u16
    }

    fn to_bits(self) -> u64 {
        self as u64
    }
}

impl PrimitiveElement for u32 {
    ghost code = { 4 };

    ghost value_of = { λ bits. bits };

    ghost bits_of = { λ number. number };

    fn size() -> ElementSize {
        ElementSize::FourBytes
    }

    fn from_bits(bits: u64) -> u32 {
        bits as u32
    }

    fn to_bits(self) -> u64 {
        self as u64
    }
}

impl PrimitiveElement for u64 {
    ghost code = { 5 };

    ghost value_of = { λ bits. bits };

    ghost bits_of = { λ number. number };

    fn size() -> ElementSize {
        ElementSize::EightBytes
    }

    fn from_bits(bits: u64) -> u64 {
        bits
    }

    fn to_bits(self) -> u64 {
        self
    }
}
