//! Numbers and bools, as they are in the data sections of structs and in lists (encoding document,
//! "Structs" and "Lists").
ghost use Rattle.std.specs.Prelude.{◌≡◌, ◌^◌, ◌<◌, ℕ};
ghost use Rattle.capnp_layout.specs.Prelude.{code_of, width};

mod signed;
mod unsigned;

use capnp_layout::element_size::ElementSize;
use std::num::{
    f32_from_bits_with_nan, f32_to_bits_with_nan, f64_from_bits_with_nan, f64_to_bits_with_nan,
};

/// A number or a bool, with its size and the meaning of its bits. An enum is read as `u16`.
///
/// ```
/// assert_eq!(rt; i8::size().bits(), 8);
/// assert_eq!(rt; i8::from_bits(0xff), -1);
/// assert_eq!(rt; true.to_bits(), 1);
/// ```
pub trait PrimitiveElement: Sized {
    /// The element code of lists of them.
    ghost code: { ℕ };

    /// The value of these bits, as many as elements of this code have.
    ghost value_of: { ℕ → Self };

    /// The bits of a value, as a number.
    ghost bits_of: { Self → ℕ };

    /// How many bits each has.
    fn size() -> ElementSize
        ensures { code_of result ≡ code };

    /// The value of some bits, the lowest first.
    fn from_bits(bits: u64) -> Self
        requires { bits < 2 ^ width code }
        ensures { result ≡ value_of bits };

    /// The bits of a value.
    fn to_bits(self) -> u64
        ensures bits { result ≡ bits_of self }
        ensures few { result < 2 ^ width code };
}

// `()` is `Void`, which has no bits.
impl PrimitiveElement for () {
    ghost code = { 0 };

    ghost value_of = { λ bits. tt };

    ghost bits_of = { λ nothing. 0 };

    fn size() -> ElementSize {
        ElementSize::Void
    }

    fn from_bits(_bits: u64) -> () {}

    fn to_bits(self) -> u64 {
        0
    }
}

// False is 0, true is 1.
impl PrimitiveElement for bool {
    ghost use Rattle.std.specs.Prelude.{◌==◌, if◌then◌else◌};

    ghost code = { 1 };

    ghost value_of = { λ bits. bits == 1 };

    ghost bits_of = { λ is. if is then 1 else 0 };

    fn size() -> ElementSize {
        ElementSize::Bit
    }

    fn from_bits(bits: u64) -> bool {
        bits == 1
    }

    fn to_bits(self) -> u64 {
        if self { 1 } else { 0 }
    }
}

// The formats binary32 and binary64. All bit patterns of a NaN are read as one NaN.
impl PrimitiveElement for f32 {
    ghost use Rattle.std.specs.Prelude.{to_bits, from_bits};
    ghost use Rattle.std.specs.Float.{binary32};

    ghost code = { 4 };

    ghost value_of = { λ bits. from_bits binary32 bits };

    ghost bits_of = { λ number. to_bits binary32 number };

    fn size() -> ElementSize {
        ElementSize::FourBytes
    }

    fn from_bits(bits: u64) -> f32 {
        f32_from_bits_with_nan(bits as u32)
    }

    fn to_bits(self) -> u64 {
        f32_to_bits_with_nan(self) as u64
    }
}

impl PrimitiveElement for f64 {
    ghost use Rattle.std.specs.Prelude.{to_bits, from_bits};
    ghost use Rattle.std.specs.Float.{binary64};

    ghost code = { 5 };

    ghost value_of = { λ bits. from_bits binary64 bits };

    ghost bits_of = { λ number. to_bits binary64 number };

    fn size() -> ElementSize {
        ElementSize::EightBytes
    }

    fn from_bits(bits: u64) -> f64 {
        f64_from_bits_with_nan(bits)
    }

    fn to_bits(self) -> u64 {
        f64_to_bits_with_nan(self)
    }
}
