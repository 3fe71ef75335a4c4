//! Numbers, bools and enums of the data section.
use crate::code::Holes;
use crate::schema::{Base, Place, Value};
use crate::templates::FLOAT_BODY;
use std::alloc::{AllocError, Global};
use std::num::{f32_from_bits_with_nan, f64_from_bits_with_nan};

/// A number or a bool of the data section.
#[derive(Clone, Copy)]
pub struct Number {
    /// Its type in Rattle.
    pub type_name: &'static str,
    /// The number of its bits.
    pub width: u32,
    /// The code of lists of it (encoding document, "Lists").
    pub code: u32,
    pub kind: NumberKind,
}

/// The value of the bits of a number.
#[derive(Clone, Copy, PartialEq, Eq)]
pub enum NumberKind {
    Bool,
    Unsigned,
    Signed,
    Float,
}

/// The number type that a type has; an enum is a `u16`. `None` for other types.
pub fn number_of(base: Base) -> Option<Number> {
    let (type_name, width, code, kind) = match base {
        Base::Bool => ("bool", 1, 1, NumberKind::Bool),
        Base::Int8 => ("i8", 8, 2, NumberKind::Signed),
        Base::Int16 => ("i16", 16, 3, NumberKind::Signed),
        Base::Int32 => ("i32", 32, 4, NumberKind::Signed),
        Base::Int64 => ("i64", 64, 5, NumberKind::Signed),
        Base::Uint8 => ("u8", 8, 2, NumberKind::Unsigned),
        Base::Uint16 | Base::Enum(_) => ("u16", 16, 3, NumberKind::Unsigned),
        Base::Uint32 => ("u32", 32, 4, NumberKind::Unsigned),
        Base::Uint64 => ("u64", 64, 5, NumberKind::Unsigned),
        Base::Float32 => ("f32", 32, 4, NumberKind::Float),
        Base::Float64 => ("f64", 64, 5, NumberKind::Float),
        _ => return None,
    };
    Some(Number {
        type_name,
        width,
        code,
        kind,
    })
}

/// A number, a bool or an enum of the data section: at an offset in units of its own width, with
/// the bits of its default.
#[derive(Clone, Copy)]
pub struct Stored {
    /// Its type in the schema.
    pub base: Base,
    pub number: Number,
    pub offset: u32,
    pub default: u64,
}

impl Stored {
    /// What is at a place, if its type is a number, a bool or an enum.
    pub fn at_place(place: &Place) -> Option<Stored> {
        let base = place.of.base;
        match number_of(base) {
            Some(number) if place.of.lists == 0 => Some(Stored {
                base,
                number,
                offset: place.offset,
                default: match &place.default {
                    Value::Bits(bits) => *bits,
                    _ => 0,
                },
            }),
            _ => None,
        }
    }

    /// What a clause says of its value: the value of its bits, XORed with the bits of the default.
    pub fn clause(&self, alloc: Global) -> Result<String, AllocError> {
        let (width, offset, default) = (self.number.width, self.offset, self.default);
        let is_whole = matches!(self.number.kind, NumberKind::Unsigned | NumberKind::Bool);
        let bits = if default != 0 {
            format!(in alloc; "($bit_xor ($field fields.words {width} {offset}) {default})")?
        } else if is_whole {
            format!(in alloc; "$field fields.words {width} {offset}")?
        } else {
            format!(in alloc; "($field fields.words {width} {offset})")?
        };
        match self.number.kind {
            NumberKind::Bool => format!(in alloc; "({bits} $== 1)"),
            NumberKind::Unsigned => Ok(bits),
            NumberKind::Signed => format!(in alloc; "$cast_signed $w{width} {bits}"),
            NumberKind::Float => format!(in alloc; "$from_bits $binary{width} {bits}"),
        }
    }

    /// The code that reads it.
    pub fn call(&self, alloc: Global) -> Result<String, AllocError> {
        let offset = self.offset;
        if self.default == 0 {
            return format!(in alloc; "self.fields.get_data_field({offset})");
        }
        if self.number.kind == NumberKind::Float {
            return self.float_call(alloc);
        }
        let default = literal(alloc, self.number, self.default)?;
        format!(in alloc; "self.fields.get_data_field_mask({offset}, {default})")
    }

    // The code that reads a float that has a default, by its bits, since a default may be a NaN.
    fn float_call(&self, alloc: Global) -> Result<String, AllocError> {
        let (bits, all) = if self.number.width == 32 {
            ("u32", "bits as u64")
        } else {
            ("u64", "bits")
        };
        let holes = Holes::new(alloc)
            .with("bits", bits)
            .number("offset", self.offset)
            .number("default", self.default)
            .with("all", all);
        holes.fill(FLOAT_BODY)
    }
}

/// A number as it is written in code, by its bits.
pub fn literal(alloc: Global, number: Number, bits: u64) -> Result<String, AllocError> {
    match number.kind {
        NumberKind::Bool => String::from_str(alloc, if bits == 0 { "false" } else { "true" }),
        NumberKind::Signed => {
            let value = signed(number.width, bits);
            format!(in alloc; "{value}")
        }
        NumberKind::Unsigned => format!(in alloc; "{bits}"),
        NumberKind::Float => float_literal(alloc, number, bits),
    }
}

// A number with a sign, by its bits, which are as many as its width says.
fn signed(width: u32, bits: u64) -> i64 {
    match width {
        8 => ((bits % 256) as u8).cast_signed() as i64,
        16 => ((bits % 65536) as u16).cast_signed() as i64,
        32 => ((bits % 4294967296) as u32).cast_signed() as i64,
        _ => bits.cast_signed(),
    }
}

// A float, by its bits.
fn float_literal(alloc: Global, number: Number, bits: u64) -> Result<String, AllocError> {
    let type_name = number.type_name;
    let value = if number.width == 32 {
        f64::from(f32_from_bits_with_nan((bits % 4294967296) as u32))
    } else {
        f64_from_bits_with_nan(bits)
    };
    if value.is_nan() {
        return format!(in alloc; "{type_name}::NAN");
    }
    if value.is_infinite() {
        let sign = if value < 0.0 { "NEG_" } else { "" };
        return format!(in alloc; "{type_name}::{sign}INFINITY");
    }
    if number.width == 32 {
        let value = f32_from_bits_with_nan((bits % 4294967296) as u32);
        return format!(in alloc; "{value:?}");
    }
    format!(in alloc; "{value:?}")
}
