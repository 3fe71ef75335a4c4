//! Numbers, bools and enums in C.
use crate::numbers::{Number, NumberKind, Stored, literal};
use std::alloc::{AllocError, Global};

/// The type of a number.
pub fn number_type(number: Number) -> &'static str {
    match (number.kind, number.width) {
        (NumberKind::Bool, _) => "bool",
        (NumberKind::Unsigned, 8) => "uint8_t",
        (NumberKind::Unsigned, 16) => "uint16_t",
        (NumberKind::Unsigned, 32) => "uint32_t",
        (NumberKind::Unsigned, _) => "uint64_t",
        (NumberKind::Signed, 8) => "int8_t",
        (NumberKind::Signed, 16) => "int16_t",
        (NumberKind::Signed, 32) => "int32_t",
        (NumberKind::Signed, _) => "int64_t",
        (NumberKind::Float, 32) => "float",
        (NumberKind::Float, _) => "double",
    }
}

/// Where a number is read.
#[derive(Clone, Copy)]
pub struct Source {
    /// What the names of the calls begin with.
    pub calls: &'static str,
    /// The words that they take.
    pub words: &'static str,
}

/// What is read, as `read`.
pub const READ: Source = Source {
    calls: "linsjoar_get",
    words: "&read->fields",
};

/// What is built, as `draft`.
pub const DRAFT: Source = Source {
    calls: "linsjoar_draft",
    words: "draft->words",
};

/// The code that reads a number.
pub fn read_number(alloc: Global, source: Source, stored: &Stored) -> Result<String, AllocError> {
    let (calls, words, offset) = (source.calls, source.words, stored.offset);
    if stored.number.kind == NumberKind::Bool {
        let sign = if stored.default == 0 { "" } else { "!" };
        return format!(in alloc; "{sign}{calls}_bool({words}, {offset})");
    }
    let width = stored.number.width;
    let mask = mask_of(alloc, stored)?;
    let bits = format!(in alloc; "{calls}_u{width}({words}, {offset}){mask}")?;
    value_of(alloc, stored, bits)
}

// The bits of a default, with which a number is XORed; nothing where they are zero.
fn mask_of(alloc: Global, stored: &Stored) -> Result<String, AllocError> {
    let (width, default) = (stored.number.width, stored.default);
    if default == 0 {
        return Ok(String::new(alloc));
    }
    format!(in alloc; " ^ UINT{width}_C({default})")
}

// The code of a number by its bits.
fn value_of(alloc: Global, stored: &Stored, bits: String) -> Result<String, AllocError> {
    let type_name = number_type(stored.number);
    match stored.number.kind {
        NumberKind::Float if stored.number.width == 32 => {
            format!(in alloc; "linsjoar_float_of_bits({bits})")
        }
        NumberKind::Float => format!(in alloc; "linsjoar_double_of_bits({bits})"),
        _ if stored.default != 0 => format!(in alloc; "({type_name})({bits})"),
        NumberKind::Signed => format!(in alloc; "({type_name}){bits}"),
        _ => Ok(bits),
    }
}

/// The code that sets a number of `draft` to `value`.
pub fn set_number(alloc: Global, stored: &Stored) -> Result<String, AllocError> {
    let (offset, width) = (stored.offset, stored.number.width);
    if stored.number.kind == NumberKind::Bool {
        let sign = if stored.default == 0 { "" } else { "!" };
        return format!(in alloc; "linsjoar_set_bool(draft->words, {offset}, {sign}value);");
    }
    let bits = bits_of(alloc, stored)?;
    format!(in alloc; "linsjoar_set_u{width}(draft->words, {offset}, (uint{width}_t){bits});")
}

// The bits of `value`, XORed with the bits of the default.
fn bits_of(alloc: Global, stored: &Stored) -> Result<String, AllocError> {
    let width = stored.number.width;
    let bits = match stored.number.kind {
        NumberKind::Float if width == 32 => "linsjoar_bits_of_float(value)",
        NumberKind::Float => "linsjoar_bits_of_double(value)",
        _ => "value",
    };
    if stored.default == 0 {
        return String::from_str(alloc, bits);
    }
    let mask = mask_of(alloc, stored)?;
    format!(in alloc; "((uint{width}_t){bits}{mask})")
}

/// A number as it is written in C, by its bits.
pub fn number_literal(alloc: Global, number: Number, bits: u64) -> Result<String, AllocError> {
    let plain = literal(alloc, number, bits)?;
    match (number.kind, number.width) {
        (NumberKind::Unsigned, 32) => format!(in alloc; "UINT32_C({plain})"),
        (NumberKind::Unsigned, 64) => format!(in alloc; "UINT64_C({plain})"),
        (NumberKind::Signed, 64) => wide_literal(alloc, &plain),
        (NumberKind::Float, width) => float_literal(alloc, width, &plain),
        _ => Ok(plain),
    }
}

// A number with a sign, of 64 bits, by how Rattle writes it.
fn wide_literal(alloc: Global, plain: &str) -> Result<String, AllocError> {
    if plain == "-9223372036854775808" {
        return String::from_str(alloc, "INT64_MIN");
    }
    match plain.strip_prefix('-') {
        Some(digits) => format!(in alloc; "-INT64_C({digits})"),
        None => format!(in alloc; "INT64_C({plain})"),
    }
}

// A float of this many bits, by how Rattle writes it.
fn float_literal(alloc: Global, width: u32, plain: &str) -> Result<String, AllocError> {
    if plain.ends_with("NEG_INFINITY") {
        return String::from_str(alloc, "-INFINITY");
    }
    if plain.ends_with("INFINITY") {
        return String::from_str(alloc, "INFINITY");
    }
    if plain.ends_with("NAN") {
        return String::from_str(alloc, "NAN");
    }
    let suffix = if width == 32 { "f" } else { "" };
    format!(in alloc; "{plain}{suffix}")
}
