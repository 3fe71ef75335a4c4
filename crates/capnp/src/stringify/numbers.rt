//! Numbers, bools and enumerants by their bits.
ghost use Rattle.std.specs.Prelude.{◌≡◌, ◌++◌, IfSome, OnOk, string_bytes};
ghost use Rattle.capnp_wire.specs.Prelude.{struct_of};
ghost use Rattle.capnp.specs.PrintedNumbers.{stored_bits, signed_of, shown_bits};

use crate::any_struct::StructReader;
use crate::message::ReaderSegments;
use crate::stringify::floats::{push_float32, push_float64};
use crate::stringify::schema::{Base, Schema};
use std::alloc::{AllocError, Global};
use std::fmt::Write;
use std::num::{f32_from_bits_with_nan, f64_from_bits_with_nan};

/// The bits of a field of the data section, of this type, at an offset in units of its width. They
/// are the bits of its default where the data section ends before it, and 0 for other types.
pub fn bits_of<S: ReaderSegments>(
    fields: &StructReader<'_, S>,
    base: Base,
    offset: u32,
    default: u64,
) -> u64
    ensures { result ≡ stored_bits (struct_of S.segments fields.now).words base offset default }
{
    match base {
        Base::Bool => fields.get_data_field_mask(offset, default % 2 == 1) as u64,
        Base::Int8 | Base::Uint8 => {
            fields.get_data_field_mask(offset, (default % 0x100) as u8) as u64
        }
        Base::Int16 | Base::Uint16 | Base::Enum(_) => {
            fields.get_data_field_mask(offset, (default % 0x1_0000) as u16) as u64
        }
        Base::Int32 | Base::Uint32 | Base::Float32 => {
            fields.get_data_field_mask(offset, (default % 0x1_0000_0000) as u32) as u64
        }
        Base::Int64 | Base::Uint64 | Base::Float64 => fields.get_data_field_mask(offset, default),
        _ => 0,
    }
}

/// Adds the number, the bool or the enumerant of some bits, as many as its type has; `void` for
/// other types.
///
/// Fails only when out of memory.
pub fn push_bits(
    alloc: Global,
    output: &mut String,
    schema: &Schema,
    base: Base,
    bits: u64,
) -> Result<(), AllocError>
    ensures { OnOk result (IfSome (shown_bits base bits)
        (λ shown. string_bytes output.new ≡ string_bytes output.old ++ shown)) }
{
    match base {
        Base::Bool => output.push_str(if bits == 0 { "false" } else { "true" }),
        Base::Uint8 | Base::Uint16 | Base::Uint32 | Base::Uint64 => write!(output, "{bits}"),
        Base::Int8 | Base::Int16 | Base::Int32 | Base::Int64 => {
            let number = signed(base, bits);
            write!(output, "{number}")
        }
        Base::Float32 => {
            let number = f32_from_bits_with_nan((bits % 0x1_0000_0000) as u32);
            push_float32(alloc, output, number)
        }
        Base::Float64 => push_float64(alloc, output, f64_from_bits_with_nan(bits)),
        Base::Enum(of) => push_enumerant(output, schema, of, (bits % 0x1_0000) as u16),
        _ => output.push_str("void"),
    }
}

// The number with a sign that some bits are.
fn signed(base: Base, bits: u64) -> i64
    ensures { result ≡ signed_of base bits }
{
    match base {
        Base::Int8 => ((bits % 0x100) as u8).cast_signed() as i64,
        Base::Int16 => ((bits % 0x1_0000) as u16).cast_signed() as i64,
        Base::Int32 => ((bits % 0x1_0000_0000) as u32).cast_signed() as i64,
        _ => bits.cast_signed(),
    }
}

// Adds the name of an enumerant; its number in parentheses where the schema doesn't name it.
fn push_enumerant(
    output: &mut String,
    schema: &Schema,
    of: u32,
    number: u16,
) -> Result<(), AllocError> {
    match schema.enumerant(of, number) {
        Some(name) => output.push_str(name),
        None => write!(output, "({number})"),
    }
}
