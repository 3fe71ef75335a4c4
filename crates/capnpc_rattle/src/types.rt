//! Types and values of a request.
ghost use Rattle.std.specs.Prelude.{◌≡◌, ℕ, ◌*◌, ◌∷◌, false, length, replicate};
ghost use Rattle.capnp_wire.specs.Prelude.{layout, words_of, pointer_of, Trees, HasWords, PointsToTree};

use crate::request::read_text;
use crate::schema::{Base, Object, Type, Value};
use crate::schema_capnp::{type_, value};
use crate::trees::tree_at;
use anyhow::{Result, bail};
use capnp_frame::message::ReaderSegments;
use capnp_wire::any_pointer;
use capnp_wire::traits::SetterInput;
use std::alloc::Global;
use std::num::{f32_to_bits_with_nan, f64_to_bits_with_nan};

/// How many lists of lists a type may have.
const MAX_LISTS: u32 = 64;

/// A type. For a list the type of its elements is read, and the list is counted.
pub fn read_type<S: ReaderSegments>(read: &type_::Reader<'_, S>) -> Result<Type> {
    let Some(mut element) = element_of(read)? else {
        return Ok(Type {
            lists: 0,
            base: read_base(read),
        });
    };
    for lists in 1..MAX_LISTS {
        let Some(inner) = element_of(&element)? else {
            return Ok(Type {
                lists,
                base: read_base(&element),
            });
        };
        element = inner;
    }
    bail!("a type has {MAX_LISTS} lists in one another");
}

// The type of the elements of a list.
fn element_of<'a, S: ReaderSegments>(
    read: &type_::Reader<'a, S>,
) -> Result<Option<type_::Reader<'a, S>>> {
    match read.which() {
        type_::Which::List(element) => Ok(Some(element?)),
        _ => Ok(None),
    }
}

// A type that is no list.
fn read_base<S: ReaderSegments>(read: &type_::Reader<'_, S>) -> Base {
    match read.which() {
        type_::Which::Void => Base::Void,
        type_::Which::Bool => Base::Bool,
        type_::Which::Int8 => Base::Int8,
        type_::Which::Int16 => Base::Int16,
        type_::Which::Int32 => Base::Int32,
        type_::Which::Int64 => Base::Int64,
        type_::Which::Uint8 => Base::Uint8,
        type_::Which::Uint16 => Base::Uint16,
        type_::Which::Uint32 => Base::Uint32,
        type_::Which::Uint64 => Base::Uint64,
        type_::Which::Float32 => Base::Float32,
        type_::Which::Float64 => Base::Float64,
        type_::Which::Text => Base::Text,
        type_::Which::Data => Base::Data,
        type_::Which::Enum(id) => Base::Enum(id),
        type_::Which::Struct(id) => Base::Struct(id),
        type_::Which::AnyPointer(group) => match group.which() {
            type_::any_pointer_::Which::Unconstrained(kind) => match kind.which() {
                type_::any_pointer_::unconstrained::Which::Capability => Base::Interface,
                _ => Base::AnyPointer,
            },
            _ => Base::AnyPointer,
        },
        type_::Which::List(_) | type_::Which::Interface | type_::Which::NotInSchema(_) => {
            Base::Interface
        }
    }
}

/// A value.
pub fn read_value<S: ReaderSegments>(alloc: Global, read: &value::Reader<'_, S>) -> Result<Value> {
    Ok(match read.which() {
        value::Which::Bool(is) => Value::Bits(is as u64),
        value::Which::Int8(number) => Value::Bits(number.cast_unsigned() as u64),
        value::Which::Int16(number) => Value::Bits(number.cast_unsigned() as u64),
        value::Which::Int32(number) => Value::Bits(number.cast_unsigned() as u64),
        value::Which::Int64(number) => Value::Bits(number.cast_unsigned()),
        value::Which::Uint8(number) => Value::Bits(number as u64),
        value::Which::Uint16(number) | value::Which::Enum(number) => Value::Bits(number as u64),
        value::Which::Uint32(number) => Value::Bits(number as u64),
        value::Which::Uint64(number) => Value::Bits(number),
        value::Which::Float32(number) => Value::Bits(f32_to_bits_with_nan(number) as u64),
        value::Which::Float64(number) => Value::Bits(f64_to_bits_with_nan(number)),
        value::Which::Text(text) if read.has_text() => Value::Text(read_text(alloc, text)?),
        value::Which::Data(bytes) if read.has_data() => {
            Value::Data(Vec::from_slice(alloc, bytes?)?)
        }
        value::Which::List(pointer)
        | value::Which::Struct(pointer)
        | value::Which::AnyPointer(pointer) => read_object(alloc, &pointer)?,
        value::Which::Void => Value::Bits(0),
        _ => Value::Null,
    })
}

// What a pointer points to: the words of a message of one segment whose root it is, and its tree.
fn read_object<S: ReaderSegments>(
    alloc: Global,
    pointer: &any_pointer::Reader<'_, S>,
) -> Result<Value> {
    if pointer.is_null() {
        return Ok(Value::Null);
    }
    let words = pointer.measure(false)? as usize;
    let mut block = vec![in alloc; 0u8; 8 * words]?;
    let root = write_object(pointer, &mut block);
    let mut bytes = Vec::from_slice(alloc, &root.to_le_bytes())?;
    bytes.extend_from_slice(block.as_slice())?;
    Ok(Value::Object(Object {
        words: bytes,
        tree: tree_at(alloc, pointer)?,
    }))
}

// Writes what a pointer points to into zeros of exactly its words, and returns the pointer to it
// that would be just before them.
fn write_object<S: ReaderSegments>(pointer: &any_pointer::Reader<'_, S>, block: &mut [u8]) -> u64
    requires words { (words : ℕ)
        × HasWords (PointsToTree (pointer_of S.segments pointer.now)) false words
        × (length block.old ≡ 8 * words) }
    requires zero { block.old ≡ replicate (length block.old) 0 }
    ensures { (trees : Trees) → PointsToTree (pointer_of S.segments pointer.now) trees →
        result ∷ words_of block.new ≡ layout trees }
{
    pointer.write(false, block, 0, 0).pointer
}
