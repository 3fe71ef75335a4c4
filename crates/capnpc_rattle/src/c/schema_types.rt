//! Types as a schema has them, for comments.
use crate::paths::nodes_to;
use crate::schema::{Base, Body, Request, Type};
use std::alloc::AllocError;

/// A type as a schema has it: `List(Person.PhoneNumber)`.
pub fn schema_type(request: &Request, of: Type) -> Result<String, AllocError> {
    let mut written = "List(".repeat(request.alloc, of.lists as usize)?;
    match of.base {
        Base::Struct(id) | Base::Enum(id) => push_path(&mut written, request, id)?,
        _ => written.push_str(base_type(of.base))?,
    }
    for _ in 0..of.lists {
        written.push(')')?;
    }
    Ok(written)
}

// Adds the names of a node and of what is around it, with `.` between them, as the schema has them.
fn push_path(written: &mut String, request: &Request, id: u64) -> Result<(), AllocError> {
    let mut between = "";
    for node in &nodes_to(request, id)? {
        if !matches!(&node.body, Body::File) {
            written.push_str(between)?;
            written.push_str(&node.name)?;
            between = ".";
        }
    }
    Ok(())
}

// The name of a type that is no struct and no enum.
fn base_type(base: Base) -> &'static str {
    match base {
        Base::Void => "Void",
        Base::Bool => "Bool",
        Base::Int8 => "Int8",
        Base::Int16 => "Int16",
        Base::Int32 => "Int32",
        Base::Int64 => "Int64",
        Base::Uint8 => "UInt8",
        Base::Uint16 => "UInt16",
        Base::Uint32 => "UInt32",
        Base::Uint64 => "UInt64",
        Base::Float32 => "Float32",
        Base::Float64 => "Float64",
        Base::Text => "Text",
        Base::Data => "Data",
        Base::AnyPointer => "AnyPointer",
        _ => "interface",
    }
}
