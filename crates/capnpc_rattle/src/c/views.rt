//! What a pointer points to, as C reads it: a type, and the call that reads it.
use crate::c::names::type_name;
use crate::numbers::number_of;
use crate::schema::{Base, Request, Type};
use std::alloc::{AllocError, Global};

/// The call that reads a type of `pointer` into `value`; `None` for numbers by themselves,
/// interfaces, and any pointer by itself.
pub fn read_call(alloc: Global, of: Type) -> Result<Option<String>, AllocError> {
    let call = match (of.lists, of.base) {
        (_, Base::Interface) => return Ok(None),
        (0, Base::Text) => String::from_str(alloc, "linsjoar_read_text(&pointer, value)"),
        (0, Base::Data) => String::from_str(alloc, "linsjoar_read_data(&pointer, value)"),
        (0, Base::Struct(_)) => {
            String::from_str(alloc, "linsjoar_read_struct(&pointer, &value->fields)")
        }
        (0, _) => return Ok(None),
        _ => {
            let code = element_code(of);
            format!(in alloc; "linsjoar_read_list(&pointer, {code}, &value->elements)")
        }
    };
    Ok(Some(call?))
}

/// The name with which the types and the calls of a type begin.
pub fn view_name(request: &Request, of: Type) -> Result<String, AllocError> {
    let mut name = match of.base {
        Base::Struct(id) => type_name(request, id)?,
        Base::Enum(id) if has_enumerants(request, id) => type_name(request, id)?,
        _ => String::from_str(request.alloc, library_name(of.base))?,
    };
    for _ in 0..of.lists {
        name.push_str("_list")?;
    }
    Ok(name)
}

/// Whether an enum is one of C.
pub fn has_enumerants(request: &Request, id: u64) -> bool {
    !request.enumerants_of(id).is_empty()
}

// The name with which the library's types and calls of a type begin.
fn library_name(base: Base) -> &'static str {
    match base {
        Base::Void => "linsjoar_void",
        Base::Bool => "linsjoar_bool",
        Base::Int8 => "linsjoar_i8",
        Base::Int16 => "linsjoar_i16",
        Base::Int32 => "linsjoar_i32",
        Base::Int64 => "linsjoar_i64",
        Base::Uint8 => "linsjoar_u8",
        Base::Uint16 | Base::Enum(_) => "linsjoar_u16",
        Base::Uint32 => "linsjoar_u32",
        Base::Uint64 => "linsjoar_u64",
        Base::Float32 => "linsjoar_float",
        Base::Float64 => "linsjoar_double",
        Base::Text => "linsjoar_text",
        Base::Data => "linsjoar_data",
        _ => "linsjoar_pointer",
    }
}

/// The code of the elements of a list.
pub fn element_code(of: Type) -> &'static str {
    if of.lists > 1 {
        return "LINSJOAR_POINTERS";
    }
    match of.base {
        Base::Void => return "LINSJOAR_VOID",
        Base::Struct(_) => return "LINSJOAR_STRUCTS",
        _ => {}
    }
    match number_of(of.base) {
        Some(number) => match number.width {
            1 => "LINSJOAR_BIT",
            8 => "LINSJOAR_BYTE",
            16 => "LINSJOAR_TWO_BYTES",
            32 => "LINSJOAR_FOUR_BYTES",
            _ => "LINSJOAR_EIGHT_BYTES",
        },
        None => "LINSJOAR_POINTERS",
    }
}
