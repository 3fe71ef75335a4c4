//! Constants, and the words of constants and defaults that pointers point to.
use crate::c::comments::push_comment;
use crate::c::names::{constant_scope, enum_tag, type_name};
use crate::c::numbers::{number_literal, number_type};
use crate::c::templates::{CONSTANT_NUMBER, CONSTANT_POINTER, LEFT_OUT_CONSTANT, WORDS};
use crate::c::views::{has_enumerants, read_call, view_name};
use crate::code::Code;
use crate::constants::enumerant_of;
use crate::numbers::number_of;
use crate::schema::{Base, Node, Request, Type, Value};
use crate::words::{lines_of, words_of};
use std::alloc::{AllocError, Global};

/// Adds a constant, of this type and value.
pub fn push_constant(code: &mut Code, request: &Request, node: &Node, of: Type, value: &Value) {
    match (value, number_of(of.base)) {
        (Value::Bits(bits), Some(number)) if of.lists == 0 => match of.base {
            Base::Enum(id) if has_enumerants(request, id) => {
                let tag = code.text(enum_tag(request, id));
                let of_enum = code.text(format!(in code.alloc; "enum {tag}"));
                push_number(
                    code,
                    request,
                    node,
                    &of_enum,
                    enumerator(request, id, &tag, *bits),
                );
            }
            _ => {
                let value = number_literal(code.alloc, number, *bits);
                push_number(code, request, node, number_type(number), value);
            }
        },
        (Value::Bits(_) | Value::Null, _) => push_left_out(code, node),
        _ => match code.kept(read_call(code.alloc, of)) {
            Some(Some(call)) => push_object(code, request, node, of, &call, value),
            _ => push_left_out(code, node),
        },
    }
}

// Says that a constant is left out.
fn push_left_out(code: &mut Code, node: &Node) {
    code.add_with(LEFT_OUT_CONSTANT, "name", &node.name);
}

// Adds a constant that is a number, a bool or an enumerant, by how its value is written.
fn push_number(
    code: &mut Code,
    request: &Request,
    node: &Node,
    type_name: &str,
    value: Result<String, AllocError>,
) {
    let holes = code
        .holes()
        .holding("scope", constant_scope(request, node.scope))
        .with("name", &node.name)
        .with("type", type_name)
        .holding("value", value);
    code.add_gap();
    push_comment(code, &node.comment);
    code.add(CONSTANT_NUMBER, &holes);
}

// The enumerator of this number of an enum with this tag; the number where the enum has none.
fn enumerator(request: &Request, id: u64, tag: &str, bits: u64) -> Result<String, AllocError> {
    match enumerant_of(request, id, bits) {
        Some(name) => {
            let prefix = type_name(request, id)?;
            format!(in request.alloc; "{prefix}_{name}")
        }
        None => format!(in request.alloc; "(enum {tag}){bits}"),
    }
}

// Adds a constant that a pointer points to, which this call reads.
fn push_object(
    code: &mut Code,
    request: &Request,
    node: &Node,
    of: Type,
    call: &str,
    value: &Value,
) {
    let scope = code.text(constant_scope(request, node.scope));
    let name = node.name.as_str();
    let words = code.text(format!(in code.alloc; "{scope}_{name}_constant"));
    let holes = code
        .holes()
        .with("scope", &scope)
        .with("name", name)
        .with("words", &words)
        .holding("view", view_name(request, of))
        .with("call", call);
    code.add_gap();
    push_words(code, &words, value);
    push_comment(code, &node.comment);
    code.add(CONSTANT_POINTER, &holes);
}

/// Adds what a pointer points to as a framed message of one segment, whose root it is.
pub fn push_words(code: &mut Code, name: &str, value: &Value) {
    if let Some(message) = code.kept(message_of(code.alloc, value)) {
        let holes = code
            .holes()
            .with("name", name)
            .number("size", message.len() as u64)
            .holding("lines", lines_of(code.alloc, &message));
        code.add(WORDS, &holes);
    }
}

// What a pointer points to as a framed message.
fn message_of(alloc: Global, value: &Value) -> Result<Vec<u8>, AllocError> {
    let words = words_of(alloc, value)?;
    // A value has fewer words than its request, which has at most 2^23.
    let count = (words.len() / 8 % 4294967296) as u32;
    let mut message = Vec::from_slice(alloc, &[0; 4])?;
    message.extend_from_slice(&count.to_le_bytes())?;
    message.extend_from_slice(&words)?;
    Ok(message)
}
