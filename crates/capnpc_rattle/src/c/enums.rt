//! Enums, and the members of unions as enums.
use crate::c::builder_templates::ADD_ENUMS;
use crate::c::comments::push_comment;
use crate::c::names::{enum_tag, type_name};
use crate::c::templates::{ENUM, ENUM_LIST, LEFT_OUT_ENUM};
use crate::code::Code;
use crate::schema::{Node, Request, Struct};

/// Adds an enum by the names of its enumerants.
pub fn push_enum(code: &mut Code, request: &Request, node: &Node, names: &[String]) {
    code.add_gap();
    if names.is_empty() {
        return code.add_with(LEFT_OUT_ENUM, "name", &node.name);
    }
    let prefix = code.text(type_name(request, node.id));
    let mut inner = Code::new(code.alloc, 1);
    for (number, name) in names.iter().enumerate() {
        push_comment(&mut inner, node.member_comment(number));
        push_enumerator(&mut inner, &prefix, name, number as u64);
    }
    let tag = code.text(enum_tag(request, node.id));
    push_comment(code, &node.comment);
    push_lines(code, &tag, &prefix, &inner, names.len() as u64);
    let holes = code.holes().with("tag", &tag).with("prefix", &prefix);
    code.add(ENUM_LIST, &holes);
    if request.wanted.builders {
        code.add(ADD_ENUMS, &holes);
    }
}

/// Adds the enum of the members of the union in a struct or a group of this name.
pub fn push_members(code: &mut Code, name: &str, body: &Struct) {
    let tag = code.text(format!(in code.alloc; "{name}_which"));
    let mut inner = Code::new(code.alloc, 1);
    let mut count: u64 = 0;
    for field in &body.fields {
        if let Some(number) = field.member {
            count = count.saturating_add(1);
            push_enumerator(&mut inner, &tag, &field.name, number as u64);
        }
    }
    code.add_gap();
    code.add_with("/* The members of the union in @name@. */", "name", name);
    push_lines(code, &tag, &tag, &inner, count);
}

// Adds an enum of this tag and prefix, by the lines of its enumerators and how many they are.
fn push_lines(code: &mut Code, tag: &str, prefix: &str, lines: &Code, count: u64) {
    let unknown = code.text(format!(in code.alloc; "{prefix}_notInSchema"));
    // A schema may have an enumerant of this name.
    let mark = if lines.as_str().contains(unknown.as_str()) {
        "_"
    } else {
        ""
    };
    let holes = code
        .holes()
        .with("tag", tag)
        .with("prefix", prefix)
        .holding("unknown", format!(in code.alloc; "{unknown}{mark}"))
        .code("lines", lines)
        .number("count", count);
    code.add(ENUM, &holes);
}

// Adds an enumerator.
fn push_enumerator(code: &mut Code, prefix: &str, name: &str, number: u64) {
    let holes = code
        .holes()
        .with("prefix", prefix)
        .with("name", name)
        .number("number", number);
    code.add("@prefix@_@name@ = @number@,", &holes);
}
