//! How the structs of a file are printed: the table of their types, and a method of each.
use crate::code::Code;
use crate::getters::Site;
use crate::imports::uncited;
use crate::paths::path_to;
use crate::print_templates::{ENUM, FIELD, METHOD, MODULE, STRUCT, TABLE};
use crate::schema::{Base, Field, Place, Request, Slot, Value};
use crate::structs::close_module;
use crate::type_table::{TypeTable, number_in};
use std::alloc::{AllocError, Global};
use std::fmt::Write;

/// Adds the module by which the structs of a file are printed, if it declares any.
pub fn push_printing(code: &mut Code, request: &Request, file: u64) {
    let Some(table) = code.kept(TypeTable::of_file(request, file)) else {
        return;
    };
    if table.own == 0 {
        return;
    }
    code.add_lines(MODULE);
    code.depth = code.depth.saturating_add(1);
    let holes = code
        .holes()
        .code("structs", &structs_of(request, &table))
        .code("enums", &enums_of(request, &table));
    code.add(TABLE, &holes);
    push_methods(
        code,
        request,
        file,
        table.structs.get(..table.own).unwrap_or(&[]),
    );
    close_module(code);
}

// Adds the method of each of the structs that the file declares.
fn push_methods(code: &mut Code, request: &Request, file: u64, structs: &[u64]) {
    for (number, id) in structs.iter().enumerate() {
        let holes = code
            .holes()
            .holding("path", path_to(request, file, *id))
            .number("number", number as u64);
        code.add(METHOD, &holes);
    }
}

// The lines of the structs.
fn structs_of(request: &Request, table: &TypeTable) -> Code {
    let mut code = Code::new(request.alloc, 0);
    for id in &table.structs {
        if let Some(site) = Site::find(request, *id) {
            push_struct(&mut code, site, table);
        }
    }
    code
}

// Adds the lines of a struct.
fn push_struct(code: &mut Code, site: Site<'_>, table: &TypeTable) {
    let mut fields = Code::new(code.alloc, 0);
    for (field, name) in site.body.fields.iter().zip(&site.node.member_names) {
        push_field(&mut fields, table, field, name);
    }
    let body = site.body;
    let holes = code
        .holes()
        .with("name", &site.node.name)
        .holding("discriminant", optional(code.alloc, body.discriminant))
        .code("fields", &fields);
    code.add(STRUCT, &holes);
}

// Adds the line of a field, which is shown by this name.
fn push_field(code: &mut Code, table: &TypeTable, field: &Field, name: &str) {
    let alloc = code.alloc;
    let (lists, base, offset) = match &field.slot {
        Slot::At(place) => (place.of.lists, base_of(alloc, table, place), place.offset),
        Slot::Group(id) => (0, numbered(alloc, "Group", &table.structs, *id), 0),
        Slot::Unknown => return,
    };
    let holes = code
        .holes()
        .with("name", name)
        .holding(
            "member",
            optional(alloc, field.member.map(|member| member as u32)),
        )
        .number("lists", lists)
        .holding("base", base)
        .number("offset", offset)
        .holding("default", default_of(alloc, &field.slot));
    code.add(FIELD, &holes);
}

// A number that may be missing.
fn optional(alloc: Global, number: Option<u32>) -> Result<String, AllocError> {
    match number {
        Some(number) => format!(in alloc; "Some({number})"),
        None => String::from_str(alloc, "None"),
    }
}

// The base of a field's type.
fn base_of(alloc: Global, table: &TypeTable, place: &Place) -> Result<String, AllocError> {
    let name = match place.of.base {
        Base::Void => "Void",
        Base::Bool => "Bool",
        Base::Int8 => "Int8",
        Base::Int16 => "Int16",
        Base::Int32 => "Int32",
        Base::Int64 => "Int64",
        Base::Uint8 => "Uint8",
        Base::Uint16 => "Uint16",
        Base::Uint32 => "Uint32",
        Base::Uint64 => "Uint64",
        Base::Float32 => "Float32",
        Base::Float64 => "Float64",
        Base::Text => "Text",
        Base::Data => "Data",
        Base::Interface => "Interface",
        Base::AnyPointer => "AnyPointer",
        Base::Enum(id) => return numbered(alloc, "Enum", &table.enums, id),
        Base::Struct(id) => return numbered(alloc, "Struct", &table.structs, id),
    };
    String::from_str(alloc, name)
}

// A type of a table, by its number there.
fn numbered(alloc: Global, kind: &str, nodes: &[u64], id: u64) -> Result<String, AllocError> {
    let number = number_in(nodes, id);
    format!(in alloc; "{kind}({number})")
}

// The default of a field; 0 where it is a pointer that isn't text or data.
fn default_of(alloc: Global, slot: &Slot) -> Result<String, AllocError> {
    let Slot::At(place) = slot else {
        return String::from_str(alloc, "Bits(0)");
    };
    match &place.default {
        Value::Bits(bits) => format!(in alloc; "Bits({bits})"),
        Value::Text(text) => {
            let text = format!(in alloc; "Text({text:?})")?;
            uncited(alloc, &text)
        }
        Value::Data(bytes) => data_default(alloc, bytes),
        Value::Object(_) | Value::Null => String::from_str(alloc, "Bits(0)"),
    }
}

// The default of a field of type `Data`.
fn data_default(alloc: Global, bytes: &[u8]) -> Result<String, AllocError> {
    let mut code = String::from_str(alloc, "Data(&[")?;
    let mut before = "";
    for byte in bytes {
        write!(code, "{before}{byte}")?;
        before = ", ";
    }
    code.push_str("])")?;
    Ok(code)
}

// The lines of the enums.
fn enums_of(request: &Request, table: &TypeTable) -> Code {
    let mut code = Code::new(request.alloc, 0);
    for id in &table.enums {
        let names: &[String] = match request.find(*id) {
            Some(node) => &node.member_names,
            None => &[],
        };
        let holes = code.holes().holding("names", names_of(code.alloc, names));
        code.add(ENUM, &holes);
    }
    code
}

// Names, within quotation marks.
fn names_of(alloc: Global, names: &[String]) -> Result<String, AllocError> {
    let mut code = String::new(alloc);
    let mut before = "";
    for name in names {
        write!(code, "{before}\"{name}\"")?;
        before = ", ";
    }
    Ok(code)
}
