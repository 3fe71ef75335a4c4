//! The header of a file.
use crate::c::constants::push_constant;
use crate::c::declared::declared_in;
use crate::c::enums::push_enum;
use crate::c::included::included_by;
use crate::c::list_lists::push_lists_of_lists;
use crate::c::structs::{push_struct, push_types};
use crate::c::templates::{END, HEAD, LEFT_OUT_INTERFACE};
use crate::code::{Code, Holes};
use crate::getters::Site;
use crate::names::{base_name, file_module};
use crate::schema::{Body, Node, Request};
use std::alloc::AllocError;

/// The header of a file: its types come first, then the headers of the files whose types its own
/// have, and then what reads them.
pub fn header_of(request: &Request, file: u64) -> Result<String, AllocError> {
    let nodes = declared_in(request, file)?;
    let files = included_by(request, file)?;
    let mut code = Code::new(request.alloc, 0);
    code.add(HEAD, &head_holes(request, file));
    for node in &nodes {
        push_types_of(&mut code, request, node);
    }
    push_includes(&mut code, request, &files);
    push_lists_of_lists(&mut code, request, &nodes);
    for node in &nodes {
        push_code_of(&mut code, request, node);
    }
    code.add_lines(END);
    code.whole()
}

// The name of a file, and the name that says that its header was read.
fn head_holes(request: &Request, file: u64) -> Holes {
    let name = request.file_name(file).unwrap_or("");
    Holes::new(request.alloc)
        .with("file", base_name(name))
        .holding("guard", guard_of(request, name, file))
}

// The name that says that a header was read.
fn guard_of(request: &Request, name: &str, file: u64) -> Result<String, AllocError> {
    let module = file_module(request.alloc, name)?.to_ascii_uppercase(request.alloc)?;
    format!(in request.alloc; "LINSJOAR_{module}_{file:x}_H")
}

// Adds the types of a node.
fn push_types_of(code: &mut Code, request: &Request, node: &Node) {
    match &node.body {
        Body::Struct(body) => push_types(code, request, node, body),
        Body::Enum(names) => push_enum(code, request, node, names),
        Body::Interface => code.add_with(LEFT_OUT_INTERFACE, "name", &node.name),
        Body::Constant(_, _) | Body::File | Body::Other => {}
    }
}

// Adds what reads a node.
fn push_code_of(code: &mut Code, request: &Request, node: &Node) {
    if let Body::Constant(of, value) = &node.body {
        push_constant(code, request, node, *of, value);
    } else if let Some(site) = Site::find(request, node.id) {
        push_struct(code, site);
    }
}

// Adds the headers of these files, except for the first, which is the file itself. They come after
// its types, since each may need the other.
fn push_includes(code: &mut Code, request: &Request, files: &[u64]) {
    for other in files.get(1..).unwrap_or(&[]) {
        if let Some(name) = request.file_name(*other) {
            let module = code.text(file_module(code.alloc, name));
            code.add_gap();
            code.add_with("#include \"@name@.h\"", "name", &module);
        }
    }
}
