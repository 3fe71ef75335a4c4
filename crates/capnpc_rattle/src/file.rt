//! The code of a file: its nodes, each in the module of the node that it is declared in.
use crate::code::Code;
use crate::constants::push_constants;
use crate::enums::push_enum;
use crate::getters::Site;
use crate::imports::{push_file, push_module, uncited};
use crate::names::base_name;
use crate::printing::push_printing;
use crate::schema::{Body, Node, Request, Slot};
use crate::structs::{close_module, open_module, push_struct};
use crate::templates::FILE;
use std::alloc::{AllocError, Global};

// What is written of a file, one after the other.
#[derive(Clone, Copy)]
enum Step {
    // A node, without what is declared in it.
    Node(u64),
    // The end of a module.
    End,
}

/// The code of a file.
pub fn code_of(request: &Request, file: u64) -> Result<String, AllocError> {
    let alloc = request.alloc;
    let mut body = Code::new(alloc, 0);
    for step in &steps_of(request, file)? {
        match step {
            Step::End => close_module(&mut body),
            Step::Node(id) => push_node(&mut body, request, *id),
        }
    }
    if request.wanted.printing {
        push_printing(&mut body, request, file);
    }
    let body = body.whole()?;
    let mut code = Code::new(alloc, 0);
    let name = base_name(request.file_name(file).unwrap_or(""));
    let holes = code.holes().holding("file", uncited(alloc, name));
    code.add(FILE, &holes);
    push_file(&mut code, request, &body);
    marked(alloc, &code.whole()?)
}

// Code in which each item is marked, so that the toolchain's formatter leaves it as it is.
fn marked(alloc: Global, code: &str) -> Result<String, AllocError> {
    let mut lines = String::new(alloc);
    let mut is_marked = false;
    for line in code.lines() {
        if begins_item(line) && !is_marked {
            lines.push_str("#[rattlefmt::skip]\n")?;
        }
        is_marked = line.starts_with("#[");
        lines.push_str(line)?;
        lines.push('\n')?;
    }
    Ok(lines)
}

// Whether an item of a file begins with a line, or an attribute of one.
fn begins_item(line: &str) -> bool {
    line.starts_with("pub ")
        || line.starts_with("use ")
        || line.starts_with("impl")
        || line.starts_with("#[")
}

// The steps of a file: each node is followed by its groups, by what is declared in it, and by the
// end of its module, where it has one.
fn steps_of(request: &Request, file: u64) -> Result<Vec<Step>, AllocError> {
    let mut steps: Vec<Step> = Vec::new(request.alloc);
    let mut left: Vec<Step> = Vec::new(request.alloc);
    left.push(Step::Node(file))?;
    for _ in 0..u64::MAX {
        let Some(step) = left.pop() else {
            break;
        };
        steps.push(step)?;
        if let Step::Node(id) = step
            && let Some(node) = request.find(id)
        {
            push_inner(&mut left, node)?;
        }
    }
    Ok(steps)
}

// Adds what follows a node to the steps that are left, the first on top.
fn push_inner(left: &mut Vec<Step>, node: &Node) -> Result<(), AllocError> {
    match &node.body {
        Body::Struct(_) => left.push(Step::End)?,
        Body::Interface if !node.nested.is_empty() => left.push(Step::End)?,
        Body::File => {}
        _ => return Ok(()),
    }
    for id in node.nested.iter().rev() {
        left.push(Step::Node(*id))?;
    }
    if let Body::Struct(body) = &node.body {
        for field in body.fields.iter().rev() {
            if let Slot::Group(id) = field.slot {
                left.push(Step::Node(id))?;
            }
        }
    }
    Ok(())
}

// Adds a node. Constants are written with the node that declares them.
fn push_node(code: &mut Code, request: &Request, id: u64) {
    if let Some(site) = Site::find(request, id) {
        code.add_gap();
        return push_struct(code, site);
    }
    let Some(node) = request.find(id) else {
        return;
    };
    match &node.body {
        Body::File => push_declared(code, request, node),
        Body::Enum(names) => {
            code.add_gap();
            push_enum(code, request, node, names);
        }
        Body::Interface => push_interface(code, request, node),
        _ => {}
    }
}

// Adds the constants of a file or an interface, with what they import.
fn push_declared(code: &mut Code, request: &Request, node: &Node) {
    let mut constants = Code::new(code.alloc, code.depth);
    push_constants(&mut constants, request, node);
    let constants = code.text(constants.whole());
    let constants = constants.trim_start();
    if !constants.is_empty() {
        code.add_gap();
        push_module(code, request, &[], constants);
    }
}

// Says that an interface is left out, and opens its module if something is declared in it.
fn push_interface(code: &mut Code, request: &Request, node: &Node) {
    code.add_gap();
    if node.nested.is_empty() {
        return code.add_with("// The interface `@name@` is left out.", "name", &node.name);
    }
    open_module(code, node);
    code.add_with(
        "//! What is declared in the interface `@name@`, which itself is left out.",
        "name",
        &node.name,
    );
    push_declared(code, request, node);
}
