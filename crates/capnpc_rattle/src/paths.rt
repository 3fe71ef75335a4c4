//! Paths from the module of one node to what another declares. The files are next to one another.
use crate::code::Code;
use crate::names::{enum_type, file_module, module};
use crate::schema::{Body, MAX_DEPTH, Node, Request};
use std::alloc::AllocError;

/// A node and the nodes around it, from the file on.
pub fn nodes_to<'r>(request: &'r Request, id: u64) -> Result<Vec<&'r Node>, AllocError> {
    let mut nodes: Vec<&'r Node> = Vec::new(request.alloc);
    let mut next = id;
    for _ in 0..MAX_DEPTH {
        let Some(node) = request.find(next) else {
            break;
        };
        nodes.push(node)?;
        if let Body::File = &node.body {
            break;
        }
        next = node.scope;
    }
    nodes.reverse();
    Ok(nodes)
}

/// The path to the module of a struct, or to the enum, that a node declares, as it is written in
/// the module of another.
pub fn path_to(request: &Request, site: u64, id: u64) -> Result<String, AllocError> {
    let from = nodes_to(request, site)?;
    let to = nodes_to(request, id)?;
    path_between(request, &from, &to)
}

// The path from one node to another, by the nodes around them.
fn path_between(request: &Request, from: &[&Node], to: &[&Node]) -> Result<String, AllocError> {
    let shared = shared_len(from, to);
    let mut path = Code::new(request.alloc, 0);
    for _ in shared..from.len() {
        path.add_code("super::");
    }
    for (index, node) in to.iter().enumerate() {
        if index > shared {
            path.add_code("::");
        }
        if index >= shared {
            path.add_made(name_of(request, node));
        }
    }
    path.whole()
}

// The name of what a node declares: of a module or an enum.
fn name_of(request: &Request, node: &Node) -> Result<String, AllocError> {
    match &node.body {
        Body::File => file_module(request.alloc, request.file_name(node.id).unwrap_or("")),
        Body::Enum(_) => enum_type(request.alloc, &node.name),
        _ => module(request.alloc, &node.name),
    }
}

// How many nodes two chains share at the front, without the last node of the second.
fn shared_len(from: &[&Node], to: &[&Node]) -> usize {
    let mut shared: usize = 0;
    for (one, other) in from.iter().zip(to) {
        if shared.saturating_add(1) == to.len() || one.id != other.id {
            break;
        }
        shared = shared.saturating_add(1);
    }
    shared
}
