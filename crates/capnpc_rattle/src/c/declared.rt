//! What a file declares, in the order of the file.
use crate::schema::{Body, Node, Request, Slot, Type};
use std::alloc::{AllocError, Global};

/// A node, the nodes that are declared in it, at any depth, and the groups of structs among them.
/// Each comes after the node that it is in.
pub fn declared_in<'r>(request: &'r Request, id: u64) -> Result<Vec<&'r Node>, AllocError> {
    let mut found: Vec<&'r Node> = Vec::new(request.alloc);
    let mut left: Vec<u64> = Vec::new(request.alloc);
    left.push(id)?;
    for _ in 0..u64::MAX {
        let Some(id) = left.pop() else {
            break;
        };
        if let Some(node) = request.find(id) {
            found.push(node)?;
            push_nested(&mut left, node)?;
        }
    }
    Ok(found)
}

// Adds what is in a node to what is left, the first on top: its groups, and then what it declares.
fn push_nested(left: &mut Vec<u64>, node: &Node) -> Result<(), AllocError> {
    for id in node.nested.iter().rev() {
        left.push(*id)?;
    }
    if let Body::Struct(body) = &node.body {
        for field in body.fields.iter().rev() {
            if let Slot::Group(id) = field.slot {
                left.push(id)?;
            }
        }
    }
    Ok(())
}

/// The types of the fields and of the constants of some nodes.
pub fn types_of(alloc: Global, nodes: &[&Node]) -> Result<Vec<Type>, AllocError> {
    let mut types = Vec::new(alloc);
    for node in nodes {
        push_types(&mut types, node)?;
    }
    Ok(types)
}

// Adds the types of a node's fields, or of the constant that it is.
fn push_types(types: &mut Vec<Type>, node: &Node) -> Result<(), AllocError> {
    match &node.body {
        Body::Struct(body) => {
            for field in &body.fields {
                if let Slot::At(place) = &field.slot {
                    types.push(place.of)?;
                }
            }
        }
        Body::Constant(of, _) => types.push(*of)?,
        _ => {}
    }
    Ok(())
}
