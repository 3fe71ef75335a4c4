//! Lists of lists.
use crate::c::declared::types_of;
use crate::c::templates::LIST_OF_LISTS;
use crate::c::views::{element_code, view_name};
use crate::code::Code;
use crate::schema::{Base, Node, Request, Type};
use std::alloc::AllocError;

/// Adds the types of lists of lists that some nodes have, and what reads and builds these.
pub fn push_lists_of_lists(code: &mut Code, request: &Request, nodes: &[&Node]) {
    let Some(lists) = code.kept(lists_in(request, nodes)) else {
        return;
    };
    for (name, of) in &lists {
        let holes = code
            .holes()
            .with("name", name)
            .with("code", element_code(*of));
        code.add(LIST_OF_LISTS, &holes);
    }
}

// The lists that are elements of other lists, by their names, each once and after its own elements.
fn lists_in(request: &Request, nodes: &[&Node]) -> Result<Vec<(String, Type)>, AllocError> {
    let mut found: Vec<(String, Type)> = Vec::new(request.alloc);
    for of in &types_of(request.alloc, nodes)? {
        if of.base == Base::Interface {
            continue;
        }
        for lists in 1..of.lists {
            let inner = Type {
                lists,
                base: of.base,
            };
            let name = view_name(request, inner)?;
            if !is_among(&found, &name) {
                found.push((name, inner))?;
            }
        }
    }
    Ok(found)
}

// Whether there is a list of this name.
fn is_among(lists: &[(String, Type)], name: &str) -> bool {
    for (other, _) in lists {
        if other.as_str() == name {
            return true;
        }
    }
    false
}
