//! The headers that a header includes, and what they may not declare together.
use crate::c::checked::COLLIDES;
use crate::c::declared::{declared_in, types_of};
use crate::c::names::type_name;
use crate::schema::{Base, Body, Node, Request};
use anyhow::{Result, bail};
use std::alloc::AllocError;

/// The files that declare the types of what a file has, after the file itself.
pub fn included_by(request: &Request, file: u64) -> Result<Vec<u64>, AllocError> {
    let mut files: Vec<u64> = Vec::new(request.alloc);
    files.push(file)?;
    let nodes = declared_in(request, file)?;
    for of in &types_of(request.alloc, &nodes)? {
        let file = match of.base {
            Base::Struct(id) | Base::Enum(id) => request.file_of(id),
            _ => file,
        };
        if !files.contains(&file) {
            files.push(file)?;
        }
    }
    Ok(files)
}

/// Fails for a type that two headers declare which are included together, by the header of a file.
pub fn check_included(request: &Request, file: u64) -> Result<()> {
    let mut declared: Vec<(String, u64)> = Vec::new(request.alloc);
    let files = all_included(request, file)?;
    for file in &files {
        add_types(request, *file, &mut declared)?;
    }
    Ok(())
}

// The files whose headers the header of a file includes, with those that these include, and the
// file itself.
fn all_included(request: &Request, file: u64) -> Result<Vec<u64>, AllocError> {
    let mut files: Vec<u64> = Vec::new(request.alloc);
    let mut left: Vec<u64> = Vec::new(request.alloc);
    files.push(file)?;
    left.push(file)?;
    for _ in 0..u64::MAX {
        let Some(next) = left.pop() else {
            break;
        };
        let included = included_by(request, next)?;
        for other in &included {
            if !files.contains(other) {
                files.push(*other)?;
                left.push(*other)?;
            }
        }
    }
    Ok(files)
}

// Adds the types that a file declares; fails for one that another file declares, too.
fn add_types(request: &Request, file: u64, declared: &mut Vec<(String, u64)>) -> Result<()> {
    for node in &declared_in(request, file)? {
        if is_type(node) {
            let name = type_name(request, node.id)?;
            add_type(request, file, declared, name)?;
        }
    }
    add_unused(request, file, declared)
}

// Adds the types of a file whose nodes the request lacks, since no file that it asks for uses them.
fn add_unused(request: &Request, file: u64, declared: &mut Vec<(String, u64)>) -> Result<()> {
    let Some(node) = request.find(file) else {
        return Ok(());
    };
    for (id, name) in node.nested.iter().zip(&node.nested_names) {
        if request.find(*id).is_none() && name.starts_with(is_capital) {
            let prefix = type_name(request, file)?;
            let between = if prefix.is_empty() { "" } else { "_" };
            let full = format!(in request.alloc; "{prefix}{between}{name}")?;
            add_type(request, file, declared, full)?;
        }
    }
    Ok(())
}

// Whether the name of a type may begin with a letter.
fn is_capital(letter: char) -> bool {
    letter.is_ascii_uppercase()
}

// Adds a type; fails for one that another file declares, too.
fn add_type(
    request: &Request,
    file: u64,
    declared: &mut Vec<(String, u64)>,
    name: String,
) -> Result<()> {
    for (other, of) in declared.as_slice() {
        if *of != file && other.as_str() == name.as_str() {
            let one = request.file_name(*of).unwrap_or("");
            let two = request.file_name(file).unwrap_or("");
            bail!("{COLLIDES}: `{one}` and `{two}` would both declare `{name}`");
        }
    }
    declared.push((name, file))?;
    Ok(())
}

// Whether a node is a type of its header.
fn is_type(node: &Node) -> bool {
    match &node.body {
        Body::Struct(body) => !body.is_group,
        Body::Enum(_) => true,
        _ => false,
    }
}
