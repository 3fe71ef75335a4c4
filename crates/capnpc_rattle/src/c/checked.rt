//! Checks of names before a header is written: each has to be one, and no two things may have the
//! same one.
use crate::c::names::is_taken;
use crate::checked::expect_name;
use crate::schema::{Body, Node};
use anyhow::{Result, bail};
use std::alloc::Global;

/// What is said of names that collide.
pub const COLLIDES: &str = "names collide (see rattle.capnp)";

/// Fails for what is not a name, of a node, its fields or its enumerants.
pub fn check_names(node: &Node) -> Result<()> {
    match &node.body {
        Body::File if !node.prefix.is_empty() => return expect_name(&node.prefix),
        Body::File | Body::Other => return Ok(()),
        Body::Struct(body) => {
            for field in &body.fields {
                expect_name(&field.name)?;
            }
        }
        Body::Enum(names) => {
            for name in names {
                expect_name(name)?;
            }
        }
        Body::Interface | Body::Constant(_, _) => {}
    }
    expect_name(&node.name)
}

/// Fails for a header in which two functions, constants, enumerators or types have one name.
pub fn check_header(alloc: Global, header: &str) -> Result<()> {
    let mut names: Vec<&str> = Vec::new(alloc);
    let mut tags: Vec<&str> = Vec::new(alloc);
    for line in header.lines() {
        if let Some(tag) = tag_in(line) {
            add(&mut tags, tag)?;
        } else if let Some(name) = name_in(line) {
            add(&mut names, name)?;
        }
    }
    Ok(())
}

// Adds a name, unless it is there.
fn add<'a>(names: &mut Vec<&'a str>, name: &'a str) -> Result<()> {
    if names.contains(&name) {
        bail!("{COLLIDES}: two parts of the schema would both be named `{name}`");
    }
    if name.starts_with("linsjoar_") {
        bail!("{COLLIDES}: `{name}` would be a name of the library");
    }
    if is_taken(name) {
        bail!("{COLLIDES}: `{name}` would be a word of C or C++");
    }
    names.push(name)?;
    Ok(())
}

// The tag of the type that a line begins to declare.
fn tag_in<'a>(line: &'a str) -> Option<&'a str> {
    let head = line.strip_suffix(" {")?;
    head.strip_prefix("struct ").or(head.strip_prefix("enum "))
}

// The name of the function, the constant or the enumerator that a line begins to declare.
fn name_in<'a>(line: &'a str) -> Option<&'a str> {
    if let Some(declared) = line.strip_prefix("static inline ") {
        let (head, _) = declared.split_once('(')?;
        return last_word(head);
    }
    if let Some(declared) = line.strip_prefix("static const ") {
        let array = declared.split_once('[');
        let (head, _) = array.or(declared.split_once(" = "))?;
        return last_word(head);
    }
    let enumerator = line.strip_prefix("    ")?.strip_suffix(',')?;
    match enumerator.split_once(" = ") {
        Some((name, _)) if !name.contains(' ') => Some(name),
        _ => None,
    }
}

// The last word of a declaration.
fn last_word<'a>(head: &'a str) -> Option<&'a str> {
    let (_, last) = head.rsplit_once(' ')?;
    Some(last)
}
