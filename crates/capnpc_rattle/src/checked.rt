//! Checks of a schema before code is written for it: the nodes that its types name have to be
//! there, and no two names of one scope may become one.
use crate::c::checked::check_names;
use crate::fields::pointer_of;
use crate::getters::Site;
use crate::names::{constant, default_name, enum_type, module, pointer_name, snake, variant};
use crate::owners::{Owner, is_member, owner_of};
use crate::schema::{Base, Body, Field, Node, Place, Request, Slot, Struct};
use anyhow::{Context, Result, bail};
use std::alloc::{AllocError, Global};

// What is said of names that collide.
const COLLIDES: &str = "names collide (see rattle.capnp)";

/// Fails with what is wrong with a file of a request, where something is.
pub fn check_file(request: &Request, file: u64) -> Result<()> {
    let mut left: Vec<u64> = Vec::new(request.alloc);
    left.push(file)?;
    for _ in 0..u64::MAX {
        let Some(id) = left.pop() else {
            break;
        };
        let Some(node) = request.find(id) else {
            bail!("the request has no node {id:#x}");
        };
        check_node(request, node, &mut left)?;
    }
    Ok(())
}

// Fails with what is wrong with a node, and adds to the nodes that are left the ones declared in
// it, and its groups.
fn check_node(request: &Request, node: &Node, left: &mut Vec<u64>) -> Result<()> {
    left.extend_from_slice(&node.nested)?;
    if let Body::Struct(body) = &node.body {
        check_fields(request, node, body)?;
        push_groups(left, body)?;
        if request.wanted.builders && !request.wanted.for_c && !body.is_group {
            check_setters(request, node.id)?;
        }
    }
    if request.wanted.for_c {
        return check_names(node);
    }
    check_scope(request, node)?;
    check_variants(request.alloc, node)
}

// Adds the groups of a struct to the nodes that are left.
fn push_groups(left: &mut Vec<u64>, body: &Struct) -> Result<()> {
    for field in &body.fields {
        if let Slot::Group(group) = field.slot {
            left.push(group)?;
        }
    }
    Ok(())
}

// Fails for a field of a struct whose type is not known, or not declared in the request.
fn check_fields(request: &Request, node: &Node, body: &Struct) -> Result<()> {
    for field in &body.fields {
        let is_known = match &field.slot {
            Slot::At(place) => is_declared(request, place),
            Slot::Group(_) => true,
            Slot::Unknown => false,
        };
        if !is_known {
            let (name, field) = (node.name.as_str(), field.name.as_str());
            bail!("the type of `{field}` of `{name}` is not in the request");
        }
    }
    Ok(())
}

// Whether the node of a field's type is in the request, and is of the kind that the type has.
fn is_declared(request: &Request, place: &Place) -> bool {
    match place.of.base {
        Base::Enum(id) => match request.find(id) {
            Some(node) => matches!(&node.body, Body::Enum(_)),
            None => false,
        },
        Base::Struct(id) => match request.find(id) {
            Some(node) => matches!(&node.body, Body::Struct(_)),
            None => false,
        },
        _ => true,
    }
}

/// The names that the code has in one scope, each with what has it in the schema.
#[derive(Drop)]
struct Names {
    alloc: Global,
    taken: Vec<(String, String)>,
}

impl Names {
    // No names.
    fn new(alloc: Global) -> Names {
        Names {
            alloc,
            taken: Vec::new(alloc),
        }
    }

    // Adds the name that a declaration of the schema has; names that differ only in capitals count
    // as one.
    fn add(&mut self, name: Result<String, AllocError>, of: &str) -> Result<()> {
        let name = name?;
        self.expect_new(&name, of).context(COLLIDES)?;
        let of = String::from_str(self.alloc, of)?;
        self.taken.push((name, of))?;
        Ok(())
    }

    // Fails for a name that is taken already.
    fn expect_new(&self, name: &str, of: &str) -> Result<()> {
        for (other, one) in &self.taken {
            if other.eq_ignore_ascii_case(name) {
                bail!("`{one}` and `{of}` would both be named `{name}`");
            }
        }
        Ok(())
    }
}

// Fails for two declarations of a node that would have the same name.
fn check_scope(request: &Request, node: &Node) -> Result<()> {
    let mut items = Names::new(request.alloc);
    let mut constants = Names::new(request.alloc);
    for id in &node.nested {
        if let Some(nested) = request.find(*id) {
            add_declared(&mut items, &mut constants, nested)?;
        }
    }
    if let Body::Struct(body) = &node.body {
        add_fields(&mut items, &mut constants, body)?;
    }
    Ok(())
}

// Adds the name of what a node declares.
fn add_declared(items: &mut Names, constants: &mut Names, node: &Node) -> Result<()> {
    let alloc = items.alloc;
    let name = node.name.as_str();
    expect_name(name)?;
    match &node.body {
        Body::Struct(_) => items.add(module(alloc, name), name),
        Body::Interface if !node.nested.is_empty() => items.add(module(alloc, name), name),
        Body::Enum(_) => items.add(enum_type(alloc, name), name),
        Body::Constant(_, _) => constants.add(constant(alloc, name), name),
        _ => Ok(()),
    }
}

// Adds the names of a struct's groups, and of the defaults of its fields.
fn add_fields(items: &mut Names, constants: &mut Names, body: &Struct) -> Result<()> {
    let alloc = items.alloc;
    for field in &body.fields {
        let name = field.name.as_str();
        match field.slot {
            Slot::Group(_) => items.add(module(alloc, name), name)?,
            _ => constants.add(default_name(alloc, name), name)?,
        }
        if pointer_of(field).is_some() {
            constants.add(pointer_name(alloc, name), name)?;
        }
    }
    Ok(())
}

/// Fails for what is not a name, which an annotation may have given.
pub fn expect_name(name: &str) -> Result<()> {
    if name.starts_with(is_letter) && name.chars().all(is_letter_of_name) {
        return Ok(());
    }
    bail!("`{name}` is no name: letters and digits, a letter in front");
}

// Whether a name may begin with a letter.
fn is_letter(letter: char) -> bool {
    letter.is_ascii_alphabetic()
}

// Whether a name may have a letter.
fn is_letter_of_name(letter: char) -> bool {
    letter.is_ascii_alphanumeric() || letter == '_'
}

// Fails for two enumerants, or fields, that would have the same name.
fn check_variants(alloc: Global, node: &Node) -> Result<()> {
    let mut names = Names::new(alloc);
    match &node.body {
        Body::Enum(enumerants) => {
            for name in enumerants {
                expect_name(name)?;
                names.add(variant(alloc, name), name)?;
            }
        }
        Body::Struct(body) => {
            for field in &body.fields {
                expect_name(&field.name)?;
                names.add(snake(alloc, &field.name), &field.name)?;
            }
        }
        _ => {}
    }
    Ok(())
}

// Fails for two fields of a struct, with its groups, whose setters would have the same name.
fn check_setters(request: &Request, id: u64) -> Result<()> {
    let mut setters = Names::new(request.alloc);
    let mut left: Vec<u64> = Vec::new(request.alloc);
    left.push(id)?;
    for _ in 0..u64::MAX {
        let Some(id) = left.pop() else {
            break;
        };
        if let Some(site) = Site::find(request, id) {
            add_setters(&mut setters, site)?;
            push_groups(&mut left, site.body)?;
        }
    }
    Ok(())
}

// Adds the names of the setters of a struct's or a group's own fields.
fn add_setters(setters: &mut Names, site: Site<'_>) -> Result<()> {
    match owner_of(site)? {
        Some(owner) => add_setters_of(setters, &owner),
        None => Ok(()),
    }
}

// Adds the names of these setters, by the struct that they set fields of.
fn add_setters_of(setters: &mut Names, owner: &Owner<'_>) -> Result<()> {
    if is_member(owner.site) {
        setters.add(init_name(owner), owner.group())?;
    }
    for field in &owner.site.body.fields {
        if owner.has_setter(field) {
            let of = format!(in setters.alloc; "{}{}", owner.groups, field.name)?;
            setters.add(setter_name(owner, field), &of)?;
        }
    }
    Ok(())
}

// The name of the setter that selects a group.
fn init_name(owner: &Owner<'_>) -> Result<String, AllocError> {
    let group = owner.group_name()?;
    format!(in owner.site.request.alloc; "init_{group}")
}

// The name of a field's setter.
fn setter_name(owner: &Owner<'_>, field: &Field) -> Result<String, AllocError> {
    let field = owner.field_name(field)?;
    format!(in owner.site.request.alloc; "set_{field}")
}
