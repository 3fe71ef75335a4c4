//! Enums.
use crate::builder_templates::ENUM_NUMBER;
use crate::code::{Code, Holes};
use crate::getters::Site;
use crate::names::{enum_type, scope_name, variant};
use crate::paths::path_to;
use crate::schema::{Base, Body, Field, Node, Request, Slot};
use crate::templates::{ENUM_END, ENUM_HEAD};
use std::alloc::{AllocError, Global};

/// The lines of a text about an enum: the template of each enumerant's line, and the last line.
/// `@type@` stands for the enum, `@variant@` for the variant, and `@count@` for its number, or for
/// how many there are.
pub type Lines<'t> = (&'t str, &'t str);

/// The cases of a clause over an enum that is read: which number each enumerant has, and that any
/// other number is kept.
pub const READ_CASES: Lines<'static> = (
    "  | @type@.@variant@ ↦ number $≡ @count@",
    "  | @type@.NotInSchema unknown ↦ (unknown $≡ number) × (@count@ $≤ number)",
);

// The arms that return a variant by its number.
const READ_ARMS: Lines<'static> = (
    "@count@ => @type@::@variant@,",
    "unknown => @type@::NotInSchema(unknown),",
);

// The cases of a clause that says which number each variant has.
const NUMBER_CASES: Lines<'static> = (
    "  | @type@.@variant@ ↦ result $≡ @count@",
    "  | @type@.NotInSchema unknown ↦ result $≡ unknown",
);

// The arms that return the number of a variant.
const NUMBER_ARMS: Lines<'static> = (
    "@type@::@variant@ => @count@,",
    "@type@::NotInSchema(unknown) => unknown,",
);

/// A line for each of these enumerants, and then the last one, without a line end after it.
pub fn lines_of(
    alloc: Global,
    type_name: &str,
    names: &[String],
    lines: Lines<'_>,
) -> Result<String, AllocError> {
    let mut code = Code::new(alloc, 0);
    for (number, name) in names.iter().enumerate() {
        let holes = line_holes(alloc, type_name, number);
        code.add(lines.0, &holes.holding("variant", variant(alloc, name)));
    }
    code.add(lines.1, &line_holes(alloc, type_name, names.len()));
    code.without_end()
}

// The holes of a line of an enum, with the number of the line or of all of them.
fn line_holes(alloc: Global, type_name: &str, count: usize) -> Holes {
    Holes::new(alloc)
        .with("type", type_name)
        .number("count", count as u64)
}

/// The name of an enum in the module of a struct that has a field of it: its own, unless an enum of
/// that name is in the module already. Then the name of what it is declared in comes in front.
pub fn enum_name(site: Site<'_>, id: u64) -> Result<String, AllocError> {
    let alloc = site.request.alloc;
    let Some(node) = site.request.find(id) else {
        return String::from_str(alloc, "u16");
    };
    let name = enum_type(alloc, &node.name)?;
    if !is_other(site, node, &name)? {
        return Ok(name);
    }
    let mut longer = match site.request.find(node.scope) {
        Some(scope) => scope_name(alloc, &scope.name)?,
        None => String::new(alloc),
    };
    longer.push_str(&name)?;
    Ok(longer)
}

// Whether another enum has this name in the module: one that is declared there, or the enum of an
// earlier field.
fn is_other(site: Site<'_>, node: &Node, name: &str) -> Result<bool, AllocError> {
    if node.scope == site.node.id {
        return Ok(false);
    }
    for nested in &site.node.nested {
        if is_named(site.request, *nested, name)? {
            return Ok(true);
        }
    }
    for id in &enums_of(site)? {
        if *id == node.id {
            return Ok(false);
        }
        if is_named(site.request, *id, name)? {
            return Ok(true);
        }
    }
    Ok(false)
}

// Whether a node is an enum of this name.
fn is_named(request: &Request, id: u64, name: &str) -> Result<bool, AllocError> {
    let Some(node) = request.find(id) else {
        return Ok(false);
    };
    match &node.body {
        Body::Enum(_) => Ok(enum_type(request.alloc, &node.name)?.as_str() == name),
        _ => Ok(false),
    }
}

// The enums of a struct's fields, each once.
fn enums_of(site: Site<'_>) -> Result<Vec<u64>, AllocError> {
    let mut found: Vec<u64> = Vec::new(site.request.alloc);
    for field in &site.body.fields {
        if let Some(id) = enum_of(field)
            && !found.contains(&id)
        {
            found.push(id)?;
        }
    }
    Ok(found)
}

// The enum of a field, if it has one.
fn enum_of(field: &Field) -> Option<u64> {
    match &field.slot {
        Slot::At(place) if place.of.lists == 0 => match place.of.base {
            Base::Enum(id) => Some(id),
            _ => None,
        },
        _ => None,
    }
}

/// The paths by which a module of a struct imports the enums of its fields, so that clauses may
/// name their variants.
pub fn enum_paths(site: Site<'_>) -> Result<Vec<String>, AllocError> {
    let mut paths: Vec<String> = Vec::new(site.request.alloc);
    for id in &enums_of(site)? {
        if let Some(node) = site.request.find(*id)
            && node.scope != site.node.id
        {
            paths.push(enum_path(site, node)?)?;
        }
    }
    Ok(paths)
}

// The path by which a module of a struct imports an enum.
fn enum_path(site: Site<'_>, node: &Node) -> Result<String, AllocError> {
    let path = path_to(site.request, site.node.id, node.id)?;
    let name = enum_name(site, node.id)?;
    if enum_type(site.request.alloc, &node.name)?.as_str() == name.as_str() {
        return Ok(path);
    }
    format!(in site.request.alloc; "{path} as {name}")
}

/// Adds an enum.
pub fn push_enum(code: &mut Code, request: &Request, node: &Node, names: &[String]) {
    let alloc = code.alloc;
    let type_name = code.text(enum_type(alloc, &node.name));
    code.add_comment(&node.comment);
    code.add_with(ENUM_HEAD, "type", &type_name);
    push_variants(code, node, names);
    let holes = line_holes(alloc, &type_name, names.len())
        .holding("cases", lines_of(alloc, &type_name, names, READ_CASES))
        .holding("arms", lines_of(alloc, &type_name, names, READ_ARMS));
    code.add(ENUM_END, &holes);
    if request.wanted.builders {
        let holes = code
            .holes()
            .with("type", &type_name)
            .holding("cases", lines_of(alloc, &type_name, names, NUMBER_CASES))
            .holding("arms", lines_of(alloc, &type_name, names, NUMBER_ARMS));
        code.add(ENUM_NUMBER, &holes);
    }
}

// Adds the variants of an enum, each with what the schema says of it.
fn push_variants(code: &mut Code, node: &Node, names: &[String]) {
    code.depth = code.depth.saturating_add(1);
    for (index, name) in names.iter().enumerate() {
        code.add_comment(node.member_comment(index));
        let variant = code.text(variant(code.alloc, name));
        code.add_with("@name@,", "name", &variant);
    }
    code.depth = code.depth.saturating_sub(1);
}
