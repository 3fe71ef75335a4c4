//! Structs and groups.
use crate::builders::push_builder;
use crate::code::Code;
use crate::constants::push_constants;
use crate::defaults::push_defaults;
use crate::enums::enum_paths;
use crate::fields::{push_field, push_pointers};
use crate::getters::{Site, shown_of};
use crate::imports::push_module;
use crate::names::module;
use crate::schema::Node;
use crate::templates::{FROM_STRUCT, GROUP_IMPL, GROUP_READER, READER, READER_IMPL};
use crate::unions::Members;

/// Opens the module of a struct, or of a group, and adds everything except the modules in it.
pub fn push_struct(code: &mut Code, site: Site<'_>) {
    code.add_comment(&site.node.comment);
    open_module(code, site.node);
    let mut inner = Code::new(code.alloc, code.depth);
    push_reader(&mut inner, site);
    push_constants(&mut inner, site.request, site.node);
    let inner = code.text(inner.whole());
    if let Some(enums) = code.kept(enum_paths(site)) {
        push_module(code, site.request, &enums, &inner);
    }
}

/// Opens the module of a node.
pub fn open_module(code: &mut Code, node: &Node) {
    let name = code.text(module(code.alloc, &node.name));
    code.add_with("pub mod @name@ {", "name", &name);
    code.depth = code.depth.saturating_add(1);
}

/// Closes a module.
pub fn close_module(code: &mut Code) {
    code.depth = code.depth.saturating_sub(1);
    code.add_lines("}");
}

// Adds the reader, the members of the union where there is one, and how a struct that is no group
// is read.
fn push_reader(code: &mut Code, site: Site<'_>) {
    let is_group = site.body.is_group;
    code.add_lines(if is_group { GROUP_READER } else { READER });
    if !site.body.fields.is_empty() {
        push_getters(code, site);
    }
    if !is_group {
        code.add_lines(FROM_STRUCT);
    }
    if site.request.wanted.builders {
        push_builder(code, site);
    }
    push_pointers(code, site.body);
    push_defaults(code, site);
}

// Adds the getters, and which member of the union is set, where there is one.
fn push_getters(code: &mut Code, site: Site<'_>) {
    code.add_lines(if site.body.is_group {
        GROUP_IMPL
    } else {
        READER_IMPL
    });
    code.depth = code.depth.saturating_add(1);
    let mut members = Members::new(code.alloc);
    for (index, field) in site.body.fields.iter().enumerate() {
        if index > 0 {
            code.add_gap();
        }
        let Some(shown) = code.kept(shown_of(site, field)) else {
            continue;
        };
        push_field(
            code,
            site,
            field,
            site.node.member_comment(index),
            shown.as_ref(),
        );
        if let Some(number) = field.member {
            members.push(field, number, shown.as_ref());
        }
    }
    if let Some(offset) = site.body.discriminant {
        members.push_which(code, site, offset);
    }
    close_module(code);
    if site.body.discriminant.is_some() {
        members.push_enum(code);
    }
}
