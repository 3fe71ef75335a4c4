//! Structs and groups: their types, what reads them and what builds them.
use crate::c::builder_templates::DRAFT_WHICH;
use crate::c::builders::{push_adding, push_draft};
use crate::c::comments::push_comment;
use crate::c::enums::push_members;
use crate::c::getters::{Scope, push_getter};
use crate::c::names::type_name;
use crate::c::setters::push_setters;
use crate::c::templates::{READ, READERS, WHICH};
use crate::code::Code;
use crate::getters::Site;
use crate::owners::{Owner, owner_of};
use crate::schema::{Node, Request, Struct};

/// Adds the types of a struct, which a group has not, and the enum of its union's members.
pub fn push_types(code: &mut Code, request: &Request, node: &Node, body: &Struct) {
    let name = code.text(type_name(request, node.id));
    if !body.is_group {
        code.add_gap();
        push_comment(code, &node.comment);
        code.add_with(READERS, "name", &name);
        if request.wanted.builders {
            push_draft(code, &name, body);
        }
    }
    if body.discriminant.is_some() {
        push_members(code, &name, body);
    }
}

/// Adds what reads and builds a struct or a group.
pub fn push_struct(code: &mut Code, site: Site<'_>) {
    let Some(Some(owner)) = code.kept(owner_of(site)) else {
        return;
    };
    let scope = Scope {
        site,
        prefix: code.text(type_name(site.request, site.node.id)),
        owner: code.text(type_name(site.request, owner.id)),
    };
    push_reader(code, &scope);
    if site.request.wanted.builders {
        push_builder(code, &scope, &owner);
    }
}

// Adds what reads a struct or a group.
fn push_reader(code: &mut Code, scope: &Scope<'_>) {
    let site = scope.site;
    if !site.body.is_group {
        code.add_with(READ, "name", &scope.prefix);
    }
    push_which(code, WHICH, scope);
    for (index, field) in site.body.fields.iter().enumerate() {
        push_getter(code, scope, field, site.node.member_comment(index));
    }
}

// Adds what builds a struct or a group.
fn push_builder(code: &mut Code, scope: &Scope<'_>, owner: &Owner<'_>) {
    if !scope.site.body.is_group {
        push_adding(code, &scope.prefix, scope.site.body);
    }
    push_which(code, DRAFT_WHICH, scope);
    push_setters(code, scope, owner);
}

// Adds what says which member of a union is set, if there is one.
fn push_which(code: &mut Code, template: &str, scope: &Scope<'_>) {
    if let Some(offset) = scope.site.body.discriminant {
        code.add(template, &scope.holes().number("offset", offset));
    }
}
