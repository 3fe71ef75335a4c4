//! Builders: structs before they are written.
use crate::builder_templates::{ACCESSORS, BUILDER, HAS_SET};
use crate::cleared::push_init;
use crate::code::Code;
use crate::getters::{Shown, Site, shown_of};
use crate::owners::{Owner, owner_of};
use crate::schema::{Base, Field, Slot};
use crate::setters::{is_data, push_setter};
use crate::structs::close_module;
use crate::templates::GETTER;

/// Adds the builder of a struct, with the setters of its fields; for a group only the setters.
pub fn push_builder(code: &mut Code, site: Site<'_>) {
    let Some(Some(owner)) = code.kept(owner_of(site)) else {
        return;
    };
    if !site.body.is_group {
        let holes = code
            .holes()
            .number("words", site.body.data_words)
            .number("pointers", site.body.pointers);
        code.add(BUILDER, &holes);
    }
    push_accessors(code, &owner);
}

// Adds the setters and getters of the fields.
fn push_accessors(code: &mut Code, owner: &Owner<'_>) {
    let mut accessors = Code::new(code.alloc, code.depth.saturating_add(1));
    push_init(&mut accessors, owner);
    for (index, field) in owner.site.body.fields.iter().enumerate() {
        push_setter(
            &mut accessors,
            owner,
            field,
            owner.site.node.member_comment(index),
        );
        push_set_getter(&mut accessors, owner, field);
    }
    let accessors = code.text(accessors.whole());
    if accessors.is_empty() {
        return;
    }
    code.add_with(ACCESSORS, "path", &owner.path);
    code.add_code(&accessors);
    code.depth = code.depth.saturating_add(1);
    close_module(code);
}

// Adds the getter of a number, a bool or an enum, and for a pointer the method that returns
// whether it is set.
fn push_set_getter(code: &mut Code, owner: &Owner<'_>, field: &Field) {
    let Slot::At(place) = &field.slot else {
        return;
    };
    if place.of.base == Base::Interface {
        return;
    }
    let name = code.text(owner.field_name(field));
    if !is_data(field) {
        let holes = code
            .holes()
            .with("field", &field.name)
            .with("name", &name)
            .number("offset", place.offset);
        code.add(HAS_SET, &holes);
    } else if let Some(Some(shown)) = code.kept(shown_of(owner.site, field)) {
        push_getter(code, field, &name, &shown);
    }
}

// Adds the getter of a value in the data section. Its code is a reader's, with a draft in place of
// the fields.
fn push_getter(code: &mut Code, field: &Field, name: &str, shown: &Shown) {
    let type_name = &shown.type_name;
    let holes = code
        .holes()
        .holding(
            "signature",
            format!(in code.alloc; "pub fn get_{name}(&self) -> {type_name}"),
        )
        .holding("fact", shown.fact_of(code.alloc, "result"))
        .with("fields", "self.now.draft")
        .holding(
            "body",
            shown
                .body
                .replace(code.alloc, "self.fields.", "self.draft."),
        );
    code.add_gap();
    code.add_with("/// The field `@name@`, as it is set.", "name", &field.name);
    code.add(GETTER, &holes);
}
