//! Setters of fields.
use crate::c::builder_templates::{
    CLEARING, COPY, INIT, SELECT_GROUP, SET_NUMBER, SET_POINTER, SET_VOID,
};
use crate::c::getters::Scope;
use crate::c::names::type_name;
use crate::c::numbers::{DRAFT, read_number, set_number};
use crate::c::views::view_name;
use crate::cleared::cleared_by;
use crate::code::Code;
use crate::getters::Site;
use crate::numbers::Stored;
use crate::owners::{Owner, is_member, parent_of};
use crate::schema::{Field, MAX_DEPTH, Slot};
use crate::setters::{is_data, push_tags};

/// Adds the setters of a struct's or a group's own fields, and for a group that is a member of a
/// union what selects it.
pub fn push_setters(code: &mut Code, scope: &Scope<'_>, owner: &Owner<'_>) {
    if is_member(scope.site)
        && let Some(cleared) = code.kept(cleared_by(scope.site))
    {
        let lines = cleared.code(code.alloc, &owner.tags, CLEARING);
        code.add(INIT, &scope.holes().code("code", &lines));
    }
    let mut is_first = true;
    for field in &scope.site.body.fields {
        if owner.has_setter(field) {
            if is_first {
                code.add_gap();
            }
            is_first = false;
            push_setter(code, scope, field);
        }
    }
}

// Adds the setter of a field.
fn push_setter(code: &mut Code, scope: &Scope<'_>, field: &Field) {
    let Slot::At(place) = &field.slot else {
        return;
    };
    let mut lines = selecting(scope.site, field);
    if let Some(stored) = Stored::at_place(place) {
        lines.add_made(set_number(code.alloc, &stored));
        let read = code.text(read_number(code.alloc, DRAFT, &stored));
        return scope.push_forms(code, SET_NUMBER, field, &stored, &read, &lines);
    }
    let holes = scope.field_holes(field);
    if is_data(field) {
        return code.add(SET_VOID, &holes.code("code", &lines));
    }
    let holes = holes
        .number("offset", place.offset)
        .holding("view", view_name(scope.site.request, place.of));
    lines.add("draft->orphans[@offset@] = orphan.word;", &holes);
    let holes = holes.code("code", &lines);
    code.add(SET_POINTER, &holes);
    code.add(COPY, &holes);
}

// The code that selects a field: each group around it that is a member of a union where another one
// is, from the outermost on, which clears all in it, and then the field itself.
fn selecting(site: Site<'_>, field: &Field) -> Code {
    let mut lines = Code::new(site.request.alloc, 0);
    if let Some(offset) = site.body.discriminant
        && let Some(number) = field.member
    {
        push_tags(&mut lines, CLEARING.tag, &[(offset, number)]);
    }
    let mut group = site;
    for _ in 0..MAX_DEPTH {
        let Some((parent, field)) = parent_of(group) else {
            break;
        };
        if let Some(offset) = parent.body.discriminant
            && let Some(number) = field.member
        {
            let holes = lines
                .holes()
                .number("offset", offset)
                .number("number", number)
                .holding("name", type_name(site.request, group.node.id));
            let mut outer = Code::new(site.request.alloc, 0);
            outer.add(SELECT_GROUP, &holes);
            outer.add_made(lines.whole());
            lines = outer;
        }
        group = parent;
    }
    lines
}
