//! The getters of fields, and the names of the indices of pointers.
use crate::code::Code;
use crate::getters::{Shown, Site};
use crate::names::{pointer_name, snake};
use crate::numbers::number_of;
use crate::schema::{Base, Field, Place, Slot, Struct};
use crate::templates::{ALWAYS_INLINED, GETTER, HAS, LEFT_OUT, VOID};

// The index of a pointer.
const POINTER: &str = "
/// Which pointer of the struct points to `@field@`, for `fields.get_pointer`.
pub const @name@: u16 = @offset@;
";

/// Adds the getter of a field, with what the schema says of it, and for a pointer the method that
/// returns whether it is there.
pub fn push_field(
    code: &mut Code,
    site: Site<'_>,
    field: &Field,
    comment: &str,
    shown: Option<&Shown>,
) {
    let name = code.text(snake(code.alloc, &field.name));
    let Some(shown) = shown else {
        if !is_nothing(field) {
            return code.add_with(LEFT_OUT, "field", &field.name);
        }
        push_comment(code, field, comment);
        return code.add_with(VOID, "name", &name);
    };
    push_comment(code, field, comment);
    if let Slot::Group(_) = &field.slot {
        code.add_lines(ALWAYS_INLINED);
    }
    let type_name = code.text(shown.type_for(code.alloc, site.borrow()));
    let holes = code
        .holes()
        .holding(
            "signature",
            format!(in code.alloc; "pub fn get_{name}(&self) -> {type_name}"),
        )
        .holding("fact", shown.fact_of(code.alloc, "result"))
        .with("fields", site.fields())
        .with("body", &shown.body);
    code.add(GETTER, &holes);
    push_has(code, site, field, &name);
}

// Adds what the schema says of a field; its name if that is nothing.
fn push_comment(code: &mut Code, field: &Field, comment: &str) {
    if comment.is_empty() {
        code.add_with("/// The field `@name@`.", "name", &field.name);
    } else {
        code.add_comment(comment);
    }
}

// Adds the method that returns whether a field is there, if it is a pointer.
fn push_has(code: &mut Code, site: Site<'_>, field: &Field, name: &str) {
    if let Slot::At(place) = &field.slot
        && is_pointer(place)
    {
        let holes = code
            .holes()
            .with("name", name)
            .with("field", &field.name)
            .with("fields", site.fields())
            .number("offset", place.offset);
        code.add(HAS, &holes);
    }
}

// Whether a field is of type `Void`.
fn is_nothing(field: &Field) -> bool {
    match &field.slot {
        Slot::At(place) => place.of.lists == 0 && place.of.base == Base::Void,
        _ => false,
    }
}

/// Whether there is a pointer at this place.
pub fn is_pointer(place: &Place) -> bool {
    place.of.lists > 0 || (number_of(place.of.base).is_none() && place.of.base != Base::Void)
}

/// Where the pointer of a field is, if it is one that has a getter.
pub fn pointer_of(field: &Field) -> Option<&Place> {
    match &field.slot {
        Slot::At(place) if is_pointer(place) && place.of.base != Base::Interface => Some(place),
        _ => None,
    }
}

/// Adds the index of each pointer of a struct or a group, as a constant.
pub fn push_pointers(code: &mut Code, body: &Struct) {
    for field in &body.fields {
        if let Some(place) = pointer_of(field) {
            let holes = code
                .holes()
                .with("field", &field.name)
                .holding("name", pointer_name(code.alloc, &field.name))
                .number("offset", place.offset);
            code.add(POINTER, &holes);
        }
    }
}
