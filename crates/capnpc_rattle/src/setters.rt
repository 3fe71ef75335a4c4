//! The setters of fields.
use crate::builder_templates::{NUMBER_SETTER, POINTER_SETTER, STAYS, VOID_SETTER};
use crate::code::{Code, Holes};
use crate::enums::enum_name;
use crate::getters::Site;
use crate::numbers::{NumberKind, Stored, literal, number_of};
use crate::owners::Owner;
use crate::paths::path_to;
use crate::schema::{Base, Field, Slot, Type};
use crate::set_words::{number_clause, words_clause, words_with};
use crate::views::in_lists;
use std::alloc::{AllocError, Global};

/// How the number of a union is set.
pub const SET_TAG: &str = "self.draft.set_data_field::<u16>(@offset@, @number@);";

/// Whether a field is in the data section, or of type `Void`.
pub fn is_data(field: &Field) -> bool {
    match &field.slot {
        Slot::At(place) => {
            place.of.lists == 0
                && (place.of.base == Base::Void || number_of(place.of.base).is_some())
        }
        _ => false,
    }
}

// The code that sets these numbers of unions, and then sets a field with this call.
fn code_of(alloc: Global, tags: &[(u32, u16)], call: &str) -> Result<String, AllocError> {
    let mut code = Code::new(alloc, 0);
    push_tags(&mut code, SET_TAG, tags);
    code.add_lines(call);
    code.without_end()
}

/// Adds the code that sets these numbers of unions, a line of this template for each.
pub fn push_tags(code: &mut Code, template: &str, tags: &[(u32, u16)]) {
    for (offset, number) in tags {
        let holes = code.holes().number("offset", *offset);
        code.add(template, &holes.number("number", *number));
    }
}

/// Adds the setter of a field, if it has one.
pub fn push_setter(code: &mut Code, owner: &Owner<'_>, field: &Field, comment: &str) {
    let Slot::At(place) = &field.slot else {
        return;
    };
    if !owner.has_setter(field) {
        return;
    }
    push_comment(code, field, comment);
    let Some(tags) = code.kept(owner.tags_of(field)) else {
        return;
    };
    let holes = code.holes().holding("name", owner.field_name(field));
    match Stored::at_place(place) {
        Some(stored) => push_number_setter(code, owner.site, &stored, holes, &tags),
        None if is_data(field) => {
            let words = code.text(words_with(code.alloc, &tags));
            let holes = holes
                .holding("clause", words_clause(code.alloc, &words))
                .holding("code", code_of(code.alloc, &tags, ""));
            code.add(VOID_SETTER, &holes);
        }
        None => {
            let holes = with_type(holes, owner.site, place.of);
            push_pointer_setter(code, place.offset, holes, &tags);
        }
    }
}

// Adds what the schema says of a field that is set; its name if that is nothing.
fn push_comment(code: &mut Code, field: &Field, comment: &str) {
    if !code.as_str().is_empty() {
        code.add_gap();
    }
    if comment.is_empty() {
        code.add_with("/// Sets the field `@name@`.", "name", &field.name);
    } else {
        code.add_with("/// Sets the field `@name@`:", "name", &field.name);
        code.add_comment(comment);
    }
}

// Adds the setter of a number, a bool or an enum.
fn push_number_setter(
    code: &mut Code,
    site: Site<'_>,
    stored: &Stored,
    holes: Holes,
    tags: &[(u32, u16)],
) {
    let words = code.text(words_with(code.alloc, tags));
    let call = code.text(call_of(code.alloc, stored));
    let holes = holes
        .holding("type", type_of(site, stored))
        .holding("clause", number_clause(site, stored, &words))
        .holding("code", code_of(code.alloc, tags, &call));
    code.add(NUMBER_SETTER, &holes);
}

// Adds the setter of a pointer.
fn push_pointer_setter(code: &mut Code, offset: u32, holes: Holes, tags: &[(u32, u16)]) {
    let words = code.text(words_with(code.alloc, tags));
    let call = code.text(format!(in code.alloc; "self.draft.adopt({offset}, value);"));
    let holes = holes
        .number("offset", offset)
        .holding("clause", words_clause(code.alloc, &words))
        .holding("code", code_of(code.alloc, tags, &call));
    code.add_lines(STAYS);
    code.add(POINTER_SETTER, &holes);
}

// The holes, with the type of what a pointer is set to. If that may be any type, it is a parameter
// of the setter.
fn with_type(holes: Holes, site: Site<'_>, of: Type) -> Holes {
    if of.lists == 0 && of.base == Base::AnyPointer {
        return holes.with("generic", "<T>").with("owned", "T");
    }
    holes
        .with("generic", "")
        .holding("owned", owned_type(site, of))
}

// The type of the orphans that a pointer of this type may point to, as the module of a site names
// it. It is not called for interfaces, which have no setters.
fn owned_type(site: Site<'_>, of: Type) -> Result<String, AllocError> {
    let list = "$capnp_wire::list_list::Owned<";
    in_lists(
        site.request.alloc,
        list,
        of.pointer_lists(),
        inner_type(site, of),
    )
}

// The type within the lists of pointers: the type of the base, or of a list of structs or of
// numbers.
fn inner_type(site: Site<'_>, of: Type) -> Result<String, AllocError> {
    let alloc = site.request.alloc;
    match of.base {
        Base::Text => String::from_str(alloc, "$text::Owned"),
        Base::Data => String::from_str(alloc, "$capnp_wire::data::Owned"),
        Base::AnyPointer | Base::Interface => String::from_str(alloc, "$any_pointer::Owned"),
        Base::Struct(id) => {
            let path = path_to(site.request, site.node.id, id)?;
            let owned = if of.lists == 0 { "Owned" } else { "OwnedList" };
            format!(in alloc; "{path}::{owned}")
        }
        _ => {
            let element = match number_of(of.base) {
                Some(number) => number.type_name,
                None => "()",
            };
            format!(in alloc; "$capnp_wire::primitive_list::Owned<{element}>")
        }
    }
}

// The type of a number, a bool or an enum.
fn type_of(site: Site<'_>, stored: &Stored) -> Result<String, AllocError> {
    match stored.base {
        Base::Enum(id) => enum_name(site, id),
        _ => String::from_str(site.request.alloc, stored.number.type_name),
    }
}

// The call that sets a number.
fn call_of(alloc: Global, stored: &Stored) -> Result<String, AllocError> {
    let offset = stored.offset;
    let value = match stored.base {
        Base::Enum(_) => "value.to_number()",
        _ => "value",
    };
    if stored.default == 0 {
        return format!(in alloc; "self.draft.set_data_field({offset}, {value});");
    }
    if stored.number.kind == NumberKind::Float {
        return float_call(alloc, stored);
    }
    let default = literal(alloc, stored.number, stored.default)?;
    format!(in alloc; "self.draft.set_data_field_mask({offset}, {value}, {default});")
}

// The call that sets a float that has a default, by its bits, since a default may be a NaN.
fn float_call(alloc: Global, stored: &Stored) -> Result<String, AllocError> {
    let (offset, default) = (stored.offset, stored.default);
    let (bits, all) = if stored.number.width == 32 {
        ("u32", " as u32")
    } else {
        ("u64", "")
    };
    let set = "self.draft.set_data_field_mask";
    format!(in alloc;
        "let bits = $PrimitiveElement::to_bits(value){all};\n{set}::<{bits}>({offset}, bits, {default});"
    )
}
