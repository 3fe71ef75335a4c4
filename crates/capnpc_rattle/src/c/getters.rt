//! Getters of fields.
use crate::c::comments::push_comment;
use crate::c::constants::push_words;
use crate::c::names::{enum_tag, type_name};
use crate::c::numbers::{READ, number_type, read_number};
use crate::c::schema_types::schema_type;
use crate::c::templates::{GET_ANY, GET_NUMBER, GET_POINTER, HAS, LEFT_OUT, POINTER, POINTER_OR};
use crate::c::views::{has_enumerants, read_call, view_name};
use crate::code::{Code, Holes};
use crate::defaults::has_default;
use crate::getters::Site;
use crate::numbers::Stored;
use crate::schema::{Base, Field, Place, Slot};

/// A struct or a group whose functions are written, and the names that these begin with.
#[derive(Drop)]
pub struct Scope<'r> {
    pub site: Site<'r>,
    /// The name of the struct or the group.
    pub prefix: String,
    /// The name of the struct.
    pub owner: String,
}

impl<'r> Scope<'r> {
    /// What a template has of it.
    pub fn holes(&self) -> Holes {
        Holes::new(self.site.request.alloc)
            .with("prefix", &self.prefix)
            .with("struct", &self.owner)
    }

    /// What a template has of a field.
    pub fn field_holes(&self, field: &Field) -> Holes {
        self.holes().with("field", &field.name)
    }

    /// Adds a template of a number in each form in which C has it, an enum in two: by the code that
    /// reads it, and the code that sets it.
    pub fn push_forms(
        &self,
        code: &mut Code,
        template: &str,
        field: &Field,
        stored: &Stored,
        read: &str,
        set: &Code,
    ) {
        let request = self.site.request;
        let mut suffix = "";
        if let Base::Enum(id) = stored.base
            && has_enumerants(request, id)
        {
            let tag = code.text(enum_tag(request, id));
            let name = code.text(type_name(request, id));
            let holes = self
                .field_holes(field)
                .holding("type", format!(in code.alloc; "enum {tag}"))
                .with("suffix", suffix)
                .holding("value", format!(in code.alloc; "{name}_of_number({read})"))
                .code("code", set);
            code.add(template, &holes);
            suffix = "_number";
        }
        let holes = self
            .field_holes(field)
            .with("type", number_type(stored.number))
            .with("suffix", suffix)
            .with("value", read)
            .code("code", set);
        code.add(template, &holes);
    }
}

/// Adds the getter of a field, with what the schema says of it, and for a pointer what says whether
/// it is set. A group has none: its fields have.
pub fn push_getter(code: &mut Code, scope: &Scope<'_>, field: &Field, comment: &str) {
    let Slot::At(place) = &field.slot else {
        return;
    };
    match place.of.base {
        Base::Void if place.of.lists == 0 => return,
        Base::Interface => return code.add_with(LEFT_OUT, "field", &field.name),
        _ => code.add_gap(),
    }
    if let Some(stored) = Stored::at_place(place) {
        push_description(code, scope, field, place, comment);
        let read = code.text(read_number(code.alloc, READ, &stored));
        let set = Code::new(code.alloc, 0);
        return scope.push_forms(code, GET_NUMBER, field, &stored, &read, &set);
    }
    let (prefix, name) = (scope.prefix.as_str(), field.name.as_str());
    let words = code.text(format!(in code.alloc; "{prefix}_{name}_default"));
    if has_default(place) {
        push_words(code, &words, &place.default);
    }
    push_description(code, scope, field, place, comment);
    push_pointer(code, scope, field, place, &words);
}

// Adds what the schema says of a field: its name, its type and its comment.
fn push_description(
    code: &mut Code,
    scope: &Scope<'_>,
    field: &Field,
    place: &Place,
    comment: &str,
) {
    let of = code.text(schema_type(scope.site.request, place.of));
    let name = field.name.as_str();
    let described = code.text(format!(in code.alloc; "{name} :{of}\n{comment}"));
    push_comment(code, &described);
}

// Adds the getter of a pointer, whose default, if it has one, has words of this name.
fn push_pointer(code: &mut Code, scope: &Scope<'_>, field: &Field, place: &Place, words: &str) {
    let holes = scope
        .field_holes(field)
        .number("offset", place.offset)
        .holding("view", view_name(scope.site.request, place.of))
        .with("words", words);
    match code.kept(read_call(code.alloc, place.of)) {
        Some(Some(call)) => {
            let pointer = holes.fill(if has_default(place) {
                POINTER_OR
            } else {
                POINTER
            });
            let holes = holes.holding("pointer", pointer).with("call", &call);
            code.add(GET_POINTER, &holes);
            code.add(HAS, &holes);
        }
        _ => {
            code.add(GET_ANY, &holes);
            code.add(HAS, &holes);
        }
    }
}
