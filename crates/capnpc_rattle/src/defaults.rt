//! Defaults of pointers.
use crate::code::{Code, Holes};
use crate::constants::{StaticValue, push_view};
use crate::getters::{Shown, Site};
use crate::names::{default_name, snake};
use crate::paths::path_to;
use crate::schema::{Base, Field, Place, Slot, Value};
use crate::templates::{
    DEFAULT_BODY, DEFAULT_DATA_BODY, DEFAULT_DATA_FACT, DEFAULT_FACT, OR_DEFAULT_BODY,
    OR_DEFAULT_FACT,
};
use crate::views::{CONSTANT, MESSAGE, View, is_plain, view_of};
use crate::words::{sets_no_pointers, words_of};
use std::alloc::{AllocError, Global};

/// The two views of a pointer that has a default; its getter returns one of them.
#[derive(Drop)]
struct Views {
    /// A view of what the message has, if the pointer is not null there.
    stored: View,
    /// A view of the default.
    default: View,
}

/// Whether a pointer has a default other than what null reads as.
pub fn has_default(place: &Place) -> bool {
    if place.of.lists == 0 && place.of.base == Base::AnyPointer {
        return false;
    }
    match &place.default {
        Value::Text(text) => !text.is_empty(),
        Value::Data(bytes) => !bytes.is_empty(),
        Value::Object(_) => true,
        Value::Bits(_) | Value::Null => false,
    }
}

/// What the getter of a pointer that has a default returns.
pub fn shown_default(
    site: Site<'_>,
    field: &Field,
    place: &Place,
) -> Result<Option<Shown>, AllocError> {
    let (request, id) = (site.request, site.node.id);
    let stored = view_of(request, id, place.of, MESSAGE)?;
    let default = view_of(request, id, place.of, CONSTANT)?;
    match (stored, default) {
        (Some(stored), Some(default)) => shown_by(site, field, place, &Views { stored, default }),
        _ => Ok(None),
    }
}

// What is returned: one of these views, of one type where both have that, or of two.
fn shown_by(
    site: Site<'_>,
    field: &Field,
    place: &Place,
    views: &Views,
) -> Result<Option<Shown>, AllocError> {
    let alloc = site.request.alloc;
    let is_data = place.of.lists == 0 && sets_no_pointers(&place.default);
    let holes = holes_of(alloc, field, place, "@value@", views);
    let (holes, fact, body) = match place.of.base {
        _ if is_plain(place.of) => (holes, DEFAULT_FACT, DEFAULT_BODY),
        Base::Struct(of) if is_data => {
            let path = path_to(site.request, site.node.id, of);
            (
                holes.holding("path", path),
                DEFAULT_DATA_FACT,
                DEFAULT_DATA_BODY,
            )
        }
        _ => return shown_either(alloc, field, place, views),
    };
    Shown::new(
        views.stored.result_type(alloc),
        holes.fill(fact),
        holes.fill(body),
    )
}

// What is returned if they have two types.
fn shown_either(
    alloc: Global,
    field: &Field,
    place: &Place,
    views: &Views,
) -> Result<Option<Shown>, AllocError> {
    let holes = holes_of(alloc, field, place, "view", views);
    Shown::new(
        either_type(alloc, place, views),
        holes.fill(OR_DEFAULT_FACT),
        holes.fill(OR_DEFAULT_BODY),
    )
}

// What is in the clause and in the code of the getter, which returns a view by this name.
fn holes_of(alloc: Global, field: &Field, place: &Place, view: &str, views: &Views) -> Holes {
    Holes::new(alloc)
        .number("offset", place.offset)
        .holding("default", default_name(alloc, &field.name))
        .holding("name", snake(alloc, &field.name))
        .holding("stored", views.stored.fact(alloc, "pointer", view))
        .holding("fact", views.default.fact(alloc, "pointer", view))
}

// The type of a view of the message, or of the default, with the number of the bytes of its words.
fn either_type(alloc: Global, place: &Place, views: &Views) -> Result<String, AllocError> {
    let words = words_of(alloc, &place.default)?;
    let default = views.default.sized_type(alloc, words.len())?;
    let stored = &views.stored.type_name;
    format!(in alloc; "$OrDefault<{stored}, {default}>")
}

/// Adds the defaults of a struct's pointers.
pub fn push_defaults(code: &mut Code, site: Site<'_>) {
    for field in &site.body.fields {
        if let Slot::At(place) = &field.slot
            && has_default(place)
        {
            push_default(code, site, field, place);
        }
    }
}

// Adds the default of a pointer: its words, and the getter that returns a view of them.
fn push_default(code: &mut Code, site: Site<'_>, field: &Field, place: &Place) {
    let found = view_of(site.request, site.node.id, place.of, CONSTANT);
    let Some(Some(view)) = code.kept(found) else {
        return;
    };
    let name = &field.name;
    let getter = code.text(snake(code.alloc, name));
    let static_value = StaticValue {
        title: code.text(format!(in code.alloc; "The default of the field `{name}`.")),
        name: code.text(default_name(code.alloc, name)),
        getter: code.text(format!(in code.alloc; "{getter}_default")),
        view,
        value: &place.default,
    };
    code.add_gap();
    push_view(code, &static_value);
}
