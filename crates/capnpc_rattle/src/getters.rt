//! What getters return, and what clauses say of it.
use crate::code::{Holes, joined};
use crate::defaults::{has_default, shown_default};
use crate::enums::{READ_CASES, enum_name, lines_of};
use crate::names::module;
use crate::numbers::Stored;
use crate::schema::{Base, Body, Field, Node, Place, Request, Slot, Struct};
use crate::templates::{ANY_POINTER_BODY, ANY_POINTER_FACT, ENUM_FACT, GROUP_BODY, VIEW_BODY};
use crate::views::{MESSAGE, view_of};
use std::alloc::{AllocError, Global};

/// The struct or group whose fields are written.
#[derive(Clone, Copy)]
pub struct Site<'r> {
    pub request: &'r Request,
    pub node: &'r Node,
    pub body: &'r Struct,
}

impl<'r> Site<'r> {
    /// The struct or group of this number.
    pub fn find(request: &'r Request, id: u64) -> Option<Site<'r>> {
        let node = request.find(id)?;
        match &node.body {
            Body::Struct(body) => Some(Site {
                request,
                node,
                body,
            }),
            _ => None,
        }
    }

    /// The struct of the fields, as a clause names it.
    pub fn fields(&self) -> &'static str {
        if self.body.is_group {
            "$struct_of S.segments self.now.fields.now"
        } else {
            "$struct_of S.segments self.now.fields"
        }
    }

    /// How long the reader of a group in it may be used.
    pub fn borrow(&self) -> &'static str {
        if self.body.is_group { "'b" } else { "'_" }
    }
}

/// What a getter returns.
#[derive(Drop)]
pub struct Shown {
    /// The type, where `@borrow@` stands for the lifetime of a borrow of the reader.
    pub type_name: String,
    /// What a clause says of it: `@value@` stands for what is returned, and `fields` is the struct.
    pub fact: String,
    /// The code that returns it.
    pub body: String,
}

impl Shown {
    /// What is returned, unless an allocation failed for a part of it.
    pub fn new(
        type_name: Result<String, AllocError>,
        fact: Result<String, AllocError>,
        body: Result<String, AllocError>,
    ) -> Result<Option<Shown>, AllocError> {
        Ok(Some(Shown {
            type_name: type_name?,
            fact: fact?,
            body: body?,
        }))
    }

    /// The type, for a borrow of this lifetime.
    pub fn type_for(&self, alloc: Global, borrow: &str) -> Result<String, AllocError> {
        Holes::new(alloc)
            .with("borrow", borrow)
            .fill(&self.type_name)
    }

    /// What a clause says of it by this name.
    pub fn fact_of(&self, alloc: Global, value: &str) -> Result<String, AllocError> {
        Holes::new(alloc).with("value", value).fill(&self.fact)
    }
}

/// What the getter of a field returns; `None` for `Void`, and for what is left out.
pub fn shown_of(site: Site<'_>, field: &Field) -> Result<Option<Shown>, AllocError> {
    match &field.slot {
        Slot::Group(id) => match site.request.find(*id) {
            Some(group) => shown_group(site, group),
            None => Ok(None),
        },
        Slot::At(place) => match Stored::at_place(place) {
            Some(stored) => shown_number(site, &stored),
            None => shown_pointer(site, field, place),
        },
        Slot::Unknown => Ok(None),
    }
}

// A group, whose reader borrows the struct.
fn shown_group(site: Site<'_>, group: &Node) -> Result<Option<Shown>, AllocError> {
    let alloc = site.request.alloc;
    let is_group = site.body.is_group;
    let holes = Holes::new(alloc)
        .holding("name", module(alloc, &group.name))
        .with(
            "fields",
            if is_group {
                "self.fields"
            } else {
                "&self.fields"
            },
        );
    Shown::new(
        holes.fill("@name@::Reader<@borrow@, 'a, S>"),
        String::from_str(alloc, "$struct_of S.segments @value@.fields.now $≡ fields"),
        holes.fill(GROUP_BODY),
    )
}

// A number, a bool or an enum.
fn shown_number(site: Site<'_>, stored: &Stored) -> Result<Option<Shown>, AllocError> {
    let alloc = site.request.alloc;
    if let Base::Enum(id) = stored.base {
        return shown_enum(site, stored, id);
    }
    let value = stored.clause(alloc)?;
    Shown::new(
        String::from_str(alloc, stored.number.type_name),
        joined(alloc, "@value@ $≡", &value),
        stored.call(alloc),
    )
}

// An enum; a clause names its number.
fn shown_enum(site: Site<'_>, stored: &Stored, id: u64) -> Result<Option<Shown>, AllocError> {
    let alloc = site.request.alloc;
    let name = enum_name(site, id)?;
    let cases = lines_of(alloc, &name, site.request.enumerants_of(id), READ_CASES);
    let holes = Holes::new(alloc)
        .holding("bits", stored.clause(alloc))
        .holding("cases", cases)
        .with("name", &name)
        .holding("call", stored.call(alloc));
    let fact = holes.fill(ENUM_FACT);
    let body = holes.fill("@name@::from_number(@call@)");
    Shown::new(Ok(name), fact, body)
}

// A pointer.
fn shown_pointer(
    site: Site<'_>,
    field: &Field,
    place: &Place,
) -> Result<Option<Shown>, AllocError> {
    if place.of.lists == 0 && place.of.base == Base::AnyPointer {
        return shown_any_pointer(site.request.alloc, place.offset);
    }
    if has_default(place) {
        return shown_default(site, field, place);
    }
    shown_view(site, place)
}

// A pointer that may point to anything, by its number among the pointers.
fn shown_any_pointer(alloc: Global, offset: u32) -> Result<Option<Shown>, AllocError> {
    let holes = Holes::new(alloc).number("offset", offset);
    Shown::new(
        String::from_str(alloc, "$any_pointer::Reader<'a, S>"),
        holes.fill(ANY_POINTER_FACT),
        holes.fill(ANY_POINTER_BODY),
    )
}

// A view of what a pointer that has no default points to.
fn shown_view(site: Site<'_>, place: &Place) -> Result<Option<Shown>, AllocError> {
    let alloc = site.request.alloc;
    let Some(view) = view_of(site.request, site.node.id, place.of, MESSAGE)? else {
        return Ok(None);
    };
    let offset = place.offset;
    let pointer = format!(in alloc; "($pointer_in fields {offset})")?;
    Shown::new(
        view.result_type(alloc),
        view.fact(alloc, &pointer, "@value@"),
        Holes::new(alloc).number("offset", offset).fill(VIEW_BODY),
    )
}
