//! The views of what pointers point to, for each type.
use crate::code::{Code, Holes};
use crate::numbers::number_of;
use crate::paths::path_to;
use crate::schema::{Base, Request, Type};
use crate::templates::{
    DATA_FACT, ENUMS_FACT, NUMBERS_FACT, POINTERS_FACT, STRUCT_FACT, STRUCTS_FACT, TEXT_FACT,
};
use std::alloc::{AllocError, Global};

/// What a view borrows from, as a type and a clause name it.
#[derive(Clone, Copy)]
pub struct Lender {
    pub lifetime: &'static str,
    /// The type of the segments.
    pub segments: &'static str,
    /// What they are, in a clause.
    pub segments_of: &'static str,
}

/// The message of a reader.
pub const MESSAGE: Lender = Lender {
    lifetime: "'a",
    segments: "S",
    segments_of: "S.segments",
};

/// A constant or a default; `@size@` stands for the number of its bytes.
pub const CONSTANT: Lender = Lender {
    lifetime: "'static",
    segments: "$Words<@size@>",
    segments_of: "$segments_of",
};

/// A view of what a pointer points to, as a getter and its contract name it.
#[derive(Drop)]
pub struct View {
    /// Its type.
    pub type_name: String,
    /// What a clause says of a result, `@result@`, that views what `@pointer@` points to.
    fact: String,
}

impl View {
    /// The type of what returns it, or an error.
    pub fn result_type(&self, alloc: Global) -> Result<String, AllocError> {
        format!(in alloc; "$Result<{}>", self.type_name)
    }

    /// Its type, if it is of words of this many bytes.
    pub fn sized_type(&self, alloc: Global, bytes: usize) -> Result<String, AllocError> {
        Holes::new(alloc)
            .number("size", bytes as u64)
            .fill(&self.type_name)
    }

    /// What a clause says of a result by this name, of what this pointer points to.
    pub fn fact(&self, alloc: Global, pointer: &str, name: &str) -> Result<String, AllocError> {
        let holes = Holes::new(alloc)
            .with("pointer", pointer)
            .with("result", name);
        holes.fill(&self.fact)
    }
}

/// The view of a type at a site, of what a lender has. It is `None` for what has no view: numbers
/// by themselves, interfaces, and any pointer by itself, whose getter never fails.
pub fn view_of(
    request: &Request,
    site: u64,
    of: Type,
    lender: Lender,
) -> Result<Option<View>, AllocError> {
    let alloc = request.alloc;
    let Some((innermost, fact)) = templates_of(of) else {
        return Ok(None);
    };
    let holes = element_holes(request, site, of.base)
        .with("lifetime", lender.lifetime)
        .with("segments", lender.segments)
        .with("segments_of", lender.segments_of);
    let list = holes.fill("$upgraded::ListList<@lifetime@, @segments@, ")?;
    let innermost = holes.fill(innermost);
    Ok(Some(View {
        type_name: in_lists(alloc, &list, of.pointer_lists(), innermost)?,
        fact: holes.fill(fact)?,
    }))
}

/// Whether the views of a type have one type, whatever segments they read.
pub fn is_plain(of: Type) -> bool {
    match of.lists {
        0 => matches!(of.base, Base::Text | Base::Data),
        1 => of.base == Base::Void || number_of(of.base).is_some(),
        _ => false,
    }
}

// The templates of a view: of the type within all lists of pointers, and of what a clause says.
fn templates_of(of: Type) -> Option<(&'static str, &'static str)> {
    let (innermost, fact) = match of.base {
        Base::Text => ("$text::Reader<@lifetime@>", TEXT_FACT),
        Base::Data => ("&@lifetime@ [u8]", DATA_FACT),
        Base::Struct(_) if of.lists == 0 => {
            ("@path@::Reader<@lifetime@, @segments@>", STRUCT_FACT)
        }
        Base::Struct(_) => ("@path@::ListReader<@lifetime@, @segments@>", STRUCTS_FACT),
        _ if of.lists == 0 => return None,
        Base::Interface => return None,
        Base::AnyPointer => (
            "$any_pointer::Reader<@lifetime@, @segments@>",
            POINTERS_FACT,
        ),
        Base::Enum(_) => ("$upgraded::EnumList<@lifetime@, @path@>", ENUMS_FACT),
        _ => ("$upgraded::NumberList<@lifetime@, @number@>", NUMBERS_FACT),
    };
    let has_lists = of.pointer_lists() > 0;
    Some((innermost, if has_lists { POINTERS_FACT } else { fact }))
}

/// A type within this many lists of pointers, by what comes before the elements of a list.
pub fn in_lists(
    alloc: Global,
    list: &str,
    count: u32,
    innermost: Result<String, AllocError>,
) -> Result<String, AllocError> {
    let mut type_name = Code::new(alloc, 0);
    for _ in 0..count {
        type_name.add_code(list);
    }
    type_name.add_made(innermost);
    for _ in 0..count {
        type_name.add_code(">");
    }
    type_name.whole()
}

// What the templates have of the innermost elements.
fn element_holes(request: &Request, site: u64, base: Base) -> Holes {
    let (number, code) = match number_of(base) {
        Some(number) => (number.type_name, number.code),
        None => ("()", 0),
    };
    let holes = Holes::new(request.alloc)
        .with("number", number)
        .number("code", code);
    match base {
        Base::Enum(id) | Base::Struct(id) => holes.holding("path", path_to(request, site, id)),
        _ => holes,
    }
}
