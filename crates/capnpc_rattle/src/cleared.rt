//! The setters that select a group that is a member of a union, and clear its fields.
use crate::builder_templates::{GROUP_INIT, OLD_POINTERS};
use crate::code::{Code, Holes};
use crate::getters::Site;
use crate::numbers::number_of;
use crate::owners::{Owner, is_member};
use crate::schema::{Base, Place, Slot, Struct};
use crate::set_words::{words_clause, words_with};
use crate::setters::{SET_TAG, push_tags};
use std::alloc::{AllocError, Global};

/// The lines that set the number of a union, and clear a bool, another field of the data section,
/// and a pointer.
#[derive(Clone, Copy)]
pub struct ClearingLines {
    pub tag: &'static str,
    pub boolean: &'static str,
    pub number: &'static str,
    pub pointer: &'static str,
}

const CLEARING: ClearingLines = ClearingLines {
    tag: SET_TAG,
    boolean: "self.draft.set_data_field(@offset@, false);",
    number: "self.draft.set_data_field::<u@width@>(@offset@, 0);",
    pointer: "self.draft.clear_pointer(@index@);",
};

/// The fields and pointers that a group has of its struct, each once.
#[derive(Drop)]
pub struct Cleared {
    /// Fields of the data section: how many bits each has, and its offset in units of these.
    pub fields: Vec<(u32, u32)>,
    /// Pointers, by their indices.
    pub pointers: Vec<u32>,
}

impl Cleared {
    // Adds the fields of a group, and its groups to those that are left.
    fn add_group(&mut self, body: &Struct, left: &mut Vec<u64>) -> Result<(), AllocError> {
        if let Some(offset) = body.discriminant {
            self.add_field(16, offset)?;
        }
        for field in &body.fields {
            match &field.slot {
                Slot::At(place) => self.add_place(place)?,
                Slot::Group(group) => left.push(*group)?,
                Slot::Unknown => {}
            }
        }
        Ok(())
    }

    // Adds a field.
    fn add_place(&mut self, place: &Place) -> Result<(), AllocError> {
        if place.of.lists > 0 {
            return self.add_pointer(place.offset);
        }
        match number_of(place.of.base) {
            Some(number) => self.add_field(number.width, place.offset),
            None if place.of.base == Base::Void => Ok(()),
            None => self.add_pointer(place.offset),
        }
    }

    // Adds a field of the data section.
    fn add_field(&mut self, width: u32, offset: u32) -> Result<(), AllocError> {
        for (other, at) in &self.fields {
            if *other == width && *at == offset {
                return Ok(());
            }
        }
        self.fields.push((width, offset))?;
        Ok(())
    }

    // Adds a pointer.
    fn add_pointer(&mut self, index: u32) -> Result<(), AllocError> {
        if !self.pointers.contains(&index) {
            self.pointers.push(index)?;
        }
        Ok(())
    }

    // The words, made from these, in which the fields are zero, as a clause names them.
    fn words(&self, alloc: Global, mut words: String) -> Result<String, AllocError> {
        for (width, offset) in &self.fields {
            words = format!(in alloc; "($with_field {words}\n{width} {offset} 0)")?;
        }
        Ok(words)
    }

    // What a clause says of the words in which these numbers of unions are set, and the fields are
    // zero.
    fn clause(&self, alloc: Global, tags: &[(u32, u16)]) -> Result<String, AllocError> {
        let words = words_with(alloc, tags)?;
        let words = self.words(alloc, words)?;
        words_clause(alloc, &words)
    }

    // The words of the orphans in which the pointers are null, as a clause names them.
    fn orphans(&self, alloc: Global) -> Result<String, AllocError> {
        let mut words = String::from_str(alloc, OLD_POINTERS)?;
        for index in &self.pointers {
            words = format!(in alloc; "($slice_set {words} {index} 0)")?;
        }
        Ok(words)
    }

    /// The code that sets these numbers of unions, and then clears all fields.
    pub fn code(&self, alloc: Global, tags: &[(u32, u16)], lines: ClearingLines) -> Code {
        let mut code = Code::new(alloc, 0);
        push_tags(&mut code, lines.tag, tags);
        for (width, offset) in &self.fields {
            let holes = Holes::new(alloc).number("width", *width);
            let template = if *width == 1 {
                lines.boolean
            } else {
                lines.number
            };
            code.add(template, &holes.number("offset", *offset));
        }
        for index in &self.pointers {
            let holes = Holes::new(alloc).number("index", *index);
            code.add(lines.pointer, &holes);
        }
        code
    }
}

/// The fields and pointers of the group of a site, and of the groups in it.
pub fn cleared_by(site: Site<'_>) -> Result<Cleared, AllocError> {
    let alloc = site.request.alloc;
    let mut cleared = Cleared {
        fields: Vec::new(alloc),
        pointers: Vec::new(alloc),
    };
    let mut left: Vec<u64> = Vec::new(alloc);
    left.push(site.node.id)?;
    for _ in 0..u64::MAX {
        let Some(id) = left.pop() else {
            break;
        };
        if let Some(group) = Site::find(site.request, id) {
            cleared.add_group(group.body, &mut left)?;
        }
    }
    Ok(cleared)
}

/// Adds the setter of a group that is a member of a union.
pub fn push_init(code: &mut Code, owner: &Owner<'_>) {
    if is_member(owner.site)
        && let Some(cleared) = code.kept(cleared_by(owner.site))
    {
        let holes = code
            .holes()
            .with("group", owner.group())
            .holding("name", owner.group_name())
            .holding("words", cleared.clause(code.alloc, &owner.tags))
            .holding("pointers", cleared.orphans(code.alloc))
            .code("code", &cleared.code(code.alloc, &owner.tags, CLEARING));
        code.add(GROUP_INIT, &holes);
    }
}
