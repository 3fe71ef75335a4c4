//! The struct to which the fields of groups belong.
use crate::getters::Site;
use crate::names::snake;
use crate::schema::{Base, Field, MAX_DEPTH, Slot};
use std::alloc::AllocError;

/// The struct to which the fields of a site belong, as the site's setters name it.
#[derive(Drop)]
pub struct Owner<'r> {
    pub site: Site<'r>,
    /// The node of the struct.
    pub id: u64,
    /// The names of the groups down to the site, each with a `.` after it, as the schema has them.
    pub groups: String,
    /// The same as a part of a setter's name, each with a `_` after it.
    pub prefix: String,
    /// The path from the site's module to the struct's.
    pub path: String,
    /// For each union that has the next group on the way as a member: where its number is, and the
    /// number.
    pub tags: Vec<(u32, u16)>,
}

/// The struct to which the fields of a site belong.
pub fn owner_of<'r>(site: Site<'r>) -> Result<Option<Owner<'r>>, AllocError> {
    let alloc = site.request.alloc;
    let mut owner = Owner {
        site,
        id: site.node.id,
        groups: String::new(alloc),
        prefix: String::new(alloc),
        path: String::new(alloc),
        tags: Vec::new(alloc),
    };
    let mut group = site;
    for _ in 0..MAX_DEPTH {
        if !group.body.is_group {
            owner.id = group.node.id;
            owner.tags.reverse();
            return Ok(Some(owner));
        }
        let Some((parent, field)) = parent_of(group) else {
            break;
        };
        owner.add_group(parent, field)?;
        group = parent;
    }
    Ok(None)
}

/// Whether a group is a member of a union.
pub fn is_member(site: Site<'_>) -> bool {
    match parent_of(site) {
        Some((parent, field)) => parent.body.discriminant.is_some() && field.member.is_some(),
        None => false,
    }
}

/// What a group is a field of, and that field.
pub fn parent_of<'r>(group: Site<'r>) -> Option<(Site<'r>, &'r Field)> {
    let parent = Site::find(group.request, group.node.scope)?;
    for field in &parent.body.fields {
        if let Slot::Group(id) = field.slot
            && id == group.node.id
        {
            return Some((parent, field));
        }
    }
    None
}

impl<'r> Owner<'r> {
    // Adds the next group on the way to the struct, which is this field of its parent.
    fn add_group(&mut self, parent: Site<'_>, field: &Field) -> Result<(), AllocError> {
        let alloc = parent.request.alloc;
        let name = snake(alloc, &field.name)?;
        self.groups = format!(in alloc; "{}.{}", field.name, self.groups)?;
        self.prefix = format!(in alloc; "{}_{}", name, self.prefix)?;
        self.path.push_str("super::")?;
        if let Some(offset) = parent.body.discriminant
            && let Some(number) = field.member
        {
            self.tags.push((offset, number))?;
        }
        Ok(())
    }

    /// Whether a field has a setter: an interface has none, and neither has `Void` outside a union.
    pub fn has_setter(&self, field: &Field) -> bool {
        let Slot::At(place) = &field.slot else {
            return false;
        };
        if place.of.lists == 0 && place.of.base == Base::Void {
            let is_member = self.site.body.discriminant.is_some() && field.member.is_some();
            return is_member || !self.tags.is_empty();
        }
        place.of.base != Base::Interface
    }

    /// The numbers of unions that are set with a field: the numbers of the groups around it, and
    /// its own.
    pub fn tags_of(&self, field: &Field) -> Result<Vec<(u32, u16)>, AllocError> {
        let mut tags = Vec::from_slice(self.site.request.alloc, &self.tags)?;
        if let (Some(offset), Some(number)) = (self.site.body.discriminant, field.member) {
            tags.push((offset, number))?;
        }
        Ok(tags)
    }

    /// The name of a field within its struct: with the names of the groups around it in front.
    pub fn field_name(&self, field: &Field) -> Result<String, AllocError> {
        let alloc = self.site.request.alloc;
        let name = snake(alloc, &field.name)?;
        format!(in alloc; "{}{}", self.prefix, name)
    }

    /// The name of the site's group within its setter's name, in the same way.
    pub fn group_name(&self) -> Result<String, AllocError> {
        let name = self.prefix.strip_suffix('_').unwrap_or(&self.prefix);
        String::from_str(self.site.request.alloc, name)
    }

    /// The same name as the schema has it.
    pub fn group(&self) -> &str {
        self.groups.strip_suffix('.').unwrap_or(&self.groups)
    }
}
