//! The types of the structs of a file and of their fields, at any depth, each by its number in a
//! table.
use crate::c::declared::declared_in;
use crate::getters::Site;
use crate::schema::{Base, Body, Field, Request, Slot};
use std::alloc::AllocError;

/// The types of a table, by their nodes.
#[derive(Drop)]
pub struct TypeTable {
    /// Structs and groups: the ones that the file declares come first, in its order.
    pub structs: Vec<u64>,
    /// How many of them the file declares.
    pub own: usize,
    pub enums: Vec<u64>,
}

impl TypeTable {
    /// The types of a file.
    pub fn of_file(request: &Request, file: u64) -> Result<TypeTable, AllocError> {
        let structs = structs_in(request, file)?;
        let own = structs.len();
        let mut table = TypeTable {
            structs,
            own,
            enums: Vec::new(request.alloc),
        };
        let mut index: usize = 0;
        for _ in 0..u64::MAX {
            let Some(id) = table.structs.get(index).copied() else {
                break;
            };
            index = index.saturating_add(1);
            if let Some(site) = Site::find(request, id) {
                table.add_fields(site)?;
            }
        }
        Ok(table)
    }

    // Adds the types of a struct's fields.
    fn add_fields(&mut self, site: Site<'_>) -> Result<(), AllocError> {
        for field in &site.body.fields {
            self.add_type(field)?;
        }
        Ok(())
    }

    // Adds the type of a field.
    fn add_type(&mut self, field: &Field) -> Result<(), AllocError> {
        match &field.slot {
            Slot::At(place) => match place.of.base {
                Base::Struct(id) => add(&mut self.structs, id),
                Base::Enum(id) => add(&mut self.enums, id),
                _ => Ok(()),
            },
            Slot::Group(id) => add(&mut self.structs, *id),
            Slot::Unknown => Ok(()),
        }
    }
}

/// The number of a node among others; the number after the last one where it is not there.
pub fn number_in(nodes: &[u64], id: u64) -> u64 {
    let mut number: u64 = 0;
    for other in nodes {
        if *other == id {
            break;
        }
        number = number.saturating_add(1);
    }
    number
}

// Adds a node, unless it is there.
fn add(nodes: &mut Vec<u64>, id: u64) -> Result<(), AllocError> {
    if !nodes.contains(&id) {
        nodes.push(id)?;
    }
    Ok(())
}

// The structs that are declared in a node and in the nodes within it, in the order of the file.
fn structs_in(request: &Request, id: u64) -> Result<Vec<u64>, AllocError> {
    let mut found = Vec::new(request.alloc);
    for node in &declared_in(request, id)? {
        if let Body::Struct(body) = &node.body
            && !body.is_group
        {
            found.push(node.id)?;
        }
    }
    Ok(found)
}
