//! A walk over a struct and what is below it, which adds the text of each.
//!
//! It keeps the structs and lists that it is in, and doesn't call itself.
mod lists;

use crate::any_struct::StructReader;
use crate::message::ReaderSegments;
use crate::stringify::fields::is_shown;
use crate::stringify::literals::{push_data, push_text};
use crate::stringify::numbers::{bits_of, push_bits};
use crate::stringify::schema::{Base, DefaultValue, Field, Schema, Type};
use crate::stringify::walk::lists::Elements;
use crate::upgraded::{PointerList, StructList};
use crate::{any_pointer, data, text};
use capnp_frame::Error;
use std::alloc::{AllocError, Global};
use std::fmt::Write;

/// The fields of a struct, or of a group of it, that are still to come.
#[derive(Clone, Copy)]
struct Fields {
    /// The struct's or the group's number in the schema.
    of: u32,
    next: usize,
    /// Whether none was added yet.
    is_first: bool,
    is_group: bool,
    /// How many more structs and lists may be within the struct.
    depth: u32,
}

/// What is still to come of a struct or a list.
#[derive(Drop)]
enum Pending<'a, S: ReaderSegments> {
    Fields(Fields),
    Structs(Elements<StructList<'a, S>>),
    Pointers(Elements<PointerList<'a, S>>),
}

/// A walk over a struct.
#[derive(Drop)]
pub struct Walk<'r, 'a, S: ReaderSegments> {
    alloc: Global,
    schema: &'r Schema,
    root: &'r StructReader<'a, S>,
    // The structs below the root that the walk is in, the innermost last.
    structs: Vec<StructReader<'a, S>>,
    pending: Vec<Pending<'a, S>>,
}

impl<'r, 'a, S: ReaderSegments> Walk<'r, 'a, S> {
    /// A walk before its root.
    pub fn new(alloc: Global, schema: &'r Schema, root: &'r StructReader<'a, S>) -> Self {
        Walk {
            alloc,
            schema,
            root,
            structs: Vec::new(alloc),
            pending: Vec::new(alloc),
        }
    }

    /// Begins the root, of the struct of this number, with this depth left within it.
    ///
    /// Fails only when out of memory.
    pub fn open_root(
        &mut self,
        output: &mut String,
        of: u32,
        depth: u32,
    ) -> Result<(), AllocError> {
        self.open_fields(output, of, false, depth)
    }

    /// Adds what comes next; returns false at the end.
    ///
    /// Fails only when out of memory.
    pub fn go_on(&mut self, output: &mut String) -> Result<bool, AllocError> {
        let Some(pending) = self.pending.pop() else {
            return Ok(false);
        };
        match pending {
            Pending::Fields(fields) => self.push_next_field(output, fields)?,
            Pending::Structs(elements) => self.push_next_struct(output, elements)?,
            Pending::Pointers(elements) => self.push_next_pointer(output, elements)?,
        }
        Ok(true)
    }

    // The struct that the walk is in.
    fn current(&self) -> &StructReader<'a, S> {
        self.structs.last().unwrap_or(self.root)
    }

    // Begins a struct that is the current one, or a group of it.
    fn open_fields(
        &mut self,
        output: &mut String,
        of: u32,
        is_group: bool,
        depth: u32,
    ) -> Result<(), AllocError> {
        self.pending.push(Pending::Fields(Fields {
            of,
            next: 0,
            is_first: true,
            is_group,
            depth,
        }))?;
        output.push('(')
    }

    // Adds the next field that is shown, or the end of a struct.
    fn push_next_field(&mut self, output: &mut String, fields: Fields) -> Result<(), AllocError> {
        let Some(field) = self.schema.field(fields.of, fields.next) else {
            if !fields.is_group {
                let _ = self.structs.pop();
            }
            return output.push(')');
        };
        let is_shown = is_shown(self.current(), self.schema.discriminant(fields.of), &field);
        self.pending.push(Pending::Fields(Fields {
            of: fields.of,
            next: fields.next.saturating_add(1),
            is_first: fields.is_first && !is_shown,
            is_group: fields.is_group,
            depth: fields.depth,
        }))?;
        if !is_shown {
            return Ok(());
        }
        if !fields.is_first {
            output.push_str(", ")?;
        }
        output.push_str(field.name)?;
        output.push_str(" = ")?;
        self.push_field(output, &field, fields.depth)
    }

    // Adds the value of a field of the current struct.
    fn push_field(
        &mut self,
        output: &mut String,
        field: &Field,
        depth: u32,
    ) -> Result<(), AllocError> {
        if let Base::Group(of) = field.of.base {
            return self.open_fields(output, of, true, depth);
        }
        if !field.of.is_pointer() {
            let bits = bits_of(
                self.current(),
                field.of.base,
                field.offset,
                field.default_bits(),
            );
            return push_bits(self.alloc, output, self.schema, field.of.base, bits);
        }
        let pointer = self.current().get_pointer(field.pointer_index());
        match field.default {
            DefaultValue::Text(default) if pointer.is_null() => push_text(
                output,
                default.as_bytes(),
            ),
            DefaultValue::Data(default) if pointer.is_null() => push_data(output, default),
            _ => self.push_pointer(output, pointer, field.of, depth),
        }
    }

    // Adds what a pointer points to, or begins it.
    fn push_pointer(
        &mut self,
        output: &mut String,
        pointer: any_pointer::Reader<'a, S>,
        of: Type,
        depth: u32,
    ) -> Result<(), AllocError> {
        if of.lists > 0 {
            return self.open_list(output, pointer, of.element(), depth);
        }
        match of.base {
            Base::Text => match pointer.get_as::<text::Reader<'a>>() {
                Ok(shown) => push_text(output, shown.as_bytes()),
                Err(error) => push_error(output, &error),
            },
            Base::Data => match pointer.get_as::<data::Reader<'a>>() {
                Ok(bytes) => push_data(output, bytes),
                Err(error) => push_error(output, &error),
            },
            Base::Struct(of) => self.open_struct(output, pointer, of, depth),
            Base::Interface => output.push_str("<external capability>"),
            _ => output.push_str("<opaque pointer>"),
        }
    }

    // Begins a struct that a pointer points to.
    fn open_struct(
        &mut self,
        output: &mut String,
        pointer: any_pointer::Reader<'a, S>,
        of: u32,
        depth: u32,
    ) -> Result<(), AllocError> {
        if depth == 0 {
            return output.push_str("(..)");
        }
        match pointer.get_as::<StructReader<'a, S>>() {
            Ok(fields) => {
                self.structs.push(fields)?;
                self.open_fields(output, of, false, depth.saturating_sub(1))
            }
            Err(error) => push_error(output, &error),
        }
    }
}

// Adds an error in place of what can't be read.
fn push_error(output: &mut String, error: &Error) -> Result<(), AllocError> {
    write!(output, "<{error}>")
}
