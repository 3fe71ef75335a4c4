//! The lists that a walk is in.
use crate::any_pointer;
use crate::message::ReaderSegments;
use crate::primitive_element::PrimitiveElement;
use crate::stringify::numbers::push_bits;
use crate::stringify::schema::{Base, Type};
use crate::stringify::walk::{Pending, Walk, push_error};
use crate::upgraded::{NumberList, PointerList, StructList};
use std::alloc::AllocError;

/// The elements of a list that are still to come.
#[derive(Drop)]
pub struct Elements<L> {
    list: L,
    next: u32,
    /// The type of each.
    of: Type,
    /// How many more structs and lists may be within the list.
    depth: u32,
}

impl<'r, 'a, S: ReaderSegments> Walk<'r, 'a, S> {
    /// Adds a list of numbers, or begins another list.
    ///
    /// Fails only when out of memory.
    pub(super) fn open_list(
        &mut self,
        output: &mut String,
        pointer: any_pointer::Reader<'a, S>,
        of: Type,
        depth: u32,
    ) -> Result<(), AllocError> {
        if depth == 0 {
            return output.push_str("[..]");
        }
        if of.lists > 0 {
            return self.open_pointers(output, pointer, of, depth);
        }
        match of.base {
            Base::Void => self.push_numbers::<()>(output, pointer, of.base),
            Base::Bool => self.push_numbers::<bool>(output, pointer, of.base),
            Base::Int8 | Base::Uint8 => self.push_numbers::<u8>(output, pointer, of.base),
            Base::Int16 | Base::Uint16 | Base::Enum(_) => {
                self.push_numbers::<u16>(output, pointer, of.base)
            }
            Base::Int32 | Base::Uint32 | Base::Float32 => {
                self.push_numbers::<u32>(output, pointer, of.base)
            }
            Base::Int64 | Base::Uint64 | Base::Float64 => {
                self.push_numbers::<u64>(output, pointer, of.base)
            }
            Base::Struct(_) => self.open_structs(output, pointer, of, depth),
            _ => self.open_pointers(output, pointer, of, depth),
        }
    }

    // Adds a list of numbers that have as many bits as `T`.
    fn push_numbers<T: PrimitiveElement + Drop>(
        &self,
        output: &mut String,
        pointer: any_pointer::Reader<'a, S>,
        base: Base,
    ) -> Result<(), AllocError> {
        match pointer.get_as::<NumberList<'a, T>>() {
            Ok(list) => {
                output.push('[')?;
                let mut is_first = true;
                for number in list.iter() {
                    if !is_first {
                        output.push_str(", ")?;
                    }
                    is_first = false;
                    push_bits(self.alloc, output, self.schema, base, number.to_bits())?;
                }
                output.push(']')
            }
            Err(error) => push_error(output, &error),
        }
    }

    // Begins a list of structs.
    fn open_structs(
        &mut self,
        output: &mut String,
        pointer: any_pointer::Reader<'a, S>,
        of: Type,
        depth: u32,
    ) -> Result<(), AllocError> {
        match pointer.get_as::<StructList<'a, S>>() {
            Ok(list) => {
                self.pending.push(Pending::Structs(Elements {
                    list,
                    next: 0,
                    of,
                    depth: depth.saturating_sub(1),
                }))?;
                output.push('[')
            }
            Err(error) => push_error(output, &error),
        }
    }

    // Begins a list of pointers.
    fn open_pointers(
        &mut self,
        output: &mut String,
        pointer: any_pointer::Reader<'a, S>,
        of: Type,
        depth: u32,
    ) -> Result<(), AllocError> {
        match pointer.get_as::<PointerList<'a, S>>() {
            Ok(list) => {
                self.pending.push(Pending::Pointers(Elements {
                    list,
                    next: 0,
                    of,
                    depth: depth.saturating_sub(1),
                }))?;
                output.push('[')
            }
            Err(error) => push_error(output, &error),
        }
    }

    /// Begins the next struct of a list, or adds the end of the list.
    ///
    /// Fails only when out of memory.
    pub(super) fn push_next_struct(
        &mut self,
        output: &mut String,
        elements: Elements<StructList<'a, S>>,
    ) -> Result<(), AllocError> {
        let Some(element) = elements.list.try_get(elements.next) else {
            return output.push(']');
        };
        let of = elements.of.base;
        let depth = elements.depth;
        if elements.next > 0 {
            output.push_str(", ")?;
        }
        self.pending.push(Pending::Structs(elements.after()))?;
        match of {
            Base::Struct(of) if depth > 0 => {
                self.structs.push(element)?;
                self.open_fields(output, of, false, depth.saturating_sub(1))
            }
            _ => output.push_str("(..)"),
        }
    }

    /// Adds what the next pointer of a list points to, or the end of the list.
    ///
    /// Fails only when out of memory.
    pub(super) fn push_next_pointer(
        &mut self,
        output: &mut String,
        elements: Elements<PointerList<'a, S>>,
    ) -> Result<(), AllocError> {
        let Some(pointer) = elements.list.try_get(elements.next) else {
            return output.push(']');
        };
        let of = elements.of;
        let depth = elements.depth;
        if elements.next > 0 {
            output.push_str(", ")?;
        }
        self.pending.push(Pending::Pointers(elements.after()))?;
        self.push_pointer(output, pointer, of, depth)
    }
}

impl<L> Elements<L> {
    // The elements after the next one.
    fn after(self) -> Elements<L> {
        Elements {
            list: self.list,
            next: self.next.saturating_add(1),
            of: self.of,
            depth: self.depth,
        }
    }
}
