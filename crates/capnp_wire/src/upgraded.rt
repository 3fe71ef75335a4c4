//! Lists of older and newer writers, read as the schema has them now (encoding document,
//! "Lists").
//!
//! Elements of a list that are numbers or pointers may become structs with these as their first
//! field, and a newer writer may write structs where an older schema has numbers or pointers. These
//! views accept both. The views of [`struct_list`](crate::struct_list),
//! [`primitive_list`](crate::primitive_list) and [`any_pointer_list`](crate::any_pointer_list)
//! accept only lists of their own type. A list of bits is never upgraded, and nothing else is read
//! as bits.
mod enum_list;
mod list_list;
mod number_list;
mod number_structs;
mod pointer_list;
mod struct_list;
mod structs;
mod values;

use crate::{data, text};
pub use enum_list::{EnumElement, EnumList};
pub use list_list::ListList;
pub use number_list::NumberList;
pub use pointer_list::PointerList;
pub use struct_list::StructList;
pub use structs::{FromStruct, OwnedStructs, StructFields, Structs};

/// A list of `Text` in a message, or of structs whose first pointer points to one.
///
/// ```
/// let message = serialize::read_message(alloc, &mut list_of_structs, options)?;
/// let names: upgraded::TextList<'_, OwnedSegments> = message.get_root()?;
/// let mut length: usize = 0;
/// for name in names.iter() {
///     length = length.saturating_add(name?.len());
/// }
/// assert_eq!(rt; (names.len(), length), (2, 8));
/// ```
pub type TextList<'a, S> = ListList<'a, S, text::Reader<'a>>;

/// A list of `Data` in a message, or of structs whose first pointer points to one.
///
/// ```
/// let message = serialize::read_message(alloc, &mut list_of_structs, options)?;
/// let keys: upgraded::DataList<'_, OwnedSegments> = message.get_root()?;
/// let Some(key) = keys.try_get(0) else {
///     panic!(rt; "no first key");
/// };
/// assert_eq!(rt; key?, [1, 2].as_slice());
/// assert_eq!(rt; keys.len(), 2);
/// ```
pub type DataList<'a, S> = ListList<'a, S, data::Reader<'a>>;
