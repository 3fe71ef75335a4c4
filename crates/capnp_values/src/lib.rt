//! Composed values: structs of data words and of further values.
//!
//! A [`StructValue`] has the words of a struct's data section, and [`Fields`] for its pointer
//! section ([encoding document], "Structs"). Composed values are
//! [`SetterInput`](capnp_wire::traits::SetterInput)s, so the root of a message can be set to one
//! as to any other value. A value borrows its parts, and takes no memory.
//!
//! [encoding document]: https://capnproto.org/encoding.html
#![tactic(auto)]

pub mod borrowed;
mod data_section;
pub mod element;
pub mod fields;
mod items;
pub mod laws;
pub mod lazy_pointer_list;
pub mod lazy_struct_list;
mod measured;
pub mod null;
pub mod number_list;
pub mod pointer_list;
mod sections;
pub mod sources;
mod struct_elements;
pub mod struct_list;
pub mod struct_value;
mod tagged;

pub use borrowed::Borrowed;
pub use data_section::put_field;
pub use element::Element;
pub use fields::{Field, Fields, NoFields};
pub use lazy_pointer_list::LazyPointerList;
pub use lazy_struct_list::LazyStructList;
pub use null::Null;
pub use number_list::NumberList;
pub use pointer_list::PointerList;
pub use sections::{put_words, words_fit};
pub use sources::{StructSource, ValueSource};
pub use struct_list::StructList;
pub use struct_value::StructValue;
