//! Objects of Cap'n Proto messages, read in place from the segments of a message.
//!
//! A [`ReaderArena`](arena::ReaderArena) holds the segments. From its root pointer on,
//! [`any_pointer::Reader`] gives views of what pointers point to: text, data, lists of numbers and
//! structs, which borrow from the segments and take no memory. Whatever bytes the segments have, a
//! call returns a view of what is there by the [encoding document], or an error that says what is
//! wrong.
//!
//! [encoding document]: https://capnproto.org/encoding.html
#![tactic(auto)]

pub mod any_object;
pub mod any_pointer;
pub mod any_pointer_list;
pub mod any_struct;
pub mod arena;
pub mod canonical;
pub mod constant;
pub mod data;
pub mod data_list;
mod into_iter;
pub mod laws;
mod layout;
mod list_into_iter;
mod list_iter;
pub mod list_list;
mod message_size;
mod object_content;
mod object_view;
pub mod pointer_word;
pub mod primitive_element;
pub mod primitive_list;
mod read_limiter;
pub mod struct_list;
pub mod text;
pub mod text_list;
pub mod traits;
pub mod upgraded;

pub use message_size::MessageSize;
