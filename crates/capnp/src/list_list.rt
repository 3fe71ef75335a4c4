//! A list of pointers to views of one type: its type, and its view.
pub use capnp_wire::list_list::{Owned, Reader};
