//! A list of structs: its type, and its view.
pub use capnp_wire::struct_list::{Owned, Reader};
