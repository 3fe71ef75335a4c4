//! A list of pointers to anything: its type, and its view.
pub use capnp_wire::any_pointer_list::{Owned, Reader};
