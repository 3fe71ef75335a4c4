//! A list of numbers: its type, and its views.
pub use capnp_build::primitive_list::Builder;
pub use capnp_wire::primitive_list::{Owned, Reader};
