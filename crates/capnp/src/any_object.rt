//! Whatever a pointer points to: its view, and lists of numbers of any size.
pub use capnp_wire::any_object::{Numbers, Reader};
