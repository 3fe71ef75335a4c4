//! A pointer to any object: its type, and its views.
pub use capnp_build::any_pointer::Builder;
pub use capnp_wire::any_pointer::{Owned, Reader};
