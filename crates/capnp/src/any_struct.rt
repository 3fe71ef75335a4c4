//! A struct of any size: its type, and its views.
pub use capnp_build::any_struct::StructBuilder;
pub use capnp_wire::any_struct::{Owned, StructReader};
