//! `Data`: its type, and its views.
pub use capnp_build::data::Builder;
pub use capnp_wire::data::{Hex, Owned, Reader};
