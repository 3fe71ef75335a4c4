//! `Text`: its type, and its views.
pub use capnp_build::text::Builder;
pub use capnp_wire::text::{Owned, Reader};
