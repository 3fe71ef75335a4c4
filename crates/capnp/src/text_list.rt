//! A list of `Text`: its type, and its view.
pub use capnp_wire::text_list::{Owned, Reader};
