//! A list of `Data`: its type, and its view.
pub use capnp_wire::data_list::{Owned, Reader};
