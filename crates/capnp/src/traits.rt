//! What readers and builders need of the types of roots, and the values that they are set to.
pub use capnp_build::owned_builder::OwnedBuilder;
pub use capnp_build::view::Building;
pub use capnp_wire::traits::{
    FromPointerReader, IndexMove, ListIntoIter, ListIter, Owned, SetterInput,
};
