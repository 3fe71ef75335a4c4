//! Numbers and bools, the types of fields and elements.
pub use capnp_wire::primitive_element::PrimitiveElement;
