//! Pointers, and the objects that they point to, word by word: for programs that show how a message
//! is laid out.
pub use capnp_layout::element_size::ElementSize;
pub use capnp_layout::landing_pad::resolve;
pub use capnp_layout::object::{Body, body_at};
pub use capnp_layout::place::{Place, segment, word};
pub use capnp_layout::pointer::{Elements, FarPointer, PointerWord, StructSize};
