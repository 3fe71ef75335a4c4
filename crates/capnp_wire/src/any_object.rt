//! Views of objects of any kind, for authors of views of their own (encoding document, "Structs"
//! and "Lists").
//!
//! The other views accept only objects of their own type. A view that accepts several kinds of
//! objects asks for an [`any_object::Reader`](Reader), which reads what the pointer points to once.
//! It then picks the kinds that it accepts, and returns an error of its own for any other kind.
mod numbers;
mod reader;

pub use numbers::Numbers;
pub use reader::Reader;
