//! Objects of a framed message, read in place from C.
//!
//! A reader, a place, a struct and a list are numbers that C keeps between the calls. Nothing that
//! one call proved of them is known in the next one, so each call takes any numbers and any bytes.
//! Where they are not what a call wrote for these bytes it fails, or finds another object, and
//! always one within the bytes. No pointer is handed out, but how many bytes of the message are
//! before an object.
mod blobs;
mod element_kind;
mod entered;
mod fast_path;
mod list;
mod list_elements;
mod list_kinds;
pub(crate) mod place;
pub(crate) mod reader;
pub(crate) mod segments;
mod structs;

/// The number of the error `InvalidArgument`, which the crates below don't have: no call wrote what
/// was passed, or no list has such a code.
pub(crate) const INVALID_ARGUMENT: u32 = 27;
