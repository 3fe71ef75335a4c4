//! The library for C: it packs and unpacks words, checks and lists framed messages, reads their
//! objects in place, builds messages, and writes canonical forms.
//!
//! Each export works over caller-provided buffers, and takes no memory. It returns 0, or the number
//! of an error (docs/FORMAT.md). An export that reads a message within limits has a twin
//! `.._with_options`, to which they are passed. `linsjoar.h` declares them.
#![tactic(auto)]

mod building;
mod canonical;
mod framed;
mod options;
mod packed;
mod packed_messages;
mod packed_parts;
mod provided_buffer;
mod reading;
mod sizes;
mod table;
