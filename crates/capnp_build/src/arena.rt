//! The arena that a message is built in.
pub mod builder_arena;
pub mod location;
mod placing;
mod root;
mod setting;
mod writing;
