//! Where the segments of messages are while they are read.
mod reader_arena;

pub use reader_arena::ReaderArena;
