//! Packing of Cap'n Proto messages.
//!
//! Packing leaves out zero bytes. A packed encoding is a sequence of groups: `specs/Group.antt` and
//! `specs/Chunk.antt` define it in the words of the [encoding document], "Packing", and
//! `specs/Packed.antt` defines which of the encodings of some words is the one that is written.
//!
//! [encoding document]: https://capnproto.org/encoding.html#packing
#![tactic(auto)]

mod buffer;
mod compact_shuffle;
mod copies;
mod expand_shuffle;
mod group;
mod lanes;
pub mod laws;
mod packed_read;
mod packed_write;
mod runs;
mod single_word;
mod sizes;
mod skip;
pub mod stream;
mod unpack;

pub use crate::packed_read::PackedRead;
pub use crate::packed_write::PackedWrite;
