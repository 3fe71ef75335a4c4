//! Messages of Cap'n Proto as lists of segments, and the framing that carries them over a stream.
//!
//! A framed message is a segment table and then the segments: `specs/SegmentTable.antt` and
//! `specs/Frame.antt` say so in the words of the [encoding document], "Serialization Over a
//! Stream".
//!
//! [encoding document]: https://capnproto.org/encoding.html#serialization-over-a-stream
#![tactic(auto)]

mod error;
pub mod io;
pub mod laws;
pub mod message;
pub mod serialize;
mod words;

pub use crate::error::{Error, ErrorKind, Result};
pub use crate::words::Word;
pub use crate::words::literal::word;
