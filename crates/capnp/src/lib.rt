//! Messages of Cap'n Proto in both formats: framed, and packed.
//!
//! A reader returns a message exactly where the unread bytes begin with an encoding of it, within
//! the limits, and leaves what follows. Writers add the encoding of a message.
//! `specs/Headline.antt` and `specs/Streams.antt` define this, over the grammars of the crates
//! below.
#![tactic(auto)]

pub mod any_object;
pub mod any_pointer;
pub mod any_pointer_list;
pub mod any_struct;
pub mod data;
pub mod data_list;
pub mod devices;
pub mod laws;
pub mod layout;
pub mod list_list;
pub mod message;
pub mod primitive_element;
pub mod primitive_list;
pub mod record_log;
pub mod serialize;
pub mod serialize_packed;
pub mod streams;
pub mod stringify;
pub mod struct_list;
pub mod text;
pub mod text_list;
pub mod traits;
mod transcoding;
pub mod upgraded;

pub use crate::transcoding::{Way, transcode, transcode_lenient};
pub use capnp_frame::{Error, ErrorKind, Result, Word, io, word};
pub use capnp_message::OutputSegments;
pub use capnp_orphans as orphans;
pub use capnp_values as values;
pub use capnp_wire::canonical::canonical_size;
pub use capnp_wire::{MessageSize, constant};
