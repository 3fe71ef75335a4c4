//! Reading and writing of [packed] messages.
//!
//! [packed]: https://capnproto.org/encoding.html#packing
mod stream;
mod writing;

pub use capnp_pack::{PackedRead, PackedWrite};
pub use stream::{
    read_message, read_message_lenient, read_message_no_alloc, read_message_no_alloc_lenient,
    try_read_message, try_read_message_lenient, try_read_message_no_alloc,
    try_read_message_no_alloc_lenient, try_read_message_reusing, try_skip_message,
};
pub use writing::{write_message, write_message_segments};
