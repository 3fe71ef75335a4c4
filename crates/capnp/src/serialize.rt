//! Reading and writing of messages by the [standard stream framing].
//!
//! [standard stream framing]: https://capnproto.org/encoding.html#serialization-over-a-stream
mod canonical;
mod flat;
mod stream;
mod writing;

pub use canonical::write_canonical_message;
pub use capnp_frame::serialize::{
    BufferSegments, NoAllocBufferSegments, NoAllocSegmentTableInfo, NoAllocSliceSegments,
    OwnedSegments, Padding, SEGMENTS_COUNT_LIMIT, SegmentLengthsBuilder, TableRules, is_writable,
};
pub use flat::{
    read_message_from_flat_slice, read_message_from_flat_slice_lenient,
    read_message_from_flat_slice_no_alloc, read_message_from_flat_slice_no_alloc_lenient,
};
pub use stream::{
    read_message, read_message_lenient, read_message_no_alloc, read_message_no_alloc_lenient,
    try_read_message, try_read_message_lenient, try_read_message_no_alloc,
    try_read_message_no_alloc_lenient, try_read_message_reusing, try_skip_message,
};
pub use writing::{
    compute_serialized_size_in_words, write_message, write_message_segments,
    write_message_segments_to_words, write_message_to_words,
};
