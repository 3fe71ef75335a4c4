//! Reading and writing of messages by the [standard stream framing].
//!
//! In front of its segments a message has a segment table, which says how many there are and how
//! long each is.
//!
//! # Errors of readers
//!
//! The first of these that holds decides with which error a reader fails:
//!
//! - the first word of the table is cut;
//! - the number of segments isn't from 1 to 511: `InvalidNumberOfSegments`, with this number;
//! - the rest of the table is cut;
//! - the segments have more words than the limit: `MessageTooLarge`, with the number of words;
//! - the padding isn't zero: `NonZeroPadding`, which a `_lenient` form never returns, nor one that
//!   is given rules with `Padding::Any`;
//! - the segments are cut.
//!
//! Where something is cut, a reader of a stream fails as its source does, over plain bytes with
//! `FailedToFillTheWholeBuffer`. A reader of a slice or a buffer fails with `EmptySlice` or
//! `EmptyBuffer` for no bytes, with `FailedToFillTheWholeBuffer` for a table that is cut, and with
//! `MessageEndsPrematurely` for segments that are cut. `NoAllocBufferSegments` reads the table
//! field by field, so each test comes as soon as its fields are there, and fails with
//! `MessageEndsPrematurely` for whatever is cut.
//!
//! `DeviceFailed` comes only where a source's device failed in the call. A reader that takes memory
//! fails with `OutOfMemory` where there is none, after the number of segments is accepted; over a
//! slice or a buffer it takes none for one segment. A reader into a caller-provided buffer fails
//! with `BufferNotLargeEnough` instead. It tests first of all that the buffer has 8 bytes. Once the
//! number of segments is accepted, it tests that the table fits, and once the padding is accepted,
//! that table and segments do.
//!
//! [standard stream framing]: https://capnproto.org/encoding.html#serialization-over-a-stream
mod buffer_segments;
mod framed;
mod no_alloc_buffer_segments;
mod owned_segments;
mod provided_stream;
mod segment_indices;
mod segment_lengths;
mod segment_table;
mod segment_table_info;
mod skipping;
mod stream;
mod stream_table;
mod writable;
mod writing;

pub use buffer_segments::{
    BufferSegments, take_segments, take_segments_lenient, take_segments_with_rules,
};
pub use framed::try_read_framed_into;
pub use no_alloc_buffer_segments::{NoAllocBufferSegments, NoAllocSliceSegments};
pub use owned_segments::OwnedSegments;
pub use provided_stream::{
    try_read_segments_into, try_read_segments_into_lenient, try_read_segments_into_with_rules,
};
pub use segment_lengths::SegmentLengthsBuilder;
pub use segment_table::{Padding, SEGMENTS_COUNT_LIMIT, TableRules};
pub use segment_table_info::{NoAllocSegmentTableInfo, describes};
pub use skipping::try_skip_segments;
pub use stream::{try_read_segments, try_read_segments_lenient, try_read_segments_reusing};
pub use stream_table::read_table;
pub use writable::is_writable;
pub use writing::{segments_to_words, serialized_size_in_words, write_segments};
