//! Messages that are read and built, and the allocators of their segments.
//!
//! A [`Reader`](reader::Reader) holds the segments of a message and returns its root as a view, or
//! an error that says what is wrong there by the [encoding document]. A
//! [`TypedReader`](typed_reader::TypedReader) is a reader whose root has a type. A
//! [`Builder`](builder::Builder) builds a message in segments that an allocator hands out.
//!
//! [encoding document]: https://capnproto.org/encoding.html
#![tactic(auto)]

pub mod builder;
pub mod heap_allocator;
pub mod laws;
pub mod output_segments;
pub mod reader;
mod root;
pub mod scratch_space;
pub mod single_segment;
pub mod typed_builder;
pub mod typed_reader;

pub use builder::Builder;
pub use heap_allocator::{
    AllocationStrategy, HeapAllocator, SUGGESTED_ALLOCATION_STRATEGY, SUGGESTED_FIRST_SEGMENT_WORDS,
};
pub use output_segments::OutputSegments;
pub use reader::Reader;
pub use scratch_space::{ScratchSegment, ScratchSpaceHeapAllocator};
pub use single_segment::SingleSegmentAllocator;
pub use typed_builder::TypedBuilder;
pub use typed_reader::TypedReader;
