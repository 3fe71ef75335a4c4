//! Messages that are read and built, the limits of what is accepted, and the types that hold
//! segments.
pub use capnp_build::allocator::Allocator;
pub use capnp_build::arena::builder_arena::BuilderArena;
pub use capnp_build::segment_space::SegmentSpace;
pub use capnp_frame::message::{
    AsBytes, BuiltMessage, DEFAULT_READER_OPTIONS, ReaderOptions, ReaderSegments, SegmentArray,
};
pub use capnp_message::{
    AllocationStrategy, Builder, HeapAllocator, Reader, SUGGESTED_ALLOCATION_STRATEGY,
    SUGGESTED_FIRST_SEGMENT_WORDS, ScratchSegment, ScratchSpaceHeapAllocator,
    SingleSegmentAllocator, TypedBuilder, TypedReader,
};
