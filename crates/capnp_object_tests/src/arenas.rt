//! Arenas over hand-computed segments, and what views of their roots say.
use capnp_frame::message::{ReaderOptions, ReaderSegments, SegmentArray};
use capnp_frame::{ErrorKind, Result};
use capnp_frame_tests::limits::DEFAULT_LIMIT;
use capnp_wire::arena::ReaderArena;
use capnp_wire::traits::FromPointerReader;
use capnp_wire::{any_pointer, text};

/// What a call returns, an error by its kind.
pub type Walked<T> = std::result::Result<T, ErrorKind>;

/// What a call returns, an error by its number.
pub type Numbered<T> = std::result::Result<T, u8>;

/// Segments that are read.
pub type Arena<'a> = ReaderArena<SegmentArray<'a>>;

/// An arena of segments from which nothing has been read.
pub fn arena_of<'a>(segments: &'a [&'a [u8]], limit: Option<usize>, nesting: i32) -> Arena<'a> {
    let mut options = ReaderOptions::new();
    options
        .traversal_limit_in_words(limit)
        .nesting_limit(nesting);
    ReaderArena::new(SegmentArray::new(segments), options)
}

/// An arena with the limits of the default options.
pub fn plain_arena<'a>(segments: &'a [&'a [u8]]) -> Arena<'a> {
    arena_of(segments, DEFAULT_LIMIT, 64)
}

/// A view of the root.
pub fn root_as<'a, S: ReaderSegments, T: FromPointerReader<'a, S>>(
    arena: &'a ReaderArena<S>,
) -> Result<T> {
    arena.get_root()?.get_as()
}

/// The text at a pointer.
pub fn text_at<'a, S: ReaderSegments>(pointer: &any_pointer::Reader<'a, S>) -> Numbered<&'a [u8]> {
    match pointer.get_as::<text::Reader<'a>>() {
        Ok(text) => Ok(text.as_bytes()),
        Err(error) => Err(error.kind.number()),
    }
}

/// The kind of an error.
pub fn kind_of<T: Drop>(returned: Result<T>) -> Option<ErrorKind> {
    match returned {
        Ok(_) => None,
        Err(error) => Some(error.kind),
    }
}
