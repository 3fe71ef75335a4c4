//! Messages over hand-computed segments.
use capnp_frame::message::{ReaderOptions, SegmentArray};
use capnp_message::Reader;

/// A message that is read.
pub type Source<'a> = Reader<SegmentArray<'a>>;

/// A message that is read within a traversal limit.
pub fn reader_of<'a>(segments: &'a [&'a [u8]], limit: Option<usize>) -> Source<'a> {
    let mut options = ReaderOptions::new();
    let _ = options.traversal_limit_in_words(limit);
    Reader::new(SegmentArray::new(segments), options)
}
