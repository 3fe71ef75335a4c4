//! What samples show, as plain values. A call of the library that several tests make is here, in a
//! function without a contract, so that the tests are quick to prove.
use crate::sample_capnp::{point, sample};
use capnp::message::{DEFAULT_READER_OPTIONS, Reader, ReaderSegments, SegmentArray};
use capnp_frame::Result;
use capnp_orphans::Orphanage;

/// A message of these segments.
pub fn message_of<'a>(segments: &'a [&'a [u8]]) -> Reader<SegmentArray<'a>> {
    Reader::new(SegmentArray::new(segments), DEFAULT_READER_OPTIONS)
}

/// The message that was built.
pub fn message_in<'a>(objects: &'a Orphanage) -> Reader<&'a Orphanage> {
    Reader::new(objects, DEFAULT_READER_OPTIONS)
}

/// The sample at the root of a message.
pub fn sample_of<'a, S: ReaderSegments>(message: &'a Reader<S>) -> Result<sample::Reader<'a, S>> {
    message.get_root()
}

/// A point's `x` and `y`.
pub fn coordinates<S: ReaderSegments>(read: &point::Reader<'_, S>) -> (i32, i32) {
    (read.get_x(), read.get_y())
}
