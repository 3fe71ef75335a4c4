//! What these tests share: messages over hand-computed segments, and what is expected of a case.
use capnp::message::{
    Builder, DEFAULT_READER_OPTIONS, HeapAllocator, Reader, ReaderOptions, SegmentArray,
};
use capnp::serialize::write_canonical_message;
use capnp::{Result, Way, any_pointer, transcode};
use std::alloc::Global;
use std::fmt::Debug;
use std::process::Abort;

/// A message of three words whose root is the text "Hello, World!", framed.
pub const HELLO: [u8; 32] = [
    0, 0, 0, 0, 3, 0, 0, 0, 1, 0, 0, 0, 0x72, 0, 0, 0, 0x48, 0x65, 0x6c, 0x6c, 0x6f, 0x2c, 0x20,
    0x57, 0x6f, 0x72, 0x6c, 0x64, 0x21, 0, 0, 0,
];

/// The same, packed.
pub const PACKED_HELLO: [u8; 21] = [
    0x10, 3, 0x11, 1, 0x72, 0xff, 0x48, 0x65, 0x6c, 0x6c, 0x6f, 0x2c, 0x20, 0x57, 0, 0x1f, 0x6f,
    0x72, 0x6c, 0x64, 0x21,
];

/// A message that is read.
pub type Message<'a> = Reader<SegmentArray<'a>>;

/// What the root of such a message points to.
pub type Source<'a> = any_pointer::Reader<'a, SegmentArray<'a>>;

/// What is found in a case is what is wanted there.
pub fn expect<R: Debug + Drop, T: PartialEq + Debug + Drop>(
    rt: &impl Abort,
    case: R,
    found: T,
    wanted: T,
) {
    assert!(rt; found == wanted, "at {case:?}: {found:?} is not {wanted:?}");
}

/// Options with another traversal limit.
pub fn limited(limit: Option<usize>) -> ReaderOptions {
    let mut options = ReaderOptions::new();
    options.traversal_limit_in_words(limit);
    options
}

/// A message of these segments.
pub fn message_of<'a>(segments: &'a [&'a [u8]], options: ReaderOptions) -> Message<'a> {
    Reader::new(SegmentArray::new(segments), options)
}

/// Sets a root to the root of another message.
pub fn set_root(message: &mut Builder<HeapAllocator>, root: Source<'_>) -> Result<()> {
    message.set_root::<any_pointer::Owned, Source<'_>>(root)
}

/// Sets a root to the canonical form of another message's root.
pub fn set_root_canonical(message: &mut Builder<HeapAllocator>, root: Source<'_>) -> Result<()> {
    message.set_root_canonical::<any_pointer::Owned, Source<'_>>(root)
}

/// What a stream is transcoded to, and how many bytes of it are left.
pub fn transcoded(alloc: Global, way: Way, stream: &[u8]) -> Result<(Vec<u8>, usize)> {
    let mut source = stream;
    let mut encoding = Vec::new(alloc);
    transcode(
        alloc,
        way,
        &mut source,
        &mut encoding,
        DEFAULT_READER_OPTIONS,
    )?;
    Ok((encoding, source.len()))
}

/// The canonical form of a message, framed.
pub fn canonical_encoding(alloc: Global, reader: &Message<'_>) -> Result<Vec<u8>> {
    let mut sink: Vec<u8> = Vec::new(alloc);
    write_canonical_message(alloc, &mut sink, reader)?;
    Ok(sink)
}

/// A message whose first segment has room for a given number of words.
pub fn roomy_message(alloc: Global, words: u16) -> Builder<HeapAllocator> {
    let heap = HeapAllocator::new(alloc);
    Builder::new(alloc, heap.first_segment_words(words as u32))
}
