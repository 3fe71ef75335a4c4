//! The examples of modules and of pages, which `tools/lint code` compares with these.
use capnp::io::{Read, Write};
use capnp::message::{
    Builder, DEFAULT_READER_OPTIONS, HeapAllocator, Reader, SegmentArray, SingleSegmentAllocator,
};
use capnp::serialize::{self, OwnedSegments, Padding};
use capnp::serialize_packed::{self, PackedRead, PackedWrite};
use capnp::streams::{self, Format, MessageStream};
use capnp::{Error, Way, primitive_list, record_log, text, transcode};
use std::test::Fail;

// A message of three words whose root is the text "Hello, World!", framed.
pub const HELLO: [u8; 32] = [
    0, 0, 0, 0, 3, 0, 0, 0, 1, 0, 0, 0, 0x72, 0, 0, 0, 0x48, 0x65, 0x6c, 0x6c, 0x6f, 0x2c, 0x20,
    0x57, 0x6f, 0x72, 0x6c, 0x64, 0x21, 0, 0, 0,
];

// The same, packed.
pub const PACKED: [u8; 21] = [
    0x10, 3, 0x11, 1, 0x72, 0xff, 0x48, 0x65, 0x6c, 0x6c, 0x6f, 0x2c, 0x20, 0x57, 0, 0x1f, 0x6f,
    0x72, 0x6c, 0x64, 0x21,
];

#[test]
fn reads_framed_messages(rt: HostRuntime) -> Result<(), Fail> {
    let alloc = rt.alloc();
    let bytes = HELLO.as_slice();
    let mut source = bytes;
    let options = DEFAULT_READER_OPTIONS;
    let Some(message) = serialize::try_read_message(alloc, &mut source, options)? else {
        panic!(rt; "no message");
    };
    let greeting: text::Reader<'_> = message.get_root()?;
    assert_eq!(rt; greeting.as_bytes(), b"Hello, World!".as_slice());
    assert!(rt; source.is_empty());
    Ok(())
}

#[test]
fn reads_packed_messages(rt: HostRuntime) -> Result<(), Fail> {
    let alloc = rt.alloc();
    let bytes = PACKED.as_slice();
    let mut source = bytes;
    let options = DEFAULT_READER_OPTIONS;
    let Some(message) = serialize_packed::try_read_message(alloc, &mut source, options)? else {
        panic!(rt; "no message");
    };
    let greeting: text::Reader<'_> = message.get_root()?;
    assert_eq!(rt; greeting.as_bytes(), b"Hello, World!".as_slice());
    assert!(rt; source.is_empty());
    Ok(())
}

#[test]
fn reads_in_place(rt: HostRuntime) -> Result<(), Fail> {
    let bytes = HELLO.as_slice();
    let mut rest = bytes;
    let options = DEFAULT_READER_OPTIONS;
    let message = serialize::read_message_from_flat_slice_no_alloc(&mut rest, options)?;
    let greeting: text::Reader<'_> = message.get_root()?;
    assert_eq!(rt; greeting.as_bytes(), b"Hello, World!".as_slice());
    assert!(rt; rest.is_empty());
    Ok(())
}

#[test]
fn writes_framed_messages(rt: HostRuntime) -> Result<(), Fail> {
    let alloc = rt.alloc();
    let segments = [[0; 8].as_slice()];
    let message = SegmentArray::new(&segments);
    let mut stream = Vec::new(alloc);
    serialize::write_message_segments(alloc, &mut stream, &message)?;
    assert_eq!(rt; stream.len(), 16);
    assert_eq!(rt; &stream[..8], [0, 0, 0, 0, 1, 0, 0, 0].as_slice());
    Ok(())
}

#[test]
fn writes_packed_messages(rt: HostRuntime) -> Result<(), Fail> {
    let alloc = rt.alloc();
    let segments = [[0; 8].as_slice()];
    let message = SegmentArray::new(&segments);
    let mut stream = Vec::new(alloc);
    serialize_packed::write_message_segments(alloc, &mut stream, &message)?;
    assert_eq!(rt; stream.as_slice(), [0x10, 1, 0, 0].as_slice());
    Ok(())
}

#[test]
fn transcodes(rt: HostRuntime) -> Result<(), Fail> {
    let alloc = rt.alloc();
    let mut source = HELLO.as_slice();
    let mut packed = Vec::new(alloc);
    let options = DEFAULT_READER_OPTIONS;
    transcode(alloc, Way::Pack, &mut source, &mut packed, options)?;
    assert_eq!(rt; packed.as_slice(), PACKED.as_slice());
    Ok(())
}

#[test]
fn reads_each_message_of_a_stream(rt: HostRuntime) -> Result<(), Fail> {
    let alloc = rt.alloc();
    let source = PACKED.as_slice();
    let options = DEFAULT_READER_OPTIONS;
    for message in MessageStream::new(alloc, source, Format::Packed, Padding::Zero, options) {
        assert!(rt; is_greeting(&message?)?);
    }
    Ok(())
}

#[test]
fn finds_where_a_log_is_cut(rt: HostRuntime) -> Result<(), Fail> {
    let alloc = rt.alloc();
    let mut bytes = Vec::new(alloc);
    bytes.extend_from_slice(PACKED.as_slice())?;
    bytes.extend_from_slice(&PACKED[..20])?;
    let log = bytes.as_slice();
    let options = DEFAULT_READER_OPTIONS;
    let mut messages = MessageStream::new(alloc, log, Format::Packed, Padding::Zero, options);
    for message in messages.by_ref() {
        assert!(rt; is_greeting_or_cut(message)?);
    }
    assert_eq!(rt; messages.end(), 21);
    Ok(())
}

fn is_greeting_or_cut(message: Result<Reader<OwnedSegments>, Error>) -> Result<bool, Fail> {
    match message {
        Ok(message) => is_greeting(&message),
        Err(error) => Ok(streams::is_cut(&error)),
    }
}

fn is_greeting(message: &Reader<OwnedSegments>) -> Result<bool, Fail> {
    let greeting: text::Reader<'_> = message.get_root()?;
    Ok(greeting.is("Hello, World!"))
}

#[test]
fn appends_a_record_to_a_log(rt: HostRuntime) -> Result<(), Fail> {
    let alloc = rt.alloc();
    let mut message = Builder::new_default(alloc);
    message.set_root::<text::Owned, &str>("Hello, World!")?;
    let mut log = Vec::new(alloc);
    record_log::append(alloc, &mut log, &message)?;
    let read = record_log::read_log(alloc, &log, DEFAULT_READER_OPTIONS);
    assert_eq!(rt; (read.messages.len(), read.end), (1, log.len()));
    assert!(rt; !read.is_cut());
    Ok(())
}

#[test]
fn packs_words(rt: HostRuntime) -> Result<(), Fail> {
    let alloc = rt.alloc();
    let mut encoding = Vec::new(alloc);
    let mut packed = PackedWrite::new(&mut encoding);
    packed.write_all(&[8, 0, 0, 0, 3, 0, 2, 0])?;
    assert_eq!(rt; encoding.as_slice(), [0x51, 8, 3, 2].as_slice());
    Ok(())
}

#[test]
fn unpacks_words(rt: HostRuntime) -> Result<(), Fail> {
    let mut source = [0x51, 8, 3, 2].as_slice();
    let mut words = [0; 8];
    let mut packed = PackedRead::new(&mut source);
    packed.read_exact(&mut words)?;
    assert_eq!(rt; words, [8, 0, 0, 0, 3, 0, 2, 0]);
    Ok(())
}

#[test]
fn builds_messages(rt: HostRuntime) -> Result<(), Fail> {
    let alloc = rt.alloc();
    let mut message = Builder::new_default(alloc);
    message.set_root::<text::Owned, &str>("Hello, World!")?;
    let greeting: text::Reader<'_> = message.get_root_as_reader()?;
    assert_eq!(rt; greeting.as_bytes(), b"Hello, World!".as_slice());
    Ok(())
}

// The example of README.md.
#[test]
fn writes_and_reads_a_message(rt: HostRuntime) -> Result<(), Fail> {
    let alloc = rt.alloc();
    let mut message = Builder::new_default(alloc);
    message.set_root::<text::Owned, &str>("Hello, World!")?;
    let mut stream: Vec<u8> = Vec::new(alloc);
    serialize::write_message(alloc, &mut stream, &message)?;
    assert_eq!(rt; stream.as_slice(), HELLO.as_slice());
    let mut source = stream.as_slice();
    let read = serialize::read_message(alloc, &mut source, DEFAULT_READER_OPTIONS)?;
    let greeting: text::Reader<'_> = read.get_root()?;
    assert_eq!(rt; greeting.as_bytes(), b"Hello, World!".as_slice());
    Ok(())
}

#[test]
fn inits_roots(rt: HostRuntime) -> Result<(), Fail> {
    let alloc = rt.alloc();
    let mut message = Builder::new(alloc, HeapAllocator::new(alloc));
    let mut numbers = message.initn_root::<primitive_list::Owned<u64>>(3)?;
    numbers.set(1, 500);
    assert_eq!(rt; numbers.get(1), 500);
    assert_eq!(rt; message.size_in_words(), 4);
    Ok(())
}

#[test]
fn builds_in_a_provided_region(rt: HostRuntime) -> Result<(), Fail> {
    let alloc = rt.alloc();
    let mut region = [0; 24];
    let mut message = Builder::new(alloc, SingleSegmentAllocator::new(&mut region));
    message.set_root::<text::Owned, &str>("Hello, World!")?;
    assert_eq!(rt; message.size_in_words(), 3);
    Ok(())
}

#[test]
fn makes_canonical_words(rt: HostRuntime) -> Result<(), Fail> {
    let alloc = rt.alloc();
    let mut rest = HELLO.as_slice();
    let options = DEFAULT_READER_OPTIONS;
    let message = serialize::read_message_from_flat_slice_no_alloc(&mut rest, options)?;
    let words = message.canonicalize(alloc)?;
    assert_eq!(rt; words.len(), 3);
    assert!(rt; message.is_canonical()?);
    Ok(())
}
