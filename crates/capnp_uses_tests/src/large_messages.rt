//! Messages of 2^20 words through each call that reads, writes and canonicalizes, each in a test by
//! itself for the minute that a test has in a build with checks. What is read and written contracts
//! say.
use crate::fixtures::{
    Message, canonical_encoding, message_of, set_root, set_root_canonical, transcoded,
};
use capnp::message::{Builder, DEFAULT_READER_OPTIONS, HeapAllocator, ReaderSegments};
use capnp::{Result, Way, data, serialize, serialize_packed};
use std::alloc::Global;
use std::process::Abort;

// The bytes of the data at the root.
const LENGTH: usize = 8 * ((1 << 20) - 1);

// The segment whose root is data of sevens, and what is before it in a framed encoding.
fn framed_million(alloc: Global) -> Result<Vec<u8>> {
    let mut framed = [0, 0, 0, 0, 0, 0, 16, 0, 1, 0, 0, 0, 0xc2, 0xff, 0xff, 3].to_vec(alloc)?;
    framed.resize(16 + LENGTH, 7)?;
    Ok(framed)
}

#[test]
fn a_message_of_a_million_words(rt: HostRuntime) -> Result<()> {
    let bytes = vec![in rt.alloc(); 7u8; LENGTH]?;
    let mut message = large_message(rt.alloc());
    message.set_root::<data::Owned, &[u8]>(&bytes)?;
    assert!(rt; !message.is_empty());
    let mut framed: Vec<u8> = Vec::new(rt.alloc());
    serialize::write_message(rt.alloc(), &mut framed, &message)?;
    serialize::write_message_to_words(rt.alloc(), &message)?;
    Ok(())
}

#[test]
fn a_million_words_are_read(rt: HostRuntime) -> Result<()> {
    let framed = framed_million(rt.alloc())?;
    read_framed(rt.alloc(), &framed)?;
    let mut slice = framed.as_slice();
    let read = serialize::read_message_from_flat_slice(
        rt.alloc(),
        &mut slice,
        DEFAULT_READER_OPTIONS,
    )?;
    let bytes: data::Reader<'_> = read.get_root()?;
    assert!(rt; bytes.len() == LENGTH);
    Ok(())
}

#[test]
fn a_million_words_are_packed(rt: HostRuntime) -> Result<()> {
    let framed = framed_million(rt.alloc())?;
    transcoded(rt.alloc(), Way::Pack, &framed)?;
    Ok(())
}

#[test]
fn a_million_packed_words_are_read(rt: HostRuntime) -> Result<()> {
    read_packed(rt.alloc(), &packed_million(rt.alloc())?)
}

#[test]
fn a_million_packed_words_are_unpacked(rt: HostRuntime) -> Result<()> {
    transcoded(rt.alloc(), Way::Unpack, &packed_million(rt.alloc())?)?;
    Ok(())
}

// The same, packed: the table's word, the root's with its three zero bytes left out, and then literal
// runs. Each run is a word after its tag, and up to 255 words that are copied, 256 words together. Of
// 2^20 - 1 words 4,095 runs are full, and the last has 255 words.
fn packed_million(alloc: Global) -> Result<Vec<u8>> {
    let mut packed = [0x40, 0x10, 0xf1, 1, 0xc2, 0xff, 0xff, 3].to_vec(alloc)?;
    let words = [7u8; 255 * 8];
    for _ in 0..4095 {
        packed.extend_from_slice(&[0xff, 7, 7, 7, 7, 7, 7, 7, 7, 255])?;
        packed.extend_from_slice(&words)?;
    }
    packed.extend_from_slice(&[0xff, 7, 7, 7, 7, 7, 7, 7, 7, 254])?;
    packed.extend_from_slice(&words[..254 * 8])?;
    Ok(packed)
}

// A message whose first segment has room for 2^20 words.
fn large_message(alloc: Global) -> Builder<HeapAllocator> {
    Builder::new(
        alloc,
        HeapAllocator::new(alloc).first_segment_words(1 << 20),
    )
}

/// Reads a framed message into memory that grows, and into a buffer.
pub(crate) fn read_framed(alloc: Global, framed: &[u8]) -> Result<()> {
    let options = DEFAULT_READER_OPTIONS;
    let mut source = framed;
    serialize::read_message(alloc, &mut source, options)?;
    let mut room = vec![in alloc; 0u8; framed.len()]?;
    let mut source = framed;
    serialize::read_message_no_alloc(&mut source, &mut room, options)?;
    Ok(())
}

/// Reads a packed message of at most 2^20 words, the same way.
pub(crate) fn read_packed(alloc: Global, packed: &[u8]) -> Result<()> {
    let options = DEFAULT_READER_OPTIONS;
    let mut source = packed;
    serialize_packed::read_message(alloc, &mut source, options)?;
    let mut room = vec![in alloc; 0u8; 16 + LENGTH]?;
    let mut source = packed;
    serialize_packed::read_message_no_alloc(&mut source, &mut room, options)?;
    Ok(())
}

// After a far pointer the segment's root has the segment as its canonical form, by each call.
#[test]
fn a_form_of_a_million_words(rt: HostRuntime) -> Result<()> {
    let framed = framed_million(rt.alloc())?;
    let segment = framed.get(8..).unwrap_or(&[]);
    let far: [&[u8]; 2] = [b"\x02\0\0\0\x01\0\0\0", segment];
    let reader = message_of(&far, DEFAULT_READER_OPTIONS);
    assert!(rt; !reader.is_canonical()?);
    reader.canonicalize(rt.alloc())?;
    reader.canonical_segment(rt.alloc())?;
    canonical_encoding(rt.alloc(), &reader)?;
    set_from(rt.alloc(), &reader)
}

// A root that is set to the message's root, untrimmed and in canonical form.
fn set_from(alloc: Global, reader: &Message<'_>) -> Result<()> {
    let mut message = large_message(alloc);
    set_root(&mut message, reader.get_root()?)?;
    let mut form = large_message(alloc);
    set_root_canonical(&mut form, reader.get_root()?)
}
