//! Each caller once, where memory is there. What it returns its contract says.
use crate::fixtures::{HELLO, PACKED_HELLO};
use capnp::Result;
use capnp::message::{Builder, DEFAULT_READER_OPTIONS, ReaderSegments, SegmentArray};
use capnp::streams::Format;
use capnp_uses::building::write_struct;
use capnp_uses::canonical::canonical_words;
use capnp_uses::packed_struct::{a_struct_is_read_packed, packed_encoding, read_packed_words};
use capnp_uses::packing::{pack_words, unpack_words, words_are_unpacked};
use capnp_uses::reading::{borrowed_message, first_message, root_text};
use capnp_uses::record_log::two_records_are_read_back;
use capnp_uses::streaming::{next_message, skip_message};
use std::alloc::{AllocError, Global};

// Segments [] and [1, 2, 3, 4, 5, 6, 7, 8], framed, and packed.
const FRAMED: [u8; 24] = [
    1, 0, 0, 0, 0, 0, 0, 0, 1, 0, 0, 0, 0, 0, 0, 0, 1, 2, 3, 4, 5, 6, 7, 8,
];

const PACKED: [u8; 14] = [1, 1, 1, 1, 255, 1, 2, 3, 4, 5, 6, 7, 8, 0];

/// A message of one word and HELLO, which has three, in a format.
pub fn both(alloc: Global, format: Format) -> std::result::Result<Vec<u8>, AllocError> {
    let (first, second): (&[u8], &[u8]) = match format {
        Format::Framed => (&FRAMED, &HELLO),
        Format::Packed => (&PACKED, &PACKED_HELLO),
    };
    let mut stream = first.to_vec(alloc)?;
    stream.extend_from_slice(second)?;
    Ok(stream)
}

#[test]
fn messages_are_read_and_skipped(rt: HostRuntime) -> Result<()> {
    let options = DEFAULT_READER_OPTIONS;
    first_message(rt.alloc(), &HELLO)?;
    canonical_words(rt.alloc(), &HELLO)?;
    let mut source = PACKED.as_slice();
    next_message(rt.alloc(), &mut source, Format::Packed, options)?;
    let mut source = FRAMED.as_slice();
    skip_message(rt.alloc(), &mut source, Format::Framed, options)?;
    show_root()
}

fn show_root() -> Result<()> {
    let message = borrowed_message(&HELLO)?;
    root_text(&message)?;
    Ok(())
}

// The example of the encoding document, "Packing".
#[test]
fn words_of_the_document(rt: HostRuntime) -> Result<()> {
    let words = [8, 0, 0, 0, 3, 0, 2, 0, 0x19, 0, 0, 0, 0xaa, 1, 0, 0];
    let encoding = pack_words(rt.alloc(), &words)?;
    let mut unpacked = [0; 16];
    unpack_words(&encoding, &mut unpacked)?;
    words_are_unpacked(rt.alloc(), &words)?;
    Ok(())
}

#[test]
fn two_records(rt: HostRuntime) -> Result<()> {
    let slices = [[].as_slice(), &FRAMED[16..]];
    let record = SegmentArray::new(&slices);
    let read = two_records_are_read_back(rt.alloc(), &record, &record, DEFAULT_READER_OPTIONS)?;
    assert_eq!(rt; read.messages.len(), 2);
    Ok(())
}

#[test]
fn structs_are_packed_and_read(rt: HostRuntime) -> Result<()> {
    let mut message = Builder::new_default(rt.alloc());
    write_struct(&mut message, 10, 20)?;
    assert!(rt; !message.is_empty());
    let encoding = packed_encoding(rt.alloc(), &message)?;
    read_packed_words(rt.alloc(), &encoding)?;
    a_struct_is_read_packed(rt.alloc(), &mut message, 10, 20)?;
    Ok(())
}
