//! Chunks of many bytes.
use crate::fixtures::expect;
use capnp::Result;
use capnp::io::Write;
use capnp::serialize_packed::PackedWrite;
use capnp_frame_tests::long_lists::list_of_numbers;
use std::alloc::{AllocError, Global};

fn filled(alloc: Global, byte: u8, length: usize) -> std::result::Result<Vec<u8>, AllocError> {
    vec![in alloc; byte; length]
}

fn append(sink: &mut Vec<u8>, chunk: &[u8]) -> Result<()> {
    Write::write_all(sink, chunk)
}

// How many bytes a chunk has.
const LENGTHS: [usize; 2] = [65_537, 2_000_003];

// A chunk of at most 2,000,016 bytes, in which no two words are equal.
fn chunk_of(alloc: Global, length: usize) -> Result<Vec<u8>> {
    let mut bytes = list_of_numbers(alloc, 8, 250_001)?;
    bytes.truncate(length);
    Ok(bytes)
}

// A vector takes a chunk twice.
#[test]
fn long_chunks(rt: HostRuntime) -> Result<()> {
    for length in &LENGTHS {
        let chunk = chunk_of(rt.alloc(), *length)?;
        let mut sink = Vec::new(rt.alloc());
        append(&mut sink, &chunk)?;
        append(&mut sink, &chunk)?;
    }
    Ok(())
}

// Writes a chunk, and returns how much room is left.
fn put(room: &mut [u8], chunk: &[u8]) -> Result<usize> {
    let mut left = room;
    Write::write_all(&mut left, chunk)?;
    Ok(left.len())
}

// A caller-provided slice takes the same once.
#[test]
fn a_long_chunk_in_a_slice(rt: HostRuntime) -> Result<()> {
    for length in &LENGTHS {
        let chunk = chunk_of(rt.alloc(), *length)?;
        let mut room = filled(rt.alloc(), 7, length.saturating_add(3))?;
        expect(&rt, "left", put(&mut room, &chunk)?, 3);
        assert!(rt; room.starts_with(&chunk) && room.ends_with(&[7, 7, 7]));
    }
    Ok(())
}

fn packed(alloc: Global, words: &[u8]) -> Result<Vec<u8>> {
    let mut encoding = Vec::new(alloc);
    PackedWrite::new(&mut encoding).write_all(words)?;
    Ok(encoding)
}

// Without a zero byte. What is packed contracts say, and that it is unpacked.
#[test]
fn long_packed_chunks(rt: HostRuntime) -> Result<()> {
    for length in &[65_544, 2_000_904] {
        let words = filled(rt.alloc(), 7, *length)?;
        packed(rt.alloc(), &words)?;
    }
    Ok(())
}
