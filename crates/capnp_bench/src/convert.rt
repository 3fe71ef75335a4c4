//! Streams change their format, to packed and back.

use crate::digest::Digest;
use crate::random::Random;
use crate::raw::{push_framed, push_record, push_word};
use capnp::message::ReaderOptions;
use capnp::{Result, Way, transcode};
use std::alloc::Global;

/// Packs and unpacks a stream of this many records, and streams of as many words: mostly zeros,
/// without a zero byte, of small numbers, and of many segments.
pub fn digest_of(alloc: Global, seed: u32, count: u32) -> Result<u64> {
    let mut random = Random::new(seed);
    let mut digest = Digest::new();
    let words = 16 * count as u64;
    let mut stream = Vec::new(alloc);
    push_records(alloc, &mut stream, &mut random, count)?;
    add_both_ways(alloc, &stream, &mut digest)?;
    for kind in [Words::Sparse, Words::Dense, Words::Small] {
        stream.clear();
        push_words(&mut stream, &mut random, kind, words)?;
        add_both_ways(alloc, &stream, &mut digest)?;
    }
    stream.clear();
    push_segments(&mut stream, &mut random, words / 1024)?;
    add_both_ways(alloc, &stream, &mut digest)?;
    Ok(digest.value())
}

fn add_both_ways(alloc: Global, stream: &[u8], digest: &mut Digest) -> Result<()> {
    let mut options = ReaderOptions::new();
    options.traversal_limit_in_words(None);
    let mut source = stream;
    let mut packed = Vec::new(alloc);
    transcode(alloc, Way::Pack, &mut source, &mut packed, options)?;
    digest.add_bytes(&packed);
    let mut source = packed.as_slice();
    let mut unpacked = Vec::new(alloc);
    transcode(alloc, Way::Unpack, &mut source, &mut unpacked, options)?;
    digest.add_bytes(&unpacked);
    Ok(())
}

/// A framed stream of this many records.
pub fn push_records(
    alloc: Global,
    stream: &mut Vec<u8>,
    random: &mut Random,
    count: u32,
) -> Result<()> {
    let mut segment = Vec::new(alloc);
    for _ in 0..count {
        segment.clear();
        push_record(&mut segment, random)?;
        push_framed(stream, &segment)?;
    }
    Ok(())
}

/// What the words of a large message are.
#[derive(Clone, Copy)]
enum Words {
    Sparse,
    Dense,
    Small,
}

/// A stream of one message of one segment.
fn push_words(stream: &mut Vec<u8>, random: &mut Random, kind: Words, count: u64) -> Result<()> {
    push_word(stream, count << 32)?;
    for _ in 0..count {
        push_word(stream, word_of(random, kind))?;
    }
    Ok(())
}

fn word_of(random: &mut Random, kind: Words) -> u64 {
    let number = random.next();
    match kind {
        Words::Sparse if number >> 61 == 0 => number & 0xffff,
        Words::Sparse => 0,
        Words::Dense => number | 0x0101_0101_0101_0101,
        Words::Small => number & 0x0000_00ff_0000_ffff,
    }
}

/// A stream of messages of 64 segments of 16 words each.
fn push_segments(stream: &mut Vec<u8>, random: &mut Random, count: u64) -> Result<()> {
    for _ in 0..count {
        push_word(stream, 63 | 16 << 32)?;
        for _ in 0..31 {
            push_word(stream, 16 | 16 << 32)?;
        }
        push_word(stream, 16)?;
        for _ in 0..1024 {
            push_word(stream, word_of(random, Words::Small))?;
        }
    }
    Ok(())
}
