//! Packed messages come a few bytes at a time, and words are packed a few at a time.

use crate::convert::push_records;
use crate::digest::Digest;
use crate::random::Random;
use crate::raw::push_word;
use crate::roots::is_wanted;
use crate::source::Trickle;
use capnp::io::Write;
use capnp::message::{DEFAULT_READER_OPTIONS, ReaderSegments};
use capnp::serialize::{OwnedSegments, Padding};
use capnp::serialize_packed::{PackedWrite, try_read_message_reusing};
use capnp::{Result, Way, transcode};
use std::alloc::Global;

/// How many messages a stream has.
const MESSAGES: u32 = 32;

/// How many words a message that is no record has.
const MESSAGE_WORDS: u64 = 24;

/// How many bytes a source shows at a time, and a factor for the number of messages that are read
/// in this way, so that all sizes take about as long.
const SHOWN: [(&str, usize, u32); 8] = [
    ("1", 1, 1),
    ("2", 2, 1),
    ("5", 5, 2),
    ("9", 9, 2),
    ("16", 16, 3),
    ("17", 17, 4),
    ("24", 24, 4),
    ("40", 40, 3),
];

/// How many bytes a sink is given at a time, and a factor for the number of messages that are
/// packed in this way.
const CHUNKS: [(&str, usize, u32); 5] = [
    ("chunk-1", 8, 1),
    ("chunk-2", 16, 2),
    ("chunk-3", 24, 3),
    ("chunk-5", 40, 4),
    ("chunk-16", 128, 8),
];

/// What the messages of a stream are.
#[derive(Clone, Copy)]
enum Messages {
    Records,
    Of(Words),
    /// Messages of runs of one to five words of a kind.
    Mixed,
}

const STREAMS: [(&str, Messages); 4] = [
    ("records", Messages::Records),
    ("dense", Messages::Of(Words::Dense)),
    ("sparse", Messages::Of(Words::Sparse)),
    ("mixed", Messages::Mixed),
];

/// What words are.
#[derive(Clone, Copy)]
enum Words {
    /// Without a zero byte.
    Dense,
    /// Zero seven times in eight.
    Sparse,
    /// With some zero bytes.
    Small,
}

/// Reads and packs this many messages of each stream, or of the stream of a name, at each size, or
/// at the size of a name.
pub fn digest_of(
    alloc: Global,
    seed: u32,
    count: u32,
    size: Option<&str>,
    stream: Option<&str>,
) -> Result<u64> {
    let mut digest = Digest::new();
    for (name, messages) in STREAMS {
        if is_wanted(stream, name) {
            let mut random = Random::new(seed);
            let stream = stream_of(alloc, messages, &mut random)?;
            add_sizes(alloc, &stream, count, size, &mut digest)?;
        }
    }
    Ok(digest.value())
}

fn add_sizes(
    alloc: Global,
    stream: &[u8],
    count: u32,
    size: Option<&str>,
    digest: &mut Digest,
) -> Result<()> {
    let mut source = stream;
    let mut packed = Vec::new(alloc);
    transcode(
        alloc,
        Way::Pack,
        &mut source,
        &mut packed,
        DEFAULT_READER_OPTIONS,
    )?;
    for (name, most, times) in SHOWN {
        if is_wanted(size, name) {
            let rounds = 1 + count.saturating_mul(times) / MESSAGES;
            add_unpacked(alloc, &packed, most, rounds, digest)?;
        }
    }
    for (name, most, times) in CHUNKS {
        if is_wanted(size, name) {
            let rounds = 1 + count.saturating_mul(times) / MESSAGES;
            add_packed(alloc, stream, most, rounds, digest)?;
        }
    }
    Ok(())
}

/// Adds the bytes of each message once, and then only how many.
fn add_unpacked(
    alloc: Global,
    packed: &[u8],
    most: usize,
    rounds: u32,
    digest: &mut Digest,
) -> Result<()> {
    let mut spare = OwnedSegments::empty(alloc);
    for round in 0..rounds {
        let mut source = Trickle::new(packed, most);
        for _ in 0..MESSAGES {
            let options = DEFAULT_READER_OPTIONS;
            let next = try_read_message_reusing(&mut source, Padding::Zero, options, spare)?;
            let Some(message) = next else {
                return Ok(());
            };
            for segment in message.get_segments().get_segment(0) {
                digest.add(segment.len() as u64);
                if round == 0 {
                    digest.add_bytes(segment);
                }
            }
            spare = message.into_segments();
        }
    }
    Ok(())
}

/// Adds the packed bytes once, and then only how many.
fn add_packed(
    alloc: Global,
    stream: &[u8],
    most: usize,
    rounds: u32,
    digest: &mut Digest,
) -> Result<()> {
    let mut packed = Vec::new(alloc);
    for round in 0..rounds {
        packed.clear();
        let mut writer = PackedWrite::new(&mut packed);
        for chunk in stream.chunks(most.max(1)) {
            writer.write_all(chunk)?;
        }
        digest.add(packed.len() as u64);
        if round == 0 {
            digest.add_bytes(&packed);
        }
    }
    Ok(())
}

/// A framed stream of messages of one segment.
fn stream_of(alloc: Global, messages: Messages, random: &mut Random) -> Result<Vec<u8>> {
    let mut stream = Vec::new(alloc);
    match messages {
        Messages::Records => push_records(alloc, &mut stream, random, MESSAGES)?,
        _ => {
            for _ in 0..MESSAGES {
                push_message(&mut stream, messages, random)?;
            }
        }
    }
    Ok(stream)
}

fn push_message(stream: &mut Vec<u8>, messages: Messages, random: &mut Random) -> Result<()> {
    push_word(stream, MESSAGE_WORDS << 32)?;
    let mut words = Words::Dense;
    let mut rest = 0;
    for _ in 0..MESSAGE_WORDS {
        if rest == 0 {
            rest = 1 + random.below(5);
            words = words_of(messages, random);
        }
        rest -= 1;
        push_word(stream, word_of(words, random))?;
    }
    Ok(())
}

fn words_of(messages: Messages, random: &mut Random) -> Words {
    match messages {
        Messages::Of(words) => words,
        _ => match random.below(3) {
            0 => Words::Dense,
            1 => Words::Sparse,
            _ => Words::Small,
        },
    }
}

fn word_of(words: Words, random: &mut Random) -> u64 {
    let number = random.next();
    match words {
        Words::Dense => number | 0x0101_0101_0101_0101,
        Words::Sparse if number >> 61 == 0 => number & 0xffff,
        Words::Sparse => 0,
        Words::Small => number & 0x0000_ff00_00ff_ffff,
    }
}
