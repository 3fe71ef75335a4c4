//! Messages are brought into canonical form, tested for it, and copied.

use crate::digest::Digest;
use crate::random::Random;
use crate::raw::{push_large, push_record};
use capnp::message::{Builder, HeapAllocator, Reader, ReaderOptions, ReaderSegments, SegmentArray};
use capnp::{Result, any_pointer};
use std::alloc::Global;

/// The most words of a segment.
const MOST_WORDS: usize = 1 << 29;

/// How many structs a large message has at most.
const MOST_STRUCTS: u64 = 20_000;

/// Canonical forms of this many records, and of messages of an eighth as many structs, nodes and
/// lists in all.
pub fn digest_of(alloc: Global, seed: u32, count: u32) -> Result<u64> {
    let mut random = Random::new(seed);
    let mut digest = Digest::new();
    let mut segment = Vec::new(alloc);
    for _ in 0..count {
        segment.clear();
        push_record(&mut segment, &mut random)?;
        add_forms(alloc, &segment, &mut digest)?;
    }
    let elements = (count as u64 / 8).min(MOST_STRUCTS);
    for _ in 0..1 + count as u64 / (8 * MOST_STRUCTS) {
        segment.clear();
        push_large(&mut segment, &mut random, elements)?;
        add_forms(alloc, &segment, &mut digest)?;
    }
    Ok(digest.value())
}

fn options() -> ReaderOptions {
    let mut options = ReaderOptions::new();
    options.traversal_limit_in_words(Some(1 << 30));
    options
}

fn add_forms(alloc: Global, segment: &[u8], digest: &mut Digest) -> Result<()> {
    let segments = [segment];
    let message = Reader::new(SegmentArray::new(&segments), options());
    digest.add(u64::from(message.is_canonical()?));
    let form = message.canonical_segment(alloc)?;
    digest.add_bytes(&form);
    for word in &message.canonicalize(alloc)? {
        digest.add(u64::from_le_bytes(word.bytes()));
    }
    let output = [form.as_slice()];
    let canonical = Reader::new(SegmentArray::new(&output), options());
    digest.add(u64::from(canonical.is_canonical()?));
    add_copies(alloc, &canonical, form.len() / 8, digest)
}

/// Sets roots to the root of a message of this many words.
fn add_copies<S: ReaderSegments>(
    alloc: Global,
    message: &Reader<S>,
    words: usize,
    digest: &mut Digest,
) -> Result<()> {
    let root: any_pointer::Reader<'_, S> = message.get_root()?;
    let mut copy = Builder::new_default(alloc);
    copy.set_root(root)?;
    digest.add(copy.size_in_words() as u64);
    let root: any_pointer::Reader<'_, S> = message.get_root()?;
    let first = words.min(MOST_WORDS) as u32;
    let mut canonical = Builder::new(alloc, HeapAllocator::new(alloc).first_segment_words(first));
    canonical.set_root_canonical(root)?;
    digest.add(canonical.size_in_words() as u64);
    Ok(())
}
