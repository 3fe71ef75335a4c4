//! Small messages are measured, tested for canonical form, brought into it, and copied.

use crate::digest::Digest;
use crate::shape::Kind;
use crate::small::{MESSAGES, Root, messages};
use capnp::message::{
    Builder, DEFAULT_READER_OPTIONS, Reader, ReaderSegments, SegmentArray, SingleSegmentAllocator,
};
use capnp::{Result, any_pointer};
use std::alloc::Global;

/// Room for a copy of a small message.
const REGION_BYTES: usize = 2048;

/// Each kind of root, with its name and a factor for the number of its messages, so that all kinds
/// take about as long.
const ROOTS: [(&str, Root, u32); 8] = [
    ("struct", Root::Tree(Kind::Struct), 2),
    ("pointers", Root::Tree(Kind::Pointers), 1),
    ("structs", Root::Tree(Kind::Structs), 1),
    ("numbers", Root::Numbers, 8),
    ("text", Root::Text, 8),
    ("far", Root::Far, 2),
    ("double-far", Root::DoubleFar, 2),
    ("null", Root::Null, 12),
];

/// What is done with a message.
#[derive(Clone, Copy)]
struct Calls {
    target_size: bool,
    is_canonical: bool,
    canonical_segment: bool,
    set_root: bool,
}

impl Calls {
    /// The call of a name, or all.
    fn new(name: Option<&str>) -> Calls {
        Calls {
            target_size: is_wanted(name, "target_size"),
            is_canonical: is_wanted(name, "is_canonical"),
            canonical_segment: is_wanted(name, "canonical_segment"),
            set_root: is_wanted(name, "set_root"),
        }
    }
}

/// Whether a name is the given one; all are where none or `all` is given.
pub fn is_wanted(given: Option<&str>, name: &str) -> bool {
    match given {
        Some(given) => given == name || given == "all",
        None => true,
    }
}

/// Makes each call, or the call of a name, on this many messages of each kind, or of the kind of a
/// name.
pub fn digest_of(
    alloc: Global,
    seed: u32,
    count: u32,
    kind: Option<&str>,
    call: Option<&str>,
) -> Result<u64> {
    let mut digest = Digest::new();
    for (name, root, times) in ROOTS {
        if is_wanted(kind, name) {
            let rounds = 1 + count.saturating_mul(times) / MESSAGES;
            add_messages(alloc, root, seed, rounds, Calls::new(call), &mut digest)?;
        }
    }
    Ok(digest.value())
}

/// All bytes that are returned are added once, and then only how many.
fn add_messages(
    alloc: Global,
    root: Root,
    seed: u32,
    rounds: u32,
    calls: Calls,
    digest: &mut Digest,
) -> Result<()> {
    let messages = messages(alloc, root, seed)?;
    let mut region = [0; REGION_BYTES];
    let mut allocator = SingleSegmentAllocator::new(&mut region);
    for round in 0..rounds {
        for small in &messages {
            let segments = small.segments();
            let shown = SegmentArray::new(&segments[..small.count()]);
            let message = Reader::new(shown, DEFAULT_READER_OPTIONS);
            add_sizes(alloc, &message, calls, round == 0, digest)?;
            if calls.set_root {
                let mut copy = Builder::new(alloc, allocator);
                add_copy(&message, &mut copy, round == 0, digest)?;
                allocator = copy.into_allocator();
            }
        }
    }
    Ok(())
}

fn add_sizes<S: ReaderSegments>(
    alloc: Global,
    message: &Reader<S>,
    calls: Calls,
    in_full: bool,
    digest: &mut Digest,
) -> Result<()> {
    if calls.target_size {
        let root: any_pointer::Reader<'_, S> = message.get_root()?;
        digest.add(root.target_size()?.word_count);
    }
    if calls.is_canonical {
        digest.add(u64::from(message.is_canonical()?));
    }
    if calls.canonical_segment {
        let form = message.canonical_segment(alloc)?;
        digest.add(form.len() as u64);
        if in_full {
            digest.add_bytes(&form);
        }
    }
    Ok(())
}

/// Sets the root of a new message to the root of another.
fn add_copy<S: ReaderSegments>(
    message: &Reader<S>,
    copy: &mut Builder<SingleSegmentAllocator<'_>>,
    in_full: bool,
    digest: &mut Digest,
) -> Result<()> {
    let root: any_pointer::Reader<'_, S> = message.get_root()?;
    copy.set_root(root)?;
    digest.add(copy.size_in_words() as u64);
    if in_full {
        for segment in copy.get_segment(0) {
            digest.add_bytes(segment);
        }
    }
    Ok(())
}
