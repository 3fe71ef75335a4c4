//! Messages of 511 segments, with each object in another one: an awkward, legal shape.

use crate::digest::Digest;
use crate::random::Random;
use crate::raw::{far_pointer, list_pointer, push_text, push_word, struct_pointer, text_words};
use capnp::any_struct::StructReader;
use capnp::message::{DEFAULT_READER_OPTIONS, Reader, ReaderSegments};
use capnp::serialize::{BufferSegments, NoAllocBufferSegments};
use capnp::{Result, Way, any_pointer, any_pointer_list, text, transcode};
use std::alloc::Global;

/// How many objects the root's list points to, each in a segment of its own.
const OBJECTS: u64 = 508;

/// Reads and copies this many messages, with memory and without, and packs them.
pub fn digest_of(alloc: Global, seed: u32, count: u32) -> Result<u64> {
    let mut random = Random::new(seed);
    let mut digest = Digest::new();
    let options = DEFAULT_READER_OPTIONS;
    let mut segments = Vec::new(alloc);
    let mut stream = Vec::new(alloc);
    let mut packed = Vec::new(alloc);
    for _ in 0..count {
        segments.clear();
        stream.clear();
        packed.clear();
        push_message(&mut stream, &mut segments, &mut random)?;
        let known = BufferSegments::new(alloc, stream.as_slice(), options)?;
        add_message(alloc, &Reader::new(known, options), &mut digest)?;
        let found = NoAllocBufferSegments::from_buffer(stream.as_slice(), options)?;
        add_message(alloc, &Reader::new(found, options), &mut digest)?;
        let mut source = stream.as_slice();
        transcode(alloc, Way::Pack, &mut source, &mut packed, options)?;
        digest.add_bytes(&packed);
    }
    Ok(digest.value())
}

/// Adds the table and the segments: the root pointer, the list of far pointers, a segment of no
/// words, and a struct and its text in each other one. Every third object is found by a wide
/// landing pad.
fn push_message(stream: &mut Vec<u8>, segments: &mut Vec<u8>, random: &mut Random) -> Result<()> {
    push_word(segments, far_pointer(1, 0, false))?;
    push_word(segments, list_pointer(0, 6, OBJECTS))?;
    for object in 0..OBJECTS {
        let pointer = if object % 3 == 1 {
            far_pointer(4 + object, 0, true)
        } else {
            far_pointer(3 + object, 2, false)
        };
        push_word(segments, pointer)?;
    }
    push_word(stream, 510 | 1 << 32)?;
    push_word(stream, OBJECTS + 1)?;
    for pair in 0..OBJECTS / 2 {
        let first = push_object(segments, random, 2 * pair)?;
        let second = push_object(segments, random, 2 * pair + 1)?;
        push_word(stream, first | second << 32)?;
    }
    stream.extend_from_slice(segments)?;
    Ok(())
}

/// Adds a segment: a landing pad of two words for the object of the segment before, a landing pad
/// of one word, a struct and its text. Returns how many words it has.
fn push_object(segments: &mut Vec<u8>, random: &mut Random, object: u64) -> Result<u64> {
    let length = 1 + random.below(20);
    let before = object.wrapping_add(OBJECTS - 1) % OBJECTS;
    push_word(segments, far_pointer(3 + before, 3, false))?;
    push_word(segments, struct_pointer(0, 1, 1))?;
    push_word(segments, struct_pointer(0, 1, 1))?;
    push_word(segments, random.below(1_000_000))?;
    push_word(segments, list_pointer(0, 2, length + 1))?;
    push_text(segments, random, length)?;
    Ok(5 + text_words(length))
}

fn add_message<S: ReaderSegments>(
    alloc: Global,
    message: &Reader<S>,
    digest: &mut Digest,
) -> Result<()> {
    let root: any_pointer::Reader<'_, S> = message.get_root()?;
    digest.add(root.target_size()?.word_count);
    let objects: any_pointer_list::Reader<'_, S> = root.get_as()?;
    for index in 0..objects.len() {
        let object: StructReader<'_, S> = objects.get(index).get_as()?;
        digest.add(object.get_data_field(0));
        let name: text::Reader<'_> = object.get_pointer(0).get_as()?;
        digest.add_bytes(name.as_bytes());
    }
    digest.add_bytes(&message.canonical_segment(alloc)?);
    Ok(())
}
