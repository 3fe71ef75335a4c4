//! A large message is walked by views.

use crate::digest::Digest;
use crate::random::Random;
use crate::raw::{push_framed, push_large};
use capnp::any_struct::StructReader;
use capnp::message::{Reader, ReaderOptions, ReaderSegments};
use capnp::serialize::{read_message_from_flat_slice, read_message_from_flat_slice_no_alloc};
use capnp::{Result, any_pointer, list_list, primitive_list, struct_list, text};
use std::alloc::Global;

/// How deep the tree may be.
const MOST_DEEP: u32 = 40;

/// How many structs a message has at most: some 800,000 words.
const MOST_STRUCTS: u32 = 50_000;

/// Walks messages of lists of this many structs in all, trees of as many nodes, and as many lists
/// in lists.
pub fn digest_of(alloc: Global, seed: u32, count: u32) -> Result<u64> {
    let mut random = Random::new(seed);
    let mut digest = Digest::new();
    let mut segment = Vec::new(alloc);
    let mut stream = Vec::new(alloc);
    let elements = count.min(MOST_STRUCTS);
    for index in 0..1 + count / MOST_STRUCTS {
        segment.clear();
        push_large(&mut segment, &mut random, elements as u64)?;
        stream.clear();
        push_framed(&mut stream, &segment)?;
        let mut rest = stream.as_slice();
        if index % 2 == 0 {
            let message = read_message_from_flat_slice(alloc, &mut rest, options())?;
            add_message(&message, &mut digest)?;
        } else {
            let message = read_message_from_flat_slice_no_alloc(&mut rest, options())?;
            add_message(&message, &mut digest)?;
        }
    }
    Ok(digest.value())
}

fn options() -> ReaderOptions {
    let mut options = ReaderOptions::new();
    options.traversal_limit_in_words(Some(1 << 30));
    options
}

fn add_message<S: ReaderSegments>(message: &Reader<S>, digest: &mut Digest) -> Result<()> {
    let pointer: any_pointer::Reader<'_, S> = message.get_root()?;
    digest.add(pointer.target_size()?.word_count);
    let root: StructReader<'_, S> = pointer.get_as()?;
    add_structs(root.get_pointer(0).get_as()?, digest)?;
    add_tree(&root.get_pointer(1).get_as()?, MOST_DEEP, digest)?;
    add_lists(root.get_pointer(2).get_as()?, digest)
}

fn add_structs<S: ReaderSegments>(
    elements: struct_list::Reader<'_, S>,
    digest: &mut Digest,
) -> Result<()> {
    for index in 0..elements.len() {
        let element = elements.get(index);
        let id: u32 = element.get_data_field(0);
        let amount: u64 = element.get_data_field(1);
        digest.add(id as u64 ^ amount);
        let name: text::Reader<'_> = element.get_pointer(0).get_as()?;
        digest.add_bytes(name.as_bytes());
        add_samples(element.get_pointer(1).get_as()?, digest);
    }
    Ok(())
}

fn add_samples(samples: primitive_list::Reader<'_, u32>, digest: &mut Digest) {
    for index in 0..samples.len() {
        digest.add(samples.get(index) as u64);
    }
}

fn add_tree<S: ReaderSegments>(
    node: &StructReader<'_, S>,
    deep: u32,
    digest: &mut Digest,
) -> Result<()> {
    digest.add(node.get_data_field(0));
    if deep == 0 {
        return Ok(());
    }
    for side in 0..2 {
        let pointer = node.get_pointer(side);
        if !pointer.is_null() {
            add_tree(&pointer.get_as()?, deep - 1, digest)?;
        }
    }
    Ok(())
}

fn add_lists<'a, S: ReaderSegments>(
    lists: list_list::Reader<'a, S, primitive_list::Reader<'a, u64>>,
    digest: &mut Digest,
) -> Result<()> {
    for index in 0..lists.len() {
        let list = lists.get(index)?;
        for number in 0..list.len() {
            digest.add(list.get(number));
        }
    }
    Ok(())
}
