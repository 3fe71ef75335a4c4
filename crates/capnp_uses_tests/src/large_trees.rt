//! Messages of more than 100,000 words, in which no two objects or numbers are equal: read, packed,
//! copied and made canonical.
use crate::fixtures::{
    Message, Source, expect, message_of, set_root, set_root_canonical, transcoded,
};
use crate::large_messages::{read_framed, read_packed};
use capnp::message::{Builder, DEFAULT_READER_OPTIONS, HeapAllocator};
use capnp::{Result, Way};
use capnp_frame_tests::long_lists::{Texts, list_of_numbers, list_of_structs, list_of_texts};
use capnp_frame_tests::messages::has_segments;
use std::alloc::Global;
use std::process::Abort;

// Numbers that have 100,005 words with the root's, texts that have 100,011, and structs that have
// 100,007 with their texts and their tag.
const NUMBERS_COUNT: u32 = 100_004;

const TEXTS_COUNT: u32 = 50_005;

const STRUCTS_COUNT: u32 = 33_335;

// What is read and written contracts say.
#[test]
fn many_words_by_each_format(rt: HostRuntime) -> Result<()> {
    let segment = list_of_numbers(rt.alloc(), 8, NUMBERS_COUNT)?;
    let mut framed = ((segment.len() as u64 / 8) << 32)
        .to_le_bytes()
        .to_vec(rt.alloc())?;
    framed.extend_from_slice(&segment)?;
    read_framed(rt.alloc(), &framed)?;
    read_packed_and_unpack(rt.alloc(), &framed)?;
    compare(&rt, &segment, &segment)
}

fn read_packed_and_unpack(alloc: Global, framed: &[u8]) -> Result<()> {
    let (packed, _) = transcoded(alloc, Way::Pack, framed)?;
    read_packed(alloc, &packed)?;
    transcoded(alloc, Way::Unpack, &packed)?;
    Ok(())
}

#[test]
fn many_objects(rt: HostRuntime) -> Result<()> {
    let form = list_of_texts(rt.alloc(), Texts::After, TEXTS_COUNT)?;
    let texts = list_of_texts(rt.alloc(), Texts::Before, TEXTS_COUNT)?;
    compare(&rt, &texts, &form)?;
    let form = list_of_structs(rt.alloc(), Texts::After, STRUCTS_COUNT)?;
    let structs = list_of_structs(rt.alloc(), Texts::Before, STRUCTS_COUNT)?;
    compare(&rt, &structs, &form)
}

// A segment, and its canonical form, which is as long and as what a copy has.
fn compare(rt: &(impl Abort + AllocGlobal), segment: &[u8], form: &[u8]) -> Result<()> {
    let segments = [segment];
    let reader = message_of(&segments, DEFAULT_READER_OPTIONS);
    let root: Source<'_> = reader.get_root()?;
    expect(
        rt,
        "words",
        root.target_size()?.word_count,
        (segment.len() as u64 / 8).saturating_sub(1),
    );
    expect(rt, "canonical", reader.is_canonical()?, segment == form);
    reader.canonical_segment(rt.alloc())?;
    expect(rt, "a copy", has_copy(rt.alloc(), &reader, form)?, true);
    expect(rt, "the form", has_form(rt.alloc(), &reader, form)?, true);
    Ok(())
}

// Whether a root that is set to the message's, untrimmed or in canonical form, has this segment.
fn has_copy(alloc: Global, reader: &Message<'_>, segment: &[u8]) -> Result<bool> {
    let mut message = roomy(alloc);
    set_root(&mut message, reader.get_root()?)?;
    Ok(has_segments(&message, &[segment]))
}

fn has_form(alloc: Global, reader: &Message<'_>, segment: &[u8]) -> Result<bool> {
    let mut message = roomy(alloc);
    set_root_canonical(&mut message, reader.get_root()?)?;
    Ok(has_segments(&message, &[segment]))
}

// A message whose first segment has room for each of these.
fn roomy(alloc: Global) -> Builder<HeapAllocator> {
    let heap = HeapAllocator::new(alloc).first_segment_words(1 << 17);
    Builder::new(alloc, heap)
}
