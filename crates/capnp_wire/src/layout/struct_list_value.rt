//! Lists of structs that are read, as values: they are measured, and written into a block.
ghost use Rattle.std.specs.Prelude.{◌≡◌, if◌then◌else◌, ◌+◌, ◌-◌, ◌*◌, ◌/◌, ◌^◌, ◌<◌, ◌≤◌, ℕ, Option, length, MatchResult};
ghost use Rattle.capnp_layout.specs.Prelude.{words_of, Trees, message_of, output, least_size};
ghost use Rattle.capnp_wire.specs.Copy.{IsCopied};
ghost use Rattle.capnp_wire.specs.Values.{HasWords, WordsError, HasRoomAt, HasPointersSegment};
ghost use Rattle.capnp_wire.specs.ListValues.{IsListTree, WalkErrorInList, pointers_of_structs, structs_along};

use crate::layout::copy::{Copied, CopySource, Destination};
use crate::layout::copy_cursor::CopyCursor;
use crate::layout::copy_pointers::copy_by_cursor;
use crate::layout::data_words::put_data_sections;
use crate::layout::value::checked_walk;
use crate::layout::walk::Walk;
use capnp_frame::Result;
use capnp_frame::message::ReaderSegments;
use capnp_layout::block::put_word;
use capnp_layout::object::words_fit;
use capnp_layout::output_size::output_size;
use capnp_layout::place::Place;
use capnp_layout::pointer::Elements;
use capnp_layout::pointer_slots::PointerSlots;
use capnp_layout::pointer_word::{STRUCT_LIST, list_word, struct_word};

/// Some consecutive structs of a segment, all of one size.
#[derive(Drop)]
pub(crate) struct StructRun<'a> {
    pub segment: &'a [u8],
    pub first: Place,
    pub elements: Elements,
}

/// The number of words of a list of structs with all below it, without the pointer to it, untrimmed
/// or in canonical form.
pub(crate) fn measure<S: ReaderSegments>(
    segments: &S,
    list: StructRun<'_>,
    nesting: u32,
    limit: Option<usize>,
    canonical: bool,
) -> Result<u32>
    requires room { list.first.word
        + list.elements.count * (list.elements.size.data_words + list.elements.size.pointers)
        ≤ length list.segment.now / 8 }
    requires content { HasPointersSegment (message_of (S.segments segments.now))
        (words_of list.segment.now) list.first list.elements.size }
    requires few { list.elements.count < 2 ^ 30 }
    requires few_words { list.elements.count
        * (list.elements.size.data_words + list.elements.size.pointers) < 2 ^ 29 }
    ensures { let form = structs_along (words_of list.entry.segment.now) list.entry.first list.entry.elements in
        let pointers = pointers_of_structs (message_of (S.segments segments.now))
        list.entry.first list.entry.elements nesting limit in
        MatchResult result (λ words. HasWords (IsListTree form pointers) canonical words)
        (λ error. WordsError (IsListTree form pointers) (WalkErrorInList pointers) canonical error.kind) }
{
    // For the prover: each word is below 2^64, and so is the number of bytes.
    words_fit(list.segment);
    let kept = output_elements(list.segment, list.first, list.elements, canonical);
    let mut walk = Walk::new(limit);
    walk.count(1 + kept.words());
    let size = list.elements.size.section_sizes();
    let pointers = PointerSlots::new(list.first, size, size.pointers, list.elements.count);
    walk.walk_pointers(segments, list.segment, pointers, nesting, canonical)?;
    checked_walk(walk.words(), canonical)
}

/// Writes the words of a list of structs with all below it into a block.
pub(crate) fn write<S: ReaderSegments>(
    source: &CopySource<'_, S>,
    list: StructRun<'_>,
    nesting: u32,
    block: &mut [u8],
    to: Destination,
) -> Copied
    requires room { list.first.word
        + list.elements.count * (list.elements.size.data_words + list.elements.size.pointers)
        ≤ length list.segment.now / 8 }
    requires content { HasPointersSegment (message_of (S.segments source.now.segments.now))
        (words_of list.segment.now) list.first list.elements.size }
    requires value { (limit : Option ℕ) × HasRoomAt
        (IsListTree (structs_along (words_of list.segment.now) list.first list.elements)
        (pointers_of_structs (message_of (S.segments source.now.segments.now))
        list.first list.elements nesting limit))
        source.now.canonical to.next (length (words_of block.old)) }
    requires small { length (words_of block.old) < 2 ^ 29 }
    requires following { to.following ≤ to.next }
    ensures written { (limit : Option ℕ) (trees : Trees) →
        IsListTree (structs_along (words_of list.entry.segment.now) list.entry.first list.entry.elements)
        (pointers_of_structs (message_of (S.segments source.now.segments.now))
        list.entry.first list.entry.elements nesting limit)
        trees → IsCopied (output source.now.canonical trees)
        (to.next - to.following) to.next
        (words_of block.old) (words_of block.new) result }
    ensures len { length block.new ≡ length block.old }
{
    // For the prover: each word is below 2^64, and so is the number of bytes.
    words_fit(list.segment);
    let kept = output_elements(list.segment, list.first, list.elements, source.canonical);
    let tag = struct_word(kept.count as u64, kept.size.data_words, kept.size.pointers);
    put_word(block, to.next, tag);
    let slots = to.next + 1;
    let step = list.elements.size.words() as usize;
    put_data_sections(block, slots, kept, list.segment, list.first.word, step);
    let end = slots + kept.words() as usize;
    let cursor = CopyCursor::elements(list.first, list.elements.size, kept, slots);
    Copied {
        pointer: list_word((to.next - to.following) as u64, STRUCT_LIST, kept.words()),
        next: copy_by_cursor(source, list.segment, cursor, nesting, block, end),
    }
}

// The size of the elements in the copy: in canonical form without trailing words that are zero in
// all elements.
fn output_elements(segment: &[u8], first: Place, elements: Elements, canonical: bool) -> Elements
    requires { first.word + elements.count * (elements.size.data_words + elements.size.pointers)
        ≤ length segment.now / 8 }
    ensures size { result.size ≡ (if canonical then
        least_size (words_of segment.now) first.word elements.size elements.count
        else elements.size) }
    ensures count { result.count ≡ elements.count }
    ensures data { result.size.data_words ≤ elements.size.data_words }
    ensures pointers { result.size.pointers ≤ elements.size.pointers }
{
    Elements {
        size: output_size(
            segment,
            first.word,
            elements.size,
            elements.count,
            canonical,
        ),
        count: elements.count,
    }
}
