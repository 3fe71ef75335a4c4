//! What the canonical form requires of an object alone: its place, its padding and its sizes.
ghost use Rattle.std.specs.Prelude.{◌≢◌, ◌↔◌, ◌+◌, ◌*◌, ◌-◌, ◌/◌, ◌^◌, ◌<◌, ◌≤◌, ℕ, length, slice_index_or, IsTrue};
ghost use Rattle.capnp_layout.specs.Prelude.{words_of, words_from, code_of, width, words_for, elements, elements_from, pointer_places, numbers, shape_of, room_of, words_in};
ghost use Rattle.capnp_wire.specs.Canonical.{EndsFull, Padded};
ghost use Rattle.capnp_wire.specs.Tested.{NextOf, PaddedOf, IsTruncated, NeedData, NeedPointers, links_at};

use capnp_layout::element_size::ElementSize;
use capnp_layout::limits::MAX_SEGMENT_WORDS;
use capnp_layout::object::{Body, Object};
use capnp_layout::place::word;
use capnp_layout::pointer::{Elements, Offset, list_count};

/// Whether the pointer at a word points to the next free word.
#[inline(always)]
pub(crate) fn is_next(pointer: u64, word: usize, next: usize, body: Body) -> bool
    requires { word < next }
    ensures { IsTrue result ↔ NextOf pointer word next body }
{
    let offset = Offset::read(pointer);
    let ahead = next - (word + 1);
    let points_there = offset.0 as usize == ahead && ahead < MAX_SEGMENT_WORDS as usize;
    match body {
        Body::Struct(size) => {
            if size.words() == 0 {
                offset.is_minus_one()
            } else {
                points_there
            }
        }
        Body::Numbers(_, _) => points_there,
        Body::Pointers(_) => points_there,
        Body::Structs(elements, _) => points_there && list_count(pointer) == elements.words(),
    }
}

// Whether a word of a segment is not zero.
#[inline(always)]
fn is_set(segment: &[u8], index: usize) -> bool
    ensures { IsTrue result ↔ (slice_index_or (words_of segment.now) index 0 ≢ 0) }
{
    match word(segment, index) {
        Some(word) => word != 0,
        None => false,
    }
}

// Whether the last of some words is not zero; true where there are none.
#[inline(always)]
fn ends_full(segment: &[u8], start: usize, count: usize) -> bool
    requires { start + count ≤ length segment.now / 8 }
    ensures { IsTrue result ↔ EndsFull (words_from (words_of segment.now) start count) }
{
    count == 0 || is_set(segment, start + count - 1)
}

// Whether one of some words, at equal distances from one another, is not zero.
fn some_is_set(segment: &[u8], first: usize, apart: usize, count: u32) -> bool
    requires within { (i : ℕ) → i < count → first + i * apart < length segment.now / 8 }
    requires apart { apart < 2 ^ 32 }
    ensures { IsTrue result ↔ ((i : ℕ) × (i < count)
        × (slice_index_or (words_of segment.now) (first + i * apart) 0 ≢ 0)) }
{
    let mut index = first;
    for number in 0..count {
        if is_set(segment, index) {
            return true;
        }
        index += apart;
    }
    false
}

// Whether the elements of a list of structs, from a word on, need all their data words.
fn need_data(segment: &[u8], first: usize, elements: Elements) -> bool
    requires { first + elements.count * (elements.size.data_words + elements.size.pointers)
        ≤ length segment.now / 8 }
    ensures { IsTrue result ↔ NeedData elements.size.data_words
        (elements_from (words_of segment.now) first
        elements.size.data_words elements.size.pointers elements.count) }
{
    let data_words = elements.size.data_words as usize;
    let apart = data_words + elements.size.pointers as usize;
    data_words == 0 || some_is_set(segment, first + data_words - 1, apart, elements.count)
}

// Whether these elements need all their pointers.
fn need_pointers(segment: &[u8], first: usize, elements: Elements) -> bool
    requires { first + elements.count * (elements.size.data_words + elements.size.pointers)
        ≤ length segment.now / 8 }
    ensures { let d = elements.size.data_words in
        let p = elements.size.pointers in
        (number : ℕ) → IsTrue result ↔ NeedPointers p elements.count
        (links_at (words_of segment.now) (pointer_places number first d p elements.count)) }
{
    let pointers = elements.size.pointers as usize;
    let apart = elements.size.data_words as usize + pointers;
    pointers == 0 || some_is_set(segment, first + apart - 1, apart, elements.count)
}

/// Whether an object has no trailing words that the canonical form leaves out.
#[inline(always)]
pub(crate) fn is_truncated(object: &Object<'_>) -> bool
    requires room { object.now.start.word + room_of object.now.body
        ≤ length object.now.segment.now / 8 }
    requires elements { words_in object.now.body ≤ room_of object.now.body }
    ensures { let words = words_of object.now.segment.now in
        let shape = shape_of words object.now.start object.now.body in
        IsTrue result ↔ IsTruncated shape.form (links_at words shape.children) }
{
    let start = object.start.word;
    match object.body {
        Body::Struct(size) => {
            let data_words = size.data_words as usize;
            ends_full(object.segment, start, data_words)
                && ends_full(object.segment, start + data_words, size.pointers as usize)
        }
        Body::Numbers(_, _) => true,
        Body::Pointers(_) => true,
        Body::Structs(elements, _) => {
            need_data(object.segment, start + 1, elements)
                && need_pointers(object.segment, start + 1, elements)
        }
    }
}

// Whether the bits after the elements of a list of numbers, in its last word, are zero.
#[inline(always)]
fn has_zero_padding(segment: &[u8], start: usize, size: ElementSize, count: u32) -> bool
    requires { start < 2 ^ 62 }
    ensures { let words = words_of segment.now in
        start + words_for count (width (code_of size)) ≤ length segment.now / 8 → IsTrue result
        ↔ Padded words start (numbers (code_of size) (elements words start (code_of size) count)) }
{
    let bits = count as u64 * size.bits();
    let following = bits % 64;
    if following == 0 {
        return true;
    }
    match word(segment, start + (bits / 64) as usize) {
        Some(last) => last >> following == 0,
        None => false,
    }
}

/// Whether an object that begins at a word is padded with zeros.
#[inline(always)]
pub(crate) fn body_has_zero_padding(segment: &[u8], start: usize, body: Body) -> bool
    requires { start < 2 ^ 62 }
    ensures { start + words_in body ≤ length segment.now / 8 →
        IsTrue result ↔ PaddedOf (words_of segment.now) start body }
{
    match body {
        Body::Struct(_) => true,
        Body::Numbers(size, count) => has_zero_padding(segment, start, size, count),
        Body::Pointers(_) => true,
        Body::Structs(_, _) => true,
    }
}
