//! The elements of an object, as what is wanted of them. The bytes are the message's, and serve the
//! prover: they are read where an element is.
ghost use Rattle.std.specs.Prelude.{◌≡◌, ◌↔◌, ◌+◌, ◌*◌, ◌/◌, ◌^◌, ◌<◌, ◌≤◌, length, IsTrue, MatchOption};
ghost use Rattle.capnp_layout.specs.Prelude.{code_of};
ghost use Rattle.capnp_layout.specs.declared.object.Body.{Body};
ghost use Rattle.capnp_wire.specs.Prelude.{Pointer, ReadsAsNumbers, TakesFields, TakesFirstPointers, TakesAsStructs, IsUpgradedPointers, IsUpgradedStructs, form_of};
ghost use Rattle.capnp_wire.specs.UpgradedViews.{IsFirstField};
ghost use Rattle.capnp_c.specs.Entering.{Enters};
ghost use Rattle.capnp_c.specs.ReadingLists.{ShowsList, TakesList, NumbersWithin, StructsWithin, numbers_in, pointers_by, structs_by};

use crate::reading::element_kind::ElementKind;
use crate::reading::entered::Entered;
use crate::reading::list::LinsjoarList;
use crate::reading::place::LinsjoarPlace;
use capnp_layout::element_size::ElementSize;
use capnp_layout::object::{Body, words_fit};
use capnp_layout::place::Place;
use capnp_layout::pointer::Elements;

/// The elements as this kind; `None` where they are not read like that.
#[inline(always)]
pub(crate) fn elements_of(
    entered: &Entered,
    bytes: &[u8],
    wanted: ElementKind,
) -> Option<LinsjoarList>
    requires { (place : Pointer) × Enters place bytes.now entered.now }
    ensures { (place : Pointer) → Enters place bytes.now entered.now → MatchOption result
        (TakesList wanted (form_of entered.now.object) → ⊥)
        (λ list. ShowsList wanted place bytes.now list) }
{
    match wanted {
        ElementKind::Numbers(size) => as_numbers(entered, bytes, size),
        ElementKind::Pointers => as_pointers(entered, bytes),
        ElementKind::Structs => as_structs(entered, bytes),
    }
}

// Numbers of this size, or the first fields of structs that have one of this size.
fn as_numbers(entered: &Entered, bytes: &[u8], size: ElementSize) -> Option<LinsjoarList>
    requires { (place : Pointer) × Enters place bytes.now entered.now }
    ensures { let form = form_of entered.now.object in MatchOption result
        (TakesFields (code_of size) form → ⊥)
        (λ list. ReadsAsNumbers (code_of size) form (numbers_in (code_of size) bytes.now list)
        × NumbersWithin (code_of size) list bytes.now) }
{
    let _bytes = bytes;
    let body = entered.object.body;
    match body.as_structs() {
        Some(elements) => {
            if !is_first_field(size, elements.size.data_words) {
                return None;
            }
            let first = LinsjoarPlace::nowhere(entered.nesting);
            let step = bits_of(elements);
            Some(list_of(entered.start + 8, first, elements.count, step, 0, 0))
        }
        None => match body.count_of(size) {
            Some(count) => {
                let first = LinsjoarPlace::nowhere(entered.nesting);
                Some(list_of(entered.start, first, count, size.bits() as u32, 0, 0))
            }
            None => None,
        },
    }
}

// Pointers, or the first pointers of structs that have one.
fn as_pointers(entered: &Entered, bytes: &[u8]) -> Option<LinsjoarList>
    requires { (place : Pointer) × Enters place bytes.now entered.now }
    ensures { (place : Pointer) → Enters place bytes.now entered.now → MatchOption result
        (TakesFirstPointers (form_of entered.now.object) → ⊥)
        (λ list. IsUpgradedPointers place (pointers_by place.message place.limit list)) }
{
    let _bytes = bytes;
    let body = entered.object.body;
    match body.as_structs() {
        Some(elements) => {
            if elements.size.pointers == 0 {
                return None;
            }
            let first = pointer_after(entered, 1 + elements.size.data_words as usize);
            let step = bits_of(elements);
            Some(list_of(0, first, elements.count, step, 0, 0))
        }
        None => match body.as_pointers() {
            Some(count) => Some(list_of(0, pointer_after(entered, 0), count, 64, 0, 0)),
            None => None,
        },
    }
}

// Structs, numbers that are not bits, and pointers.
#[inline(always)]
fn as_structs(entered: &Entered, bytes: &[u8]) -> Option<LinsjoarList>
    requires { (place : Pointer) × Enters place bytes.now entered.now }
    ensures { (place : Pointer) → Enters place bytes.now entered.now → MatchOption result
        (TakesAsStructs (form_of entered.now.object) → ⊥)
        (λ list. IsUpgradedStructs place (structs_by place.message place.limit bytes.now list)
        × StructsWithin list bytes.now) }
{
    match entered.object.body {
        Body::Struct(_) => None,
        Body::Structs(elements, _) => {
            let first = pointer_after(entered, 1 + elements.size.data_words as usize);
            let step = bits_of(elements);
            let data_len = 8 * elements.size.data_words as u32;
            let pointers = elements.size.pointers;
            Some(list_of(
                entered.start + 8,
                first,
                elements.count,
                step,
                data_len,
                pointers,
            ))
        }
        Body::Pointers(count) => {
            let first = pointer_after(entered, 0);
            Some(list_of(entered.start, first, count, 64, 0, 1))
        }
        Body::Numbers(size, count) => numbers_as_structs(entered, bytes, size, count),
    }
}

// Numbers that are not bits, each as a struct that has it as its data.
fn numbers_as_structs(
    entered: &Entered,
    bytes: &[u8],
    size: ElementSize,
    count: u32,
) -> Option<LinsjoarList>
    requires entered { (place : Pointer) × Enters place bytes.now entered.now }
    requires numbers { entered.now.object.body ≡ Body.Numbers size count }
    ensures { (place : Pointer) → Enters place bytes.now entered.now → MatchOption result
        (TakesAsStructs (form_of entered.now.object) → ⊥)
        (λ list. IsUpgradedStructs place (structs_by place.message place.limit bytes.now list)
        × StructsWithin list bytes.now) }
{
    let _bytes = bytes;
    let bits = size.bits() as u32;
    if bits == 1 {
        return None;
    }
    let first = LinsjoarPlace::nowhere(entered.nesting);
    Some(list_of(entered.start, first, count, bits, bits / 8, 0))
}

// A list by its fields, without a code.
fn list_of(
    start: usize,
    first: LinsjoarPlace,
    count: u32,
    step: u32,
    data_len: u32,
    pointers: u16,
) -> LinsjoarList
    ensures { result ≡ record {
      start = start;
      first = first;
      count = count;
      step = step;
      data_len = data_len;
      pointers = pointers;
      code = 0;
    } }
{
    LinsjoarList {
        start,
        first,
        count,
        step,
        data_len,
        pointers,
        code: 0,
    }
}

// How many bits each of these structs has.
fn bits_of(elements: Elements) -> u32
    ensures { result ≡ 64 * (elements.size.data_words + elements.size.pointers) }
{
    64 * elements.size.words() as u32
}

// The place of a pointer this many words after the begin of an object.
fn pointer_after(entered: &Entered, words: usize) -> LinsjoarPlace
    requires room { entered.now.object.start.word ≤ length entered.now.object.segment.now / 8 }
    requires few { words < 2 ^ 32 }
    ensures { let start = entered.now.object.start in result ≡ record {
      word = start.word + words;
      segment = start.segment;
      nesting = entered.now.nesting;
      is_there = 1;
    } }
{
    // For the prover: each word is below 2^64, and so is the number of bytes.
    words_fit(entered.object.segment);
    let place = Place {
        segment: entered.object.start.segment,
        word: entered.object.start.word + words,
    };
    LinsjoarPlace::of(place, entered.nesting)
}

// Whether an element of this size can be the first field of structs of this many data words.
fn is_first_field(size: ElementSize, data_words: u16) -> bool
    ensures { IsTrue result ↔ IsFirstField (code_of size) data_words }
{
    size != ElementSize::Bit && size.bits() <= 64 * data_words as u64
}
