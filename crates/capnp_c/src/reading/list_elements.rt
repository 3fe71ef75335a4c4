//! Elements of lists.
ghost use Rattle.std.specs.Prelude.{◌≡◌, ◌+◌, ◌*◌, ◌/◌, ◌^◌, ◌≤◌, ◌<◌, length, MatchOption};
ghost use Rattle.capnp_layout.specs.Prelude.{code_of};
ghost use Rattle.capnp_c.specs.ReadingLists.{ReadsNumber, FindsStruct, FindsElement, number_at, word_from};

use crate::reading::INVALID_ARGUMENT;
use crate::reading::element_kind::ElementKind;
use crate::reading::list::LinsjoarList;
use crate::reading::place::LinsjoarPlace;
use crate::reading::structs::LinsjoarStruct;
use capnp_layout::element_size::ElementSize;
use capnp_layout::place::word;

/// Reads an element of a list that is read as numbers; 0 past the last one. Returns
/// `InvalidArgument` (27) where the list is read as pointers or as structs, or the element's word
/// does not lie within the bytes.
#[unsafe(no_mangle)]
pub extern "C" fn linsjoar_list_number(
    bytes: &[u8],
    list: &LinsjoarList,
    index: u32,
    number: &mut u64,
) -> u32
    ensures { ReadsNumber bytes.now list.now index number.new result }
{
    *number = 0;
    let Some(ElementKind::Numbers(size)) = ElementKind::of_code(list.code) else {
        return INVALID_ARGUMENT;
    };
    if index >= list.count {
        return 0;
    }
    // Elements of no bits are 0, and have no word.
    if list.code == 0 {
        return 0;
    }
    match number_in(bytes, list.start, index as u64 * list.step as u64, size) {
        Some(found) => {
            *number = found;
            0
        }
        None => INVALID_ARGUMENT,
    }
}

// The number of this size that is this many bits after a byte; `None` where its word does not lie
// within the bytes.
fn number_in(bytes: &[u8], start: usize, bits: u64, size: ElementSize) -> Option<u64>
    ensures { MatchOption result (length bytes.now < start + 8 * (bits / 64) + 8)
        (λ number. (start + 8 * (bits / 64) + 8 ≤ length bytes.now)
        × (number ≡ number_at bytes.now start bits (code_of size))) }
{
    let len = bytes.len();
    let before = 8 * (bits / 64) as usize;
    if start > len || len - start < before || len - start - before < 8 {
        return None;
    }
    let word = word_of(bytes, start + before);
    Some(size.in_word(word >> (bits % 64), 0))
}

// The word of the eight bytes from here on.
fn word_of(bytes: &[u8], at: usize) -> u64
    requires { at + 8 ≤ length bytes.now }
    ensures { result ≡ word_from bytes.now at }
{
    word(&bytes[at..at + 8], 0).unwrap_or(0)
}

/// Finds an element of a list that is read as structs; past the last one it is a struct of no data
/// and no pointers. Returns `InvalidArgument` (27) where the list is read as numbers or as pointers,
/// or the element would be past 64 bits: no call wrote the list.
#[unsafe(no_mangle)]
pub extern "C" fn linsjoar_list_struct(
    list: &LinsjoarList,
    index: u32,
    fields: &mut LinsjoarStruct,
) -> u32
    ensures { FindsStruct list.now index fields.new result }
{
    *fields = LinsjoarStruct::empty(LinsjoarPlace::nowhere(0));
    let Some(ElementKind::Structs) = ElementKind::of_code(list.code) else {
        return INVALID_ARGUMENT;
    };
    if index >= list.count {
        *fields = LinsjoarStruct::empty(LinsjoarPlace::nowhere(list.first.nesting));
        return 0;
    }
    let Some(start) = start_of(list, index) else {
        return INVALID_ARGUMENT;
    };
    let Some(first) = list.first.after(index as usize * (list.step / 64) as usize) else {
        return INVALID_ARGUMENT;
    };
    *fields = LinsjoarStruct {
        start,
        data_len: list.data_len as usize,
        first,
        pointers: list.pointers,
    };
    0
}

// How many bytes of the message are before the data of an element; `None` past the largest number.
fn start_of(list: &LinsjoarList, index: u32) -> Option<usize>
    ensures { MatchOption result (2 ^ 64 ≤ list.now.start + index * (list.now.step / 8))
        (λ start. start ≡ list.now.start + index * (list.now.step / 8)) }
{
    list.start
        .checked_add(index as usize * (list.step / 8) as usize)
}

/// Finds an element of a list that is read as pointers; past the last one there is none, which is as
/// null. Returns `InvalidArgument` (27) where the list is read as numbers or as structs, or the
/// element would be past 64 bits: no call wrote the list.
#[unsafe(no_mangle)]
pub extern "C" fn linsjoar_list_pointer(
    list: &LinsjoarList,
    index: u32,
    pointer: &mut LinsjoarPlace,
) -> u32
    ensures { FindsElement list.now index pointer.new result }
{
    *pointer = LinsjoarPlace::nowhere(0);
    let Some(ElementKind::Pointers) = ElementKind::of_code(list.code) else {
        return INVALID_ARGUMENT;
    };
    if index >= list.count {
        *pointer = LinsjoarPlace::nowhere(list.first.nesting);
        return 0;
    }
    match list.first.after(index as usize * (list.step / 64) as usize) {
        Some(found) => {
            *pointer = found;
            0
        }
        None => INVALID_ARGUMENT,
    }
}
