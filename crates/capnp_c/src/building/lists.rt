//! Lists that are added.
ghost use Rattle.std.specs.Prelude.{◌≡◌, ◌+◌, ◌*◌, ◌<◌, ◌≤◌, false, length, MatchOption};
ghost use Rattle.capnp_layout.specs.Prelude.{code_of};
ghost use Rattle.capnp_wire.specs.Prelude.{HasWords};
ghost use Rattle.capnp_values.specs.NumberLists.{IsNumberList, ManyNumbers};
ghost use Rattle.capnp_orphans.specs.Holds.{HoldsValue, HoldsPointers, HoldsStructs, TakesPointersWords, ManyPointers, TakesStructsWords, ManyStructs};
ghost use Rattle.capnp_orphans.specs.Sized.{FillBytes, numbers_in_bytes, drafts_in};
ghost use Rattle.capnp_c.specs.Building.{Adds, AddsWhere};

use crate::building::add::add;
use crate::building::builder::LinsjoarBuilder;
use crate::reading::INVALID_ARGUMENT;
use capnp_layout::element_size::ElementSize;
use capnp_layout::pointer_word::StructSize;
use capnp_orphans::objects::{ByteNumbers, OrphanList, SizedStructList};

/// Adds a list of numbers of this code, from 0 to 5, given as the bytes that they have in a message.
///
/// Returns `InvalidArgument` (27) where the builder is not one of this region, for another code, and
/// where as many numbers don't have as many bytes. Else it fails as `linsjoar_add_text` does.
#[unsafe(no_mangle)]
pub extern "C" fn linsjoar_add_numbers(
    builder: &mut LinsjoarBuilder,
    region: &mut [u8],
    code: u8,
    count: usize,
    elements: &[u8],
    orphan: &mut u64,
) -> u32
    ensures { let numbers = IsNumberList code (numbers_in_bytes code count elements.now) in
        AddsWhere ((code < 6) × FillBytes code count elements.now)
        (HasWords numbers false) (ManyNumbers count)
        (λ before after word. HoldsValue numbers after word)
        builder.old builder.new region.old region.new orphan.new result }
{
    *orphan = 0;
    let Some(size) = size_of_code(code) else {
        return INVALID_ARGUMENT;
    };
    match ByteNumbers::new(elements, count, size) {
        Some(numbers) => add(builder, region, &numbers, orphan),
        None => INVALID_ARGUMENT,
    }
}

/// Adds a list of pointers to these orphans, and fails as `linsjoar_add_text` does.
#[unsafe(no_mangle)]
pub extern "C" fn linsjoar_add_pointers(
    builder: &mut LinsjoarBuilder,
    region: &mut [u8],
    orphans: &[u64],
    orphan: &mut u64,
) -> u32
    ensures { Adds (TakesPointersWords (length orphans.now)) (ManyPointers (length orphans.now))
        (λ before after word. HoldsPointers before orphans.now after word)
        builder.old builder.new region.old region.new orphan.new result }
{
    add(builder, region, &OrphanList::new(orphans), orphan)
}

/// Adds a list of structs of one size, given as the words of these: the data words of each, and then
/// its orphans.
///
/// Returns `InvalidArgument` (27) where the builder is not one of this region, and where as many
/// structs don't have as many words. Else it fails as `linsjoar_add_text` does.
#[unsafe(no_mangle)]
pub extern "C" fn linsjoar_add_structs(
    builder: &mut LinsjoarBuilder,
    region: &mut [u8],
    elements: &[u64],
    count: usize,
    data_words: u16,
    pointers: u16,
    orphan: &mut u64,
) -> u32
    ensures { AddsWhere (length elements.now ≡ count * (data_words + pointers))
        (TakesStructsWords data_words pointers count) (ManyStructs data_words pointers count)
        (λ before after word.
        HoldsStructs before (drafts_in data_words pointers count elements.now) after word)
        builder.old builder.new region.old region.new orphan.new result }
{
    *orphan = 0;
    let size = StructSize {
        data_words,
        pointers,
    };
    match SizedStructList::new(elements, count, size) {
        Some(list) => add(builder, region, &list, orphan),
        None => INVALID_ARGUMENT,
    }
}

// The size of the numbers of a code.
fn size_of_code(code: u8) -> Option<ElementSize>
    ensures { MatchOption result (6 ≤ code) (λ size. code_of size ≡ code) }
{
    match code {
        0 => Some(ElementSize::Void),
        1 => Some(ElementSize::Bit),
        2 => Some(ElementSize::Byte),
        3 => Some(ElementSize::TwoBytes),
        4 => Some(ElementSize::FourBytes),
        5 => Some(ElementSize::EightBytes),
        _ => None,
    }
}
