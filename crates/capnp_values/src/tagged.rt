//! Lists of structs of any source, with the tag in front of them (encoding document, "Lists").
ghost use Rattle.std.specs.Prelude.{◌≡◌, ◌+◌, ◌-◌, ◌*◌, ◌^◌, ◌<◌, ◌≤◌, ◌∷◌, [], length, MatchResult};
ghost use Rattle.capnp_layout.specs.Prelude.{words_of, Trees, total_words, body, output, list_pointer, struct_pointer, put};
ghost use Rattle.capnp_wire.specs.Prelude.{IsCopied, HasRoomAt, IsFreeFrom};
ghost use Rattle.capnp_values.specs.Measured.{MeasuresValue};
ghost use Rattle.capnp_values.specs.StructLists.{AreElementsWritten, IsStructListTree, StructListError, TooManyStructs};
ghost use Rattle.capnp_values.specs.StructListPlaces.{AreDeclared, IsDeclared, ListPlace};

use crate::element::Element;
use crate::fields::Fields;
use crate::sections::KeptWords;
use crate::sources::StructSource;
use crate::struct_elements::{kept_by_each, measure_elements, write_elements};
use capnp_frame::{Error, ErrorKind, Result};
use capnp_layout::limits::{MAX_ELEMENTS, MAX_WORDS, allocation_too_large};
use capnp_layout::pointer_word::{STRUCT_LIST, list_word, put_word, struct_word};
use capnp_wire::traits::{Copied, TreeWords};

/// The number of words of a list of these structs.
pub(crate) fn measure_list<S: StructSource>(items: &S, canonical: bool) -> Result<TreeWords>
    ensures { MeasuresValue (IsStructListTree (S.words items.now) (S.has_trees items.now)
        S.Value.data_words S.Value.size (S.items items.now))
        (StructListError (S.has_trees items.now) (S.fails items.now)
        S.Value.data_words S.Value.size (S.items items.now)) canonical result }
{
    let count = items.len();
    let data_words = S::Value::data_words();
    let pointers = S::Value::count();
    elements_fit(count, data_words, pointers)?;
    let children = measure_elements(items, canonical)?;
    let kept = kept_by_each(items, canonical);
    Ok(with_tag(count, data_words, pointers, kept, children))
}

// Fails with `AllocationTooLarge` where a pointer and a tag can't declare this many structs of this
// size.
fn elements_fit(count: usize, data_words: usize, pointers: u32) -> Result<()>
    ensures { MatchResult result
        (λ _. (data_words < 2 ^ 16) × (pointers < 2 ^ 16) × (count < 2 ^ 29)
        × (count * (data_words + pointers) < 2 ^ 29))
        (λ error. TooManyStructs count data_words pointers error.kind) }
{
    if data_words >= 1 << 16 || pointers >= 1 << 16 {
        return Err(Error::from_kind(ErrorKind::AllocationTooLarge(1 << 16)));
    }
    if count > MAX_ELEMENTS as usize {
        return Err(allocation_too_large(count as u64));
    }
    let words = count * (data_words + pointers as usize);
    if words > MAX_WORDS as usize {
        return Err(allocation_too_large(words as u64));
    }
    Ok(())
}

// The number of words of the tag, the elements, and all that these point to.
fn with_tag(
    count: usize,
    data_words: usize,
    pointers: u32,
    kept: KeptWords,
    children: TreeWords,
) -> TreeWords
    requires declared { AreDeclared count data_words pointers }
    requires kept { IsDeclared count data_words pointers kept.data_words kept.pointers }
    requires few { children.untrimmed + children.output < 2 ^ 59 }
    ensures untrimmed { result.untrimmed ≡ 1 + count * (data_words + pointers) + children.untrimmed }
    ensures output { result.output
        ≡ 1 + count * (kept.data_words + kept.pointers) + children.output }
{
    let all = count * (data_words + pointers as usize);
    let written = count * (kept.data_words + kept.pointers as usize);
    let untrimmed = 1 + all as u64 + children.untrimmed;
    let output = 1 + written as u64 + children.output;
    TreeWords { untrimmed, output }
}

/// Writes a list of these structs into a block, as a value is written.
pub(crate) fn write_list<S: StructSource>(
    items: &S,
    canonical: bool,
    block: &mut [u8],
    following: usize,
    next: usize,
) -> Copied
    requires value { HasRoomAt (IsStructListTree (S.words items.now) (S.has_trees items.now)
        S.Value.data_words S.Value.size (S.items items.now)) canonical next
        (length (words_of block.old)) }
    requires free { IsFreeFrom next block.old }
    requires following { following ≤ next }
    ensures written { (trees : Trees) → IsStructListTree (S.words items.now) (S.has_trees items.now)
        S.Value.data_words S.Value.size (S.items items.now) trees →
        IsCopied (output canonical trees) (next - following) next
        (words_of block.old) (words_of block.new) result }
    ensures long { (trees : Trees) → IsStructListTree (S.words items.now) (S.has_trees items.now)
        S.Value.data_words S.Value.size (S.items items.now) trees →
        length (body (output canonical trees)) ≡ total_words (output canonical trees) }
    ensures len { length block.new ≡ length block.old }
{
    let kept = kept_by_each(items, canonical);
    write_tagged(items, canonical, kept, block, following, next)
}

// Writes the tag, the elements, and what these point to.
fn write_tagged<S: StructSource>(
    items: &S,
    canonical: bool,
    kept: KeptWords,
    block: &mut [u8],
    following: usize,
    next: usize,
) -> Copied
    requires place { ListPlace (S.words items.now) (S.has_trees items.now) canonical
        S.Value.data_words S.Value.size kept.data_words kept.pointers (S.items items.now)
        next (length (words_of block.old)) }
    requires free { IsFreeFrom next block.old }
    requires following { following ≤ next }
    ensures elements { AreElementsWritten (S.words items.now) (S.has_trees items.now) canonical
        kept.data_words kept.pointers S.Value.size (S.items items.now) (next + 1)
        (next + 1 + length (S.items items.now) * (kept.data_words + kept.pointers))
        (put next (struct_pointer (length (S.items items.now)) kept.data_words kept.pointers ∷ [])
        (words_of block.old)) (words_of block.new) result.next }
    ensures pointer { result.pointer ≡ list_pointer (next - following) 7
        (length (S.items items.now) * (kept.data_words + kept.pointers)) }
    ensures len { length block.new ≡ length block.old }
{
    let count = items.len();
    let words = count * (kept.data_words + kept.pointers as usize);
    let tag = struct_word(count as u64, kept.data_words as u16, kept.pointers as u16);
    put_word(block, next, tag);
    Copied {
        pointer: list_word((next - following) as u64, STRUCT_LIST, words as u64),
        next: write_elements(items, canonical, kept, block, next + 1),
    }
}
