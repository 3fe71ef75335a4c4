//! The elements of lists of structs: how many words they point to, and how they are written.
ghost use Rattle.std.specs.Prelude.{◌≡◌, ◌+◌, ◌*◌, ◌<◌, ◌^◌, false, map, length};
ghost use Rattle.capnp_layout.specs.Prelude.{words_of, Trees};
ghost use Rattle.capnp_wire.specs.Prelude.{IsFreeFrom};
ghost use Rattle.capnp_values.specs.StructLists.{AreElements, MeasuresElements, HasRoomForElements, AreElementsWritten, element_data, element_pointers};

use crate::element::Element;
use crate::fields::Fields;
use crate::measured::both;
use crate::sections::{KeptWords, used, write_sections};
use crate::sources::StructSource;
use capnp_frame::Result;
use capnp_wire::traits::TreeWords;

/// The number of words of all that these structs point to, untrimmed and in the form that is
/// written.
///
/// Fails as the first struct does that fails untrimmed.
pub(crate) fn measure_elements<S: StructSource>(items: &S, canonical: bool) -> Result<TreeWords>
    requires pointers { S.Value.size < 2 ^ 16 }
    requires few { length (S.items items.now) * (S.Value.data_words + S.Value.size) < 2 ^ 29 }
    ensures { MeasuresElements (S.words items.now) (S.has_trees items.now) (S.fails items.now)
        canonical S.Value.data_words (S.items items.now) result }
{
    if !canonical {
        return untrimmed_elements(items);
    }
    let mut words = TreeWords {
        untrimmed: 0,
        output: 0,
    };
    let count = items.len();
    for index in 0..count {
        let item = items.get(index);
        let own = item.measure(canonical)?;
        // For the prover: this item has as many data words as its type says.
        let _data_words = item.words();
        words = both(words, own);
    }
    Ok(words)
}

// The number of words of all that these structs point to, where no canonical form is written.
// Speed: one sum serves for both numbers, and stays in a register (`tools/time building`).
fn untrimmed_elements<S: StructSource>(items: &S) -> Result<TreeWords>
    requires pointers { S.Value.size < 2 ^ 16 }
    requires few { length (S.items items.now) * (S.Value.data_words + S.Value.size) < 2 ^ 29 }
    ensures { MeasuresElements (S.words items.now) (S.has_trees items.now) (S.fails items.now)
        false S.Value.data_words (S.items items.now) result }
{
    let mut words = 0;
    let count = items.len();
    for index in 0..count {
        let item = items.get(index);
        let own = item.untrimmed()?;
        // For the prover: this item has as many data words as its type says.
        let _data_words = item.words();
        words += own;
    }
    Ok(TreeWords {
        untrimmed: words,
        output: words,
    })
}

/// What each of these structs keeps.
pub(crate) fn kept_by_each<S: StructSource>(items: &S, canonical: bool) -> KeptWords
    requires { S.Value.size < 2 ^ 16 }
    ensures words { (children : Trees) → AreElements (S.has_trees items.now) (S.items items.now) children →
        result.data_words ≡ element_data canonical S.Value.data_words
        (map (S.words items.now) (S.items items.now)) }
    ensures pointers { (children : Trees) → AreElements (S.has_trees items.now) (S.items items.now) children →
        result.pointers ≡ element_pointers canonical S.Value.size
        (map (S.words items.now) (S.items items.now)) children }
{
    if !canonical {
        return KeptWords {
            data_words: S::Value::data_words(),
            pointers: S::Value::count(),
        };
    }
    let mut kept = KeptWords {
        data_words: 0,
        pointers: 0,
    };
    let count = items.len();
    for index in 0..count {
        let item = items.get(index);
        kept = KeptWords {
            data_words: kept.data_words.max(used(item.words())),
            pointers: kept.pointers.max(item.kept(true)),
        };
    }
    kept
}

/// Writes these structs into a block from the word `first` on: the data words and the pointers that
/// each keeps, one struct after the other. What they point to is written after the last struct,
/// where the block is zero. Returns the first word after that.
pub(crate) fn write_elements<S: StructSource>(
    items: &S,
    canonical: bool,
    kept: KeptWords,
    block: &mut [u8],
    first: usize,
) -> usize
    requires room { HasRoomForElements (S.words items.now) (S.has_trees items.now) canonical
        kept.data_words kept.pointers S.Value.data_words S.Value.size (S.items items.now)
        (first + length (S.items items.now) * (kept.data_words + kept.pointers))
        (length (words_of block.old)) }
    requires free { IsFreeFrom (first + length (S.items items.now) * (kept.data_words + kept.pointers)) block.old }
    ensures written { AreElementsWritten (S.words items.now) (S.has_trees items.now) canonical
        kept.data_words kept.pointers S.Value.size (S.items items.now)
        first (first + length (S.items items.now) * (kept.data_words + kept.pointers))
        (words_of block.old) (words_of block.new) result }
    ensures len { length block.new ≡ length block.old }
{
    let count = items.len();
    let width = kept.data_words + kept.pointers as usize;
    let mut at = first;
    let mut next = first + count * width;
    for index in 0..count {
        let item = items.get(index);
        next = write_sections(&item, canonical, kept, block, at, next);
        at += width;
    }
    next
}
