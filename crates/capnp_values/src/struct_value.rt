//! Structs as values.
ghost use Rattle.std.specs.Prelude.{◌≡◌, length};
ghost use Rattle.capnp_values.specs.Measured.{MeasuresValue};
ghost use Rattle.capnp_values.specs.Structs.{IsStructTree, StructError};

use crate::element::Element;
use crate::fields::Fields;
use crate::measured::checked_part_words;
use crate::sections::{KeptWords, fits, kept_data, struct_word, words_fit, write_sections};
use capnp_frame::{Error, ErrorKind, Result};
use capnp_layout::limits::checked_word_count;
use capnp_wire::any_struct::Owned;
use capnp_wire::traits::{Copied, SetterInput, TreeWords};

/// A struct of data words and of pointer fields (encoding document, "Structs").
///
/// ```
/// let point = StructValue::new([3, 4], NoFields);
/// message.set_root::<any_struct::Owned, StructValue<2, NoFields>>(point)?;
/// let read: StructReader<'_, BuilderArena<HeapAllocator>> = message.get_root_as_reader()?;
/// assert_eq!(rt; (read.get_word(0), read.get_word(1)), (3, 4));
/// ```
#[derive(Drop)]
pub struct StructValue<const D: usize, F> {
    /// The words of its data section.
    pub words: [u64; D],

    /// The values that the pointers of its pointer section are set to.
    pub fields: F,
}

impl<const D: usize, F> StructValue<D, F> {
    /// A struct of these data words and fields.
    pub fn new(words: [u64; D], fields: F) -> StructValue<D, F>
        ensures words { result.words ≡ words.entry }
        ensures fields { result.fields ≡ fields }
    {
        StructValue { words, fields }
    }
}

// Has the data words and the trees of the fields. Fails with `AllocationTooLarge` for 2^16 or more
// data words or fields, and else as the first field does that fails untrimmed.
impl<const D: usize, F: Fields> SetterInput<Owned> for StructValue<D, F> {
    ghost use Rattle.std.specs.Prelude.{length};
    ghost use Rattle.capnp_layout.specs.Tree.{count};
    ghost use Rattle.capnp_values.specs.Structs.{IsStructTree, StructError};
    ghost use Rattle.std.proofs.Common.{ap};

    ghost has_tree = { λ value trees.
        IsStructTree value.words F.size (F.has_trees value.fields) trees };

    ghost fails = { λ value kind.
        StructError (length value.words) F.size (F.fails value.fields) kind };

    ghost one = { λ value trees is. ap count is.whole };

    fn measure(&self, canonical: bool) -> Result<u32> {
        let words = measure_struct(&self.words, &self.fields, canonical)?;
        checked_word_count(words.output, canonical)
    }

    fn measure_part(&self, canonical: bool) -> Result<TreeWords> {
        let words = measure_struct(&self.words, &self.fields, canonical)?;
        checked_part_words(words)
    }

    fn is_null(&self) -> bool {
        false
    }

    fn write(&self, canonical: bool, block: &mut [u8], following: usize, next: usize) -> Copied {
        let data_words = kept_data(&self.words, canonical);
        let pointers = self.fields.kept(canonical);
        let kept = KeptWords {
            data_words,
            pointers,
        };
        let children = next + data_words + pointers as usize;
        Copied {
            pointer: struct_word(data_words, pointers, next - following),
            next: write_sections(self, canonical, kept, block, next, children),
        }
    }
}

// The number of words of a struct of these data words and fields.
fn measure_struct<F: Fields>(words: &[u64], fields: &F, canonical: bool) -> Result<TreeWords>
    ensures { MeasuresValue (IsStructTree words.now F.size (F.has_trees fields.now))
        (StructError (length words.now) F.size (F.fails fields.now)) canonical result }
{
    if !fits(words, F::count()) {
        return Err(Error::from_kind(ErrorKind::AllocationTooLarge(1 << 16)));
    }
    // For the prover: each data word is below 2^64.
    words_fit(words);
    let children = fields.measure(canonical)?;
    let data = kept_data(words, canonical) as u64;
    let pointers = fields.kept(canonical) as u64;
    let untrimmed = words.len() as u64 + F::count() as u64 + children.untrimmed;
    let output = data + pointers + children.output;
    Ok(TreeWords { untrimmed, output })
}

// Has the fields alone.
impl<const D: usize, F: Fields> Fields for StructValue<D, F> {
    ghost size = { F.size };

    ghost has_trees = { λ value trees. F.has_trees value.fields trees };

    ghost fails = { λ value kind. F.fails value.fields kind };

    ghost settled = { λ value trees is. F.settled value.fields trees is };

    fn count() -> u32 {
        F::count()
    }

    fn measure(&self, canonical: bool) -> Result<TreeWords> {
        self.fields.measure(canonical)
    }

    fn untrimmed(&self) -> Result<u64> {
        self.fields.untrimmed()
    }

    fn kept(&self, canonical: bool) -> u32 {
        self.fields.kept(canonical)
    }

    fn write(
        &self,
        canonical: bool,
        block: &mut [u8],
        slot: usize,
        count: u32,
        next: usize,
    ) -> usize {
        self.fields.write(canonical, block, slot, count, next)
    }
}

impl<const D: usize, F: Fields> Element for StructValue<D, F> {
    ghost data_words = { D };

    ghost words = { λ value. value.words };

    fn data_words() -> usize {
        D
    }

    fn words(&self) -> &[u64] {
        // For the prover: each data word is below 2^64.
        words_fit(&self.words);
        &self.words
    }
}
