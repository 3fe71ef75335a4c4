//! Lists of pointers as values.
ghost use Rattle.std.specs.Prelude.{◌≡◌};
ghost use Rattle.capnp_values.specs.Measured.{MeasuresValue};
ghost use Rattle.capnp_values.specs.Lists.{IsPointerListTree, PointerListError};

use crate::items::{measure_items, write_items};
use crate::measured::checked_part_words;
use crate::sources::ValueSource;
use capnp_frame::Result;
use capnp_layout::limits::{MAX_ELEMENTS, allocation_too_large, checked_word_count};
use capnp_layout::pointer_word::{POINTER_LIST, list_word};
use capnp_wire::list_list::Owned;
use capnp_wire::traits::{Copied, SetterInput, TreeWords};
use std::marker::PhantomData;

/// A list of pointers, each set to a value, such as a list of texts (encoding document,
/// "Lists").
///
/// ```
/// let names = ["Ann", "Bo"];
/// let list = PointerList::new(&names);
/// message.set_root::<text_list::Owned, PointerList<'_, text::Owned, &str>>(list)?;
/// assert_eq!(rt; message.size_in_words(), 5);
/// ```
#[derive(Drop)]
pub struct PointerList<'a, T, V> {
    /// The values that they are set to.
    pub items: &'a [V],

    /// The type of the elements in a schema.
    pub schema: PhantomData<T>,
}

impl<'a, T, V> PointerList<'a, T, V> {
    /// A list of pointers that are set to these values.
    pub fn new(items: &'a [V]) -> PointerList<'a, T, V>
        ensures { result.items.now ≡ items.now }
    {
        PointerList {
            items,
            schema: PhantomData,
        }
    }
}

// Has the values' trees, in order. Fails with `AllocationTooLarge` for 2^29 values or more, and as
// the first value does that fails untrimmed.
impl<'a, T, V: SetterInput<T>> SetterInput<Owned<T>> for PointerList<'a, T, V> {
    ghost use Rattle.capnp_layout.specs.Tree.{count};
    ghost use Rattle.capnp_values.specs.Lists.{IsPointerListTree, PointerListError};
    ghost use Rattle.std.proofs.Common.{ap};

    ghost has_tree = { λ value trees. IsPointerListTree V.has_tree value.items.now trees };

    ghost fails = { λ value kind.
        PointerListError V.has_tree V.fails value.items.now kind };

    ghost one = { λ value trees is. ap count is.whole };

    fn measure(&self, canonical: bool) -> Result<u32> {
        let words = measure_list::<T, &'a [V]>(&self.items, canonical)?;
        checked_word_count(words.output, canonical)
    }

    fn measure_part(&self, canonical: bool) -> Result<TreeWords> {
        let words = measure_list::<T, &'a [V]>(&self.items, canonical)?;
        checked_part_words(words)
    }

    fn is_null(&self) -> bool {
        false
    }

    fn write(&self, canonical: bool, block: &mut [u8], following: usize, next: usize) -> Copied {
        let count = self.items.len();
        Copied {
            pointer: list_word((next - following) as u64, POINTER_LIST, count as u64),
            next: write_items::<T, &'a [V]>(&self.items, canonical, block, next),
        }
    }
}

/// The number of words of a list of pointers to these values.
pub(crate) fn measure_list<T, S: ValueSource<T>>(items: &S, canonical: bool) -> Result<TreeWords>
    ensures { MeasuresValue (IsPointerListTree (S.has_tree items.now) (S.items items.now))
        (PointerListError (S.has_tree items.now) (S.fails items.now) (S.items items.now))
        canonical result }
{
    let count = items.len() as u64;
    if count > MAX_ELEMENTS as u64 {
        return Err(allocation_too_large(count));
    }
    let words = measure_items::<T, S>(items, canonical)?;
    let untrimmed = count + words.untrimmed;
    let output = count + words.output;
    Ok(TreeWords { untrimmed, output })
}
