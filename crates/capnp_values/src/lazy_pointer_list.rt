//! Lists of pointers to values that are made only when they are needed.
ghost use Rattle.std.specs.Prelude.{◌≡◌};

use crate::items::write_items;
use crate::measured::checked_part_words;
use crate::pointer_list::measure_list;
use crate::sources::ValueSource;
use capnp_frame::Result;
use capnp_layout::limits::checked_word_count;
use capnp_layout::pointer_word::{POINTER_LIST, list_word};
use capnp_wire::list_list::Owned;
use capnp_wire::traits::{Copied, SetterInput, TreeWords};
use std::marker::PhantomData;

/// A list of pointers, each set to a value that is made only when it is needed, so that no two
/// values need be in memory at once (encoding document, "Lists").
///
/// ```
/// let list: LazyPointerList<text::Owned, Names<'_>> = LazyPointerList::new(source);
/// message.set_root::<text_list::Owned, LazyPointerList<text::Owned, Names<'_>>>(list)?;
/// assert_eq!(rt; message.size_in_words(), 5);
/// ```
#[derive(Drop)]
pub struct LazyPointerList<T, S> {
    /// What makes the values.
    pub source: S,

    /// The type of the elements in a schema.
    pub schema: PhantomData<T>,
}

impl<T, S> LazyPointerList<T, S> {
    /// A list of pointers that are set to the values of a source.
    pub fn new(source: S) -> LazyPointerList<T, S>
        ensures { result.source ≡ source }
    {
        LazyPointerList {
            source,
            schema: PhantomData,
        }
    }
}

// Has the trees of the source's values, in order. Fails as a list of these values in memory does.
impl<T, S: ValueSource<T>> SetterInput<Owned<T>> for LazyPointerList<T, S> {
    ghost use Rattle.capnp_layout.specs.Tree.{count};
    ghost use Rattle.capnp_values.specs.Lists.{IsPointerListTree, PointerListError};
    ghost use Rattle.std.proofs.Common.{ap};

    ghost has_tree = { λ value trees.
        IsPointerListTree (S.has_tree value.source) (S.items value.source) trees };

    ghost fails = { λ value kind. PointerListError (S.has_tree value.source)
        (S.fails value.source) (S.items value.source) kind };

    ghost one = { λ value trees is. ap count is.whole };

    fn measure(&self, canonical: bool) -> Result<u32> {
        let words = measure_list::<T, S>(&self.source, canonical)?;
        checked_word_count(words.output, canonical)
    }

    fn measure_part(&self, canonical: bool) -> Result<TreeWords> {
        let words = measure_list::<T, S>(&self.source, canonical)?;
        checked_part_words(words)
    }

    fn is_null(&self) -> bool {
        false
    }

    fn write(&self, canonical: bool, block: &mut [u8], following: usize, next: usize) -> Copied {
        let count = self.source.len();
        Copied {
            pointer: list_word((next - following) as u64, POINTER_LIST, count as u64),
            next: write_items::<T, S>(&self.source, canonical, block, next),
        }
    }
}
