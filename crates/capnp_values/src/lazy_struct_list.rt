//! Lists of structs that are made only when they are needed.
ghost use Rattle.std.specs.Prelude.{◌≡◌};

use crate::element::Element;
use crate::fields::Fields;
use crate::measured::checked_part_words;
use crate::sources::StructSource;
use crate::tagged::{measure_list, write_list};
use capnp_frame::Result;
use capnp_layout::limits::checked_word_count;
use capnp_wire::struct_list::Owned;
use capnp_wire::traits::{Copied, SetterInput, TreeWords};

/// A list of structs of one size, each made only when it is needed, so that no two of them need be
/// in memory at once (encoding document, "Lists").
///
/// ```
/// let list = LazyStructList::new(source);
/// message.set_root::<struct_list::Owned, LazyStructList<Numbers<'_>>>(list)?;
/// assert_eq!(rt; message.size_in_words(), 4);
/// ```
#[derive(Drop)]
pub struct LazyStructList<S> {
    /// What makes the structs.
    pub source: S,
}

impl<S> LazyStructList<S> {
    /// A list of the structs of a source.
    pub fn new(source: S) -> LazyStructList<S>
        ensures { result.source ≡ source }
    {
        LazyStructList { source }
    }
}

// Has the data words of the source's structs and the trees of their fields, in order. Fails as a
// list of these structs in memory does.
impl<S: StructSource> SetterInput<Owned> for LazyStructList<S> {
    ghost use Rattle.capnp_layout.specs.Tree.{count};
    ghost use Rattle.capnp_values.specs.StructLists.{IsStructListTree, StructListError};
    ghost use Rattle.std.proofs.Common.{ap};

    ghost has_tree = { λ value trees. IsStructListTree (S.words value.source)
        (S.has_trees value.source) S.Value.data_words S.Value.size (S.items value.source) trees };

    ghost fails = { λ value kind. StructListError (S.has_trees value.source)
        (S.fails value.source) S.Value.data_words S.Value.size (S.items value.source) kind };

    ghost one = { λ value trees is. ap count is.whole };

    fn measure(&self, canonical: bool) -> Result<u32> {
        let words = measure_list(&self.source, canonical)?;
        checked_word_count(words.output, canonical)
    }

    fn measure_part(&self, canonical: bool) -> Result<TreeWords> {
        let words = measure_list(&self.source, canonical)?;
        checked_part_words(words)
    }

    fn is_null(&self) -> bool {
        false
    }

    fn write(&self, canonical: bool, block: &mut [u8], following: usize, next: usize) -> Copied {
        write_list(&self.source, canonical, block, following, next)
    }
}
