//! Lists of structs as values.
ghost use Rattle.std.specs.Prelude.{◌≡◌};

use crate::element::Element;
use crate::fields::Fields;
use crate::measured::checked_part_words;
use crate::tagged::{measure_list, write_list};
use capnp_frame::Result;
use capnp_layout::limits::checked_word_count;
use capnp_wire::struct_list::Owned;
use capnp_wire::traits::{Copied, SetterInput, TreeWords};

/// A list whose elements are consecutive structs of one size (encoding document, "Lists").
///
/// ```
/// let points = [
///     StructValue::new([3, 4], NoFields),
///     StructValue::new([5, 6], NoFields),
/// ];
/// let list = StructList::new(&points);
/// message.set_root::<struct_list::Owned, StructList<'_, StructValue<2, NoFields>>>(list)?;
/// assert_eq!(rt; message.size_in_words(), 6);
/// ```
#[derive(Drop)]
pub struct StructList<'a, E> {
    /// The elements.
    pub items: &'a [E],
}

impl<'a, E> StructList<'a, E> {
    /// A list of these structs.
    pub fn new(items: &'a [E]) -> StructList<'a, E>
        ensures { result.items.now ≡ items.now }
    {
        StructList { items }
    }
}

// Has the data words of the elements and the trees of their fields, in order. Fails with
// `AllocationTooLarge` for 2^16 or more data words or fields, and for 2^29 or more elements or
// words of elements. Else it fails as the first field does that fails untrimmed.
impl<'a, E: Fields + Element> SetterInput<Owned> for StructList<'a, E> {
    ghost use Rattle.capnp_layout.specs.Tree.{count};
    ghost use Rattle.capnp_values.specs.StructLists.{IsStructListTree, StructListError};
    ghost use Rattle.std.proofs.Common.{ap};

    ghost has_tree = { λ value trees. IsStructListTree E.words E.has_trees
        E.data_words E.size value.items.now trees };

    ghost fails = { λ value kind. StructListError E.has_trees E.fails
        E.data_words E.size value.items.now kind };

    ghost one = { λ value trees is. ap count is.whole };

    fn measure(&self, canonical: bool) -> Result<u32> {
        let words = measure_list(&self.items, canonical)?;
        checked_word_count(words.output, canonical)
    }

    fn measure_part(&self, canonical: bool) -> Result<TreeWords> {
        let words = measure_list(&self.items, canonical)?;
        checked_part_words(words)
    }

    fn is_null(&self) -> bool {
        false
    }

    fn write(&self, canonical: bool, block: &mut [u8], following: usize, next: usize) -> Copied {
        write_list(&self.items, canonical, block, following, next)
    }
}
