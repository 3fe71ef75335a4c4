//! Lists of pointers that may point to anything.
mod reader;

use crate::layout::copy::{Copied, CopySource, Destination};
use crate::layout::list_value;
use crate::read_limiter::limit_in_words;
use crate::traits::{self, SetterInput};
use capnp_frame::Result;
use capnp_frame::message::ReaderSegments;
pub use reader::Reader;

/// A list of pointers that may point to anything, as a type of a schema.
///
/// ```
/// let names: any_pointer_list::Reader<'_, OwnedSegments> = message.get_root()?;
/// let copy: Orphan<any_pointer_list::Owned> = objects.set(&names)?;
/// objects.set_root(copy);
/// assert_eq!(rt; objects.bytes().len(), 8 * 5);
/// ```
pub struct Owned;

impl<'a, S: ReaderSegments + 'a> traits::Owned<'a, S> for Owned {
    type Reader = Reader<'a, S>;
}

// The value is the list of the pointers, with all below them, within the nesting depth left and the
// traversal limit.
impl<'a, S: ReaderSegments> SetterInput<Owned> for Reader<'a, S> {
    ghost use Rattle.capnp_wire.specs.ListViews.{pointer_list_of};
    ghost use Rattle.capnp_wire.specs.ListValues.{IsListTree, WalkErrorInList};
    ghost use Rattle.capnp_layout.specs.Tree.{count, pointers};
    ghost use Rattle.std.proofs.Common.{ap};

    ghost has_tree = { λ list trees.
        IsListTree pointers (pointer_list_of S.segments list) trees };

    ghost fails = { λ list kind. WalkErrorInList (pointer_list_of S.segments list) kind };

    ghost one = { λ value trees is. ap count is.whole };

    fn measure(&self, canonical: bool) -> Result<u32> {
        list_value::measure(
            self.segments,
            self.first,
            self.count,
            self.nesting,
            limit_in_words(self.limiter),
            canonical,
        )
    }

    fn is_null(&self) -> bool {
        false
    }

    fn write(&self, canonical: bool, block: &mut [u8], following: usize, next: usize) -> Copied {
        list_value::write(
            &CopySource {
                segments: self.segments,
                canonical,
            },
            self.first,
            self.count,
            self.nesting,
            block,
            Destination { following, next },
        )
    }
}
