//! Lists of structs.
mod reader;

use crate::layout::copy::{Copied, CopySource, Destination};
use crate::layout::struct_list_value;
use crate::layout::struct_list_value::StructRun;
use crate::read_limiter::limit_in_words;
use crate::traits::{self, SetterInput};
use capnp_frame::Result;
use capnp_frame::message::ReaderSegments;
pub use reader::Reader;

/// A list of structs, as a type of a schema.
///
/// ```
/// let mut entry = StructDraft::<any_struct::Owned, 1, 0>::new();
/// entry.set_data_field::<u32>(0, 20);
/// let entries: Orphan<struct_list::Owned> = objects.struct_list(&[entry])?;
/// objects.set_root(entries);
/// assert_eq!(rt; objects.bytes().len(), 8 * 3);
/// ```
pub struct Owned;

impl<'a, S: ReaderSegments + 'a> traits::Owned<'a, S> for Owned {
    type Reader = Reader<'a, S>;
}

// The value is the list of the structs, with all below them, within the nesting depth left and the
// traversal limit.
impl<'a, S: ReaderSegments> SetterInput<Owned> for Reader<'a, S> {
    ghost use Rattle.capnp_wire.specs.ListViews.{struct_list_of};
    ghost use Rattle.capnp_wire.specs.ListValues.{IsListTree, WalkErrorInList, pointers_in, structs_form};
    ghost use Rattle.capnp_layout.specs.Tree.{count};
    ghost use Rattle.std.proofs.Common.{ap};

    ghost has_tree = { λ list trees.
        IsListTree (structs_form S.segments list) (pointers_in (struct_list_of S.segments list)) trees };

    ghost fails = { λ list kind. WalkErrorInList (pointers_in (struct_list_of S.segments list)) kind };

    ghost one = { λ value trees is. ap count is.whole };

    fn measure(&self, canonical: bool) -> Result<u32> {
        struct_list_value::measure(
            self.segments,
            StructRun {
                segment: self.segment,
                first: self.first,
                elements: self.elements,
            },
            self.nesting,
            limit_in_words(self.limiter),
            canonical,
        )
    }

    fn is_null(&self) -> bool {
        false
    }

    fn write(&self, canonical: bool, block: &mut [u8], following: usize, next: usize) -> Copied {
        struct_list_value::write(
            &CopySource {
                segments: self.segments,
                canonical,
            },
            StructRun {
                segment: self.segment,
                first: self.first,
                elements: self.elements,
            },
            self.nesting,
            block,
            Destination { following, next },
        )
    }
}
