//! Structs.
mod fields;
pub(crate) mod part;
mod reader;

use crate::layout::copy::{Copied, CopySource, Destination};
use crate::layout::struct_value;
use crate::read_limiter::limit_in_words;
use crate::traits::{self, SetterInput};
use capnp_frame::Result;
use capnp_frame::message::ReaderSegments;
use capnp_layout::fast_path::LocalStruct;
use capnp_layout::place::Place;
pub use reader::StructReader;

/// A struct, as a type of a schema.
///
/// ```
/// let mut point = StructDraft::<any_struct::Owned, 1, 0>::new();
/// point.set_data_field::<i32>(0, 640);
/// point.set_data_field::<i32>(1, -480);
/// objects.add_root(&point)?;
/// assert_eq!(rt; objects.bytes().len(), 8 * 2);
/// ```
pub struct Owned;

impl<'a, S: ReaderSegments + 'a> traits::Owned<'a, S> for Owned {
    type Reader = StructReader<'a, S>;
}

// The place of a data word that is copied out of its list.
const ALONE: Place = Place {
    segment: 0,
    word: 0,
};

// The value is the tree of the struct, within the nesting depth left and the traversal limit.
impl<'a, S: ReaderSegments> SetterInput<Owned> for StructReader<'a, S> {
    ghost use Rattle.capnp_wire.specs.Readers.{struct_of};
    ghost use Rattle.capnp_wire.specs.Values.{IsTreeOf, WalkErrorInside};
    ghost use Rattle.capnp_layout.specs.Tree.{count};
    ghost use Rattle.std.proofs.Common.{ap};

    ghost has_tree = { λ view trees. IsTreeOf (struct_of S.segments view) trees };

    ghost fails = { λ view kind. WalkErrorInside (struct_of S.segments view) kind };

    ghost one = { λ value trees is. ap count is.whole };

    fn measure(&self, canonical: bool) -> Result<u32> {
        let limit = limit_in_words(self.limiter);
        match self.part {
            None => struct_value::measure(
                self.segments,
                LocalStruct {
                    segment: self.segment,
                    start: self.start,
                    size: self.size,
                },
                self.nesting,
                limit,
                canonical,
            ),
            Some(_) => struct_value::measure(
                self.segments,
                LocalStruct {
                    segment: &self.get_word(0).to_le_bytes(),
                    start: ALONE,
                    size: self.size,
                },
                self.nesting,
                limit,
                canonical,
            ),
        }
    }

    fn is_null(&self) -> bool {
        false
    }

    fn write(&self, canonical: bool, block: &mut [u8], following: usize, next: usize) -> Copied {
        let source = CopySource {
            segments: self.segments,
            canonical,
        };
        let to = Destination { following, next };
        match self.part {
            None => struct_value::write(
                &source,
                LocalStruct {
                    segment: self.segment,
                    start: self.start,
                    size: self.size,
                },
                self.nesting,
                block,
                to,
            ),
            Some(_) => struct_value::write(
                &source,
                LocalStruct {
                    segment: &self.get_word(0).to_le_bytes(),
                    start: ALONE,
                    size: self.size,
                },
                self.nesting,
                block,
                to,
            ),
        }
    }
}
