//! Pointers that may point to anything.
ghost use Rattle.std.specs.Prelude.{◌≡◌, ◌-◌, ◌^◌, ◌<◌, ◌≤◌, length};
ghost use Rattle.capnp_layout.specs.Prelude.{Trees, output};
ghost use Rattle.capnp_wire.specs.Copy.{IsCopied};
ghost use Rattle.capnp_wire.specs.Readers.{pointer_of};
ghost use Rattle.capnp_wire.specs.Values.{HasRoomAt, PointsToTree};

mod fast_path;
mod reader;

use crate::layout::copy::{Copied, CopySource, Destination, copy};
use crate::layout::value;
use crate::read_limiter::limit_in_words;
use crate::traits::{self, SetterInput};
use capnp_frame::Result;
use capnp_frame::message::ReaderSegments;
use capnp_layout::block::BlockItem;
pub(crate) use fast_path::ObjectKind;
pub use reader::Reader;

/// A pointer that may point to anything, as a type of a schema.
///
/// ```
/// let root: any_pointer::Reader<'_, OwnedSegments> = message.get_root()?;
/// let mut copy = Builder::new_default(alloc);
/// copy.set_root::<any_pointer::Owned, _>(root)?;
/// assert_eq!(rt; copy.size_in_words(), 5);
/// ```
pub struct Owned;

impl<'a, S: ReaderSegments + 'a> traits::Owned<'a, S> for Owned {
    type Reader = Reader<'a, S>;
}

// The tree that the pointer points to, within the nesting depth left and the traversal limit.
impl<'a, S: ReaderSegments> SetterInput<Owned> for Reader<'a, S> {
    ghost use Rattle.capnp_wire.specs.Readers.{pointer_of};
    ghost use Rattle.capnp_wire.specs.Values.{PointsToTree, WalkErrorFrom, one_value};

    ghost has_tree = { λ reader trees. PointsToTree (pointer_of S.segments reader) trees };

    ghost fails = { λ reader kind. WalkErrorFrom (pointer_of S.segments reader) kind };

    ghost one = { λ reader trees is. one_value (pointer_of S.segments reader) trees is };

    #[inline(always)]
    fn measure(&self, canonical: bool) -> Result<u32> {
        match self.place {
            None => Ok(0),
            Some(place) => value::measure(
                self.segments,
                place,
                self.nesting,
                limit_in_words(self.limiter),
                canonical,
            ),
        }
    }

    fn is_null(&self) -> bool {
        Reader::is_null(self)
    }

    fn write(&self, canonical: bool, block: &mut [u8], following: usize, next: usize) -> Copied {
        write_into(self, canonical, block, following, next)
    }
}

/// Writes the tree that a pointer points to into a block of bytes or of words, from the word `next`
/// on. The pointer to the tree is to be put into the word before `following`.
#[inline(always)]
pub(crate) fn write_into<S: ReaderSegments, T: BlockItem>(
    reader: &Reader<'_, S>,
    canonical: bool,
    block: &mut [T],
    following: usize,
    next: usize,
) -> Copied
    requires value { HasRoomAt (PointsToTree (pointer_of S.segments reader.now)) canonical
        next (length (T.as_words block.old)) }
    requires small { length (T.as_words block.old) < 2 ^ 29 }
    requires following { following ≤ next }
    ensures written { (trees : Trees) → PointsToTree (pointer_of S.segments reader.now) trees →
        IsCopied (output canonical trees) (next - following) next
        (T.as_words block.old) (T.as_words block.new) result }
    ensures len { length (T.as_words block.new) ≡ length (T.as_words block.old) }
{
    match reader.place {
        None => Copied { pointer: 0, next },
        Some(place) => copy(
            &CopySource {
                segments: reader.segments,
                canonical,
            },
            place,
            reader.nesting,
            block,
            Destination { following, next },
        ),
    }
}
