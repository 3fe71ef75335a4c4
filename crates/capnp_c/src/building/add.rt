//! Objects that are added to a message.
ghost use Rattle.std.specs.Prelude.{◌≡◌};
ghost use Rattle.capnp_c.specs.Building.{Adds};

use crate::building::builder::{LinsjoarBuilder, append_after_table};
use crate::reading::INVALID_ARGUMENT;
use capnp_frame::ErrorKind;
use capnp_layout::limits::MAX_SEGMENT_WORDS;
use capnp_orphans::Object;

/// Adds an object, and writes its orphan. Returns `InvalidArgument` (27) where the builder is not one
/// of this region, and the number of the error with which the object can't be written. Returns
/// `AllocationTooLarge` (15) where no segment has room for it, and `BufferNotLargeEnough` (2) where
/// the region has none. Then nothing changes.
#[inline(always)]
pub(crate) fn add<O: Object>(
    builder: &mut LinsjoarBuilder,
    region: &mut [u8],
    object: &O,
    orphan: &mut u64,
) -> u32
    ensures { Adds (O.takes object.now) (O.fails object.now) (O.holds object.now) builder.old
        builder.new region.old region.new orphan.new result }
{
    *orphan = 0;
    let Some(used) = builder.segment_len(region) else {
        return INVALID_ARGUMENT;
    };
    let words = match object.measure() {
        Ok(words) => words,
        Err(error) => return error.kind.number() as u32,
    };
    let segment_words = used / 8 + words as usize;
    if segment_words >= MAX_SEGMENT_WORDS as usize {
        return ErrorKind::AllocationTooLarge(words).number() as u32;
    }
    let end = builder.used + 8 * words as usize;
    if end > region.len() {
        return ErrorKind::BufferNotLargeEnough.number() as u32;
    }
    *orphan = append_after_table(region, used, words, object);
    builder.used = end;
    0
}
