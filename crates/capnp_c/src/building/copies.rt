//! Copies of objects of other messages that are added.
ghost use Rattle.std.specs.Prelude.{◌≤◌, false};
ghost use Rattle.capnp_wire.specs.Prelude.{HasWords, WordsError, PointsToTree, WalkErrorFrom, nesting_of};
ghost use Rattle.capnp_orphans.specs.Holds.{HoldsValue};
ghost use Rattle.capnp_c.specs.Building.{AddsWhere};
ghost use Rattle.capnp_c.specs.Reading.{HasTableOf, pointer_read};

use crate::building::add::add;
use crate::building::builder::LinsjoarBuilder;
use crate::reading::INVALID_ARGUMENT;
use crate::reading::place::LinsjoarPlace;
use crate::reading::reader::LinsjoarReader;
use crate::reading::segments::MessageSegments;
use capnp_orphans::objects::Value;
use capnp_wire::any_pointer;
use capnp_wire::arena::ReaderArena;

/// Adds a copy of what a pointer of another message points to, with all below it, untrimmed. The walk
/// over these objects counts from 0, within the words that are left, and takes nothing from them.
///
/// The walk calls itself as deep as the objects are nested, so a place that is to be nested deeper
/// than the reader's limit is none that a call wrote.
///
/// Returns `InvalidArgument` (27) for such a place, and where the builder is not one of this region
/// or the reader not one of these bytes. Returns the number of the error with which the walk stops,
/// `AllocationTooLarge` (15) where no segment has room for the copy, and `BufferNotLargeEnough` (2)
/// where the region has none.
#[unsafe(no_mangle)]
pub extern "C" fn linsjoar_add_copy(
    builder: &mut LinsjoarBuilder,
    region: &mut [u8],
    bytes: &[u8],
    reader: &LinsjoarReader,
    pointer: &LinsjoarPlace,
    orphan: &mut u64,
) -> u32
    ensures { let place = pointer_read reader.now bytes.now pointer.now in
        AddsWhere (HasTableOf reader.now bytes.now
        × (pointer.now.nesting ≤ nesting_of reader.now.nesting_limit))
        (HasWords (PointsToTree place) false)
        (WordsError (PointsToTree place) (WalkErrorFrom place) false)
        (λ before after word. HoldsValue (PointsToTree place) after word)
        builder.old builder.new region.old region.new orphan.new result }
{
    *orphan = 0;
    let Some(segments) = reader.segments_in(bytes) else {
        return INVALID_ARGUMENT;
    };
    let deepest = reader.nesting();
    if pointer.nesting > deepest {
        return INVALID_ARGUMENT;
    }
    let arena = ReaderArena::new(segments, reader.options());
    let reader = arena.pointer_at(pointer.in_message(), pointer.nesting);
    let copy = Value::<any_pointer::Owned, any_pointer::Reader<'_, MessageSegments<'_>>>::new(
        &reader,
    );
    add(builder, region, &copy, orphan)
}
