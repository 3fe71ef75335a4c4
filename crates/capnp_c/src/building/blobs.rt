//! `Text` and `Data` that are added.
ghost use Rattle.std.specs.Prelude.{false};
ghost use Rattle.capnp_wire.specs.Prelude.{HasWords, WordsError, IsTextTree, LongText, IsBytes, ManyBytes};
ghost use Rattle.capnp_orphans.specs.Holds.{HoldsValue};
ghost use Rattle.capnp_c.specs.Building.{Adds};

use crate::building::add::add;
use crate::building::builder::LinsjoarBuilder;
use capnp_orphans::objects::{TextBytes, Value};
use capnp_wire::data;

/// Adds a `Text` of these bytes, and a zero byte after them. It is to be UTF-8, which is not tested.
///
/// Returns `InvalidArgument` (27) where the builder is not one of this region, `AllocationTooLarge`
/// (15) where no segment has room for it, and `BufferNotLargeEnough` (2) where the region has none.
#[unsafe(no_mangle)]
pub extern "C" fn linsjoar_add_text(
    builder: &mut LinsjoarBuilder,
    region: &mut [u8],
    text: &[u8],
    orphan: &mut u64,
) -> u32
    ensures { Adds (HasWords (IsTextTree text.now) false)
        (WordsError (IsTextTree text.now) (LongText text.now) false)
        (λ before after word. HoldsValue (IsTextTree text.now) after word)
        builder.old builder.new region.old region.new orphan.new result }
{
    add(builder, region, &TextBytes::new(text), orphan)
}

/// Adds a `Data` of these bytes, and fails as `linsjoar_add_text` does.
#[unsafe(no_mangle)]
pub extern "C" fn linsjoar_add_data(
    builder: &mut LinsjoarBuilder,
    region: &mut [u8],
    bytes: &[u8],
    orphan: &mut u64,
) -> u32
    ensures { Adds (HasWords (IsBytes bytes.now) false)
        (WordsError (IsBytes bytes.now) (ManyBytes bytes.now) false)
        (λ before after word. HoldsValue (IsBytes bytes.now) after word)
        builder.old builder.new region.old region.new orphan.new result }
{
    let value = Value::<data::Owned, &[u8]>::new(&bytes);
    add(builder, region, &value, orphan)
}
