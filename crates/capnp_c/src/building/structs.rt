//! Structs that are added.
ghost use Rattle.std.specs.Prelude.{length};
ghost use Rattle.capnp_orphans.specs.Holds.{HoldsStruct, TakesStructWords, StructSizeError};
ghost use Rattle.capnp_c.specs.Building.{Adds};

use crate::building::add::add;
use crate::building::builder::LinsjoarBuilder;
use capnp_orphans::objects::SizedStruct;

/// Adds a struct of these data words, and of pointers to these orphans.
///
/// Returns `AllocationTooLarge` (15) for 65536 or more of either. Else it fails as
/// `linsjoar_add_text` does.
#[unsafe(no_mangle)]
pub extern "C" fn linsjoar_add_struct(
    builder: &mut LinsjoarBuilder,
    region: &mut [u8],
    words: &[u64],
    orphans: &[u64],
    orphan: &mut u64,
) -> u32
    ensures { Adds (TakesStructWords (length words.now) (length orphans.now))
        (StructSizeError (length words.now) (length orphans.now))
        (λ before after word. HoldsStruct before words.now orphans.now after word)
        builder.old builder.new region.old region.new orphan.new result }
{
    add(builder, region, &SizedStruct::new(words, orphans), orphan)
}
