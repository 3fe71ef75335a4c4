//! Messages that are built in a caller-provided region, which is zero again afterwards.
ghost use Rattle.std.specs.Prelude.{◌≡◌, ◌⊎◌, ℕ, ◌+◌, ◌/◌, ◌^◌, ◌<◌, false, length, IfOk, IfErr, IsOk};
ghost use Rattle.capnp_frame.specs.declared.error.ErrorKind.TheVariants.{SegmentTaken};
ghost use Rattle.capnp_wire.specs.Prelude.{HasWords, WordsError};
ghost use Rattle.capnp_build.specs.Prelude.{IsSet};
ghost use Rattle.capnp_message.specs.Region.{IsAvailable};
ghost use Rattle.capnp_uses.specs.Regions.{IsOnlyBlock, RegionRoomError};

use capnp::Result;
use capnp::laws::a_single_region_comes_home;
use capnp::message::{Builder, SingleSegmentAllocator};
use capnp::traits::SetterInput;
use std::alloc::Global;

/// Sets the root of a new message in a region: a value that has room there after the root's word is
/// set, and is just after that word. Where the call fails, it is not because the region is out.
pub fn set_in_region<'a, T, V: SetterInput<T> + Drop>(
    alloc: Global,
    region: &'a mut [u8],
    value: V,
) -> Result<Builder<SingleSegmentAllocator<'a>>>
    requires { length region.old / 8 < 2 ^ 32 }
    ensures fits { (words : ℕ) → HasWords (V.has_tree value) false words →
        words < length region.old / 8 → IsOk result }
    ensures set { IfOk result (λ message. IsSet (V.has_tree value) false message.spaces) }
    ensures only_block { IfOk result (λ message. (words : ℕ) × HasWords (V.has_tree value) false words
        × (words < length region.old / 8 → IsOnlyBlock message words)) }
    ensures available { IfErr result (λ error. error.kind ≡ SegmentTaken →
        WordsError (V.has_tree value) (V.fails value) false error.kind) }
    // It fails as measuring the value does, or since there is no room.
    ensures errors { IfErr result (λ error.
        WordsError (V.has_tree value) (V.fails value) false error.kind
        ⊎ RegionRoomError (V.has_tree value) (length region.old / 8) error.kind) }
{
    let mut message = Builder::new(alloc, SingleSegmentAllocator::new(region));
    message.set_root::<T, V>(value)?;
    Ok(message)
}

/// Sets the root of a new message in a region, and drops the message: the region is available
/// again, all zero, whether the value was set or not.
pub fn region_comes_home<'a, T, V: SetterInput<T> + Drop>(
    alloc: Global,
    region: &'a mut [u8],
    value: V,
) -> SingleSegmentAllocator<'a>
    requires { length region.old / 8 < 2 ^ 32 }
    ensures available { IsAvailable result.region result.size }
    ensures size { result.size ≡ length region.old }
{
    let mut message = Builder::new(alloc, SingleSegmentAllocator::new(region));
    let _ = message.set_root::<T, V>(value);
    let allocator = message.into_allocator();
    a_single_region_comes_home(&allocator);
    allocator
}
