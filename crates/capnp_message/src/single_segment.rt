//! An allocator of one caller-provided region.
ghost use Rattle.std.specs.Prelude.{◌≡◌, ◌≢◌, ◌⊎◌, ℕ, ◌*◌, ◌/◌, ◌^◌, ◌<◌, ◌≤◌, true, length, IsSome, IsNone, IsOk, OnOk, None, Some};
ghost use Rattle.std.specs.Option.{ForSome};
ghost use Rattle.std.specs.Result.{IsErrAnd};
ghost use Rattle.capnp_frame.specs.declared.error.ErrorKind.TheVariants.{AllocationTooLarge, SegmentTaken};
ghost use Rattle.capnp_build.specs.Prelude.{ZeroFrom, TakesOff, IsOut, HandsOut};
ghost use Rattle.capnp_message.specs.Region.{IsOutAlone, GrantsRegion, RegionError, region_out, HoldsRegion};

use capnp_build::allocator::Allocator;
use capnp_frame::{Error, ErrorKind, Result};

/// Hands out one caller-provided region, as the only segment. It takes no memory. While the region
/// is available, it is all zero.
///
/// ```
/// let mut region = [0; 24];
/// let mut message = Builder::new(alloc, SingleSegmentAllocator::new(&mut region));
/// message.set_root::<text::Owned, &str>("Hello, World!")?;
/// ```
#[derive(Drop)]
pub struct SingleSegmentAllocator<'a> {
    region: Option<&'a mut [u8]>,
    size: usize,
    ghost whole: { ForSome region (λ r. length r.now ≡ size) },
    ghost few: { size / 8 < 2 ^ 32 },
    ghost zero: { ForSome region (λ r. ZeroFrom 0 r.now) },
}

impl<'a> SingleSegmentAllocator<'a> {
    /// An allocator of this region, which is made zero. Bytes after the last whole word of the
    /// region are not used.
    pub fn new(region: &'a mut [u8]) -> SingleSegmentAllocator<'a>
        requires { length region.old / 8 < 2 ^ 32 }
        ensures { HoldsRegion result.region result.size region.entry }
    {
        region.fill(0);
        let size = region.len();
        SingleSegmentAllocator {
            region: Some(region),
            size,
        }
    }
}

impl<'a> Allocator for SingleSegmentAllocator<'a> {
    type Segment = &'a mut [u8];

    ghost use Rattle.std.specs.Prelude.{refl};
    ghost use Rattle.std.proofs.Common.{◌∙◌};
    ghost use Rattle.capnp_message.specs.Region.{some_out, IsAvailable};

    ghost out = { λ allocator list. IsOutAlone allocator.region allocator.size list };

    ghost same = { λ old new. new.size ≡ old.size };

    ghost grants = { λ allocator. GrantsRegion allocator.region allocator.size };

    ghost fails = { λ allocator. RegionError allocator.region allocator.size };

    ghost returns = { λ old segment words new. IsAvailable new.region old.size };

    // In addition to what any allocator ensures: when it fails, and with which kind.
    fn allocate_segment(&mut self, minimum_size: u32) -> Result<&'a mut [u8]>
        ensures hands_out { HandsOut (λ allocator. IsOutAlone allocator.region allocator.size)
            (λ old new. new.size ≡ old.size)
            (λ allocator. GrantsRegion allocator.region allocator.size)
            (λ allocator. RegionError allocator.region allocator.size) (λ s. s.now) (λ s. true)
            minimum_size self.old self.new result }
        ensures too_large { self.old.size / 8 < minimum_size →
            IsErrAnd result (λ error. error.kind ≡ AllocationTooLarge minimum_size) }
        ensures taken { minimum_size ≤ self.old.size / 8 → self.old.region ≡ None →
            IsErrAnd result (λ error. error.kind ≡ SegmentTaken) }
        ensures provided { minimum_size ≤ self.old.size / 8 → IsSome self.old.region → IsOk result }
        ensures away { OnOk result (self.new.region ≡ None) }
    {
        if minimum_size as usize > self.size / 8 {
            return Err(Error::from_kind(ErrorKind::AllocationTooLarge(minimum_size)));
        }
        match self.region.take() {
            Some(region) => Ok(region),
            None => Err(Error::from_kind(ErrorKind::SegmentTaken)),
        }
    }

    // The used words are made zero, so all of the region is zero while it is available.
    fn deallocate_segment(&mut self, segment: &'a mut [u8], words_used: u32) {
        segment[..8 * words_used as usize].fill(0);
        self.region = Some(segment);
    }

    ghost keeps = { record { reflexive = λ s. refl; transitive = λ s t u p q. q ∙ p } };

    ghost accounts = { λ s. some_out s.region s.size };
}
