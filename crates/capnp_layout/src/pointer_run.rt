//! Consecutive pointers.
ghost use Rattle.std.specs.Prelude.{◌≡◌, ◌+◌, ◌^◌, ◌<◌};

use crate::object::{Body, Object};
use crate::place::Place;
use crate::pointer_slots::PointerSlots;

/// Consecutive pointers of a segment: the pointer section of a struct, or a list of pointers.
#[derive(Drop)]
pub struct PointerRun<'a> {
    pub segment: &'a [u8],
    pub first: Place,
    pub count: u32,
    ghost bound: { first.word + count < 2 ^ 61 },
}

impl<'a> PointerRun<'a> {
    ghost use Rattle.capnp_layout.specs.Object.{places};
    ghost use Rattle.capnp_layout.specs.PointerSections.{places_in, segment_of};
    ghost use Rattle.capnp_layout.specs.Local.{pointers_of};

    /// The list as an object.
    #[inline(always)]
    pub fn object(&self) -> Object<'a>
        ensures { result ≡ pointers_of self.now }
    {
        Object {
            segment: self.segment,
            start: self.first,
            body: Body::Pointers(self.count),
            traversed: self.count as u64,
        }
    }

    /// A cursor over these pointers, for a walk.
    #[inline(always)]
    pub fn slots(&self) -> PointerSlots
        ensures places { places_in result
            ≡ places self.now.first.segment self.now.first.word self.now.count }
        ensures segment { segment_of result ≡ self.now.first.segment }
    {
        PointerSlots::run(self.first, self.count)
    }
}
