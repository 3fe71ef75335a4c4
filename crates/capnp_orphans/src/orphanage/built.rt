//! An orphanage as a message that is built: it can be read in place, and written.
use crate::orphanage::Orphanage;
use crate::segment::GrowingSegment;
use capnp_frame::message::{BuiltMessage, ReaderSegments};

impl<S: GrowingSegment> ReaderSegments for Orphanage<S> {
    ghost use Rattle.std.specs.Prelude.{◌∷◌, []};

    ghost segments = { λ objects. objects.bytes ∷ [] };

    fn get_segment(&self, id: u32) -> Option<&[u8]> {
        match id {
            0 => Some(self.segment.bytes()),
            _ => None,
        }
    }
}

impl<S: GrowingSegment> BuiltMessage for Orphanage<S> {
    ghost use Rattle.std.specs.Prelude.{⊤};

    ghost has_segment = { λ objects. ⊤ };

    #[inline(always)]
    fn can_be_written(&self) {
        // For the prover: reading a field brings in the invariant, which says this.
        let _segment = &self.segment;
    }
}
