//! Fast paths to what most pointers point to.
ghost use Rattle.std.specs.Prelude.{◌≡◌, ◌<◌, ℕ, List, IfSome, Some, slice_get};
ghost use Rattle.std.specs.Option.{ForSome};
ghost use Rattle.capnp_layout.specs.Prelude.{words_of, message_of, IsObject};
ghost use Rattle.capnp_wire.specs.Readers.{pointer_of, IsEntered};
ghost use Rattle.capnp_wire.specs.Views.{HasSegment};

use crate::any_pointer::Reader;
use crate::read_limiter::traversed;
use capnp_frame::message::ReaderSegments;
use capnp_layout::element_size::ElementSize;
use capnp_layout::fast_path::{local_list, local_pointers, local_struct, local_structs};
use capnp_layout::object::Object;
use capnp_layout::place::{Place, word};
use capnp_layout::pointer::list_code;

/// What a view asks for in the segment of the pointer.
#[derive(Clone, Copy)]
pub(crate) enum ObjectKind {
    Numbers(ElementSize),
    Struct,
    Pointers,
    Structs,
}

// Views ask here first. `None` says nothing about what is there; then `enter` finds it.
// Speed: everything is inlined, from `get_as`, `get_pointer`, `get_data_field` and the `get` of
// lists down to the pointer's word. A reader or a result of more than two words would otherwise be
// passed in memory, and where the code is inlined the kind of the object is known
// (`tools/time reading`).

impl<'a, S: ReaderSegments> Reader<'a, S> {
    /// The object of this kind that the pointer points to without a landing pad, counted against
    /// the traversal limit: a fast path. `None` says nothing about what is there, and counts
    /// nothing; then `enter` is asked.
    #[inline(always)]
    pub(crate) fn enter_local(
        &self,
        known: Option<&'a [u8]>,
        kind: ObjectKind,
    ) -> Option<Object<'a>>
        requires { ForSome known (λ segment.
            HasSegment (pointer_of S.segments self.now) (words_of segment.now)) }
        ensures { let pointer = pointer_of S.segments self.now in
            IfSome result (λ object. IsEntered pointer object) }
    {
        let place = self.place?;
        let segment = self.segment_at(known, place)?;
        let object = local_object(segment, place, self.nesting, kind)?;
        match traversed(self.limiter, object.traversed) {
            Ok(()) => Some(object),
            Err(_) => None,
        }
    }

    // The segment of the pointer: the known one, or else the segment of its place.
    #[inline(always)]
    fn segment_at(&self, known: Option<&'a [u8]>, place: Place) -> Option<&'a [u8]>
        requires place { self.now.place ≡ Some place }
        requires known { ForSome known (λ segment.
            HasSegment (pointer_of S.segments self.now) (words_of segment.now)) }
        ensures { IfSome result (λ segment. slice_get (message_of (S.segments self.now.segments.now))
            place.segment ≡ Some (words_of segment.now)) }
    {
        match known {
            Some(segment) => Some(segment),
            None => self.segments.get_segment(place.segment),
        }
    }
}

// The object of this kind that the pointer at a place of this segment points to without a landing
// pad.
// Speed: the size of numbers is tested first, so the compiler knows it in the code after the test
// (`tools/time reading`).
#[inline(always)]
fn local_object(segment: &[u8], place: Place, nesting: u32, kind: ObjectKind) -> Option<Object<'_>>
    ensures { (m : List (List ℕ)) → slice_get m place.segment ≡ Some (words_of segment.now) →
        IfSome result (λ object. IsObject m place object × (0 < nesting)) }
{
    match kind {
        ObjectKind::Numbers(size) => {
            let pointer = word(segment, place.word)?;
            if list_code(pointer) != size.code() {
                return None;
            }
            let list = local_list(segment, place, nesting)?;
            Some(list.object())
        }
        ObjectKind::Struct => {
            let found = local_struct(segment, place, nesting)?;
            Some(found.object())
        }
        ObjectKind::Pointers => {
            let list = local_pointers(segment, place, nesting)?;
            Some(list.object())
        }
        ObjectKind::Structs => {
            let list = local_structs(segment, place, nesting)?;
            Some(list.object())
        }
    }
}
