//! Readers of `Data`.
ghost use Rattle.std.specs.Prelude.{◌+◌, ◌/◌, ◌≤◌, length, MatchResult};
ghost use Rattle.std.specs.Option.{ForSome};
ghost use Rattle.capnp_layout.specs.Prelude.{words_of, room_of};
ghost use Rattle.capnp_wire.specs.Views.{HasSegment, IsViewOf, Accepts, Reads, ViewError, FormError, IsData, TakesNumbers, NumbersFormError};
ghost use Rattle.capnp_wire.specs.Readers.{pointer_of, form_of};

use crate::any_pointer;
use crate::any_pointer::ObjectKind;
use crate::object_content::object_bytes;
use crate::object_view::{ObjectView, read};
use crate::traits::{FromPointerInSegment, FromPointerReader};
use capnp_frame::Result;
use capnp_frame::message::ReaderSegments;
use capnp_layout::element_size::ElementSize;
use capnp_layout::object::Object;

/// The bytes of a `Data` in a message.
///
/// ```
/// let key: data::Reader<'_> = message.get_root()?;
/// assert_eq!(rt; key, [0, 15, 240, 171].as_slice());
/// ```
pub type Reader<'a> = &'a [u8];

// Null is empty; a list of bytes shows its bytes; any other object fails with `WrongPointerKind`.
impl<'a: 'v, 'v, S: ReaderSegments> FromPointerReader<'a, S> for &'v [u8] {
    ghost shows = { λ pointer view. Reads pointer (λ form. IsData form view.now) };

    ghost accepts = { λ pointer. Accepts pointer (TakesNumbers 2) };

    ghost fails = { λ pointer kind. ViewError pointer (NumbersFormError 2) kind };

    ghost form_error = { λ pointer kind. FormError pointer (NumbersFormError 2) kind };

    #[inline(always)]
    fn get_from_pointer(reader: any_pointer::Reader<'a, S>) -> Result<Self>
        ensures { let pointer = pointer_of S.segments reader.entry in IsViewOf pointer
            (λ view. Reads pointer (λ form. IsData form view.now))
            (Accepts pointer (TakesNumbers 2)) (ViewError pointer (NumbersFormError 2))
            (FormError pointer (NumbersFormError 2)) result }
    {
        read(&reader, None)
    }
}

impl<'a: 'v, 'v, S: ReaderSegments> FromPointerInSegment<'a, S> for &'v [u8] {
    #[inline(always)]
    fn get_from_segment(reader: any_pointer::Reader<'a, S>, segment: &'a [u8]) -> Result<Self>
        requires { HasSegment (pointer_of S.segments reader) (words_of segment.now) }
        ensures { let pointer = pointer_of S.segments reader.entry in IsViewOf pointer
            (λ view. Reads pointer (λ form. IsData form view.now))
            (Accepts pointer (TakesNumbers 2)) (ViewError pointer (NumbersFormError 2))
            (FormError pointer (NumbersFormError 2)) result }
    {
        read(&reader, Some(segment))
    }
}

impl<'a: 'v, 'v, S: ReaderSegments> ObjectView<'a, S> for &'v [u8] {
    ghost use Rattle.std.proofs.Common.{inl};

    ghost shows = { λ pointer view. Reads pointer (λ form. IsData form view.now) };

    ghost fails = { λ pointer kind. ViewError pointer (NumbersFormError 2) kind };

    #[inline(always)]
    fn kind() -> ObjectKind {
        ObjectKind::Numbers(ElementSize::Byte)
    }

    #[inline(always)]
    fn of_null(_reader: &any_pointer::Reader<'a, S>) -> Self {
        &[]
    }

    #[inline(always)]
    fn of_object(_reader: &any_pointer::Reader<'a, S>, object: &Object<'a>) -> Result<Self> {
        bytes_in(object)
    }

    ghost unread = { λ pointer kind error. inl error };
}

// The bytes of an object that is a list of bytes.
#[inline(always)]
fn bytes_in<'a>(object: &Object<'a>) -> Result<&'a [u8]>
    requires { object.now.start.word + room_of object.now.body
        ≤ length object.now.segment.now / 8 }
    ensures { MatchResult result (λ bytes. IsData (form_of object.now) bytes.now)
        (λ error. NumbersFormError 2 (form_of object.now) error.kind) }
{
    let bytes = object_bytes(object)?;
    Ok(bytes)
}
