//! Views of one kind of object, and how each is read from a pointer.
ghost use Rattle.std.specs.Prelude.{MatchResult};
ghost use Rattle.std.specs.Option.{ForSome};
ghost use Rattle.capnp_frame.specs.declared.error.ErrorKind.{ErrorKind};
ghost use Rattle.capnp_layout.specs.Prelude.{words_of, nothing};
ghost use Rattle.capnp_wire.specs.Views.{Pointer, Denotes, HasSegment, ObjectError};
ghost use Rattle.capnp_wire.specs.Readers.{pointer_of, IsEntered};

use crate::any_pointer;
use crate::any_pointer::ObjectKind;
use crate::object_content::by_value;
use capnp_frame::Result;
use capnp_frame::message::ReaderSegments;
use capnp_layout::object::Object;

/// A view of one kind of object, as `text::Reader` is a view of a list of bytes.
pub(crate) trait ObjectView<'a, S: ReaderSegments>: Sized {
    /// The view shows what the pointer points to, as `FromPointerReader` has it.
    ghost shows: { Pointer → Self → Type 0 };

    /// With which errors a view fails, as `FromPointerReader` has them.
    ghost fails: { Pointer → ErrorKind → Type 0 };

    /// The kind of object that is looked for in the segment of the pointer.
    fn kind() -> ObjectKind;

    /// The view of null.
    fn of_null(reader: &any_pointer::Reader<'a, S>) -> Self
        requires { Denotes (pointer_of S.segments reader.now) nothing }
        ensures { shows (pointer_of S.segments reader.now) result };

    /// The view of an object.
    fn of_object(reader: &any_pointer::Reader<'a, S>, object: &Object<'a>) -> Result<Self>
        requires { IsEntered (pointer_of S.segments reader.now) object.now }
        ensures { let pointer = pointer_of S.segments reader.now in MatchResult result
            (λ view. shows pointer view) (λ error. fails pointer error.kind) };

    /// A pointer that can't be read fails with an error that `fails` names.
    ghost unread: { (pointer : Pointer) (kind : ErrorKind) → ObjectError pointer kind →
        fails pointer kind };
}

/// The view of what a pointer points to: the object that the fast path finds, or else what `enter`
/// finds.
#[inline(always)]
pub(crate) fn read<'a, S: ReaderSegments, V: ObjectView<'a, S>>(
    reader: &any_pointer::Reader<'a, S>,
    known: Option<&'a [u8]>,
) -> Result<V>
    requires { ForSome known (λ segment.
        HasSegment (pointer_of S.segments reader.now) (words_of segment.now)) }
    ensures { let pointer = pointer_of S.segments reader.now in MatchResult result
        (λ view. V.shows pointer view) (λ error. V.fails pointer error.kind) }
{
    match reader.enter_local(known, V::kind()) {
        Some(object) => V::of_object(reader, &object),
        None => by_value(enter(&reader.copied())),
    }
}

// The view of what a pointer points to, wherever that is.
// Speed: a function of its own, so `read` knows the kind of the fast path's object
// (`tools/time reading`).
#[inline(never)]
fn enter<'a, S: ReaderSegments, V: ObjectView<'a, S>>(
    reader: &any_pointer::Reader<'a, S>,
) -> Result<V>
    ensures { let pointer = pointer_of S.segments reader.now in MatchResult result
        (λ view. V.shows pointer view) (λ error. V.fails pointer error.kind) }
{
    match reader.enter()? {
        Some(object) => V::of_object(reader, &object),
        None => Ok(V::of_null(reader)),
    }
}
