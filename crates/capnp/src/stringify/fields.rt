//! Fields of structs: which are shown, and their bits.
ghost use Rattle.std.specs.Prelude.{◌↔◌, ◌%◌, IsTrue};
ghost use Rattle.capnp_wire.specs.Prelude.{struct_of};
ghost use Rattle.capnp.specs.PrintedFields.{IsPointer, IsShown};

use crate::any_struct::StructReader;
use crate::message::ReaderSegments;
use crate::stringify::schema::{Base, Field};

/// Whether a field of a struct is shown; `discriminant` is the offset of its union's number. A
/// member of the union is shown only where it is set, and a null pointer only where it is a member
/// with another number than 0.
pub fn is_shown<S: ReaderSegments>(
    fields: &StructReader<'_, S>,
    discriminant: Option<u32>,
    field: &Field,
) -> bool
    ensures { IsTrue result ↔ IsShown (struct_of S.segments fields.now) discriminant
        field.now.member (IsPointer field.now.of.lists field.now.of.base)
        (field.now.offset % 65536) }
{
    if let Some(number) = field.member
        && let Some(offset) = discriminant
    {
        if fields.get_data_field::<u16>(offset) != number {
            return false;
        }
        if number != 0 {
            return true;
        }
    }
    !field.of.is_pointer() || fields.has_pointer(field.pointer_index())
}
