//! A list of structs, read by their fields: the entries of a ledger.
//!
//! `struct Entry { amount @0 :Int32; paid @1 :Bool = true; note @2 :Text; }` has one data word, in
//! which the amount is in the low four bytes and `paid` in the bit after them, and one pointer
//! (Cap'n Proto's encoding, "Structs" and "Lists").
ghost use Rattle.std.specs.Prelude.{◌≡◌, ◌<◌, ◌≤◌, ◌==◌, length, bit_xor, MatchOption, MatchResult};
ghost use Rattle.std.specs.Int.{w32, cast_signed};
ghost use Rattle.capnp_wire.specs.Prelude.{field, struct_list_of, element_of, IsText, Reads, ViewError, TextFormError, pointer_in};

use capnp::message::ReaderSegments;
use capnp::{Result, struct_list, text};

/// The amount of an entry, where there is such an entry.
pub fn amount_of<S: ReaderSegments>(entries: &struct_list::Reader<'_, S>, index: u32) -> Option<i32>
    ensures { let list = struct_list_of S.segments entries.now in MatchOption result
        (length list.elements ≤ index) (λ amount. (index < length list.elements)
        × (amount ≡ cast_signed w32 (field (element_of list index).words 32 0))) }
{
    if index >= entries.len() {
        return None;
    }
    Some(entries.get(index).get_data_field(0))
}

/// Whether an entry is paid: true where an older writer left the field out, since the data section
/// has the bit XORed with the default.
pub fn is_paid<S: ReaderSegments>(entries: &struct_list::Reader<'_, S>, index: u32) -> bool
    requires { index < length (struct_list_of S.segments entries.now).elements }
    ensures { let entry = element_of (struct_list_of S.segments entries.now) index in
        result ≡ (bit_xor (field entry.words 1 32) 1 == 1) }
{
    entries.get(index).get_data_field_mask(32, true)
}

/// The note of an entry; empty where its pointer is null.
pub fn note_of<'a, S: ReaderSegments>(
    entries: &struct_list::Reader<'a, S>,
    index: u32,
) -> Result<text::Reader<'a>>
    requires { index < length (struct_list_of S.segments entries.now).elements }
    ensures { let entry = element_of (struct_list_of S.segments entries.now) index in
        MatchResult result (λ note. Reads (pointer_in entry 0) (λ form. IsText form note.bytes.now))
        (λ error. ViewError (pointer_in entry 0) TextFormError error.kind) }
{
    entries.get(index).get_pointer(0).get_as()
}
