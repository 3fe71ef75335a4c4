//! A struct that is built, written packed, and read back.
ghost use Rattle.std.specs.Prelude.{◌≡◌, ◌⊎◌, ◌<◌, ◌∷◌, [], ℕ, List, length, OnOk, IfOk, IfErr};
ghost use Rattle.capnp_frame.specs.declared.error.ErrorKind.{ErrorKind};
ghost use Rattle.capnp_frame.specs.Prelude.{KeepsLimit, default_limit, lengths, IsWritable, IsWithinSegmentLimit, SegmentCountError};
ghost use Rattle.capnp_wire.specs.Prelude.{struct};
ghost use Rattle.capnp.specs.Prelude.{IsPackedEncodingOf, output_of};
ghost use Rattle.capnp_uses.specs.Reading.{ShowsPackedStruct};
ghost use Rattle.capnp_uses.specs.Roots.{HasPlainRoot, HasRootForm, RootRoomError, PackedStructError};

use crate::building::write_struct;
use capnp::any_struct::StructReader;
use capnp::message::{Allocator, Builder, DEFAULT_READER_OPTIONS};
use capnp::serialize::OwnedSegments;
use capnp::{Result, serialize_packed};
use std::alloc::Global;

/// Makes a struct of two words the root of a message, writes the message packed, and reads the
/// words back.
pub fn a_struct_is_read_packed<A: Allocator>(
    alloc: Global,
    message: &mut Builder<A>,
    first: u64,
    second: u64,
) -> Result<(u64, u64)>
    ensures has_root { OnOk result (HasRootForm message.new.spaces (struct (first ∷ second ∷ []))) }
    ensures back { IfOk result (λ read. read ≡ (first, second)) }
    ensures errors { IfErr result (λ error. SegmentCountError (output_of message.new) error.kind
        ⊎ (error.kind ≡ ErrorKind.OutOfMemory)
        ⊎ RootRoomError A.Allocator (struct (0 ∷ 0 ∷ [])) message.old error.kind
        ⊎ ((encoding : List ℕ) × IsPackedEncodingOf (output_of message.new) encoding
        × PackedStructError encoding error.kind)) }
{
    write_struct(message, first, second)?;
    let encoding = packed_encoding(alloc, message)?;
    read_packed_words(alloc, &encoding)
}

/// The packed encoding of a message that is built, which must have a segment. The message has no
/// more segments than a reader accepts, so `read_packed_words` finds it within the limit of words.
pub fn packed_encoding<A: Allocator>(alloc: Global, message: &Builder<A>) -> Result<Vec<u8>>
    requires { 0 < length message.now.spaces }
    ensures packed { IfOk result (λ encoding. IsWritable (output_of message.now)
        × IsWithinSegmentLimit (output_of message.now)
        × IsPackedEncodingOf (output_of message.now) encoding.items) }
    ensures errors { IfErr result (λ error. SegmentCountError (output_of message.now) error.kind
        ⊎ (error.kind ≡ ErrorKind.OutOfMemory)) }
{
    let output = message.get_segments_for_output();
    let mut encoding = Vec::new(alloc);
    serialize_packed::write_message_segments(alloc, &mut encoding, &output)?;
    Ok(encoding)
}

/// The first two data words of the struct at the root of a packed message; 0 past its last one, and
/// for null.
pub fn read_packed_words(alloc: Global, encoding: &[u8]) -> Result<(u64, u64)>
    ensures words { (message : List (List ℕ)) (first second : ℕ) → IsWritable message →
        IsPackedEncodingOf message encoding.now → HasPlainRoot message (struct (first ∷ second ∷ [])) →
        IfOk result (λ read. read ≡ (first, second)) }
    // Else it returns words only of what is there.
    ensures is_found { IfOk result (λ read. ShowsPackedStruct encoding.now read) }
    // It succeeds, unless it is out of memory or the traversal limit is met.
    ensures found { (message : List (List ℕ)) (first second : ℕ) → IsWritable message →
        IsWithinSegmentLimit message → KeepsLimit (lengths message) default_limit →
        IsPackedEncodingOf message encoding.now → HasPlainRoot message (struct (first ∷ second ∷ [])) →
        IfErr result (λ error. (error.kind ≡ ErrorKind.OutOfMemory)
        ⊎ (error.kind ≡ ErrorKind.ReadLimitExceeded)) }
    ensures errors { IfErr result (λ error. PackedStructError encoding.now error.kind) }
{
    let mut source = encoding;
    let message = serialize_packed::read_message(alloc, &mut source, DEFAULT_READER_OPTIONS)?;
    let fields: StructReader<'_, OwnedSegments> = message.get_root()?;
    Ok((fields.get_word(0), fields.get_word(1)))
}
