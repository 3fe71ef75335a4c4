//! Roots that are copied from a message that is read, and values that are set and read back.
ghost use Rattle.std.specs.Prelude.{◌≡◌, ◌⊎◌, false, true, IfOk, IfErr, OnOk, OnErr};
ghost use Rattle.capnp_frame.specs.Prelude.{KeepsLimit, lengths, IsWritable, IsWithinSegmentLimit};
ghost use Rattle.capnp_wire.specs.Prelude.{root, NoWord, HasWords, PointsToTree, WalkErrorFrom, IsTextTree, LongText};
ghost use Rattle.capnp_build.specs.Prelude.{KeepsOthers, IsSet, state_of, IsCleared, IsPut};
ghost use Rattle.capnp_message.specs.Seen.{root_of};
ghost use Rattle.capnp.specs.Prelude.{output_of};
ghost use Rattle.capnp_uses.specs.Roots.{HasRootOf, ReadsWritten, SetRootError, StaysUnset, StaysUnread};

use capnp::message::{Allocator, Builder, Reader, ReaderOptions, ReaderSegments};
use capnp::serialize::{OwnedSegments, Padding};
use capnp::streams::{Format, next_message, write_message};
use capnp::traits::SetterInput;
use capnp::{Error, ErrorKind, Result, any_pointer, text};
use std::alloc::Global;

/// Sets the root to the root tree of a message that is read, an object with all below it.
pub fn copy_root<S: ReaderSegments, A: Allocator>(
    message: &mut Builder<A>,
    reader: &Reader<S>,
) -> Result<()>
    ensures set { OnOk result
        (IsSet (PointsToTree (root_of S.segments reader.now)) false message.new.spaces) }
    ensures placed { OnOk result (IsPut A.Allocator
        (HasWords (PointsToTree (root_of S.segments reader.now)) false) message.old message.new) }
    // The message stays as it was where the root's word can't be read, and else its root is null.
    ensures errors { let pointer = root_of S.segments reader.now in IfErr result (λ error.
        NoWord pointer.message root error.kind × (message.new ≡ message.old)
        ⊎ StaysUnset A.Allocator (PointsToTree pointer) (WalkErrorFrom pointer)
        message.old message.new error.kind) }
{
    let root: any_pointer::Reader<'_, S> = reader.get_root()?;
    message.set_root::<any_pointer::Owned, any_pointer::Reader<'_, S>>(root)
}

/// Sets the root to a text, and returns whether that is what is read there afterwards.
pub fn set_text_is_read_back<A: Allocator>(message: &mut Builder<A>, text: &str) -> Result<bool>
    ensures back { IfOk result (λ same. same ≡ true) }
    ensures set { OnOk result (IsSet (λ trees. IsTextTree text.now trees) false message.new.spaces) }
    ensures cleared { OnErr result (IsCleared A.Allocator message.old message.new) }
    ensures errors { IfErr result (λ error.
        SetRootError A.Allocator (IsTextTree text.now) (LongText text.now)
        message.old message.new error.kind) }
{
    message.set_root::<text::Owned, &str>(text)?;
    let view: text::Reader<'_> = message.get_root_as_reader()?;
    Ok(view.as_bytes() == text.as_bytes())
}

/// Writes a message to a vector, and reads it back: the segments are those that were written.
/// `appended::write_and_read_back` does so with several messages.
///
/// Fails with `InvalidNumberOfSegments` for more than 511 segments, with `MessageTooLarge` past the
/// limit of words, and else with `OutOfMemory` alone.
pub fn write_and_read_back<S: ReaderSegments>(
    alloc: Global,
    format: Format,
    message: &S,
    options: ReaderOptions,
) -> Result<Reader<OwnedSegments>>
    requires { IsWritable (S.segments message.now) }
    ensures { ReadsWritten (S.segments message.now) options (λ reader. reader.segments)
        (λ reader. reader.options) result }
{
    let mut encoding: Vec<u8> = Vec::new(alloc);
    write_message(alloc, &mut encoding, format, message)?;
    let mut source: &[u8] = &encoding;
    match next_message(alloc, &mut source, format, Padding::Zero, options)? {
        Some(reader) => Ok(reader),
        None => Err(Error::from_kind(ErrorKind::PrematureEndOfFile)),
    }
}

/// Sets the root of a message to a value, writes the message to a vector and reads it from there:
/// the root of what is read is the value's tree.
///
/// Fails as `Builder::set_root` does, and then the root is null; or with `InvalidNumberOfSegments`
/// for more than 511 segments, with `MessageTooLarge` past the limit of words, or with
/// `OutOfMemory`, and then the value is the root.
pub fn set_and_read_back<T, V: SetterInput<T> + Drop, A: Allocator>(
    alloc: Global,
    format: Format,
    message: &mut Builder<A>,
    value: V,
    options: ReaderOptions,
) -> Result<Reader<OwnedSegments>>
    ensures tree { IfOk result (λ reader. HasRootOf (V.has_tree value) reader.segments) }
    ensures back { IfOk result (λ reader. reader.segments ≡ output_of message.new) }
    ensures options { IfOk result (λ reader. reader.options ≡ options) }
    ensures few { OnOk result (IsWithinSegmentLimit (output_of message.new)) }
    ensures size { OnOk result (KeepsLimit (lengths (output_of message.new)) options.traversal_limit_in_words) }
    ensures placed { OnOk result
        (IsPut A.Allocator (HasWords (V.has_tree value) false) message.old message.new) }
    // Nothing else is written; the root is null, or the value.
    ensures errors { IfErr result (λ error.
        StaysUnset A.Allocator (V.has_tree value) (V.fails value) message.old message.new error.kind
        ⊎ StaysUnread A.Allocator (V.has_tree value) options.traversal_limit_in_words
        message.old message.new error.kind) }
    ensures others { KeepsOthers A.out (state_of message.old) (state_of message.new) }
{
    message.set_root::<T, V>(value)?;
    write_and_read_back(alloc, format, &message.get_segments_for_output(), options)
}
