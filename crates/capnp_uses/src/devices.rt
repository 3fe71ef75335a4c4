//! Messages of devices whose bytes are known, such as cursors and slices.
ghost use Rattle.std.specs.Prelude.{◌≡◌, ◌++◌, map, drop, Some, IsSome, IfSome, IfOk, IfErr};
ghost use Rattle.std.specs.List.{AllByRecursion};
ghost use Rattle.std.specs.Io.Cursor.{cursor_inner, cursor_position, cursor_remaining};
ghost use Rattle.capnp_frame.specs.declared.error.ErrorKind.{ErrorKind};
ghost use Rattle.capnp_frame.specs.declared.serialize.segment_table.Padding.TheVariants.{Zero};
ghost use Rattle.capnp_frame.specs.Prelude.{IfKnown, Fails, next_in};
ghost use Rattle.capnp.specs.Prelude.{unread_of, FoundNext};
ghost use Rattle.capnp_uses.specs.Devices.{ReadsFirst, ReadsAll};

use crate::streaming::next_message;
use capnp::devices::Input;
use capnp::io::BufRead;
use capnp::message::{Reader, ReaderOptions};
use capnp::serialize::OwnedSegments;
use capnp::streams::Format;
use capnp::{Error, ErrorKind, Result};
use std::alloc::Global;
use std::io;

/// What was read of a device, and the device as a source of what follows.
#[derive(Drop)]
pub struct DeviceRead<T, R: io::Read> {
    /// What was read, or why it was not.
    pub read: Result<T>,
    /// What follows. It counts the device's failures, too.
    pub rest: Input<R>,
}

/// The first message of a device, framed or packed, or `None` where the device gives no bytes.
///
/// Fails with `OutOfMemory` alone, for the buffer. The message is read, or not, as by
/// `next_message`.
pub fn first_of_device<R: io::Read + Drop>(
    alloc: Global,
    device: R,
    format: Format,
    options: ReaderOptions,
) -> Result<DeviceRead<Option<Reader<OwnedSegments>>, R>>
    requires { IsSome (R.remaining device) }
    ensures first { IfOk result (λ done. IfSome (R.remaining device)
        (ReadsFirst format options.traversal_limit_in_words
        (next_in (λ reader. reader.segments) done.read))) }
    // Just the message's encoding is consumed.
    ensures rest { IfOk result (λ done. IfOk done.read (λ found. IfSome found (λ reader.
        IfKnown (R.remaining device) (unread_of R.remaining done.rest)
        (FoundNext Zero format options.traversal_limit_in_words reader.segments)))) }
    ensures options { IfOk result (λ done. IfOk done.read (λ found. IfSome found (λ reader.
        reader.options ≡ options))) }
    ensures failed { IfOk result (λ done. IfErr done.read (λ error.
        error.kind ≡ ErrorKind.DeviceFailed → Fails 0 done.rest.failures.count)) }
    ensures memory { IfErr result (λ error. error.kind ≡ ErrorKind.OutOfMemory) }
{
    let mut rest = Input::of_known(alloc, device)?;
    let read = next_message(alloc, &mut rest, format, options);
    Ok(DeviceRead { read, rest })
}

/// The first message from a cursor's position on, or `None` where no byte is there.
///
/// Fails as `first_of_device` does.
pub fn first_of_cursor(
    alloc: Global,
    cursor: io::Cursor<Vec<u8>>,
    format: Format,
    options: ReaderOptions,
) -> Result<DeviceRead<Option<Reader<OwnedSegments>>, io::Cursor<Vec<u8>>>>
    ensures first { IfOk result (λ done. ReadsFirst format options.traversal_limit_in_words
        (next_in (λ reader. reader.segments) done.read)
        (drop (cursor_position cursor) (cursor_inner cursor).items)) }
    // Just the message's encoding is consumed.
    ensures rest { IfOk result (λ done. IfOk done.read (λ found. IfSome found (λ reader.
        IfKnown (Some (drop (cursor_position cursor) (cursor_inner cursor).items))
        (unread_of (cursor_remaining (λ bytes. Some bytes.items)) done.rest)
        (FoundNext Zero format options.traversal_limit_in_words reader.segments)))) }
    ensures options { IfOk result (λ done. IfOk done.read (λ found. IfSome found (λ reader.
        reader.options ≡ options))) }
    ensures failed { IfOk result (λ done. IfErr done.read (λ error.
        error.kind ≡ ErrorKind.DeviceFailed → Fails 0 done.rest.failures.count)) }
    ensures memory { IfErr result (λ error. error.kind ≡ ErrorKind.OutOfMemory) }
{
    first_of_device(alloc, cursor, format, options)
}

/// Every message of a source, framed or packed, in order, up to its end.
///
/// Fails as `next_message` does after the last of them, and with `OutOfMemory`.
pub fn all_of_source<R: BufRead>(
    alloc: Global,
    source: &mut R,
    format: Format,
    options: ReaderOptions,
) -> Result<Vec<Reader<OwnedSegments>>>
    ensures all { IfSome (R.unread source.old) (ReadsAll format options.traversal_limit_in_words
        (λ readers. map (λ reader. reader.segments) readers.items) result) }
    ensures options { IfOk result (λ readers.
        AllByRecursion (λ reader. reader.options ≡ options) readers.items) }
    ensures failed { IfErr result (λ error. error.kind ≡ ErrorKind.DeviceFailed →
        Fails (R.failures source.old) (R.failures source.new)) }
{
    let mut messages = Vec::new(alloc);
    for count in 0..u64::MAX {
        match next_message(alloc, source, format, options)? {
            Some(message) => messages.push(message)?,
            None => return Ok(messages),
        }
    }
    Err(Error::from_kind(ErrorKind::OutOfMemory))
}

/// Every message of a device, framed or packed, in order.
///
/// Fails with `OutOfMemory` alone, for the buffer. The messages are read, or not, as by
/// `all_of_source`.
pub fn all_of_device<R: io::Read + Drop>(
    alloc: Global,
    device: R,
    format: Format,
    options: ReaderOptions,
) -> Result<DeviceRead<Vec<Reader<OwnedSegments>>, R>>
    requires { IsSome (R.remaining device) }
    ensures all { IfOk result (λ done. IfSome (R.remaining device)
        (ReadsAll format options.traversal_limit_in_words
        (λ readers. map (λ reader. reader.segments) readers.items) done.read)) }
    ensures options { IfOk result (λ done. IfOk done.read (λ readers.
        AllByRecursion (λ reader. reader.options ≡ options) readers.items)) }
    ensures failed { IfOk result (λ done. IfErr done.read (λ error.
        error.kind ≡ ErrorKind.DeviceFailed → Fails 0 done.rest.failures.count)) }
    ensures memory { IfErr result (λ error. error.kind ≡ ErrorKind.OutOfMemory) }
{
    let mut source = Input::of_known(alloc, device)?;
    let read = all_of_source(alloc, &mut source, format, options);
    Ok(DeviceRead { read, rest: source })
}

/// Every message of a stream that lies in two parts. The first part may end within a message.
///
/// Fails as `all_of_device` does.
pub fn all_of_parts<'a>(
    alloc: Global,
    first: &'a [u8],
    second: &'a [u8],
    format: Format,
    options: ReaderOptions,
) -> Result<DeviceRead<Vec<Reader<OwnedSegments>>, io::Chain<&'a [u8], &'a [u8]>>>
    ensures all { IfOk result (λ done. ReadsAll format options.traversal_limit_in_words
        (λ readers. map (λ reader. reader.segments) readers.items) done.read
        (first.now ++ second.now)) }
    ensures options { IfOk result (λ done. IfOk done.read (λ readers.
        AllByRecursion (λ reader. reader.options ≡ options) readers.items)) }
    ensures failed { IfOk result (λ done. IfErr done.read (λ error.
        error.kind ≡ ErrorKind.DeviceFailed → Fails 0 done.rest.failures.count)) }
    ensures memory { IfErr result (λ error. error.kind ≡ ErrorKind.OutOfMemory) }
{
    all_of_device(alloc, io::Read::chain(first, second), format, options)
}
