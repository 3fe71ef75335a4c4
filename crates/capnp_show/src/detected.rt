//! Whether the messages of an input are packed, by the bytes at its front.
ghost use Rattle.std.specs.Prelude.{◌≡◌, ◌≢◌, IfOk, IfErr, MatchResult};
ghost use Rattle.std.specs.Io.KnownBytes.{IsAtEnd};
ghost use Rattle.std.specs.IoError.{error_kind};
ghost use Rattle.std.specs.declared.io.Error.{Error};
ghost use Rattle.std.specs.declared.io.ErrorKind.TheVariants.{Interrupted};
ghost use Rattle.capnp_show.specs.declared.detected.Look.TheVariants.{More};
ghost use Rattle.capnp_show.specs.Fronts.{Says, Takes, TellsFormat};

use capnp::ErrorKind;
use capnp::message::ReaderOptions;
use capnp::serialize::NoAllocBufferSegments;
use capnp::streams::Format;
use std::alloc::AllocError;
use std::io;
use std::io::Read;

/// How many bytes are enough to decide; a whole segment table has fewer.
const FRONT_BYTES: usize = 4096;

/// What the bytes at the front of an input say.
#[derive(Clone, Copy)]
pub enum Look {
    Is(Format),
    /// Nothing yet: they end within what may be a framed message.
    More,
}

/// What the bytes at the front of an input say. It is framed where they are a segment table whose
/// segments are within the limit of words, and are there or may follow.
pub fn look_at(front: &[u8], limits: ReaderOptions) -> Look
    ensures { Says FRONT_BYTES limits.traversal_limit_in_words front.now result }
{
    match NoAllocBufferSegments::from_buffer(front, limits) {
        Ok(_) => Look::Is(Format::Framed),
        Err(error) => match error.kind {
            ErrorKind::EmptyBuffer | ErrorKind::MessageEndsPrematurely(_, _) => {
                if front.len() < FRONT_BYTES {
                    Look::More
                } else {
                    Look::Is(Format::Framed)
                }
            }
            _ => Look::Is(Format::Packed),
        },
    }
}

/// Reads bytes of a device into `front` until they say which format its messages have, or the
/// device ends. Returns the device's error where it fails before that. An interrupted read is tried
/// again. Bytes that begin a framed message within the limit of words are framed, even where they
/// end too early; only bytes that begin none are packed.
pub fn detect<D: Read>(
    device: &mut D,
    front: &mut Vec<u8>,
    limits: ReaderOptions,
) -> Result<io::Result<Format>, AllocError>
    ensures taken { IfOk result (λ _. Takes front.old.items front.new.items
        (D.remaining device.old) (D.remaining device.new)) }
    ensures told { IfOk result (λ found. MatchResult found
        (TellsFormat FRONT_BYTES limits.traversal_limit_in_words front.new.items
        (D.remaining device.new))
        (λ _. Says FRONT_BYTES limits.traversal_limit_in_words front.new.items More)) }
    ensures retried { IfOk result (λ found. IfErr found (λ error. error_kind error ≢ Interrupted)) }
{
    for _ in 0..u64::MAX {
        if let Look::Is(format) = look_at(front.as_slice(), limits) {
            return Ok(Ok(format));
        }
        match take_part(device, front)? {
            Part::Bytes => {}
            Part::End => return Ok(Ok(Format::Framed)),
            Part::Failure(error) => return Ok(Err(error)),
        }
    }
    match look_at(front.as_slice(), limits) {
        Look::Is(format) => Ok(Ok(format)),
        Look::More => Ok(Err(io::Error::from(io::ErrorKind::TimedOut))),
    }
}

// What one read of a device returns.
#[derive(Clone, Copy)]
enum Part {
    /// Some bytes, or none yet.
    Bytes,
    End,
    /// No bytes, for this reason, which is no interruption.
    Failure(io::Error),
}

// Reads what a device has at once into `front`.
fn take_part<D: Read>(device: &mut D, front: &mut Vec<u8>) -> Result<Part, AllocError>
    ensures taken { IfOk result (λ _. Takes front.old.items front.new.items
        (D.remaining device.old) (D.remaining device.new)) }
    ensures end { IfOk result (λ part. part ≡ Part.End →
        (front.new.items ≡ front.old.items) × IsAtEnd (D.remaining device.new)) }
    ensures failure { IfOk result (λ part. (error : Error) → part ≡ Part.Failure error →
        front.new.items ≡ front.old.items) }
    ensures retried { IfOk result (λ part. (error : Error) → part ≡ Part.Failure error →
        error_kind error ≢ Interrupted) }
{
    let mut part = [0; FRONT_BYTES];
    match device.read(&mut part) {
        Ok(0) => Ok(Part::End),
        Ok(count) => {
            front.extend_from_slice(&part[..count])?;
            Ok(Part::Bytes)
        }
        Err(error) => {
            if error.kind() == io::ErrorKind::Interrupted {
                Ok(Part::Bytes)
            } else {
                Ok(Part::Failure(error))
            }
        }
    }
}
