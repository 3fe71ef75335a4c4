//! Messages that are written one after the other, and read back.
ghost use Rattle.std.specs.Prelude.{map};
ghost use Rattle.std.specs.List.{AllByRecursion};
ghost use Rattle.capnp_frame.specs.Prelude.{KeepsLimit, lengths, IsWritable};
ghost use Rattle.capnp_uses.specs.Appended.{ReadsBack};

use capnp::Result;
use capnp::message::{Reader, ReaderOptions, ReaderSegments};
use capnp::serialize::{OwnedSegments, Padding};
use capnp::streams::{Format, next_message, read_messages, write_messages};
use std::alloc::Global;

/// What was written of messages, and what was read back.
#[derive(Drop)]
pub struct ReadBack {
    /// The encodings of the messages, one after the other, in bytes.
    pub encodings: Vec<u8>,
    /// The messages that were read back, as many as were written.
    pub readers: Vec<Reader<OwnedSegments>>,
    /// What was read after them.
    pub end: Option<Reader<OwnedSegments>>,
}

/// Writes messages to a vector, one after the other, and reads them back: as many as were written,
/// and then what follows them. `roots::write_and_read_back` does so with one message.
///
/// Fails with `InvalidNumberOfSegments` for a message of more than 511 segments, and else with
/// `OutOfMemory` alone.
pub fn write_and_read_back<S: ReaderSegments>(
    alloc: Global,
    format: Format,
    messages: &[S],
    options: ReaderOptions,
) -> Result<ReadBack>
    requires writable { AllByRecursion IsWritable (map S.segments messages.now) }
    requires size { AllByRecursion (λ m. KeepsLimit (lengths m) options.traversal_limit_in_words)
        (map S.segments messages.now) }
    ensures { ReadsBack format options (map S.segments messages.now) (λ done. done.encodings.items)
        (λ done. done.readers.items) (λ done. done.end)
        (λ reader. reader.segments) (λ reader. reader.options) result }
{
    let mut encodings: Vec<u8> = Vec::new(alloc);
    write_messages(alloc, &mut encodings, format, messages)?;
    let mut source: &[u8] = &encodings;
    let readers = read_messages(alloc, &mut source, format, messages.len(), options)?;
    let end = next_message(alloc, &mut source, format, Padding::Zero, options)?;
    Ok(ReadBack {
        encodings,
        readers,
        end,
    })
}
