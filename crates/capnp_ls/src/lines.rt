//! The lines for messages, whose segments are skipped.
ghost use Rattle.std.specs.Prelude.{◌≡◌, ◌<◌, ◌⊎◌, ◌^◌, [], length, OnOk, OnErr, IfErr};
ghost use Rattle.capnp.specs.Prelude.{ErrorKind, IfKnown, Fails, Adds, Grows, SkipsMessage, ReadsStream, default_limit, skipping_rules_of, WritesEach};
ghost use Rattle.capnp_ls.specs.declared.command.Command.{Command};
ghost use Rattle.capnp_ls.specs.Output.{line_of, Prints, PrintedErrors};

use crate::command::Command;
use crate::listing::write_line;
use capnp::io::{BufRead, Write};
use capnp::message::DEFAULT_READER_OPTIONS;
use capnp::serialize::{Padding, SegmentLengthsBuilder};
use capnp::streams::{FailedAt, Format};
use capnp::{Result, serialize, serialize_packed};
use std::alloc::Global;

/// Prints the line for each message of the source, of this format and read by this rule of padding,
/// until none is left. A line needs only the lengths of the segments, so each message is skipped.
pub fn list_each<R: BufRead, W: Write>(
    alloc: Global,
    source: &mut R,
    sink: &mut W,
    format: Format,
    padding: Padding,
) -> std::result::Result<(), FailedAt>
    ensures { WritesEach R.Read source.old source.new W.Write sink.old sink.new padding format
        default_limit (Prints (Command.Listing format padding) W.appends)
        (PrintedErrors (Command.Listing format padding) W.appends W.leaves W.refuses) result }
{
    let mut spare = SegmentLengthsBuilder::empty(alloc);
    let mut line = Vec::new(alloc);
    for message in 0..u64::MAX {
        let lengths = match skip_next(source, format, padding, spare) {
            Ok(Some(lengths)) => lengths,
            Ok(None) => return Ok(()),
            Err(error) => return Err(FailedAt { message, error }),
        };
        match print_line(sink, message, &lengths, &mut line) {
            Ok(()) => spare = lengths,
            Err(error) => return Err(FailedAt { message, error }),
        }
    }
    Ok(())
}

// Skips the next message of this format, by this rule of padding, and returns the lengths of its
// segments.
fn skip_next<R: BufRead>(
    source: &mut R,
    format: Format,
    padding: Padding,
    spare: SegmentLengthsBuilder,
) -> Result<Option<SegmentLengthsBuilder>>
    ensures { SkipsMessage (ReadsStream R.Read source.old source.new
        (skipping_rules_of padding format (length spare)) default_limit) result }
{
    let options = DEFAULT_READER_OPTIONS;
    match format {
        Format::Framed => serialize::try_skip_message(source, padding, options, spare),
        Format::Packed => serialize_packed::try_skip_message(source, padding, options, spare),
    }
}

// Prints the line for a message of these lengths. The line is made in `line`.
fn print_line<W: Write>(
    sink: &mut W,
    index: u64,
    lengths: &SegmentLengthsBuilder,
    line: &mut Vec<u8>,
) -> Result<()>
    requires { length lengths.now < 2 ^ 32 }
    ensures written { OnOk result (IfKnown (W.written sink.old) (W.written sink.new)
        (Adds (W.appends (line_of index lengths.now)))) }
    ensures errors { IfErr result (λ error. (error.kind ≡ ErrorKind.DeviceFailed)
        ⊎ (error.kind ≡ ErrorKind.OutOfMemory) ⊎ W.refuses (line_of index lengths.now) error.kind) }
    ensures left { OnErr result (IfKnown (W.written sink.old) (W.written sink.new)
        (Adds (λ part. (part ≡ []) ⊎ W.leaves (line_of index lengths.now) part))) }
    ensures untouched { IfErr result (λ error. (error.kind ≡ ErrorKind.DeviceFailed)
        ⊎ W.refuses (line_of index lengths.now) error.kind ⊎ (sink.new ≡ sink.old)) }
    ensures failed { IfErr result (λ error. error.kind ≡ ErrorKind.DeviceFailed →
        Fails (W.failures sink.old) (W.failures sink.new)) }
    ensures grows { Grows W.written W.failures W.same sink.old sink.new }
{
    write_line(line, index, lengths)?;
    sink.write_all(line)
}
