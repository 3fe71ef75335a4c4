//! What the program does, over any source and sink.
ghost use Rattle.std.specs.Prelude.{◌≡◌, ◌⊎◌, ◌↔◌, map, string_bytes, IsErrOf};
ghost use Rattle.capnp.specs.Prelude.{WritesEach, default_limit};
ghost use Rattle.capnp_ls.specs.declared.command.Command.{Command};
ghost use Rattle.capnp_ls.specs.Commands.{IsCommand, command_input, padding_of};
ghost use Rattle.capnp_ls.specs.Output.{Prints, PrintedErrors};
ghost use Rattle.capnp_ls.specs.Runs.{ForCommand};

use crate::canonical::CanonicalForm;
use crate::command::Command;
use crate::lines::list_each;
use crate::stop::Stop;
use capnp::io::{BufRead, Write};
use capnp::message::DEFAULT_READER_OPTIONS;
use capnp::serialize::{Padding, TableRules};
use capnp::streams::{FailedAt, write_each_message};
use std::alloc::Global;

/// Runs the command that these words stand for: reads the messages of `source`, and writes what the
/// command prints for each of them to `sink`.
///
/// `list` writes a line for each message, `pack` and `unpack` write its encoding in the other
/// format, `canon` its canonical form, framed. All accept only zero padding, except `list`, `pack`
/// and `unpack` with `--lenient`, which accept any. A run takes at most 2^64 - 1 messages, and
/// leaves the rest unread.
pub fn run<R: BufRead, W: Write>(
    alloc: Global,
    words: &[String],
    source: &mut R,
    sink: &mut W,
) -> std::result::Result<(), Stop>
    // For other words nothing is read, and nothing written.
    ensures usage { IsErrOf result Stop.Usage
        ↔ ((command : Command) → IsCommand command (map string_bytes words.now) → ⊥) }
    ensures untouched { IsErrOf result Stop.Usage
        → (source.new ≡ source.old) × (sink.new ≡ sink.old) }

    // For the words of a command: what it reads and writes, and where it stops.
    ensures reported { IsErrOf result Stop.Usage
        ⊎ ((command : Command) × IsCommand command (map string_bytes words.now)) }
    ensures runs { (command : Command) → IsCommand command (map string_bytes words.now) →
        ForCommand (WritesEach R.Read source.old source.new W.Write sink.old sink.new
        (padding_of command) (command_input command) default_limit (Prints command W.appends)
        (PrintedErrors command W.appends W.leaves W.refuses)) result }
{
    let Some(command) = Command::from_words(words) else {
        return Err(Stop::Usage);
    };
    match print_each(alloc, source, sink, command) {
        Ok(()) => Ok(()),
        Err(FailedAt { message, error }) => Err(Stop::Refused { message, error }),
    }
}

// Prints what the command prints for the messages of the source, until none is left.
fn print_each<R: BufRead, W: Write>(
    alloc: Global,
    source: &mut R,
    sink: &mut W,
    command: Command,
) -> std::result::Result<(), FailedAt>
    ensures { WritesEach R.Read source.old source.new W.Write sink.old sink.new
        (padding_of command) (command_input command) default_limit (Prints command W.appends)
        (PrintedErrors command W.appends W.leaves W.refuses) result }
{
    let options = DEFAULT_READER_OPTIONS;
    match command {
        Command::Listing(format, padding) => list_each(alloc, source, sink, format, padding),
        Command::Transcoding(way, padding) => {
            let rules = TableRules::new(padding, options);
            write_each_message(alloc, source, sink, way.input(), rules, &way)
        }
        Command::Canonical(format) => {
            let rules = TableRules::new(Padding::Zero, options);
            write_each_message(alloc, source, sink, format, rules, &CanonicalForm)
        }
    }
}
