//! Flags that are given instead of a command, and print what the program is.
ghost use Rattle.std.specs.Prelude.{◌≡◌, ◌⊎◌, map, string_bytes, IfSome, IfNone, IfErr, OnOk};
ghost use Rattle.capnp.specs.Prelude.{ErrorKind, Fails, IfKnown, Adds, Grows};
ghost use Rattle.capnp_ls.specs.declared.flags.Flag.{Flag};
ghost use Rattle.capnp_ls.specs.Flags.{IsFlag, lines_of};

use capnp::Result;
use capnp::io::Write;

/// What `--help` prints. The manual's page is made from it, too.
pub const HELP: &str = "Lists and converts the messages of Cap'n Proto that come on standard input

Usage: capnp_ls COMMAND [OPTIONS]

Commands:
  list [--packed] [--lenient]  Print of each message a line: its index, how many segments it has,
                               its words in all, and the words of each segment
  pack [--lenient]             Write each message packed
  unpack [--lenient]           Write each packed message framed
  canon [--packed]             Write the canonical form of each message, framed
  help                         Print help

Options:
      --packed   The messages are packed
      --lenient  Take any padding; else it has to be zero
  -h, --help     Print help
  -V, --version  Print version

Exit status:
  0  Each message was read, and what the command prints is written
  1  A message is refused, a device fails, or memory runs out: standard error has the message's
     index and the reason. Error 8 is a message of more than 64 MiB: capnp_show --words N reads
     it, and with --pack or --unpack converts it
  2  The words are no command
";

/// What `--version` prints.
pub const VERSION: &str = "capnp_ls 0.1.0\n";

/// A flag, which is given alone, instead of a command.
#[derive(Clone, Copy)]
pub enum Flag {
    /// `--help`, `-h` and `help`: what the program does, its commands and their options.
    Help,
    /// `--version`, and `-V`: the program's name and version.
    Version,
}

impl Flag {
    /// The flag that these words, which follow the program's name, stand for.
    pub fn from_words(words: &[String]) -> Option<Flag>
        ensures some { IfSome result (λ flag. IsFlag flag (map string_bytes words.now)) }
        ensures none { IfNone result
            ((flag : Flag) → IsFlag flag (map string_bytes words.now) → ⊥) }
    {
        let [word] = words else {
            return None;
        };
        match word.as_str() {
            "--help" | "-h" | "help" => Some(Flag::Help),
            "--version" | "-V" => Some(Flag::Version),
            _ => None,
        }
    }

    /// What it prints.
    fn lines(self) -> &'static str
        ensures { result.now ≡ lines_of self }
    {
        match self {
            Flag::Help => HELP,
            Flag::Version => VERSION,
        }
    }
}

/// Writes what a flag prints, in one chunk.
pub fn print_flag<W: Write>(flag: Flag, sink: &mut W) -> Result<()>
    ensures lines { OnOk result (IfKnown (W.written sink.old) (W.written sink.new)
        (Adds (W.appends (lines_of flag)))) }
    ensures failed { IfErr result (λ error. error.kind ≡ ErrorKind.DeviceFailed →
        Fails (W.failures sink.old) (W.failures sink.new)) }
    ensures errors { IfErr result (λ error. (error.kind ≡ ErrorKind.DeviceFailed)
        ⊎ W.refuses (lines_of flag) error.kind) }
    ensures grows { Grows W.written W.failures W.same sink.old sink.new }
{
    sink.write_all(flag.lines().as_bytes())
}
