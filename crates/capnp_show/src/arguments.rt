//! The words that the program takes.
ghost use Rattle.std.specs.Prelude.{◌≡◌, Some, codes};
ghost use Rattle.clap.specs.Words.{found_of};
ghost use Rattle.capnp_show.specs.Arguments.{AsksFlag, AsksFirst, AsksForm, AsksLimits, AsksReading};

use crate::settings::{Form, Reading, Settings};
use capnp::Way;
use capnp::message::{DEFAULT_READER_OPTIONS, ReaderOptions};
use clap::builder::ValueParser;
use clap::{Arg, ArgAction, ArgMatches, Command};
use std::alloc::{AllocError, Global};

/// The version of the program.
pub const VERSION: &str = "0.1.0";

const ABOUT: &str = "Shows the Cap'n Proto messages of files, without a schema";

const EXAMPLES: &str = "Examples:
  capnp_show log                     a line for each message of the file log
  capnp_show --packed --tree < log   its objects, of packed messages
  capnp_show --hash a b              the SHA-256 of each canonical form
  capnp_show --json --first 1 log    the first message, as a JSON object
  capnp_show --html log > log.html   a page with a drawing of each message
  capnp_show --pack --words 99999999 log > log.packed   messages of over 64 MiB, too, packed";

// A flag: its name, what the help says of it, and the arguments that it can't be given with.
struct FlagEntry {
    name: &'static str,
    help: &'static str,
    conflicts: &'static [&'static str],
}

// What is read, and in which form it is shown.
const FLAGS: [FlagEntry; 9] = [
    FlagEntry {
        name: "packed",
        help: "The messages are packed",
        conflicts: &[],
    },
    FlagEntry {
        name: "detect",
        help: "Tell by the first bytes whether they are packed",
        conflicts: &["packed"],
    },
    FlagEntry {
        name: "hash",
        help: "Show the SHA-256 of each canonical form",
        conflicts: &[],
    },
    FlagEntry {
        name: "tree",
        help: "Show the objects of each message",
        conflicts: &[],
    },
    FlagEntry {
        name: "json",
        help: "Show each message as a JSON object, on a line",
        conflicts: &[],
    },
    FlagEntry {
        name: "count",
        help: "Show the number of messages alone",
        conflicts: &[],
    },
    FlagEntry {
        name: "html",
        help: "Draw the messages, as a page that stands alone",
        conflicts: &["tree", "json", "count"],
    },
    FlagEntry {
        name: "pack",
        help: "Write each framed message packed",
        conflicts: &["packed", "detect", "hash", "tree", "json", "count", "html"],
    },
    FlagEntry {
        name: "unpack",
        help: "Write each packed message framed",
        conflicts: &[
            "packed", "detect", "hash", "tree", "json", "count", "html", "pack",
        ],
    },
];

// A number: its name, the most that it may be, and what the help says of it.
struct NumberEntry {
    name: &'static str,
    most: u64,
    help: &'static str,
}

// How much of it is read.
const NUMBERS: [NumberEntry; 3] = [
    NumberEntry {
        name: "first",
        most: u64::MAX,
        help: "Stop after N messages of each file",
    },
    NumberEntry {
        name: "words",
        most: u64::MAX,
        help: "Refuse messages of more words [default: 8388608, 64 MiB]",
    },
    NumberEntry {
        name: "nesting",
        most: i32::MAX as u64,
        help: "Follow pointers so deep [default: 64]",
    },
];

const PROGRESS: &str = "Tell how far the reading is, after each 64 MB";

/// The program's command.
pub fn command<'a>(alloc: Global) -> Result<Command<'a>, AllocError> {
    let command = described(alloc).arg(files(alloc))?;
    counted(alloc, flagged(alloc, command)?)
}

// The command, with no argument yet.
fn described<'a>(alloc: Global) -> Command<'a> {
    Command::new(alloc, "capnp_show")
        .version(VERSION)
        .about(ABOUT)
        .after_help(EXAMPLES)
}

// The files that are read.
fn files<'a>(alloc: Global) -> Arg<'a> {
    Arg::new(alloc, "FILE")
        .action(ArgAction::Append)
        .num_args(0..)
        .help("Files to read; standard input where none is named, and for -")
}

// The command with the flags.
fn flagged<'a>(alloc: Global, command: Command<'a>) -> Result<Command<'a>, AllocError> {
    with_flags(alloc, command, &FLAGS)
}

// The command with these further flags. It is returned at once, since each `?` drops what is
// already made.
fn with_flags<'a>(
    alloc: Global,
    command: Command<'a>,
    entries: &[FlagEntry],
) -> Result<Command<'a>, AllocError> {
    let mut command = command;
    for entry in entries {
        command = with_flag(alloc, command, entry.name, entry.help, entry.conflicts)?;
    }
    Ok(command)
}

// The command with one further flag, which can't be given with these others.
fn with_flag<'a>(
    alloc: Global,
    command: Command<'a>,
    name: &'a str,
    help: &'a str,
    others: &[&'static str],
) -> Result<Command<'a>, AllocError> {
    command.arg(conflicting(flag(alloc, name, help), others)?)
}

// An argument that can't be given with these others.
fn conflicting<'a>(arg: Arg<'a>, others: &[&'static str]) -> Result<Arg<'a>, AllocError> {
    let mut arg = arg;
    for other in others {
        arg = arg.conflicts_with(*other)?;
    }
    Ok(arg)
}

// The command with the numbers, and the last flag.
fn counted<'a>(alloc: Global, command: Command<'a>) -> Result<Command<'a>, AllocError> {
    let command = with_numbers(alloc, command)?;
    command.arg(flag(alloc, "progress", PROGRESS))
}

// The command with the numbers.
fn with_numbers<'a>(alloc: Global, command: Command<'a>) -> Result<Command<'a>, AllocError> {
    let mut command = command;
    for entry in &NUMBERS {
        command = with_number(alloc, command, entry.name, entry.most, entry.help)?;
    }
    Ok(command)
}

// The command with one further number.
fn with_number<'a>(
    alloc: Global,
    command: Command<'a>,
    name: &'a str,
    most: u64,
    help: &'a str,
) -> Result<Command<'a>, AllocError> {
    command.arg(number(alloc, name, most, help))
}

fn flag<'a>(alloc: Global, name: &'a str, help: &'a str) -> Arg<'a>
    ensures names { (result.id ≡ name.entry) × (result.long ≡ Some name.entry) }
    ensures action { result.action ≡ Some ArgAction.SetTrue }
{
    named(alloc, name, help).action(ArgAction::SetTrue)
}

fn number<'a>(alloc: Global, name: &'a str, most: u64, help: &'a str) -> Arg<'a>
    ensures { (result.id ≡ name.entry) × (result.long ≡ Some name.entry) }
{
    named(alloc, name, help)
        .value_name("N")
        .value_parser(ValueParser::unsigned(0, most))
}

// An argument that has its name as a long flag.
fn named<'a>(alloc: Global, name: &'a str, help: &'a str) -> Arg<'a>
    ensures { (result.id ≡ name.entry) × (result.long ≡ Some name.entry) }
{
    Arg::new(alloc, name).long(name).help(help)
}

/// What the words ask for.
pub fn settings_of(matches: &ArgMatches<'_>) -> Settings
    ensures reading { AsksReading (found_of matches.now) result.reading }
    ensures form { AsksForm (found_of matches.now) result.form }
    ensures first { AsksFirst (found_of matches.now) result.first }
    ensures limits { AsksLimits (found_of matches.now) result.limits }
    ensures shows { AsksFlag (found_of matches.now) (codes "hash") result.has_hash
        × AsksFlag (found_of matches.now) (codes "tree") result.has_tree
        × AsksFlag (found_of matches.now) (codes "progress") result.has_progress }
{
    Settings {
        reading: reading_of(matches),
        form: form_of(matches),
        has_hash: matches.get_flag("hash"),
        has_tree: matches.get_flag("tree"),
        first: matches.get_one::<u64>("first").unwrap_or(u64::MAX),
        limits: limits_of(matches),
        has_progress: matches.get_flag("progress"),
    }
}

fn reading_of(matches: &ArgMatches<'_>) -> Reading
    ensures { AsksReading (found_of matches.now) result }
{
    if matches.get_flag("packed") || matches.get_flag("unpack") {
        Reading::Packed
    } else if matches.get_flag("detect") {
        Reading::Detected
    } else {
        Reading::Framed
    }
}

fn form_of(matches: &ArgMatches<'_>) -> Form
    ensures { AsksForm (found_of matches.now) result }
{
    if matches.get_flag("count") {
        Form::Count
    } else if matches.get_flag("json") {
        Form::Json
    } else if matches.get_flag("html") {
        Form::Html
    } else if matches.get_flag("pack") {
        Form::Converted(Way::Pack)
    } else if matches.get_flag("unpack") {
        Form::Converted(Way::Unpack)
    } else {
        Form::Lines
    }
}

fn limits_of(matches: &ArgMatches<'_>) -> ReaderOptions
    ensures { AsksLimits (found_of matches.now) result }
{
    let mut limits = DEFAULT_READER_OPTIONS;
    if let Some(words) = matches.get_one::<usize>("words") {
        limits.traversal_limit_in_words = Some(words);
    }
    if let Some(depth) = matches.get_one::<i32>("nesting") {
        limits.nesting_limit = depth;
    }
    limits
}
