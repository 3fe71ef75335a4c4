//! What the program's words ask for.
use crate::wanted::Wanted;
use std::alloc::{AllocError, Global};

/// What the program takes.
pub const USAGE: &str =
    "usage: capnpc-rattle [FOLDER [builders | readers | print | c | crates]..]\n";

/// The version of the program.
pub const VERSION: &str = "capnpc-rattle 0.1.0\n";

/// What is said at a terminal before standard input is read.
pub const WAITING: &str =
    "capnpc-rattle: waits for a request on standard input, as `capnp compile -o-` writes it\n";

/// What the program is.
pub const HELP: &str =
    "Writes the types of Cap'n Proto schemas in Rattle, as a plugin of the C++ tool:

  capnp compile -o rattle note.capnp          writes note_capnp.rt
  CAPNPC_RATTLE=readers,print capnp compile -o rattle note.capnp
  CAPNPC_RATTLE=c capnp compile -o rattle note.capnp      writes note_capnp.h

The tool runs it without arguments. It reads a CodeGeneratorRequest from standard
input, and writes NAME_capnp.rt for each NAME.capnp into the folder in which it runs.

usage: capnpc-rattle [FOLDER [builders | readers | print | c | crates]..]

  FOLDER           where to write; - is standard output
  builders         readers and builders: this is the default
  readers          no builders
  print            a method of each reader that prints the struct
  c                headers for C, and no types in Rattle; without print
  crates           imports from each crate of the library, not from capnp alone
  prefix=FILE:NAME puts NAME_ before all names of that file's header
  namespace        the same by $Cxx.namespace
  -h, --help       prints this
  -V, --version    prints the version

Without words after FOLDER those of the environment's CAPNPC_RATTLE count, with
commas between them. Names that collide get others by the annotation of rattle.capnp.
The status is 1 where it fails, and 2 for other words.
";

/// What is to be done.
#[derive(Clone, Copy)]
pub enum Task<'a> {
    /// To print this.
    Print(&'static str),
    /// To write this into a folder, or to standard output if that is `-`.
    Write(&'a str, Wanted),
    /// To reject this word.
    Reject(&'a str),
}

/// The words that count: what follows the folder, or, if nothing does, what a variable of the
/// environment has, with commas between the words.
pub fn words_of<'a>(
    alloc: Global,
    arguments: &'a [String],
    variable: &'a str,
) -> Result<Vec<&'a str>, AllocError> {
    let mut words: Vec<&'a str> = Vec::new(alloc);
    for word in arguments.get(1..).unwrap_or(&[]) {
        words.push(word.as_str())?;
    }
    if words.is_empty() {
        for word in variable.split(',') {
            if !word.is_empty() {
                words.push(word)?;
            }
        }
    }
    Ok(words)
}

/// What the folder among some arguments and these words ask for.
pub fn task_of<'a>(arguments: &'a [String], words: &[&'a str]) -> Task<'a> {
    let folder = match arguments.first() {
        Some(folder) => folder.as_str(),
        None => ".",
    };
    match folder {
        "-h" | "--help" => Task::Print(HELP),
        "-V" | "--version" => Task::Print(VERSION),
        _ if folder != "-" && folder.starts_with('-') => Task::Reject(folder),
        _ => task_by_words(folder, words),
    }
}

// What is to be written into a folder, by words.
fn task_by_words<'a>(folder: &'a str, words: &[&'a str]) -> Task<'a> {
    let mut wanted = Wanted::new();
    for word in words {
        if !wanted.ask(*word) {
            return Task::Reject(*word);
        }
    }
    Task::Write(folder, wanted)
}
