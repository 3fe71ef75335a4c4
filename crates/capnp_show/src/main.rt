//! Shows the messages of Cap'n Proto in files, without a schema.
#![tactic(auto)]

ghost use Rattle.std.specs.Prelude.{◌≡◌, if◌then◌else◌};
ghost use Rattle.std.specs.Process.{exit_status};

mod arguments;
mod arrows;
mod counted;
mod detected;
mod drawing;
mod drawn;
mod errors;
mod escapes;
mod files;
mod hash;
mod html;
mod json;
mod listing;
mod markup;
mod messages;
mod numbers;
mod objects;
mod owners;
mod progress;
mod runs;
mod settings;
mod shown;
mod style;
mod tree;

use crate::errors::unwritten_line;
use crate::files::show_files;
use capnp::devices::Output;
use clap::ArgMatches;
use std::env;
use std::process::ExitCode;

fn main(rt: HostRuntime) -> anyhow::Result<ExitCode> {
    let alloc = rt.alloc();
    let words: Vec<String> = match env::args(&rt) {
        Ok(words) => words.collect(alloc)?,
        Err(error) => {
            let _ = eprintln!(rt; "capnp_show: the arguments can't be read: {error}");
            return Ok(exit_code(false, 2));
        }
    };
    let command = arguments::command(alloc)?;
    match command.try_get_matches_from(words.as_slice()) {
        Ok(matches) => show(rt, &matches),
        Err(error) => {
            error.print(&rt)?;
            Ok(exit_code(error.exit_code() == 0, 2))
        }
    }
}

// Shows the files that the arguments name, as they ask for it.
fn show(rt: HostRuntime, matches: &ArgMatches<'_>) -> anyhow::Result<ExitCode> {
    let alloc = rt.alloc();
    let settings = arguments::settings_of(matches);
    let names = matches.get_strs("FILE").unwrap_or_default();
    let mut sink = Output::new(alloc, 0, rt.stdout())?;
    match show_files(rt, settings, names, &mut sink) {
        Ok(is_whole) => Ok(exit_code(is_whole, 1)),
        Err(error) => {
            let line = unwritten_line(alloc, &error)?;
            let _ = eprint!(rt; "{line}");
            Ok(exit_code(false, 1))
        }
    }
}

/// The status 0, or this one where something is wrong.
fn exit_code(is_right: bool, status: u8) -> ExitCode
    ensures { exit_status result ≡ (if is_right then 0 else status) }
{
    if is_right {
        ExitCode::SUCCESS
    } else {
        ExitCode::from(status)
    }
}
