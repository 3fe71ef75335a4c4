//! A plugin of the schema compiler: with it, `capnp compile -o rattle` writes the types of a
//! schema, with a contract at each getter, which is proved when the user checks the crate.
//!
//! It reads a `CodeGeneratorRequest` from standard input, and writes `NAME_capnp.rt` for each file
//! that is asked for. They go into the folder in which it runs, or into the folder of its first
//! argument, or to standard output if that is `-`. Nothing is written before everything is made.
//! Its other arguments, or else the words of the environment's `CAPNPC_RATTLE`, with commas between
//! them, say what it writes. With `readers` it writes only readers, and otherwise builders, too.
//! With `print` it also writes a method for each struct that prints it. With `c` it writes headers for
//! C, `NAME_capnp.h`, and nothing in Rattle. Other words are rejected.
#![tactic(auto)]

mod annotations;
mod builder_templates;
mod builders;
mod c;
mod checked;
mod cleared;
mod code;
mod command;
mod constants;
mod defaults;
mod enums;
mod fields;
mod file;
mod getters;
mod importable;
mod imports;
mod input;
mod names;
mod numbers;
mod output;
mod owners;
mod paths;
mod print_templates;
mod printing;
mod request;
mod reserved;
mod schema;
mod schema_capnp;
mod set_words;
mod setters;
mod structs;
mod templates;
mod trees;
mod type_table;
mod types;
mod unions;
mod views;
mod wanted;
mod words;

use crate::c::prefixes::put_prefixes;
use crate::command::{Task, USAGE, WAITING, task_of, words_of};
use crate::output::{Output, outputs_of, write_outputs};
use crate::schema::Request;
use crate::schema_capnp::code_generator_request;
use crate::wanted::Wanted;
use anyhow::{Context, Result};
use capnp_frame::serialize::OwnedSegments;
use std::env;
use std::io::IsTerminal;
use std::process::ExitCode;

fn main(rt: HostRuntime) -> ExitCode {
    match run(&rt) {
        Ok(status) => status,
        Err(error) => {
            let _ = eprintln!(rt; "capnpc-rattle: {error:#}");
            ExitCode::FAILURE
        }
    }
}

// Does what the arguments ask for, or else the environment.
fn run(rt: &HostRuntime) -> Result<ExitCode> {
    let alloc = rt.alloc();
    let arguments: Vec<String> = env::args(rt)?.collect(alloc)?;
    let variable = match env::var(rt, "CAPNPC_RATTLE") {
        Ok(words) => words,
        Err(_) => String::new(alloc),
    };
    let arguments = arguments.get(1..).unwrap_or(&[]);
    let words = words_of(alloc, arguments, &variable)?;
    match task_of(arguments, &words) {
        Task::Print(output) => print!(rt; "{output}")?,
        Task::Write(folder, wanted) => write_into(rt, folder, wanted, &words)?,
        Task::Reject(word) => {
            eprint!(rt; "capnpc-rattle: unknown word `{word}`\n{USAGE}")?;
            return Ok(ExitCode::from(2));
        }
    }
    Ok(ExitCode::SUCCESS)
}

// Reads the request, and writes what it asks for.
fn write_into(rt: &HostRuntime, folder: &str, wanted: Wanted, words: &[&str]) -> Result<()> {
    if rt.stdin().is_terminal() {
        eprint!(rt; "{WAITING}")?;
    }
    let mut request = request_from(rt, wanted)?;
    put_prefixes(&mut request, words)?;
    let outputs = outputs_of(&request)?;
    if folder == "-" {
        print_outputs(rt, &outputs)
    } else {
        write_outputs(request.alloc, rt, folder, &outputs)
    }
}

// Reads the request from standard input.
fn request_from(rt: &HostRuntime, wanted: Wanted) -> Result<Request> {
    let message = input::read_message(rt.alloc(), &mut rt.stdin())?;
    let root: code_generator_request::Reader<'_, OwnedSegments> = message
        .get_root()
        .and_then(|root| root.get_as())
        .context("standard input is no request of the schema compiler")?;
    request::read_request(rt.alloc(), &root, wanted).context(
        "standard input is no request of the schema compiler",
    )
}

// Prints what is asked for.
fn print_outputs(rt: &HostRuntime, outputs: &[Output]) -> Result<()> {
    for output in outputs {
        print!(rt; "{}", output.code)?;
    }
    Ok(())
}
