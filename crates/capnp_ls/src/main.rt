//! Lists and converts the Cap'n Proto messages that come on standard input.
#![tactic(auto)]

ghost use Rattle.std.specs.Prelude.{◌≡◌, ◌⊎◌, [], OnOk, OnErr, IfErr, IsErrOf};
ghost use Rattle.std.specs.Process.{exit_status};
ghost use Rattle.std.specs.Io.KnownBytes.{Keeps};
ghost use Rattle.capnp.specs.Prelude.{Fails, ErrorKind, pending, taken_so_far, IsOutOfMemory};
ghost use Rattle.capnp_ls.specs.declared.stop.Stop.TheVariants.{Usage, Refused};
ghost use Rattle.capnp_ls.specs.Stop.{IsAtStart, status_of};

mod canonical;
mod command;
mod flags;
mod lines;
mod listing;
mod program;
mod stop;

use crate::flags::{Flag, print_flag};
use crate::stop::{Stop, report, report_device_error};
use capnp::devices::{Input, OUTPUT_BYTES, Output, Watched};
use capnp::{Error, ErrorKind};
use std::io::{Read, Write};
use std::process::ExitCode;
use std::{env, io};

fn main(rt: HostRuntime) -> ExitCode {
    let mut input = Watched::new(rt.stdin());
    let mut output = Watched::new(rt.stdout());
    let returned = run_on(rt, &mut input, &mut output);
    if let Err(stop) = &returned
        && let Ok(mut diagnostics) = Output::new(rt.alloc(), 0, rt.stderr())
    {
        let _ = report(rt.alloc(), stop, &mut diagnostics);
        if let Some(error) = input.last_error() {
            let _ = report_device_error(rt.alloc(), "standard input", &error, &mut diagnostics);
        }
        if let Some(error) = output.last_error() {
            let _ = report_device_error(rt.alloc(), "standard output", &error, &mut diagnostics);
        }
    }
    exit_code(&returned)
}

// Prints what a flag prints, or runs a command over these streams.
fn run_on<R: Read, W: Write>(rt: HostRuntime, input: &mut R, output: &mut W) -> Result<(), Stop> {
    let alloc = rt.alloc();
    let words = words(rt).map_err(stop_without_words)?;
    let mut source = Input::new(alloc, input).map_err(stop_at_start)?;
    let mut sink = Output::new(alloc, OUTPUT_BYTES, output).map_err(stop_at_start)?;
    let returned = match Flag::from_words(&words) {
        Some(flag) => print_flag(flag, &mut sink).map_err(stop_at_start),
        None => program::run(alloc, &words, &mut source, &mut sink),
    };
    flush_after(returned, &mut sink)
}

/// Hands what is in the buffer to the device, whatever the run returned.
///
/// If the run itself stopped, that stays the result. A failed flush is reported at message 0, since
/// it is not known for how many messages it held back output.
fn flush_after<W: Write + Drop>(
    returned: Result<(), Stop>,
    sink: &mut Output<W>,
) -> Result<(), Stop>
    ensures flushed { OnOk result (pending sink.new ≡ []) }
    ensures errors { IfErr returned (λ stop. IsErrOf result stop) }
    ensures device_error { OnOk returned (IfErr result (λ stop. IsAtStart stop ErrorKind.DeviceFailed)) }
    ensures emptied { (pending sink.new ≡ []) ⊎ Fails sink.old.failures.count sink.new.failures.count }
    ensures failed { OnOk returned (OnErr result
        (Fails sink.old.failures.count sink.new.failures.count)) }
    ensures kept { Keeps (taken_so_far W.contents sink.old) (taken_so_far W.contents sink.new) }
{
    match sink.flush() {
        Ok(()) => returned,
        Err(error) => {
            returned?;
            Err(stop_at_start(error))
        }
    }
}

/// The status that the program ends with: 0, or the status of its stop.
fn exit_code(returned: &Result<(), Stop>) -> ExitCode
    ensures done { OnOk returned.now (exit_status result ≡ 0) }
    ensures errors { IfErr returned.now (λ stop. exit_status result ≡ status_of stop) }
{
    match returned {
        Ok(()) => ExitCode::SUCCESS,
        Err(stop) => ExitCode::from(stop.status()),
    }
}

/// The words after the program's name.
fn words(rt: HostRuntime) -> io::Result<Vec<String>> {
    let mut words = Vec::new(rt.alloc());
    for word in env::args(&rt)?.skip(1) {
        words.push(word)?;
    }
    Ok(words)
}

/// Where there is no memory for the words, the program stops at the start; a word that isn't UTF-8
/// is no word of a command.
fn stop_without_words(error: io::Error) -> Stop
    ensures memory { IsOutOfMemory error →
        IsAtStart result ErrorKind.OutOfMemory }
    ensures usage { (IsOutOfMemory error → ⊥) → result ≡ Usage }
{
    if error.kind() == io::ErrorKind::OutOfMemory {
        stop_at_start(Error::from_kind(ErrorKind::OutOfMemory))
    } else {
        Stop::Usage
    }
}

fn stop_at_start(error: Error) -> Stop
    ensures { result ≡ Refused 0 error }
{
    Stop::Refused { message: 0, error }
}
