//! Why the program stops before the end of its input.
ghost use Rattle.std.specs.Prelude.{◌≡◌, ◌⊎◌, List, ℕ, [], IfOk, IfErr, OnOk, OnErr, string_bytes};
ghost use Rattle.capnp.specs.Prelude.{ErrorKind, Fails, IfKnown, Adds, Grows};
ghost use Rattle.capnp_ls.specs.declared.stop.Stop.TheVariants.{Usage, Refused};
ghost use Rattle.capnp_ls.specs.Stop.{IsLineOf, IsDeviceErrorLine, status_of, usage_line};

use capnp::io::Write;
use capnp::{Error, ErrorKind, Result};
use std::alloc::{AllocError, Global};
use std::io;

const USAGE: &str =
    "usage: capnp_ls list [--packed] [--lenient] | pack [--lenient] | unpack [--lenient] | canon [--packed]\n";

/// Why the program stops before the end of its input.
#[derive(Debug, Drop)]
pub enum Stop {
    /// The words after the program's name are no command.
    Usage,
    /// `error` came up after `message` messages were done.
    Refused { message: u64, error: Error },
}

impl Stop {
    /// The status that the program ends with.
    pub fn status(&self) -> u8
        ensures { result ≡ status_of self.now }
    {
        match self {
            Stop::Usage => 2,
            Stop::Refused { .. } => 1,
        }
    }
}

/// Writes the stop as one line, in one chunk.
///
/// Fails as the sink does for that chunk, or with `OutOfMemory` where there is no memory for the
/// line; the line of the usage takes none.
pub fn report<W: Write>(alloc: Global, stop: &Stop, sink: &mut W) -> Result<()>
    ensures line { OnOk result (IfKnown (W.written sink.old) (W.written sink.new)
        (Adds (λ added. (line : List ℕ) × IsLineOf stop.now line × W.appends line added))) }
    ensures failed { IfErr result (λ error. error.kind ≡ ErrorKind.DeviceFailed →
        Fails (W.failures sink.old) (W.failures sink.new)) }
    ensures errors { IfErr result (λ error. (error.kind ≡ ErrorKind.DeviceFailed)
        ⊎ (error.kind ≡ ErrorKind.OutOfMemory)
        ⊎ ((line : List ℕ) × IsLineOf stop.now line × W.refuses line error.kind)) }
    ensures left { OnErr result (IfKnown (W.written sink.old) (W.written sink.new) (Adds (λ part.
        (part ≡ []) ⊎ ((line : List ℕ) × IsLineOf stop.now line × W.leaves line part)))) }
    // The usage line takes no memory.
    ensures usage { stop.now ≡ Usage → IfErr result (λ error.
        (error.kind ≡ ErrorKind.DeviceFailed) ⊎ W.refuses usage_line error.kind) }
    ensures grows { Grows W.written W.failures W.same sink.old sink.new }
{
    match stop {
        Stop::Usage => sink.write_all(USAGE.as_bytes()),
        Stop::Refused { message, error } => {
            let line = error_line(alloc, *message, error)?;
            sink.write_all(line.as_bytes())
        }
    }
}

fn error_line(alloc: Global, message: u64, error: &Error) -> std::result::Result<String, AllocError>
    ensures { IfOk result (λ line. IsLineOf (Refused message error.now) (string_bytes line)) }
{
    let number = error.kind.number();
    let reason = error.to_string(alloc)?;
    let mut line = format!(in alloc; "capnp_ls: message {message}: error {number} ")?;
    line.push_str(&reason)?;
    line.push('\n')?;
    Ok(line)
}

/// Writes why the stream of this name failed as one line, in one chunk.
///
/// Fails as `report` does.
pub fn report_device_error<W: Write>(
    alloc: Global,
    name: &str,
    device_error: &io::Error,
    sink: &mut W,
) -> Result<()>
    ensures line { OnOk result (IfKnown (W.written sink.old) (W.written sink.new)
        (Adds (λ added. (line : List ℕ) × IsDeviceErrorLine name.now line × W.appends line added))) }
    ensures failed { IfErr result (λ error. error.kind ≡ ErrorKind.DeviceFailed →
        Fails (W.failures sink.old) (W.failures sink.new)) }
    ensures errors { IfErr result (λ error. (error.kind ≡ ErrorKind.DeviceFailed)
        ⊎ (error.kind ≡ ErrorKind.OutOfMemory)
        ⊎ ((line : List ℕ) × IsDeviceErrorLine name.now line × W.refuses line error.kind)) }
    ensures left { OnErr result (IfKnown (W.written sink.old) (W.written sink.new) (Adds (λ part.
        (part ≡ []) ⊎ ((line : List ℕ) × IsDeviceErrorLine name.now line × W.leaves line part)))) }
    ensures grows { Grows W.written W.failures W.same sink.old sink.new }
{
    let line = device_error_line(alloc, name, device_error)?;
    sink.write_all(line.as_bytes())
}

fn device_error_line(
    alloc: Global,
    name: &str,
    device_error: &io::Error,
) -> std::result::Result<String, AllocError>
    ensures { IfOk result (λ line. IsDeviceErrorLine name.now (string_bytes line)) }
{
    let reason = device_error.to_string(alloc)?;
    let mut line = format!(in alloc; "capnp_ls: {name}: ")?;
    line.push_str(&reason)?;
    line.push('\n')?;
    Ok(line)
}
