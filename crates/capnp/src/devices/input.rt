//! A device that is read, such as standard input or a file, as a source.
ghost use Rattle.std.specs.Prelude.{◌≡◌, true, [], IsSome, IfOk, IfErr};
ghost use Rattle.std.specs.Io.Buffered.{reader_remaining, reader_buffer};
ghost use Rattle.std.specs.Io.KnownBytes.{Keeps};
ghost use Rattle.capnp.specs.Passed.{ErrorKind};

mod source;

use crate::devices::retried::Retried;
use crate::devices::{BUFFER_BYTES, Failures};
use crate::{Error, ErrorKind, Result};
use std::alloc::Global;
use std::io;
use std::io::BufReader;

/// A device as a source, with a buffer.
///
/// In general, contracts don't know which bytes a device gives. Where they do, as for a slice or a
/// cursor, each call returns exactly those bytes, and one that fails takes none. So what the
/// contracts of readers say of unread bytes holds for an `Input` that `of_known` makes.
///
/// ```
/// let mut input = Input::new(alloc, device)?;
/// let message = serialize::read_message(alloc, &mut input, DEFAULT_READER_OPTIONS)?;
/// let greeting: text::Reader<'_> = message.get_root()?;
/// assert_eq!(rt; greeting.as_bytes(), b"Hello, World!".as_slice());
/// ```
#[derive(Drop)]
pub struct Input<R: io::Read> {
    buffered: BufReader<Retried<R>>,
    failures: Failures,
    // For the prover: whether the unread bytes are known.
    known: bool,
    ghost comes: { known ≡ true → IsSome (reader_remaining (λ retried. R.remaining retried.device) buffered) },
}

impl<R: io::Read + Drop> Input<R> {
    ghost use Rattle.capnp.specs.Devices.{coming, unread_of, OpensInput};

    /// The device, with nothing read yet. No contract knows its bytes. Fails with `OutOfMemory`
    /// alone, for the buffer.
    pub fn new(alloc: Global, device: R) -> Result<Input<R>>
        ensures { OpensInput (λ input. Keeps (R.remaining device) (coming R.remaining input)) result }
    {
        let buffered = buffered(alloc, device)?;
        Ok(Input {
            buffered,
            failures: Failures::none(),
            known: false,
        })
    }

    /// The device, with nothing read yet. Its bytes are known. Fails with `OutOfMemory` alone, for
    /// the buffer.
    pub fn of_known(alloc: Global, device: R) -> Result<Input<R>>
        requires { IsSome (R.remaining device) }
        ensures { OpensInput (λ input. unread_of R.remaining input ≡ R.remaining device) result }
    {
        let buffered = buffered(alloc, device)?;
        Ok(Input {
            buffered,
            failures: Failures::none(),
            known: true,
        })
    }

    /// How often the device failed, at most 2^64 - 1.
    pub fn failures(&self) -> u64
        ensures { result ≡ self.now.failures.count }
    {
        self.failures.count
    }
}

// The device, with an empty buffer.
fn buffered<R: io::Read + Drop>(alloc: Global, device: R) -> Result<BufReader<Retried<R>>>
    ensures remaining { IfOk result (λ buffered. Keeps (R.remaining device)
        (reader_remaining (λ retried. R.remaining retried.device) buffered)) }
    ensures empty { IfOk result (λ buffered. reader_buffer buffered ≡ []) }
    ensures memory { IfErr result (λ error. error.kind ≡ ErrorKind.OutOfMemory) }
{
    match BufReader::with_capacity(alloc, BUFFER_BYTES, Retried::new(device)) {
        Ok(buffered) => Ok(buffered),
        Err(_) => Err(Error::from_kind(ErrorKind::OutOfMemory)),
    }
}
