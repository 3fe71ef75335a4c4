//! Devices that keep the reason of a failure.
ghost use Rattle.std.specs.Prelude.{◌≡◌, ◌≢◌, None, Some};
ghost use Rattle.std.specs.Io.{ReadsAtMost, WritesAtMost};
ghost use Rattle.std.specs.Io.KnownBytes.{Keeps, ReadConsumes, WriteAppends};
ghost use Rattle.std.specs.IoError.{error_kind};
ghost use Rattle.capnp.specs.Devices.{KeepsDeviceError};

use std::io;
use std::io::{ErrorKind, Read, Write};

/// A device that keeps the error of its last call that failed. An interrupted call is made again,
/// so its error isn't kept.
///
/// ```
/// let mut watched = Watched::new(device);
/// let mut output = Output::new(alloc, 0, &mut watched)?;
/// assert!(rt; output.write_all(b"abc").is_err());
/// drop(output);
/// assert!(rt; watched.last_error().is_some());
/// ```
#[derive(Drop)]
pub struct Watched<D> {
    device: D,
    last_error: Option<io::Error>,
}

impl<D> Watched<D> {
    /// The device, which has not failed yet.
    pub fn new(device: D) -> Watched<D>
        ensures device { result.device ≡ device }
        ensures unfailed { result.last_error ≡ None }
    {
        Watched {
            device,
            last_error: None,
        }
    }

    /// Why the device failed last, if it did.
    pub fn last_error(&self) -> Option<io::Error>
        ensures { result ≡ self.now.last_error }
    {
        self.last_error
    }

    fn note(&mut self, error: io::Error)
        ensures noted { error_kind error ≢ ErrorKind.Interrupted → self.new.last_error ≡ Some error }
        ensures kept { error_kind error ≡ ErrorKind.Interrupted → self.new.last_error ≡ self.old.last_error }
        ensures device { self.new.device ≡ self.old.device }
    {
        if error.kind() != ErrorKind::Interrupted {
            self.last_error = Some(error);
        }
    }
}

impl<R: Read> Read for Watched<R> {
    ghost remaining = { λ watched. R.remaining watched.device };

    fn read(&mut self, buffer: &mut [u8]) -> io::Result<usize>
        ensures bound { ReadsAtMost result buffer.new }
        ensures bytes { ReadConsumes (R.remaining self.old.device) (R.remaining self.new.device)
            result buffer.new }
        ensures last_error { KeepsDeviceError self.old.last_error self.new.last_error result }
    {
        match self.device.read(buffer) {
            Ok(count) => Ok(count),
            Err(error) => {
                self.note(error);
                Err(error)
            }
        }
    }
}

impl<W: Write> Write for Watched<W> {
    ghost contents = { λ watched. W.contents watched.device };

    fn write(&mut self, bytes: &[u8]) -> io::Result<usize>
        ensures bound { WritesAtMost result bytes.now }
        ensures bytes { WriteAppends (W.contents self.old.device) (W.contents self.new.device)
            result bytes.now }
        ensures last_error { KeepsDeviceError self.old.last_error self.new.last_error result }
    {
        match self.device.write(bytes) {
            Ok(count) => Ok(count),
            Err(error) => {
                self.note(error);
                Err(error)
            }
        }
    }

    fn flush(&mut self) -> io::Result<()>
        ensures bytes { Keeps (W.contents self.old.device) (W.contents self.new.device) }
        ensures last_error { KeepsDeviceError self.old.last_error self.new.last_error result }
    {
        match self.device.flush() {
            Ok(()) => Ok(()),
            Err(error) => {
                self.note(error);
                Err(error)
            }
        }
    }
}
