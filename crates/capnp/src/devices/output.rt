//! A device that is written, such as standard output or a file, as a sink.
ghost use Rattle.std.specs.Prelude.{◌≡◌, ◌≤◌, [], IfErr, OnOk, OnErr, ⊤};
ghost use Rattle.std.specs.Io.KnownBytes.{Keeps};
ghost use Rattle.capnp.specs.Passed.{ErrorKind, IfKnown, Fails, Adds, AppendsSame, LeavesFront, Grows, always};
ghost use Rattle.capnp.specs.Devices.{pending, taken_so_far, OpensOutput};

use crate::devices::Failures;
use crate::devices::retried::Retried;
use crate::io::Write;
use crate::{Error, ErrorKind, Result};
use std::alloc::Global;
use std::io;
use std::io::BufWriter;

/// A device as a sink, with a buffer, which `flush` empties.
///
/// ```
/// let mut output = Output::new(alloc, OUTPUT_BYTES, &mut device)?;
/// serialize::write_message(alloc, &mut output, &message)?;
/// output.flush()?;
/// ```
#[derive(Drop)]
pub struct Output<W: io::Write + Drop> {
    buffered: BufWriter<Retried<W>>,
    failures: Failures,
}

impl<W: io::Write + Drop> Output<W> {
    /// The device, to which nothing has been written, and a buffer of `capacity` bytes. With a
    /// capacity of 0 each chunk goes straight to the device, and no memory is taken.
    ///
    /// Fails with `OutOfMemory` alone, for the buffer.
    pub fn new(alloc: Global, capacity: usize, device: W) -> Result<Output<W>>
        ensures { OpensOutput W.contents device capacity result }
    {
        let Ok(buffered) = BufWriter::with_capacity(alloc, capacity, Retried::new(device)) else {
            return Err(Error::from_kind(ErrorKind::OutOfMemory));
        };
        Ok(Output {
            buffered,
            failures: Failures::none(),
        })
    }

    /// How often the device failed, at most 2^64 - 1.
    pub fn failures(&self) -> u64
        ensures { result ≡ self.now.failures.count }
    {
        self.failures.count
    }

    /// Hands the bytes in the buffer to the device. Fails with `DeviceFailed` alone.
    pub fn flush(&mut self) -> Result<()>
        ensures flushed { OnOk result (pending self.new ≡ []) }
        ensures kept { Keeps (taken_so_far W.contents self.old) (taken_so_far W.contents self.new) }
        ensures device { IfErr result (λ error. error.kind ≡ ErrorKind.DeviceFailed) }
        ensures failed { OnErr result (Fails self.old.failures.count self.new.failures.count) }
        ensures unfailed { OnOk result (self.new.failures ≡ self.old.failures) }
        ensures counted { self.old.failures.count ≤ self.new.failures.count }
    {
        match io::Write::flush(&mut self.buffered) {
            Ok(()) => Ok(()),
            Err(_) => Err(self.failures.add()),
        }
    }
}

impl<W: io::Write + Drop> Write for Output<W> {
    ghost written = { taken_so_far W.contents };

    ghost failures = { λ output. output.failures.count };

    ghost appends = { AppendsSame };

    ghost leaves = { LeavesFront };

    ghost grants = { λ _ _. ⊥ };

    ghost refuses = { λ _ _. ⊥ };

    ghost same = { λ _ _. ⊤ };

    // The contract of std's `write_all` doesn't say what a failed call leaves.
    fn write_all(&mut self, chunk: &[u8]) -> Result<()>
        ensures added { OnOk result (IfKnown (taken_so_far W.contents self.old)
            (taken_so_far W.contents self.new) (Adds (AppendsSame chunk.now))) }
        ensures left { OnErr result (IfKnown (taken_so_far W.contents self.old)
            (taken_so_far W.contents self.new) (Adds (LeavesFront chunk.now))) }
        // It fails where the device does, and counts a failure exactly where it fails.
        ensures device { IfErr result (λ error. error.kind ≡ ErrorKind.DeviceFailed) }
        ensures failed { OnErr result (Fails self.old.failures.count self.new.failures.count) }
        ensures unfailed { OnOk result (self.new.failures ≡ self.old.failures) }
        ensures grows { Grows (taken_so_far W.contents) (λ output. output.failures.count)
            (λ _ _. ⊤) self.old self.new }
    {
        let mut done = 0;
        while done < chunk.len() {
            match io::Write::write(&mut self.buffered, &chunk[done..]) {
                Ok(count) if count > 0 => done += count,
                _ => return Err(self.failures.add()),
            }
        }
        Ok(())
    }

    ghost keeps = { always };
}
