//! Readers and writers of std, such as files, standard input and standard output, as sources and
//! sinks of messages.
//!
//! Both are buffered, and both try an interrupted call again. Any other failure of the device is
//! `DeviceFailed`; a device that is `Watched` keeps the system's reason.
ghost use Rattle.std.specs.Prelude.{◌≡◌, ◌+◌, ◌-◌, ◌^◌, ◌≤◌, min};
ghost use Rattle.capnp.specs.Passed.{ErrorKind};

mod input;
mod output;
mod retried;
mod watched;

use crate::{Error, ErrorKind};
pub use input::Input;
pub use output::Output;
pub use watched::Watched;

/// The size in bytes of the buffer for a device that is read.
pub const BUFFER_BYTES: usize = 4096;

/// A size in bytes for the buffer of a device that is written.
pub const OUTPUT_BYTES: usize = 32768;

/// How often a device failed, up to 2^64 - 1.
///
/// ```
/// let mut device = [0; 2];
/// let mut output = Output::new(alloc, 0, device.as_mut_slice())?;
/// assert!(rt; output.write_all(b"abc").is_err());
/// assert_eq!(rt; output.failures(), 1);
/// ```
#[derive(Clone, Copy, Debug, PartialEq, Eq)]
pub struct Failures {
    count: u64,
}

impl Failures {
    /// The count for a device that has not failed.
    fn none() -> Failures
        ensures { result.count ≡ 0 }
    {
        Failures { count: 0 }
    }

    /// Counts a failure, and returns its error: `DeviceFailed`.
    fn add(&mut self) -> Error
        ensures kind { result.kind ≡ ErrorKind.DeviceFailed }
        ensures counted { self.new.count ≡ min (self.old.count + 1) (2 ^ 64 - 1) }
        ensures none_back { self.old.count ≤ self.new.count }
    {
        self.count = self.count.saturating_add(1);
        Error::from_kind(ErrorKind::DeviceFailed)
    }
}
