//! A sink that fails.
ghost use Rattle.std.specs.Prelude.{Some, ⊤};
ghost use Rattle.capnp_frame.specs.Prelude.{AppendsSame, LeavesNothing, ByKind, always};
ghost use Rattle.capnp_frame.specs.declared.error.ErrorKind.{ErrorKind};

use capnp_frame::io::Write;
use capnp_frame::{Error, ErrorKind, Result};

/// A sink whose chunks are counted from 1. One chunk fails, and nothing of it is written.
#[derive(Drop)]
pub struct FailingSink {
    pub written: Vec<u8>,
    pub calls: u64,
    pub fails_at: u64,
    pub failures: u64,
}

impl FailingSink {
    /// These bytes are written already.
    pub fn new(written: Vec<u8>, fails_at: u64) -> FailingSink {
        FailingSink {
            written,
            calls: 0,
            fails_at,
            failures: 0,
        }
    }
}

impl Write for FailingSink {
    ghost written = { λ sink. Some sink.written.items };

    ghost failures = { λ sink. sink.failures };

    ghost appends = { AppendsSame };

    ghost leaves = { LeavesNothing };

    ghost grants = { λ _ _. ⊥ };

    ghost refuses = { ByKind ErrorKind.OutOfMemory };

    ghost same = { λ _ _. ⊤ };

    fn write_all(&mut self, chunk: &[u8]) -> Result<()> {
        self.calls = self.calls.saturating_add(1);
        if self.calls == self.fails_at {
            self.failures = self.failures.saturating_add(1);
            return Err(Error::from_kind(ErrorKind::DeviceFailed));
        }
        self.written.write_all(chunk)
    }

    ghost keeps = { always };
}
