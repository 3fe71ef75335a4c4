//! Slices as sources and sinks, and vectors as sinks.
ghost use Rattle.std.specs.Prelude.{◌≡◌, ℕ, ◌+◌, ◌<◌, ◌≤◌, ◌⊎◌, ◌++◌, length, drop, Some, None, IfErr, OnOk, OnErr, IsOk, ⊤};
ghost use Rattle.capnp_frame.specs.Source.{Splits, RunsShort, IfKnown, Fails};
ghost use Rattle.capnp_frame.specs.Sink.{AppendsSame, LeavesNothing, ByKind, Adds, Grows};
ghost use Rattle.capnp_frame.specs.declared.error.ErrorKind.{ErrorKind};
ghost use Rattle.capnp_frame.specs.SplittingLaws.{splitting, always};

use crate::error::{Error, ErrorKind, Result};
use crate::io::{BufRead, Read, Write};

/// The slice moves past what was read. `read` never fails, and `read_exact` fails with
/// `FailedToFillTheWholeBuffer` alone, where the slice is too short.
impl Read for &[u8] {
    ghost unread = { λ bytes. Some bytes.now };

    ghost failures = { λ _. 0 };

    ghost gives = { Splits };

    ghost refuses = { RunsShort };

    ghost same = { λ _ _. ⊤ };

    fn read(&mut self, buffer: &mut [u8]) -> Result<usize> {
        let all: &[u8] = *self;
        let count = all.len().min(buffer.len());
        buffer[..count].copy_from_slice(&all[..count]);
        *self = &all[count..];
        Ok(count)
    }

    ghost lawful = { splitting };

    ghost keeps = { always };
}

impl BufRead for &[u8] {
    ghost shown = { λ bytes. bytes.now };

    fn fill_buf(&mut self) -> Result<&[u8]> {
        Ok(*self)
    }

    fn consume(&mut self, amount: usize) {
        let all: &[u8] = *self;
        *self = &all[amount..];
    }

    ghost plain = { λ _ _ _ _. (λ p. p, λ p. p) };

    ghost plain_errors = { λ _ _ _. (λ p. p, λ p. p) };
}

/// Appends chunks. Fails with `OutOfMemory` alone, and then the vector is unchanged.
impl Write for Vec<u8> {
    ghost written = { λ sink. Some sink.items };

    ghost failures = { λ _. 0 };

    ghost appends = { AppendsSame };

    ghost leaves = { LeavesNothing };

    ghost grants = { λ _ _. ⊥ };

    ghost refuses = { ByKind ErrorKind.OutOfMemory };

    ghost same = { λ _ _. ⊤ };

    fn write_all(&mut self, chunk: &[u8]) -> Result<()>
        ensures added { OnOk result (self.new.items ≡ self.old.items ++ chunk.now) }
        ensures errors { IfErr result (λ error. (error.kind ≡ ErrorKind.OutOfMemory)
            × (self.new.items ≡ self.old.items)) }
    {
        self.extend_from_slice(chunk)?;
        Ok(())
    }

    ghost keeps = { always };
}

/// The slice moves past what was written, so it shows only the room that is left. A chunk that does
/// not fit fails with `BufferNotLargeEnough`, and nothing of it is written.
///
/// It grants the number of bytes that it has, and no other. So a writer that hands on what a sink
/// grants, as `write_segments` does, says by just how many bytes the slice moves.
impl Write for &mut [u8] {
    ghost written = { λ _. None };

    ghost failures = { λ _. 0 };

    ghost appends = { AppendsSame };

    ghost leaves = { LeavesNothing };

    ghost grants = { λ slice bytes. bytes ≡ length slice.now };

    ghost refuses = { ByKind ErrorKind.BufferNotLargeEnough };

    ghost same = { λ _ _. ⊤ };

    fn write_all(&mut self, chunk: &[u8]) -> Result<()>
        ensures added { OnOk result (IfKnown None None (Adds (AppendsSame chunk.now))) }
        ensures left { OnErr result (IfKnown None None (Adds (LeavesNothing chunk.now))) }
        ensures granted { (more : ℕ) → length chunk.now + more ≡ length self.old.now →
            IsOk result × (more ≡ length self.new.now) }
        ensures failed { IfErr result (λ error. error.kind ≡ ErrorKind.DeviceFailed → Fails 0 0) }
        ensures moved { OnOk result (self.new.now ≡ drop (length chunk.now) self.old.now) }
        ensures fits { OnOk result (length chunk.now ≤ length self.old.now) }
        ensures errors { IfErr result (λ error. (error.kind ≡ ErrorKind.DeviceFailed)
            ⊎ ByKind ErrorKind.BufferNotLargeEnough chunk.now error.kind) }
        ensures grows { Grows (λ _. None) (λ _. 0) (λ _ _. ⊤) self.old self.new }
        ensures short { IfErr result (λ error. (error.kind ≡ ErrorKind.BufferNotLargeEnough)
            × (length self.old.now < length chunk.now) × (self.new.now ≡ self.old.now)) }
    {
        if self.len() < chunk.len() {
            return Err(Error::from_kind(ErrorKind::BufferNotLargeEnough));
        }
        let all = std::mem::take(self);
        all[..chunk.len()].copy_from_slice(chunk);
        *self = &mut all[chunk.len()..];
        Ok(())
    }

    ghost keeps = { always };
}
