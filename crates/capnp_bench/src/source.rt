//! A source that shows few bytes at a time, as a pipe or a socket may.
ghost use Rattle.std.specs.Prelude.{◌≡◌, ◌<◌, Some, take, ⊤};
ghost use Rattle.capnp.specs.Prelude.{Splits, RunsShort, splitting, always};

use capnp::Result;
use capnp::io::{BufRead, Read};

/// A slice that shows, or returns, at most a given number of bytes at a time, and at least one.
#[derive(Drop)]
pub struct Trickle<'a> {
    bytes: &'a [u8],
    most: usize,
    shown: usize,
    ghost some: { 0 < most },
}

impl<'a> Trickle<'a> {
    /// These bytes, at most a given number at a time.
    pub fn new(bytes: &'a [u8], most: usize) -> Trickle<'a> {
        Trickle {
            bytes,
            most: most.max(1),
            shown: 0,
        }
    }
}

impl Read for Trickle<'_> {
    ghost unread = { λ source. Some source.bytes.now };

    ghost failures = { λ _. 0 };

    ghost gives = { Splits };

    ghost refuses = { RunsShort };

    ghost same = { λ _ _. ⊤ };

    fn read(&mut self, buffer: &mut [u8]) -> Result<usize> {
        let count = self.bytes.len().min(buffer.len()).min(self.most);
        buffer[..count].copy_from_slice(&self.bytes[..count]);
        self.bytes = &self.bytes[count..];
        Ok(count)
    }

    ghost lawful = { splitting };

    ghost keeps = { always };
}

impl BufRead for Trickle<'_> {
    ghost shown = { λ source. take source.shown source.bytes.now };

    fn fill_buf(&mut self) -> Result<&[u8]> {
        self.shown = self.bytes.len().min(self.most);
        Ok(&self.bytes[..self.shown])
    }

    fn consume(&mut self, amount: usize) {
        self.shown -= amount;
        self.bytes = &self.bytes[amount..];
    }

    ghost plain = { λ _ _ _ _. (λ p. p, λ p. p) };

    ghost plain_errors = { λ _ _ _. (λ p. p, λ p. p) };
}
