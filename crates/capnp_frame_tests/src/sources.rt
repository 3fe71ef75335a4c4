//! Sources that return little at a time, or fail.
ghost use Rattle.std.specs.Prelude.{◌≡◌, ◌<◌, Some, take, ⊤};
ghost use Rattle.capnp_frame.specs.Prelude.{Splits, RunsShort, splitting, always};

use capnp_frame::io::{BufRead, Read};
use capnp_frame::{Error, ErrorKind, Result};

/// A slice that returns, or shows, at most a given number of bytes at once, and at least one. It
/// counts how often it is asked to show bytes, how often to read some, and how often to do either
/// where none is left.
#[derive(Drop)]
pub struct Trickle<'a> {
    pub bytes: &'a [u8],
    pub most: usize,
    shown: usize,
    pub fills: u64,
    pub reads: u64,
    pub asked_at_end: u64,
    ghost some: { 0 < most },
}

impl<'a> Trickle<'a> {
    pub fn new(bytes: &'a [u8], most: usize) -> Trickle<'a> {
        Trickle {
            bytes,
            most: most.max(1),
            shown: 0,
            fills: 0,
            reads: 0,
            asked_at_end: 0,
        }
    }
}

impl Read for Trickle<'_> {
    ghost unread = { λ source. Some source.bytes.now };

    ghost failures = { λ _. 0 };

    ghost gives = { Splits };

    ghost refuses = { RunsShort };

    ghost same = { λ _ _. ⊤ };

    fn read(&mut self, buffer: &mut [u8]) -> Result<usize> {
        self.reads = self.reads.saturating_add(1);
        self.asked_at_end = self
            .asked_at_end
            .saturating_add(u64::from(self.bytes.is_empty()));
        let count = self.bytes.len().min(buffer.len()).min(self.most);
        buffer[..count].copy_from_slice(&self.bytes[..count]);
        self.bytes = &self.bytes[count..];
        Ok(count)
    }

    ghost lawful = { splitting };

    ghost keeps = { always };
}

impl BufRead for Trickle<'_> {
    ghost shown = { λ source. take source.shown source.bytes.now };

    fn fill_buf(&mut self) -> Result<&[u8]> {
        self.fills = self.fills.saturating_add(1);
        self.asked_at_end = self
            .asked_at_end
            .saturating_add(u64::from(self.bytes.is_empty()));
        self.shown = self.bytes.len().min(self.most);
        Ok(&self.bytes[..self.shown])
    }

    fn consume(&mut self, amount: usize) {
        self.shown -= amount;
        self.bytes = &self.bytes[amount..];
    }

    ghost plain = { λ _ _ _ _. (λ p. p, λ p. p) };

    ghost plain_errors = { λ _ _ _. (λ p. p, λ p. p) };
}

/// A source whose calls are counted from 1. One call fails, and takes nothing.
#[derive(Drop)]
pub struct Failing<'a> {
    pub source: Trickle<'a>,
    pub calls: u64,
    pub fails_at: u64,
    pub failures: u64,
}

impl<'a> Failing<'a> {
    pub fn new(source: Trickle<'a>, fails_at: u64) -> Failing<'a> {
        Failing {
            source,
            calls: 0,
            fails_at,
            failures: 0,
        }
    }
}

impl Read for Failing<'_> {
    ghost unread = { λ source. Some source.source.bytes.now };

    ghost failures = { λ source. source.failures };

    ghost gives = { Splits };

    ghost refuses = { RunsShort };

    ghost same = { λ _ _. ⊤ };

    fn read(&mut self, buffer: &mut [u8]) -> Result<usize> {
        self.calls = self.calls.saturating_add(1);
        if self.calls == self.fails_at {
            self.failures = self.failures.saturating_add(1);
            return Err(Error::from_kind(ErrorKind::DeviceFailed));
        }
        self.source.read(buffer)
    }

    ghost lawful = { splitting };

    ghost keeps = { always };
}

impl BufRead for Failing<'_> {
    ghost shown = { λ source. take source.source.shown source.source.bytes.now };

    fn fill_buf(&mut self) -> Result<&[u8]> {
        self.calls = self.calls.saturating_add(1);
        if self.calls == self.fails_at {
            self.failures = self.failures.saturating_add(1);
            return Err(Error::from_kind(ErrorKind::DeviceFailed));
        }
        self.source.shown = self.source.bytes.len().min(self.source.most);
        Ok(&self.source.bytes[..self.source.shown])
    }

    fn consume(&mut self, amount: usize) {
        self.source.consume(amount)
    }

    ghost plain = { λ _ _ _ _. (λ p. p, λ p. p) };

    ghost plain_errors = { λ _ _ _. (λ p. p, λ p. p) };
}
