//! Devices that move little at a time, are interrupted, or fail.
mod input;
mod output;

use capnp_frame::Result;
use std::alloc::Global;
use std::io;

/// Gives a few of its bytes a read. Its first reads are interrupted, and the read `bad_read`,
/// counted from 1, fails.
#[derive(Drop)]
pub struct ChoppyReader<'a> {
    bytes: &'a [u8],
    most: usize,
    interruptions: u64,
    bad_read: u64,
    reads: u64,
    longest: usize,
}

pub fn giving(bytes: &[u8], most: usize, interruptions: u64, bad_read: u64) -> ChoppyReader<'_> {
    ChoppyReader {
        bytes,
        most,
        interruptions,
        bad_read,
        reads: 0,
        longest: 0,
    }
}

impl io::Read for ChoppyReader<'_> {
    fn read(&mut self, buf: &mut [u8]) -> io::Result<usize> {
        self.reads = self.reads.saturating_add(1);
        self.longest = self.longest.max(buf.len());
        if self.reads <= self.interruptions {
            return Err(io::Error::from(io::ErrorKind::Interrupted));
        }
        if self.reads == self.bad_read {
            return Err(io::Error::from(io::ErrorKind::BrokenPipe));
        }
        let count = self.bytes.len().min(buf.len()).min(self.most);
        buf[..count].copy_from_slice(&self.bytes[..count]);
        self.bytes = &self.bytes[count..];
        Ok(count)
    }
}

/// How a device that is written behaves. It takes `most` bytes a write, and its first writes and
/// its first flushes are interrupted. The write `bad_write`, counted from 1, fails, and each flush
/// where `fails_to_flush` is true.
#[derive(Clone, Copy)]
struct Ways {
    most: usize,
    interruptions: u64,
    flush_interruptions: u64,
    bad_write: u64,
    fails_to_flush: bool,
}

const TAKES_ALL: Ways = Ways {
    most: 1000,
    interruptions: 0,
    flush_interruptions: 0,
    bad_write: 0,
    fails_to_flush: false,
};

/// A device of these ways, what it got, and how often it was called.
#[derive(Drop)]
struct ChoppyWriter {
    ways: Ways,
    got: Vec<u8>,
    writes: u64,
    flushes: u64,
}

// It has room for what the tests write, so it is never out of memory.
fn taking(alloc: Global, ways: Ways) -> Result<ChoppyWriter> {
    Ok(ChoppyWriter {
        ways,
        got: Vec::with_capacity(alloc, 16)?,
        writes: 0,
        flushes: 0,
    })
}

impl io::Write for ChoppyWriter {
    fn write(&mut self, buf: &[u8]) -> io::Result<usize> {
        self.writes = self.writes.saturating_add(1);
        if self.writes <= self.ways.interruptions {
            return Err(io::Error::from(io::ErrorKind::Interrupted));
        }
        if self.writes == self.ways.bad_write {
            return Err(io::Error::from(io::ErrorKind::StorageFull));
        }
        let count = buf.len().min(self.ways.most);
        self.got.extend_from_slice(&buf[..count])?;
        Ok(count)
    }

    fn flush(&mut self) -> io::Result<()> {
        self.flushes = self.flushes.saturating_add(1);
        if self.flushes <= self.ways.flush_interruptions {
            return Err(io::Error::from(io::ErrorKind::Interrupted));
        }
        if self.ways.fails_to_flush {
            return Err(io::Error::from(io::ErrorKind::StorageFull));
        }
        Ok(())
    }
}
