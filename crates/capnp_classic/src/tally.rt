//! What is reported of the messages that were passed.
use capnp::message::{Reader, ReaderSegments};
use capnp::{Result, serialize};
use std::alloc::Global;

/// Sums over all messages, and their canonical forms where these are wanted.
#[derive(Drop)]
pub struct Tally {
    alloc: Global,
    /// What all responses say.
    pub values: u64,
    /// The bytes of all messages as they were built.
    pub bytes: u64,
    /// How many responses were wrong.
    pub wrong: u64,
    /// The canonical form of each message, framed.
    pub written: Option<Vec<u8>>,
}

impl Tally {
    /// The tally of no message.
    pub fn new(alloc: Global, writes: bool) -> Tally {
        Tally {
            alloc,
            values: 0,
            bytes: 0,
            wrong: 0,
            written: if writes { Some(Vec::new(alloc)) } else { None },
        }
    }

    /// Writes a message's canonical form, where it is wanted. Fails as `write_canonical_message`
    /// does.
    pub fn write<S: ReaderSegments>(&mut self, message: &Reader<S>) -> Result<()> {
        if let Some(stream) = &mut self.written {
            serialize::write_canonical_message(self.alloc, stream, message)?;
        }
        Ok(())
    }

    /// Counts a message that was built.
    pub fn count(&mut self, bytes: &[u8]) {
        self.bytes = self.bytes.wrapping_add(bytes.len() as u64);
    }

    /// Adds what a response says, and what it has to say.
    pub fn add(&mut self, said: u64, expected: u64) {
        self.values = self.values.wrapping_add(said);
        if said != expected {
            self.wrong = self.wrong.wrapping_add(1);
        }
    }
}
