//! What becomes of the messages that a benchmark builds.
use crate::digest::Digest;
use capnp::Result;
use std::alloc::Global;

/// Where the messages of a benchmark go: into a digest of their bytes, or into a stream, framed.
#[derive(Drop)]
pub enum Output {
    Digest(Digest),
    Stream(Vec<u8>),
}

impl Output {
    /// An output to which nothing was added.
    pub fn new(alloc: Global, writes: bool) -> Output {
        if writes {
            Output::Stream(Vec::new(alloc))
        } else {
            Output::Digest(Digest::new())
        }
    }

    /// Adds a message of one segment, by its bytes.
    pub fn add(&mut self, segment: &[u8]) -> Result<()> {
        match self {
            Output::Digest(digest) => {
                digest.add_bytes(segment);
            }
            Output::Stream(stream) => {
                // The segment table: no further segment, and the words of this one.
                let table = (segment.len() as u64 / 8) << 32;
                stream.extend_from_slice(table.to_le_bytes().as_slice())?;
                stream.extend_from_slice(segment)?;
            }
        }
        Ok(())
    }
}
