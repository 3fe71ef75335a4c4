//! The message on standard input.
use anyhow::{Context, Result};
use capnp_frame::message::ReaderOptions;
use capnp_frame::serialize::{OwnedSegments, try_read_segments};
use capnp_wire::arena::ReaderArena;
use std::alloc::Global;
use std::io::Read;

/// The limits for what the schema compiler sends: 64 MiB, and objects nested as deep as its own
/// limit.
const OPTIONS: ReaderOptions = ReaderOptions {
    traversal_limit_in_words: Some(8388608),
    nesting_limit: 64,
};

/// Reads the message that a source has.
pub fn read_message(alloc: Global, source: &mut impl Read) -> Result<ReaderArena<OwnedSegments>> {
    let mut bytes = Vec::new(alloc);
    source.read_to_end(&mut bytes)?;
    let mut unread = bytes.as_slice();
    let segments = try_read_segments(alloc, &mut unread, OPTIONS)
        .context("standard input is no message")?
        .context("standard input is empty")?;
    Ok(ReaderArena::new(segments, OPTIONS))
}
