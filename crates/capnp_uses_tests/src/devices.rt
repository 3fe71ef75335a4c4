//! The callers of devices, over slices, cursors, and a stream in two parts. What they return their
//! contracts say.
use crate::callers::both;
use capnp::Result;
use capnp::message::DEFAULT_READER_OPTIONS;
use capnp::streams::Format;
use capnp_uses::devices::{all_of_device, all_of_parts, first_of_cursor, first_of_device};
use std::alloc::Global;
use std::io;

#[test]
fn messages_of_devices(rt: HostRuntime) -> Result<()> {
    for format in &[Format::Framed, Format::Packed] {
        let stream = both(rt.alloc(), *format)?;
        read_slices(rt.alloc(), *format, &stream)?;
        read_cursors(rt.alloc(), *format)?;
    }
    Ok(())
}

fn read_slices(alloc: Global, format: Format, stream: &[u8]) -> Result<()> {
    let options = DEFAULT_READER_OPTIONS;
    let first = first_of_device(alloc, stream, format, options)?;
    first.read?;
    for end in 0..stream.len() {
        let (first, second) = (&stream[..end], &stream[end..]);
        let all = all_of_parts(alloc, first, second, format, options)?;
        all.read?;
    }
    Ok(())
}

fn read_cursors(alloc: Global, format: Format) -> Result<()> {
    let options = DEFAULT_READER_OPTIONS;
    let cursor = io::Cursor::new(both(alloc, format)?);
    let first = first_of_cursor(alloc, cursor, format, options)?;
    first.read?;
    let cursor = io::Cursor::new(both(alloc, format)?);
    let all = all_of_device(alloc, cursor, format, options)?;
    all.read?;
    Ok(())
}
