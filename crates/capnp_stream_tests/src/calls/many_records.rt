//! A log of 2,105 records, which are appended by one call after another and read at once.
use crate::fixtures::expect;
use crate::writers::build_far;
use capnp::message::{Builder, DEFAULT_READER_OPTIONS, HeapAllocator, ReaderSegments};
use capnp::record_log::{append, read_log};
use capnp_frame::Result;
use std::process::Abort;

const COUNT: usize = 2105;

// What is in the log, and what is read of it, contracts say.
#[test]
fn each_record_is_appended_and_read(rt: HostRuntime) -> Result<()> {
    let message = build_far(rt.alloc())?;
    let mut log = Vec::new(rt.alloc());
    for _ in 0..COUNT {
        append_record(&rt, &mut log, &message)?;
    }
    let read = read_log(rt.alloc(), &log, DEFAULT_READER_OPTIONS);
    expect(&rt, "records", read.messages.len(), COUNT);
    Ok(())
}

fn append_record(
    rt: &(impl Abort + AllocGlobal),
    log: &mut Vec<u8>,
    message: &Builder<HeapAllocator>,
) -> Result<()> {
    assert!(rt; !message.is_empty());
    append(rt.alloc(), log, message)
}
