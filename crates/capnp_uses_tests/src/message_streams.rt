//! Files whose messages are gone over: no clause says which file is opened, or how that fails.
use crate::fixtures::expect;
use capnp::message::DEFAULT_READER_OPTIONS;
use capnp::serialize::Padding;
use capnp::streams::{Format, open_file};
use std::io;
use std::test::Fail;

#[test]
fn files_that_are_opened(rt: HostRuntime) -> Result<(), Fail> {
    let options = DEFAULT_READER_OPTIONS;
    let mut empty = open_file(&rt, "/dev/null", Format::Framed, Padding::Zero, options)?;
    expect(&rt, "nothing", empty.next().is_none(), true);
    let missing = open_file(&rt, "/missing/file", Format::Framed, Padding::Zero, options);
    let reason = match &missing {
        Ok(_) => None,
        Err(error) => Some(error.kind()),
    };
    assert!(rt; reason == Some(io::ErrorKind::NotFound));
    Ok(())
}
