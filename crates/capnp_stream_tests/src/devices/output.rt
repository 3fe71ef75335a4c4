use crate::devices::{ChoppyWriter, TAKES_ALL, Ways, taking};
use crate::fixtures::expect;
use capnp::devices::Output;
use capnp_frame::io::Write;
use capnp_frame::{ErrorKind, Result};
use capnp_frame_tests::cases::At;
use capnp_frame_tests::retried;
use std::process::Abort;

// How many bytes are collected before a device of these ways.
const WHOLE: [(usize, Ways); 8] = [
    (
        0,
        Ways {
            most: 2,
            interruptions: 3,
            ..TAKES_ALL
        },
    ),
    (
        4,
        Ways {
            most: 2,
            interruptions: 3,
            ..TAKES_ALL
        },
    ),
    (
        64,
        Ways {
            most: 2,
            interruptions: 3,
            ..TAKES_ALL
        },
    ),
    (
        0,
        Ways {
            most: 2,
            interruptions: 5000,
            ..TAKES_ALL
        },
    ),
    (
        64,
        Ways {
            most: 2,
            interruptions: 5000,
            ..TAKES_ALL
        },
    ),
    (
        0,
        Ways {
            flush_interruptions: 1,
            ..TAKES_ALL
        },
    ),
    (
        64,
        Ways {
            flush_interruptions: 1,
            ..TAKES_ALL
        },
    ),
    (
        64,
        Ways {
            flush_interruptions: 5000,
            ..TAKES_ALL
        },
    ),
];

// An interrupted call is made again.
#[test]
fn parts_and_interruptions_lose_nothing(rt: HostRuntime) -> Result<()> {
    for case in &WHOLE {
        retried!(write_whole(&rt, case.0, case.1))?;
    }
    Ok(())
}

fn write_whole(rt: &(impl Abort + AllocGlobal), capacity: usize, ways: Ways) -> Result<()> {
    let at = At::new("bytes collected", capacity as u64);
    let mut device = taking(rt.alloc(), ways)?;
    let mut output = Output::new(rt.alloc(), capacity, &mut device)?;
    write_chunks(&mut output)?;
    output.flush()?;
    let failures = output.failures();
    drop(output);
    expect(rt, at, failures, 0);
    expect(rt, at, device.got.as_slice(), b"abcdefghi");
    expect(rt, at, device.flushes > ways.flush_interruptions, true);
    Ok(())
}

const CHUNKS: [&[u8]; 4] = [b"abc", b"", b"defgh", b"i"];

fn write_chunks<W: Write>(output: &mut W) -> Result<()> {
    for chunk in &CHUNKS {
        output.write_all(chunk)?;
    }
    Ok(())
}

// The call that a failure is returned from.
#[derive(Clone, Copy, PartialEq, Eq)]
enum FailedCall {
    None,
    Write,
    Flush,
}

// How many bytes are collected before a device of these ways, where its failure is returned, and what
// the device has then, where that is known.
#[derive(Drop)]
struct Failing {
    capacity: usize,
    ways: Ways,
    call: FailedCall,
    got: Option<&'static [u8]>,
}

const FAILURES: [Failing; 4] = [
    Failing {
        capacity: 0,
        ways: Ways {
            most: 4,
            bad_write: 2,
            ..TAKES_ALL
        },
        call: FailedCall::Write,
        got: Some(b"abcd"),
    },
    Failing {
        capacity: 0,
        ways: Ways {
            most: 0,
            ..TAKES_ALL
        },
        call: FailedCall::Write,
        got: None,
    },
    Failing {
        capacity: 64,
        ways: Ways {
            most: 4,
            bad_write: 2,
            ..TAKES_ALL
        },
        call: FailedCall::Flush,
        got: None,
    },
    Failing {
        capacity: 64,
        ways: Ways {
            most: 4,
            fails_to_flush: true,
            ..TAKES_ALL
        },
        call: FailedCall::Flush,
        got: None,
    },
];

#[test]
fn an_error_is_returned(rt: HostRuntime) -> Result<()> {
    for case in &FAILURES {
        retried!(fail_at(&rt, case))?;
    }
    Ok(())
}

fn fail_at(rt: &(impl Abort + AllocGlobal), case: &Failing) -> Result<()> {
    let at = At::new("bytes collected", case.capacity as u64);
    let mut device = taking(rt.alloc(), case.ways)?;
    let mut output = Output::new(rt.alloc(), case.capacity, &mut device)?;
    let call = failed_call(&mut output)?;
    let failures = output.failures();
    drop(output);
    expect(rt, at, call == case.call, true);
    expect(rt, at, failures, 1);
    let got = device.got.as_slice();
    expect(rt, at, got, case.got.unwrap_or(got));
    Ok(())
}

// The call that fails.
fn failed_call(output: &mut Output<&mut ChoppyWriter>) -> Result<FailedCall> {
    if is_device_failed(output.write_all(b"abcdef")) {
        return Ok(FailedCall::Write);
    }
    if is_device_failed(output.flush()) {
        return Ok(FailedCall::Flush);
    }
    Ok(FailedCall::None)
}

fn is_device_failed(returned: Result<()>) -> bool {
    match returned {
        Ok(()) => false,
        Err(error) => error.kind == ErrorKind::DeviceFailed,
    }
}
