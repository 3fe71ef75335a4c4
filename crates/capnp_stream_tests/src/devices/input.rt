use crate::devices::{ChoppyReader, giving};
use crate::fixtures::expect;
use capnp::devices::Input;
use capnp_frame::io::{BufRead, Read};
use capnp_frame::{ErrorKind, Result};
use capnp_frame_tests::cases::At;
use capnp_frame_tests::errors::kind_of;
use capnp_frame_tests::retried;
use std::alloc::Global;
use std::process::Abort;

// How often a device that gives two bytes a read was interrupted.
const INTERRUPTIONS: [u64; 2] = [3, 5000];

#[test]
fn interrupted_and_short_reads_lose_nothing(rt: HostRuntime) -> Result<()> {
    for interruptions in &INTERRUPTIONS {
        retried!(read_all(&rt, *interruptions))?;
    }
    Ok(())
}

fn read_all(rt: &(impl Abort + AllocGlobal), interruptions: u64) -> Result<()> {
    let at = At::new("interrupted reads", interruptions);
    let mut device = giving(b"abcdefg", 2, interruptions, 0);
    let mut input = input_of(rt.alloc(), &mut device)?;
    read_six(rt, &mut input, at)?;
    read_last(rt, &mut input, at)?;
    expect(rt, at, input.failures(), 0);
    Ok(())
}

// Reads five bytes, and then one.
fn read_six<R: Read>(rt: &impl Abort, input: &mut R, at: At<'_>) -> Result<()> {
    let mut got = [0; 5];
    input.read_exact(&mut got)?;
    expect(rt, at, got.as_slice(), b"abcde");
    assert_next(rt, input, b"f", at)
}

// One byte is shown, and after it there is none.
fn read_last<R: BufRead>(rt: &impl Abort, input: &mut R, at: At<'_>) -> Result<()> {
    let shown = input.fill_buf()?;
    assert!(rt; shown.len() == 1 && shown[0] == b'g');
    input.consume(1);
    assert_next(rt, input, b"", at)
}

fn input_of<'a, 'b>(
    alloc: Global,
    device: &'a mut ChoppyReader<'b>,
) -> Result<Input<&'a mut ChoppyReader<'b>>> {
    Input::new(alloc, device)
}

// A read returns these bytes.
fn assert_next<R: Read>(rt: &impl Abort, input: &mut R, wanted: &[u8], at: At<'_>) -> Result<()> {
    let mut got = [0; 5];
    let count = input.read(&mut got)?;
    expect(rt, at, &got[..count], wanted);
    Ok(())
}

// The next bytes are these.
fn assert_shown<R: BufRead>(
    rt: &impl Abort,
    input: &mut R,
    wanted: &[u8],
    at: At<'_>,
) -> Result<()> {
    let shown = input.fill_buf()?;
    expect(rt, at, shown, wanted);
    Ok(())
}

// The read that fails, of at most 3 bytes each, and what is shown after it.
const FAILURES: [(u64, &[u8]); 3] = [(1, b"abc"), (2, b"def"), (3, b"gh")];

#[test]
fn an_error_is_no_end_and_gives_no_bytes(rt: HostRuntime) -> Result<()> {
    for call in &FAILURES {
        retried!(read_on(&rt, call.0, call.1))?;
    }
    Ok(())
}

fn read_on(rt: &(impl Abort + AllocGlobal), bad_read: u64, next: &[u8]) -> Result<()> {
    let at = At::new("the read that fails", bad_read);
    let mut device = giving(b"abcdefgh", 3, 0, bad_read);
    let mut input = input_of(rt.alloc(), &mut device)?;
    let kind = kind_of(input.read_exact(&mut [0; 8]))?;
    expect(rt, at, kind, Some(ErrorKind::DeviceFailed));
    expect(rt, at, input.failures(), 1);
    assert_shown(rt, &mut input, next, at)
}

// How much is asked for, and how much of the device.
const REQUESTS: [(usize, usize); 3] = [(4095, 4096), (4096, 4096), (5000, 5000)];

#[test]
fn long_requests_go_past_the_buffer(rt: HostRuntime) -> Result<()> {
    for request in &REQUESTS {
        retried!(read_much(&rt, request.0, request.1))?;
    }
    Ok(())
}

fn read_much(rt: &(impl Abort + AllocGlobal), request: usize, longest: usize) -> Result<()> {
    let at = At::new("bytes asked for", request as u64);
    let bytes = vec![in rt.alloc(); 7u8; 10000]?;
    let mut device = giving(&bytes, 10000, 0, 0);
    let mut input = input_of(rt.alloc(), &mut device)?;
    let mut got = vec![in rt.alloc(); 0u8; request]?;
    let count = Read::read(&mut input, &mut got)?;
    drop(input);
    expect(rt, at, count, request);
    expect(rt, at, device.longest, longest);
    expect(rt, at, got.as_slice(), bytes.get(..request).unwrap_or(&[]));
    Ok(())
}
