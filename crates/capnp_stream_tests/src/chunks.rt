//! Chunks that are packed by themselves.
use crate::chunk_cases::{PACKED, Packed};
use crate::fixtures::expect;
use capnp_frame::io::{BufRead, Read, Write};
use capnp_frame::{ErrorKind, Result};
use capnp_frame_tests::cases::At;
use capnp_frame_tests::errors::error_of;
use capnp_frame_tests::retried;
use capnp_frame_tests::sinks::FailingSink;
use capnp_frame_tests::sources::{Failing, Trickle};
use capnp_pack::{PackedRead, PackedWrite};
use std::process::Abort;

// The encoding of each case's chunks where this packer writes it.
#[test]
fn chunks_are_packed(rt: HostRuntime) -> Result<()> {
    retried!(pack_each(&rt))
}

fn pack_each(rt: &(impl Abort + AllocGlobal)) -> Result<()> {
    for case in &PACKED {
        if case.is_written {
            let mut sink = FailingSink::new(Vec::new(rt.alloc()), 0);
            pack(&mut sink, case.chunks)?;
            expect(rt, case.name, sink.written.as_slice(), case.encoding);
            expect(rt, case.name, sink.calls, case.handed.unwrap_or(sink.calls));
        }
    }
    Ok(())
}

fn pack<W: Write>(sink: &mut W, chunks: &[&[u8]]) -> Result<()> {
    let mut packed = PackedWrite::new(sink);
    for chunk in chunks {
        packed.write_all(*chunk)?;
    }
    Ok(())
}

// How a chunk is unpacked: by `read_exact`, or by one `read`, which returns all that was asked for.
#[derive(Clone, Copy)]
enum Request {
    Exact,
    Part,
}

// How many bytes are unpacked.
fn unpack<R: BufRead>(request: Request, source: &mut R, room: &mut [u8]) -> Result<usize> {
    let mut packed = PackedRead::new(source);
    match request {
        Request::Exact => {
            packed.read_exact(room)?;
            Ok(room.len())
        }
        Request::Part => packed.read(room),
    }
}

// The source shows or returns at most a given number of bytes, and at last each encoding whole.
#[test]
fn chunks_are_unpacked(rt: HostRuntime) -> Result<()> {
    for case in &PACKED {
        for most in 1..=24 {
            unpack_case(&rt, case, Request::Exact, most)?;
            unpack_case(&rt, case, Request::Part, most)?;
        }
        unpack_case(&rt, case, Request::Exact, 5000)?;
        unpack_case(&rt, case, Request::Part, 5000)?;
    }
    Ok(())
}

// A source that shows a chunk whole is asked once for each, and for no bytes not at all.
fn unpack_case(rt: &impl Abort, case: &Packed, request: Request, most: usize) -> Result<()> {
    let at = At::new(case.name, most as u64);
    let mut source = Trickle::new(case.encoding, most);
    let mut asked: u64 = 0;
    for chunk in case.chunks {
        unpack_chunk(rt, request, &mut source, chunk, at)?;
        asked = asked.saturating_add(u64::from(!chunk.is_empty()));
    }
    expect(rt, at, (source.bytes.len(), source.asked_at_end), (0, 0));
    if case.encoding.len() <= most {
        expect(rt, at, (source.fills, source.reads), (asked, 0));
    }
    Ok(())
}

fn unpack_chunk(
    rt: &impl Abort,
    request: Request,
    source: &mut Trickle<'_>,
    chunk: &[u8],
    at: At<'_>,
) -> Result<()> {
    let mut space = [0xaa; 2064];
    let room = &mut space[..chunk.len().min(2064)];
    expect(rt, at, unpack(request, source, room)?, chunk.len());
    expect(rt, at, &*room, chunk);
    Ok(())
}

// Where a source shows a tag alone and then fails, nothing of its word is written.
#[test]
fn a_tag_alone_leaves_the_word(rt: HostRuntime) {
    for tag in &[[0], [1], [2], [0x24], [0x80], [0xf0], [0xfe], [0xff]] {
        let mut source = Failing::new(Trickle::new(tag, 1), 2);
        let mut word = [0xaa; 8];
        let error = error_of(unpack(Request::Exact, &mut source, &mut word));
        expect(
            &rt,
            *tag,
            (error, word),
            (ErrorKind::DeviceFailed.number(), [0xaa; 8]),
        );
    }
}

#[rattlefmt::skip]
const RUN: [u8; 27] = [
    0xff, 1, 2, 3, 4, 5, 6, 7, 8, 2, 1, 1, 1, 1, 1, 1, 1, 1, 2, 2, 2, 2, 2, 2, 2, 2, 0xaa,
];

#[rattlefmt::skip]
const RUN_WORDS: [u8; 24] = [1, 2, 3, 4, 5, 6, 7, 8, 1, 1, 1, 1, 1, 1, 1, 1, 2, 2, 2, 2, 2, 2, 2, 2];

// What is shown of a literal run is copied, and the rest is one request.
#[test]
fn a_cut_literal_run_is_asked_for_once(rt: HostRuntime) -> Result<()> {
    for most in 14..25 {
        let mut source = Trickle::new(&RUN, most);
        let mut words = [0xaa; 24];
        unpack(Request::Exact, &mut source, &mut words)?;
        expect(&rt, most, (words, source.bytes.len()), (RUN_WORDS, 1));
        expect(&rt, most, source.reads <= 1, true);
    }
    Ok(())
}
