//! Sinks that fail at one of their chunks, and slices that are too short.
use crate::fixtures::expect;
use crate::parts::WORDS;
use crate::sink_cases::{Case, MESSAGES, Written};
use crate::writers::{transcode_three, write_by, write_far, write_three};
use capnp_frame::io::Write;
use capnp_frame::{ErrorKind, Result};
use capnp_frame_tests::cases::At;
use capnp_frame_tests::errors::kind_of;
use capnp_frame_tests::retried;
use capnp_frame_tests::sinks::FailingSink;
use capnp_pack::PackedWrite;
use std::process::Abort;

fn write<W: Write>(rt: &(impl Abort + AllocGlobal), written: Written, sink: &mut W) -> Result<()> {
    match written {
        Written::Words(words) => PackedWrite::new(sink).write_all(words.as_flattened()),
        Written::Segments(writer, segments) => write_by(rt, writer, sink, segments),
        Written::Built(format) => write_far(rt, format, sink),
        Written::Three(format) => write_three(rt, format, sink),
        Written::Transcoded(way) => transcode_three(rt.alloc(), way, sink),
    }
}

#[test]
fn no_chunk_of_words_follows_a_failed_one(rt: HostRuntime) -> Result<()> {
    retried!(fail_each(&rt, &WORDS))
}

#[test]
fn no_chunk_of_messages_follows_a_failed_one(rt: HostRuntime) -> Result<()> {
    retried!(fail_each(&rt, &MESSAGES))
}

// A sink that fails at its nth chunk takes what comes after it, so that a writer that goes on leaves
// a hole.
fn fail_each(rt: &(impl Abort + AllocGlobal), cases: &[Case]) -> Result<()> {
    for case in cases {
        let mut ended = false;
        for fails_at in 1..=16 {
            if !ended {
                ended = fail_at(rt, case, fails_at)?;
            }
        }
        expect(rt, case.name, ended, true);
    }
    Ok(())
}

// Whether the run meets no failure. In one that does just the chunks before it are written.
fn fail_at(rt: &(impl Abort + AllocGlobal), case: &Case, fails_at: u64) -> Result<bool> {
    let at = At::new(case.name, fails_at);
    let mut sink = FailingSink::new(Vec::new(rt.alloc()), fails_at);
    let returned = kind_of(write(rt, case.written, &mut sink))?;
    let written = sink.written.as_slice();
    if returned.is_none() {
        expect(rt, at, (written, sink.failures), (case.encoding, 0));
        expect(rt, at, has_chunks(case, sink.calls), true);
        return Ok(true);
    }
    expect(rt, at, returned, Some(ErrorKind::DeviceFailed));
    expect(rt, at, (sink.calls, sink.failures), (fails_at, 1));
    expect(rt, at, is_front(case, written, fails_at), true);
    Ok(false)
}

fn has_chunks(case: &Case, chunks: u64) -> bool {
    chunks == case.chunks || case.ends.is_empty() && chunks > case.chunks
}

// Whether these bytes are what is written before a chunk: where it isn't known, all of the encoding is
// not, and the first chunk follows nothing.
fn is_front(case: &Case, written: &[u8], chunk: u64) -> bool {
    let is_its_end = match case.ends.get(chunk.saturating_sub(1) as usize) {
        Some(end) => written.len() == *end,
        None => written.len() < case.encoding.len() && written.is_empty() == (chunk == 1),
    };
    is_its_end && case.encoding.starts_with(written)
}

// A caller-provided slice takes the chunks that it has room for, and is unchanged after them.
#[test]
fn slices_take_the_chunks_that_fit(rt: HostRuntime) -> Result<()> {
    for case in &MESSAGES {
        if !case.ends.is_empty() {
            for room in 0..=case.encoding.len() {
                retried!(fill(&rt, case, room))?;
            }
        }
    }
    Ok(())
}

fn fill(rt: &(impl Abort + AllocGlobal), case: &Case, room: usize) -> Result<()> {
    let at = At::new(case.name, room as u64);
    let fits = fitting(case.ends, room).min(128);
    let mut space = [9; 128];
    let mut left: &mut [u8] = &mut space[..room.min(128)];
    let error = kind_of(write(rt, case.written, &mut left))?;
    let found = (error, left.len());
    let failed = if room < case.encoding.len() {
        Some(ErrorKind::BufferNotLargeEnough)
    } else {
        None
    };
    expect(rt, at, found, (failed, room.saturating_sub(fits)));
    expect(
        rt,
        at,
        &space[..fits],
        case.encoding.get(..fits).unwrap_or(&[]),
    );
    expect(rt, at, &space[fits..], &[9; 128][fits..]);
    Ok(())
}

// How many bytes the chunks that fit take.
fn fitting(ends: &[usize], room: usize) -> usize {
    let mut fits = 0;
    for end in ends {
        if *end <= room {
            fits = *end;
        }
    }
    fits
}
