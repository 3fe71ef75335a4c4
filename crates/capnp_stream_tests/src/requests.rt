//! What the readers of framed messages ask their source for.
ghost use Rattle.std.specs.Prelude.{Some, ⊤};
ghost use Rattle.capnp_frame.specs.Prelude.{Splits, RunsShort, splitting, always};

use crate::fixtures::expect;
use crate::readers::{FORMAT_READERS, FormatReader, is_read};
use crate::samples::TWO_SEGMENTS;
use capnp_frame::Result;
use capnp_frame::io::Read;
use capnp_frame::serialize::Padding;
use capnp_frame_tests::retried;
use capnp_frame_tests::sources::Trickle;
use std::process::Abort;

// A source that counts what it is asked for, and how many of these requests are of no bytes.
#[derive(Drop)]
struct Counting<'a> {
    source: Trickle<'a>,
    requests: u64,
    empty: u64,
}

impl Read for Counting<'_> {
    ghost unread = { λ source. Some source.source.bytes.now };

    ghost failures = { λ _. 0 };

    ghost gives = { Splits };

    ghost refuses = { RunsShort };

    ghost same = { λ _ _. ⊤ };

    fn read(&mut self, buffer: &mut [u8]) -> Result<usize> {
        self.requests = self.requests.saturating_add(1);
        self.empty = self.empty.saturating_add(u64::from(buffer.is_empty()));
        self.source.read(buffer)
    }

    fn read_exact(&mut self, buffer: &mut [u8]) -> Result<()> {
        self.requests = self.requests.saturating_add(1);
        self.empty = self.empty.saturating_add(u64::from(buffer.is_empty()));
        self.source.read_exact(buffer)
    }

    ghost lawful = { splitting };

    ghost keeps = { always };
}

// Framed encodings, their segments, and how many chunks of them have bytes: the first word, the
// table's rest, the segments.
#[rattlefmt::skip]
const CHUNKS: [(&[u8], &[&[u8]], u64); 4] = [
    (&[0, 0, 0, 0, 0, 0, 0, 0], &[&[]], 1),
    (&[0, 0, 0, 0, 1, 0, 0, 0, 1, 2, 3, 4, 5, 6, 7, 8], &[&[1, 2, 3, 4, 5, 6, 7, 8]], 2),
    (&[1, 0, 0, 0, 0, 0, 0, 0, 0, 0, 0, 0, 9, 9, 9, 9], &[&[], &[]], 2),
    (&[1, 0, 0, 0, 0, 0, 0, 0, 1, 0, 0, 0, 9, 9, 9, 9, 1, 2, 3, 4, 5, 6, 7, 8],
     &[&[], &[1, 2, 3, 4, 5, 6, 7, 8]], 3),
];

// A chunk of no bytes asks for nothing. The tables' padding isn't zero, and is read.
#[test]
fn each_chunk_is_asked_for_once(rt: HostRuntime) -> Result<()> {
    retried!(count_chunks(&rt))
}

fn count_chunks(rt: &(impl Abort + AllocGlobal)) -> Result<()> {
    for reader in &FORMAT_READERS {
        for (encoding, segments, chunks) in &CHUNKS {
            let mut source = Counting {
                source: Trickle::new(encoding, usize::MAX),
                requests: 0,
                empty: 0,
            };
            let returned = is_read(rt.alloc(), (Padding::Any, *reader), &mut source, segments)?;
            let found = (returned, source.requests, source.empty);
            expect(rt, (*encoding, *reader), found, (true, *chunks, 0));
        }
    }
    Ok(())
}

// Case two-segments takes a given number of reads of at most a given number of bytes.
const READS: [(usize, u64); 4] = [(1, 24), (3, 9), (8, 3), (24, 3)];

#[test]
fn no_read_is_made_in_vain(rt: HostRuntime) -> Result<()> {
    retried!(count_reads(&rt))
}

fn count_reads(rt: &(impl Abort + AllocGlobal)) -> Result<()> {
    for (most, reads) in &READS {
        let mut source = Trickle::new(TWO_SEGMENTS.framed, *most);
        let call = (Padding::Zero, FormatReader::Copying);
        let returned = is_read(rt.alloc(), call, &mut source, TWO_SEGMENTS.segments)?;
        expect(rt, *most, (returned, source.reads), (true, *reads));
    }
    Ok(())
}
