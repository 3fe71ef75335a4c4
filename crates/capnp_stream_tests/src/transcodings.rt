//! Messages that are taken from one format to the other, while a device fails, and by any padding.
use crate::fixtures::expect;
use crate::sink_cases::{PACKED_THREE, THREE};
use capnp::message::DEFAULT_READER_OPTIONS;
use capnp::{Way, transcode, transcode_lenient};
use capnp_frame::{ErrorKind, Result};
use capnp_frame_tests::errors::kind_of;
use capnp_frame_tests::retried;
use capnp_frame_tests::sources::{Failing, Trickle};
use std::alloc::Global;
use std::process::Abort;

// The ways, with what three messages are encoded as before.
const WAYS: [(Way, &[u8]); 2] = [(Way::Pack, THREE), (Way::Unpack, PACKED_THREE)];

// A source that fails at its nth call, until a run meets no failure. What is written contracts say.
#[test]
fn a_source_that_fails(rt: HostRuntime) -> Result<()> {
    for (way, encoding) in &WAYS {
        for most in &[1, 3, 16] {
            retried!(fail_each(&rt, *way, encoding, *most))?;
        }
    }
    Ok(())
}

fn fail_each(
    rt: &(impl Abort + AllocGlobal),
    way: Way,
    encoding: &[u8],
    most: usize,
) -> Result<()> {
    let mut ended = false;
    for fails_at in 1..=200 {
        if !ended {
            let mut source = Failing::new(Trickle::new(encoding, most), fails_at);
            let returned = kind_of(written_from(rt.alloc(), way, &mut source))?;
            ended = returned.is_none();
            let failed = if ended {
                None
            } else {
                Some(ErrorKind::DeviceFailed)
            };
            expect(
                rt,
                fails_at,
                (returned, source.failures),
                (failed, u64::from(!ended)),
            );
        }
    }
    expect(rt, most, ended, true);
    Ok(())
}

fn written_from(alloc: Global, way: Way, source: &mut Failing<'_>) -> Result<()> {
    let mut written: Vec<u8> = Vec::new(alloc);
    transcode(alloc, way, source, &mut written, DEFAULT_READER_OPTIONS)
}

// The encodings of case two-segments with a padding of nines, by the ways that they are taken.
#[rattlefmt::skip]
const PADDED: [(Way, &[u8]); 2] = [
    (Way::Pack, &[1, 0, 0, 0, 0, 0, 0, 0, 1, 0, 0, 0, 9, 9, 9, 9, 1, 2, 3, 4, 5, 6, 7, 8]),
    (Way::Unpack, &[1, 1, 0xf1, 1, 9, 9, 9, 9, 0xff, 1, 2, 3, 4, 5, 6, 7, 8, 0]),
];

#[test]
fn any_padding_is_accepted(rt: HostRuntime) -> Result<()> {
    for (way, encoding) in &PADDED {
        retried!(transcode_padded(rt.alloc(), *way, encoding))?;
    }
    Ok(())
}

fn transcode_padded(alloc: Global, way: Way, encoding: &[u8]) -> Result<()> {
    let mut source = encoding;
    let mut written: Vec<u8> = Vec::new(alloc);
    transcode_lenient(
        alloc,
        way,
        &mut source,
        &mut written,
        DEFAULT_READER_OPTIONS,
    )
}
