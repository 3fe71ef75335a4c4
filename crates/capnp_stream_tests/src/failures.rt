//! Sources that fail at their nth call.
use crate::fixtures::expect;
use crate::readers::{Call, FORMATS, READERS, is_returned};
use crate::samples::{SAMPLES, Sample, encoding_of};
use capnp_frame::serialize::Padding;
use capnp_frame::{ErrorKind, Result};
use capnp_frame_tests::cases::At;
use capnp_frame_tests::errors::kind_of;
use capnp_frame_tests::retried;
use capnp_frame_tests::sources::{Failing, Trickle};
use std::process::Abort;

// The rules of padding, and how many bytes a call shows or returns at most.
#[rattlefmt::skip]
const CUTS: [(Padding, usize); 6] = [
    (Padding::Zero, 1), (Padding::Zero, 2), (Padding::Zero, 3), (Padding::Zero, 7), (Padding::Zero, 16),
    (Padding::Any, 7),
];

#[test]
fn a_failed_call_is_no_result(rt: HostRuntime) -> Result<()> {
    retried!(fail_readers(&rt))
}

fn fail_readers(rt: &(impl Abort + AllocGlobal)) -> Result<()> {
    for (padding, most) in &CUTS {
        for reader in &READERS {
            for format in &FORMATS {
                fail_samples(rt, (*format, *padding, *reader), *most)?;
            }
        }
    }
    Ok(())
}

// Each call of the source fails in turn, until a run meets no failure.
fn fail_samples(rt: &(impl Abort + AllocGlobal), call: Call, most: usize) -> Result<()> {
    for sample in &SAMPLES {
        let mut ended = false;
        for fails_at in 1..=100 {
            if !ended {
                let source = Trickle::new(encoding_of(sample, call.0), most);
                ended = fail_at(rt, call, sample, Failing::new(source, fails_at))?;
            }
        }
        expect(rt, (sample.name, call), ended, true);
    }
    Ok(())
}

// Whether the run meets no failure. One that does returns neither a message nor the end. A failed
// first call takes nothing: the next call returns the message.
fn fail_at(
    rt: &(impl Abort + AllocGlobal),
    call: Call,
    sample: &Sample,
    mut source: Failing<'_>,
) -> Result<bool> {
    let at = (At::new(sample.name, source.fails_at), call);
    let returned = is_returned(rt.alloc(), call, &mut source, sample.segments);
    if returned.is_err() {
        expect(rt, at, kind_of(returned)?, Some(ErrorKind::DeviceFailed));
        expect(
            rt,
            at,
            (source.calls, source.failures),
            (source.fails_at, 1),
        );
        let left = source.source.bytes;
        expect(rt, at, encoding_of(sample, call.0).ends_with(left), true);
        if source.fails_at == 1 {
            let again = is_returned(rt.alloc(), call, &mut source, sample.segments)?;
            expect(rt, at, again, true);
        }
        return Ok(false);
    }
    expect(rt, at, returned?, true);
    expect(rt, at, (source.failures, source.source.bytes.len()), (0, 0));
    Ok(true)
}
