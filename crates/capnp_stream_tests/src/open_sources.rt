//! Sources that stay open after a message, as a pipe does: a reader of one message asks for nothing
//! past its last byte, where it would wait. Those that ask whether another one follows are left out.
use crate::fixtures::expect;
use crate::readers::{Call, FORMATS, READERS, RULES, is_returned};
use crate::samples::{SAMPLES, encoding_of};
use capnp_frame::Result;
use capnp_frame_tests::cases::At;
use capnp_frame_tests::retried;
use capnp_frame_tests::sources::Trickle;
use std::process::Abort;

#[test]
fn nothing_is_asked_past_the_last_byte(rt: HostRuntime) -> Result<()> {
    for reader in &READERS {
        for format in &FORMATS {
            for padding in &RULES {
                retried!(read_alone(&rt, (*format, *padding, *reader)))?;
            }
        }
    }
    Ok(())
}

// Each message over a source of its own, which has nothing after it, and at last shows most of them
// whole.
fn read_alone(rt: &(impl Abort + AllocGlobal), call: Call) -> Result<()> {
    for sample in &SAMPLES {
        for most in 1..=24 {
            let mut source = Trickle::new(encoding_of(sample, call.0), most);
            let returned = is_returned(rt.alloc(), call, &mut source, sample.segments)?;
            let at = At::new(sample.name, most as u64);
            expect(rt, (at, call), (returned, source.asked_at_end), (true, 0));
        }
    }
    Ok(())
}
