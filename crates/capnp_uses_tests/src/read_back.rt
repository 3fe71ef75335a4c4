//! Messages that are written and read back: lists of them, and a root that is set. What is read back
//! contracts say.
use capnp::message::{
    Builder, DEFAULT_READER_OPTIONS, HeapAllocator, ReaderSegments, SegmentArray,
};
use capnp::serialize::is_writable;
use capnp::streams::Format;
use capnp::{Result, text};
use capnp_uses::appended;
use capnp_uses::roots::{set_and_read_back, write_and_read_back};
use std::process::Abort;

const TWO: &[&[u8]] = &[&[], &[1, 2, 3, 4, 5, 6, 7, 8]];

const EMPTY: &[&[u8]] = &[&[]];

const FORMATS: [Format; 2] = [Format::Framed, Format::Packed];

#[test]
fn lists_are_read_back(rt: HostRuntime) -> Result<()> {
    for format in &FORMATS {
        let messages = [SegmentArray::new(TWO), SegmentArray::new(EMPTY)];
        assert!(rt; is_writable(&messages[0]) && is_writable(&messages[1]));
        appended::write_and_read_back(rt.alloc(), *format, &messages, DEFAULT_READER_OPTIONS)?;
    }
    Ok(())
}

#[test]
fn roots_are_set_and_read_back(rt: HostRuntime) -> Result<()> {
    for format in &FORMATS {
        set_hello(&rt, *format)?;
    }
    Ok(())
}

fn set_hello(rt: &(impl Abort + AllocGlobal), format: Format) -> Result<()> {
    let options = DEFAULT_READER_OPTIONS;
    let mut message = Builder::new_default(rt.alloc());
    set_and_read_back::<text::Owned, &str, HeapAllocator>(
        rt.alloc(),
        format,
        &mut message,
        "hello",
        options,
    )?;
    assert!(rt; !message.is_empty());
    let segments = message.get_segments_for_output();
    write_and_read_back(rt.alloc(), format, &segments, options)?;
    Ok(())
}
