//! A sample that is built and read back: the example that docs/GUIDE.md names.
use crate::sample_capnp::{point, sample};
use capnp::Result;
use capnp::message::DEFAULT_READER_OPTIONS;
use capnp::serialize::{self, OwnedSegments};
use capnp_orphans::Orphanage;
use std::alloc::Global;

#[test]
fn a_sample_is_written_and_read_back(rt: HostRuntime) -> Result<()> {
    let alloc = rt.alloc();
    let mut stream: Vec<u8> = Vec::new(alloc);
    write_sample(alloc, &mut stream)?;
    let mut source = stream.as_slice();
    let message = serialize::read_message(alloc, &mut source, DEFAULT_READER_OPTIONS)?;
    let read: sample::Reader<'_, OwnedSegments> = message.get_root()?;
    assert!(rt; read.get_count() == 7);
    let origin = read.get_origin()?;
    assert!(rt; read.get_title()?.as_bytes() == b"A title".as_slice());
    assert!(rt; origin.get_x() == 3 && origin.get_y() == -4);
    Ok(())
}

/// Writes a sample as a message.
fn write_sample(alloc: Global, stream: &mut Vec<u8>) -> Result<()> {
    let mut objects = Orphanage::new(alloc)?;
    let mut made = sample::Builder::new();
    made.set_count(7);
    made.set_title(objects.text("A title")?);
    made.set_origin(point_at(3, -4).add(&mut objects)?);
    made.add_root(&mut objects)?;
    serialize::write_message(alloc, stream, &objects)
}

/// A point.
pub fn point_at(x: i32, y: i32) -> point::Builder {
    let mut made = point::Builder::new();
    made.set_x(x);
    made.set_y(y);
    made
}
