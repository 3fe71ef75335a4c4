//! Objects of 200,000,000 bytes, for which a segment on the heap grows again and again.
use crate::fixtures::{empty, expect};
use capnp_frame::Result;
use capnp_frame_tests::long_lists::list_of_numbers;

const OBJECTS: usize = 200;

// The root's pointer to the last object, past 199 of 125,000 words: to 1,000,000 bytes.
const ROOT: u64 = 0x007a_1202_05ee_3fe1;

// Of the objects the last one is read again.
#[test]
fn many_bytes_of_objects(rt: HostRuntime) -> Result<()> {
    let bytes = list_of_numbers(rt.alloc(), 8, 124_999)?;
    let mut objects = empty(&rt)?;
    let mut last = objects.data(&bytes)?;
    for _ in 1..OBJECTS {
        last = objects.data(&bytes)?;
    }
    objects.set_root(last);
    let segment = objects.bytes();
    expect(&rt, "bytes", segment.len(), 200_000_008);
    expect(&rt, "root", segment.starts_with(&ROOT.to_le_bytes()), true);
    expect(&rt, "last", segment.ends_with(&bytes), true);
    Ok(())
}
