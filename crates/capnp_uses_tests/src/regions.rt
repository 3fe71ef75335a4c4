//! The callers that build over a region.
use crate::fixtures::expect;
use capnp::message::Allocator;
use capnp::{Result, text};
use capnp_uses::regions::{region_comes_home, set_in_region};

// A text of one word has room after the root in two words, which are zero once the message is gone.
#[test]
fn regions_come_home(rt: HostRuntime) -> Result<()> {
    let mut region = [7; 16];
    let message = set_in_region::<text::Owned, &str>(rt.alloc(), &mut region, "hello")?;
    drop(message);
    expect(&rt, "home", region.as_slice(), [0; 16].as_slice());
    let mut available = region_comes_home::<text::Owned, &str>(rt.alloc(), &mut region, "hello");
    let segment = available.allocate_segment(2)?;
    expect(&rt, "again", &segment[..], [0; 16].as_slice());
    Ok(())
}
