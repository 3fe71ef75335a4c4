//! Segments at the front of caller-provided regions. Nothing is kept between calls but how many bytes
//! are used.
//!
//! They are continued by whoever has the region and that number, such as C. A
//! [`Region`](crate::Region) borrows the region as long as it is built in.
ghost use Rattle.std.specs.Prelude.{◌≡◌, ◌+◌, ◌*◌, ◌/◌, ◌^◌, ◌<◌, ◌≤◌, ◌↔◌, IsTrue, length, replicate, take};
ghost use Rattle.capnp_orphans.specs.Regions.{IsUsed, AppendsInRegion, SetsRootInRegion};

use crate::object::Object;
use crate::segment::{put_first, write_over, zero_first};
use capnp_layout::limits::MAX_SEGMENT_WORDS;
use capnp_layout::pointer_word::link;

/// Whether as many bytes at the front of a region can be a segment: whole words, at least one, and
/// fewer than 2^29.
#[inline(always)]
pub fn is_used(region: &[u8], used: usize) -> bool
    ensures { IsTrue result ↔ IsUsed region.now used }
{
    used >= 8
        && used <= region.len()
        && used.is_multiple_of(8)
        && used / 8 < MAX_SEGMENT_WORDS as usize
}

/// Begins a segment: its first word is used, the root's, and is zero.
pub fn begin(region: &mut [u8])
    requires { 8 ≤ length region.old }
    ensures zero { take 8 region.new ≡ replicate 8 0 }
    ensures used { IsUsed region.new 8 }
    ensures len { length region.new ≡ length region.old }
{
    zero_first(region);
}

/// Writes an object of this many words after the segment that is the first `used` bytes of a
/// region. Returns its word as an orphan.
#[inline(always)]
pub fn append<O: Object>(region: &mut [u8], used: usize, words: u32, object: &O) -> u64
    requires used { IsUsed region.old used }
    requires takes { O.takes object.now words }
    requires few { used / 8 + words < 2 ^ 29 }
    requires room { used + 8 * words ≤ length region.old }
    ensures appends { AppendsInRegion (O.holds object.now) words used region.old region.new result }
    ensures len { length region.new ≡ length region.old }
{
    write_over(region, used, words, object)
}

/// Makes the root of that segment point to the orphan of this word, or null.
pub fn set_root(region: &mut [u8], used: usize, word: u64)
    requires { IsUsed region.old used }
    ensures root { SetsRootInRegion word used region.old region.new }
    ensures len { length region.new ≡ length region.old }
{
    put_first(region, used, link(word, 0));
}
