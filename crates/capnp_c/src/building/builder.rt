//! Builders: how much of a region is used.
ghost use Rattle.std.specs.Prelude.{◌≡◌, ◌+◌, ◌-◌, ◌*◌, ◌/◌, ◌^◌, ◌<◌, ◌≤◌, [], ◌∷◌, length, drop, take, MatchOption};
ghost use Rattle.capnp_frame.specs.Prelude.{zero_padded_table};
ghost use Rattle.capnp_orphans.specs.Regions.{IsUsed, AppendsInRegion, SetsRootInRegion};
ghost use Rattle.capnp_c.specs.Building.{IsBuilder, Begins, SetsRoot, Finishes};

use crate::reading::INVALID_ARGUMENT;
use capnp_frame::ErrorKind;
use capnp_orphans::Object;
use capnp_orphans::continued::{append, begin, is_used, set_root};

// The table of a message of one segment, in bytes.
const TABLE: usize = 8;

/// What is known of a message that is being built.
#[repr(C)]
#[derive(Clone, Copy)]
pub struct LinsjoarBuilder {
    /// How many bytes at the front of the region are the message's, its table among them.
    pub used: usize,
}

impl LinsjoarBuilder {
    /// How many bytes of the segment in this region are used; `None` where no message in the region
    /// has as many bytes as the builder says.
    #[inline(always)]
    pub(crate) fn segment_len(&self, region: &[u8]) -> Option<usize>
        ensures { MatchOption result (IsBuilder self.now region.now → ⊥)
            (λ used. IsBuilder self.now region.now × (used ≡ self.now.used - 8)) }
    {
        if self.used < TABLE {
            return None;
        }
        if region.len() < TABLE {
            return None;
        }
        let used = self.used - TABLE;
        if !is_used(&region[TABLE..], used) {
            return None;
        }
        Some(used)
    }
}

/// Begins a message in a region, whatever its bytes are; the root is null. Returns
/// `BufferNotLargeEnough` (2) where the region has fewer than 16 bytes. Then no byte is used.
#[unsafe(no_mangle)]
pub extern "C" fn linsjoar_begin(builder: &mut LinsjoarBuilder, region: &mut [u8]) -> u32
    ensures { Begins builder.new region.old region.new result }
{
    let room = region.len();
    if room < 2 * TABLE {
        builder.used = 0;
        return ErrorKind::BufferNotLargeEnough.number() as u32;
    }
    begin(&mut region[TABLE..]);
    builder.used = 2 * TABLE;
    0
}

/// Writes an object of this many words after the segment, which comes after the table. Returns its
/// word as an orphan.
#[inline(always)]
pub(crate) fn append_after_table<O: Object>(
    region: &mut [u8],
    used: usize,
    words: u32,
    object: &O,
) -> u64
    requires table { 8 ≤ length region.old }
    requires used { IsUsed (drop 8 region.old) used }
    requires takes { O.takes object.now words }
    requires few { used / 8 + words < 2 ^ 29 }
    requires room { used + 8 * words ≤ length (drop 8 region.old) }
    ensures appends { AppendsInRegion (O.holds object.now) words used (drop 8 region.old)
        (drop 8 region.new) result }
    ensures table { take 8 region.new ≡ take 8 region.old }
    ensures len { length region.new ≡ length region.old }
{
    append(&mut region[TABLE..], used, words, object)
}

/// Makes the root point to an orphan, or null. Returns `InvalidArgument` (27) where the builder is
/// not one of this region.
#[unsafe(no_mangle)]
pub extern "C" fn linsjoar_set_root(
    builder: &LinsjoarBuilder,
    region: &mut [u8],
    orphan: u64,
) -> u32
    ensures { SetsRoot builder.now region.old region.new orphan result }
{
    let Some(used) = builder.segment_len(region) else {
        return INVALID_ARGUMENT;
    };
    set_root_after_table(region, used, orphan);
    0
}

fn set_root_after_table(region: &mut [u8], used: usize, orphan: u64)
    requires table { 8 ≤ length region.old }
    requires used { IsUsed (drop 8 region.old) used }
    ensures root { SetsRootInRegion orphan used (drop 8 region.old) (drop 8 region.new) }
    ensures table { take 8 region.new ≡ take 8 region.old }
    ensures len { length region.new ≡ length region.old }
{
    set_root(&mut region[TABLE..], used, orphan);
}

/// Writes the table, and counts the bytes of the framed message that is then at the front of the
/// region. Returns `InvalidArgument` (27) where the builder is not one of this region.
#[unsafe(no_mangle)]
pub extern "C" fn linsjoar_finish(
    builder: &LinsjoarBuilder,
    region: &mut [u8],
    message_len: &mut usize,
) -> u32
    ensures { Finishes builder.now region.old region.new message_len.new result }
{
    *message_len = 0;
    let Some(used) = builder.segment_len(region) else {
        return INVALID_ARGUMENT;
    };
    let words = used / 8;
    put_table(region, words as u32);
    *message_len = builder.used;
    0
}

// Puts the table of one segment of this many words.
fn put_table(region: &mut [u8], words: u32)
    requires { 8 ≤ length region.old }
    ensures table { take 8 region.new ≡ zero_padded_table (words ∷ []) }
    ensures rest { drop 8 region.new ≡ drop 8 region.old }
    ensures len { length region.new ≡ length region.old }
{
    region[..4].fill(0);
    region[4..TABLE].copy_from_slice(&words.to_le_bytes());
}
