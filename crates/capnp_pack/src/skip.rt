//! Skipping a chunk group by group, without keeping a word.
//!
//! Groups that the source shows whole are passed over: only the tag of each is looked at, and the
//! count after tags 0 and 255. A group that the source cuts is read as `group.rt` reads it.
ghost use Rattle.std.specs.Prelude.{◌≡◌, ℕ, List, ◌-◌, ◌%◌, ◌<◌, ◌≤◌, IfSome, OnOk};
ghost use Rattle.capnp_frame.specs.Prelude.{IfKnown, RequestError, Asked, FailsOr};
ghost use Rattle.capnp_pack.specs.Calls.{TakesNext};
ghost use Rattle.capnp_pack.specs.PackedSource.{Unpacks, ChunkError, LeavesOverrun, Overran};
ghost use Rattle.capnp_pack.specs.Steps.{FirstGroupError, BeginsWithGroups, PassesGroups};

use crate::group::read_group;
use crate::sizes::group_bytes;
use crate::unpack::Progress;
use capnp_frame::io::{BufRead, Read};
use capnp_frame::{Error, ErrorKind, Result};

// The most bytes that the words of a group have: 256 words.
const LARGEST_GROUP: usize = 2048;

// Skips a chunk of `count` bytes, as `PackedRead` reads it by `read_exact`.
pub(crate) fn skip_chunk<R: BufRead>(source: &mut R, count: usize) -> Result<()>
    requires { count % 8 ≡ 0 }
    ensures skipped { OnOk result (IfKnown (R.unread source.old) (R.unread source.new)
        (λ raw rest. (words : List ℕ) × Unpacks raw count words rest)) }
    ensures errors { FailsOr result (RequestError ChunkError count (R.unread source.old)) }
    ensures overrun { Overran result (R.unread source.old) (R.unread source.new)
        (LeavesOverrun count) }
    ensures asked { Asked R.unread R.failures R.same source.old source.new result }
{
    let mut skipped = 0;
    while skipped < count {
        match skip_groups(source, count - skipped)? {
            Some(size) => skipped += size,
            None if skipped == 0 => {
                return Err(Error::from_kind(ErrorKind::FailedToFillTheWholeBuffer));
            }
            None => return Err(Error::from_kind(ErrorKind::PrematureEndOfPackedInput)),
        }
    }
    Ok(())
}

// Skips the groups that the source shows whole, or the next group where it shows none whole, and
// returns how many bytes their words have, at most `most`; `None` at the end.
fn skip_groups<R: BufRead>(source: &mut R, most: usize) -> Result<Option<usize>>
    requires { 8 ≤ most }
    ensures takes { TakesNext R.Read source.old source.new
        (PassesGroups (R.unread source.old) (R.unread source.new) most)
        (RequestError FirstGroupError most (R.unread source.old)) result }
    ensures overrun { Overran result (R.unread source.old) (R.unread source.new)
        (LeavesOverrun most) }
{
    let passed = pass_shown(source.fill_buf()?, most);
    if passed.filled == 0 {
        return skip_group(source, most);
    }
    source.consume(passed.used);
    Ok(Some(passed.filled))
}

// Skips the next group, looking at one byte at a time, and returns how many bytes its words have;
// `None` at the end.
#[inline(never)]
fn skip_group<R: BufRead>(source: &mut R, most: usize) -> Result<Option<usize>>
    requires { 8 ≤ most }
    ensures takes { TakesNext R.Read source.old source.new
        (PassesGroups (R.unread source.old) (R.unread source.new) most)
        (RequestError FirstGroupError most (R.unread source.old)) result }
    ensures overrun { Overran result (R.unread source.old) (R.unread source.new)
        (LeavesOverrun most) }
{
    let mut words = [0; LARGEST_GROUP];
    let room = most.min(LARGEST_GROUP);
    read_group(source, &mut words[..room])
}

// Passes over the whole groups at the front of what is shown whose words have at most `most` bytes.
fn pass_shown(shown: &[u8], most: usize) -> Progress
    ensures { BeginsWithGroups shown.now most result.used result.filled }
{
    let mut used = 0;
    let mut filled = 0;
    while let Some(group) = pass_group(&shown[used..], most - filled) {
        used += group.used;
        filled += group.filled;
    }
    Progress { used, filled }
}

// Passes over the first group, if it is shown whole and its words have at most `most` bytes.
// Speed: one look-up by the tag says where the next group begins, unless a literal run follows, and
// nothing is stored (`capnp_ls list --packed`).
#[inline(always)]
fn pass_group(shown: &[u8], most: usize) -> Option<Progress>
    ensures some { IfSome result (λ group. 0 < group.filled) }
    ensures group { IfSome result (λ group. BeginsWithGroups shown.now most group.used group.filled) }
{
    if shown.is_empty() {
        return None;
    }
    let tag = shown[0];
    let head = group_bytes(tag);
    if head > shown.len() {
        return None;
    }
    let further = further_words(tag, shown[head - 1]);
    let filled = 8 + 8 * further;
    if filled > most {
        return None;
    }
    // Only tag 255 and a count that isn't 0 have this sum.
    if tag as usize + further <= 255 {
        return Some(Progress { used: head, filled });
    }
    if filled - 8 > shown.len() - head {
        return None;
    }
    Some(Progress {
        used: head + filled - 8,
        filled,
    })
}

// How many words follow the first one of a group: what is counted after tags 0 and 255. `last` is
// the last byte that `group_bytes` counts.
#[inline(always)]
fn further_words(tag: u8, last: u8) -> usize
    ensures zeros { tag ≡ 0 → result ≡ last }
    ensures literal { tag ≡ 255 → result ≡ last }
    ensures one { 0 < tag → tag < 255 → result ≡ 0 }
{
    if tag.wrapping_add(1) > 1 {
        return 0;
    }
    last as usize
}
