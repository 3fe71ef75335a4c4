//! Unpacking the bytes that a source shows, without asking the source again.
//!
//! Only whole groups that fit the buffer are unpacked. Any other is left to `group.rt`, which reads
//! it through the source.
ghost use Rattle.std.specs.Prelude.{◌≡◌, ◌<◌, ◌≤◌, ◌+◌, ◌*◌, length, take, replicate, IfSome};
ghost use Rattle.capnp_pack.specs.Steps.{GroupFollowing, Unpacked};

use crate::copies::{clear_front, copy_run, move_front};
use crate::lanes::unpack_short_word;
use crate::single_word::{REACH, unpack_single_word, unpack_single_words};
use crate::sizes::group_bytes;

// How many packed bytes are taken, and how many bytes of words they fill.
#[derive(Clone, Copy)]
pub(crate) struct Progress {
    pub used: usize,
    pub filled: usize,
}

// Fills the front of a buffer with the groups at the front of what is shown.
// Speed: where a source shows few bytes at a time, these are seldom a whole group, so that is
// tested before all else (workload `trickle`). A buffer of one word, as for the first word of each
// segment table, takes no loop, whose end would be mispredicted (`capnp_ls unpack` of small
// records).
#[inline(always)]
pub(crate) fn unpack_shown(shown: &[u8], buffer: &mut [u8]) -> Progress
    ensures { Unpacked shown.now buffer.new result.used result.filled }
{
    if shown.len() >= REACH {
        if buffer.len() == 8
            && let Some(used) = unpack_single_word(shown, buffer)
        {
            return Progress { used, filled: 8 };
        }
        return unpack_groups(shown, buffer);
    }
    if shows_a_group(shown) {
        return unpack_short_groups(shown, buffer);
    }
    Progress { used: 0, filled: 0 }
}

// Whether the first tag and its word are shown, and the count after tags 0 and 255.
#[inline(always)]
fn shows_a_group(shown: &[u8]) -> bool {
    match shown.first() {
        Some(tag) => shown.len() >= group_bytes(*tag),
        None => false,
    }
}

// Unpacks groups where many bytes are shown: groups of one word, runs between them, and short
// groups at the end.
fn unpack_groups(shown: &[u8], buffer: &mut [u8]) -> Progress
    ensures { Unpacked shown.now buffer.new result.used result.filled }
{
    let mut used = 0;
    let mut filled = 0;
    while buffer.len() - filled >= 8 {
        let single = unpack_single_words(&shown[used..], &mut buffer[filled..]);
        used += single.used;
        filled += single.filled;
        if buffer.len() - filled < 8 {
            break;
        }
        let Some(group) = unpack_run(&shown[used..], &mut buffer[filled..]) else {
            if single.filled > 0 {
                continue;
            }
            let last = unpack_short_groups(&shown[used..], &mut buffer[filled..]);
            return Progress {
                used: used + last.used,
                filled: filled + last.filled,
            };
        };
        used += group.used;
        filled += group.filled;
    }
    Progress { used, filled }
}

// Unpacks groups of zeros and marked groups at the end of what is shown, one by one.
#[inline(never)]
fn unpack_short_groups(shown: &[u8], buffer: &mut [u8]) -> Progress
    ensures { Unpacked shown.now buffer.new result.used result.filled }
{
    let mut used = 0;
    let mut filled = 0;
    while buffer.len() - filled >= 8 {
        let Some(group) = unpack_short_group(&shown[used..], &mut buffer[filled..]) else {
            break;
        };
        used += group.used;
        filled += group.filled;
    }
    Progress { used, filled }
}

// Fills the front of a buffer with the first group, if it isn't a literal one: a literal group is
// never short.
#[inline(always)]
fn unpack_short_group(shown: &[u8], buffer: &mut [u8]) -> Option<Progress>
    requires { 8 ≤ length buffer.old }
    ensures some { IfSome result (λ taken. 0 < taken.filled) }
    ensures group { IfSome result (λ taken.
        Unpacked shown.now buffer.new taken.used taken.filled) }
{
    let (tag, following) = shown.split_first()?;
    let rest = unpack_short_after(*tag, following, buffer)?;
    Some(Progress {
        used: 1 + rest.used,
        filled: rest.filled,
    })
}

#[inline(always)]
fn unpack_short_after(tag: u8, following: &[u8], buffer: &mut [u8]) -> Option<Progress>
    requires { 8 ≤ length buffer.old }
    ensures { IfSome result (λ taken.
        GroupFollowing tag following.now buffer.new taken.used taken.filled) }
{
    if tag == 0 {
        return unpack_zeros(following, buffer);
    }
    if tag == 255 || following.len() < group_bytes(tag) - 1 {
        return None;
    }
    let used = unpack_short_word(tag, following, &mut buffer[..8]);
    Some(Progress { used, filled: 8 })
}

// Fills the front of a buffer with the first group, if it is a run.
#[inline(always)]
fn unpack_run(shown: &[u8], buffer: &mut [u8]) -> Option<Progress>
    requires { 8 ≤ length buffer.old }
    ensures some { IfSome result (λ taken. 0 < taken.filled) }
    ensures group { IfSome result (λ taken.
        Unpacked shown.now buffer.new taken.used taken.filled) }
{
    let (tag, following) = shown.split_first()?;
    let rest = unpack_run_after(*tag, following, buffer)?;
    Some(Progress {
        used: 1 + rest.used,
        filled: rest.filled,
    })
}

#[inline(always)]
fn unpack_run_after(tag: u8, following: &[u8], buffer: &mut [u8]) -> Option<Progress>
    requires { 8 ≤ length buffer.old }
    ensures { IfSome result (λ taken.
        GroupFollowing tag following.now buffer.new taken.used taken.filled) }
{
    match tag {
        0 => unpack_zeros(following, buffer),
        255 => unpack_literal(following, buffer),
        _ => None,
    }
}

// Fills a run of zero words.
// Speed: one word by one store and two to four by two, which may overlap, without a call and
// without a loop; only more of them by one fill (`capnp_ls unpack` of short zero runs).
#[inline(always)]
fn unpack_zeros(following: &[u8], buffer: &mut [u8]) -> Option<Progress>
    ensures { IfSome result (λ taken.
        GroupFollowing 0 following.now buffer.new taken.used taken.filled) }
{
    if following.is_empty() {
        return None;
    }
    let filled = 8 + 8 * following[0] as usize;
    if filled > buffer.len() {
        return None;
    }
    if filled == 8 {
        clear_front(8, buffer);
        return Some(Progress { used: 1, filled });
    }
    if filled > 32 {
        clear_front(filled, buffer);
        return Some(Progress { used: 1, filled });
    }
    clear_front(16, buffer);
    clear_front(16, &mut buffer[filled - 16..]);
    Some(Progress { used: 1, filled })
}

// Copies a word and the words after its count.
#[inline(always)]
fn unpack_literal(following: &[u8], buffer: &mut [u8]) -> Option<Progress>
    requires { 8 ≤ length buffer.old }
    ensures { IfSome result (λ taken.
        GroupFollowing 255 following.now buffer.new taken.used taken.filled) }
{
    if following.len() < 9 {
        return None;
    }
    let run = 8 * following[8] as usize;
    if run > following.len() - 9 || run > buffer.len() - 8 {
        return None;
    }
    move_front::<8>(following, buffer);
    copy_run(run, &following[9..], &mut buffer[8..]);
    Some(Progress {
        used: 9 + run,
        filled: 8 + run,
    })
}
