//! Words that are unpacked in parts, as their packed bytes come.
ghost use Rattle.std.specs.Prelude.{◌≡◌, ◌∷◌, ◌%◌, ◌≤◌, length, MatchResult};
ghost use Rattle.capnp_frame.specs.Prelude.{IsWholeWords};
ghost use Rattle.capnp_frame.specs.declared.error.ErrorKind.{ErrorKind};
ghost use Rattle.capnp_pack.specs.Prelude.{PackedError, FirstGroupError};
ghost use Rattle.capnp_c.specs.Parts.{IsFirstGroup, FindsGroups, UnpacksPart, IsUnpackedPart, UnpacksPartError};

use crate::packed::unpack_from;
use capnp_frame::{Error, ErrorKind, Result};

// How many bytes the group at the front of some bytes has, at least, and how many its words have.
#[derive(Clone, Copy)]
struct FirstGroup {
    len: usize,
    filled: usize,
}

// The whole groups at the front of some bytes: how many bytes they have, and how many their words
// have; and how many more bytes the words after them need at least.
#[derive(Clone, Copy)]
struct Groups {
    used: usize,
    filled: usize,
    needed: usize,
}

/// Unpacks the whole groups at the front of these packed bytes to the front of `words`, which are
/// what is left of the words that were packed together. Counts the packed bytes that were read and
/// the bytes that were written. Where `words` isn't full, fewer than 2,050 packed bytes are left
/// unread, and it counts how many have to follow them, at least. Then the caller goes on with these,
/// the bytes that followed, and the rest of `words`.
///
/// Returns 0, 14 where `words` isn't whole words, or 11 where a run goes past the end of `words`.
/// Bytes that are cut are no error.
#[unsafe(no_mangle)]
pub extern "C" fn linsjoar_unpack_part(
    packed: &[u8],
    words: &mut [u8],
    read: &mut usize,
    written: &mut usize,
    needed: &mut usize,
) -> u32
    ensures { UnpacksPart packed.now words.new read.new written.new needed.new result }
{
    *read = 0;
    *written = 0;
    *needed = 0;
    match unpack_groups(packed, words) {
        Ok(groups) => {
            *read = groups.used;
            *written = groups.filled;
            *needed = groups.needed;
            0
        }
        Err(error) => error.kind.number() as u32,
    }
}

// Unpacks the whole groups at the front.
fn unpack_groups(packed: &[u8], words: &mut [u8]) -> Result<Groups>
    ensures { MatchResult result
        (λ groups. IsWholeWords words.new × IsUnpackedPart packed.now words.new groups)
        (λ error. UnpacksPartError packed.now (length words.new) error.kind) }
{
    if words.len() % 8 != 0 {
        return Err(Error::from_kind(ErrorKind::NotWholeWords));
    }
    let groups = whole_groups(packed, words.len())?;
    let mut source = packed;
    unpack_from(&mut source, &mut words[..groups.filled])?;
    Ok(groups)
}

// Finds the whole groups at the front whose words have at most `most` bytes.
fn whole_groups(packed: &[u8], most: usize) -> Result<Groups>
    requires { most % 8 ≡ 0 }
    ensures { MatchResult result (λ groups. FindsGroups packed.now most groups)
        (λ error. PackedError packed.now most error.kind
        × (error.kind ≡ ErrorKind.PackedInputDidNotEndCleanlyOnASegmentBoundary)) }
{
    let mut used = 0;
    let mut filled = 0;
    while filled < most {
        let left = most - filled;
        let group = first_group(&packed[used..], left)?;
        let shown = packed.len() - used;
        if group.len > shown {
            // Each byte of a chunk is unpacked to 1,024 bytes at most.
            let needed = group.len.max(left / 1024) - shown;
            return Ok(Groups {
                used,
                filled,
                needed,
            });
        }
        used += group.len;
        filled += group.filled;
    }
    Ok(Groups {
        used,
        filled,
        needed: 0,
    })
}

// Finds the first group, whose words have at most `most` bytes.
fn first_group(shown: &[u8], most: usize) -> Result<FirstGroup>
    requires { 8 ≤ most }
    ensures { MatchResult result (λ group. IsFirstGroup shown.now most group)
        (λ error. FirstGroupError shown.now most error.kind
        × (error.kind ≡ ErrorKind.PackedInputDidNotEndCleanlyOnASegmentBoundary)) }
{
    if shown.is_empty() {
        return Ok(FirstGroup { len: 2, filled: 8 });
    }
    let following = &shown[1..];
    match shown[0] {
        0 => zeros(following, most),
        255 => literal(following, most),
        tag => Ok(FirstGroup {
            len: 1 + tag.count_ones() as usize,
            filled: 8,
        }),
    }
}

// Finds a group of zero words, after its tag.
fn zeros(following: &[u8], most: usize) -> Result<FirstGroup>
    requires { 8 ≤ most }
    ensures { MatchResult result (λ group. IsFirstGroup (0 ∷ following.now) most group)
        (λ error. FirstGroupError (0 ∷ following.now) most error.kind
        × (error.kind ≡ ErrorKind.PackedInputDidNotEndCleanlyOnASegmentBoundary)) }
{
    if following.is_empty() {
        return Ok(FirstGroup { len: 2, filled: 8 });
    }
    let filled = 8 + 8 * following[0] as usize;
    if filled > most {
        return Err(Error::from_kind(ErrorKind::PackedInputDidNotEndCleanlyOnASegmentBoundary));
    }
    Ok(FirstGroup { len: 2, filled })
}

// Finds a group of words as they are, after its tag.
fn literal(following: &[u8], most: usize) -> Result<FirstGroup>
    requires { 8 ≤ most }
    ensures { MatchResult result (λ group. IsFirstGroup (255 ∷ following.now) most group)
        (λ error. FirstGroupError (255 ∷ following.now) most error.kind
        × (error.kind ≡ ErrorKind.PackedInputDidNotEndCleanlyOnASegmentBoundary)) }
{
    if following.len() < 9 {
        return Ok(FirstGroup { len: 10, filled: 8 });
    }
    let run = 8 * following[8] as usize;
    if run > most - 8 {
        return Err(Error::from_kind(ErrorKind::PackedInputDidNotEndCleanlyOnASegmentBoundary));
    }
    Ok(FirstGroup {
        len: 10 + run,
        filled: 8 + run,
    })
}
