//! Lists of pointers that are read, as values: they are measured, and written into a block.
ghost use Rattle.std.specs.Prelude.{◌≡◌, ◌+◌, ◌-◌, ◌^◌, ◌<◌, ◌≤◌, ℕ, Option, length, IfErr, MatchResult, OnOk};
ghost use Rattle.capnp_layout.specs.Prelude.{words_of, pointers, Trees, message_of, places, WalkError, output};
ghost use Rattle.capnp_wire.specs.Traversed.{counted, WalkedAll};
ghost use Rattle.capnp_wire.specs.Copy.{IsCopied};
ghost use Rattle.capnp_wire.specs.Values.{HasWords, WordsError, HasRoomAt};
ghost use Rattle.capnp_wire.specs.ListValues.{IsListTree, WalkErrorInList, pointers_along};

use crate::layout::copy::{Copied, CopySource, Destination};
use crate::layout::copy_pointers::copy_run;
use crate::layout::value::checked_walk;
use crate::layout::walk::Walk;
use capnp_frame::Result;
use capnp_frame::message::ReaderSegments;
use capnp_layout::place::{Place, segment};
use capnp_layout::pointer_slots::PointerSlots;
use capnp_layout::pointer_word::{POINTER_LIST, list_word};

/// The number of words of a list of pointers with all below it, without the pointer to it,
/// untrimmed or in canonical form.
pub(crate) fn measure<S: ReaderSegments>(
    segments: &S,
    first: Place,
    count: u32,
    nesting: u32,
    limit: Option<usize>,
    canonical: bool,
) -> Result<u32>
    requires few { count < 2 ^ 29 }
    requires bound { first.word + count < 2 ^ 61 }
    ensures { let list = pointers_along (message_of (S.segments segments.now))
        first count nesting limit in
        MatchResult result (λ words. HasWords (IsListTree pointers list) canonical words)
        (λ error. WordsError (IsListTree pointers list) (WalkErrorInList list) canonical error.kind) }
{
    let mut walk = Walk::new(limit);
    walk.count(count as u64);
    walk_list(&mut walk, segments, first, count, nesting, canonical)?;
    checked_walk(walk.words(), canonical)
}

// Walks over all objects that the pointers of a list point to, and finds their segment first.
fn walk_list<S: ReaderSegments>(
    walk: &mut Walk,
    segments: &S,
    first: Place,
    count: u32,
    nesting: u32,
    canonical: bool,
) -> Result<()>
    requires bound { first.word + count < 2 ^ 61 }
    ensures found { let m = message_of (S.segments segments.now) in
        OnOk result (WalkedAll m canonical (places first.segment first.word count) nesting
        walk.old.left walk.new.left (counted walk.old) (counted walk.new)) }
    ensures errors { let m = message_of (S.segments segments.now) in
        IfErr result (λ error. WalkError m (places first.segment first.word count) nesting
        walk.old.left error.kind) }
{
    if count == 0 {
        return Ok(());
    }
    let segment = segment(segments, first.segment)?;
    let pointers = PointerSlots::run(first, count);
    walk.walk_pointers(segments, segment, pointers, nesting, canonical)
}

/// Writes the words of a list of pointers with all below it into a block.
pub(crate) fn write<S: ReaderSegments>(
    source: &CopySource<'_, S>,
    first: Place,
    count: u32,
    nesting: u32,
    block: &mut [u8],
    to: Destination,
) -> Copied
    requires bound { first.word + count < 2 ^ 61 }
    requires value { (limit : Option ℕ) × HasRoomAt (IsListTree pointers
        (pointers_along (message_of (S.segments source.now.segments.now)) first count nesting limit))
        source.now.canonical to.next (length (words_of block.old)) }
    requires small { length (words_of block.old) < 2 ^ 29 }
    requires following { to.following ≤ to.next }
    ensures written { (limit : Option ℕ) (trees : Trees) → IsListTree pointers
        (pointers_along (message_of (S.segments source.now.segments.now)) first count nesting limit) trees →
        IsCopied (output source.now.canonical trees)
        (to.next - to.following) to.next
        (words_of block.old) (words_of block.new) result }
    ensures len { length block.new ≡ length block.old }
{
    let pointer = list_word((to.next - to.following) as u64, POINTER_LIST, count as u64);
    let end = to.next + count as usize;
    match source.segments.get_segment(first.segment) {
        Some(segment) => Copied {
            pointer,
            next: copy_run(source, segment, first, count, nesting, block, to.next, end),
        },
        // There is a tree at each pointer, and so a segment: here the list has no pointers.
        None => Copied { pointer, next: end },
    }
}
