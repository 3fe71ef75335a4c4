//! Copies of objects, laid out one after the other in one block of words.
ghost use Rattle.std.specs.Prelude.{◌≡◌, ◌-◌, ◌^◌, ◌<◌, ◌≤◌, [], ◌∷◌, length, slice_get, Some};
ghost use Rattle.capnp_layout.specs.Prelude.{words_of, message_of};
ghost use Rattle.capnp_wire.specs.Copy.{CanCopy, Copies};

use crate::layout::copy_pointers::{copy_pointers, copy_run};
use crate::layout::pending::{StructCopy, begin, begin_list, begin_struct, copy_list};
use capnp_frame::message::ReaderSegments;
use capnp_layout::block::BlockItem;
use capnp_layout::fast_path::{local_list, local_pointers, local_struct, null_or_empty_struct};
use capnp_layout::place::Place;

/// The pointer word to a copy, and the first free word after it.
#[derive(Clone, Copy)]
pub struct Copied {
    /// The pointer word.
    pub pointer: u64,

    /// The first free word.
    pub next: usize,
}

/// What is copied from: the segments of a message, and whether copies are in canonical form.
#[derive(Drop)]
pub(crate) struct CopySource<'a, S> {
    pub segments: &'a S,
    pub canonical: bool,
}

/// Where a copy goes in a block.
#[derive(Clone, Copy)]
pub(crate) struct Destination {
    /// The index of the word just after the pointer to the copy.
    pub following: usize,

    /// The word at which the copy begins, the first free one.
    pub next: usize,
}

/// Copies the object that the pointer at a place points to, with all below it, into a block.
#[inline(always)]
pub(crate) fn copy<S: ReaderSegments, T: BlockItem>(
    source: &CopySource<'_, S>,
    place: Place,
    nesting: u32,
    block: &mut [T],
    to: Destination,
) -> Copied
    requires there { CanCopy (message_of (S.segments source.now.segments.now)) (place ∷ []) nesting
        source.now.canonical to.next (length (T.as_words block.old)) }
    requires following { to.following ≤ to.next }
    requires small { length (T.as_words block.old) < 2 ^ 29 }
    ensures copied { Copies (message_of (S.segments source.now.segments.now)) place source.now.canonical
        (to.next - to.following) to.next (T.as_words block.old) (T.as_words block.new) result }
    ensures len { length (T.as_words block.new) ≡ length (T.as_words block.old) }
{
    match source.segments.get_segment(place.segment) {
        Some(found) => copy_target(source, found, place, nesting, block, to),
        // There is a tree at the place, so this can't happen.
        None => Copied {
            pointer: 0,
            next: to.next,
        },
    }
}

// Copies from the segment of the pointer.
// Speed: always inlined, so what most pointers point to needs no call (workload `canon`); the
// recursion goes through `copy_object` and `copy_run`, which are not inlined.
#[inline(always)]
#[cycle(copy)]
pub(crate) fn copy_target<S: ReaderSegments, T: BlockItem>(
    source: &CopySource<'_, S>,
    segment: &[u8],
    place: Place,
    nesting: u32,
    block: &mut [T],
    to: Destination,
) -> Copied
    requires there { CanCopy (message_of (S.segments source.now.segments.now)) (place ∷ []) nesting
        source.now.canonical to.next (length (T.as_words block.old)) }
    requires content { slice_get (message_of (S.segments source.now.segments.now)) place.segment
        ≡ Some (words_of segment.now) }
    requires following { to.following ≤ to.next }
    requires small { length (T.as_words block.old) < 2 ^ 29 }
    ensures copied { Copies (message_of (S.segments source.now.segments.now)) place source.now.canonical
        (to.next - to.following) to.next (T.as_words block.old) (T.as_words block.new) result }
    ensures len { length (T.as_words block.new) ≡ length (T.as_words block.old) }
{
    if let Some(pointer) = null_or_empty_struct(segment, place.word, nesting) {
        return Copied {
            pointer,
            next: to.next,
        };
    }
    let pending = if let Some(found) = local_struct(segment, place, nesting) {
        match begin_struct(&found, source.canonical, block, to) {
            StructCopy::Whole(copied) => return copied,
            StructCopy::Pending(left) => (found.segment, left),
        }
    } else if let Some(list) = local_list(segment, place, nesting) {
        return copy_list(&list, block, to);
    } else if let Some(list) = local_pointers(segment, place, nesting) {
        (list.segment, begin_list(&list, to))
    } else {
        return copy_object(source, segment, place, nesting, block, to);
    };
    let (owner, left) = pending;
    let free = copy_run(
        source,
        owner,
        left.first,
        left.count,
        nesting - 1,
        block,
        left.slot,
        left.next,
    );
    Copied {
        pointer: left.pointer,
        next: free,
    }
}

// Copies what the pointer points to, of any kind.
#[inline(never)]
#[cycle(copy)]
fn copy_object<S: ReaderSegments, T: BlockItem>(
    source: &CopySource<'_, S>,
    segment: &[u8],
    place: Place,
    nesting: u32,
    block: &mut [T],
    to: Destination,
) -> Copied
    requires there { CanCopy (message_of (S.segments source.now.segments.now)) (place ∷ []) nesting
        source.now.canonical to.next (length (T.as_words block.old)) }
    requires content { slice_get (message_of (S.segments source.now.segments.now)) place.segment
        ≡ Some (words_of segment.now) }
    requires following { to.following ≤ to.next }
    requires small { length (T.as_words block.old) < 2 ^ 29 }
    ensures copied { Copies (message_of (S.segments source.now.segments.now)) place source.now.canonical
        (to.next - to.following) to.next (T.as_words block.old) (T.as_words block.new) result }
    ensures len { length (T.as_words block.new) ≡ length (T.as_words block.old) }
{
    let Some(begun) = begin(&*source, segment, place, nesting, block, to) else {
        return Copied {
            pointer: 0,
            next: to.next,
        };
    };
    let free = copy_pointers(
        source,
        &begun.object,
        begun.body,
        nesting - 1,
        block,
        to.next,
    );
    Copied {
        pointer: begun.pointer,
        next: free,
    }
}
