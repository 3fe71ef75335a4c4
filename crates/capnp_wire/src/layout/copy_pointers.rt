//! Copies of what the pointers of an object point to, slot by slot.
ghost use Rattle.std.specs.Prelude.{◌≡◌, ◌≢◌, ◌+◌, ◌/◌, ◌^◌, ◌<◌, ◌≤◌, [], length, slice_get, Some};
ghost use Rattle.capnp_layout.specs.Prelude.{words_of, message_of, places, room_of, words_in, run, section_sizes, kept_in, slots_of, places_in, slots_in, IsNarrower};
ghost use Rattle.capnp_wire.specs.Copy.{CanCopy, CanCopyByCursor, CopiesAll};

use crate::layout::copy::{CopySource, Destination, copy_target};
use crate::layout::copy_cursor::CopyCursor;
use capnp_frame::message::ReaderSegments;
use capnp_layout::block::{BlockItem, put_word};
use capnp_layout::object::{Body, Object, words_fit};
use capnp_layout::place::Place;

/// Copies what the pointers of an object point to, one after the other, to the words after the
/// object's own copy, which begins at the word `next`. Puts the pointers to these copies into the
/// object's own copy. Returns the first free word.
#[inline(always)]
#[cycle(copy)]
pub(crate) fn copy_pointers<S: ReaderSegments, T: BlockItem>(
    source: &CopySource<'_, S>,
    object: &Object<'_>,
    copied: Body,
    nesting: u32,
    block: &mut [T],
    next: usize,
) -> usize
    requires there { CanCopy (message_of (S.segments source.now.segments.now))
        (kept_in object.now.start object.now.body (section_sizes copied).pointers)
        nesting source.now.canonical (next + words_in copied) (length (T.as_words block.old)) }
    requires content { let m = message_of (S.segments source.now.segments.now) in
        kept_in object.now.start object.now.body (section_sizes copied).pointers ≢ [] →
        slice_get m object.now.start.segment ≡ Some (words_of object.now.segment.now) }
    requires narrower { IsNarrower object.now.body copied }
    requires room { object.now.start.word + room_of object.now.body
        ≤ length object.now.segment.now / 8 }
    requires elements { words_in object.now.body ≤ room_of object.now.body }
    requires small { length (T.as_words block.old) < 2 ^ 29 }
    ensures copied { CopiesAll (message_of (S.segments source.now.segments.now))
        (kept_in object.now.start object.now.body (section_sizes copied).pointers) source.now.canonical
        (slots_of next copied) (next + words_in copied)
        (T.as_words block.old) (T.as_words block.new) result }
    ensures len { length (T.as_words block.new) ≡ length (T.as_words block.old) }
{
    if let Body::Pointers(count) = object.body {
        // For the prover: each word is below 2^64, and so is the number of bytes.
        words_fit(object.segment);
        return copy_run(
            source,
            object.segment,
            object.start,
            count,
            nesting,
            block,
            next,
            next + count as usize,
        );
    }
    let free = next + copied.words() as usize;
    let cursor = CopyCursor::of(object, copied, next);
    copy_by_cursor(source, object.segment, cursor, nesting, block, free)
}

/// Copies what these pointers of a segment point to, one after the other from the word `next` on,
/// and puts the pointers to these copies into their slots. Returns the first free word.
#[inline(always)]
#[cycle(copy)]
pub(crate) fn copy_by_cursor<S: ReaderSegments, T: BlockItem>(
    source: &CopySource<'_, S>,
    segment: &[u8],
    mut cursor: CopyCursor,
    nesting: u32,
    block: &mut [T],
    next: usize,
) -> usize
    requires there { CanCopyByCursor (message_of (S.segments source.now.segments.now)) (words_of segment.now) cursor
        nesting source.now.canonical next (length (T.as_words block.old)) }
    requires small { length (T.as_words block.old) < 2 ^ 29 }
    ensures copied { CopiesAll (message_of (S.segments source.now.segments.now)) (places_in cursor.from)
        source.now.canonical (slots_in cursor.to) next (T.as_words block.old) (T.as_words block.new) result }
    ensures len { length (T.as_words block.new) ≡ length (T.as_words block.old) }
{
    let mut free = next;
    'pointers: while !cursor.is_empty() {
        let (place, slot) = cursor.take();
        let inner = copy_target(
            source,
            segment,
            place,
            nesting,
            block,
            Destination {
                following: slot + 1,
                next: free,
            },
        );
        put_word(block, slot, inner.pointer);
        free = inner.next;
    }
    free
}

// Copies what this many consecutive pointers point to, whose slots are consecutive, too.
// Speed: each argument is a scalar; with the pointers and slots as one struct, this function takes
// 5 % more instructions (workload `canon`).
#[inline(never)]
#[cycle(copy)]
pub(crate) fn copy_run<S: ReaderSegments, T: BlockItem>(
    source: &CopySource<'_, S>,
    segment: &[u8],
    first: Place,
    count: u32,
    nesting: u32,
    block: &mut [T],
    slot: usize,
    next: usize,
) -> usize
    requires bound { first.word + count < 2 ^ 61 }
    requires there { CanCopy (message_of (S.segments source.now.segments.now))
        (places first.segment first.word count) nesting source.now.canonical
        next (length (T.as_words block.old)) }
    requires content { places first.segment first.word count ≢ [] →
        slice_get (message_of (S.segments source.now.segments.now)) first.segment
        ≡ Some (words_of segment.now) }
    requires before { slot + count ≤ next }
    requires small { length (T.as_words block.old) < 2 ^ 29 }
    ensures copied { CopiesAll (message_of (S.segments source.now.segments.now))
        (places first.segment first.word count) source.now.canonical (run slot count) next
        (T.as_words block.old) (T.as_words block.new) result }
    ensures len { length (T.as_words block.new) ≡ length (T.as_words block.old) }
{
    let cursor = CopyCursor::run(first, count, slot);
    copy_by_cursor(source, segment, cursor, nesting, block, next)
}
