//! Copies in progress: the words of an object are in the block, but not yet what its pointers point
//! to.
ghost use Rattle.std.specs.Prelude.{◌≡◌, ◌+◌, ◌-◌, ◌^◌, ◌<◌, ◌≤◌, ◌/◌, Bool, ℕ, List, [], ◌∷◌, length, slice_get, Some, MatchOption};
ghost use Rattle.capnp_layout.specs.Prelude.{words_of, message_of, IsObject, object_of, local_struct_of, pointers_of};
ghost use Rattle.capnp_wire.specs.Copy.{CanCopy, Copies, IsCopyable, BeginsObject, BeginsRun, BeginsStruct};
ghost use Rattle.capnp_wire.specs.declared.layout.copy.Copied.{Copied};

use crate::layout::copy::{Copied, CopySource, Destination};
use crate::layout::data_words::put_data_words;
use capnp_frame::message::ReaderSegments;
use capnp_layout::block::{BlockItem, put_elements, put_words};
use capnp_layout::body_word::{pointer_word, struct_pointer_word};
use capnp_layout::fast_path::LocalStruct;
use capnp_layout::number_list::NumberList;
use capnp_layout::object::{Body, Object, object_there};
use capnp_layout::output_size::output_body;
use capnp_layout::place::Place;
use capnp_layout::pointer_run::PointerRun;
use capnp_layout::pointer_word::{POINTER_LIST, list_word};

/// An object whose copy is in progress, the body of the copy, and the pointer to it.
#[derive(Drop)]
pub(crate) struct PendingCopy<'a> {
    pub object: Object<'a>,
    pub body: Body,
    pub pointer: u64,
}

/// The copy of a struct: complete, or in progress.
#[derive(Clone, Copy)]
pub(crate) enum StructCopy {
    Whole(Copied),
    Pending(PendingPointers),
}

/// The pointer to a copy, and what is left to copy: what this many consecutive pointers point to,
/// whose slots are consecutive, too. It is copied from the word `next` on.
#[derive(Clone, Copy)]
pub(crate) struct PendingPointers {
    pub pointer: u64,
    pub first: Place,
    pub count: u32,
    pub slot: usize,
    pub next: usize,
}

/// Begins the copy of the object that the pointer at a place of this segment points to; `None` for
/// null.
#[inline(always)]
pub(crate) fn begin<'a, S: ReaderSegments, T: BlockItem>(
    source: &CopySource<'a, S>,
    segment: &'a [u8],
    place: Place,
    nesting: u32,
    block: &mut [T],
    to: Destination,
) -> Option<PendingCopy<'a>>
    requires there { CanCopy (message_of (S.segments source.now.segments.now)) (place ∷ []) nesting
        source.now.canonical to.next (length (T.as_words block.old)) }
    requires content { slice_get (message_of (S.segments source.now.segments.now)) place.segment
        ≡ Some (words_of segment.now) }
    requires following { to.following ≤ to.next }
    requires small { length (T.as_words block.old) < 2 ^ 29 }
    ensures begun { let m = message_of (S.segments source.now.segments.now) in
        let canonical = source.now.canonical in
        let next = to.next in
        let gap = next - to.following in
        let nothing : Copied = record { pointer = 0; next = next } in
        MatchOption result
        (Copies m place canonical gap next (T.as_words block.old) (T.as_words block.new) nothing)
        (λ begun. BeginsObject m place nesting canonical gap next
        (T.as_words block.old) (T.as_words block.new) begun) }
    ensures len { length (T.as_words block.new) ≡ length (T.as_words block.old) }
{
    let Some(object) = object_there(source.segments, segment, place, nesting) else {
        return None;
    };
    let body = output_body(&object, source.canonical);
    put_data_words(&object, body, block, to.next);
    let pointer = pointer_word(body, (to.next - to.following) as u64);
    Some(PendingCopy {
        object,
        body,
        pointer,
    })
}

/// Begins the copy of a struct in the same way. The copy is complete where all pointers that it
/// keeps are null.
#[inline(always)]
pub(crate) fn begin_struct<T: BlockItem>(
    found: &LocalStruct<'_>,
    canonical: bool,
    block: &mut [T],
    to: Destination,
) -> StructCopy
    requires there { IsCopyable (local_struct_of found.now) canonical
        to.next (length (T.as_words block.old)) }
    requires following { to.following ≤ to.next }
    requires small { length (T.as_words block.old) < 2 ^ 29 }
    ensures begun { (m : List (List ℕ)) (place : Place) (nesting : ℕ) →
        CanCopy m (place ∷ []) nesting canonical to.next (length (T.as_words block.old)) →
        IsObject m place (local_struct_of found.now) →
        BeginsStruct m place (words_of found.now.segment.now) nesting canonical
        (to.next - to.following) to.next (T.as_words block.old) (T.as_words block.new) result }
    ensures len { length (T.as_words block.new) ≡ length (T.as_words block.old) }
{
    let size = found.output(canonical);
    let words = size.words() as usize;
    let pointer = struct_pointer_word(size, (to.next - to.following) as u64);
    if found.holds_nulls(size.pointers) {
        put_words(block, to.next, found.segment, found.start.word, words);
        return StructCopy::Whole(Copied {
            pointer,
            next: to.next + words,
        });
    }
    let data_words = size.data_words as usize;
    put_words(block, to.next, found.segment, found.start.word, data_words);
    StructCopy::Pending(PendingPointers {
        pointer,
        first: found.first_pointer(),
        count: size.pointers as u32,
        slot: to.next + data_words,
        next: to.next + words,
    })
}

/// Copies a list of numbers. It has no pointers, so the copy is complete.
#[inline(always)]
pub(crate) fn copy_list<T: BlockItem>(
    list: &NumberList<'_>,
    block: &mut [T],
    to: Destination,
) -> Copied
    requires there { (canonical : Bool)
        × IsCopyable (object_of list.now) canonical to.next (length (T.as_words block.old)) }
    requires following { to.following ≤ to.next }
    requires small { length (T.as_words block.old) < 2 ^ 29 }
    ensures copied { (m : List (List ℕ)) (place : Place) (nesting : ℕ) (canonical : Bool) →
        CanCopy m (place ∷ []) nesting canonical to.next (length (T.as_words block.old)) →
        IsObject m place (object_of list.now) → Copies m place canonical
        (to.next - to.following) to.next (T.as_words block.old) (T.as_words block.new) result }
    ensures len { length (T.as_words block.new) ≡ length (T.as_words block.old) }
{
    put_elements(block, to.next, list);
    Copied {
        pointer: list_word(
            (to.next - to.following) as u64,
            list.size.code(),
            list.count as u64,
        ),
        next: to.next + list.words() as usize,
    }
}

/// Begins the copy of a list of pointers, which has no other words.
#[inline(always)]
pub(crate) fn begin_list(list: &PointerRun<'_>, to: Destination) -> PendingPointers
    requires there { (canonical : Bool) × (room : ℕ) × (room < 2 ^ 29)
        × IsCopyable (pointers_of list.now) canonical to.next room }
    requires following { to.following ≤ to.next }
    ensures { (m : List (List ℕ)) (place : Place) (nesting : ℕ) (canonical : Bool) (old : List ℕ) →
        CanCopy m (place ∷ []) nesting canonical to.next (length old) →
        IsObject m place (pointers_of list.now) →
        BeginsRun m place (words_of list.now.segment.now) nesting canonical
        (to.next - to.following) to.next old old result }
{
    PendingPointers {
        pointer: list_word(
            (to.next - to.following) as u64,
            POINTER_LIST,
            list.count as u64,
        ),
        first: list.first,
        count: list.count,
        slot: to.next,
        next: to.next + list.count as usize,
    }
}
