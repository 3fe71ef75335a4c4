//! Walks over all objects that a pointer points to.
ghost use Rattle.std.specs.Prelude.{◌≡◌, ◌≢◌, ◌+◌, ◌-◌, ◌/◌, ◌^◌, ◌<◌, ◌≤◌, [], ◌∷◌, length, slice_get, Some, IfErr, IfOk, OnOk, MatchOption};
ghost use Rattle.capnp_frame.specs.declared.error.ErrorKind.{ErrorKind};
ghost use Rattle.capnp_layout.specs.Prelude.{words_of, message_of, places, room_of, words_in, Within, IsPastLimit, less, WalkError, output_body_of, segment_of, places_in};
ghost use Rattle.capnp_wire.specs.Traversed.{counted, CountsMore, Walked, WalkedAll, WalkedTo};

use capnp_frame::message::ReaderSegments;
use capnp_frame::{Error, ErrorKind, Result};
use capnp_layout::fast_path::{
    has_fast_path, local_list, local_pointers, local_struct, null_or_empty_struct,
};
use capnp_layout::object::{Object, words_fit};
use capnp_layout::output_size::output_body;
use capnp_layout::place::{Place, segment, word};
use capnp_layout::pointer_run::PointerRun;
use capnp_layout::pointer_slots::PointerSlots;

/// How many more words a walk may count against the traversal limit, and how many words the objects
/// that it has entered have.
#[derive(Drop)]
pub(crate) struct Walk {
    /// What is left of the traversal limit, in words; `None` without a limit.
    pub(crate) left: Option<usize>,
    /// The words of the objects, untrimmed or in canonical form, modulo 2^64.
    words: u64,
    /// Whether the words that were counted don't fit `words`.
    overflowed: bool,
}

impl Walk {
    /// A walk that has counted nothing.
    pub(crate) fn new(limit: Option<usize>) -> Walk
        ensures left { result.left ≡ limit }
        ensures words { counted result ≡ Some 0 }
    {
        Walk {
            left: limit,
            words: 0,
            overflowed: false,
        }
    }

    /// The number of words of all objects that it has entered, without landing pads, untrimmed or
    /// in canonical form; `None` where it does not fit 64 bits.
    pub(crate) fn words(&self) -> Option<u64>
        ensures { result ≡ counted self.now }
    {
        if self.overflowed {
            return None;
        }
        Some(self.words)
    }

    // Counts an object against the traversal limit, and its words.
    #[inline(always)]
    pub(crate) fn enter(&mut self, object: &Object<'_>, canonical: bool) -> Result<()>
        requires room { object.now.start.word + room_of object.now.body
            ≤ length object.now.segment.now / 8 }
        requires elements { words_in object.now.body ≤ room_of object.now.body }
        ensures within { OnOk result (Within self.old.left object.now.traversed) }
        ensures left { OnOk result (self.new.left ≡ less self.old.left object.now.traversed) }
        ensures words { OnOk result (CountsMore (counted self.old) (counted self.new)
            (words_in (output_body_of canonical
            (words_of object.now.segment.now) object.now.start.word object.now.body))) }
        ensures errors { IfErr result (λ error. IsPastLimit self.old.left object.now.traversed
            × (error.kind ≡ ErrorKind.ReadLimitExceeded)) }
    {
        self.count_traversed(object.traversed)?;
        let more = output_body(object, canonical).words();
        self.count(more);
        Ok(())
    }

    /// Counts some words against the traversal limit.
    #[inline(always)]
    pub(crate) fn count_traversed(&mut self, words: u64) -> Result<()>
        ensures within { OnOk result (Within self.old.left words) }
        ensures left { OnOk result (self.new.left ≡ less self.old.left words) }
        ensures words { counted self.new ≡ counted self.old }
        ensures errors { IfErr result (λ error. IsPastLimit self.old.left words
            × (error.kind ≡ ErrorKind.ReadLimitExceeded)) }
    {
        if let Some(left) = self.left {
            match left.checked_sub(words as usize) {
                Some(rest) => self.left = Some(rest),
                None => return Err(Error::from_kind(ErrorKind::ReadLimitExceeded)),
            }
        }
        Ok(())
    }

    /// Adds words to the words of the objects, and counts them against no limit: they are words of
    /// an object that was counted before, such as one that a view shows.
    #[inline(always)]
    pub(crate) fn count(&mut self, more: u64)
        ensures words { CountsMore (counted self.old) (counted self.new) more }
        ensures left { self.new.left ≡ self.old.left }
    {
        let (words, overflows) = self.words.overflowing_add(more);
        self.words = words;
        self.overflowed |= overflows;
    }

    /// Enters the object that the pointer at a place points to, where it may be entered at this
    /// nesting depth, and all below it, in preorder. The walk stops at the first error.
    #[inline(always)]
    pub(crate) fn walk<S: ReaderSegments>(
        &mut self,
        segments: &S,
        place: Place,
        nesting: u32,
        canonical: bool,
    ) -> Result<()>
        ensures found { let m = message_of (S.segments segments.now) in
            OnOk result (Walked m canonical place nesting
            self.old.left self.new.left (counted self.old) (counted self.new)) }
        ensures errors { let m = message_of (S.segments segments.now) in
            IfErr result (λ error. WalkError m (place ∷ []) nesting self.old.left error.kind) }
    {
        let segment = segment(segments, place.segment)?;
        if let Some(_) = null_or_empty_struct(segment, place.word, nesting) {
            return Ok(());
        }
        let Some(pointer) = word(segment, place.word) else {
            return self.walk_object(segments, segment, place, nesting, canonical);
        };
        if !has_fast_path(pointer) {
            return self.walk_object(segments, segment, place, nesting, canonical);
        }
        if let Some(list) = local_pointers(segment, place, nesting) {
            self.visit_pointers(&list)?;
            let below = nesting - 1;
            return self.walk_run(
                segments,
                list.segment,
                list.first,
                list.count,
                below,
                canonical,
            );
        }
        // For the prover: each word is below 2^64, and so is the number of bytes.
        words_fit(segment);
        self.walk_run(segments, segment, place, 1, nesting, canonical)
    }

    // Walks over what a pointer of this segment points to, of any kind.
    #[inline(never)]
    #[cycle(walk)]
    fn walk_object<S: ReaderSegments>(
        &mut self,
        segments: &S,
        segment: &[u8],
        place: Place,
        nesting: u32,
        canonical: bool,
    ) -> Result<()>
        requires content { slice_get (message_of (S.segments segments.now)) place.segment
            ≡ Some (words_of segment.now) }
        ensures found { let m = message_of (S.segments segments.now) in
            OnOk result (Walked m canonical place nesting
            self.old.left self.new.left (counted self.old) (counted self.new)) }
        ensures errors { let m = message_of (S.segments segments.now) in
            IfErr result (λ error. WalkError m (place ∷ []) nesting self.old.left error.kind) }
    {
        let Some(object) = self.visit(segments, segment, place, nesting, canonical)? else {
            return Ok(());
        };
        self.walk_pointers(
            segments,
            object.segment,
            object.pointers(),
            nesting - 1,
            canonical,
        )
    }

    /// Walks over all objects that these pointers of a segment point to.
    ///
    /// Speed: always inlined; `walk_object` and `walk_run` recurse (workload `canon`).
    #[inline(always)]
    #[cycle(walk)]
    pub(crate) fn walk_pointers<S: ReaderSegments>(
        &mut self,
        segments: &S,
        segment: &[u8],
        mut pointers: PointerSlots,
        nesting: u32,
        canonical: bool,
    ) -> Result<()>
        requires content { places_in pointers ≢ [] →
            slice_get (message_of (S.segments segments.now)) (segment_of pointers)
            ≡ Some (words_of segment.now) }
        ensures found { let m = message_of (S.segments segments.now) in
            OnOk result (WalkedAll m canonical (places_in pointers) nesting
            self.old.left self.new.left (counted self.old) (counted self.new)) }
        ensures errors { let m = message_of (S.segments segments.now) in
            IfErr result (λ error.
            WalkError m (places_in pointers) nesting self.old.left error.kind) }
    {
        // Speed: there is a call only for what the children of a child have
        // (`tools/time building`).
        'parents: while let Some(parent) = self.next_parent(
            segments,
            segment,
            &mut pointers,
            nesting,
            canonical,
        )? {
            let mut below = parent.slots();
            let inside = nesting - 1;
            'children: while let Some(child) = self.next_parent(
                segments,
                parent.segment,
                &mut below,
                inside,
                canonical,
            )? {
                self.walk_run(
                    segments,
                    child.segment,
                    child.first,
                    child.count,
                    inside - 1,
                    canonical,
                )?;
            }
        }
        Ok(())
    }

    // Takes these pointers one by one, and walks over what each points to, until one points to a
    // struct with pointers that aren't null. Enters that struct, and returns its pointers, to be
    // walked over next. `None` once no pointer is left.
    #[inline(always)]
    #[cycle(walk)]
    fn next_parent<'a, S: ReaderSegments>(
        &mut self,
        segments: &S,
        segment: &'a [u8],
        pointers: &mut PointerSlots,
        nesting: u32,
        canonical: bool,
    ) -> Result<Option<PointerRun<'a>>>
        requires content { places_in pointers.old ≢ [] →
            slice_get (message_of (S.segments segments.now)) (segment_of pointers.old)
            ≡ Some (words_of segment.now) }
        ensures found { let m = message_of (S.segments segments.now) in
            IfOk result (λ met. MatchOption met
            (WalkedAll m canonical (places_in pointers.old) nesting
            self.old.left self.new.left (counted self.old) (counted self.new))
            (λ children. WalkedTo m canonical (places_in pointers.old) (places_in pointers.new)
            children nesting self.old.left self.new.left (counted self.old) (counted self.new)
            × (segment_of pointers.new ≡ segment_of pointers.old))) }
        ensures errors { let m = message_of (S.segments segments.now) in
            IfErr result (λ error.
            WalkError m (places_in pointers.old) nesting self.old.left error.kind) }
    {
        'pointers: while !pointers.is_empty() {
            let place = pointers.take();
            // Speed: what most pointers point to needs no call (`tools/time building`).
            if let Some(_) = null_or_empty_struct(segment, place.word, nesting) {
                continue 'pointers;
            }
            if let Some(found) = local_struct(segment, place, nesting) {
                let alone = self.visit_struct(&found, canonical)?;
                if !alone {
                    return Ok(Some(found.pointers()));
                }
            } else if let Some(list) = local_list(segment, place, nesting) {
                self.visit_numbers(&list)?;
            } else {
                self.walk_object(segments, segment, place, nesting, canonical)?;
            }
        }
        Ok(None)
    }

    // Walks over what this many consecutive pointers point to.
    // Speed: each argument is a scalar; with the pointers as one struct, walks take 2 % more
    // instructions (workload `roots`).
    #[inline(never)]
    #[cycle(walk)]
    fn walk_run<S: ReaderSegments>(
        &mut self,
        segments: &S,
        segment: &[u8],
        first: Place,
        count: u32,
        nesting: u32,
        canonical: bool,
    ) -> Result<()>
        requires bound { first.word + count < 2 ^ 61 }
        requires content { slice_get (message_of (S.segments segments.now)) first.segment
            ≡ Some (words_of segment.now) }
        ensures found { let m = message_of (S.segments segments.now) in
            OnOk result (WalkedAll m canonical (places first.segment first.word count) nesting
            self.old.left self.new.left (counted self.old) (counted self.new)) }
        ensures errors { let m = message_of (S.segments segments.now) in
            IfErr result (λ error. WalkError m (places first.segment first.word count) nesting
            self.old.left error.kind) }
    {
        let pointers = PointerSlots::run(first, count);
        self.walk_pointers(segments, segment, pointers, nesting, canonical)
    }
}
