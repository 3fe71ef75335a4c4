//! The pointers of an object, each with its slot in the copy.
ghost use Rattle.std.specs.Prelude.{◌≡◌, ◌≢◌, ◌↔◌, ◌+◌, ◌*◌, ◌/◌, ◌^◌, ◌<◌, ◌≤◌, [], length, IsTrue};
ghost use Rattle.capnp_layout.specs.Prelude.{places, room_of, words_in, run, section_sizes, kept_in, kept_places, section_slots, slots_of, places_in, IsNarrower};
ghost use Rattle.capnp_wire.specs.Copy.{ArePaired, TakesPair};

use capnp_layout::object::{Body, Object, words_fit};
use capnp_layout::place::Place;
use capnp_layout::pointer::{Elements, StructSize};
use capnp_layout::pointer_slots::PointerSlots;

/// Where a copy of an object's pointers is: at the next pointer that is left to copy, and at its
/// slot, the word of the copy that the pointer there is put into.
#[derive(Drop)]
pub(crate) struct CopyCursor {
    from: PointerSlots,
    to: PointerSlots,
}

impl CopyCursor {
    /// The pointers of an object that are kept in its copy, which begins at the word `next` of a
    /// block.
    #[inline(always)]
    pub(crate) fn of(object: &Object<'_>, copied: Body, next: usize) -> CopyCursor
        requires narrower { IsNarrower object.now.body copied }
        requires room { object.now.start.word + room_of object.now.body
            ≤ length object.now.segment.now / 8 }
        requires elements { words_in object.now.body ≤ room_of object.now.body }
        requires bound { next + words_in copied < 2 ^ 61 }
        ensures { let q = (section_sizes copied).pointers in
            ArePaired result (kept_in object.now.start object.now.body q)
            object.now.start.segment (slots_of next copied) (next + words_in copied) }
    {
        // For the prover: each word is below 2^64, and so is the number of bytes.
        words_fit(object.segment);
        let kept = copied.section_sizes().pointers;
        let begin = Place {
            segment: 0,
            word: next,
        };
        let from = PointerSlots::of(object.start, object.body, kept);
        let to = PointerSlots::of(begin, copied, kept);
        CopyCursor { from, to }
    }

    /// Some consecutive pointers, whose slots are consecutive, too.
    #[inline(always)]
    pub(crate) fn run(first: Place, count: u32, slot: usize) -> CopyCursor
        requires there { first.word + count < 2 ^ 61 }
        requires room { slot + count < 2 ^ 61 }
        ensures { ArePaired result (places first.segment first.word count)
            first.segment (run slot count) (slot + count) }
    {
        let begin = Place {
            segment: 0,
            word: slot,
        };
        let from = PointerSlots::run(first, count);
        let to = PointerSlots::run(begin, count);
        CopyCursor { from, to }
    }

    /// The pointers that are kept in copies of structs, by the first of these structs and their
    /// size, and their slots in the copies, which begin at a word of a block.
    #[inline(always)]
    pub(crate) fn elements(
        first: Place,
        size: StructSize,
        kept: Elements,
        slots: usize,
    ) -> CopyCursor
        requires pointers { kept.size.pointers ≤ size.pointers }
        requires there { first.word + kept.count * (size.data_words + size.pointers) < 2 ^ 61 }
        requires room { slots + kept.count * (kept.size.data_words + kept.size.pointers) < 2 ^ 61 }
        ensures { let to = kept.size in
            ArePaired result (kept_places first.segment first.word
            size.data_words size.pointers to.pointers kept.count)
            first.segment (section_slots slots to.data_words to.pointers kept.count)
            (slots + kept.count * (to.data_words + to.pointers)) }
    {
        let begin = Place {
            segment: 0,
            word: slots,
        };
        let sizes = kept.size.section_sizes();
        let from = PointerSlots::new(first, size.section_sizes(), sizes.pointers, kept.count);
        let to = PointerSlots::new(begin, sizes, sizes.pointers, kept.count);
        CopyCursor { from, to }
    }

    /// Whether no pointer is left.
    #[inline(always)]
    pub(crate) fn is_empty(&self) -> bool
        ensures { IsTrue result ↔ (places_in self.now.from ≡ []) }
    {
        self.from.is_empty()
    }

    /// Takes the next pointer, and returns its place and its slot.
    #[inline(always)]
    pub(crate) fn take(&mut self) -> (Place, usize)
        requires some { places_in self.old.from ≢ [] }
        requires as_many { length (places_in self.old.from) ≡ length (places_in self.old.to) }
        ensures { TakesPair self.old self.new result.0 result.1 }
    {
        let source = self.from.take();
        let slot = self.to.take().word;
        (source, slot)
    }
}
