//! The pointers of an object, section by section. A struct, and each element of a list of structs,
//! has a pointer section after its data section. A list of pointers is one pointer section.
ghost use Rattle.std.specs.Prelude.{◌≡◌, ◌≢◌, ◌↔◌, ◌+◌, ◌*◌, ◌^◌, ◌<◌, ◌≤◌, [], IsTrue};

use crate::object::Body;
use crate::place::Place;
use crate::pointer::StructSize;

/// The sizes of the data section and the pointer section of a struct, or of each element, in words.
#[derive(Clone, Copy)]
pub struct SectionSizes {
    pub data_words: u16,
    pub pointers: u32,
}

/// The pointers that a walk over an object has not come to yet. Where sections have no pointers,
/// nothing is left, however many sections there are.
#[derive(Drop)]
pub struct PointerSlots {
    /// The place of the next pointer.
    next: Place,
    /// How many pointers are left in this section.
    here: u32,
    /// How many words are between the last pointer of a section and the first one of the next.
    gap: usize,
    /// How many pointers each further section has.
    pointers: u32,
    /// How many further sections there are.
    more: u32,
    ghost some: { 0 < more → 0 < pointers },
    ghost bound: { next.word + here + more * (gap + pointers) < 2 ^ 62 },
}

impl StructSize {
    ghost use Rattle.capnp_layout.specs.PointerSections.{section_sizes};
    ghost use Rattle.capnp_layout.specs.declared.object.Body.{Body};

    /// The sizes of the struct's sections.
    #[inline(always)]
    pub fn section_sizes(self) -> SectionSizes
        ensures { result ≡ section_sizes (Body.Struct self) }
    {
        SectionSizes {
            data_words: self.data_words,
            pointers: self.pointers as u32,
        }
    }
}

impl Body {
    ghost use Rattle.capnp_layout.specs.PointerSections.{section_sizes, section_count, first_section};

    /// The sizes of its sections; for a list of structs, of each element's sections.
    #[inline(always)]
    pub fn section_sizes(self) -> SectionSizes
        ensures { result ≡ section_sizes self }
    {
        match self {
            Body::Struct(size) => size.section_sizes(),
            Body::Numbers(_, _) => SectionSizes {
                data_words: 0,
                pointers: 0,
            },
            Body::Pointers(count) => SectionSizes {
                data_words: 0,
                pointers: count,
            },
            Body::Structs(elements, _) => elements.size.section_sizes(),
        }
    }

    // The number of its pointer sections.
    #[inline(always)]
    fn section_count(self) -> u32
        ensures { result ≡ section_count self }
    {
        match self {
            Body::Numbers(_, _) => 0,
            Body::Structs(elements, _) => elements.count,
            Body::Struct(_) => 1,
            Body::Pointers(_) => 1,
        }
    }

    // The word at which its first section begins, where the object begins at this word.
    #[inline(always)]
    fn first_section(self, start: usize) -> usize
        requires { start < 2 ^ 62 }
        ensures { result ≡ first_section self start }
    {
        match self {
            Body::Structs(_, _) => start + 1,
            Body::Struct(_) => start,
            Body::Numbers(_, _) => start,
            Body::Pointers(_) => start,
        }
    }
}

impl PointerSlots {
    ghost use Rattle.capnp_layout.specs.Body.{words_in};
    ghost use Rattle.capnp_layout.specs.Object.{places};
    ghost use Rattle.capnp_layout.specs.Layout.{run};
    ghost use Rattle.capnp_layout.specs.PointerSections.{segment_of, section_sizes, kept_places, section_slots, kept_in, slots_of, places_in, slots_in, end_of, TakesSlot};

    /// The first `kept` pointers in each pointer section of an object that begins at a place.
    #[inline(always)]
    pub fn of(start: Place, body: Body, kept: u32) -> PointerSlots
        requires kept { kept ≤ (section_sizes body).pointers }
        requires bound { start.word + words_in body < 2 ^ 61 }
        ensures places { places_in result ≡ kept_in start body kept }
        ensures slots { kept ≡ (section_sizes body).pointers →
            slots_in result ≡ slots_of start.word body }
        ensures end { end_of result ≤ start.word + words_in body }
        ensures segment { segment_of result ≡ start.segment }
    {
        let first = Place {
            segment: start.segment,
            word: body.first_section(start.word),
        };
        PointerSlots::new(first, body.section_sizes(), kept, body.section_count())
    }

    /// The first `kept` pointers of each of some consecutive structs, the first of them at a place.
    #[inline(always)]
    pub fn new(first: Place, size: SectionSizes, kept: u32, count: u32) -> PointerSlots
        requires kept { kept ≤ size.pointers }
        requires bound { first.word + count * (size.data_words + size.pointers) < 2 ^ 61 }
        ensures places { places_in result
            ≡ kept_places first.segment first.word size.data_words size.pointers kept count }
        ensures slots { kept ≡ size.pointers →
            slots_in result ≡ section_slots first.word size.data_words size.pointers count }
        ensures end { end_of result ≤ first.word + count * (size.data_words + size.pointers) }
        ensures segment { segment_of result ≡ first.segment }
    {
        if kept == 0 || count == 0 {
            return PointerSlots {
                next: first,
                here: 0,
                gap: 0,
                pointers: 0,
                more: 0,
            };
        }
        let data_words = size.data_words as usize;
        PointerSlots {
            next: Place {
                segment: first.segment,
                word: first.word + data_words,
            },
            here: kept,
            gap: data_words + (size.pointers - kept) as usize,
            pointers: kept,
            more: count - 1,
        }
    }

    /// A number of consecutive pointers, the first of them at a place.
    #[inline(always)]
    pub fn run(first: Place, count: u32) -> PointerSlots
        requires bound { first.word + count < 2 ^ 61 }
        ensures places { places_in result ≡ places first.segment first.word count }
        ensures slots { slots_in result ≡ run first.word count }
        ensures end { end_of result ≡ first.word + count }
        ensures segment { segment_of result ≡ first.segment }
    {
        PointerSlots {
            next: first,
            here: count,
            gap: 0,
            pointers: 0,
            more: 0,
        }
    }

    /// Whether no pointer is left.
    #[inline(always)]
    pub fn is_empty(&self) -> bool
        ensures { IsTrue result ↔ (places_in self.now ≡ []) }
    {
        self.here == 0 && self.more == 0
    }

    /// Takes the next pointer, and returns its place.
    #[inline(always)]
    pub fn take(&mut self) -> Place
        requires { places_in self.old ≢ [] }
        ensures taken { TakesSlot self.old self.new result }
        ensures within { result.word < end_of self.old }
        ensures segment { result.segment ≡ segment_of self.old }
        ensures same_segment { segment_of self.new ≡ segment_of self.old }
    {
        if self.here == 0 {
            self.open_section();
        }
        self.take_here()
    }

    // Goes on to the next section.
    fn open_section(&mut self)
        requires done { self.old.here ≡ 0 }
        requires more { 0 < self.old.more }
        ensures some { 0 < self.new.here }
        ensures places { places_in self.new ≡ places_in self.old }
        ensures slots { slots_in self.new ≡ slots_in self.old }
        ensures end { end_of self.new ≡ end_of self.old }
        ensures segment { segment_of self.new ≡ segment_of self.old }
    {
        self.next.word += self.gap;
        self.here = self.pointers;
        self.more -= 1;
    }

    // Takes the next pointer of this section.
    #[inline(always)]
    fn take_here(&mut self) -> Place
        requires { 0 < self.old.here }
        ensures taken { TakesSlot self.old self.new result }
        ensures within { result.word < end_of self.old }
        ensures segment { result.segment ≡ segment_of self.old }
        ensures same_segment { segment_of self.new ≡ segment_of self.old }
    {
        let place = self.next;
        self.next.word += 1;
        self.here -= 1;
        place
    }
}
