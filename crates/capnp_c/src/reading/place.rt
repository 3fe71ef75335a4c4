//! Places of pointers, as C keeps them.
ghost use Rattle.std.specs.Prelude.{◌≡◌, ◌+◌, ◌-◌, ◌<◌, ◌≤◌, ◌^◌, MatchOption};
ghost use Rattle.capnp_c.specs.Reading.{place_of};

use capnp_layout::place::Place;

/// The place of a pointer in a message.
#[repr(C)]
#[derive(Clone, Copy)]
pub struct LinsjoarPlace {
    /// How many words of the segment are before it.
    pub word: usize,
    /// The number of the segment, from 0.
    pub segment: u32,
    /// How many objects may follow one another from it on.
    pub nesting: u32,
    /// 0 where there is no pointer, as past the last one of a struct. Such a place is null.
    pub is_there: u8,
}

impl LinsjoarPlace {
    /// The place of no pointer, from which on this many objects may follow one another.
    pub(crate) fn nowhere(nesting: u32) -> LinsjoarPlace
        ensures { result ≡ record { word = 0; segment = 0; nesting = nesting; is_there = 0 } }
    {
        LinsjoarPlace {
            word: 0,
            segment: 0,
            nesting,
            is_there: 0,
        }
    }

    /// The place of a pointer at which this many objects may follow one another.
    pub(crate) fn of(place: Place, nesting: u32) -> LinsjoarPlace
        ensures { result ≡ record {
          word = place.word;
          segment = place.segment;
          nesting = nesting;
          is_there = 1;
        } }
    {
        LinsjoarPlace {
            word: place.word,
            segment: place.segment,
            nesting,
            is_there: 1,
        }
    }

    /// The place of a pointer this many words further on, also where no pointer is said to be here;
    /// `None` past the largest number.
    pub(crate) fn after(&self, words: usize) -> Option<LinsjoarPlace>
        ensures { MatchOption result (2 ^ 64 ≤ self.now.word + words)
            (λ place. (self.now.word + words < 2 ^ 64)
            × (place ≡ record {
              word = self.now.word + words;
              segment = self.now.segment;
              nesting = self.now.nesting;
              is_there = 1;
            })) }
    {
        let word = self.word.checked_add(words)?;
        let place = Place {
            segment: self.segment,
            word,
        };
        Some(LinsjoarPlace::of(place, self.nesting))
    }

    /// The place of no pointer in an object that this place's pointer points to.
    pub(crate) fn nowhere_below(&self) -> LinsjoarPlace
        ensures { result ≡ record {
          word = 0;
          segment = 0;
          nesting = self.now.nesting - 1;
          is_there = 0;
        } }
    {
        LinsjoarPlace::nowhere(self.nesting.saturating_sub(1))
    }

    /// The place in its message; `None` where there is no pointer.
    pub(crate) fn in_message(&self) -> Option<Place>
        ensures { result ≡ place_of self.now }
    {
        if self.is_there == 0 {
            return None;
        }
        Some(Place {
            segment: self.segment,
            word: self.word,
        })
    }
}
