//! The elements of lists of numbers.
ghost use Rattle.std.specs.Prelude.{◌≡◌, ◌*◌, ◌/◌, ◌%◌, ◌^◌, ◌<◌};
ghost use Rattle.capnp_layout.specs.Element.{code_of, width, words_for};

/// The size of the elements of a list of numbers, in bits.
///
/// ```
/// assert_eq!(rt; ElementSize::TwoBytes.bits(), 16);
/// assert_eq!(rt; ElementSize::TwoBytes.words_of_list(5), 2);
/// assert_eq!(rt; ElementSize::Bit.words_of_list(65), 2);
/// ```
#[derive(Clone, Copy, Debug, PartialEq, Eq)]
pub enum ElementSize {
    Void,
    Bit,
    Byte,
    TwoBytes,
    FourBytes,
    EightBytes,
}

impl ElementSize {
    /// The bits of one element.
    pub fn bits(self) -> u64
        ensures bits { result ≡ width (code_of self) }
        ensures few { result < 65 }
    {
        match self {
            ElementSize::Void => 0,
            ElementSize::Bit => 1,
            ElementSize::Byte => 8,
            ElementSize::TwoBytes => 16,
            ElementSize::FourBytes => 32,
            ElementSize::EightBytes => 64,
        }
    }

    /// The code that list pointers have for this size.
    pub fn code(self) -> u64
        ensures code { result ≡ code_of self }
        ensures few { result < 6 }
    {
        match self {
            ElementSize::Void => 0,
            ElementSize::Bit => 1,
            ElementSize::Byte => 2,
            ElementSize::TwoBytes => 3,
            ElementSize::FourBytes => 4,
            ElementSize::EightBytes => 5,
        }
    }

    /// The bits of this many elements.
    pub fn bits_of_list(self, count: u32) -> u64
        ensures bits { result ≡ count * width (code_of self) }
        ensures bound { result < 2 ^ 39 }
    {
        count as u64 * self.bits()
    }

    /// The words of a list of this many elements.
    pub fn words_of_list(self, count: u32) -> u64
        ensures { result ≡ words_for count (width (code_of self)) }
    {
        self.bits_of_list(count).div_ceil(64)
    }

    /// The word of the list that holds an element, counted from 0.
    pub fn word_of(self, index: u32) -> u64
        ensures { result ≡ width (code_of self) * index / 64 }
    {
        self.bits() * index as u64 / 64
    }

    /// The bits of an element, given the word that holds it.
    pub fn in_word(self, word: u64, index: u32) -> u64
        ensures { result ≡ word / 2 ^ (width (code_of self) * index % 64) % 2 ^ width (code_of self) }
    {
        let bits = self.bits();
        let low = word >> (bits * index as u64 % 64);
        if bits == 64 {
            return low;
        }
        low % (1 << bits)
    }
}
