//! Elements of lists of numbers, read as structs (encoding document, "Lists"). The data section of
//! such a struct is a part of a word, which holds other elements as well.
ghost use Rattle.std.specs.Prelude.{◌≡◌};
ghost use Rattle.capnp_wire.specs.Parts.{own_part};

use capnp_layout::element_size::ElementSize;

/// Which part of a word is an element of a list of numbers.
#[derive(Clone, Copy)]
pub(crate) struct WordPart {
    /// The size of each element.
    pub size: ElementSize,
    /// How many elements are before it in the word.
    pub index: u32,
}

/// A data word of a struct, from the word of the segment that it is in. It is all of that word or,
/// for an element of a list of numbers, the element's bits, in the low bits.
pub(crate) fn data_word_of(part: Option<WordPart>, word: u64) -> u64
    ensures { result ≡ own_part part word }
{
    match part {
        None => word,
        Some(part) => part.size.in_word(word, part.index),
    }
}
