//! Lists of numbers that are read as lists of structs.
ghost use Rattle.std.specs.Prelude.{◌≡◌, ◌*◌, ◌<◌, length};
ghost use Rattle.capnp_layout.specs.Prelude.{code_of, width, words_for};

use crate::any_struct::StructReader;
use crate::any_struct::part::WordPart;
use crate::read_limiter::ReadLimiter;
use capnp_frame::message::ReaderSegments;
use capnp_layout::element_size::ElementSize;
use capnp_layout::number_list::NumberList;
use capnp_layout::object::words_fit;
use capnp_layout::place::Place;
use capnp_layout::pointer::StructSize;

/// Numbers, each read as a struct of one data word.
#[derive(Drop)]
pub(crate) struct NumberStructs<'a, S: ReaderSegments> {
    pub segments: &'a S,
    pub limiter: Option<&'a ReadLimiter>,
    /// The words of the list.
    pub bytes: &'a [u8],
    pub size: ElementSize,
    pub count: u32,
    pub nesting: u32,
    ghost whole: { length bytes.now ≡ 8 * words_for count (width (code_of size)) },
    ghost some: { 0 < code_of size },
}

impl<'a, S: ReaderSegments> NumberStructs<'a, S> {
    ghost use Rattle.capnp_wire.specs.Readers.{struct_of};
    ghost use Rattle.capnp_wire.specs.ListViews.{element_of};
    ghost use Rattle.capnp_wire.specs.UpgradedReaders.{number_structs_of};

    /// The number at this index, as a struct.
    pub(crate) fn get(&self, index: u32) -> StructReader<'a, S>
        requires { index < length (number_structs_of S.segments self.now).elements }
        ensures { struct_of S.segments result
            ≡ element_of (number_structs_of S.segments self.now) index }
    {
        // For the prover: each word is below 2^64, and so is the number of bytes.
        words_fit(self.bytes);
        StructReader {
            segments: self.segments,
            limiter: self.limiter,
            segment: self.bytes,
            start: Place {
                segment: 0,
                word: self.size.word_of(index) as usize,
            },
            size: StructSize {
                data_words: 1,
                pointers: 0,
            },
            nesting: self.nesting,
            part: Some(WordPart {
                size: self.size,
                index,
            }),
        }
    }

    /// The list of numbers as a value to be copied.
    pub(crate) fn as_value(&self) -> NumberList<'a>
        ensures size { result.size ≡ self.now.size }
        ensures count { result.count ≡ self.now.count }
        ensures start { result.start.word ≡ 0 }
        ensures bytes { result.segment.now ≡ self.now.bytes.now }
    {
        NumberList {
            segment: self.bytes,
            start: Place {
                segment: 0,
                word: 0,
            },
            size: self.size,
            count: self.count,
            bits: self.size.bits_of_list(self.count),
        }
    }
}
