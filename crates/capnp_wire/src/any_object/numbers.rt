//! Readers of lists of numbers of any size.
ghost use Rattle.std.specs.Prelude.{◌≡◌, ◌*◌, length};
ghost use Rattle.capnp_layout.specs.Prelude.{code_of, width, words_for};

use capnp_layout::element_size::ElementSize;
use capnp_layout::object::words_fit;
use capnp_layout::place::word;

/// A list of numbers, of bools or of `Void` in a message, whatever the size of its elements.
///
/// ```
/// let root: any_object::Reader<'_, OwnedSegments> = message.get_root()?;
/// let any_object::Reader::Numbers(ports) = root else {
///     panic!(rt; "no list of numbers");
/// };
/// assert_eq!(rt; (ports.len(), ports.bits_of_each()), (3, 16));
/// if ports.len() > 1 {
///     assert_eq!(rt; ports.get(1), 443);
/// }
/// ```
#[derive(Drop)]
pub struct Numbers<'a> {
    /// The words of the list.
    pub(crate) bytes: &'a [u8],
    pub(crate) size: ElementSize,
    pub(crate) count: u32,
    ghost whole: { length bytes.now ≡ 8 * words_for count (width (code_of size)) },
}

impl<'a> Numbers<'a> {
    ghost use Rattle.std.specs.Prelude.{◌<◌, slice_index};
    ghost use Rattle.capnp_wire.specs.NumberViews.{sized_numbers_of};

    /// The number of elements.
    pub fn len(&self) -> u32
        ensures { result ≡ length (sized_numbers_of self.now) }
    {
        self.count
    }

    /// The size of each element in bits: 0, 1, 8, 16, 32 or 64.
    pub fn bits_of_each(&self) -> u32
        ensures { result ≡ width (code_of self.now.size) }
    {
        self.size.bits() as u32
    }

    /// The bits of the element at this index, which must be below `len`, in the low bits of a
    /// number.
    pub fn get(&self, index: u32) -> u64
        requires { index < length (sized_numbers_of self.now) }
        ensures { result ≡ slice_index (sized_numbers_of self.now) index }
    {
        // For the prover: each word is below 2^64, and so is the number of bytes.
        words_fit(self.bytes);
        let word = word(self.bytes, self.size.word_of(index) as usize).unwrap_or(0);
        self.size.in_word(word, index)
    }

    /// The bytes of the words that hold the elements, the first element in the lowest bits.
    pub fn as_bytes(&self) -> &'a [u8]
        ensures { result.now ≡ self.now.bytes.now }
    {
        self.bytes
    }
}
