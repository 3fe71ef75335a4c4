//! Lists of numbers as values.
ghost use Rattle.std.specs.Prelude.{◌≡◌, ◌+◌, ◌*◌, ◌^◌, ◌<◌, ◌≤◌, All, map, length};
ghost use Rattle.capnp_layout.specs.Prelude.{digits, number_of, words_of, width, words_for};

use capnp_frame::Result;
use capnp_layout::limits::{MAX_ELEMENTS, allocation_too_large};
use capnp_layout::pointer_word::{list_word, put_word};
use capnp_wire::primitive_element::PrimitiveElement;
use capnp_wire::primitive_list::Owned;
use capnp_wire::traits::{Copied, SetterInput};

/// A list of numbers (encoding document, "Lists").
///
/// ```
/// let list = NumberList::new(&[1, 65535]);
/// message.set_root::<primitive_list::Owned<u16>, NumberList<'_, u16>>(list)?;
/// let read: primitive_list::Reader<'_, u16> = message.get_root_as_reader()?;
/// assert_eq!(rt; read.try_get(1), Some(65535));
/// ```
#[derive(Drop)]
pub struct NumberList<'a, N> {
    /// The numbers.
    pub items: &'a [N],
}

impl<'a, N> NumberList<'a, N> {
    /// A list of these numbers.
    pub fn new(items: &'a [N]) -> NumberList<'a, N>
        ensures { result.items.now ≡ items.now }
    {
        NumberList { items }
    }
}

// Has the bits of each number, in order. Fails with `AllocationTooLarge` for 2^29 numbers or more.
impl<'a, N: PrimitiveElement + Copy> SetterInput<Owned<N>> for NumberList<'a, N> {
    ghost use Rattle.capnp_layout.specs.Tree.{count};
    ghost use Rattle.capnp_values.specs.NumberLists.{IsNumberList, ManyNumbers};
    ghost use Rattle.std.proofs.Common.{ap};

    ghost has_tree = { λ value trees. IsNumberList N.code (map N.bits_of value.items.now) trees };

    ghost fails = { λ value kind. ManyNumbers (length value.items.now) kind };

    ghost one = { λ value trees is. ap count is.1 };

    fn measure(&self, _canonical: bool) -> Result<u32> {
        let count = self.items.len();
        if count > MAX_ELEMENTS as usize {
            return Err(allocation_too_large(count as u64));
        }
        // For the prover: each number fits its type.
        numbers_fit(self.items);
        Ok(words_of_list::<N>(count as u32))
    }

    fn is_null(&self) -> bool {
        false
    }

    fn write(&self, _canonical: bool, block: &mut [u8], following: usize, next: usize) -> Copied {
        let count = self.items.len() as u32;
        let end = next + words_of_list::<N>(count) as usize;
        put_numbers(self.items, &mut block[8 * next..8 * end]);
        Copied {
            pointer: list_word((next - following) as u64, N::size().code(), count as u64),
            next: end,
        }
    }
}

// The number of words of a list of this many elements.
fn words_of_list<N: PrimitiveElement>(count: u32) -> u32
    requires few { count < 2 ^ 29 }
    ensures words { result ≡ words_for count (width N.code) }
    ensures known { N.code < 6 }
{
    let size = N::size();
    size.words_of_list(count) as u32
}

// No number has more bits than its type.
fn numbers_fit<N: PrimitiveElement + Copy>(items: &[N])
    ensures { All (λ bits. bits < 2 ^ width N.code) (map N.bits_of items.now) }
{
    let mut left = items.len();
    'items: while left > 0 {
        left -= 1;
        // For the prover: the bits of this number fit its type.
        let _bits = items[left].to_bits();
    }
}

// Puts numbers into a block of exactly their words.
fn put_numbers<N: PrimitiveElement + Copy>(items: &[N], block: &mut [u8])
    requires few { length items.now < 2 ^ 29 }
    requires fit { All (λ bits. bits < 2 ^ width N.code) (map N.bits_of items.now) }
    requires room { length block.old ≡ 8 * words_for (length items.now) (width N.code) }
    ensures { words_of block.new ≡ digits (2 ^ 64) (words_for (length items.now) (width N.code))
        (number_of (2 ^ width N.code) (map N.bits_of items.now)) }
{
    let size = N::size();
    if size.code() == 0 {
        return;
    }
    let each = 64 / size.bits() as usize;
    let full = items.len() / each;
    // Speed: full words have a loop of their own. Each has the same number of elements, so the
    // compiler unrolls their loop (lists of ten numbers).
    for index in 0..full {
        let first = index * each;
        let word = word_of_numbers(&items[first..first + each]);
        put_word(block, index, word);
    }
    if full < block.len() / 8 {
        let last = word_of_numbers(&items[full * each..]);
        put_word(block, full, last);
    }
}

// The word that these numbers make, the first one in its lowest bits.
fn word_of_numbers<N: PrimitiveElement + Copy>(items: &[N]) -> u64
    requires { length items.now * width N.code ≤ 64 }
    ensures { result ≡ number_of (2 ^ width N.code) (map N.bits_of items.now) }
{
    let mut word = 0;
    let mut left = items.len();
    'items: while left > 0 {
        left -= 1;
        word = prepend_bits(items[left].to_bits(), word, N::size().bits());
    }
    word
}

// Puts the bits of one number below the bits of the others: it is prepended to their list.
fn prepend_bits(bits: u64, others: u64, each: u64) -> u64
    requires each { each < 65 }
    requires room { bits + 2 ^ each * others < 2 ^ 64 }
    ensures { result ≡ bits + 2 ^ each * others }
{
    let base = 1u128 << each;
    (bits as u128 + base * others as u128) as u64
}
