//! Pointer words.
ghost use Rattle.std.specs.Prelude.{◌≡◌, ◌↔◌, ◌+◌, ◌*◌, ◌/◌, ◌%◌, ◌^◌, ◌<◌, ℕ, Some, MatchOption, IsTrue};
ghost use Rattle.capnp_layout.specs.Layout.{minus_one};
ghost use Rattle.capnp_layout.specs.Pointer.{pointer_kind, offset, code, list_count};
ghost use Rattle.capnp_layout.specs.PointerWord.{IsPointerWord, IsLocalShape, IsElementsTag};

use crate::element_size::ElementSize;
use crate::place::Place;

/// What a word that isn't a null pointer is as a pointer.
///
/// ```
/// match PointerWord::read(capability) {
///     PointerWord::Local(_) | PointerWord::Far(_) => panic!(rt; "no capability"),
///     PointerWord::Other => {}
/// }
/// ```
#[derive(Clone, Copy)]
pub enum PointerWord {
    Local(LocalPointer),
    Far(FarPointer),
    /// A capability, or a kind that isn't defined yet.
    Other,
}

/// A struct or list pointer.
#[derive(Clone, Copy)]
pub struct LocalPointer {
    pub offset: Offset,
    pub shape: LocalShape,
}

/// A signed number of words, in 30 bits.
#[derive(Clone, Copy)]
pub struct Offset(pub u32);

/// What a struct or list pointer points to.
#[derive(Clone, Copy)]
pub enum LocalShape {
    Struct(StructSize),
    /// A list of numbers: the size of its elements, and how many there are.
    Numbers(ElementSize, u32),
    /// A list of pointers: how many there are.
    Pointers(u32),
    /// A list of structs, a composite list: how many words its elements have together, without the
    /// tag word in front of them.
    Structs(u32),
}

/// The size of a struct, in words.
///
/// ```
/// let size = StructSize {
///     data_words: 2,
///     pointers: 1,
/// };
/// assert_eq!(rt; size.words(), 3);
/// ```
#[derive(Clone, Copy)]
pub struct StructSize {
    /// The words of its data section.
    pub data_words: u16,

    /// The words of its pointer section.
    pub pointers: u16,
}

/// The elements of a composite list, by its tag word.
///
/// ```
/// let Some(elements) = Elements::read(two_structs_of_one_data_word) else {
///     panic!(rt; "no tag of structs");
/// };
/// assert_eq!(rt; elements.count, 2);
/// assert_eq!(rt; (elements.size.data_words, elements.size.pointers), (1, 0));
/// assert_eq!(rt; elements.words(), 2);
/// ```
#[derive(Clone, Copy)]
pub struct Elements {
    pub size: StructSize,
    pub count: u32,
}

/// A far pointer: where its landing pad is, and whether it is a double-far pointer, whose landing
/// pad has two words.
///
/// ```
/// let PointerWord::Far(far) = PointerWord::read(to_word_five_of_segment_one) else {
///     panic!(rt; "no far pointer");
/// };
/// assert_eq!(rt; (far.landing_pad.segment, far.landing_pad.word), (1, 5));
/// assert!(rt; !far.is_double_far);
/// ```
#[derive(Clone, Copy)]
pub struct FarPointer {
    pub landing_pad: Place,
    pub is_double_far: bool,
}

// Speed: all of these are inlined. Most have few instructions. `PointerWord::read` and `list_shape`
// would return their results through memory, stored in some parts and loaded in others, and the
// processor would wait for that (workloads `log`, `far`).

impl PointerWord {
    /// Reads a pointer word; null reads as the pointer to a struct of no words.
    #[inline(always)]
    pub fn read(word: u64) -> PointerWord
        ensures { IsPointerWord word result }
    {
        match word % 4 {
            0 => PointerWord::Local(LocalPointer {
                offset: Offset::read(word),
                shape: LocalShape::Struct(StructSize::read(word)),
            }),
            1 => PointerWord::Local(LocalPointer {
                offset: Offset::read(word),
                shape: list_shape(word),
            }),
            2 => PointerWord::Far(FarPointer {
                landing_pad: Place {
                    segment: (word / (1 << 32)) as u32,
                    word: (word / 8 % (1 << 29)) as usize,
                },
                is_double_far: word / 4 % 2 == 1,
            }),
            _ => PointerWord::Other,
        }
    }
}

impl Offset {
    /// The offset of a struct or list pointer, or the number of elements of a tag.
    #[inline(always)]
    pub fn read(word: u64) -> Offset
        ensures { result.0 ≡ offset word }
    {
        Offset((word / 4 % (1 << 30)) as u32)
    }

    /// Whether it is -1, the offset of a pointer to a struct of no words.
    #[inline(always)]
    pub fn is_minus_one(self) -> bool
        ensures { IsTrue result ↔ (self.0 ≡ minus_one) }
    {
        self.0 == (1 << 30) - 1
    }

    /// The word at which the target of a pointer begins, where the pointer is at a word of the same
    /// segment.
    #[inline(always)]
    pub fn target(self, word: usize) -> Option<usize>
        requires bits { self.0 < 2 ^ 30 }
        requires place { word < 2 ^ 61 }
        ensures { let points_to = λ (start : ℕ).
            start + 2 ^ 30 * (self.0 / 2 ^ 29) ≡ word + 1 + self.0 in
            MatchOption result ((start : ℕ) → points_to start → ⊥) points_to }
    {
        let ahead = word + 1 + self.0 as usize;
        if self.0 < 1 << 29 {
            Some(ahead)
        } else {
            ahead.checked_sub(1 << 30)
        }
    }
}

impl StructSize {
    /// The size in a struct pointer or a tag.
    #[inline(always)]
    pub fn read(word: u64) -> StructSize
        ensures data { result.data_words ≡ word / 2 ^ 32 % 2 ^ 16 }
        ensures pointers { result.pointers ≡ word / 2 ^ 48 }
    {
        StructSize {
            data_words: (word / (1 << 32) % (1 << 16)) as u16,
            pointers: (word / (1 << 48)) as u16,
        }
    }

    /// The words of both sections.
    #[inline(always)]
    pub fn words(self) -> u64
        ensures { result ≡ self.data_words + self.pointers }
    {
        self.data_words as u64 + self.pointers as u64
    }
}

impl Elements {
    /// Reads the tag word in front of the elements; `None` where it doesn't have the shape of a
    /// struct pointer.
    #[inline(always)]
    pub fn read(tag: u64) -> Option<Elements>
        ensures { MatchOption result (0 < pointer_kind tag)
            (λ elements. IsElementsTag tag elements) }
    {
        if tag % 4 != 0 {
            return None;
        }
        // A tag word has the number of elements where a struct pointer has its offset.
        Some(Elements {
            size: StructSize::read(tag),
            count: Offset::read(tag).0,
        })
    }

    /// The number of words of all elements.
    #[inline(always)]
    pub fn words(self) -> u64
        ensures words { result ≡ self.count * (self.size.data_words + self.size.pointers) }
        ensures bound { result < 2 ^ 50 }
    {
        self.count as u64 * self.size.words()
    }
}

/// The code of a list pointer's elements.
#[inline(always)]
pub fn list_code(word: u64) -> u64
    ensures { result ≡ code word }
{
    word / (1 << 32) % 8
}

/// How many elements a list pointer declares; for a list of structs, how many words they have
/// together.
#[inline(always)]
pub fn list_count(word: u64) -> u64
    ensures { result ≡ list_count word }
{
    word / (1 << 35)
}

// What a list pointer points to.
#[inline(always)]
fn list_shape(word: u64) -> LocalShape
    requires { pointer_kind word ≡ 1 }
    ensures { IsLocalShape word result }
{
    let count = list_count(word) as u32;
    match list_code(word) {
        0 => LocalShape::Numbers(ElementSize::Void, count),
        1 => LocalShape::Numbers(ElementSize::Bit, count),
        2 => LocalShape::Numbers(ElementSize::Byte, count),
        3 => LocalShape::Numbers(ElementSize::TwoBytes, count),
        4 => LocalShape::Numbers(ElementSize::FourBytes, count),
        5 => LocalShape::Numbers(ElementSize::EightBytes, count),
        6 => LocalShape::Pointers(count),
        _ => LocalShape::Structs(count),
    }
}
