//! Structs as elements of lists.
ghost use Rattle.std.specs.Prelude.{◌≡◌, ℕ, ◌^◌, ◌<◌, List, All, length};

/// A struct that can be an element of a list: its data words, in addition to its
/// [`Fields`](crate::fields::Fields).
///
/// ```
/// let point: StructValue<2, NoFields> = StructValue::new([3, 4], NoFields);
/// assert_eq!(rt; point.words(), [3, 4].as_slice());
/// ```
pub trait Element {
    /// How many data words each element has, for contracts.
    ghost data_words: { ℕ };

    /// The words of its data section, for contracts.
    ghost words: { Self → List ℕ };

    /// How many data words each element has.
    fn data_words() -> usize
        ensures { result ≡ data_words };

    /// The words of its data section.
    fn words(&self) -> &[u64]
        ensures value { result.now ≡ words self.now }
        ensures long { length (words self.now) ≡ data_words }
        ensures fit { All (λ word. word < 2 ^ 64) (words self.now) };
}
