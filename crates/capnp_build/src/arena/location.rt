//! Where the tree at the root of a message is.

/// Where the tree at the root is, without the root pointer, in words of a segment.
#[derive(Clone, Copy)]
pub struct RootLocation {
    /// The id of its segment.
    pub segment: u32,
    /// The index of its first word.
    pub start: u32,
    /// The number of its words.
    pub words: u32,
    /// The pointer to it from the word just before it, as a landing pad has it there.
    pub pointer_word: u64,
}
