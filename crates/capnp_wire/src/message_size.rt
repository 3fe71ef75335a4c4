//! Sizes of what pointers point to.

/// The size of an object with all below it.
///
/// ```
/// let root: any_pointer::Reader<'_, OwnedSegments> = message.get_root()?;
/// let size = root.target_size()?;
/// assert_eq!(rt; (size.word_count, size.cap_count), (4, 0));
/// ```
#[derive(Clone, Copy, Debug)]
pub struct MessageSize {
    /// The number of words.
    pub word_count: u64,
    /// The number of capabilities, which is 0: a message with one fails with `CapabilityRefused`.
    pub cap_count: u32,
}
