//! Words, the unit in which messages are measured.
use crate::error::{Error, ErrorKind, Result};
use std::alloc::Global;

pub mod literal;

/// Eight bytes, as they are in a message.
///
/// ```
/// let words = Word::allocate_zeroed_vec(alloc, 2)?;
/// assert_eq!(rt; words.len(), 2);
/// for zero in words.as_slice() {
///     assert_eq!(rt; zero.bytes(), [0; 8]);
/// }
/// ```
#[derive(Clone, Copy, Debug, PartialEq, Eq)]
pub struct Word {
    bytes: [u8; 8],
}

impl Word {
    ghost use Rattle.std.specs.Prelude.{◌≡◌, ℕ, ◌*◌, ◌≤◌, ◌^◌, ◌↔◌, ◌⊎◌, replicate, map, IfOk, IfErr};
    ghost use Rattle.capnp_frame.specs.Errors.{MayOverflow};
    ghost use Rattle.capnp_frame.specs.Words.{bytes_of};

    /// The word of these bytes.
    pub(crate) fn from_bytes(bytes: [u8; 8]) -> Word
        ensures { bytes_of result ≡ bytes }
    {
        Word { bytes }
    }

    /// `length` zero words.
    ///
    /// Fails with `MessageSizeOverflow` exactly where their bytes pass `usize`, and else with
    /// `OutOfMemory` alone.
    pub fn allocate_zeroed_vec(alloc: Global, length: usize) -> Result<Vec<Word>>
        ensures zero { IfOk result (λ words.
            map bytes_of words.items ≡ replicate length (replicate 8 0)) }
        ensures sized { MayOverflow (2 ^ 64 ≤ 8 * length) result }
    {
        if length.checked_mul(8).is_none() {
            return Err(Error::from_kind(ErrorKind::MessageSizeOverflow));
        }
        Ok(vec![in alloc; Word::from_bytes([0; 8]); length]?)
    }

    /// The bytes, in the order of memory.
    pub fn bytes(&self) -> [u8; 8]
        ensures { result ≡ bytes_of self.now }
    {
        self.bytes
    }
}
