//! Words written as their bytes.
ghost use Rattle.std.specs.Prelude.{◌≡◌, ◌∷◌, []};
ghost use Rattle.capnp_frame.specs.Words.{bytes_of};

use crate::words::Word;

/// The word of these bytes, the first in memory first.
///
/// ```
/// let seven = word(7, 0, 0, 0, 0, 0, 0, 0);
/// assert_eq!(rt; seven.bytes(), [7, 0, 0, 0, 0, 0, 0, 0]);
/// assert_eq!(rt; u64::from_le_bytes(seven.bytes()), 7);
/// ```
pub fn word(b0: u8, b1: u8, b2: u8, b3: u8, b4: u8, b5: u8, b6: u8, b7: u8) -> Word
    ensures { bytes_of result ≡ b0 ∷ b1 ∷ b2 ∷ b3 ∷ b4 ∷ b5 ∷ b6 ∷ b7 ∷ [] }
{
    Word::from_bytes([b0, b1, b2, b3, b4, b5, b6, b7])
}
