//! How large objects, lists and segments may be, and the errors for what is larger.
ghost use Rattle.std.specs.Prelude.{◌≡◌, ◌-◌, ◌≤◌, ◌<◌, ◌^◌, min, MatchResult};
ghost use Rattle.capnp_frame.specs.declared.error.ErrorKind.TheVariants.{AllocationTooLarge};
ghost use Rattle.capnp_layout.specs.Limits.{too_large};

use capnp_frame::{Error, ErrorKind, Result};

/// The most words that an object may have, or a value that is laid out as one block.
pub const MAX_WORDS: u32 = (1 << 29) - 1;

/// The most elements that a list may have: a list pointer holds their number in 29 bits.
pub const MAX_ELEMENTS: u32 = (1 << 29) - 1;

/// The most words that a segment may have: a far pointer holds the position of its landing pad in
/// 29 bits.
pub const MAX_SEGMENT_WORDS: u32 = 1 << 29;

/// Returns a number of words that a block may have. Fails above `MAX_WORDS` with
/// `AllocationTooLarge`, in canonical form with `CanonicalTooLarge`.
pub fn checked_word_count(words: u64, canonical: bool) -> Result<u32>
    ensures { MatchResult result (λ number. (number ≡ words) × (number < 2 ^ 29))
        (λ error. (2 ^ 29 ≤ words) × (error.kind ≡ too_large canonical words)) }
{
    if words <= MAX_WORDS as u64 {
        return Ok(words as u32);
    }
    if canonical {
        return Err(Error::from_kind(ErrorKind::CanonicalTooLarge));
    }
    Err(allocation_too_large(words))
}

/// The error for too many words or elements: `AllocationTooLarge` with their number, or with
/// 2^32 - 1 where that number does not fit 32 bits.
pub fn allocation_too_large(number: u64) -> Error
    ensures { result.kind ≡ AllocationTooLarge (min number (2 ^ 32 - 1)) }
{
    Error::from_kind(ErrorKind::AllocationTooLarge(number.min(u32::MAX as u64) as u32))
}
