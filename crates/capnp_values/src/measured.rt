//! Sums of words, and how many words a value may have.
ghost use Rattle.std.specs.Prelude.{◌≡◌, ◌+◌, ◌≤◌, ◌<◌, ◌^◌, false, MatchResult};
ghost use Rattle.capnp_layout.specs.Prelude.{too_large};
ghost use Rattle.capnp_values.specs.Measured.{both_words};

use capnp_frame::Result;
use capnp_layout::limits::checked_word_count;
use capnp_wire::traits::TreeWords;

/// The words of some trees and others together.
pub(crate) fn both(words: TreeWords, others: TreeWords) -> TreeWords
    requires untrimmed { words.untrimmed + others.untrimmed < 2 ^ 64 }
    requires output { words.output + others.output < 2 ^ 64 }
    ensures { result ≡ both_words words others }
{
    TreeWords {
        untrimmed: words.untrimmed + others.untrimmed,
        output: words.output + others.output,
    }
}

/// Returns the words of a part of a value. Fails with `AllocationTooLarge` where it has 2^29 words
/// or more untrimmed.
pub(crate) fn checked_part_words(words: TreeWords) -> Result<TreeWords>
    ensures { MatchResult result (λ part. (part ≡ words) × (words.untrimmed < 2 ^ 29))
        (λ error. (2 ^ 29 ≤ words.untrimmed) × (error.kind ≡ too_large false words.untrimmed)) }
{
    checked_word_count(words.untrimmed, false)?;
    Ok(words)
}
