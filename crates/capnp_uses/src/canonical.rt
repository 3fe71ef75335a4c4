//! The canonical words of a message.
ghost use Rattle.capnp_wire.specs.Block.{word_numbers};
ghost use Rattle.capnp_uses.specs.Reading.{ReturnsCanonical};

use crate::reading::borrowed_message;
use capnp::{Result, Word};
use std::alloc::Global;

/// The canonical words of the message that these bytes begin with. Only the words take memory.
pub fn canonical_words(alloc: Global, bytes: &[u8]) -> Result<Vec<Word>>
    ensures { ReturnsCanonical bytes.now (λ words. word_numbers words.items) result }
{
    let message = borrowed_message(bytes)?;
    message.canonicalize(alloc)
}
