//! The hash of a message's canonical form.
ghost use Rattle.std.specs.Prelude.{◌≡◌, ◌⊎◌, MatchResult};
ghost use Rattle.capnp.specs.Prelude.{ErrorKind, CanonicalFormError};
ghost use Rattle.capnp_message.specs.Seen.{root_of};
ghost use Rattle.capnp_show.specs.Hashes.{IsHashOf, ShowsHash};

use capnp::message::{Reader, ReaderSegments};
use capnp::{ErrorKind, Result};
use sha2::{Digest, Sha256};
use std::alloc::Global;

/// The SHA-256 of the words of a message's canonical form, without a frame.
pub fn canonical_hash<S: ReaderSegments>(alloc: Global, message: &Reader<S>) -> Result<[u8; 32]>
    ensures { let pointer = root_of S.segments message.now in MatchResult result
        (λ hash. IsHashOf pointer hash)
        (λ error. CanonicalFormError pointer error.kind ⊎ (error.kind ≡ ErrorKind.OutOfMemory)) }
{
    let bytes = message.canonical_segment(alloc)?;
    Ok(Sha256::digest(bytes.as_slice()))
}

/// The hash of a canonical form, or why there is none.
#[derive(Drop)]
pub enum Hash {
    /// Its hash, in hexadecimal digits.
    Of(String),
    /// The message has none, for this reason.
    WithoutForm(ErrorKind),
}

/// The hash of a message's canonical form, or why the message has none. It fails with `OutOfMemory`
/// alone.
pub fn hash_of<S: ReaderSegments>(alloc: Global, message: &Reader<S>) -> Result<Hash>
    ensures { MatchResult result (λ hash. ShowsHash (root_of S.segments message.now) hash)
        (λ error. error.kind ≡ ErrorKind.OutOfMemory) }
{
    match canonical_hash(alloc, message) {
        Ok(hash) => Ok(Hash::Of(hex::encode(alloc, hash.as_slice())?)),
        Err(error) => match error.kind {
            ErrorKind::OutOfMemory => Err(error),
            kind => Ok(Hash::WithoutForm(kind)),
        },
    }
}
