//! How many words of a message may still be read.
ghost use Rattle.std.specs.Prelude.{◌≡◌, ◌≢◌, ◌<◌, None, IfErr, OnOk, OnErr};
ghost use Rattle.capnp_frame.specs.declared.error.ErrorKind.{ErrorKind};
ghost use Rattle.capnp_layout.specs.Prelude.{Within};
ghost use Rattle.capnp_wire.specs.Readers.{limit_of};

use capnp_frame::{Error, ErrorKind, Result};
use std::cell::Cell;

/// How many words of a message views have read, and the most that they may read.
#[derive(Drop)]
pub struct ReadLimiter {
    pub(crate) limit: Option<usize>,
    words_read: Cell<u64>,
}

impl ReadLimiter {
    /// A limiter that has counted nothing so far.
    pub(crate) fn new(limit: Option<usize>) -> ReadLimiter
        ensures { result.limit ≡ limit }
    {
        ReadLimiter {
            limit,
            words_read: Cell::new(0),
        }
    }
}

/// The most words that may be read; `None` for the readers of a builder, which have no limiter.
pub(crate) fn limit_in_words(limiter: Option<&ReadLimiter>) -> Option<usize>
    ensures { result ≡ limit_of limiter.entry }
{
    match limiter {
        Some(limiter) => limiter.limit,
        None => None,
    }
}

/// Counts words that are read. Fails with `ReadLimitExceeded`, and counts nothing, where the count
/// would pass the limit; for no words it never fails.
#[inline(always)]
pub(crate) fn traversed(limiter: Option<&ReadLimiter>, words: u64) -> Result<()>
    ensures kind { IfErr result (λ error. error.kind ≡ ErrorKind.ReadLimitExceeded) }
    ensures limited { OnErr result (limit_of limiter.entry ≢ None) }
    ensures some { OnErr result (0 < words) }
    ensures enough { OnOk result (Within (limit_of limiter.entry) words) }
{
    let Some(limiter) = limiter else {
        return Ok(());
    };
    let Some(limit) = limiter.limit else {
        return Ok(());
    };
    if words == 0 {
        return Ok(());
    }
    match limiter.words_read.get().checked_add(words) {
        Some(total) if total <= limit as u64 => {
            limiter.words_read.set(total);
            Ok(())
        }
        _ => Err(Error::from_kind(ErrorKind::ReadLimitExceeded)),
    }
}
