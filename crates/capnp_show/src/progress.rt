//! How far the reading of a large input is.
ghost use Rattle.std.specs.Prelude.{[], IfOk, codes, string_bytes, ◌≡◌, ◌≤◌, ◌<◌, ◌+◌, ◌*◌, ◌/◌, ◌↔◌, ℕ, IfSome, IsSome, IsSomeAnd, IsTrue, None};
ghost use Rattle.capnp_show.specs.Output.{AddsEscaped, progress_of};

use crate::errors::named_line;
use std::alloc::{AllocError, Global};
use std::fmt::Write;

/// After how many bytes each further line is due.
pub const STEP_BYTES: u64 = 64_000_000;

// How many bytes are a MB.
const MEGABYTE: u64 = 1_000_000;

/// How far the reading of an input is.
#[derive(Clone, Copy)]
pub struct Progress {
    // The size of the input in bytes, if it is known.
    total: Option<u64>,
    // After how many bytes the next line is due; `None` where none is.
    next: Option<u64>,
}

impl Progress {
    /// The progress of an input of this many bytes, if the number is known, with nothing read yet.
    /// No line is due for an input of at most `STEP_BYTES`, or where none is wanted.
    pub fn new(is_wanted: bool, total: Option<u64>) -> Progress
        ensures due { IsSome result.next
            ↔ (IsTrue is_wanted × IfSome total (λ bytes. STEP_BYTES < bytes)) }
        ensures first { IfSome result.next (λ next. next ≡ STEP_BYTES) }
        ensures total { result.total ≡ total }
    {
        let is_small = total.is_some_and(|bytes| bytes <= STEP_BYTES);
        let next = if is_wanted && !is_small {
            Some(STEP_BYTES)
        } else {
            None
        };
        Progress { total, next }
    }

    /// How many MB are read, if a line is due once this number of bytes is taken.
    pub fn after(&mut self, taken: u64) -> Option<u64>
        ensures due { IsSome result ↔ IsSomeAnd self.old.next (λ next. next ≤ taken) }
        ensures megabytes { IfSome result (λ megabytes. megabytes ≡ taken / MEGABYTE) }
        ensures later { IsSome result → IfSome self.new.next (λ next. (taken < next)
            × (next ≤ taken + STEP_BYTES) × ((steps : ℕ) × (next ≡ steps * STEP_BYTES))) }
        ensures waits { result ≡ None → self.new ≡ self.old }
        ensures total { self.new.total ≡ self.old.total }
    {
        let next = self.next?;
        if taken < next {
            return None;
        }
        self.next = (taken / STEP_BYTES)
            .saturating_add(1)
            .checked_mul(STEP_BYTES);
        Some(taken / MEGABYTE)
    }

    /// The line for these numbers of MB and of messages that are read.
    #[tactic(auto, using(crate::proofs::JoinedAddedStringsLemmas::escaped_and_more))]
    pub fn line(
        &self,
        alloc: Global,
        name: &str,
        megabytes: u64,
        messages: u64,
    ) -> Result<String, AllocError>
        ensures { IfOk result (λ line. AddsEscaped (codes "capnp_show: ") name.now
            (progress_of self.now.total megabytes messages) [] (string_bytes line)) }
    {
        let mut line = named_line(alloc, name)?;
        write!(line, "{megabytes} MB")?;
        if let Some(total) = self.total {
            let all = total / MEGABYTE;
            write!(line, " of {all} MB")?;
        }
        write!(line, ", {messages} messages\n")?;
        Ok(line)
    }
}
