//! What a test does where `rt try --test --fail-alloc N` makes one of its allocations fail.
use capnp_frame::{ErrorKind, Result};

/// What a body returns, or returns when it is run again.
#[macro_export]
macro_rules! retried {
    ($run:expr) => {
        match $run {
            Ok(found) => Ok(found),
            Err(_) => $run,
        }
    };
}

/// Whether a call failed with `OutOfMemory`.
pub fn is_out_of_memory<T>(returned: &Result<T>) -> bool {
    returned
        .as_ref()
        .is_err_and(|error| error.kind == ErrorKind::OutOfMemory)
}
