//! Errors by their numbers.
use capnp_frame::{ErrorKind, Result};

/// The number of an error, and 0 for a result.
pub fn error_of<T: Drop>(returned: Result<T>) -> u8 {
    match returned {
        Ok(_) => 0,
        Err(error) => error.kind.number(),
    }
}

/// The kind of an error, and `None` for a result. An `OutOfMemory` is handed back as an error.
pub fn kind_of<T: Drop>(returned: Result<T>) -> Result<Option<ErrorKind>> {
    match returned {
        Ok(_) => Ok(None),
        Err(error) if error.kind == ErrorKind::OutOfMemory => Err(error),
        Err(error) => Ok(Some(error.kind)),
    }
}

/// What is returned, or the number of an error.
pub fn numbered<T>(returned: Result<T>) -> std::result::Result<T, u8> {
    match returned {
        Ok(returned) => Ok(returned),
        Err(error) => Err(error.kind.number()),
    }
}

/// The number of an error, and the words that come with 15; 0 for what there is not.
pub fn allocation_error<T: Drop>(returned: Result<T>) -> (u8, u32) {
    match returned {
        Ok(_) => (0, 0),
        Err(error) => match error.kind {
            ErrorKind::AllocationTooLarge(words) => (15, words),
            kind => (kind.number(), 0),
        },
    }
}
