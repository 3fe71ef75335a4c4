//! What a test names where it fails.

/// A case, and the number that a test counts through at it: how many bytes a source
/// shows, or which call fails.
#[derive(Clone, Copy, Debug)]
pub struct At<'a> {
    pub case: &'a str,
    pub number: u64,
}

impl<'a> At<'a> {
    pub fn new(case: &'a str, number: u64) -> At<'a> {
        At { case, number }
    }
}
