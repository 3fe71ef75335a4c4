//! What is expected at a case.
//!
//! It is in each crate that calls it, since no library may end the process.
use std::fmt::Debug;
use std::process::Abort;

/// What is found at a case is what is wanted there.
pub fn expect<R: Debug + Drop, T: PartialEq + Debug + Drop>(
    rt: &impl Abort,
    case: R,
    found: T,
    wanted: T,
) {
    assert!(rt; found == wanted, "at {case:?}: {found:?} is not {wanted:?}");
}
