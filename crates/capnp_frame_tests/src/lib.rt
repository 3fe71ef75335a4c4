//! What all crates of tests share: sources and sinks, limits, errors, long lists, and what a test does
//! after a failed allocation.
#![tactic(auto)]

pub mod cases;
pub mod errors;
pub mod failed_allocations;
pub mod limits;
pub mod long_lists;
pub mod messages;
pub mod sinks;
pub mod sources;
