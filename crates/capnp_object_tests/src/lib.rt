//! Cases of objects that are read: hostile pointers, and the calls of views; and what the tests of
//! builders share with them. The crate holds tests by the rules of `capnp_stream_tests`.
#![tactic(auto)]

pub mod arenas;
#[cfg(test)]
mod calls;
#[cfg(test)]
mod fixtures;
#[cfg(test)]
mod hostile;
pub mod messages;
pub mod trees;
