//! The types of two small schemas, as the compiler makes them: proved with no proof file.
#![tactic(auto)]

pub mod addressbook_capnp;
pub mod sample_capnp;
