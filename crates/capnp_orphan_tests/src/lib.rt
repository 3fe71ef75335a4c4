//! Tests of messages that are built from the bottom up, and of the types that the schema compiler
//! writes, and callers with contracts.
#![tactic(auto)]

#[cfg(test)]
mod built;
#[cfg(test)]
mod calls;
#[cfg(test)]
mod errors;
#[cfg(test)]
mod fixtures;
#[cfg(test)]
mod printed_capnp;
mod uses;

#[cfg(test)]
use capnpc_sample::{addressbook_capnp, sample_capnp};
