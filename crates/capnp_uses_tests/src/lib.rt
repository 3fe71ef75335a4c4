//! Tests of the callers in `capnp_uses`: what they build, by hand-computed bytes, and that they
//! succeed where memory suffices; and of messages and limits of many words.
//!
//! The crate holds tests alone.
#![tactic(auto)]

#[cfg(test)]
mod account_lists;
#[cfg(test)]
mod accounts;
#[cfg(test)]
mod any_numbers;
#[cfg(test)]
mod built_roots;
#[cfg(test)]
mod callers;
#[cfg(test)]
mod composed;
#[cfg(test)]
mod devices;
#[cfg(test)]
mod entries;
#[cfg(test)]
mod fixtures;
#[cfg(test)]
mod large_limits;
#[cfg(test)]
mod large_messages;
#[cfg(test)]
mod large_trees;
#[cfg(test)]
mod long_inputs;
#[cfg(test)]
mod loops;
#[cfg(test)]
mod message_streams;
#[cfg(test)]
mod read_back;
#[cfg(test)]
mod regions;
#[cfg(test)]
mod set_roots;
#[cfg(test)]
mod walks;
