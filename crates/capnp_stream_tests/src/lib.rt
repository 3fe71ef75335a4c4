//! Cases of framing and packing, of the readers and writers of both formats, and their calls. The
//! crate holds tests alone.
//!
//! Expected values come from the [encoding document] and are computed by hand, never taken from
//! what the calls return. `rt try --test --fail-alloc N` makes one allocation of each test fail: a
//! body that returns an error is run again, and has to succeed then. Only the tests of a module
//! `calls`, which read whole results, may fail.
//!
//! [encoding document]: https://capnproto.org/encoding.html
#![tactic(auto)]

#[cfg(test)]
mod built_and_read;
#[cfg(test)]
mod calls;
#[cfg(test)]
mod chunk_cases;
#[cfg(test)]
mod chunks;
#[cfg(test)]
mod devices;
#[cfg(test)]
mod failures;
#[cfg(test)]
mod fixtures;
#[cfg(test)]
mod kept_memory;
#[cfg(test)]
mod lengths;
#[cfg(test)]
mod open_sources;
#[cfg(test)]
mod parts;
#[cfg(test)]
mod readers;
#[cfg(test)]
mod requests;
#[cfg(test)]
mod samples;
#[cfg(test)]
mod sentences;
#[cfg(test)]
mod sink_cases;
#[cfg(test)]
mod sinks;
#[cfg(test)]
mod skipping;
#[cfg(test)]
mod slices;
#[cfg(test)]
mod transcodings;
#[cfg(test)]
mod writers;
