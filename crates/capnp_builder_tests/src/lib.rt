//! Cases of objects that are built: messages, values, allocators and their regions; and the calls
//! of builders and allocators. The crate holds tests alone, by the rules of `capnp_stream_tests`.
#![tactic(auto)]

#[cfg(test)]
mod builder_memory;
#[cfg(test)]
mod building;
#[cfg(test)]
mod calls;
#[cfg(test)]
mod data_sections;
#[cfg(test)]
mod fixtures;
#[cfg(test)]
mod hostile_messages;
#[cfg(test)]
mod made_lists;
#[cfg(test)]
mod read_lists;
#[cfg(test)]
mod regions;
#[cfg(test)]
mod values;
#[cfg(test)]
mod watched;
