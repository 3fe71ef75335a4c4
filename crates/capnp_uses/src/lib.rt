//! Callers of the library, each with the contract that its user wants.
//!
//! They show how the calls go together, and that the contracts say what a user wants to know.
//! Nothing depends on them.
#![tactic(auto)]

pub mod account;
pub mod account_list;
pub mod any_numbers;
pub mod appended;
pub mod building;
pub mod canonical;
pub mod devices;
pub mod entries;
pub mod loops;
pub mod packed_struct;
pub mod packing;
pub mod reading;
pub mod record_log;
pub mod regions;
pub mod roots;
pub mod setting;
pub mod streaming;
pub mod values;
