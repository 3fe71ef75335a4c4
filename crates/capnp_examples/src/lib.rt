//! The examples of modules and of pages, as tests. The crate holds nothing else.
#![tactic(auto)]

#[cfg(test)]
mod examples;
