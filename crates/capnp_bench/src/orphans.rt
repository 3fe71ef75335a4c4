//! Messages that are built from the bottom up, in orphanages whose memory is used again.
mod output;
mod records;
mod table;
mod texts;
mod tree;

use capnp::Result;
pub use output::Output;
use std::alloc::Global;

/// The numbers of a benchmark.
#[derive(Clone, Copy)]
pub struct Benchmark {
    /// What all numbers in the messages are made of.
    pub seed: u32,
    /// How many records, elements, nodes or texts there are.
    pub count: u32,
    /// How many times they are built, in the memory of the first time.
    pub times: u32,
}

/// What a benchmark builds the last time.
pub fn output_of(alloc: Global, name: &str, benchmark: Benchmark, writes: bool) -> Result<Output> {
    let mut output = Output::new(alloc, writes);
    match name {
        "records" => records::build(alloc, benchmark, &mut output)?,
        "table" => table::build(alloc, benchmark, &mut output)?,
        "tree" => tree::build(alloc, benchmark, &mut output)?,
        _ => texts::build(alloc, benchmark, &mut output)?,
    }
    Ok(output)
}
