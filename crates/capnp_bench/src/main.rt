//! Runs a benchmark of what users of the library wait for, on messages that are made of a seed, and
//! prints a digest of all that it returned.
//!
//! Its words are the benchmark, the seed and how many messages or elements are made:
//! `capnp_bench log 1 1000`. `all` runs each benchmark in turn. For `roots` and `trickle` one more
//! word picks a part, and a second one a part of it: `capnp_bench roots 1 1000 text set_root`.
//!
//! `orphans` runs `records`, `table`, `tree` and `texts`. One more word says how many times each is
//! built, in the memory of the first time; it is once where the word is left out. The digest is of
//! the last time. With `write` after that word the messages are written framed instead:
//! `table 1 1000 20 write`.
#![tactic(auto)]

mod canon;
mod convert;
mod digest;
mod far;
mod log;
mod orphans;
mod random;
mod raw;
mod roots;
mod shape;
mod small;
mod source;
mod trickle;
mod walk;

use anyhow::Result;
use orphans::{Benchmark, Output};
use std::alloc::Global;
use std::env;
use std::io::Write;

fn main(rt: HostRuntime) -> Result<()> {
    let benchmark = env::args(&rt)?.nth(1);
    let seed = number(env::args(&rt)?.nth(2).as_deref());
    let count = number(env::args(&rt)?.nth(3).as_deref());
    let benchmark = benchmark.as_deref().unwrap_or("all");
    for name in ["log", "convert", "walk", "canon", "far"] {
        if benchmark == name || benchmark == "all" {
            let digest = digest_of(rt.alloc(), name, seed, count)?;
            println!(rt; "{name} {digest}")?;
        }
    }
    let part = env::args(&rt)?.nth(4);
    let detail = env::args(&rt)?.nth(5);
    for name in ["roots", "trickle"] {
        if benchmark == name || benchmark == "all" {
            let parts = (part.as_deref(), detail.as_deref());
            let digest = digest_of_parts(rt.alloc(), name, seed, count, parts)?;
            println!(rt; "{name} {digest}")?;
        }
    }
    for name in ["records", "table", "tree", "texts"] {
        if benchmark == name || benchmark == "orphans" || benchmark == "all" {
            let times = number(part.as_deref());
            let benchmark = Benchmark { seed, count, times };
            match orphans::output_of(rt.alloc(), name, benchmark, detail.is_some())? {
                Output::Digest(digest) => {
                    let value = digest.value();
                    println!(rt; "{name} {value}")?;
                }
                Output::Stream(stream) => {
                    rt.stdout().write_all(stream.as_slice())?;
                }
            }
        }
    }
    Ok(())
}

fn number(word: Option<&str>) -> u32 {
    match word {
        Some(digits) => digits.parse::<u32>().unwrap_or(1),
        None => 1,
    }
}

fn digest_of(alloc: Global, benchmark: &str, seed: u32, count: u32) -> capnp::Result<u64> {
    match benchmark {
        "log" => log::digest_of(alloc, seed, count),
        "convert" => convert::digest_of(alloc, seed, count),
        "walk" => walk::digest_of(alloc, seed, count),
        "canon" => canon::digest_of(alloc, seed, count),
        _ => far::digest_of(alloc, seed, count),
    }
}

fn digest_of_parts(
    alloc: Global,
    benchmark: &str,
    seed: u32,
    count: u32,
    parts: (Option<&str>, Option<&str>),
) -> capnp::Result<u64> {
    match benchmark {
        "roots" => roots::digest_of(alloc, seed, count, parts.0, parts.1),
        _ => trickle::digest_of(alloc, seed, count, parts.0, parts.1),
    }
}
