//! Cap'n Proto's own benchmarks, carsales, catrank and eval, over types that the schema compiler
//! makes.
//!
//! Its words are the benchmark, how messages are passed (`objects`, `bytes` or `packed`), whether
//! memory is used again (`reused` or `fresh`), the seed, and how many requests are made:
//! `capnp_classic eval packed reused 1 1000`. `all` in the place of one of the first three does
//! each, and an unknown one is an error. For each it prints the sum of what the responses say and
//! the bytes of all messages. With one more word, `write`, it writes the canonical form of each
//! message framed to standard output instead.
#![tactic(auto)]

mod benchmark;
mod carsales;
mod carsales_capnp;
mod catrank;
mod catrank_capnp;
mod eval;
mod eval_capnp;
mod exchange;
mod random;
mod tally;

use anyhow::{Result, bail};
use benchmark::Benchmark;
use carsales::CarSales;
use catrank::CatRank;
use eval::Eval;
use exchange::{Exchange, Mode};
use random::Random;
use std::alloc::Global;
use std::env;
use std::io::Write;
use tally::Tally;

/// How many requests are made, and from which seed.
#[derive(Clone, Copy)]
struct Run {
    mode: Mode,
    reuses: bool,
    seed: u32,
    times: u32,
    writes: bool,
}

fn main(rt: HostRuntime) -> Result<()> {
    let benchmark = env::args(&rt)?.nth(1);
    let mode = env::args(&rt)?.nth(2);
    let memory = env::args(&rt)?.nth(3);
    let seed = number(env::args(&rt)?.nth(4).as_deref());
    let times = number(env::args(&rt)?.nth(5).as_deref());
    let writes = env::args(&rt)?.nth(6).is_some();
    let mut is_known = false;
    for name in ["carsales", "catrank", "eval"] {
        for way in ["objects", "bytes", "packed"] {
            for place in ["reused", "fresh"] {
                if !(is(benchmark.as_deref(), name)
                    && is(mode.as_deref(), way)
                    && is(memory.as_deref(), place))
                {
                    continue;
                }
                is_known = true;
                let run = Run {
                    mode: mode_of(way),
                    reuses: place == "reused",
                    seed,
                    times,
                    writes,
                };
                let tally = tally_of(rt.alloc(), name, run)?;
                match &tally.written {
                    Some(stream) => rt.stdout().write_all(stream.as_slice())?,
                    None => println!(rt; "{name} {way} {place} {} {}", tally.values, tally.bytes)?,
                }
            }
        }
    }
    if !is_known {
        bail!("there is no such benchmark");
    }
    Ok(())
}

fn is(word: Option<&str>, name: &str) -> bool {
    match word {
        Some(word) => word == name || word == "all",
        None => true,
    }
}

fn number(word: Option<&str>) -> u32 {
    match word {
        Some(digits) => digits.parse::<u32>().unwrap_or(1),
        None => 1,
    }
}

fn mode_of(word: &str) -> Mode {
    match word {
        "objects" => Mode::Objects,
        "bytes" => Mode::Bytes,
        _ => Mode::Packed,
    }
}

// What a benchmark comes to. A wrong response is an error.
fn tally_of(alloc: Global, name: &str, run: Run) -> Result<Tally> {
    let tally = match name {
        "carsales" => passed::<CarSales>(alloc, run)?,
        "catrank" => passed::<CatRank>(alloc, run)?,
        _ => passed::<Eval>(alloc, run)?,
    };
    if tally.wrong > 0 {
        bail!("{} responses of {name} are wrong", tally.wrong);
    }
    Ok(tally)
}

fn passed<B: Benchmark>(alloc: Global, run: Run) -> capnp::Result<Tally> {
    let mut random = Random::new(run.seed);
    let mut tally = Tally::new(alloc, run.writes);
    let mut exchange: Exchange<B> = Exchange::new(alloc)?;
    for _ in 0..run.times {
        if !run.reuses {
            exchange.renew(run.mode)?;
        }
        exchange.pass(run.mode, &mut random, &mut tally)?;
    }
    Ok(tally)
}
