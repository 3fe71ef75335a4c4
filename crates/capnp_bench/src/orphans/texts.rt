//! A list of texts; some of them are null.
use crate::orphans::{Benchmark, Output};
use crate::random::Random;
use capnp::{Result, text};
use capnp_orphans::{Orphan, Orphanage};
use std::alloc::Global;

const WORDS: [&str; 4] = ["", "segment", "landing pad", "canonical form of a message"];

pub fn build(alloc: Global, benchmark: Benchmark, output: &mut Output) -> Result<()> {
    let mut objects = Orphanage::new(alloc)?;
    let mut items: Vec<Orphan<text::Owned>> = Vec::new(alloc);
    for _ in 0..benchmark.times {
        objects.clear();
        items.clear();
        texts(&mut objects, &mut items, benchmark)?;
    }
    output.add(objects.bytes())
}

fn texts(
    objects: &mut Orphanage,
    items: &mut Vec<Orphan<text::Owned>>,
    benchmark: Benchmark,
) -> Result<()> {
    let mut random = Random::new(benchmark.seed);
    for _ in 0..benchmark.count {
        let item = match WORDS.get(random.below(5) as usize) {
            Some(word) => objects.text(word)?,
            None => Orphan::null(),
        };
        items.push(item)?;
    }
    let list = objects.pointer_list(items)?;
    objects.set_root(list);
    Ok(())
}
