//! A binary tree of as many nodes as are asked for, up to a full layer of leaves.
use crate::orphans::{Benchmark, Output};
use crate::random::Random;
use capnp::{Result, any_struct};
use capnp_orphans::{Orphan, Orphanage, StructDraft};
use std::alloc::Global;

pub fn build(alloc: Global, benchmark: Benchmark, output: &mut Output) -> Result<()> {
    let mut objects = Orphanage::new(alloc)?;
    let depth = benchmark.count.checked_ilog2().unwrap_or(0);
    for _ in 0..benchmark.times {
        objects.clear();
        let mut random = Random::new(benchmark.seed);
        let root = tree(&mut objects, &mut random, depth)?;
        objects.set_root(root);
    }
    output.add(objects.bytes())
}

// A tree of a depth: its left part is written first, then its right part, then the node.
fn tree(
    objects: &mut Orphanage,
    random: &mut Random,
    depth: u32,
) -> Result<Orphan<any_struct::Owned>> {
    let mut node = StructDraft::<any_struct::Owned, 1, 2>::new();
    node.set_data_field(0, random.next());
    if depth > 0 {
        node.adopt(0, tree(objects, random, depth - 1)?);
        node.adopt(1, tree(objects, random, depth - 1)?);
    }
    objects.add(&node)
}
