//! Records of three numbers, a text, and in some of them a list of numbers: a message each, in the
//! memory of the one before.
use crate::orphans::{Benchmark, Output};
use crate::random::Random;
use capnp::{Result, any_struct};
use capnp_orphans::{Orphanage, StructDraft};
use std::alloc::Global;

const NAMES: [&str; 4] = ["Ada", "Grace", "Barbara", "Margaret"];

const SAMPLES: [u32; 12] = [3, 1, 4, 1, 5, 9, 2, 6, 5, 3, 5, 8];

pub fn build(alloc: Global, benchmark: Benchmark, output: &mut Output) -> Result<()> {
    let mut objects = Orphanage::new(alloc)?;
    for time in 0..benchmark.times {
        let mut random = Random::new(benchmark.seed);
        for id in 0..benchmark.count {
            objects.clear();
            record(&mut objects, &mut random, id)?;
            if time + 1 == benchmark.times {
                output.add(objects.bytes())?;
            }
        }
    }
    Ok(())
}

// A quarter of the records have a list, of at most eleven numbers.
fn record(objects: &mut Orphanage, random: &mut Random, id: u32) -> Result<()> {
    let mut draft = StructDraft::<any_struct::Owned, 3, 2>::new();
    draft.set_data_field(0, id as u64);
    draft.set_data_field(1, random.next());
    draft.set_data_field(4, id);
    let name = NAMES.get(random.below(4) as usize).unwrap_or(&"");
    draft.adopt(0, objects.text(name)?);
    if random.below(4) == 0 {
        let length = random.below(12) as usize;
        let part = SAMPLES.get(..length).unwrap_or(&[]);
        draft.adopt(1, objects.numbers::<u32>(part)?);
    }
    objects.add_root(&draft)
}
