//! A table: one message, a list of structs of a number, a flag and a text, which elements share.
use crate::orphans::{Benchmark, Output};
use crate::random::Random;
use capnp::{Result, any_struct, text};
use capnp_orphans::{Orphanage, StructDraft};
use std::alloc::Global;

type Element = StructDraft<any_struct::Owned, 2, 1>;

pub fn build(alloc: Global, benchmark: Benchmark, output: &mut Output) -> Result<()> {
    let mut objects = Orphanage::new(alloc)?;
    let mut elements: Vec<Element> = Vec::new(alloc);
    for _ in 0..benchmark.times {
        objects.clear();
        elements.clear();
        table(&mut objects, &mut elements, benchmark)?;
    }
    output.add(objects.bytes())
}

fn table(objects: &mut Orphanage, elements: &mut Vec<Element>, benchmark: Benchmark) -> Result<()> {
    let mut random = Random::new(benchmark.seed);
    let shared = objects.text("a text that rows share")?;
    for id in 0..benchmark.count {
        let mut element = Element::new();
        element.set_data_field(0, random.next());
        element.set_data_field(64, id % 3 == 0);
        element.set_data_field(3, id);
        if id % 2 == 0 {
            element.adopt::<text::Owned>(0, shared);
        } else {
            element.adopt(0, objects.text("its own")?);
        }
        elements.push(element)?;
    }
    let list = objects.struct_list(elements)?;
    objects.set_root(list);
    Ok(())
}
