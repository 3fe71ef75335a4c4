//! A tree of a depth that is known when the program runs.
use crate::calls::schema_types::shown::message_in;
use crate::fixtures::expect;
use crate::sample_capnp::tree;
use capnp::Result;
use capnp_orphans::{Orphan, Orphanage};
use std::alloc::Global;
use std::process::Abort;

/// A tree in memory.
#[derive(Drop)]
enum Branch {
    None,
    Node(Box<Branch>, i64, Box<Branch>),
}

/// The same tree in a message: children first, then the node that points to them.
fn written(objects: &mut Orphanage, branch: &Branch) -> Result<Orphan<tree::Owned>> {
    match branch {
        Branch::None => Ok(Orphan::null()),
        Branch::Node(left, value, right) => {
            let left = written(objects, left)?;
            let right = written(objects, right)?;
            add_node(objects, left, *value, right)
        }
    }
}

fn add_node(
    objects: &mut Orphanage,
    left: Orphan<tree::Owned>,
    value: i64,
    right: Orphan<tree::Owned>,
) -> Result<Orphan<tree::Owned>> {
    let mut node = tree::Builder::new();
    node.set_value(value);
    node.set_left(left);
    node.set_right(right);
    node.add(objects)
}

fn node(alloc: Global, left: Branch, value: i64, right: Branch) -> Result<Branch> {
    Ok(Branch::Node(Box::new(alloc, left)?, value, Box::new(alloc, right)?))
}

fn two_nodes(alloc: Global) -> Result<Branch> {
    let leaf = node(alloc, Branch::None, -1, Branch::None)?;
    node(alloc, leaf, 5, Branch::None)
}

#[test]
fn a_tree_is_written(rt: HostRuntime) -> Result<()> {
    let mut objects = Orphanage::new(rt.alloc())?;
    let root = written(&mut objects, &two_nodes(rt.alloc())?)?;
    objects.set_root(root);
    let message = message_in(&objects);
    expect_two_nodes(&rt, &message.get_root()?)
}

fn expect_two_nodes(rt: &impl Abort, root: &tree::Reader<'_, &Orphanage>) -> Result<()> {
    assert!(rt; !root.has_right());
    let values = [root.get_value(), root.get_left()?.get_value()];
    expect(rt, "values", values, [5, -1]);
    Ok(())
}
