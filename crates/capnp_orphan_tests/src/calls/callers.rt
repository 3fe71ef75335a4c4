//! What the callers of `uses` build.
use crate::fixtures::{empty, expect, message_of};
use crate::uses::{canonical_tree, list_of_texts};
use capnp::text_list;
use capnp_frame::Result;
use capnp_orphans::Orphanage;
use std::process::Abort;

// A message whose root is a list of texts.
pub fn message_of_texts(rt: &impl AllocGlobal, names: &[&str]) -> Result<Orphanage> {
    let mut objects = empty(rt)?;
    let list = list_of_texts(rt.alloc(), &mut objects, names)?;
    objects.set_root(list);
    Ok(objects)
}

type Texts<'a, 'b> = text_list::Reader<'a, &'b Orphanage>;

// These are the texts of a list.
pub fn expect_texts(rt: &impl Abort, texts: &Texts<'_, '_>, wanted: &[&[u8]]) -> Result<()> {
    expect(rt, "how many", texts.len() as usize, wanted.len());
    for (index, text) in (0..).zip(wanted) {
        assert!(rt; index < texts.len());
        expect(rt, index, texts.get(index)?.as_bytes(), *text);
    }
    Ok(())
}

// A node of one data word and two pointers, each to a node that has lost its null pointers and is a
// word.
#[test]
fn null_pointers_are_left_out_of_the_canonical_form(rt: HostRuntime) -> Result<()> {
    let words = canonical_tree(rt.alloc(), 1, 7)?;
    expect(&rt, "words", words.len(), 6);
    Ok(())
}
