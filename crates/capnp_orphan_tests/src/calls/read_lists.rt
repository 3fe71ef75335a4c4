//! Lists that were read from one message and are set in another.
use crate::calls::callers::{expect_texts, message_of_texts};
use crate::fixtures::{empty, message_of};
use capnp::text_list;
use capnp_frame::Result;
use capnp_orphans::Orphanage;

#[test]
fn a_list_that_was_read_is_set(rt: HostRuntime) -> Result<()> {
    let objects = message_of_texts(&rt, &["one", "", "three"])?;
    let message = message_of(&objects);
    let others = with_list(&rt, &message.get_root()?)?;
    let copy = message_of(&others);
    expect_texts(&rt, &copy.get_root()?, &[b"one", b"", b"three"])
}

type Texts<'a, 'b> = text_list::Reader<'a, &'b Orphanage>;

// A message whose root is a list that was read.
fn with_list(rt: &impl AllocGlobal, texts: &Texts<'_, '_>) -> Result<Orphanage> {
    let mut others = empty(rt)?;
    let again = others.set::<text_list::Owned, Texts<'_, '_>>(texts)?;
    others.set_root(again);
    Ok(others)
}
