//! What these tests share: messages of an orphanage, and what is expected at a case.
use capnp::message::{DEFAULT_READER_OPTIONS, Reader};
use capnp_frame::Result;
use capnp_orphans::Orphanage;
use std::fmt::Debug;
use std::process::Abort;

/// The message of an orphanage.
pub type Message<'a> = Reader<&'a Orphanage>;

/// What is found at a case is what is wanted there.
pub fn expect<R: Debug + Drop, T: PartialEq + Debug + Drop>(
    rt: &impl Abort,
    case: R,
    found: T,
    wanted: T,
) {
    assert!(rt; found == wanted, "at {case:?}: {found:?} is not {wanted:?}");
}

/// An orphanage that holds nothing.
pub fn empty(rt: &impl AllocGlobal) -> Result<Orphanage> {
    Orphanage::new(rt.alloc())
}

pub fn message_of(objects: &Orphanage) -> Message<'_> {
    Reader::new(objects, DEFAULT_READER_OPTIONS)
}
