//! Messages that are written in canonical form.
ghost use Rattle.capnp_ls.specs.Output.{PrintsForm, FormErrors};

use capnp::io::Write;
use capnp::message::{DEFAULT_READER_OPTIONS, Reader};
use capnp::serialize::OwnedSegments;
use capnp::streams::MessageWriter;
use capnp::{Result, serialize};
use std::alloc::Global;

/// Writes the canonical form of each message, framed.
#[derive(Clone, Copy)]
pub struct CanonicalForm;

impl MessageWriter for CanonicalForm {
    ghost writes = { λ _. PrintsForm };

    ghost writing_errors = { λ _. FormErrors };

    fn write_message<W: Write>(
        &self,
        alloc: Global,
        _index: u64,
        message: &OwnedSegments,
        _memory: &mut Vec<u8>,
        sink: &mut W,
    ) -> Result<()> {
        let reader = Reader::new(message, DEFAULT_READER_OPTIONS);
        serialize::write_canonical_message(alloc, sink, &reader)
    }
}
