//! Bytes that are written into a caller-provided block.
ghost use Rattle.std.specs.Prelude.{◌≡◌, ◌+◌, ◌≤◌, length, take, Some, refl};
ghost use Rattle.std.proofs.Common.{◌∙◌};
ghost use Rattle.capnp_frame.specs.declared.error.ErrorKind.{ErrorKind};
ghost use Rattle.capnp_frame.specs.Prelude.{AppendsSame, LeavesNothing, ByKind};

use capnp_frame::io::Write;
use capnp_frame::{Error, ErrorKind, Result};

/// The used bytes at the front of a caller-provided block, which the next chunk follows.
#[derive(Drop)]
pub struct ProvidedBuffer<'a> {
    block: &'a mut [u8],
    used: usize,
    ghost within: { used ≤ length block.now },
}

impl<'a> ProvidedBuffer<'a> {
    /// A sink into this block; no byte is used yet.
    pub fn new(block: &'a mut [u8]) -> ProvidedBuffer<'a>
        ensures same_reference { result.block.ghost_name ≡ block.entry.ghost_name }
        ensures block { result.block.now ≡ block.old }
        ensures used { result.used ≡ 0 }
    {
        ProvidedBuffer { block, used: 0 }
    }

    /// The number of used bytes.
    pub fn len(&self) -> usize
        ensures { result ≡ self.now.used }
    {
        self.used
    }
}

// A chunk that does not fit fails with `BufferNotLargeEnough`, and nothing of it is written.
impl Write for ProvidedBuffer<'_> {
    ghost written = { λ buffer. Some (take buffer.used buffer.block.now) };

    ghost failures = { λ _. 0 };

    ghost appends = { AppendsSame };

    ghost leaves = { LeavesNothing };

    ghost grants = { λ buffer bytes. buffer.used + bytes ≤ length buffer.block.now };

    ghost refuses = { ByKind ErrorKind.BufferNotLargeEnough };

    ghost same = { λ old new. (new.block.ghost_name ≡ old.block.ghost_name)
        × (length new.block.now ≡ length old.block.now) };

    fn write_all(&mut self, chunk: &[u8]) -> Result<()> {
        if self.block.len() - self.used < chunk.len() {
            return Err(Error::from_kind(ErrorKind::BufferNotLargeEnough));
        }
        let end = self.used + chunk.len();
        self.block[self.used..end].copy_from_slice(chunk);
        self.used = end;
        Ok(())
    }

    ghost keeps = { record {
      reflexive = λ s. (refl, refl);
      transitive = λ s t u p q. (q.0 ∙ p.0, q.1 ∙ p.1);
    } };
}
