//! References to sources and sinks, which are sources and sinks themselves.
ghost use Rattle.std.specs.Prelude.{◌≡◌, refl};
ghost use Rattle.std.proofs.Common.{◌∙◌};

use crate::error::Result;
use crate::io::{BufRead, Read, Write};

impl<R: Read> Read for &mut R {
    ghost unread = { λ source. R.unread source.now };

    ghost failures = { λ source. R.failures source.now };

    ghost gives = { R.gives };

    ghost refuses = { R.refuses };

    ghost same = { λ old new. (new.ghost_name ≡ old.ghost_name) × R.same old.now new.now };

    fn read(&mut self, buffer: &mut [u8]) -> Result<usize> {
        Read::read(&mut **self, buffer)
    }

    fn read_exact(&mut self, buffer: &mut [u8]) -> Result<()> {
        Read::read_exact(&mut **self, buffer)
    }

    ghost lawful = { R.lawful };

    ghost keeps = { record {
      reflexive = λ s. (refl, R.keeps.reflexive s.now);
      transitive = λ s t u p q. (q.0 ∙ p.0, R.keeps.transitive s.now t.now u.now p.1 q.1);
    } };
}

impl<R: BufRead> BufRead for &mut R {
    ghost shown = { λ source. R.shown source.now };

    fn fill_buf(&mut self) -> Result<&[u8]> {
        BufRead::fill_buf(&mut **self)
    }

    fn consume(&mut self, amount: usize) {
        BufRead::consume(&mut **self, amount)
    }

    ghost plain = { R.plain };

    ghost plain_errors = { R.plain_errors };
}

impl<W: Write> Write for &mut W {
    ghost written = { λ sink. W.written sink.now };

    ghost failures = { λ sink. W.failures sink.now };

    ghost appends = { W.appends };

    ghost leaves = { W.leaves };

    ghost grants = { λ sink. W.grants sink.now };

    ghost refuses = { W.refuses };

    ghost same = { λ old new. (new.ghost_name ≡ old.ghost_name) × W.same old.now new.now };

    fn write_all(&mut self, chunk: &[u8]) -> Result<()> {
        Write::write_all(&mut **self, chunk)
    }

    ghost keeps = { record {
      reflexive = λ s. (refl, W.keeps.reflexive s.now);
      transitive = λ s t u p q. (q.0 ∙ p.0, W.keeps.transitive s.now t.now u.now p.1 q.1);
    } };
}
