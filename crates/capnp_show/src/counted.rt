//! A source that counts the bytes that are taken from it.
ghost use Rattle.std.specs.Prelude.{◌≡◌};

use capnp::Result;
use capnp::io::{BufRead, Read};

/// A source, and how many bytes were taken from it.
#[derive(Drop)]
pub struct Counted<R: Drop> {
    source: R,
    taken: u64,
}

impl<R: Drop> Counted<R> {
    /// The source, from which nothing is taken yet.
    pub fn new(source: R) -> Counted<R>
        ensures source { result.source ≡ source }
        ensures taken { result.taken ≡ 0 }
    {
        Counted { source, taken: 0 }
    }

    /// How many bytes were taken, at most 2^64 - 1.
    pub fn taken(&self) -> u64
        ensures { result ≡ self.now.taken }
    {
        self.taken
    }
}

impl<R: Read + Drop> Read for Counted<R> {
    ghost unread = { λ counted. R.unread counted.source };

    ghost failures = { λ counted. R.failures counted.source };

    ghost gives = { R.gives };

    ghost refuses = { R.refuses };

    ghost same = { λ old new. R.same old.source new.source };

    fn read(&mut self, buffer: &mut [u8]) -> Result<usize> {
        let count = self.source.read(buffer)?;
        self.taken = self.taken.saturating_add(count as u64);
        Ok(count)
    }

    ghost lawful = { R.lawful };

    ghost keeps = { record {
      reflexive = λ s. R.keeps.reflexive s.source;
      transitive = λ s t u p q. R.keeps.transitive s.source t.source u.source p q;
    } };
}

impl<R: BufRead + Drop> BufRead for Counted<R> {
    ghost shown = { λ counted. R.shown counted.source };

    fn fill_buf(&mut self) -> Result<&[u8]> {
        self.source.fill_buf()
    }

    fn consume(&mut self, amount: usize) {
        self.source.consume(amount);
        self.taken = self.taken.saturating_add(amount as u64);
    }

    ghost plain = { R.plain };

    ghost plain_errors = { R.plain_errors };
}
