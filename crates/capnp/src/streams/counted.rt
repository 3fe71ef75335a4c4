//! A source that counts the bytes that are taken from it.
ghost use Rattle.std.specs.Prelude.{◌≡◌};
ghost use Rattle.capnp.specs.CountedSource.{ShowsUnread, KeepsCount, counts_none, counts_join};
ghost use Rattle.capnp.specs.Passed.{Splits, RunsShort, splitting};

use crate::Result;
use crate::io::{BufRead, Read};

/// A source, and how many bytes were taken from it.
///
/// Each byte is taken from what the source shows: of a `read` that fails nothing says how many it
/// took.
#[derive(Drop)]
pub(crate) struct Counted<R: BufRead> {
    source: R,
    taken: u64,
}

impl<R: BufRead> Counted<R> {
    /// The source. Nothing of it is counted yet.
    pub(crate) fn new(source: R) -> Counted<R>
        ensures source { result.source ≡ source }
        ensures taken { result.taken ≡ 0 }
    {
        Counted { source, taken: 0 }
    }

    /// How many bytes were taken, at most 2^64 - 1.
    pub(crate) fn taken(&self) -> u64
        ensures { result ≡ self.now.taken }
    {
        self.taken
    }
}

impl<R: BufRead> Read for Counted<R> {
    ghost unread = { λ counted. R.unread counted.source };

    ghost failures = { λ counted. R.failures counted.source };

    ghost gives = { Splits };

    ghost refuses = { RunsShort };

    ghost same = { λ old new. R.same old.source new.source × KeepsCount (ShowsUnread R.unread R.shown)
        (R.unread old.source) (R.unread new.source) old.taken new.taken };

    fn read(&mut self, buffer: &mut [u8]) -> Result<usize> {
        let shown = self.fill_buf()?;
        let count = shown.len().min(buffer.len());
        buffer[..count].copy_from_slice(&shown[..count]);
        self.consume(count);
        Ok(count)
    }

    ghost lawful = { splitting };

    ghost keeps = { record {
      reflexive = λ s. (R.keeps.reflexive s.source, counts_none (ShowsUnread R.unread R.shown) (R.unread s.source) s.taken);
      transitive = λ s t u p q. (
        R.keeps.transitive s.source t.source u.source p.0 q.0,
        counts_join (ShowsUnread R.unread R.shown) (R.unread s.source) (R.unread t.source) (R.unread u.source)
            s.taken t.taken u.taken p.1 q.1,
      );
    } };
}

impl<R: BufRead> BufRead for Counted<R> {
    ghost shown = { λ counted. R.shown counted.source };

    fn fill_buf(&mut self) -> Result<&[u8]> {
        self.source.fill_buf()
    }

    fn consume(&mut self, amount: usize) {
        self.source.consume(amount);
        self.taken = self.taken.saturating_add(amount as u64);
    }

    ghost plain = { λ _ _ _ _. (λ p. p, λ p. p) };

    ghost plain_errors = { λ _ _ _. (λ p. p, λ p. p) };
}
