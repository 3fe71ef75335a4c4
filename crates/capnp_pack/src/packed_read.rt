//! A source of words that are packed in another source.
ghost use Rattle.std.specs.Prelude.{◌≡◌, ◌<◌, ◌≤◌, ◌↔◌, ◌⊎◌, Some, [], IfOk, IfErr, IfSome, OnOk, length, take, refl};
ghost use Rattle.std.specs.Result.{IsErrAnd};
ghost use Rattle.std.proofs.Common.{◌∙◌};
ghost use Rattle.capnp_frame.specs.Prelude.{IsWholeWords, IfKnown, ReturnsPart, RequestError, IsPlain, Advances, Fails};
ghost use Rattle.capnp_frame.specs.declared.error.ErrorKind.{ErrorKind};
ghost use Rattle.capnp_pack.specs.PackedSource.{Unpacks, ChunkError, LeavesOverrun, Overran};
ghost use Rattle.capnp_pack.specs.PackedErrorLaws.{unpacking};

use crate::group::read_chunk;
use capnp_frame::io::{BufRead, Read};
use capnp_frame::{Error, ErrorKind, Result};

/// A source of the words that are packed in another source.
///
/// Each request is a chunk by itself: it takes groups from the front until it has its words, and
/// consumes just these.
///
/// Fails with `NotWholeWords` for a request that isn't whole words, with nothing read. Else the
/// first of these errors decides, however the source cuts its bytes:
///
/// - `PrematureEndOfPackedInput`, where a byte of a group, or a later group of the chunk, is
///   missing;
/// - `FailedToFillTheWholeBuffer`, where the words of a literal run are cut;
/// - `PackedInputDidNotEndCleanlyOnASegmentBoundary`, where a run goes past the end of the chunk.
///
/// ```
/// let mut source = [0x51, 8, 3, 2].as_slice();
/// let mut words = [0; 8];
/// let mut packed = PackedRead::new(&mut source);
/// packed.read_exact(&mut words)?;
/// assert_eq!(rt; words, [8, 0, 0, 0, 3, 0, 2, 0]);
/// ```
#[derive(Drop)]
pub struct PackedRead<'a, R: BufRead> {
    source: &'a mut R,
}

impl<'a, R: BufRead> PackedRead<'a, R> {
    /// Reads what is packed in this source.
    pub fn new(source: &'a mut R) -> PackedRead<'a, R>
        ensures same_reference { result.source.ghost_name ≡ source.entry.ghost_name }
        ensures source { result.source.now ≡ source.old }
    {
        PackedRead { source }
    }
}

impl<'a, R: BufRead> Read for PackedRead<'a, R> {
    ghost unread = { λ packed. R.unread packed.source.now };

    ghost failures = { λ packed. R.failures packed.source.now };

    ghost gives = { Unpacks };

    ghost refuses = { ChunkError };

    ghost same = { λ old new. (new.source.ghost_name ≡ old.source.ghost_name)
        × R.same old.source.now new.source.now };

    fn read(&mut self, buffer: &mut [u8]) -> Result<usize>
        ensures within { IfOk result (λ count. count ≤ length buffer.new) }
        // Either the whole chunk is returned, or none of it.
        ensures whole { IfOk result (λ count. (count ≡ 0) ⊎ (count ≡ length buffer.new)) }
        ensures taken { IfOk result (λ count.
            IfKnown (R.unread self.old.source.now) (R.unread self.new.source.now)
            (ReturnsPart Unpacks ChunkError (length buffer.new) (take count buffer.new))) }
        ensures end { IfOk result (λ count. IfSome (R.unread self.old.source.now)
            (λ raw. 0 < length buffer.new → (count ≡ 0) ↔ (raw ≡ []))) }
        ensures spent { IfOk result (λ count. count ≡ 0 → 0 < length buffer.new →
            RequestError ChunkError (length buffer.new) (R.unread self.old.source.now)
            ErrorKind.FailedToFillTheWholeBuffer) }

        // With which kinds it fails.
        ensures failed { IfErr result (λ error. error.kind ≡ ErrorKind.DeviceFailed →
            Fails (R.failures self.old.source.now) (R.failures self.new.source.now)) }
        ensures errors { IfErr result (λ error. (error.kind ≡ ErrorKind.DeviceFailed)
            ⊎ RequestError ChunkError (length buffer.new) (R.unread self.old.source.now) error.kind) }
        ensures at_end { IfErr result (λ error. R.unread self.old.source.now ≡ Some [] →
            IsWholeWords buffer.new → error.kind ≡ ErrorKind.DeviceFailed) }
        ensures plain { IfErr result (λ error. IsPlain Unpacks → error.kind ≡ ErrorKind.DeviceFailed) }
        // A request that isn't whole words fails, and leaves the source and the buffer as they
        // were.
        ensures part { (IsWholeWords buffer.old → ⊥) →
            IsErrAnd result (λ error. error.kind ≡ ErrorKind.NotWholeWords)
            × (self.new.source.now ≡ self.old.source.now) × (buffer.new ≡ buffer.old) }
        // Where a run goes past the end, only the groups before it and its head are consumed.
        ensures overrun { Overran result (R.unread self.old.source.now) (R.unread self.new.source.now)
            (LeavesOverrun (length buffer.new)) }

        ensures advances { Advances (λ packed. R.unread packed.source.now)
            (λ packed. R.failures packed.source.now)
            (λ old new. (new.source.ghost_name ≡ old.source.ghost_name) × R.same old.source.now new.source.now)
            self.old self.new }
    {
        if buffer.len() % 8 != 0 {
            return Err(Error::from_kind(ErrorKind::NotWholeWords));
        }
        read_chunk(self.source, buffer)
    }

    fn read_exact(&mut self, buffer: &mut [u8]) -> Result<()>
        ensures given { OnOk result
            (IfKnown (R.unread self.old.source.now) (R.unread self.new.source.now)
            (λ raw rest. Unpacks raw (length buffer.new) buffer.new rest)) }

        // With which kinds it fails.
        ensures failed { IfErr result (λ error. error.kind ≡ ErrorKind.DeviceFailed →
            Fails (R.failures self.old.source.now) (R.failures self.new.source.now)) }
        ensures errors { IfErr result (λ error. (error.kind ≡ ErrorKind.DeviceFailed)
            ⊎ RequestError ChunkError (length buffer.new) (R.unread self.old.source.now) error.kind) }
        ensures plain { IfErr result (λ error. IsPlain Unpacks →
            (error.kind ≡ ErrorKind.DeviceFailed)
            ⊎ (error.kind ≡ ErrorKind.FailedToFillTheWholeBuffer)) }
        // A request that isn't whole words fails, and leaves the source and the buffer as they
        // were.
        ensures part { (IsWholeWords buffer.old → ⊥) →
            IsErrAnd result (λ error. error.kind ≡ ErrorKind.NotWholeWords)
            × (self.new.source.now ≡ self.old.source.now) × (buffer.new ≡ buffer.old) }
        // Where a run goes past the end, only the groups before it and its head are consumed.
        ensures overrun { Overran result (R.unread self.old.source.now) (R.unread self.new.source.now)
            (LeavesOverrun (length buffer.new)) }

        ensures advances { Advances (λ packed. R.unread packed.source.now)
            (λ packed. R.failures packed.source.now)
            (λ old new. (new.source.ghost_name ≡ old.source.ghost_name) × R.same old.source.now new.source.now)
            self.old self.new }
    {
        let count = self.read(buffer)?;
        if count < buffer.len() {
            return Err(Error::from_kind(ErrorKind::FailedToFillTheWholeBuffer));
        }
        Ok(())
    }

    ghost lawful = { unpacking };

    ghost keeps = { record {
      reflexive = λ s. (refl, R.keeps.reflexive s.source.now);
      transitive = λ s t u p q. (q.0 ∙ p.0, R.keeps.transitive s.source.now t.source.now u.source.now p.1 q.1);
    } };
}
