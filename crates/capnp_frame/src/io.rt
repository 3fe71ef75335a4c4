//! Sources and sinks of bytes, as far as messages need them.
//!
//! Contracts see the unread bytes of a source, how often its device failed, and what a request
//! takes; of a sink they see what was written, and what a chunk adds. How many bytes one `read`
//! returns is left open: what is proved over a `Read` holds however its bytes are cut.
ghost use Rattle.std.specs.Prelude.{◌≡◌, ℕ, ◌+◌, ◌<◌, ◌≤◌, List, [], ◌⊎◌, length, take, drop, Option, Some, IfSome, IfOk, OnOk, IfErr, OnErr, IsOk, ◌↔◌};
ghost use Rattle.std.specs.Borrow.{sem};
ghost use Rattle.std.specs.Io.BufRead.{Rests};
ghost use Rattle.capnp_frame.specs.declared.error.ErrorKind.{ErrorKind};
ghost use Rattle.capnp_frame.specs.Message.{IsWholeWords};
ghost use Rattle.capnp_frame.specs.Source.{Giving, Refusing, IsSource, IsPreorder, IsPlain, Splits, RunsShort, Fails, IfKnown, Advances, Fills, IsFront, RequestError, ReturnsPart};
ghost use Rattle.capnp_frame.specs.Sink.{Appending, Leaving, Declining, Adds, Grows};

mod references;
mod slices;

use crate::error::{Error, ErrorKind, Result};

/// A source of bytes.
///
/// For implementers: `gives` says which bytes a request of n bytes takes, and `refuses` with which
/// kind it fails where no bytes are given. A `read` returns some of the bytes that are given, and
/// what it leaves is given to the requests after it.
///
/// ```
/// let mut source: &[u8] = &[1, 2, 3, 4];
/// let mut buffer = [0; 3];
/// source.read_exact(&mut buffer)?;
/// assert_eq!(rt; buffer, [1, 2, 3]);
/// assert_eq!(rt; source.read(&mut buffer)?, 1);
/// assert!(rt; source.is_empty());
/// ```
pub trait Read {
    /// The bytes that no read has taken yet, where they are known.
    ghost unread: { Self → Option (List ℕ) };

    /// How often its device failed, up to 2^64 - 1.
    ghost failures: { Self → ℕ };

    /// Which bytes a request takes, and what it leaves.
    ghost gives: { Giving };

    /// With which kind a request fails.
    ghost refuses: { Refusing };

    /// What no call changes, for example the reference that a source reads from.
    ghost same: { Self → Self → Type 0 };

    /// Reads some bytes into the front of `buffer`, and returns how many: 0 only where nothing is
    /// unread or `buffer` is empty.
    ///
    /// Fails with `DeviceFailed` only where the device failed in the call, and else with a kind
    /// that `refuses` names for a request of this length.
    fn read(&mut self, buffer: &mut [u8]) -> Result<usize>
        ensures within { IfOk result (λ count. count ≤ length buffer.new) }
        ensures taken { IfOk result (λ count. IfKnown (unread self.old) (unread self.new)
            (ReturnsPart gives refuses (length buffer.new) (take count buffer.new))) }
        ensures end { IfOk result (λ count. IfSome (unread self.old)
            (λ raw. 0 < length buffer.new → (count ≡ 0) ↔ (raw ≡ []))) }
        // Where `read` returns 0 and `buffer` has room, `read_exact` fails with this kind.
        ensures spent { IfOk result (λ count. count ≡ 0 → 0 < length buffer.new →
            RequestError refuses (length buffer.new) (unread self.old)
            ErrorKind.FailedToFillTheWholeBuffer) }

        // With which kinds it fails.
        ensures failed { IfErr result (λ error. error.kind ≡ ErrorKind.DeviceFailed →
            Fails (failures self.old) (failures self.new)) }
        ensures errors { IfErr result (λ error. (error.kind ≡ ErrorKind.DeviceFailed)
            ⊎ RequestError refuses (length buffer.new) (unread self.old) error.kind) }
        ensures at_end { IfErr result (λ error. unread self.old ≡ Some [] →
            IsWholeWords buffer.new → error.kind ≡ ErrorKind.DeviceFailed) }
        ensures plain { IfErr result (λ error. IsPlain gives → error.kind ≡ ErrorKind.DeviceFailed) }

        ensures advances { Advances unread failures same self.old self.new };

    /// Fills `buffer`. Fails with `FailedToFillTheWholeBuffer` where `read` returns 0 before it is
    /// full, and else as `read` does.
    fn read_exact(&mut self, buffer: &mut [u8]) -> Result<()>
        ensures given { OnOk result (IfKnown (unread self.old) (unread self.new)
            (λ raw rest. gives raw (length buffer.new) buffer.new rest)) }
        ensures failed { IfErr result (λ error. error.kind ≡ ErrorKind.DeviceFailed →
            Fails (failures self.old) (failures self.new)) }
        ensures errors { IfErr result (λ error. (error.kind ≡ ErrorKind.DeviceFailed)
            ⊎ RequestError refuses (length buffer.new) (unread self.old) error.kind) }
        ensures plain { IfErr result (λ error. IsPlain gives →
            (error.kind ≡ ErrorKind.DeviceFailed)
            ⊎ (error.kind ≡ ErrorKind.FailedToFillTheWholeBuffer)) }
        ensures advances { Advances unread failures same self.old self.new }
    {
        let mut filled = 0;
        while filled < buffer.len() {
            let count = self.read(&mut buffer[filled..])?;
            if count == 0 {
                return Err(Error::from_kind(ErrorKind::FailedToFillTheWholeBuffer));
            }
            filled += count;
        }
        Ok(())
    }

    ghost lawful: { IsSource gives refuses };

    ghost keeps: { IsPreorder same };
}

/// A plain source (it gives its bytes unchanged) that shows the bytes that it gives next.
///
/// ```
/// let mut source: &[u8] = &[1, 2, 3];
/// assert!(rt; source.fill_buf()? == [1, 2, 3].as_slice());
/// source.consume(1);
/// assert!(rt; source.fill_buf()? == [2, 3].as_slice());
/// ```
pub trait BufRead: Read {
    /// The bytes that `fill_buf` showed and `consume` may take.
    ghost shown: { Self → List ℕ };

    /// Shows bytes from the front of what is unread, and none only at the end. It consumes nothing.
    ///
    /// Fails with `DeviceFailed` alone.
    fn fill_buf(&mut self) -> Result<&[u8]>
        ensures front { IfOk result (λ bytes. IfSome (Self.unread self.old) (IsFront bytes.now)) }
        ensures end { IfOk result (λ bytes. bytes.now ≡ [] →
            IfSome (Self.unread self.old) (λ raw. raw ≡ [])) }
        ensures plain { IfErr result (λ error. error.kind ≡ ErrorKind.DeviceFailed) }
        ensures* after_borrow { sem 𝓛 (Rests Self.row self.entry
            (Fills Self.unread Self.failures Self.same shown result self.entry.now)) };

    /// Takes the first `amount` bytes that were shown.
    fn consume(&mut self, amount: usize)
        requires { amount ≤ length (shown self.old) }
        ensures taken { IfKnown (Self.unread self.old) (Self.unread self.new)
            (λ raw left. left ≡ drop amount raw) }
        ensures shown { shown self.new ≡ drop amount (shown self.old) }
        ensures kept { Self.failures self.new ≡ Self.failures self.old }
        ensures advances { Advances Self.unread Self.failures Self.same self.old self.new };

    ghost plain: { (raw : List ℕ) (n : ℕ) (bytes rest : List ℕ) →
        Splits raw n bytes rest ↔ Self.gives raw n bytes rest };

    ghost plain_errors: { (raw : List ℕ) (n : ℕ) (kind : ErrorKind) →
        RunsShort raw n kind ↔ Self.refuses raw n kind };
}

/// A sink of bytes: it takes whole chunks, or fails.
///
/// ```
/// let mut sink: Vec<u8> = Vec::new(alloc);
/// sink.write_all(&[1, 2])?;
/// sink.write_all(&[3])?;
/// assert_eq!(rt; sink.as_slice(), [1, 2, 3].as_slice());
/// ```
pub trait Write {
    /// The bytes taken so far, where the sink keeps them.
    ghost written: { Self → Option (List ℕ) };

    /// How often its device failed, up to 2^64 - 1.
    ghost failures: { Self → ℕ };

    /// What a chunk adds to the bytes taken so far.
    ghost appends: { Appending };

    /// Which part of a chunk a call that fails may leave, after the bytes taken so far.
    ghost leaves: { Leaving };

    /// With which kinds a chunk may fail, in addition to the device's.
    ghost refuses: { Declining };

    /// The sink is sure to take this many further bytes, however they are cut into chunks.
    ghost grants: { Self → ℕ → Type 0 };

    /// What no call changes, for example the reference that a sink writes to.
    ghost same: { Self → Self → Type 0 };

    /// Writes all of `chunk`. A call that fails adds at most a part of it: what `leaves` says.
    ///
    /// Fails with `DeviceFailed` only where the device failed in the call, and else with a kind
    /// that `refuses` names for this chunk. A chunk within what the sink `grants` never fails.
    fn write_all(&mut self, chunk: &[u8]) -> Result<()>
        ensures added { OnOk result (IfKnown (written self.old) (written self.new)
            (Adds (appends chunk.now))) }
        ensures left { OnErr result (IfKnown (written self.old) (written self.new)
            (Adds (leaves chunk.now))) }
        ensures granted { (more : ℕ) → grants self.old (length chunk.now + more) →
            IsOk result × grants self.new more }
        ensures failed { IfErr result (λ error. error.kind ≡ ErrorKind.DeviceFailed →
            Fails (failures self.old) (failures self.new)) }
        ensures errors { IfErr result (λ error. (error.kind ≡ ErrorKind.DeviceFailed)
            ⊎ refuses chunk.now error.kind) }
        ensures grows { Grows written failures same self.old self.new };

    ghost keeps: { IsPreorder same };
}
