//! Words: packed and unpacked.
ghost use Rattle.std.specs.Prelude.{◌≡◌, ◌⊎◌, ◌<◌, ◌≤◌, ◌+◌, ℕ, List, length, take, IfErr, OnOk, IsOk};
ghost use Rattle.std.specs.Result.{IsErrAnd};
ghost use Rattle.capnp_frame.specs.Prelude.{IsWholeWords, kind_number, Adds, Grows, IfKnown, RequestError, Fails};
ghost use Rattle.capnp_frame.specs.declared.error.ErrorKind.{ErrorKind};
ghost use Rattle.capnp_pack.specs.Prelude.{Packs, AppendsPacked, PackedChunkError, Unpacks, ChunkError};

use crate::provided_buffer::ProvidedBuffer;
use capnp_frame::Result;
use capnp_frame::io::{BufRead, Read, Write};
use capnp_pack::{PackedRead, PackedWrite, laws};

/// Packs whole words into `encoding`, and counts the bytes that this takes.
///
/// Returns 0 exactly where the words are whole ones and `encoding` has room for their packed
/// encoding. Returns 14 where they aren't whole words, and 2 where there is no room. What follows
/// in `encoding` may have changed.
#[unsafe(no_mangle)]
pub extern "C" fn linsjoar_pack(words: &[u8], encoding: &mut [u8], written: &mut usize) -> u32
    ensures packed { result ≡ 0 → Packs words.now (take written.new encoding.new) }
    ensures within { written.new ≤ length encoding.new }
    ensures part { (IsWholeWords words.now → ⊥) → result ≡ 14 }
    ensures errors { IsWholeWords words.now → (result ≡ 0) ⊎ (result ≡ 2) }
    ensures accepted { (packed : List ℕ) → Packs words.now packed → length packed ≤ length encoding.new →
        result ≡ 0 }
    ensures short { (packed : List ℕ) → Packs words.now packed → length encoding.new < length packed →
        result ≡ 2 }
    ensures stays { 0 < result → written.new ≡ 0 }
{
    laws::plain_sink_gets_the_packed_encoding();
    *written = 0;
    let mut sink = ProvidedBuffer::new(encoding);
    match pack_into(&mut sink, words) {
        Ok(()) => {
            *written = sink.len();
            0
        }
        Err(error) => error.kind.number() as u32,
    }
}

// Packs words into a sink.
pub(crate) fn pack_into<W: Write>(sink: &mut W, words: &[u8]) -> Result<()>
    ensures packed { OnOk result (IfKnown (W.written sink.old) (W.written sink.new)
        (Adds (AppendsPacked W.appends words.now))) }
    ensures failed { IfErr result (λ error. error.kind ≡ ErrorKind.DeviceFailed →
        Fails (W.failures sink.old) (W.failures sink.new)) }
    ensures errors { IfErr result (λ error. (error.kind ≡ ErrorKind.DeviceFailed)
        ⊎ PackedChunkError W.refuses words.now error.kind) }
    ensures part { (IsWholeWords words.now → ⊥) →
        IsErrAnd result (λ error. error.kind ≡ ErrorKind.NotWholeWords) }
    ensures granted { (packed : List ℕ) (more : ℕ) → Packs words.now packed →
        W.grants sink.old (length packed + more) → IsOk result × W.grants sink.new more }
    ensures grows { Grows W.written W.failures W.same sink.old sink.new }
{
    let mut packed = PackedWrite::new(sink);
    packed.write_all(words)
}

/// Fills `words` with the words that are packed at the front of these bytes, and counts the packed
/// bytes that this takes. Returns 0, or the number of the error of the packed source.
#[unsafe(no_mangle)]
pub extern "C" fn linsjoar_unpack(encoding: &[u8], words: &mut [u8], read: &mut usize) -> u32
    ensures filled { result ≡ 0 → (rest : List ℕ)
        × Unpacks encoding.now (length words.new) words.new rest
        × (read.new + length rest ≡ length encoding.now) }
    ensures accepted { (bytes rest : List ℕ) → Unpacks encoding.now (length words.new) bytes rest →
        result ≡ 0 }
    ensures errors { (kind : ErrorKind) → ChunkError encoding.now (length words.new) kind →
        result ≡ kind_number kind }
    ensures stays { 0 < result → read.new ≡ 0 }
{
    *read = 0;
    let mut source = encoding;
    match unpack_from(&mut source, words) {
        Ok(()) => {
            *read = encoding.len() - source.len();
            0
        }
        Err(error) => error.kind.number() as u32,
    }
}

// Fills `words` with the words that are packed in a source.
pub(crate) fn unpack_from<R: BufRead>(source: &mut R, words: &mut [u8]) -> Result<()>
    ensures given { OnOk result (IfKnown (R.unread source.old) (R.unread source.new)
        (λ raw rest. Unpacks raw (length words.new) words.new rest)) }
    ensures failed { IfErr result (λ error. error.kind ≡ ErrorKind.DeviceFailed →
        Fails (R.failures source.old) (R.failures source.new)) }
    ensures errors { IfErr result (λ error. (error.kind ≡ ErrorKind.DeviceFailed)
        ⊎ RequestError ChunkError (length words.new) (R.unread source.old) error.kind) }
{
    let mut packed = PackedRead::new(source);
    packed.read_exact(words)
}
