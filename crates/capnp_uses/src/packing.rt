//! Words that are packed, and unpacked.
ghost use Rattle.std.specs.Prelude.{◌≡◌, ◌⊎◌, ℕ, List, length, IfOk, IfErr, IsOk, OnOk};
ghost use Rattle.capnp_frame.specs.declared.error.ErrorKind.{ErrorKind};
ghost use Rattle.capnp_frame.specs.Prelude.{IsWholeWords, IfKnown, Fails, Adds};
ghost use Rattle.capnp_pack.specs.Prelude.{Packs, AppendsPacked, PackedChunkError, Unpacks, ChunkError};

use capnp::io::{Read, Write};
use capnp::serialize_packed::{PackedRead, PackedWrite};
use capnp::{Result, laws};
use std::alloc::Global;

/// The packed encoding of these words.
pub fn pack_words(alloc: Global, words: &[u8]) -> Result<Vec<u8>>
    requires { IsWholeWords words.now }
    ensures packed { IfOk result (λ encoding. Packs words.now encoding.items) }
    ensures memory { IfErr result (λ error. error.kind ≡ ErrorKind.OutOfMemory) }
{
    laws::plain_sink_gets_the_packed_encoding();
    let mut encoding = Vec::new(alloc);
    pack_into(&mut encoding, words)?;
    Ok(encoding)
}

// Packs words into a sink.
fn pack_into<W: Write>(sink: &mut W, words: &[u8]) -> Result<()>
    requires { IsWholeWords words.now }
    ensures packed { OnOk result (IfKnown (W.written sink.old) (W.written sink.new)
        (Adds (AppendsPacked W.appends words.now))) }
    ensures errors { IfErr result (λ error. (error.kind ≡ ErrorKind.DeviceFailed)
        ⊎ PackedChunkError W.refuses words.now error.kind) }
    ensures failed { IfErr result (λ error. error.kind ≡ ErrorKind.DeviceFailed →
        Fails (W.failures sink.old) (W.failures sink.new)) }
{
    let mut packed = PackedWrite::new(sink);
    packed.write_all(words)
}

/// Fills `words` with the words that are packed at the front of these bytes.
pub fn unpack_words(encoding: &[u8], words: &mut [u8]) -> Result<()>
    ensures filled { OnOk result ((rest : List ℕ)
        × Unpacks encoding.now (length words.new) words.new rest) }
    ensures found { (bytes rest : List ℕ) → Unpacks encoding.now (length words.new) bytes rest →
        IsOk result }
    ensures errors { IfErr result (λ error.
        ChunkError encoding.now (length words.new) error.kind) }
{
    let mut source = encoding;
    let mut packed = PackedRead::new(&mut source);
    packed.read_exact(words)
}

/// Packs words, and unpacks them.
pub fn words_are_unpacked(alloc: Global, words: &[u8]) -> Result<Vec<u8>>
    requires { IsWholeWords words.now }
    ensures back { IfOk result (λ unpacked. unpacked.items ≡ words.now) }
    ensures memory { IfErr result (λ error. error.kind ≡ ErrorKind.OutOfMemory) }
{
    laws::packed_encoding_unpacks();
    let encoding = pack_words(alloc, words)?;
    let mut unpacked = vec![in alloc; 0u8; words.len()]?;
    unpack_words(&encoding, &mut unpacked)?;
    Ok(unpacked)
}
