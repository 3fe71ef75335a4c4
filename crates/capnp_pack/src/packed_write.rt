//! A sink that packs words.
ghost use Rattle.std.specs.Prelude.{◌≡◌, ◌≢◌, ℕ, ◌+◌, ◌*◌, ◌<◌, ◌≤◌, ◌⊎◌, List, [], ◌∷◌, ◌++◌, IfOk, IfErr, OnOk, OnErr, IsOk, IsOkAnd, length, take, drop, refl};
ghost use Rattle.std.specs.List.{concat};
ghost use Rattle.std.specs.Result.{IsErrAnd};
ghost use Rattle.std.proofs.Common.{◌∙◌};
ghost use Rattle.capnp_frame.specs.declared.error.ErrorKind.{ErrorKind};
ghost use Rattle.capnp_frame.specs.Prelude.{IsWholeWords, IfKnown, Fails, AnyChunkError, Adds, Grows, WritesTo};
ghost use Rattle.capnp_pack.specs.Calls.{HandsOn};
ghost use Rattle.capnp_pack.specs.Group.{Group, group_encoding};
ghost use Rattle.capnp_pack.specs.Packed.{IfFirst, Packs};
ghost use Rattle.capnp_pack.specs.PackedWords.{PacksWords, PacksFront, HandsTo, RestAfter, GrantsTo};
ghost use Rattle.capnp_pack.specs.PackedSink.{AppendsPacked, LeavesPacked, PackedChunkError};
ghost use Rattle.capnp_pack.specs.Steps.{IsRun, IsZero, HasFewZeros, Hands, IsGroupOf, GroupAfter, LiteralAfter, tag_of};

use crate::buffer::{BUFFER_BYTES, MOST_USED, flush, push, push_run, push_word};
use crate::runs::{first_mark, literal_run, tag, zero_run};
use crate::sizes::group_bytes;
use capnp_frame::io::Write;
use capnp_frame::{Error, ErrorKind, Result};

/// A sink of words, which hands them on packed to another sink.
///
/// Each chunk is packed by itself, and handed on in parts. A chunk that isn't whole words fails
/// with `NotWholeWords`, and nothing is written of it.
///
/// ```
/// let mut encoding = Vec::new(alloc);
/// let mut packed = PackedWrite::new(&mut encoding);
/// packed.write_all(&[8, 0, 0, 0, 3, 0, 2, 0])?;
/// assert_eq!(rt; encoding.as_slice(), [0x51, 8, 3, 2].as_slice());
/// ```
#[derive(Drop)]
pub struct PackedWrite<'a, W: Write> {
    sink: &'a mut W,
}

impl<'a, W: Write> PackedWrite<'a, W> {
    /// Writes packed words to this sink.
    pub fn new(sink: &'a mut W) -> PackedWrite<'a, W>
        ensures same_reference { result.sink.ghost_name ≡ sink.entry.ghost_name }
        ensures sink { result.sink.now ≡ sink.old }
    {
        PackedWrite { sink }
    }
}

impl<'a, W: Write> Write for PackedWrite<'a, W> {
    ghost written = { λ packed. W.written packed.sink.now };

    ghost failures = { λ packed. W.failures packed.sink.now };

    ghost appends = { AppendsPacked W.appends };

    ghost leaves = { LeavesPacked W.appends W.leaves };

    ghost grants = { λ _ _. ⊥ };

    ghost refuses = { PackedChunkError W.refuses };

    ghost same = { λ old new. (new.sink.ghost_name ≡ old.sink.ghost_name)
        × W.same old.sink.now new.sink.now };

    fn write_all(&mut self, chunk: &[u8]) -> Result<()>
        ensures added { OnOk result (IfKnown (W.written self.old.sink.now) (W.written self.new.sink.now)
            (Adds (AppendsPacked W.appends chunk.now))) }
        ensures granted { (more : ℕ) → ⊥ → IsOk result × ⊥ }
        // Where it fails, only the start of the packed encoding is written, without a gap.
        ensures left { OnErr result (IfKnown (W.written self.old.sink.now) (W.written self.new.sink.now)
            (Adds (LeavesPacked W.appends W.leaves chunk.now))) }
        ensures failed { IfErr result (λ error. error.kind ≡ ErrorKind.DeviceFailed →
            Fails (W.failures self.old.sink.now) (W.failures self.new.sink.now)) }
        ensures errors { IfErr result (λ error. (error.kind ≡ ErrorKind.DeviceFailed)
            ⊎ PackedChunkError W.refuses chunk.now error.kind) }
        ensures grows { Grows (λ packed. W.written packed.sink.now) (λ packed. W.failures packed.sink.now)
            (λ old new. (new.sink.ghost_name ≡ old.sink.ghost_name) × W.same old.sink.now new.sink.now)
            self.old self.new }
        // A chunk that isn't whole words fails, and leaves the sink as it was.
        ensures part { (IsWholeWords chunk.now → ⊥) →
            IsErrAnd result (λ error. error.kind ≡ ErrorKind.NotWholeWords)
            × (self.new.sink.now ≡ self.old.sink.now) }
        // Where the sink grants the packed encoding, the call succeeds.
        ensures packed_granted { (encoding : List ℕ) (more : ℕ) → Packs chunk.now encoding →
            W.grants self.old.sink.now (length encoding + more) →
            IsOk result × W.grants self.new.sink.now more }
    {
        if chunk.len() % 8 != 0 {
            return Err(Error::from_kind(ErrorKind::NotWholeWords));
        }
        pack(self.sink, chunk)
    }

    ghost keeps = { record {
      reflexive = λ s. (refl, W.keeps.reflexive s.sink.now);
      transitive = λ s t u p q. (q.0 ∙ p.0, W.keeps.transitive s.sink.now t.sink.now u.sink.now p.1 q.1);
    } };
}

// How many words are packed, and how many bytes of the buffer are then used.
#[derive(Clone, Copy)]
struct Packed {
    words: usize,
    used: usize,
}

// Packs the words of a chunk, and hands them on.
fn pack<W: Write>(sink: &mut W, chunk: &[u8]) -> Result<()>
    requires { IsWholeWords chunk.now }
    ensures writes { WritesTo W.Write sink.old sink.new (AppendsPacked W.appends chunk.now)
        (LeavesPacked W.appends W.leaves chunk.now) (AnyChunkError W.refuses) result }
    ensures granted { (encoding : List ℕ) (more : ℕ) → Packs chunk.now encoding →
        W.grants sink.old (length encoding + more) → IsOk result × W.grants sink.new more }
{
    let (words, _) = chunk.as_chunks::<8>();
    let mut left = words;
    let mut bytes = [0; BUFFER_BYTES];
    let mut used = 0;
    while left.len() > 0 {
        // Speed: what the buffer takes is no part of a `Result`, whose numbers are kept in halves.
        let packed = pack_buffered(&mut bytes, used, left);
        left = &left[packed.words..];
        used = packed.used;
        if left.len() > 0 {
            let next = pack_next(sink, &mut bytes, used, left)?;
            left = &left[next.words..];
            used = next.used;
        }
    }
    flush(sink, &bytes, used)
}

// Hands the buffer on where it may have no room for a group, or else packs the next word, which is
// stored as it is.
#[inline(always)]
fn pack_next<W: Write>(
    sink: &mut W,
    bytes: &mut [u8; BUFFER_BYTES],
    used: usize,
    words: &[[u8; 8]],
) -> Result<Packed>
    requires used { used ≤ BUFFER_BYTES }
    requires some { 0 < length words.now }
    requires literal { used ≤ MOST_USED → IfFirst words.now (λ word. tag_of word ≡ 255) }
    ensures within { IfOk result (λ packed. packed.words ≤ length words.now) }
    ensures used { IfOk result (λ packed. packed.used ≤ BUFFER_BYTES) }
    // Some words are packed, or the buffer is handed on.
    ensures further { IfOk result (λ packed. packed.used < used + 65 * packed.words) }
    ensures hands { HandsOn W.Write sink.old sink.new (RestAfter (take used bytes.old) words.now)
        (λ packed. HandsTo W.appends words.now (drop packed.words words.now)
        (take used bytes.old) (take packed.used bytes.new)
        (W.written sink.old) (W.written sink.new)) result }
    ensures granted { (encoding : List ℕ) (more : ℕ) → PacksWords words.now encoding →
        W.grants sink.old (used + (length encoding + more)) →
        IsOkAnd result (λ packed.
        GrantsTo (W.grants sink.new) (drop packed.words words.now) packed.used more) }
{
    if used > MOST_USED {
        flush(sink, bytes, used)?;
        return Ok(Packed { words: 0, used: 0 });
    }
    let literal = pack_literal(sink, bytes, used, &words[0], &words[1..])?;
    Ok(literal)
}

// Packs groups that fit the buffer, while it has room, up to a word that is stored as it is.
#[inline(always)]
fn pack_buffered(bytes: &mut [u8; BUFFER_BYTES], used: usize, words: &[[u8; 8]]) -> Packed
    requires { used ≤ BUFFER_BYTES }
    ensures packs { PacksFront words.now bytes.old used bytes.new result.words result.used }
    // Where room is left, the next word is stored as it is.
    ensures literal { result.used ≤ MOST_USED →
        IfFirst (drop result.words words.now) (λ word. tag_of word ≡ 255) }
{
    let packed = pack_stretch(bytes, used, words);
    if packed.used > MOST_USED || packed.words + 1 != words.len() {
        return packed;
    }
    let last = &words[packed.words];
    let tag = tag(last);
    if tag == 255 {
        return packed;
    }
    push_word(bytes, packed.used, tag, last);
    Packed {
        words: packed.words + 1,
        used: packed.used + group_bytes(tag),
    }
}

// Packs such groups, except for the last word.
// Speed: one test tells that a word is left and that another follows (workloads `convert`, `log`).
#[inline(always)]
fn pack_stretch(bytes: &mut [u8; BUFFER_BYTES], used: usize, words: &[[u8; 8]]) -> Packed
    requires { used ≤ BUFFER_BYTES }
    ensures packs { PacksFront words.now bytes.old used bytes.new result.words result.used }
    ensures literal { result.used ≤ MOST_USED → result.words + 1 ≢ length words.now →
        IfFirst (drop result.words words.now) (λ word. tag_of word ≡ 255) }
{
    let mut count = 0;
    let mut end = used;
    while end <= MOST_USED && count + 1 < words.len() {
        let word = &words[count];
        let others = &words[count + 1..];
        let tag = tag(word);
        if tag == 255 {
            break;
        }
        let filled = push_word(bytes, end, tag, word);
        // Speed: one test of both, so that a zero word alone takes no branch of its own.
        if tag as u64 | first_mark(others) == 0 {
            let zeros = zero_run(others);
            end = push(bytes, filled, zeros as u8);
            count += 1 + zeros;
        } else {
            end += group_bytes(tag);
            count += 1;
        }
    }
    Packed {
        words: count,
        used: end,
    }
}

// Packs a word that is stored as it is, and hands on the words after it that are, too.
#[inline(always)]
fn pack_literal<W: Write>(
    sink: &mut W,
    bytes: &mut [u8; BUFFER_BYTES],
    used: usize,
    word: &[u8; 8],
    others: &[[u8; 8]],
) -> Result<Packed>
    requires room { used ≤ MOST_USED }
    requires full { tag_of word.now ≡ 255 }
    ensures used { IfOk result (λ packed. packed.used ≤ BUFFER_BYTES) }
    ensures hands { HandsOn W.Write sink.old sink.new
        (GroupAfter (take used bytes.old) word.now others.now) (λ packed. (further : ℕ)
        × (packed.words ≡ 1 + further) × (group : Group) × IsGroupOf word.now others.now further group
        × IfKnown (W.written sink.old) (W.written sink.new)
        (Hands W.appends (take used bytes.old) (group_encoding group)
        (take packed.used bytes.new))) result }
    ensures granted { (group : Group) (count more : ℕ) → IsGroupOf word.now others.now count group →
        W.grants sink.old (used + (length (group_encoding group) + more)) →
        IsOkAnd result (λ packed. W.grants sink.new (packed.used + more)) }
{
    let end = push_word(bytes, used, 255, word);
    let words = literal_run(others);
    let filled = pack_run(sink, bytes, end, words, others)?;
    Ok(Packed {
        words: 1 + words,
        used: filled,
    })
}

// Adds the count of the further words that are stored as they are, and these words, or hands the
// words on where they don't fit. Returns how many bytes are then used.
#[inline(always)]
fn pack_run<W: Write>(
    sink: &mut W,
    bytes: &mut [u8; BUFFER_BYTES],
    end: usize,
    words: usize,
    others: &[[u8; 8]],
) -> Result<usize>
    requires room { end < BUFFER_BYTES }
    requires run { IsRun HasFewZeros others.now words }
    ensures used { IfOk result (λ used. used ≤ BUFFER_BYTES) }
    ensures hands { HandsOn W.Write sink.old sink.new
        (LiteralAfter (take end bytes.old) others.now) (λ used.
        IfKnown (W.written sink.old) (W.written sink.new) (Hands W.appends (take end bytes.old)
        (words ∷ concat (take words others.now))
        (take used bytes.new))) result }
    ensures granted { (count more : ℕ) → IsRun HasFewZeros others.now count →
        W.grants sink.old (end + (1 + (length (concat (take count others.now)) + more))) →
        IsOkAnd result (λ used. W.grants sink.new (used + more)) }
{
    let used = push(bytes, end, words as u8);
    let run = others[..words].as_flattened();
    // Speed: a run that fits the buffer makes no call of the sink (`capnp_ls pack`, small records).
    if run.len() <= bytes.len() - used {
        return Ok(push_run(bytes, used, run));
    }
    flush(sink, bytes, used)?;
    sink.write_all(run)?;
    Ok(0)
}
