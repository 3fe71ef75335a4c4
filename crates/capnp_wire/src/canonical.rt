//! The canonical form of what a pointer points to: one segment, in which equal trees have equal
//! words.
ghost use Rattle.std.specs.Prelude.{◌≡◌, ◌⊎◌, ◌+◌, ◌*◌, ℕ, true, length, replicate, Ok, IfOk, IfErr, MatchResult};
ghost use Rattle.std.specs.Result.{IsErrAnd};
ghost use Rattle.capnp_frame.specs.Prelude.{IsWholeWords};
ghost use Rattle.capnp_frame.specs.declared.error.ErrorKind.{ErrorKind};
ghost use Rattle.capnp_frame.specs.declared.error.ErrorKind.TheVariants.{OutOfMemory};
ghost use Rattle.capnp_layout.specs.Prelude.{words_of, word_numbers};
ghost use Rattle.capnp_wire.specs.Readers.{pointer_of};
ghost use Rattle.capnp_wire.specs.Values.{HasWords, WordsError, PointsToTree, WalkErrorFrom, IsCanonicalForm};

use crate::any_pointer;
use crate::traits::SetterInput;
use capnp_frame::message::ReaderSegments;
use capnp_frame::{Result, Word, word};
use capnp_layout::pointer_word::word_of;
use std::alloc::Global;

/// The number of words of the canonical form of what a pointer points to, with the root pointer.
///
/// Fails where a walk over the tree stops: with the error of a view of one of its objects, or with
/// `ReadLimitExceeded` where they have more words than the traversal limit. Above 2^29 words it
/// fails with `CanonicalTooLarge`.
///
/// ```
/// let root: any_pointer::Reader<'_, OwnedSegments> = message.get_root()?;
/// assert_eq!(rt; root.target_size()?.word_count, 4);
/// assert_eq!(rt; canonical_size(&root)?, 4);
/// ```
#[inline(always)]
pub fn canonical_size<S: ReaderSegments>(reader: &any_pointer::Reader<'_, S>) -> Result<u32>
    ensures returned { let pointer = pointer_of S.segments reader.now in MatchResult result
        (λ words. (following : ℕ) × HasWords (PointsToTree pointer) true following × (words ≡ following + 1))
        (λ error. WordsError (PointsToTree pointer) (WalkErrorFrom pointer) true error.kind) }
    ensures found { (following : ℕ) →
        HasWords (PointsToTree (pointer_of S.segments reader.now)) true following →
        result ≡ Ok (following + 1) }
    ensures exact { let pointer = pointer_of S.segments reader.now in
        (kind : ErrorKind) → WordsError (PointsToTree pointer) (WalkErrorFrom pointer) true kind →
        IsErrAnd result (λ error. error.kind ≡ kind) }
{
    let following = reader.measure(true)?;
    Ok(following + 1)
}

/// The canonical form of what a pointer points to, as bytes.
///
/// Fails as `canonical_size` does, or with `OutOfMemory`.
pub fn canonical_bytes<S: ReaderSegments>(
    alloc: Global,
    reader: &any_pointer::Reader<'_, S>,
) -> Result<Vec<u8>>
    ensures returned { let pointer = pointer_of S.segments reader.now in MatchResult result
        (λ bytes. IsCanonicalForm pointer (words_of bytes.items))
        (λ error. WordsError (PointsToTree pointer) (WalkErrorFrom pointer) true error.kind
        ⊎ (error.kind ≡ OutOfMemory)) }
    ensures whole { IfOk result (λ bytes. IsWholeWords bytes.items) }
    ensures found { (following : ℕ) →
        HasWords (PointsToTree (pointer_of S.segments reader.now)) true following →
        IfErr result (λ error. error.kind ≡ OutOfMemory) }
    ensures exact { let pointer = pointer_of S.segments reader.now in
        (kind : ErrorKind) → WordsError (PointsToTree pointer) (WalkErrorFrom pointer) true kind →
        IsErrAnd result (λ error. error.kind ≡ kind) }
{
    let words = canonical_size(reader)? as usize;
    let mut bytes = vec![in alloc; 0u8; 8 * words]?;
    write_form(reader, &mut bytes);
    Ok(bytes)
}

/// Writes the canonical form of what a pointer points to into zeros of exactly its length: as many
/// words as `canonical_size` returns.
pub fn write_form<S: ReaderSegments>(reader: &any_pointer::Reader<'_, S>, bytes: &mut [u8])
    requires words { (following : ℕ)
        × HasWords (PointsToTree (pointer_of S.segments reader.now)) true following
        × (length bytes.old ≡ 8 * (following + 1)) }
    requires zero { bytes.old ≡ replicate (length bytes.old) 0 }
    ensures form { IsCanonicalForm (pointer_of S.segments reader.now) (words_of bytes.new) }
    ensures len { length bytes.new ≡ length bytes.old }
{
    let copied = reader.write(true, &mut bytes[8..], 0, 0);
    bytes[..8].copy_from_slice(&copied.pointer.to_le_bytes());
}

/// The canonical form of what a pointer points to, as words.
///
/// Fails as `canonical_bytes` does.
pub fn canonical_words<S: ReaderSegments>(
    alloc: Global,
    reader: &any_pointer::Reader<'_, S>,
) -> Result<Vec<Word>>
    ensures returned { let pointer = pointer_of S.segments reader.now in MatchResult result
        (λ words. IsCanonicalForm pointer (word_numbers words.items))
        (λ error. WordsError (PointsToTree pointer) (WalkErrorFrom pointer) true error.kind
        ⊎ (error.kind ≡ OutOfMemory)) }
    ensures found { (following : ℕ) →
        HasWords (PointsToTree (pointer_of S.segments reader.now)) true following →
        IfErr result (λ error. error.kind ≡ OutOfMemory) }
    ensures exact { let pointer = pointer_of S.segments reader.now in
        (kind : ErrorKind) → WordsError (PointsToTree pointer) (WalkErrorFrom pointer) true kind →
        IsErrAnd result (λ error. error.kind ≡ kind) }
{
    let size = canonical_size(reader)? as usize;
    let mut words = vec![in alloc; word(0, 0, 0, 0, 0, 0, 0, 0); size]?;
    write_words(reader, &mut words);
    Ok(words)
}

// Writes the canonical form of what a pointer points to into a slice of exactly its words.
fn write_words<S: ReaderSegments>(reader: &any_pointer::Reader<'_, S>, words: &mut [Word])
    requires { (following : ℕ) × HasWords (PointsToTree (pointer_of S.segments reader.now)) true following
        × (length words.old ≡ following + 1) }
    ensures { IsCanonicalForm (pointer_of S.segments reader.now) (word_numbers words.new) }
{
    let copied = any_pointer::write_into(reader, true, &mut words[1..], 0, 0);
    words[0] = word_of(copied.pointer);
}
