//! Messages that are read from bytes in memory.
ghost use Rattle.std.specs.Prelude.{◌≡◌, ◌⊎◌, ◌<◌, ◌++◌, ◌∷◌, [], ℕ, List, Some, IfOk, IfErr, IfSome, IfNone, MatchResult, IsSomeAnd, IsOk, IsOkAnd};
ghost use Rattle.capnp_frame.specs.declared.serialize.segment_table.Padding.TheVariants.{Zero};
ghost use Rattle.capnp_frame.specs.declared.error.ErrorKind.{ErrorKind};
ghost use Rattle.capnp_frame.specs.declared.message.options.TheConstants.{DEFAULT_READER_OPTIONS};
ghost use Rattle.capnp_wire.specs.Prelude.{numbers, MeetsLimit, Accepts, FormError, Reads, ViewError, IsText, TakesText, TextFormError};
ghost use Rattle.capnp_message.specs.Roots.{ReadsRoot};
ghost use Rattle.capnp_message.specs.Seen.{root_of};
ghost use Rattle.capnp_frame.specs.Prelude.{RulesError, no_alloc_rules, default_limit};
ghost use Rattle.capnp.specs.declared.streams.Format.{Format};
ghost use Rattle.capnp.specs.Prelude.{BeginsFramed, TakesForNext, EndsBy};
ghost use Rattle.capnp_uses.specs.Roots.{HasPlainRoot};

use capnp::message::{DEFAULT_READER_OPTIONS, Reader, ReaderSegments};
use capnp::serialize::{self, NoAllocSliceSegments, OwnedSegments};
use capnp::{Result, text};
use std::alloc::Global;

/// The first message of these bytes, or `None` where there are none.
pub fn first_message(alloc: Global, bytes: &[u8]) -> Result<Option<Reader<OwnedSegments>>>
    ensures found { IfOk result (λ found. IfSome found (λ reader.
        (rest : List ℕ) × BeginsFramed Zero default_limit reader.segments bytes.now rest)) }
    ensures none { IfOk result (λ found. IfNone found (bytes.now ≡ [])) }
    ensures empty { bytes.now ≡ [] → IsOk result }
    // A message that is there is returned, unless the call is out of memory.
    ensures exact { (message : List (List ℕ)) (rest : List ℕ) →
        BeginsFramed Zero default_limit message bytes.now rest → MatchResult result
        (λ found. IsSomeAnd found (λ reader. reader.segments ≡ message))
        (λ error. error.kind ≡ ErrorKind.OutOfMemory) }
    ensures errors { IfErr result (λ error. ((error.kind ≡ ErrorKind.OutOfMemory)
        × TakesForNext Zero Format.Framed default_limit bytes.now)
        ⊎ EndsBy Zero Format.Framed default_limit (Some error.kind) bytes.now) }
    ensures options { IfOk result (λ found. IfSome found (λ reader.
        reader.options ≡ DEFAULT_READER_OPTIONS)) }
{
    let mut source = bytes;
    serialize::try_read_message(alloc, &mut source, DEFAULT_READER_OPTIONS)
}

/// The message that a caller-provided buffer begins with, in place. No memory is taken.
pub fn borrowed_message<'a>(bytes: &'a [u8]) -> Result<Reader<NoAllocSliceSegments<'a>>>
    ensures found { IfOk result (λ reader. (rest : List ℕ)
        × BeginsFramed Zero default_limit reader.segments.segments bytes.now rest) }
    ensures exact { (message : List (List ℕ)) (rest : List ℕ) →
        BeginsFramed Zero default_limit message bytes.now rest →
        IsOkAnd result (λ reader. reader.segments.segments ≡ message) }
    ensures errors { IfErr result (λ error.
        RulesError (no_alloc_rules Zero default_limit) error.kind bytes.now) }
    ensures options { IfOk result (λ reader. reader.options ≡ DEFAULT_READER_OPTIONS) }
{
    let mut source = bytes;
    serialize::read_message_from_flat_slice_no_alloc(&mut source, DEFAULT_READER_OPTIONS)
}

/// The text at the root of a message.
pub fn root_text<'a, S: ReaderSegments>(message: &'a Reader<S>) -> Result<text::Reader<'a>>
    ensures shown { (bytes : List ℕ) →
        HasPlainRoot (S.segments message.now.segments) (numbers 2 (bytes ++ 0 ∷ [])) →
        IfOk result (λ text. text.bytes.now ≡ bytes) }
    // It fails only at the traversal limit, where there is one and objects may be nested.
    ensures found { let pointer = root_of S.segments message.now in (bytes : List ℕ) →
        HasPlainRoot (S.segments message.now.segments) (numbers 2 (bytes ++ 0 ∷ [])) →
        0 < pointer.nesting → IfErr result (λ error. MeetsLimit pointer error.kind) }
    // Else it returns a text only where one is there, or the empty one for null, and fails with the
    // reason why there is none.
    ensures reads { let pointer = root_of S.segments message.now in ReadsRoot pointer
        (λ text. Reads pointer (λ form. IsText form text.bytes.now)) (Accepts pointer TakesText)
        (ViewError pointer TextFormError) (FormError pointer TextFormError) result }
{
    message.get_root()
}
