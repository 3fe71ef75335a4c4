//! Facts about framed messages, each the contract of a function that does nothing.
ghost use Rattle.std.specs.Prelude.{◌≡◌, ◌≢◌, ◌⊎◌, ℕ, ◌*◌, ◌<◌, ◌≤◌, List, ◌++◌, ◌↔◌, max, Option, None, length, slice_get, IsSome};
ghost use Rattle.std.specs.List.{AllByRecursion, concat};
ghost use Rattle.capnp_frame.specs.Message.{IsWholeWords, lengths, size_in_words};
ghost use Rattle.capnp_frame.specs.SegmentTable.{zero_padded_table, HasTable, IsTable};
ghost use Rattle.capnp_frame.specs.Frame.{IsFrame, frame_bytes};
ghost use Rattle.capnp_frame.specs.Source.{Splits, IsFront, Fails};
ghost use Rattle.capnp_frame.specs.Sink.{AppendsSame, AppendsAll, LeavesFront, LeavesSome, ByKind, ChunksError};
ghost use Rattle.capnp_frame.specs.Requests.{MessageFound};
ghost use Rattle.capnp_frame.specs.StreamErrors.{IsTooLarge, StreamError, Outgrows};
ghost use Rattle.capnp_frame.specs.Writers.{UnwrittenError};
ghost use Rattle.capnp_frame.specs.Writing.{IsWritable, SegmentCountError, chunks, serialized_words};
ghost use Rattle.capnp_frame.specs.Front.{HasFrame};
ghost use Rattle.capnp_frame.specs.FlatErrors.{FlatForm, FlatError};
ghost use Rattle.capnp_frame.specs.declared.error.ErrorKind.{ErrorKind};
ghost use Rattle.capnp_frame.specs.declared.serialize.segment_table.Padding.{Padding};

use crate::io::{Read, Write};
use crate::serialize::{Padding, SEGMENTS_COUNT_LIMIT};

/// A message has a framed encoding: the one that is written.
pub fn message_has_a_frame()
    ensures { (rule : Padding) (segments : List (List ℕ)) → HasTable (lengths segments) →
        AllByRecursion IsWholeWords segments → IsFrame rule (frame_bytes segments) segments }
{}

/// With zero padding, the only framed encoding of a message is the one that is written.
pub fn zero_padding_leaves_one_frame()
    ensures { (encoding : List ℕ) (segments : List (List ℕ)) →
        IsFrame Padding.Zero encoding segments → encoding ≡ frame_bytes segments }
{}

/// By the rule of zero padding, bytes are a table exactly where they are one by the rule of any
/// padding and are the table that is written, whose padding is zero. The same holds of a message
/// that is read by requests of any source.
pub fn zero_padding_is_some_padding<R: Read>()
    ensures table { (encoding ns : List ℕ) → IsTable Padding.Zero encoding ns
        ↔ (IsTable Padding.Any encoding ns × (encoding ≡ zero_padded_table ns)) }
    ensures is_found { (m : List (List ℕ)) (raw rest : List ℕ) →
        MessageFound Padding.Zero R.gives m raw rest
        ↔ ((any : MessageFound Padding.Any R.gives m raw rest)
        × (any.table.first ++ any.table.others ≡ zero_padded_table (lengths m))) }
{}

/// No framed encoding is the start of a different one, by either rule of padding, and each encodes
/// only one message. So joined encodings can be taken apart in only one way.
pub fn frames_part_in_one_way()
    ensures { (rule also : Padding) (encoding other rest left : List ℕ)
        (segments others : List (List ℕ)) →
        IsFrame rule encoding segments → IsFrame also other others → encoding ++ rest ≡ other ++ left →
        (encoding ≡ other) × (segments ≡ others) × (rest ≡ left) }
{}

/// The three requests for a message take exactly its framed encoding from a plain source.
pub fn plain_requests_take_a_frame()
    ensures { (rule : Padding) (segments : List (List ℕ)) (raw rest : List ℕ) →
        MessageFound rule Splits segments raw rest
        ↔ ((encoding : List ℕ) × IsFrame rule encoding segments × (raw ≡ encoding ++ rest)) }
{}

/// Reading a message of more words than the limit fails with `MessageTooLarge`, with the number of
/// its words.
pub fn message_past_the_limit_fails<R: Read>()
    ensures { (rule : Padding) (limit : Option ℕ) (m : List (List ℕ)) (raw rest : List ℕ) →
        MessageFound rule R.gives m raw rest → length m < SEGMENTS_COUNT_LIMIT → IsTooLarge (lengths m) limit →
        (left : List ℕ) × StreamError rule R.gives R.refuses limit None
        (ErrorKind.MessageTooLarge (size_in_words m)) raw left }
{}

/// Reading a message into the memory of another one takes no memory where it has no more bytes, and
/// no more segments, or one alone: a `_reusing` reader then doesn't fail with `OutOfMemory`.
pub fn smaller_messages_take_no_memory<R: Read>()
    ensures { (rule : Padding) (limit : Option ℕ) (kept m : List (List ℕ)) (raw rest left : List ℕ) →
        MessageFound rule R.gives m raw rest → length m < SEGMENTS_COUNT_LIMIT →
        length m ≤ max 1 (length kept) → 8 * size_in_words m ≤ length (concat kept) →
        Outgrows (length kept) (length (concat kept)) rule R.gives limit raw left → ⊥ }
{}

/// Chunks that a plain sink takes are joined there.
pub fn plain_chunks_are_joined()
    ensures { (chunks : List (List ℕ)) (encoding : List ℕ) → AppendsAll AppendsSame chunks encoding
        ↔ (encoding ≡ concat chunks) }
{}

/// The chunks that are handed to a sink, joined, are the framed encoding, and
/// `serialized_size_in_words` returns its length.
pub fn chunks_are_the_frame()
    ensures joined { (segments : List (List ℕ)) → concat (chunks segments) ≡ frame_bytes segments }
    ensures size { (segments : List (List ℕ)) → IsWritable segments →
        length (concat (chunks segments)) ≡ 8 * serialized_words segments }
{}

/// If a plain sink keeps at most the start of a chunk in a call that fails, it keeps the start of
/// the framed encoding where writing a message fails.
pub fn what_is_left_of_a_message_is_a_front<W: Write>()
    ensures { ((chunk encoding : List ℕ) → W.leaves chunk encoding → LeavesFront chunk encoding) →
        (segments : List (List ℕ)) (encoding : List ℕ) →
        LeavesSome AppendsSame W.leaves (chunks segments) encoding →
        IsFront encoding (frame_bytes segments) }
{}

/// The readers of slices and buffers accept the same bytes with the same segments: where one form
/// fails the other fails, and bytes begin with at most one message.
pub fn flat_readers_agree()
    ensures errors { (form other : FlatForm) (rule : Padding) (limit : Option ℕ) (kind : ErrorKind)
        (bytes : List ℕ) → AllByRecursion (λ byte. byte < 256) bytes →
        FlatError form rule limit kind bytes →
        (own : ErrorKind) × FlatError other rule limit own bytes }
    ensures found { (rule also : Padding) (bytes rest left : List ℕ)
        (segments others : List (List ℕ)) →
        HasFrame rule bytes segments rest → HasFrame also bytes others left →
        (segments ≡ others) × (rest ≡ left) }
{}

/// The indexes at which a list has a segment are those below its length.
pub fn indexes_are_below_the_length()
    ensures { (segments : List (List ℕ)) (index : ℕ) →
        IsSome (slice_get segments index) ↔ (index < length segments) }
{}

/// A source or sink that never counts a failure is never blamed for one. So no call over a slice as
/// a source, or over a vector or a caller-provided buffer as a sink, fails with `DeviceFailed`.
pub fn slices_never_fail()
    ensures { (kind : ErrorKind) → (kind ≡ ErrorKind.DeviceFailed → Fails 0 0) →
        kind ≢ ErrorKind.DeviceFailed }
{}

/// Writing a message to a vector fails only with `OutOfMemory`, or for too many segments.
pub fn vectors_only_run_out_of_memory()
    ensures { (kind : ErrorKind) (segments : List (List ℕ)) →
        (kind ≡ ErrorKind.DeviceFailed → Fails 0 0) →
        (kind ≡ ErrorKind.DeviceFailed)
        ⊎ ChunksError (ByKind ErrorKind.OutOfMemory) (chunks segments) kind
        ⊎ UnwrittenError segments kind →
        SegmentCountError segments kind ⊎ (kind ≡ ErrorKind.OutOfMemory) }
{}
