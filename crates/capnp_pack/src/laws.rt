//! Facts about packed encodings, each the contract of a function that does nothing.
ghost use Rattle.std.specs.Prelude.{◌≡◌, ℕ, ◌+◌, ◌*◌, ◌/◌, ◌<◌, ◌≤◌, List, [], ◌∷◌, ◌++◌, length, ◌↔◌};
ghost use Rattle.std.specs.List.{AllByRecursion};
ghost use Rattle.capnp_frame.specs.Prelude.{IsWholeWords, lengths, zero_padded_table, HasTable, MessageFound, IsFront, AppendsAll, AppendsSame, LeavesFront, chunks};
ghost use Rattle.capnp_frame.specs.declared.serialize.segment_table.Padding.{Padding};
ghost use Rattle.capnp_pack.specs.Packed.{Packs};
ghost use Rattle.capnp_pack.specs.PackedFrame.{IsPackedFrame, IsPackedEncoding, PackedFound};
ghost use Rattle.capnp_pack.specs.PackedSource.{Unpacks};
ghost use Rattle.capnp_pack.specs.PackedSink.{AppendsPacked, LeavesPacked};

use capnp_frame::io::Write;
use capnp_frame::serialize::Padding;

/// A packed request has at most one result, and leaves the same bytes unread.
pub fn packed_request_has_one_result()
    ensures { (raw bytes rest others left : List ℕ) (n : ℕ) →
        Unpacks raw n bytes rest → Unpacks raw n others left → (bytes ≡ others) × (rest ≡ left) }
{}

/// The three requests for a message take exactly a packed encoding of it from a packed source.
pub fn packed_requests_take_a_packed_frame()
    ensures { (rule : Padding) (segments : List (List ℕ)) (raw rest : List ℕ) →
        MessageFound rule Unpacks segments raw rest ↔ PackedFound rule segments raw rest }
{}

/// No packed encoding of a message is the start of a different one, by either rule of padding, and
/// each encodes only one message. So joined encodings can be taken apart in only one way.
pub fn packed_frames_part_in_one_way()
    ensures { (rule also : Padding) (encoding other rest left : List ℕ)
        (segments others : List (List ℕ)) →
        IsPackedFrame rule encoding segments → IsPackedFrame also other others → encoding ++ rest ≡ other ++ left →
        (encoding ≡ other) × (segments ≡ others) × (rest ≡ left) }
{}

/// What is written of a message is a packed encoding of it.
pub fn packed_encoding_is_a_packed_frame()
    ensures { (rule : Padding) (encoding : List ℕ) (segments : List (List ℕ)) →
        HasTable (lengths segments) → IsPackedEncoding encoding segments → IsPackedFrame rule encoding segments }
{}

/// By the rule of zero padding, the table in a packed encoding is the one that is written. Its
/// chunks may still be packed in other ways than a writer packs them.
pub fn zero_padding_leaves_one_table()
    ensures { (encoding : List ℕ) (segments : List (List ℕ)) →
        (frame : IsPackedFrame Padding.Zero encoding segments) →
        frame.first ++ frame.others ≡ zero_padded_table (lengths segments) }
{}

/// Each message of whole words has a packed encoding that a writer writes.
pub fn message_has_a_packed_encoding()
    ensures { (segments : List (List ℕ)) → AllByRecursion IsWholeWords segments →
        (encoding : List ℕ) × IsPackedEncoding encoding segments }
{}

/// Whole words have a packed encoding.
pub fn words_have_a_packed_encoding()
    ensures { (bytes : List ℕ) → IsWholeWords bytes → (encoding : List ℕ) × Packs bytes encoding }
{}

/// Whole words have only one packed encoding.
pub fn packed_encoding_is_unique()
    ensures { (bytes encoding other : List ℕ) → Packs bytes encoding → Packs bytes other → encoding ≡ other }
{}

/// A request for as many bytes as were packed returns these bytes, whatever follows, and takes only
/// their packed encoding.
pub fn packed_encoding_unpacks()
    ensures given { (bytes encoding rest : List ℕ) → Packs bytes encoding →
        Unpacks (encoding ++ rest) (length bytes) bytes rest }
    ensures alone { (bytes encoding rest others left : List ℕ) → Packs bytes encoding →
        Unpacks (encoding ++ rest) (length bytes) others left → (others ≡ bytes) × (left ≡ rest) }
{}

/// Of n words, at least one, the packed encoding has at most `8 * n + (n + 3) / 2` bytes.
pub fn packed_encoding_is_short()
    ensures { (bytes encoding : List ℕ) (n : ℕ) → Packs bytes encoding → length bytes ≡ 8 * n → 0 < n →
        length encoding ≤ 8 * n + (n + 3) / 2 }
{}

/// Where a chunk is written packed, a plain sink gets exactly its packed encoding.
pub fn plain_sink_gets_the_packed_encoding()
    ensures { (chunk encoding : List ℕ) → AppendsPacked AppendsSame chunk encoding ↔ Packs chunk encoding }
{}

/// If a plain sink keeps at most the start of a chunk in a call that fails, it keeps the start of
/// the packed encoding where writing packed words fails.
pub fn what_is_left_of_packed_words_is_a_front<W: Write>()
    ensures { ((chunk encoding : List ℕ) → W.leaves chunk encoding → LeavesFront chunk encoding) →
        (chunk encoding packed : List ℕ) → LeavesPacked AppendsSame W.leaves chunk encoding →
        Packs chunk packed → IsFront encoding packed }
{}

/// A plain sink gets the packed encoding of a message, if its chunks are handed on one after
/// another, as `write_segments` does.
pub fn plain_sink_gets_the_packed_message()
    ensures { (segments : List (List ℕ)) (encoding : List ℕ) →
        AppendsAll (AppendsPacked AppendsSame) (chunks segments) encoding ↔ IsPackedEncoding encoding segments }
{}
