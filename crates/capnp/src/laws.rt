//! Facts about streams of messages, each the contract of a function that does nothing, and the
//! facts of the crates below that callers need.
ghost use Rattle.std.specs.Prelude.{◌≡◌, ◌++◌, ℕ, List, [], Option, None, map};
ghost use Rattle.std.specs.List.{AllByRecursion};
ghost use Rattle.capnp_frame.specs.declared.error.ErrorKind.{ErrorKind};
ghost use Rattle.capnp_frame.specs.declared.serialize.segment_table.Padding.{Padding};
ghost use Rattle.capnp_frame.specs.Prelude.{KeepsLimit, lengths, AreEncodings, IsWritable, IsWithinSegmentLimit};
ghost use Rattle.capnp_layout.specs.Prelude.{Trees};
ghost use Rattle.capnp_build.specs.Prelude.{Space, used_of};
ghost use Rattle.capnp.specs.declared.streams.Format.{Format};
ghost use Rattle.capnp.specs.Roots.{HasRootTree};
ghost use Rattle.capnp.specs.Streams.{grammar_of, FoundNext, EndsBy, IsStream};
ghost use Rattle.capnp.specs.Written.{IsEncodingOf, AppendsEach};

pub use capnp_frame::laws::{
    message_past_the_limit_fails, plain_requests_take_a_frame, slices_never_fail,
    vectors_only_run_out_of_memory, what_is_left_of_a_message_is_a_front,
    zero_padding_is_some_padding, zero_padding_leaves_one_frame,
};
use capnp_frame::serialize::Padding;
pub use capnp_message::laws::{a_scratch_region_comes_home, a_single_region_comes_home};
pub use capnp_pack::laws::{
    packed_encoding_unpacks, plain_sink_gets_the_packed_encoding,
    plain_sink_gets_the_packed_message, what_is_left_of_packed_words_is_a_front,
};
pub use capnp_wire::laws::equal_forms_are_of_equal_trees;

/// At most one message begins a stream, and what follows its encoding is determined. So all readers
/// of a format return the same message.
pub fn one_message_begins_a_stream()
    ensures { (rule : Padding) (format : Format) (limit : Option ℕ) (message other : List (List ℕ))
        (raw rest left : List ℕ) → FoundNext rule format limit message raw rest →
        FoundNext rule format limit other raw left → (message ≡ other) × (rest ≡ left) }
{}

/// Where a stream ends, or its reader fails, no message begins the stream.
pub fn no_message_begins_an_end()
    ensures { (rule : Padding) (format : Format) (limit : Option ℕ) (ending : Option ErrorKind)
        (message : List (List ℕ)) (raw rest : List ℕ) → EndsBy rule format limit ending raw →
        FoundNext rule format limit message raw rest → ⊥ }
{}

/// The same bytes are a stream of at most one list of messages, and end in at most one way.
pub fn a_stream_is_one_list()
    ensures { (rule : Padding) (format : Format) (limit : Option ℕ) (messages others : List (List (List ℕ)))
        (ending other : Option ErrorKind) (raw : List ℕ) →
        IsStream rule format limit messages ending raw → IsStream rule format limit others other raw →
        (messages ≡ others) × (ending ≡ other) }
{}

/// Messages that are written one after the other, each of no more than 511 segments, are a stream
/// of exactly these messages, within any limit of words that they keep.
pub fn what_is_written_is_a_stream()
    ensures { (rule : Padding) (format : Format) (limit : Option ℕ) (messages : List (List (List ℕ)))
        (encoding : List ℕ) → AllByRecursion IsWritable messages → AllByRecursion IsWithinSegmentLimit messages →
        AllByRecursion (λ message. KeepsLimit (lengths message) limit) messages →
        AppendsEach (IsEncodingOf format) messages encoding → IsStream rule format limit messages None encoding }
{}

/// The tree at the root of a message that is built is the root tree of what is read of its
/// encoding, in both formats. The message has at most 511 segments, and is within the limit of
/// words. What follows the encoding is left unread.
pub fn a_root_is_read_back()
    ensures { (rule : Padding) (format : Format) (limit : Option ℕ) (spaces : List Space) (trees : Trees)
        (encoding rest left : List ℕ) (read : List (List ℕ)) → HasRootTree (map used_of spaces) trees →
        IsWritable (map used_of spaces) → IsWithinSegmentLimit (map used_of spaces) →
        KeepsLimit (lengths (map used_of spaces)) limit →
        IsEncodingOf format (map used_of spaces) encoding →
        FoundNext rule format limit read (encoding ++ rest) left →
        HasRootTree read trees × (left ≡ rest) }
{}
