//! Structs that are read, as values: they are measured, and written into a block.
ghost use Rattle.std.specs.Prelude.{◌≡◌, ◌+◌, ◌-◌, ◌/◌, ◌^◌, ◌<◌, ◌≤◌, ℕ, Option, length, MatchResult};
ghost use Rattle.capnp_layout.specs.Prelude.{words_of, Trees, message_of, output};
ghost use Rattle.capnp_wire.specs.Copy.{IsCopied};
ghost use Rattle.capnp_wire.specs.Values.{HasWords, WordsError, HasRoomAt, IsTreeOf, WalkErrorInside, HasPointersSegment, fields_at};

use crate::layout::copy::{Copied, CopySource, Destination};
use crate::layout::copy_pointers::copy_pointers;
use crate::layout::data_words::put_data_words;
use crate::layout::value::checked_walk;
use crate::layout::walk::Walk;
use capnp_frame::Result;
use capnp_frame::message::ReaderSegments;
use capnp_layout::body_word::pointer_word;
use capnp_layout::fast_path::LocalStruct;
use capnp_layout::object::{Body, Object, words_fit};
use capnp_layout::output_size::output_body;

/// The number of words of a struct with all below it, without the pointer to it, untrimmed or in
/// canonical form.
pub(crate) fn measure<S: ReaderSegments>(
    segments: &S,
    fields: LocalStruct<'_>,
    nesting: u32,
    limit: Option<usize>,
    canonical: bool,
) -> Result<u32>
    requires room { fields.start.word + (fields.size.data_words + fields.size.pointers)
        ≤ length fields.segment.now / 8 }
    requires content { HasPointersSegment (message_of (S.segments segments.now))
        (words_of fields.segment.now) fields.start fields.size }
    ensures { let shown = fields_at (message_of (S.segments segments.now))
        (words_of fields.entry.segment.now) fields.entry.start fields.entry.size nesting limit in
        MatchResult result (λ words. HasWords (IsTreeOf shown) canonical words)
        (λ error. WordsError (IsTreeOf shown) (WalkErrorInside shown) canonical error.kind) }
{
    // For the prover: each word is below 2^64, and so is the number of bytes.
    words_fit(fields.segment);
    let object = Object {
        segment: fields.segment,
        start: fields.start,
        body: Body::Struct(fields.size),
        traversed: 0,
    };
    let mut walk = Walk::new(limit);
    walk.count(output_body(&object, canonical).words());
    walk.walk_pointers(
        segments,
        fields.segment,
        object.pointers(),
        nesting,
        canonical,
    )?;
    checked_walk(walk.words(), canonical)
}

/// Writes the words of a struct with all below it into a block.
pub(crate) fn write<S: ReaderSegments>(
    source: &CopySource<'_, S>,
    fields: LocalStruct<'_>,
    nesting: u32,
    block: &mut [u8],
    to: Destination,
) -> Copied
    requires room { fields.start.word + (fields.size.data_words + fields.size.pointers)
        ≤ length fields.segment.now / 8 }
    requires content { HasPointersSegment (message_of (S.segments source.now.segments.now))
        (words_of fields.segment.now) fields.start fields.size }
    requires value { (limit : Option ℕ) × HasRoomAt (IsTreeOf
        (fields_at (message_of (S.segments source.now.segments.now))
        (words_of fields.segment.now) fields.start fields.size nesting limit))
        source.now.canonical to.next (length (words_of block.old)) }
    requires small { length (words_of block.old) < 2 ^ 29 }
    requires following { to.following ≤ to.next }
    ensures written { (limit : Option ℕ) (trees : Trees) →
        IsTreeOf (fields_at (message_of (S.segments source.now.segments.now))
        (words_of fields.entry.segment.now) fields.entry.start fields.entry.size nesting limit) trees →
        IsCopied (output source.now.canonical trees)
        (to.next - to.following) to.next
        (words_of block.old) (words_of block.new) result }
    ensures len { length block.new ≡ length block.old }
{
    let object = Object {
        segment: fields.segment,
        start: fields.start,
        body: Body::Struct(fields.size),
        traversed: 0,
    };
    let copied = output_body(&object, source.canonical);
    put_data_words(&object, copied, block, to.next);
    let free = copy_pointers(source, &object, copied, nesting, block, to.next);
    Copied {
        pointer: pointer_word(copied, (to.next - to.following) as u64),
        next: free,
    }
}
