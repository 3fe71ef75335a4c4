//! Facts about the canonical forms of messages, and about regions that come back to an allocator.
ghost use Rattle.std.specs.Prelude.{◌≡◌, ◌≤◌, ◌⊎◌, ℕ, List, [], ◌∷◌, Some, None, true, IfOk, IfErr};
ghost use Rattle.capnp_frame.specs.declared.error.ErrorKind.TheVariants.{OutOfMemory};
ghost use Rattle.capnp_layout.specs.Prelude.{words_of, root, word_numbers};
ghost use Rattle.capnp_wire.specs.Prelude.{nesting_of, Pointer, IsCanonicalForm};
ghost use Rattle.capnp_message.specs.Seen.{root_of};
ghost use Rattle.capnp_message.specs.Canonical.{CanonicalFormError};
ghost use Rattle.capnp_message.specs.Region.{IsOutAlone, IsProvidedAlone, IsAvailable};

use crate::reader::Reader;
use crate::scratch_space::ScratchSpaceHeapAllocator;
use crate::single_segment::SingleSegmentAllocator;
use capnp_frame::message::{ReaderOptions, ReaderSegments, SegmentArray};
use capnp_frame::{Result, Word};
use std::alloc::Global;

/// A canonical form, read as the one segment of a message without a traversal limit, is its own
/// canonical form.
pub fn a_canonical_form_is_its_own()
    ensures { (pointer other : Pointer) (words : List ℕ) → IsCanonicalForm pointer words →
        other.message ≡ words ∷ [] → other.place ≡ Some root → other.limit ≡ None →
        pointer.nesting ≤ other.nesting → IsCanonicalForm other words }
{}

/// The canonical words of a message, whether a message with these words as its one segment is
/// canonical, and the canonical words of that message.
#[derive(Drop)]
pub struct Canonicalized {
    pub words: Vec<Word>,
    pub is_canonical: bool,
    pub again: Vec<Word>,
}

/// Canonicalizes a message, and then its canonical form. This form is canonical, and is its own
/// canonical form.
///
/// Fails as `Reader::canonicalize` does.
pub fn canonicalize_twice<S: ReaderSegments + Drop>(
    alloc: Global,
    segments: S,
    options: ReaderOptions,
) -> Result<Canonicalized>
    ensures form { let pointer = root_of S.segments (record { segments = segments; options = options }) in
        IfOk result (λ returned. IsCanonicalForm pointer (word_numbers returned.words.items)) }
    ensures canonical { IfOk result (λ returned. returned.is_canonical ≡ true) }
    ensures same { IfOk result (λ returned. word_numbers returned.again.items ≡ word_numbers returned.words.items) }
    ensures kinds { let pointer = root_of S.segments (record { segments = segments; options = options }) in
        IfErr result (λ error. CanonicalFormError pointer error.kind ⊎ (error.kind ≡ OutOfMemory)) }
{
    let reader = Reader::new(segments, options);
    let words = reader.canonicalize(alloc)?;
    let segment = reader.canonical_segment(alloc)?;
    let mut unlimited = options;
    unlimited.traversal_limit_in_words(None);
    let (is_canonical, again) = canonicalize_form(alloc, &segment, unlimited)?;
    Ok(Canonicalized {
        words,
        is_canonical,
        again,
    })
}

// Whether the canonical form of a pointer is canonical, and its own canonical words.
fn canonicalize_form(
    alloc: Global,
    form: &[u8],
    options: ReaderOptions,
) -> Result<(bool, Vec<Word>)>
    requires form { (pointer : Pointer) × IsCanonicalForm pointer (words_of form.now)
        × (pointer.nesting ≤ nesting_of options.nesting_limit) }
    requires unlimited { options.traversal_limit_in_words ≡ None }
    ensures canonical { IfOk result (λ returned. returned.0 ≡ true) }
    ensures same { IfOk result (λ returned. word_numbers returned.1.items ≡ words_of form.now) }
    ensures kind { IfErr result (λ error. error.kind ≡ OutOfMemory) }
{
    let segments = [form];
    let reader = Reader::new(SegmentArray::new(&segments), options);
    let is_canonical = reader.is_canonical()?;
    let words = reader.canonicalize(alloc)?;
    Ok((is_canonical, words))
}

/// Where no segment is out, a single region is available: whole, and all zero.
pub fn a_single_region_comes_home(allocator: &SingleSegmentAllocator<'_>)
    ensures { IsOutAlone allocator.now.region allocator.now.size [] →
        IsAvailable allocator.now.region allocator.now.size }
{}

/// Where no caller-provided segment is out, the region of a scratch-space allocator is available.
pub fn a_scratch_region_comes_home(allocator: &ScratchSpaceHeapAllocator<'_>)
    ensures { IsProvidedAlone allocator.now.region allocator.now.size [] →
        IsAvailable allocator.now.region allocator.now.size }
{}
