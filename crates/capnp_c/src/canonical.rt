//! Canonical words that are written into a caller-provided block.
ghost use Rattle.std.specs.Prelude.{◌≡◌, ◌⊎◌, ◌*◌, ◌≤◌, ℕ, List, length, take, IfOk, IfErr, IsOk};
ghost use Rattle.std.specs.Result.{IsErrAnd};
ghost use Rattle.capnp_frame.specs.declared.error.ErrorKind.{ErrorKind};
ghost use Rattle.capnp_frame.specs.declared.message.options.TheConstants.{DEFAULT_READER_OPTIONS};
ghost use Rattle.capnp_layout.specs.Prelude.{words_of};
ghost use Rattle.capnp_wire.specs.Prelude.{pointer_of, IsCanonicalForm};
ghost use Rattle.capnp_c.specs.Exports.{MeasuresForm, WritesCanonicalForm};
ghost use Rattle.capnp_c.specs.Fronts.{IsAtFront, MessageError, root_within, root_by, RootHasForm, RootCanonicalFormError, IsShort};
ghost use Rattle.capnp_c.specs.Options.{options_of};

use crate::options::LinsjoarOptions;
use capnp_frame::message::{DEFAULT_READER_OPTIONS, ReaderOptions, ReaderSegments};
use capnp_frame::serialize::{NoAllocBufferSegments, NoAllocSliceSegments};
use capnp_frame::{Error, ErrorKind, Result};
use capnp_wire::any_pointer;
use capnp_wire::arena::ReaderArena;
use capnp_wire::canonical::{canonical_size, write_form};

/// Counts the words of the canonical form of the message at the front of these bytes, with its root
/// pointer. Returns 0, or the number of the error of the reader or of the walk over the tree.
#[unsafe(no_mangle)]
pub extern "C" fn linsjoar_canonical_size(bytes: &[u8], words: &mut usize) -> u32
    ensures { MeasuresForm DEFAULT_READER_OPTIONS bytes.now words.new result }
{
    measure_form(bytes, DEFAULT_READER_OPTIONS, words)
}

/// Counts them as `linsjoar_canonical_size` does, within the limits of these options.
#[unsafe(no_mangle)]
pub extern "C" fn linsjoar_canonical_size_with_options(
    bytes: &[u8],
    options: &LinsjoarOptions,
    words: &mut usize,
) -> u32
    ensures { MeasuresForm (options_of options.now) bytes.now words.new result }
{
    measure_form(bytes, options.reader_options(), words)
}

fn measure_form(bytes: &[u8], options: ReaderOptions, words: &mut usize) -> u32
    ensures { MeasuresForm options bytes.now words.new result }
{
    *words = 0;
    match measured(bytes, options) {
        Ok(size) => {
            *words = size;
            0
        }
        Err(error) => error.kind.number() as u32,
    }
}

/// Writes the canonical form of the message at the front of these bytes to the front of a block,
/// and counts its words. Returns 2 where the block has no room for it, and else what
/// `linsjoar_canonical_size` returns. What follows the form in the block may have changed.
#[unsafe(no_mangle)]
pub extern "C" fn linsjoar_canonical(bytes: &[u8], block: &mut [u8], words: &mut usize) -> u32
    ensures { WritesCanonicalForm DEFAULT_READER_OPTIONS bytes.now block.new words.new result }
{
    put_form(bytes, DEFAULT_READER_OPTIONS, block, words)
}

/// Writes it as `linsjoar_canonical` does, within the limits of these options.
#[unsafe(no_mangle)]
pub extern "C" fn linsjoar_canonical_with_options(
    bytes: &[u8],
    options: &LinsjoarOptions,
    block: &mut [u8],
    words: &mut usize,
) -> u32
    ensures { WritesCanonicalForm (options_of options.now) bytes.now block.new words.new result }
{
    put_form(bytes, options.reader_options(), block, words)
}

fn put_form(bytes: &[u8], options: ReaderOptions, block: &mut [u8], words: &mut usize) -> u32
    ensures { WritesCanonicalForm options bytes.now block.new words.new result }
{
    *words = 0;
    match written(bytes, options, block) {
        Ok(size) => {
            *words = size;
            0
        }
        Err(error) => error.kind.number() as u32,
    }
}

// The message at the front of these bytes, and the limits of its reader.
fn opened<'a>(
    bytes: &'a [u8],
    options: ReaderOptions,
) -> Result<ReaderArena<NoAllocSliceSegments<'a>>>
    ensures front { (segments : List (List ℕ)) (rest : List ℕ) →
        IsAtFront options bytes.now segments rest → IfOk result (λ arena. root_within
        arena.nesting_limit arena.limiter.limit arena.segments.segments ≡ root_by options segments) }
    ensures accepted { (segments : List (List ℕ)) (rest : List ℕ) →
        IsAtFront options bytes.now segments rest → IsOk result }
    ensures exact { (kind : ErrorKind) → MessageError options bytes.now kind →
        IsErrAnd result (λ error. error.kind ≡ kind) }
{
    let segments = NoAllocBufferSegments::from_buffer(bytes, options)?;
    Ok(ReaderArena::new(segments, options))
}

// The root, and the number of words of its canonical form.
fn measured_root<'a, S: ReaderSegments>(
    arena: &'a ReaderArena<S>,
) -> Result<(any_pointer::Reader<'a, S>, usize)>
    ensures root { IfOk result (λ (root, size). pointer_of S.segments root ≡ root_within
        arena.now.nesting_limit arena.now.limiter.limit (S.segments arena.now.segments)) }
    ensures size { IfOk result (λ (root, size). RootHasForm (root_within
        arena.now.nesting_limit arena.now.limiter.limit (S.segments arena.now.segments)) size) }
    ensures form_error { IfErr result (λ error. RootCanonicalFormError (root_within
        arena.now.nesting_limit arena.now.limiter.limit (S.segments arena.now.segments)) error.kind) }
{
    let root = arena.get_root()?;
    let size = canonical_size(&root)? as usize;
    Ok((root, size))
}

fn measured(bytes: &[u8], options: ReaderOptions) -> Result<usize>
    ensures size { (segments : List (List ℕ)) (rest : List ℕ) →
        IsAtFront options bytes.now segments rest →
        IfOk result (λ words. RootHasForm (root_by options segments) words) }
    ensures form_error { (segments : List (List ℕ)) (rest : List ℕ) →
        IsAtFront options bytes.now segments rest →
        IfErr result (λ error. RootCanonicalFormError (root_by options segments) error.kind) }
    ensures exact { (kind : ErrorKind) → MessageError options bytes.now kind →
        IsErrAnd result (λ error. error.kind ≡ kind) }
{
    let arena = opened(bytes, options)?;
    let (_, size) = measured_root(&arena)?;
    Ok(size)
}

fn written(bytes: &[u8], options: ReaderOptions, block: &mut [u8]) -> Result<usize>
    ensures form { (segments : List (List ℕ)) (rest : List ℕ) →
        IsAtFront options bytes.now segments rest → IfOk result (λ words. (8 * words ≤ length block.new)
        × IsCanonicalForm (root_by options segments) (words_of (take (8 * words) block.new))) }
    ensures size { (segments : List (List ℕ)) (rest : List ℕ) →
        IsAtFront options bytes.now segments rest →
        IfOk result (λ words. RootHasForm (root_by options segments) words) }
    ensures form_error { (segments : List (List ℕ)) (rest : List ℕ) →
        IsAtFront options bytes.now segments rest →
        IfErr result (λ error. RootCanonicalFormError (root_by options segments) error.kind
        ⊎ IsShort (root_by options segments) (length block.new) error.kind) }
    ensures exact { (kind : ErrorKind) → MessageError options bytes.now kind →
        IsErrAnd result (λ error. error.kind ≡ kind) }
{
    let arena = opened(bytes, options)?;
    let (root, words) = measured_root(&arena)?;
    if block.len() < 8 * words {
        return Err(Error::from_kind(ErrorKind::BufferNotLargeEnough));
    }
    let form = &mut block[..8 * words];
    form.fill(0);
    write_form(&root, form);
    Ok(words)
}
