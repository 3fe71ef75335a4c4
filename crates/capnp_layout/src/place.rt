//! Places of words in a message, and the words that are there.
ghost use Rattle.std.specs.Prelude.{◌≡◌, ◌/◌, ◌^◌, ◌<◌, length, slice_get, Some, None, OnSome, MatchResult};
ghost use Rattle.capnp_frame.specs.declared.error.ErrorKind.{ErrorKind};
ghost use Rattle.capnp_layout.specs.Pointer.{words_of};
ghost use Rattle.capnp_layout.specs.Object.{message_of, word_at};
ghost use Rattle.capnp_layout.specs.PointerErrors.{NoWord};

use capnp_frame::message::ReaderSegments;
use capnp_frame::{Error, ErrorKind, Result};

/// The place of a word in a message.
///
/// ```
/// let landing_pad = Place {
///     segment: 1,
///     word: 0,
/// };
/// assert!(rt; root != landing_pad);
/// ```
#[derive(Clone, Copy, Debug, PartialEq, Eq)]
pub struct Place {
    /// The number of the segment, from 0.
    pub segment: u32,
    /// How many words of the segment are before it.
    pub word: usize,
}

/// The pointer word at a place. Fails with `InvalidSegmentId` or `PointerOutOfBounds` where there
/// is none.
pub fn pointer_at<S: ReaderSegments>(segments: &S, place: Place) -> Result<u64>
    ensures { let m = message_of (S.segments segments.now) in
        MatchResult result (λ word. word_at m place ≡ Some word)
        (λ error. NoWord m place error.kind) }
{
    let segment = segment(segments, place.segment)?;
    let word = existing_word(segment, place.word)?;
    Ok(word)
}

/// A segment of a message. Fails with `InvalidSegmentId` where there is none.
///
/// ```
/// let segments = [[0; 16].as_slice()];
/// let message = SegmentArray::new(&segments);
/// let segment = layout::segment(&message, 0)?;
/// assert_eq!(rt; segment.len(), 16);
/// assert!(rt; layout::segment(&message, 1).is_err());
/// ```
#[inline(always)]
pub fn segment<S: ReaderSegments>(segments: &S, number: u32) -> Result<&[u8]>
    ensures { let found = slice_get (S.segments segments.now) number in
        MatchResult result (λ bytes. found ≡ Some bytes.now)
        (λ error. (found ≡ None) × (error.kind ≡ ErrorKind.InvalidSegmentId number)) }
{
    match segments.get_segment(number) {
        Some(bytes) => Ok(bytes),
        None => Err(Error::from_kind(ErrorKind::InvalidSegmentId(number))),
    }
}

/// A word of a segment. Fails with `PointerOutOfBounds` where there is none.
#[inline(always)]
pub fn existing_word(segment: &[u8], index: usize) -> Result<u64>
    ensures { let found = slice_get (words_of segment.now) index in
        MatchResult result (λ word. (found ≡ Some word) × (index < 2 ^ 61))
        (λ error. (found ≡ None) × (error.kind ≡ ErrorKind.PointerOutOfBounds)) }
{
    match word(segment, index) {
        Some(word) => Ok(word),
        None => Err(Error::from_kind(ErrorKind::PointerOutOfBounds)),
    }
}

/// A word of a segment; `None` past its last.
///
/// ```
/// let segment = [1, 2, 0, 0, 0, 0, 0, 0].as_slice();
/// assert_eq!(rt; layout::word(segment, 0), Some(0x201));
/// assert_eq!(rt; layout::word(segment, 1), None);
/// ```
#[inline(always)]
pub fn word(segment: &[u8], index: usize) -> Option<u64>
    ensures value { result ≡ slice_get (words_of segment.now) index }
    ensures within { OnSome result (index < length segment.now / 8) }
{
    let (words, _) = segment.as_chunks::<8>();
    match words.get(index) {
        Some(word) => Some(u64::from_le_bytes(*word)),
        None => None,
    }
}
