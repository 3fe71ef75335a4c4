//! The segments of a message.
ghost use Rattle.std.specs.Prelude.{◌≡◌, ℕ, ◌<◌, ◌^◌, ◌↔◌, List, [], length, map, slice_get, option_copied, IsTrue};
ghost use Rattle.capnp_frame.specs.Views.{shown};

use std::marker::Model;

/// The segments of a message, numbered from 0, each its bytes.
///
/// For implementers: `get_segment` returns item `id` of one list, so the first `None` ends it.
///
/// ```
/// let segments = [[0; 8].as_slice()];
/// let message = SegmentArray::new(&segments);
/// assert_eq!(rt; message.len(), 1);
/// assert_eq!(rt; message.get_segment(0), Some(segments[0]));
/// assert!(rt; message.get_segment(1).is_none());
/// ```
pub trait ReaderSegments {
    /// The list of segments.
    ghost segments: { Self → List (List ℕ) };

    /// The bytes of segment `id`, or `None` where there are no more than `id` segments.
    fn get_segment(&self, id: u32) -> Option<&[u8]>
        ensures { option_copied result ≡ slice_get (segments self.now) id };

    /// The number of segments.
    fn len(&self) -> usize
        requires { length (segments self.now) < 2 ^ 32 }
        ensures { result ≡ length (segments self.now) }
    {
        let mut count = 0;
        while self.get_segment(count).is_some() {
            count += 1;
        }
        count as usize
    }

    /// Whether there are no segments.
    fn is_empty(&self) -> bool
        ensures { IsTrue result ↔ (segments self.now ≡ []) }
    {
        self.get_segment(0).is_none()
    }
}

impl<S: ReaderSegments> ReaderSegments for &S {
    ghost segments = { λ segments. S.segments segments.now };

    fn get_segment(&self, id: u32) -> Option<&[u8]> {
        (**self).get_segment(id)
    }

    fn len(&self) -> usize {
        (**self).len()
    }

    fn is_empty(&self) -> bool {
        (**self).is_empty()
    }
}

/// The segments of a message, each a slice, wherever its bytes are.
///
/// ```
/// let segments = [segment];
/// let message = Reader::new(SegmentArray::new(&segments), DEFAULT_READER_OPTIONS);
/// let greeting: text::Reader<'_> = message.get_root()?;
/// assert_eq!(rt; greeting.as_bytes(), b"Hello, World!".as_slice());
/// ```
#[derive(Drop)]
pub struct SegmentArray<'a> {
    segments: &'a [&'a [u8]],
}

// Clauses see the segments, each its bytes.
impl<'a> Model for SegmentArray<'a> {
    ghost Value = { List (List ℕ) };

    ghost view = { λ array. map shown array.segments.now };
}

impl<'a> SegmentArray<'a> {
    /// These segments, in this order.
    pub fn new(segments: &'a [&'a [u8]]) -> SegmentArray<'a>
        ensures { result ≡ map shown segments.now }
    {
        SegmentArray { segments }
    }
}

impl ReaderSegments for SegmentArray<'_> {
    ghost segments = { λ segments. segments };

    fn get_segment(&self, id: u32) -> Option<&[u8]> {
        self.segments.get(id as usize).copied()
    }

    fn len(&self) -> usize
        ensures { result ≡ length self.now }
    {
        self.segments.len()
    }
}

/// A type whose bytes can be borrowed, always the same ones.
///
/// ```
/// impl AsBytes for Page<'_> {
///     ghost bytes = { λ page. page.content.now };
///
///     fn as_bytes(&self) -> &[u8] {
///         self.content
///     }
/// }
/// ```
pub trait AsBytes {
    /// The bytes that are borrowed.
    ghost bytes: { Self → List ℕ };

    /// The bytes; each call returns the same.
    fn as_bytes(&self) -> &[u8]
        ensures { result.now ≡ bytes self.now };
}

impl AsBytes for &[u8] {
    ghost bytes = { λ slice. slice.now };

    fn as_bytes(&self) -> &[u8] {
        *self
    }
}

impl AsBytes for Vec<u8> {
    ghost bytes = { λ vector. vector.items };

    fn as_bytes(&self) -> &[u8] {
        self
    }
}

/// Each item shows a segment.
impl<I: AsBytes> ReaderSegments for Vec<I> {
    ghost segments = { λ vector. map I.bytes vector.items };

    fn get_segment(&self, id: u32) -> Option<&[u8]> {
        let index = id as usize;
        if index >= Vec::len(self) {
            return None;
        }
        Some(self[index].as_bytes())
    }

    fn len(&self) -> usize
        ensures { result ≡ length (map I.bytes self.now.items) }
    {
        Vec::len(self)
    }
}
