//! Which segments can be written.
ghost use Rattle.std.specs.Prelude.{◌↔◌, IsTrue};
ghost use Rattle.capnp_frame.specs.Writing.{IsWritable};

use crate::message::ReaderSegments;

/// Whether these segments can be written as a message: there are 1 to 2^32 - 1 of them, each of
/// whole words and fewer than 2^32 words. Writers require it.
///
/// ```
/// let segments = [[0; 8].as_slice()];
/// let whole = SegmentArray::new(&segments);
/// assert!(rt; serialize::is_writable(&whole));
/// let segments = [[0; 7].as_slice()];
/// let cut = SegmentArray::new(&segments);
/// assert!(rt; !serialize::is_writable(&cut));
/// ```
pub fn is_writable<S: ReaderSegments>(segments: &S) -> bool
    ensures { IsTrue result ↔ IsWritable (S.segments segments.now) }
{
    if segments.is_empty() {
        return false;
    }
    for id in 0..u32::MAX {
        let Some(segment) = segments.get_segment(id) else {
            return true;
        };
        if segment.len() % 8 != 0 || segment.len() / 8 > u32::MAX as usize {
            return false;
        }
    }
    segments.get_segment(u32::MAX).is_none()
}
