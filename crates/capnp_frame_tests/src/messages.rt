//! What segments messages have.
use capnp_frame::message::ReaderSegments;

/// Whether these are the segments.
pub fn has_segments<S: ReaderSegments>(found: &S, wanted: &[&[u8]]) -> bool {
    for id in 0..512u32 {
        let there = match (found.get_segment(id), wanted.get(id as usize)) {
            (None, None) => true,
            (Some(segment), Some(bytes)) => segment == *bytes,
            _ => false,
        };
        if !there {
            return false;
        }
    }
    found.is_empty() == wanted.is_empty()
}

/// Whether segment `id` has these bytes.
pub fn shows<S: ReaderSegments>(segments: &S, id: u32, bytes: &[u8]) -> bool {
    match segments.get_segment(id) {
        Some(segment) => segment == bytes,
        None => false,
    }
}
