//! Messages as lists of segments, and what a reader accepts of them.
mod built;
mod options;
mod segments;

pub use built::BuiltMessage;
pub use options::{DEFAULT_READER_OPTIONS, ReaderOptions};
pub use segments::{AsBytes, ReaderSegments, SegmentArray};
