//! Why a call fails.
ghost use Rattle.std.specs.Prelude.{◌≡◌};
ghost use Rattle.capnp_frame.specs.declared.error.ErrorKind.TheVariants.{OutOfMemory};
ghost use Rattle.capnp_frame.specs.Numbers.{kind_number};

use std::alloc::{AllocError, AllocFailed};

/// The result of a call that can fail.
///
/// ```
/// fn greeting_len(framed: &[u8]) -> Result<usize> {
///     let mut rest = framed;
///     let options = DEFAULT_READER_OPTIONS;
///     let message = serialize::read_message_from_flat_slice_no_alloc(&mut rest, options)?;
///     let greeting: text::Reader<'_> = message.get_root()?;
///     Ok(greeting.as_bytes().len())
/// }
/// ```
pub type Result<T> = std::result::Result<T, Error>;

/// The kind of an error, with the numbers it carries.
///
/// A kind is displayed as its name, with its numbers after it in parentheses.
///
/// ```
/// let mut source = b"".as_slice();
/// let Err(error) = serialize::read_message(alloc, &mut source, DEFAULT_READER_OPTIONS) else {
///     panic!(rt; "a message of no bytes");
/// };
/// assert_eq!(rt; error.kind, ErrorKind::PrematureEndOfFile);
/// assert_eq!(rt; error.kind.number(), 9);
/// ```
#[derive(Clone, Copy, Debug, PartialEq, Eq, thiserror::Error)]
pub enum ErrorKind {
    /// The source ended before a read had all the bytes that it asked for.
    #[error("FailedToFillTheWholeBuffer")]
    FailedToFillTheWholeBuffer,
    /// A caller-provided buffer has too few bytes for what was to be put there.
    #[error("BufferNotLargeEnough")]
    BufferNotLargeEnough,
    /// A buffer in which a message is looked for has no bytes.
    #[error("EmptyBuffer")]
    EmptyBuffer,
    /// A slice in which a message is looked for has no bytes.
    #[error("EmptySlice")]
    EmptySlice,
    /// A segment table has, or is to have, this number of segments, which is not from 1 to 511.
    #[error("InvalidNumberOfSegments({0})")]
    InvalidNumberOfSegments(usize),
    /// The input ends early. Where the segments are cut, the numbers are the words that the
    /// segments have and the words that the input has after the table. Where the table is cut, they
    /// are 4, the bytes of a field, and how many bytes of that field the input has.
    #[error("MessageEndsPrematurely({0}, {1})")]
    MessageEndsPrematurely(usize, usize),
    /// A number of words or bytes does not fit `usize`.
    #[error("MessageSizeOverflow")]
    MessageSizeOverflow,
    /// The segments have this many words, more than the reader's limit.
    #[error("MessageTooLarge({0})")]
    MessageTooLarge(usize),
    /// The source ended where a message was to begin.
    #[error("PrematureEndOfFile")]
    PrematureEndOfFile,
    /// Packed input ended within a group, or before a group that its chunk still needs.
    #[error("PrematureEndOfPackedInput")]
    PrematureEndOfPackedInput,
    /// A run of packed words goes past the end of its chunk.
    #[error("PackedInputDidNotEndCleanlyOnASegmentBoundary")]
    PackedInputDidNotEndCleanlyOnASegmentBoundary,
    /// Memory could not be allocated.
    #[error("OutOfMemory")]
    OutOfMemory,
    /// The device of a source or a sink failed.
    #[error("DeviceFailed")]
    DeviceFailed,
    /// The length of a chunk to be packed or unpacked is not a multiple of eight bytes.
    #[error("NotWholeWords")]
    NotWholeWords,
    /// An object or a segment of this many words is too large, or has no room. More words are
    /// reported as 4294967295, and a struct with more data words or pointers than fit as 65536.
    #[error("AllocationTooLarge({0})")]
    AllocationTooLarge(u32),
    /// The allocator's one segment is handed out already.
    #[error("SegmentTaken")]
    SegmentTaken,
    /// A pointer, or what it points to, lies outside of its segment.
    #[error("PointerOutOfBounds")]
    PointerOutOfBounds,
    /// A message has no segment of this number.
    #[error("InvalidSegmentId({0})")]
    InvalidSegmentId(u32),
    /// Objects are nested deeper than the reader's limit.
    #[error("NestingLimitExceeded")]
    NestingLimitExceeded,
    /// A reader visited more words than its limit allows.
    #[error("ReadLimitExceeded")]
    ReadLimitExceeded,
    /// A message has a pointer to a capability.
    #[error("CapabilityRefused")]
    CapabilityRefused,
    /// A pointer points to another kind of object than was asked for.
    #[error("WrongPointerKind")]
    WrongPointerKind,
    /// A `Text` does not end with a zero byte.
    #[error("TextNotTerminated")]
    TextNotTerminated,
    /// A canonical form has more words than a segment may.
    #[error("CanonicalTooLarge")]
    CanonicalTooLarge,
    /// What was to be canonical is not a message of one segment.
    #[error("NotOneSegment")]
    NotOneSegment,
    /// A segment table's padding is not zero.
    #[error("NonZeroPadding")]
    NonZeroPadding,
}

impl ErrorKind {
    /// The number of this kind, from 1 to 26, under which it is listed in docs/FORMAT.md.
    pub fn number(&self) -> u8
        ensures { result ≡ kind_number self.now }
    {
        match self {
            ErrorKind::FailedToFillTheWholeBuffer => 1,
            ErrorKind::BufferNotLargeEnough => 2,
            ErrorKind::EmptyBuffer => 3,
            ErrorKind::EmptySlice => 4,
            ErrorKind::InvalidNumberOfSegments(_) => 5,
            ErrorKind::MessageEndsPrematurely(_, _) => 6,
            ErrorKind::MessageSizeOverflow => 7,
            ErrorKind::MessageTooLarge(_) => 8,
            ErrorKind::PrematureEndOfFile => 9,
            ErrorKind::PrematureEndOfPackedInput => 10,
            ErrorKind::PackedInputDidNotEndCleanlyOnASegmentBoundary => 11,
            ErrorKind::OutOfMemory => 12,
            ErrorKind::DeviceFailed => 13,
            ErrorKind::NotWholeWords => 14,
            ErrorKind::AllocationTooLarge(_) => 15,
            ErrorKind::SegmentTaken => 16,
            ErrorKind::PointerOutOfBounds => 17,
            ErrorKind::InvalidSegmentId(_) => 18,
            ErrorKind::NestingLimitExceeded => 19,
            ErrorKind::ReadLimitExceeded => 20,
            ErrorKind::CapabilityRefused => 21,
            ErrorKind::WrongPointerKind => 22,
            ErrorKind::TextNotTerminated => 23,
            ErrorKind::CanonicalTooLarge => 24,
            ErrorKind::NotOneSegment => 25,
            ErrorKind::NonZeroPadding => 26,
        }
    }
}

/// The error of a call that failed.
///
/// ```
/// let error = Error::from_kind(ErrorKind::MessageTooLarge(3));
/// assert_eq!(rt; error.kind, ErrorKind::MessageTooLarge(3));
/// let shown = format!(in alloc; "{error}")?;
/// assert_eq!(rt; shown.as_str(), "MessageTooLarge(3)");
/// ```
#[derive(Clone, Debug, Drop, thiserror::Error)]
#[error("{kind}")]
pub struct Error {
    pub kind: ErrorKind,
}

impl Error {
    /// An error of this kind.
    pub fn from_kind(kind: ErrorKind) -> Error
        ensures { result.kind ≡ kind }
    {
        Error { kind }
    }
}

impl From<AllocError> for Error {
    ghost from_gives = { λ _ error. error.kind ≡ OutOfMemory };

    fn from(_: AllocError) -> Error {
        Error::from_kind(ErrorKind::OutOfMemory)
    }
}

impl<T: Drop> From<AllocFailed<T>> for Error {
    ghost from_gives = { λ _ error. error.kind ≡ OutOfMemory };

    fn from(_: AllocFailed<T>) -> Error {
        Error::from_kind(ErrorKind::OutOfMemory)
    }
}
