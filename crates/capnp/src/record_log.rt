//! A log of packed records: records are appended, and all are read back, also where the log is cut.
//!
//! A log is a stream of packed messages whose padding is zero. So a file to which
//! `serialize_packed::write_message` appends is a log, too.
ghost use Rattle.std.specs.Prelude.{◌≡◌, map};
ghost use Rattle.std.specs.List.{AllByRecursion};
ghost use Rattle.capnp_frame.specs.Prelude.{IsWritable};
ghost use Rattle.capnp.specs.Reading.{ReadsEach};
ghost use Rattle.capnp.specs.RecordLog.{AppendsRecord, ReadsLog};

use crate::serialize_packed;
use crate::streams::{Format, StreamRead, every_message};
use capnp_frame::Result;
use capnp_frame::message::{BuiltMessage, ReaderOptions, ReaderSegments};
use capnp_frame::serialize::Padding;
use std::alloc::Global;

/// Appends a record, a message that was built, to a log.
///
/// Fails with `InvalidNumberOfSegments` where the record has more than 511 segments, and else with
/// `OutOfMemory` alone. The log then stays as it was.
///
/// ```
/// let mut log = Vec::new(alloc);
/// record_log::append(alloc, &mut log, &message)?;
/// let read = record_log::read_log(alloc, &log, DEFAULT_READER_OPTIONS);
/// assert_eq!(rt; (read.messages.len(), read.end), (1, log.len()));
/// assert!(rt; !read.is_cut());
/// ```
pub fn append<M: BuiltMessage>(alloc: Global, log: &mut Vec<u8>, message: &M) -> Result<()>
    requires { M.has_segment message.now }
    ensures { AppendsRecord (M.segments message.now) log.old.items log.new.items result }
{
    message.can_be_written();
    append_segments(alloc, log, message)
}

/// Appends a record of any segments that can be written to a log, and fails as `append` does.
///
/// ```
/// let record = SegmentArray::new(&segments);
/// let mut log = Vec::new(alloc);
/// record_log::append_segments(alloc, &mut log, &record)?;
/// assert_eq!(rt; log.as_slice(), [0x10, 1, 0, 0].as_slice());
/// ```
pub fn append_segments<S: ReaderSegments>(
    alloc: Global,
    log: &mut Vec<u8>,
    segments: &S,
) -> Result<()>
    requires { IsWritable (S.segments segments.now) }
    ensures { AppendsRecord (S.segments segments.now) log.old.items log.new.items result }
{
    let end = log.len();
    match serialize_packed::write_message_segments(alloc, log, segments) {
        Ok(()) => Ok(()),
        Err(error) => {
            log.truncate(end);
            Err(error)
        }
    }
}

/// Reads all records of a log, and returns where they end.
///
/// If `is_cut` returns true, the log is to be truncated to `end` before the next record is
/// appended.
///
/// ```
/// let read = record_log::read_log(alloc, &log, DEFAULT_READER_OPTIONS);
/// assert_eq!(rt; read.messages.len(), 1);
/// assert!(rt; read.is_cut());
/// ```
pub fn read_log(alloc: Global, log: &[u8], options: ReaderOptions) -> StreamRead
    ensures read { ReadsLog options.traversal_limit_in_words log.now
        (map (λ reader. reader.segments) result.messages.items) result.end result.error }
    // Of bytes that are no log: the messages at the front, as `every_message` reads them.
    ensures each { ReadsEach Padding.Zero Format.Packed options.traversal_limit_in_words log.now
        (map (λ reader. reader.segments) result.messages.items) result.end result.error }
    ensures options { AllByRecursion (λ reader. reader.options ≡ options) result.messages.items }
{
    every_message(alloc, log, Format::Packed, Padding::Zero, options)
}
