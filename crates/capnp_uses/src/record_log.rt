//! A log of two packed records, which are read back.
ghost use Rattle.std.specs.Prelude.{◌≡◌, ◌⊎◌, map, IfOk, IfErr};
ghost use Rattle.std.specs.List.{AllByRecursion};
ghost use Rattle.capnp_frame.specs.declared.error.ErrorKind.{ErrorKind};
ghost use Rattle.capnp_frame.specs.Prelude.{KeepsLimit, lengths, IsWritable, SegmentCountError};
ghost use Rattle.capnp_uses.specs.Streaming.{ReadsBoth};

use capnp::Result;
use capnp::message::{ReaderOptions, ReaderSegments};
use capnp::record_log::{append_segments, read_log};
use capnp::streams::StreamRead;
use std::alloc::Global;

/// Appends two records to an empty log, and reads them back.
pub fn two_records_are_read_back<S: ReaderSegments, T: ReaderSegments>(
    alloc: Global,
    first: &S,
    second: &T,
    options: ReaderOptions,
) -> Result<StreamRead>
    requires first { IsWritable (S.segments first.now) }
    requires second { IsWritable (T.segments second.now) }
    requires first_size { KeepsLimit (lengths (S.segments first.now))
        options.traversal_limit_in_words }
    requires second_size { KeepsLimit (lengths (T.segments second.now))
        options.traversal_limit_in_words }
    ensures read { IfOk result (λ read. ReadsBoth options.traversal_limit_in_words
        (S.segments first.now) (T.segments second.now)
        (map (λ reader. reader.segments) read.messages.items) read.end read.error) }
    ensures options { IfOk result (λ read.
        AllByRecursion (λ reader. reader.options ≡ options) read.messages.items) }
    ensures errors { IfErr result (λ error. SegmentCountError (S.segments first.now) error.kind
        ⊎ SegmentCountError (T.segments second.now) error.kind
        ⊎ (error.kind ≡ ErrorKind.OutOfMemory)) }
{
    let mut log = Vec::new(alloc);
    append_segments(alloc, &mut log, first)?;
    append_segments(alloc, &mut log, second)?;
    Ok(read_log(alloc, &log, options))
}
