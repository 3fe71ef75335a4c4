//! The messages of an input, shown one by one.
ghost use Rattle.std.specs.Prelude.{◌≡◌, ◌-◌, ◌^◌, None, IfErr, OnOk, OnErr, length, min, take};
ghost use Rattle.std.specs.List.{AllByRecursion};
ghost use Rattle.capnp_frame.specs.Prelude.{IsWithin, IsWholeWords, size_in_words, Adds, IfKnown, Fails};
ghost use Rattle.capnp.specs.Prelude.{by_format, ReadsMessage, ErrorKind, Zero, WritingErrors, WritingError, Transcodes, TranscodedErrors};
ghost use Rattle.capnp_show.specs.Shown.{Lists};

use crate::counted::Counted;
use crate::errors::Stop;
use crate::listing::Listed;
use crate::progress::Progress;
use crate::settings::Form;
use crate::shown::{Showing, show_count, show_message};
use capnp::io::{BufRead, Write};
use capnp::message::{Reader, ReaderOptions, ReaderSegments};
use capnp::serialize::{OwnedSegments, Padding, SEGMENTS_COUNT_LIMIT};
use capnp::streams::{self, Format, MessageWriter};
use capnp::{Result, Way};
use std::alloc::Global;

/// Shows the messages of a source, each as soon as it is read, or writes them in the other format.
///
/// What is shown of the messages before an error is kept.
pub fn show_messages<R: BufRead + Drop, W: Write>(
    rt: HostRuntime,
    showing: Showing<'_>,
    progress: &mut Progress,
    source: &mut Counted<R>,
    sink: &mut W,
) -> std::result::Result<(), Stop> {
    let alloc = rt.alloc();
    let mut output = String::new(alloc);
    let mut outcome = Ok(());
    let mut count = 0;
    for index in 0..showing.settings.first {
        let offset = source.taken();
        match next_message(alloc, source, showing.format, showing.settings.limits) {
            Ok(None) => break,
            Ok(Some(message)) => {
                let taken = source.taken();
                count = index + 1;
                let bytes = taken.saturating_sub(offset);
                let listed = listed(index, offset, bytes, message.get_segments());
                show_read(alloc, showing, &listed, &message, &mut output, sink).map_err(
                    Stop::Unwritten,
                )?;
                say_progress(rt, showing.name, progress, taken, count).map_err(Stop::Unwritten)?;
            }
            Err(error) => {
                outcome = Err(Stop::Unread {
                    index,
                    offset,
                    error,
                });
                break;
            }
        }
    }
    if matches!(showing.settings.form, Form::Count) {
        show_count(showing, count, &mut output, sink).map_err(Stop::Unwritten)?;
    }
    outcome
}

// Shows a message that was read, or writes it in the other format.
fn show_read<W: Write>(
    alloc: Global,
    showing: Showing<'_>,
    listed: &Listed,
    message: &Reader<OwnedSegments>,
    output: &mut String,
    sink: &mut W,
) -> Result<()>
    requires accepted { IsWithin message.now.segments None }
    requires whole { AllByRecursion IsWholeWords message.now.segments }
{
    match showing.settings.form {
        Form::Converted(way) => convert(alloc, way, listed.index, message.get_segments(), sink),
        _ => show_message(alloc, showing, listed, message, output, sink),
    }
}

// Writes a message, which was read, in the other format.
fn convert<W: Write>(
    alloc: Global,
    way: Way,
    index: u64,
    message: &OwnedSegments,
    sink: &mut W,
) -> Result<()>
    requires accepted { IsWithin message.now None }
    requires whole { AllByRecursion IsWholeWords message.now }
    ensures written { OnOk result (IfKnown (W.written sink.old) (W.written sink.new)
        (Adds (Transcodes way W.appends index message.now))) }
    // It fails only as the writer of that format does, and leaves of the message what the writer
    // leaves.
    ensures errors { IfErr result (λ error. WritingError
        (TranscodedErrors way W.appends W.leaves W.refuses) index message.now error.kind) }
    ensures failed { IfErr result (λ error. error.kind ≡ ErrorKind.DeviceFailed →
        Fails (W.failures sink.old) (W.failures sink.new)) }
    ensures left { OnErr result (IfKnown (W.written sink.old) (W.written sink.new) (Adds
        (WritingErrors.leaves (TranscodedErrors way W.appends W.leaves W.refuses)
        index message.now))) }
{
    let mut memory = Vec::new(alloc);
    way.write_message(alloc, index, message, &mut memory, sink)
}

// Says on standard error how far the reading is, where a line is due.
fn say_progress(
    rt: HostRuntime,
    name: &str,
    progress: &mut Progress,
    taken: u64,
    messages: u64,
) -> Result<()> {
    if let Some(megabytes) = progress.after(taken) {
        let line = progress.line(rt.alloc(), name, megabytes, messages)?;
        let _ = eprint!(rt; "{line}");
    }
    Ok(())
}

/// Reads the next message of a stream of this format, with zero padding.
fn next_message<R: BufRead>(
    alloc: Global,
    source: &mut R,
    format: Format,
    options: ReaderOptions,
) -> Result<Option<Reader<OwnedSegments>>>
    ensures { ReadsMessage R.Read source.old source.new (by_format Zero format) options result }
{
    streams::next_message(alloc, source, format, Padding::Zero, options)
}

// What is listed for a message.
fn listed<S: ReaderSegments>(index: u64, offset: u64, bytes: u64, segments: &S) -> Listed
    ensures { Lists index offset bytes (S.segments segments.now) result }
{
    let (segments, words) = segments_and_words(segments);
    Listed {
        index,
        offset,
        bytes,
        segments,
        words,
    }
}

// How many segments a message has, `SEGMENTS_COUNT_LIMIT` at most, and how many words these have.
fn segments_and_words<S: ReaderSegments>(segments: &S) -> (u64, u64)
    ensures segments { result.0 ≡ min (length (S.segments segments.now)) SEGMENTS_COUNT_LIMIT }
    ensures words { result.1
        ≡ min (size_in_words (take SEGMENTS_COUNT_LIMIT (S.segments segments.now))) (2 ^ 64 - 1) }
{
    let mut count: u64 = 0;
    let mut words: u64 = 0;
    for id in 0..SEGMENTS_COUNT_LIMIT as u32 {
        let Some(segment) = segments.get_segment(id) else {
            break;
        };
        count = count.saturating_add(1);
        words = words.saturating_add((segment.len() / 8) as u64);
    }
    (count, words)
}
