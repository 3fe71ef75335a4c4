//! The files that are shown, one by one.
use crate::counted::Counted;
use crate::detected::detect;
use crate::errors::{Stop, device_error_line, input_line, message_error_line, unopened_line};
use crate::html::{push_end, push_input, push_page};
use crate::messages::show_messages;
use crate::progress::Progress;
use crate::settings::{Form, Reading, Settings};
use crate::shown::Showing;
use capnp::devices::{Input, Watched};
use capnp::io::{BufRead, Write};
use capnp::streams::Format;
use capnp::{Error, Result};
use std::fs::File;
use std::io::{IsTerminal, Read};
use std::{fs, io};

/// Shows the messages of the files of these names, or of standard input where none is named.
///
/// Returns whether all were read to their ends. Where output can't be written, it fails, and reads
/// no further.
pub fn show_files<W: Write>(
    rt: HostRuntime,
    settings: Settings,
    names: &[&str],
    sink: &mut W,
) -> Result<bool> {
    if !matches!(settings.form, Form::Html) {
        return show_each(rt, settings, names, sink);
    }
    let mut output = String::new(rt.alloc());
    push_page(&mut output)?;
    sink.write_all(output.as_bytes())?;
    let is_whole = show_each(rt, settings, names, sink)?;
    output.clear();
    push_end(&mut output)?;
    sink.write_all(output.as_bytes())?;
    Ok(is_whole)
}

// Shows the messages of each file.
fn show_each<W: Write>(
    rt: HostRuntime,
    settings: Settings,
    names: &[&str],
    sink: &mut W,
) -> Result<bool> {
    let mut showing = Showing {
        settings,
        format: Format::Framed,
        input: 0,
        name: "-",
        is_named: names.len() > 1,
    };
    if names.is_empty() {
        return show_file(rt, showing, sink);
    }
    let mut is_whole = true;
    for name in names {
        showing.name = name;
        if !show_file(rt, showing, sink)? {
            is_whole = false;
        }
        showing.input = showing.input.saturating_add(1);
    }
    Ok(is_whole)
}

// Shows the messages of one file, or of standard input where its name is `-`.
fn show_file<W: Write>(rt: HostRuntime, showing: Showing<'_>, sink: &mut W) -> Result<bool> {
    if showing.name == "-" {
        return show_standard_input(rt, showing, sink);
    }
    show_name(rt, showing, sink)?;
    match fs::open(&rt, showing.name) {
        Ok(file) => show_opened(rt, showing, file, sink),
        Err(error) => {
            say_unopened(rt, showing.name, &error)?;
            Ok(false)
        }
    }
}

// Shows the messages of standard input.
fn show_standard_input<W: Write>(
    rt: HostRuntime,
    showing: Showing<'_>,
    sink: &mut W,
) -> Result<bool> {
    let showing = Showing {
        name: "standard input",
        ..showing
    };
    show_name(rt, showing, sink)?;
    let progress = Progress::new(showing.settings.has_progress, None);
    show_device(rt, showing, progress, rt.stdin(), sink)
}

// Shows the messages of a file that is open.
fn show_opened<W: Write>(
    rt: HostRuntime,
    showing: Showing<'_>,
    file: File,
    sink: &mut W,
) -> Result<bool> {
    let progress = progress_of(rt, showing.settings, &file);
    show_device(rt, showing, progress, file, sink)
}

// Says on standard error that a file can't be opened.
fn say_unopened(rt: HostRuntime, name: &str, error: &io::Error) -> Result<()> {
    let line = unopened_line(rt.alloc(), name, error)?;
    let _ = eprint!(rt; "{line}");
    Ok(())
}

// Shows the name of an input, if a page is shown.
fn show_name<W: Write>(rt: HostRuntime, showing: Showing<'_>, sink: &mut W) -> Result<()> {
    if !matches!(showing.settings.form, Form::Html) {
        return Ok(());
    }
    let mut output = String::new(rt.alloc());
    push_input(&mut output, showing.name)?;
    sink.write_all(output.as_bytes())
}

// How progress is reported while a file is read: for regular files, and only where standard error
// is a terminal.
fn progress_of(rt: HostRuntime, settings: Settings, file: &File) -> Progress {
    let size = match file.metadata() {
        Ok(metadata) if metadata.is_file() => Some(metadata.len()),
        _ => None,
    };
    let is_wanted = settings.has_progress || (size.is_some() && rt.stderr().is_terminal());
    Progress::new(is_wanted, size)
}

// Shows the messages of a device, in the format that was asked for.
fn show_device<D: Read + Drop, W: Write>(
    rt: HostRuntime,
    showing: Showing<'_>,
    progress: Progress,
    device: D,
    sink: &mut W,
) -> Result<bool> {
    let format = match showing.settings.reading {
        Reading::Framed => Format::Framed,
        Reading::Packed => Format::Packed,
        Reading::Detected => return show_detected(rt, showing, progress, device, sink),
    };
    show_input(rt, Showing { format, ..showing }, progress, device, sink)
}

// Shows the messages of a device, in the format that its first bytes have, and says which.
fn show_detected<D: Read + Drop, W: Write>(
    rt: HostRuntime,
    showing: Showing<'_>,
    progress: Progress,
    device: D,
    sink: &mut W,
) -> Result<bool> {
    let mut device = device;
    let mut front = Vec::new(rt.alloc());
    let found = detect(&mut device, &mut front, showing.settings.limits)?;
    let format = found.unwrap_or(Format::Framed);
    say_detected(rt, showing.name, format)?;
    let whole = front.as_slice().chain(device);
    show_input(rt, Showing { format, ..showing }, progress, whole, sink)
}

// Says on standard error in which format an input is read.
fn say_detected(rt: HostRuntime, name: &str, format: Format) -> Result<()> {
    let seen = match format {
        Format::Framed => "framed",
        Format::Packed => "packed",
    };
    let line = input_line(rt.alloc(), name, seen)?;
    let _ = eprint!(rt; "{line}");
    Ok(())
}

// Shows the messages of a device, in a format that is known.
fn show_input<D: Read + Drop, W: Write>(
    rt: HostRuntime,
    showing: Showing<'_>,
    progress: Progress,
    device: D,
    sink: &mut W,
) -> Result<bool> {
    let mut device = Watched::new(device);
    let source = Input::new(rt.alloc(), &mut device)?;
    let is_whole = show_source(rt, showing, progress, source, sink)?;
    if let Some(error) = device.last_error() {
        say_device_error(rt, showing.name, &error)?;
    }
    Ok(is_whole)
}

// Says on standard error why a device failed.
fn say_device_error(rt: HostRuntime, name: &str, error: &io::Error) -> Result<()> {
    let line = device_error_line(rt.alloc(), name, error)?;
    let _ = eprint!(rt; "{line}");
    Ok(())
}

// Shows the messages of a source, and says where it stops.
fn show_source<R: BufRead + Drop, W: Write>(
    rt: HostRuntime,
    showing: Showing<'_>,
    progress: Progress,
    source: R,
    sink: &mut W,
) -> Result<bool> {
    let mut progress = progress;
    let mut source = Counted::new(source);
    match show_messages(rt, showing, &mut progress, &mut source, sink) {
        Ok(()) => Ok(true),
        Err(
            Stop::Unread {
                index,
                offset,
                error,
            },
        ) => {
            say_message_error(rt, showing.name, index, offset, &error)?;
            Ok(false)
        }
        Err(Stop::Unwritten(error)) => Err(error),
    }
}

// Says on standard error which message was not shown, and why.
fn say_message_error(
    rt: HostRuntime,
    name: &str,
    index: u64,
    offset: u64,
    error: &Error,
) -> Result<()> {
    let line = message_error_line(rt.alloc(), name, index, offset, error)?;
    let _ = eprint!(rt; "{line}");
    Ok(())
}
