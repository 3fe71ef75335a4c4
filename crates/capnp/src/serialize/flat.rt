//! Reading messages from slices.
ghost use Rattle.capnp_frame.specs.Prelude.{slice_rules, no_alloc_rules};
ghost use Rattle.capnp.specs.Headline.{ReadsFlatMessage};

use capnp_frame::Result;
use capnp_frame::message::ReaderOptions;
use capnp_frame::serialize::{
    BufferSegments, NoAllocBufferSegments, NoAllocSliceSegments, Padding, TableRules,
    take_segments_with_rules,
};
use capnp_message::Reader;
use std::alloc::Global;

/// Reads the message at the front of a slice, and moves the slice after it.
///
/// No segment is copied, and memory is taken for the lengths of more than one segment alone. Fails
/// as `take_segments` of `capnp_frame` does, and the slice is then as it was.
///
/// ```
/// let mut rest = bytes;
/// let message = serialize::read_message_from_flat_slice(alloc, &mut rest, options)?;
/// let greeting: text::Reader<'_> = message.get_root()?;
/// assert_eq!(rt; greeting.as_bytes(), b"Hello, World!".as_slice());
/// ```
pub fn read_message_from_flat_slice<'a>(
    alloc: Global,
    slice: &mut &'a [u8],
    options: ReaderOptions,
) -> Result<Reader<BufferSegments<&'a [u8]>>>
    ensures { ReadsFlatMessage (slice_rules Padding.Zero options.traversal_limit_in_words) options
        slice.old.now slice.new.now result }
{
    take_message(alloc, slice, Padding::Zero, options)
}

/// Reads the message at the front of a slice as `read_message_from_flat_slice` does, but accepts
/// any padding in the segment table.
///
/// ```
/// let mut rest = NONZERO_PADDING.as_slice();
/// let message = serialize::read_message_from_flat_slice_lenient(alloc, &mut rest, options)?;
/// let greeting: text::Reader<'_> = message.get_root()?;
/// assert_eq!(rt; greeting.as_bytes(), b"Hello, World!".as_slice());
/// ```
pub fn read_message_from_flat_slice_lenient<'a>(
    alloc: Global,
    slice: &mut &'a [u8],
    options: ReaderOptions,
) -> Result<Reader<BufferSegments<&'a [u8]>>>
    ensures { ReadsFlatMessage (slice_rules Padding.Any options.traversal_limit_in_words) options
        slice.old.now slice.new.now result }
{
    take_message(alloc, slice, Padding::Any, options)
}

// The message at the front of a slice, with a padding that the rule accepts.
fn take_message<'a>(
    alloc: Global,
    slice: &mut &'a [u8],
    padding: Padding,
    options: ReaderOptions,
) -> Result<Reader<BufferSegments<&'a [u8]>>>
    ensures { ReadsFlatMessage (slice_rules padding options.traversal_limit_in_words) options
        slice.old.now slice.new.now result }
{
    let rules = TableRules::new(padding, options);
    let segments = take_segments_with_rules(alloc, slice, rules)?;
    Ok(Reader::new(segments, options))
}

/// Reads the message at the front of a slice, and moves the slice after it. No memory is taken.
///
/// Fails as `NoAllocBufferSegments::from_slice` of `capnp_frame` does, and the slice is then as it
/// was.
///
/// ```
/// let mut rest = bytes;
/// let options = DEFAULT_READER_OPTIONS;
/// let message = serialize::read_message_from_flat_slice_no_alloc(&mut rest, options)?;
/// let greeting: text::Reader<'_> = message.get_root()?;
/// assert_eq!(rt; greeting.as_bytes(), b"Hello, World!".as_slice());
/// ```
pub fn read_message_from_flat_slice_no_alloc<'a>(
    slice: &mut &'a [u8],
    options: ReaderOptions,
) -> Result<Reader<NoAllocSliceSegments<'a>>>
    ensures { ReadsFlatMessage (no_alloc_rules Padding.Zero options.traversal_limit_in_words)
        options slice.old.now slice.new.now result }
{
    take_message_no_alloc(slice, Padding::Zero, options)
}

/// Reads the message at the front of a slice as `read_message_from_flat_slice_no_alloc` does, but
/// accepts any padding in the segment table.
///
/// ```
/// let mut rest = NONZERO_PADDING.as_slice();
/// let message = serialize::read_message_from_flat_slice_no_alloc_lenient(&mut rest, options)?;
/// let greeting: text::Reader<'_> = message.get_root()?;
/// assert_eq!(rt; greeting.as_bytes(), b"Hello, World!".as_slice());
/// ```
pub fn read_message_from_flat_slice_no_alloc_lenient<'a>(
    slice: &mut &'a [u8],
    options: ReaderOptions,
) -> Result<Reader<NoAllocSliceSegments<'a>>>
    ensures { ReadsFlatMessage (no_alloc_rules Padding.Any options.traversal_limit_in_words)
        options slice.old.now slice.new.now result }
{
    take_message_no_alloc(slice, Padding::Any, options)
}

// The message at the front of a slice, with a padding that the rule accepts.
fn take_message_no_alloc<'a>(
    slice: &mut &'a [u8],
    padding: Padding,
    options: ReaderOptions,
) -> Result<Reader<NoAllocSliceSegments<'a>>>
    ensures { ReadsFlatMessage (no_alloc_rules padding options.traversal_limit_in_words) options
        slice.old.now slice.new.now result }
{
    let rules = TableRules::new(padding, options);
    let segments = NoAllocBufferSegments::from_slice_with_rules(slice, rules)?;
    Ok(Reader::new(segments, options))
}
