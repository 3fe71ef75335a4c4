//! Readers: a message that was opened, and what may still be read of it.
ghost use Rattle.std.specs.Prelude.{◌≡◌, ◌≢◌, ◌-◌, ◌^◌, Some, None, MatchOption, MatchResult};
ghost use Rattle.capnp_frame.specs.declared.error.ErrorKind.{ErrorKind};
ghost use Rattle.capnp_frame.specs.declared.message.options.TheConstants.{DEFAULT_READER_OPTIONS};
ghost use Rattle.capnp_layout.specs.Prelude.{Within, less};
ghost use Rattle.capnp_wire.specs.Prelude.{nesting_of};
ghost use Rattle.capnp_c.specs.Options.{limit_of_number, options_of};
ghost use Rattle.capnp_c.specs.Reading.{HasTableOf};
ghost use Rattle.capnp_c.specs.ReadingExports.{OpensMessage, FindsRoot};

use crate::options::LinsjoarOptions;
use crate::reading::INVALID_ARGUMENT;
use crate::reading::place::LinsjoarPlace;
use crate::reading::segments::{GROUP_LEN, MessageSegments, begins_of};
use capnp_frame::message::{DEFAULT_READER_OPTIONS, ReaderOptions, ReaderSegments};
use capnp_frame::serialize::NoAllocBufferSegments;
use capnp_frame::{Error, ErrorKind, Result};
use capnp_layout::place::{Place, pointer_at};

/// What is known of a message that was opened. Each thread has its own.
#[repr(C)]
#[derive(Clone, Copy)]
pub struct LinsjoarReader {
    /// How many bytes the message has, with its table.
    pub message_len: usize,
    /// How many words may still be visited. `usize::MAX` sets no limit, and stays.
    pub words_left: usize,
    /// How many segments it has.
    pub segments: u32,
    /// How deep objects may be nested. A limit below 0 is the same as 0.
    pub nesting_limit: i32,
    /// Where each 16th segment begins, in bytes of the message: segment 16 first, then segment 32. It
    /// is 0 where there is no such segment.
    pub begins: [usize; 31],
}

/// Opens the framed message at the front of these bytes, within the default limits. Returns 0, or
/// the number of the error that `linsjoar_message` returns; then each number of the reader is 0.
#[unsafe(no_mangle)]
pub extern "C" fn linsjoar_open(bytes: &[u8], reader: &mut LinsjoarReader) -> u32
    ensures { OpensMessage DEFAULT_READER_OPTIONS bytes.now reader.new result }
{
    open_message(bytes, DEFAULT_READER_OPTIONS, reader)
}

/// Opens that message as `linsjoar_open` does, within the limits of these options.
#[unsafe(no_mangle)]
pub extern "C" fn linsjoar_open_with_options(
    bytes: &[u8],
    options: &LinsjoarOptions,
    reader: &mut LinsjoarReader,
) -> u32
    ensures { OpensMessage (options_of options.now) bytes.now reader.new result }
{
    open_message(bytes, options.reader_options(), reader)
}

fn open_message(bytes: &[u8], options: ReaderOptions, reader: &mut LinsjoarReader) -> u32
    requires { options.traversal_limit_in_words ≢ Some (2 ^ 64 - 1) }
    ensures { OpensMessage options bytes.now reader.new result }
{
    *reader = LinsjoarReader {
        message_len: 0,
        words_left: 0,
        segments: 0,
        nesting_limit: 0,
        begins: [0; 31],
    };
    let mut rest = bytes;
    match NoAllocBufferSegments::from_slice(&mut rest, options) {
        Ok(segments) => {
            let count = segments.len();
            reader.message_len = bytes.len() - rest.len();
            reader.words_left = options.traversal_limit_in_words.unwrap_or(usize::MAX);
            reader.segments = count as u32;
            reader.nesting_limit = options.nesting_limit;
            // Speed: most messages have one segment.
            if count > GROUP_LEN {
                reader.begins = begins_of(bytes, count);
            }
            0
        }
        Err(error) => error.kind.number() as u32,
    }
}

/// Finds the root pointer, the first word of the first segment. Returns `InvalidArgument` (27) where
/// the reader is not one of these bytes, and `PointerOutOfBounds` (17) where there is no such word.
#[unsafe(no_mangle)]
pub extern "C" fn linsjoar_root(
    bytes: &[u8],
    reader: &LinsjoarReader,
    root: &mut LinsjoarPlace,
) -> u32
    ensures { FindsRoot reader.now bytes.now root.new result }
{
    *root = LinsjoarPlace::nowhere(0);
    let Some(segments) = reader.segments_in(bytes) else {
        return INVALID_ARGUMENT;
    };
    let place = Place {
        segment: 0,
        word: 0,
    };
    match pointer_at(&segments, place) {
        Ok(_) => {
            *root = LinsjoarPlace::of(place, reader.nesting());
            0
        }
        Err(error) => error.kind.number() as u32,
    }
}

impl LinsjoarReader {
    /// The segments of the message in these bytes; `None` where no message in them could be the
    /// reader's.
    #[inline(always)]
    pub(crate) fn segments_in<'a>(&'a self, bytes: &'a [u8]) -> Option<MessageSegments<'a>>
        ensures { MatchOption result (HasTableOf self.now bytes.now → ⊥)
            (λ segments. HasTableOf self.now bytes.now × (segments.count ≡ self.now.segments)
            × (segments.bytes.now ≡ bytes.now) × (segments.begins.now ≡ self.now.begins)) }
    {
        MessageSegments::new(bytes, &self.begins, self.segments)
    }

    /// What a reader of the same message accepts, within what is left of this one's limits.
    pub(crate) fn options(&self) -> ReaderOptions
        ensures { result.traversal_limit_in_words ≡ limit_of_number self.now.words_left }
    {
        let left = LinsjoarOptions {
            traversal_limit_in_words: self.words_left,
            nesting_limit: self.nesting_limit,
        };
        left.reader_options()
    }

    /// The longest chain of objects that may be followed from the root.
    pub(crate) fn nesting(&self) -> u32
        ensures { result ≡ nesting_of self.now.nesting_limit }
    {
        self.nesting_limit.max(0) as u32
    }

    /// How many words may still be visited after these. Fails with `ReadLimitExceeded` where there
    /// are more than that.
    #[inline(always)]
    pub(crate) fn words_left_after(&self, words: u64) -> Result<usize>
        ensures { let limit = limit_of_number self.now.words_left in MatchResult result
            (λ left. Within limit words × (limit_of_number left ≡ less limit words))
            (λ error. (Within limit words → ⊥) × (error.kind ≡ ErrorKind.ReadLimitExceeded)) }
    {
        if self.words_left == usize::MAX {
            return Ok(usize::MAX);
        }
        match self.words_left.checked_sub(words as usize) {
            Some(left) => Ok(left),
            None => Err(Error::from_kind(ErrorKind::ReadLimitExceeded)),
        }
    }
}
