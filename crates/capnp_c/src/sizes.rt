//! How large messages are, as the front of their encodings tells.
ghost use Rattle.std.specs.Prelude.{◌≡◌, ◌≢◌, ◌<◌, ℕ, List, [], Option, None, length, MatchResult};
ghost use Rattle.capnp_frame.specs.Prelude.{DeclaresCount, IsOutOfRange, TableError};
ghost use Rattle.capnp_frame.specs.declared.error.ErrorKind.{ErrorKind};
ghost use Rattle.capnp_frame.specs.declared.message.options.TheConstants.{DEFAULT_READER_OPTIONS};
ghost use Rattle.capnp_pack.specs.Prelude.{Unpacks, ChunkError};
ghost use Rattle.capnp_c.specs.Options.{options_of};
ghost use Rattle.capnp_c.specs.Sizes.{TellsSize, TellsUnpackedSize, UnpacksTable, IsAcceptedTable, IsRejectedTable, declared_size, declared_table_size, table_front};

use crate::options::LinsjoarOptions;
use crate::packed::unpack_from;
use crate::table::{field_at, table_len, words_of_segments};
use capnp_frame::message::{DEFAULT_READER_OPTIONS, ReaderOptions, ReaderSegments};
use capnp_frame::serialize::{NoAllocBufferSegments, Padding, SEGMENTS_COUNT_LIMIT};
use capnp_frame::{Error, ErrorKind, Result};

// The bytes of the longest table, of 511 segments.
const LONGEST_TABLE: usize = 2048;

/// Counts the bytes of the framed message that begins with these bytes. Where its table is cut, it
/// counts how many more have to be there to tell: these are the message's, whatever they are.
///
/// Returns 0, or the number of the error of `linsjoar_message` as soon as no bytes that follow could
/// make a message of these. A message that is cut is no error.
#[unsafe(no_mangle)]
pub extern "C" fn linsjoar_message_size(
    bytes: &[u8],
    message_len: &mut usize,
    needed: &mut usize,
) -> u32
    ensures { TellsSize DEFAULT_READER_OPTIONS bytes.now message_len.new needed.new result }
{
    tell_size(bytes, DEFAULT_READER_OPTIONS, message_len, needed)
}

/// Counts them as `linsjoar_message_size` does, within the limits of these options.
#[unsafe(no_mangle)]
pub extern "C" fn linsjoar_message_size_with_options(
    bytes: &[u8],
    options: &LinsjoarOptions,
    message_len: &mut usize,
    needed: &mut usize,
) -> u32
    ensures { TellsSize (options_of options.now) bytes.now message_len.new needed.new result }
{
    tell_size(bytes, options.reader_options(), message_len, needed)
}

fn tell_size(
    bytes: &[u8],
    options: ReaderOptions,
    message_len: &mut usize,
    needed: &mut usize,
) -> u32
    ensures { TellsSize options bytes.now message_len.new needed.new result }
{
    *message_len = 0;
    *needed = 0;
    let table = front_of(bytes);
    match sizes_of(&table, options) {
        Ok((table_len, size)) => {
            if bytes.len() < table_len {
                *needed = table_len - bytes.len();
                return 0;
            }
            *message_len = size;
            0
        }
        Err(error) => error.kind.number() as u32,
    }
}

/// Counts the bytes of the framed encoding of the packed message at the front of these bytes. Only its
/// packed table has to be there.
///
/// Returns 9 where there are no packed bytes, and else 0 or the number of the error with which a
/// reader of packed messages stops at the table.
#[unsafe(no_mangle)]
pub extern "C" fn linsjoar_unpacked_size(packed: &[u8], framed_len: &mut usize) -> u32
    ensures { TellsUnpackedSize DEFAULT_READER_OPTIONS packed.now framed_len.new result }
{
    tell_unpacked_size(packed, DEFAULT_READER_OPTIONS, framed_len)
}

/// Counts them as `linsjoar_unpacked_size` does, within the limits of these options.
#[unsafe(no_mangle)]
pub extern "C" fn linsjoar_unpacked_size_with_options(
    packed: &[u8],
    options: &LinsjoarOptions,
    framed_len: &mut usize,
) -> u32
    ensures { TellsUnpackedSize (options_of options.now) packed.now framed_len.new result }
{
    tell_unpacked_size(packed, options.reader_options(), framed_len)
}

fn tell_unpacked_size(packed: &[u8], options: ReaderOptions, framed_len: &mut usize) -> u32
    ensures { TellsUnpackedSize options packed.now framed_len.new result }
{
    *framed_len = 0;
    if packed.is_empty() {
        return ErrorKind::PrematureEndOfFile.number() as u32;
    }
    let table = match unpacked_table(packed) {
        Ok(table) => table,
        Err(error) => return error.kind.number() as u32,
    };
    match sizes_of(&table, options) {
        Ok((_, size)) => {
            *framed_len = size;
            0
        }
        Err(error) => error.kind.number() as u32,
    }
}

// The table of the packed message at the front of these bytes. Zeros follow it, so that it is as long
// as the longest one.
fn unpacked_table(packed: &[u8]) -> Result<[u8; LONGEST_TABLE]>
    requires { packed.now ≢ [] }
    ensures { MatchResult result (λ table. UnpacksTable packed.now table)
        (λ error. (left : List ℕ) × ((limit : Option ℕ) →
        TableError Padding.Zero Unpacks ChunkError limit None error.kind packed.now left)) }
{
    let mut source = packed;
    let mut first = [0; 8];
    unpack_from(&mut source, &mut first)?;
    let count = count_in(&first)?;
    let mut table = [0; LONGEST_TABLE];
    table[..8].copy_from_slice(&first);
    unpack_from(&mut source, &mut table[8..table_len(count)])?;
    Ok(table)
}

// The number of segments that the first word of a table declares. Fails where no reader accepts it.
fn count_in(first: &[u8; 8]) -> Result<usize>
    ensures { MatchResult result
        (λ count. DeclaresCount first.now count × (0 < count) × (count < SEGMENTS_COUNT_LIMIT))
        (λ error. (count : ℕ) × DeclaresCount first.now count × IsOutOfRange count
        × (error.kind ≡ ErrorKind.InvalidNumberOfSegments count)) }
{
    let last = field_at(first, 0);
    let count = last.wrapping_add(1) as usize;
    if count == 0 || count >= SEGMENTS_COUNT_LIMIT {
        return Err(Error::from_kind(ErrorKind::InvalidNumberOfSegments(count)));
    }
    Ok(count)
}

// The front of these bytes, as long as the longest table. What isn't there is zero.
fn front_of(bytes: &[u8]) -> [u8; LONGEST_TABLE]
    ensures { result ≡ table_front bytes.now }
{
    let mut table = [0; LONGEST_TABLE];
    let there = bytes.len().min(LONGEST_TABLE);
    table[..there].copy_from_slice(&bytes[..there]);
    table
}

// How many bytes the table at the front of these bytes has, and how many the message after it has
// with it. Fails as a reader does whatever follows.
fn sizes_of(table: &[u8], options: ReaderOptions) -> Result<(usize, usize)>
    requires { length table.now ≡ 2048 }
    ensures { MatchResult result
        (λ sizes. IsAcceptedTable options table.now × (sizes.0 ≡ declared_table_size table.now)
        × (sizes.1 ≡ declared_size table.now))
        (λ error. IsRejectedTable options table.now error.kind) }
{
    check_table(table, options)?;
    let last = field_at(table, 0) as usize;
    let start = table_len(last + 1);
    let words = words_of_segments(table, 0, last + 1);
    let size = start + 8 * words;
    Ok((start, size))
}

// Tests that a reader accepts the table at the front of these bytes.
fn check_table(table: &[u8], options: ReaderOptions) -> Result<()>
    requires { length table.now ≡ 2048 }
    ensures { MatchResult result (λ checked. IsAcceptedTable options table.now)
        (λ error. IsRejectedTable options table.now error.kind) }
{
    match NoAllocBufferSegments::from_buffer(table, options) {
        Ok(_) => Ok(()),
        Err(error) => match error.kind {
            ErrorKind::MessageEndsPrematurely(_, _) => Ok(()),
            _ => Err(error),
        },
    }
}
