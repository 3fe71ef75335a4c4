//! Messages: packed and unpacked.
ghost use Rattle.std.specs.Prelude.{◌≡◌, ◌<◌, ◌≤◌, ◌^◌, ℕ, List, ◌∷◌, length, take, drop, slice_get, Some, IfSome, IfNone, IfOk, IsOk};
ghost use Rattle.std.specs.Result.{IsErrAnd};
ghost use Rattle.capnp_frame.specs.Prelude.{lengths, kind_number, zero_padded_table};
ghost use Rattle.capnp_frame.specs.declared.error.ErrorKind.{ErrorKind};
ghost use Rattle.capnp_frame.specs.declared.message.options.ReaderOptions.{ReaderOptions};
ghost use Rattle.capnp_frame.specs.declared.message.options.TheConstants.{DEFAULT_READER_OPTIONS};
ghost use Rattle.capnp_c.specs.Exports.{PacksMessage, UnpacksMessage};
ghost use Rattle.capnp_c.specs.Fronts.{IsAtFront, MessageError};
ghost use Rattle.capnp_c.specs.Options.{options_of};
ghost use Rattle.capnp_c.specs.Packing.{IsMessage, PacksChunks};

use crate::options::LinsjoarOptions;
use crate::packed::pack_into;
use crate::provided_buffer::ProvidedBuffer;
use capnp_frame::io::Write;
use capnp_frame::message::{DEFAULT_READER_OPTIONS, ReaderOptions, ReaderSegments};
use capnp_frame::serialize::{
    NoAllocBufferSegments, NoAllocSliceSegments, Padding, SEGMENTS_COUNT_LIMIT, TableRules,
};
use capnp_frame::{Error, ErrorKind, Result};
use capnp_pack::stream::try_read_packed_framed_into;

/// Packs a framed message, and counts the bytes that this takes: the first word of its table, the
/// table's other words, and each segment are packed one by one.
///
/// The bytes have to be one message and no more. Returns 6 where it is cut, or where bytes follow
/// it; 2 where there is no room for its packed encoding; and else what `linsjoar_message` returns.
/// What follows the encoding in the block may have changed.
#[unsafe(no_mangle)]
pub extern "C" fn linsjoar_pack_message(
    framed: &[u8],
    packed: &mut [u8],
    packed_len: &mut usize,
) -> u32
    ensures { PacksMessage DEFAULT_READER_OPTIONS framed.now packed.new packed_len.new result }
{
    pack_message(framed, DEFAULT_READER_OPTIONS, packed, packed_len)
}

/// Packs it as `linsjoar_pack_message` does, within the limits of these options.
#[unsafe(no_mangle)]
pub extern "C" fn linsjoar_pack_message_with_options(
    framed: &[u8],
    options: &LinsjoarOptions,
    packed: &mut [u8],
    packed_len: &mut usize,
) -> u32
    ensures { PacksMessage (options_of options.now) framed.now packed.new packed_len.new result }
{
    pack_message(framed, options.reader_options(), packed, packed_len)
}

fn pack_message(
    framed: &[u8],
    options: ReaderOptions,
    packed: &mut [u8],
    packed_len: &mut usize,
) -> u32
    ensures { PacksMessage options framed.now packed.new packed_len.new result }
{
    *packed_len = 0;
    let segments = match whole_message(framed, options) {
        Ok(segments) => segments,
        Err(error) => return error.kind.number() as u32,
    };
    let table = table_of(framed, &segments);
    let mut encoding = ProvidedBuffer::new(packed);
    match pack_chunks(&mut encoding, table, &segments) {
        Ok(()) => {
            *packed_len = encoding.len();
            0
        }
        Err(error) => error.kind.number() as u32,
    }
}

/// Unpacks the packed message at the front of these bytes into its framed encoding. Counts the
/// bytes of that encoding, and the packed bytes that it takes, so that a caller can step from one
/// message to the next.
///
/// Returns 2 before all else where there is no room for 8 bytes, 9 where there are no packed bytes,
/// and else 0 or the number of the reader's error. What follows the encoding in the block may have
/// changed.
#[unsafe(no_mangle)]
pub extern "C" fn linsjoar_unpack_message(
    packed: &[u8],
    framed: &mut [u8],
    framed_len: &mut usize,
    packed_read: &mut usize,
) -> u32
    ensures { UnpacksMessage DEFAULT_READER_OPTIONS packed.now framed.new framed_len.new
        packed_read.new result }
{
    unpack_message(
        packed,
        DEFAULT_READER_OPTIONS,
        framed,
        framed_len,
        packed_read,
    )
}

/// Unpacks it as `linsjoar_unpack_message` does, within the limits of these options.
#[unsafe(no_mangle)]
pub extern "C" fn linsjoar_unpack_message_with_options(
    packed: &[u8],
    options: &LinsjoarOptions,
    framed: &mut [u8],
    framed_len: &mut usize,
    packed_read: &mut usize,
) -> u32
    ensures { UnpacksMessage (options_of options.now) packed.now framed.new framed_len.new
        packed_read.new result }
{
    unpack_message(
        packed,
        options.reader_options(),
        framed,
        framed_len,
        packed_read,
    )
}

fn unpack_message(
    packed: &[u8],
    options: ReaderOptions,
    framed: &mut [u8],
    framed_len: &mut usize,
    packed_read: &mut usize,
) -> u32
    ensures { UnpacksMessage options packed.now framed.new framed_len.new packed_read.new result }
{
    *framed_len = 0;
    *packed_read = 0;
    let mut source = packed;
    let rules = TableRules::new(Padding::Zero, options);
    match try_read_packed_framed_into(&mut source, rules, framed) {
        Ok(Some(info)) => {
            *framed_len = info.segment_table_length_bytes + info.total_segments_length_bytes;
            *packed_read = packed.len() - source.len();
            0
        }
        Ok(None) => ErrorKind::PrematureEndOfFile.number() as u32,
        Err(error) => error.kind.number() as u32,
    }
}

// The message that these bytes are. Fails where bytes follow it, as for a message that is cut.
fn whole_message<'a>(framed: &'a [u8], options: ReaderOptions) -> Result<NoAllocSliceSegments<'a>>
    ensures whole { IfOk result (λ message. IsMessage options framed.now message.segments) }
    ensures few { IfOk result (λ message. length message.segments < SEGMENTS_COUNT_LIMIT) }
    ensures accepted { (segments : List (List ℕ)) → IsMessage options framed.now segments → IsOk result }
    ensures trailing { (segments : List (List ℕ)) (rest : List ℕ) →
        IsAtFront options framed.now segments rest → 0 < length rest →
        IsErrAnd result (λ error. kind_number error.kind ≡ 6) }
    ensures exact { (kind : ErrorKind) → MessageError options framed.now kind →
        IsErrAnd result (λ error. error.kind ≡ kind) }
{
    let mut rest = framed;
    let segments = NoAllocBufferSegments::from_slice(&mut rest, options)?;
    if !rest.is_empty() {
        let end = framed.len() - rest.len();
        return Err(Error::from_kind(ErrorKind::MessageEndsPrematurely(framed.len(), end)));
    }
    Ok(segments)
}

// The table of the message that these bytes are.
fn table_of<'a>(framed: &'a [u8], segments: &NoAllocSliceSegments<'a>) -> &'a [u8]
    requires whole { (options : ReaderOptions) × IsMessage options framed.now segments.now.segments }
    requires few { length segments.now.segments < SEGMENTS_COUNT_LIMIT }
    ensures table { result.now ≡ zero_padded_table (lengths segments.now.segments) }
    ensures word { 8 ≤ length result.now }
{
    &framed[..8 * (segments.len() / 2 + 1)]
}

// Packs the first word of a table, its other words, and each segment into a sink.
fn pack_chunks<W: Write, S: ReaderSegments>(sink: &mut W, table: &[u8], segments: &S) -> Result<()>
    requires word { 8 ≤ length table.now }
    requires few { length (S.segments segments.now) < 2 ^ 32 }
    ensures { PacksChunks W.Write sink.old sink.new
        (take 8 table.now ∷ drop 8 table.now ∷ S.segments segments.now) result }
{
    pack_into(sink, &table[..8])?;
    pack_into(sink, &table[8..])?;
    pack_each(sink, segments)
}

// Packs each segment into a sink.
fn pack_each<W: Write, S: ReaderSegments>(sink: &mut W, segments: &S) -> Result<()>
    requires { length (S.segments segments.now) < 2 ^ 32 }
    ensures { PacksChunks W.Write sink.old sink.new (S.segments segments.now) result }
{
    let mut index = 0;
    while let Some(segment) = segment_at(segments, index) {
        pack_into(sink, segment)?;
        index += 1;
    }
    Ok(())
}

// The segment at this index; `None` after the last.
fn segment_at<S: ReaderSegments>(segments: &S, index: u32) -> Option<&[u8]>
    ensures here { IfSome result (λ segment.
        slice_get (S.segments segments.now) index ≡ Some segment.now) }
    ensures within { IfSome result (λ segment. index < length (S.segments segments.now)) }
    ensures end { IfNone result (length (S.segments segments.now) ≤ index) }
{
    segments.get_segment(index)
}
