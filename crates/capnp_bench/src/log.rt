//! Records are made, appended to logs, and read back from the logs.

use crate::digest::Digest;
use crate::random::Random;
use capnp::any_struct::{self, StructReader};
use capnp::message::{
    Allocator, Builder, DEFAULT_READER_OPTIONS, Reader, ReaderSegments, SingleSegmentAllocator,
};
use capnp::serialize::{OwnedSegments, Padding};
use capnp::{Result, primitive_list, serialize, serialize_packed, text};
use capnp_values::{Field, NoFields, NumberList, StructValue};
use std::alloc::Global;

/// A struct of three numbers, two texts and a list of numbers.
type Record<'a> = StructValue<3, Field<text::Owned, &'a str, AfterName<'a>>>;

type AfterName<'a> = Field<text::Owned, &'a str, AfterNote<'a>>;

type AfterNote<'a> = Field<primitive_list::Owned<u32>, NumberList<'a, u32>, NoFields>;

const NAMES: [&str; 8] = [
    "Ann",
    "Bartholomew",
    "Carla",
    "Dmitri Ivanov",
    "Eve",
    "Fiona",
    "Giovanni",
    "Hu",
];

const NOTES: [&str; 8] = [
    "ok",
    "retry after the next window",
    "GET /index.html HTTP/1.1",
    "connection reset by peer",
    "",
    "a somewhat longer note, as people write them",
    "timeout",
    "user 4711 logged in from 192.0.2.7",
];

/// Room for a record in words, for messages without memory.
const REGION_BYTES: usize = 512;

/// Makes and appends this many records, framed and packed, and reads the logs.
pub fn digest_of(alloc: Global, seed: u32, count: u32) -> Result<u64> {
    let mut framed = Vec::new(alloc);
    let mut packed = Vec::new(alloc);
    append(alloc, seed, count, &mut framed, &mut packed)?;
    let mut digest = Digest::new();
    digest.add_bytes(&packed);
    read_packed(alloc, packed.as_slice(), &mut digest)?;
    read_framed(alloc, framed.as_slice(), &mut digest)?;
    read_packed_reusing(alloc, packed.as_slice(), &mut digest)?;
    read_framed_reusing(alloc, framed.as_slice(), &mut digest)?;
    Ok(digest.value())
}

/// Every other record is built in a caller-provided region, the others on the heap.
fn append(
    alloc: Global,
    seed: u32,
    count: u32,
    framed: &mut Vec<u8>,
    packed: &mut Vec<u8>,
) -> Result<()> {
    let mut random = Random::new(seed);
    let mut region = [0; REGION_BYTES];
    for id in 0..count {
        let samples = [id, id / 7, id / 3, 5, 1000, 7, 8, 65_536, 9, 10, 11, 12];
        let length = if random.below(4) == 0 {
            1 + random.below(12) as usize
        } else {
            0
        };
        let record = record(&mut random, id, &samples[..length]);
        if id % 2 == 0 {
            let message = Builder::new_default(alloc);
            append_record(alloc, message, record, framed, packed)?;
        } else {
            let message = Builder::new(alloc, SingleSegmentAllocator::new(&mut region));
            append_record(alloc, message, record, framed, packed)?;
        }
    }
    Ok(())
}

fn record<'a>(random: &mut Random, id: u32, samples: &'a [u32]) -> Record<'a> {
    let name = NAMES[(random.next() >> 61) as usize];
    let note = NOTES[(random.next() >> 61) as usize];
    let words = [id as u64, 1_700_000_000 + id as u64, random.below(200)];
    let list = Field::new(NumberList::new(samples), NoFields);
    StructValue::new(words, Field::new(name, Field::new(note, list)))
}

fn append_record<A: Allocator + Drop>(
    alloc: Global,
    mut message: Builder<A>,
    record: Record<'_>,
    framed: &mut Vec<u8>,
    packed: &mut Vec<u8>,
) -> Result<()> {
    message.set_root::<any_struct::Owned, Record<'_>>(record)?;
    serialize::write_message(alloc, framed, &message)?;
    serialize_packed::write_message(alloc, packed, &message)
}

fn read_packed(alloc: Global, packed: &[u8], digest: &mut Digest) -> Result<()> {
    let mut source = packed;
    let options = DEFAULT_READER_OPTIONS;
    for _ in 0..u64::MAX {
        let Some(message) = serialize_packed::try_read_message(alloc, &mut source, options)? else {
            break;
        };
        add_record(&message, digest)?;
    }
    Ok(())
}

fn read_framed(alloc: Global, framed: &[u8], digest: &mut Digest) -> Result<()> {
    let mut source = framed;
    let options = DEFAULT_READER_OPTIONS;
    for _ in 0..u64::MAX {
        let Some(message) = serialize::try_read_message(alloc, &mut source, options)? else {
            break;
        };
        add_record(&message, digest)?;
    }
    Ok(())
}

fn read_packed_reusing(alloc: Global, packed: &[u8], digest: &mut Digest) -> Result<()> {
    let mut source = packed;
    let options = DEFAULT_READER_OPTIONS;
    let mut spare = OwnedSegments::empty(alloc);
    for _ in 0..u64::MAX {
        let next = serialize_packed::try_read_message_reusing(
            &mut source,
            Padding::Zero,
            options,
            spare,
        )?;
        let Some(message) = next else {
            break;
        };
        add_number(&message, digest)?;
        spare = message.into_segments();
    }
    Ok(())
}

fn read_framed_reusing(alloc: Global, framed: &[u8], digest: &mut Digest) -> Result<()> {
    let mut source = framed;
    let options = DEFAULT_READER_OPTIONS;
    let mut spare = OwnedSegments::empty(alloc);
    for _ in 0..u64::MAX {
        let next = serialize::try_read_message_reusing(&mut source, Padding::Zero, options, spare)?;
        let Some(message) = next else {
            break;
        };
        add_number(&message, digest)?;
        spare = message.into_segments();
    }
    Ok(())
}

/// Adds all that a record holds.
pub fn add_record<S: ReaderSegments>(message: &Reader<S>, digest: &mut Digest) -> Result<()> {
    let root: StructReader<'_, S> = message.get_root()?;
    digest.add(root.get_data_field(0));
    digest.add(root.get_data_field(1));
    digest.add(root.get_data_field(2));
    let name: text::Reader<'_> = root.get_pointer(0).get_as()?;
    digest.add_bytes(name.as_bytes());
    let note: text::Reader<'_> = root.get_pointer(1).get_as()?;
    digest.add_bytes(note.as_bytes());
    let samples: primitive_list::Reader<'_, u32> = root.get_pointer(2).get_as()?;
    for index in 0..samples.len() {
        digest.add(samples.get(index) as u64);
    }
    Ok(())
}

/// Adds the first number of a record.
fn add_number<S: ReaderSegments>(message: &Reader<S>, digest: &mut Digest) -> Result<()> {
    let root: StructReader<'_, S> = message.get_root()?;
    digest.add(root.get_data_field(0));
    Ok(())
}
