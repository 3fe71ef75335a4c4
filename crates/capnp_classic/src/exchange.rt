//! How messages are passed: as objects in memory, as bytes, or packed.
use crate::benchmark::Benchmark;
use crate::random::Random;
use crate::tally::Tally;
use capnp::message::{DEFAULT_READER_OPTIONS, Reader, ReaderSegments};
use capnp::orphans::Orphanage;
use capnp::serialize::{self, OwnedSegments, Padding};
use capnp::{Error, ErrorKind, Result, serialize_packed};
use std::alloc::Global;
use std::mem;

/// How requests and responses are passed.
#[derive(Clone, Copy)]
pub enum Mode {
    /// Each is read where it was built.
    Objects,
    /// Each is written framed, and read where it was written.
    Bytes,
    /// Each is written packed, and unpacked.
    Packed,
}

/// Where requests and responses are built, written and unpacked.
#[derive(Drop)]
pub struct Exchange<B: Benchmark> {
    alloc: Global,
    benchmark: B,
    request: Orphanage,
    response: Orphanage,
    request_stream: Vec<u8>,
    response_stream: Vec<u8>,
    request_unpacked: OwnedSegments,
    response_unpacked: OwnedSegments,
}

impl<B: Benchmark> Exchange<B> {
    /// An exchange whose memory holds no message yet. Fails with `OutOfMemory` alone.
    pub fn new(alloc: Global) -> Result<Exchange<B>> {
        let request = Orphanage::new(alloc)?;
        let response = Orphanage::new(alloc)?;
        Ok(Exchange {
            alloc,
            benchmark: B::new(alloc),
            request,
            response,
            request_stream: Vec::new(alloc),
            response_stream: Vec::new(alloc),
            request_unpacked: OwnedSegments::empty(alloc),
            response_unpacked: OwnedSegments::empty(alloc),
        })
    }

    /// Takes new memory for the messages that come. A packed stream keeps its own, as it does in
    /// the programs that this one is compared with. Fails with `OutOfMemory` alone.
    pub fn renew(&mut self, mode: Mode) -> Result<()> {
        self.benchmark = B::new(self.alloc);
        self.request = Orphanage::new(self.alloc)?;
        self.response = Orphanage::new(self.alloc)?;
        self.request_unpacked = OwnedSegments::empty(self.alloc);
        self.response_unpacked = OwnedSegments::empty(self.alloc);
        if !matches!(mode, Mode::Packed) {
            self.request_stream = Vec::new(self.alloc);
            self.response_stream = Vec::new(self.alloc);
        }
        Ok(())
    }

    /// Passes a request and its response, in the memory of the ones before. Fails where a message
    /// can't be built, written or read.
    pub fn pass(&mut self, mode: Mode, random: &mut Random, tally: &mut Tally) -> Result<()> {
        self.request.clear();
        self.response.clear();
        let expected = self.benchmark.request(random, &mut self.request)?;
        let said = match mode {
            Mode::Objects => self.pass_objects(tally)?,
            Mode::Bytes => self.pass_bytes(tally)?,
            Mode::Packed => self.pass_packed(tally)?,
        };
        tally.count(self.request.bytes());
        tally.count(self.response.bytes());
        tally.add(said, expected);
        Ok(())
    }

    fn pass_objects(&mut self, tally: &mut Tally) -> Result<u64> {
        let request = Reader::new(&self.request, DEFAULT_READER_OPTIONS);
        respond(&mut self.benchmark, &request, &mut self.response, tally)?;
        let response = Reader::new(&self.response, DEFAULT_READER_OPTIONS);
        said(&self.benchmark, &response, tally)
    }

    fn pass_bytes(&mut self, tally: &mut Tally) -> Result<u64> {
        write_framed(self.alloc, &mut self.request_stream, &self.request)?;
        let mut unread = self.request_stream.as_slice();
        let request = serialize::read_message_from_flat_slice_no_alloc(
            &mut unread,
            DEFAULT_READER_OPTIONS,
        )?;
        respond(&mut self.benchmark, &request, &mut self.response, tally)?;
        write_framed(self.alloc, &mut self.response_stream, &self.response)?;
        let mut unread = self.response_stream.as_slice();
        let response = serialize::read_message_from_flat_slice_no_alloc(
            &mut unread,
            DEFAULT_READER_OPTIONS,
        )?;
        said(&self.benchmark, &response, tally)
    }

    // Unpacks each message into the memory of the one before.
    fn pass_packed(&mut self, tally: &mut Tally) -> Result<u64> {
        self.request_stream.clear();
        serialize_packed::write_message(self.alloc, &mut self.request_stream, &self.request)?;
        let spare = mem::replace(&mut self.request_unpacked, OwnedSegments::empty(self.alloc));
        let request = unpacked(self.request_stream.as_slice(), spare)?;
        respond(&mut self.benchmark, &request, &mut self.response, tally)?;
        self.request_unpacked = request.into_segments();
        self.response_stream.clear();
        serialize_packed::write_message(self.alloc, &mut self.response_stream, &self.response)?;
        let spare = mem::replace(
            &mut self.response_unpacked,
            OwnedSegments::empty(self.alloc),
        );
        let response = unpacked(self.response_stream.as_slice(), spare)?;
        let value = said(&self.benchmark, &response, tally)?;
        self.response_unpacked = response.into_segments();
        Ok(value)
    }
}

// Writes a message as the only one of a stream, which asks for memory at most once.
fn write_framed(alloc: Global, stream: &mut Vec<u8>, message: &Orphanage) -> Result<()> {
    stream.clear();
    let words = serialize::compute_serialized_size_in_words(message)?;
    stream.reserve(words.saturating_mul(8))?;
    serialize::write_message(alloc, stream, message)
}

// The packed message at the front of a stream, in the memory of an earlier one.
fn unpacked(stream: &[u8], spare: OwnedSegments) -> Result<Reader<OwnedSegments>> {
    let mut unread = stream;
    let options = DEFAULT_READER_OPTIONS;
    match serialize_packed::try_read_message_reusing(&mut unread, Padding::Zero, options, spare)? {
        Some(message) => Ok(message),
        None => Err(Error::from_kind(ErrorKind::PrematureEndOfFile)),
    }
}

fn respond<B: Benchmark, S: ReaderSegments>(
    benchmark: &mut B,
    request: &Reader<S>,
    response: &mut Orphanage,
    tally: &mut Tally,
) -> Result<()> {
    tally.write(request)?;
    benchmark.respond(request, response)
}

fn said<B: Benchmark, S: ReaderSegments>(
    benchmark: &B,
    response: &Reader<S>,
    tally: &mut Tally,
) -> Result<u64> {
    tally.write(response)?;
    benchmark.said(response)
}
