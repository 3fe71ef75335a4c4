//! What a benchmark does with one request.
use crate::random::Random;
use capnp::Result;
use capnp::message::{Reader, ReaderSegments};
use capnp::orphans::Orphanage;
use std::alloc::Global;

/// Requests, their responses, and what a response has to say. Its value keeps the memory in which
/// lists are prepared.
pub trait Benchmark: Sized + Drop {
    /// A benchmark with no memory yet.
    fn new(alloc: Global) -> Self;

    /// Builds a request of numbers that are drawn, and returns what its response has to say. Fails
    /// when out of memory, and as `Orphanage` does where the request does not fit into a segment.
    fn request(&mut self, random: &mut Random, objects: &mut Orphanage) -> Result<u64>;

    /// Builds the response to a request. Fails where the request can't be read, and as `request`
    /// does.
    fn respond<S: ReaderSegments>(
        &mut self,
        request: &Reader<S>,
        objects: &mut Orphanage,
    ) -> Result<()>;

    /// What a response says. Fails where it can't be read.
    fn said<S: ReaderSegments>(&self, response: &Reader<S>) -> Result<u64>;
}
