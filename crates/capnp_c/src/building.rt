//! Messages that are built from C, from the bottom up, in a caller-provided region.
//!
//! The message is at the front of the region: its table, and the one segment that it has. A builder
//! and an orphan are numbers that C keeps between the calls. Nothing that one call proved of them is
//! known in the next one, so each call takes any numbers and any bytes. Whatever the bytes are, as
//! many of them as a builder says are a segment, to which objects are appended. An orphan that no
//! call wrote is a pointer to something else, or out of bounds, which readers find out.
mod add;
mod blobs;
mod builder;
mod copies;
mod lists;
mod structs;
