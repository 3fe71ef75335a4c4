//! What a run reads and shows.
use capnp::Way;
use capnp::message::ReaderOptions;

/// The format of a file's messages.
#[derive(Clone, Copy)]
pub enum Reading {
    Framed,
    Packed,
    /// The format that the bytes at the front have.
    Detected,
}

/// The form in which messages are shown.
#[derive(Clone, Copy)]
pub enum Form {
    /// A line for each message, and what was asked for below it.
    Lines,
    /// A JSON object for each message.
    Json,
    /// A page with a drawing of each message.
    Html,
    /// Only the number of messages.
    Count,
    /// The messages themselves, in the other format.
    Converted(Way),
}

/// What a run reads and shows.
#[derive(Clone, Copy)]
pub struct Settings {
    pub reading: Reading,
    pub form: Form,
    /// Whether the hash of the canonical form is shown.
    pub has_hash: bool,
    /// Whether the objects are shown.
    pub has_tree: bool,
    /// How many messages of each file are shown at most.
    pub first: u64,
    pub limits: ReaderOptions,
    /// Whether standard error says how far the reading of each large input is.
    pub has_progress: bool,
}
