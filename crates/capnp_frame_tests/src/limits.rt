//! Traversal limits, in words, and rules of tables.
use capnp_frame::serialize::{Padding, TableRules};

/// No limit.
pub const NO_LIMIT: Option<usize> = None;

/// The limit of the default options.
pub const DEFAULT_LIMIT: Option<usize> = Some(8 * 1024 * 1024);

/// Zeros alone as padding, and the limit of the default options.
pub const STRICT: TableRules = TableRules {
    padding: Padding::Zero,
    limit_in_words: DEFAULT_LIMIT,
};
