//! What a reader accepts.
ghost use Rattle.std.specs.Prelude.{◌≡◌, pos};
ghost use Rattle.capnp_frame.specs.Limits.{default_limit};
ghost use Rattle.capnp_frame.specs.declared.message.options.TheConstants.{DEFAULT_READER_OPTIONS};

/// Limits against messages that would cost a reader too much.
///
/// ```
/// let mut options = ReaderOptions::new();
/// let _ = options.nesting_limit(8).traversal_limit_in_words(Some(2));
/// let Err(error) = serialize::read_message(alloc, &mut three_words, options) else {
///     panic!(rt; "a message past the limit");
/// };
/// assert_eq!(rt; error.kind, ErrorKind::MessageTooLarge(3));
/// ```
#[derive(Clone, Copy, Debug)]
pub struct ReaderOptions {
    /// The most words that a message may have, and that readers of it may visit. Many pointers may
    /// point to the same words, so a limit on a message's size alone would not do. `None` sets no
    /// limit.
    pub traversal_limit_in_words: Option<usize>,

    /// How deep objects may be nested. The limit keeps a message from using up the machine's stack.
    pub nesting_limit: i32,
}

/// 8 * 1024 * 1024 words, which are 64 MiB, and a nesting depth of 64.
pub const DEFAULT_READER_OPTIONS: ReaderOptions = ReaderOptions {
    traversal_limit_in_words: Some(8 * 1024 * 1024),
    nesting_limit: 64,
};

impl ReaderOptions {
    /// The default options.
    pub const fn new() -> ReaderOptions
        ensures words { result.traversal_limit_in_words ≡ default_limit }
        ensures nesting_limit { result.nesting_limit ≡ pos 64 }
        ensures default { result ≡ DEFAULT_READER_OPTIONS }
    {
        DEFAULT_READER_OPTIONS
    }

    /// Sets how deep objects may be nested.
    pub fn nesting_limit(&mut self, value: i32) -> &mut Self
        ensures same { result.ghost_name ≡ self.entry.ghost_name }
        ensures set { result.now ≡ record self.old { nesting_limit = value } }
    {
        self.nesting_limit = value;
        self
    }

    /// Sets how many words a message may have, and a reader visit.
    pub fn traversal_limit_in_words(&mut self, value: Option<usize>) -> &mut Self
        ensures same { result.ghost_name ≡ self.entry.ghost_name }
        ensures set { result.now ≡ record self.old { traversal_limit_in_words = value } }
    {
        self.traversal_limit_in_words = value;
        self
    }
}

impl Default for ReaderOptions {
    ghost is_default = { λ options. options ≡ DEFAULT_READER_OPTIONS };

    fn default() -> ReaderOptions {
        ReaderOptions::new()
    }
}
