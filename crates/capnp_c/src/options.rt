//! What a reader accepts, as C passes it.
ghost use Rattle.std.specs.Prelude.{◌≡◌};
ghost use Rattle.capnp_c.specs.Options.{options_of};

use capnp_frame::message::ReaderOptions;

/// Limits against messages that would cost a reader too much.
#[repr(C)]
#[derive(Clone, Copy)]
pub struct LinsjoarOptions {
    /// The most words that a message may have, and that a walk over its objects may visit.
    /// `usize::MAX` sets no limit.
    pub traversal_limit_in_words: usize,
    /// How deep objects may be nested. A limit below 0 is the same as 0.
    pub nesting_limit: i32,
}

impl LinsjoarOptions {
    // The limits as readers take them.
    pub(crate) fn reader_options(&self) -> ReaderOptions
        ensures { result ≡ options_of self.now }
    {
        ReaderOptions {
            traversal_limit_in_words: match self.traversal_limit_in_words {
                usize::MAX => None,
                words => Some(words),
            },
            nesting_limit: self.nesting_limit,
        }
    }
}
