//! Objects that are built.
ghost use Rattle.std.specs.Prelude.{◌≡◌, ℕ, ◌+◌, ◌*◌, ◌^◌, ◌<◌, ◌≤◌};
ghost use Rattle.capnp_build.specs.NewBody.{words_of_body, Fits, body_pointer_word};

use capnp_layout::body_word::struct_pointer_word;
use capnp_layout::pointer::StructSize;
use capnp_layout::pointer_word::list_word;

/// What a new object is: one without pointers, whose words are zero.
#[derive(Clone, Copy)]
pub enum NewBody {
    /// A list of bytes.
    Bytes(u32),
    /// A list of words.
    Words(u32),
    /// A struct of data words, without pointers.
    Struct(u32),
}

impl NewBody {
    pub fn words(self) -> u32
        requires { Fits self }
        ensures words { result ≡ words_of_body self }
        ensures bound { result < 2 ^ 29 }
    {
        match self {
            NewBody::Bytes(n) => n.div_ceil(8),
            NewBody::Words(n) => n,
            NewBody::Struct(d) => d,
        }
    }

    /// The pointer to it, for an object that begins this many words after the pointer.
    pub fn pointer_word(self, offset: u32) -> u64
        requires fits { Fits self }
        requires local { offset < 2 ^ 29 }
        ensures word { result ≡ body_pointer_word offset self }
    {
        match self {
            NewBody::Bytes(n) => list_word(offset as u64, 2, n as u64),
            NewBody::Words(n) => list_word(offset as u64, 5, n as u64),
            NewBody::Struct(d) => {
                let size = StructSize {
                    data_words: d as u16,
                    pointers: 0,
                };
                struct_pointer_word(size, offset as u64)
            }
        }
    }
}
