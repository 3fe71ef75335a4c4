//! The kind of the object at the root, by its pointer word.
ghost use Rattle.std.specs.Prelude.{◌≡◌, ℕ, slice_index_or};
ghost use Rattle.capnp_layout.specs.Prelude.{words_of, Form, pointer, HasRoom};
ghost use Rattle.capnp_build.specs.RootKind.{ShowsRoot};

use capnp_layout::place::word;
use capnp_layout::pointer_word::{LocalShape, local_shape};

/// What a pointer points to, by the kinds for which builders have views.
#[derive(Clone, Copy)]
pub enum RootKind {
    Null,
    /// A list of bytes.
    Bytes(u32),
    /// A list of words.
    Words(u32),
    /// A struct, with its number of data words.
    Struct(u16),
    Other,
}

/// The kind of the object that a pointer word points to.
pub(crate) fn read_pointer_word(word: u64) -> RootKind
    ensures { (form : Form) (n : ℕ) → HasRoom form n → word ≡ pointer form n 0 →
        ShowsRoot result form }
{
    if word == 0 {
        return RootKind::Null;
    }
    match local_shape(word) {
        Some(LocalShape::Struct(size)) => RootKind::Struct(size.data_words),
        Some(LocalShape::Numbers(size, count)) => match size.code() {
            2 => RootKind::Bytes(count),
            5 => RootKind::Words(count),
            _ => RootKind::Other,
        },
        _ => RootKind::Other,
    }
}

/// A word of these bytes; 0 past the last whole one.
pub(crate) fn word_at(bytes: &[u8], index: u32) -> u64
    ensures { result ≡ slice_index_or (words_of bytes.now) index 0 }
{
    word(bytes, index as usize).unwrap_or(0)
}
