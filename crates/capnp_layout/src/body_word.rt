//! The pointer words to copies of objects.
ghost use Rattle.std.specs.Prelude.{◌≡◌, ◌^◌, ◌<◌};
ghost use Rattle.capnp_layout.specs.Output.{pointer_of_body, list_length};
ghost use Rattle.capnp_layout.specs.declared.object.Body.{Body};

use crate::object::Body;
use crate::pointer::StructSize;
use crate::pointer_word::{POINTER_LIST, STRUCT_LIST, list_word, struct_word};

/// The pointer word to a copy that begins this many words after it.
#[inline(always)]
pub fn pointer_word(copied: Body, offset: u64) -> u64
    requires offset { offset < 2 ^ 29 }
    requires length { list_length copied < 2 ^ 29 }
    ensures { result ≡ pointer_of_body copied offset }
{
    match copied {
        Body::Struct(size) => struct_pointer_word(size, offset),
        Body::Numbers(elements, count) => list_word(offset, elements.code(), count as u64),
        Body::Pointers(count) => list_word(offset, POINTER_LIST, count as u64),
        Body::Structs(elements, _) => list_word(offset, STRUCT_LIST, elements.words()),
    }
}

/// The pointer word to a struct. For a struct of no words the offset is -1: it begins at its own
/// pointer.
#[inline(always)]
pub fn struct_pointer_word(size: StructSize, offset: u64) -> u64
    requires { offset < 2 ^ 29 }
    ensures { result ≡ pointer_of_body (Body.Struct size) offset }
{
    let offset = if size.words() == 0 {
        (1 << 30) - 1
    } else {
        offset
    };
    struct_word(offset, size.data_words, size.pointers)
}
