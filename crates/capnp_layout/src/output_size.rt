//! Sizes of objects, untrimmed or in canonical form, without trailing zero words.
ghost use Rattle.std.specs.Prelude.{◌≡◌, if◌then◌else◌, ◌+◌, ◌*◌, ◌/◌, ◌≤◌, length};
ghost use Rattle.capnp_layout.specs.Pointer.{words_of};
ghost use Rattle.capnp_layout.specs.Body.{room_of, words_in};
ghost use Rattle.capnp_layout.specs.Output.{output_body_of, least_size, IsNarrower};

use crate::block::most_used;
use crate::object::{Body, Object};
use crate::pointer::{Elements, StructSize};

/// The body of an object's copy: in canonical form without its trailing zero words.
#[inline(always)]
pub fn output_body(object: &Object<'_>, canonical: bool) -> Body
    requires room { object.now.start.word + room_of object.now.body
        ≤ length object.now.segment.now / 8 }
    requires elements { words_in object.now.body ≤ room_of object.now.body }
    ensures narrower { IsNarrower object.now.body result }
    ensures body { result ≡ output_body_of canonical
        (words_of object.now.segment.now) object.now.start.word object.now.body }
{
    let start = object.start.word;
    match object.body {
        Body::Struct(size) => Body::Struct(output_size(object.segment, start, size, 1, canonical)),
        Body::Structs(elements, words) => Body::Structs(
            Elements {
                size: output_size(
                    object.segment,
                    start + 1,
                    elements.size,
                    elements.count,
                    canonical,
                ),
                count: elements.count,
            },
            words,
        ),
        other => other,
    }
}

/// The size of each of some consecutive structs from a word on: in canonical form the least size
/// that all of them fit, else the size that they have.
#[inline(always)]
pub fn output_size(
    segment: &[u8],
    start: usize,
    size: StructSize,
    count: u32,
    canonical: bool,
) -> StructSize
    requires { start + count * (size.data_words + size.pointers) ≤ length segment.now / 8 }
    ensures size { result ≡ (if canonical then least_size (words_of segment.now) start size count
        else size) }
    ensures data { result.data_words ≤ size.data_words }
    ensures pointers { result.pointers ≤ size.pointers }
{
    if !canonical {
        return size;
    }
    let data_words = size.data_words as usize;
    let pointers = size.pointers as usize;
    let step = data_words + pointers;
    StructSize {
        data_words: most_used(segment, start, data_words, step, count) as u16,
        pointers: most_used(segment, start + data_words, pointers, step, count) as u16,
    }
}
