//! The words of an object except for its pointers.
ghost use Rattle.std.specs.Prelude.{◌≡◌, ◌+◌, ◌-◌, ◌*◌, ◌/◌, ◌^◌, ◌<◌, ◌≤◌, length};
ghost use Rattle.capnp_layout.specs.Prelude.{words_of, elements_from, room_of, words_in, put_data_sections, IsNarrower};
ghost use Rattle.capnp_wire.specs.Copy.{put_own, element_count};

use capnp_layout::block::{BlockItem, put_elements, put_word, put_words};
use capnp_layout::number_list::NumberList;
use capnp_layout::object::{Body, Object};
use capnp_layout::pointer::Elements;
use capnp_layout::pointer_word::struct_word;

/// Puts the words of a copy into a block, except for its pointers.
#[inline(always)]
pub(crate) fn put_data_words<T: BlockItem>(
    object: &Object<'_>,
    copied: Body,
    block: &mut [T],
    next: usize,
)
    requires room { object.now.start.word + room_of object.now.body
        ≤ length object.now.segment.now / 8 }
    requires elements { words_in object.now.body ≤ room_of object.now.body }
    requires narrower { IsNarrower object.now.body copied }
    requires many { element_count copied < 2 ^ 30 }
    requires fits { next + words_in copied ≤ length (T.as_words block.old) }
    requires bound { length (T.as_words block.old) < 2 ^ 29 }
    ensures words { T.as_words block.new
        ≡ put_own (words_of object.now.segment.now) object.now.start.word object.now.body copied
        next (T.as_words block.old) }
    ensures len { length (T.as_words block.new) ≡ length (T.as_words block.old) }
{
    let segment = object.segment;
    let start = object.start.word;
    match copied {
        Body::Struct(size) => put_words(block, next, segment, start, size.data_words as usize),
        Body::Numbers(size, count) => {
            let list = NumberList {
                segment,
                start: object.start,
                size,
                count,
                bits: size.bits_of_list(count),
            };
            put_elements(block, next, &list);
        }
        Body::Pointers(_) => {}
        Body::Structs(elements, _) => {
            put_word(
                block,
                next,
                struct_word(
                    elements.count as u64,
                    elements.size.data_words,
                    elements.size.pointers,
                ),
            );
            if let Body::Structs(from, _) = object.body {
                put_data_sections(
                    block,
                    next + 1,
                    elements,
                    segment,
                    start + 1,
                    from.size.words() as usize,
                );
            }
        }
    }
}

/// Puts the data sections of structs into a block, with room for the pointers after each of them.
pub(crate) fn put_data_sections<T: BlockItem>(
    block: &mut [T],
    next: usize,
    elements: Elements,
    segment: &[u8],
    start: usize,
    step: usize,
)
    requires inside { elements.size.data_words ≤ step }
    requires small { step < 2 ^ 32 }
    requires there { start + elements.count * step ≤ length segment.now / 8 }
    requires room { next + elements.count * (elements.size.data_words + elements.size.pointers)
        ≤ length (T.as_words block.old) }
    requires bound { length (T.as_words block.old) < 2 ^ 29 }
    ensures words { T.as_words block.new ≡ put_data_sections next elements.size.pointers
        (elements_from (words_of segment.now) start elements.size.data_words
        (step - elements.size.data_words) elements.count) (T.as_words block.old) }
    ensures len { length (T.as_words block.new) ≡ length (T.as_words block.old) }
{
    let data_words = elements.size.data_words as usize;
    if data_words == 0 {
        return;
    }
    let mut from = start;
    let mut to = next;
    'sections: for _section in 0..elements.count {
        put_words(block, to, segment, from, data_words);
        from += step;
        to += elements.size.words() as usize;
    }
}
