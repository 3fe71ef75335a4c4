//! What views read of objects.
ghost use Rattle.std.specs.Prelude.{◌≡◌, ◌+◌, ◌*◌, ◌/◌, ◌≤◌, length, MatchResult};
ghost use Rattle.capnp_frame.specs.declared.error.ErrorKind.{ErrorKind};
ghost use Rattle.capnp_layout.specs.Prelude.{words_of, elements, code_of, width, words_for, numbers, room_of};
ghost use Rattle.capnp_wire.specs.Readers.{form_of};
ghost use Rattle.capnp_wire.specs.Views.{NumbersFormError};

use capnp_frame::{Error, ErrorKind, Result};
use capnp_layout::element_size::ElementSize;
use capnp_layout::object::Object;

/// The error for an object that is of another kind than was asked for: `WrongPointerKind`.
pub(crate) fn wrong_kind() -> Error
    ensures { result.kind ≡ ErrorKind.WrongPointerKind }
{
    Error::from_kind(ErrorKind::WrongPointerKind)
}

/// Returns its argument, which the compiler then keeps in registers.
///
/// Speed: a value that is built again keeps the fast path's result in registers. The value that
/// `enter` returns in memory would not (`tools/time reading`).
#[inline(always)]
pub(crate) fn by_value<T>(entered: Result<T>) -> Result<T>
    ensures { result ≡ entered }
{
    match entered {
        Ok(view) => Ok(view),
        Err(error) => Err(error),
    }
}

/// The bytes of a list of bytes.
pub(crate) fn object_bytes<'a>(object: &Object<'a>) -> Result<&'a [u8]>
    requires { object.now.start.word + room_of object.now.body ≤ length object.now.segment.now / 8 }
    ensures { MatchResult result (λ bytes. form_of object.now ≡ numbers 2 bytes.now)
        (λ error. NumbersFormError 2 (form_of object.now) error.kind) }
{
    match object.body.count_of(ElementSize::Byte) {
        Some(count) => Ok(bytes_at(object.segment, object.start.word, count)),
        None => Err(wrong_kind()),
    }
}

/// The elements of a list of numbers of this size, as its words.
pub(crate) fn object_numbers<'a>(
    object: &Object<'a>,
    size: ElementSize,
) -> Result<EnteredNumbers<'a>>
    requires { object.now.start.word + room_of object.now.body ≤ length object.now.segment.now / 8 }
    ensures { let code = code_of size in MatchResult result
        (λ list. (form_of object.now
        ≡ numbers code (elements (words_of list.bytes.now) 0 code list.count))
        × (length list.bytes.now ≡ 8 * words_for list.count (width code)))
        (λ error. NumbersFormError code (form_of object.now) error.kind) }
{
    match object.body.count_of(size) {
        Some(count) => Ok(EnteredNumbers {
            bytes: words_at(object.segment, object.start.word, size, count),
            count,
        }),
        None => Err(wrong_kind()),
    }
}

/// The words of a list of numbers that was entered, and the number of its elements.
#[derive(Drop)]
pub(crate) struct EnteredNumbers<'a> {
    pub bytes: &'a [u8],
    pub count: u32,
}

// This many bytes, from a word of a segment on.
fn bytes_at(segment: &[u8], start: usize, count: u32) -> &[u8]
    requires { start + words_for count 8 ≤ length segment.now / 8 }
    ensures { result.now ≡ elements (words_of segment.now) start 2 count }
{
    let begin = 8 * start;
    &segment[begin..begin + count as usize]
}

/// The bytes of the words of a list of numbers that begins at a word of a segment.
pub(crate) fn words_at(segment: &[u8], start: usize, size: ElementSize, count: u32) -> &[u8]
    requires { start + words_for count (width (code_of size)) ≤ length segment.now / 8 }
    ensures elements { elements (words_of result.now) 0 (code_of size) count
        ≡ elements (words_of segment.now) start (code_of size) count }
    ensures len { length result.now ≡ 8 * words_for count (width (code_of size)) }
{
    let begin = 8 * start;
    &segment[begin..begin + 8 * size.words_of_list(count) as usize]
}
