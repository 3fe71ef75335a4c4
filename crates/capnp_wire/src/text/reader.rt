//! Readers of `Text`.
ghost use Rattle.std.specs.Prelude.{◌≡◌, ◌↔◌, ◌+◌, ◌/◌, ◌≤◌, ◌++◌, ◌∷◌, [], ℕ, List, length, IsTrue, MatchResult, MatchOption};
ghost use Rattle.std.specs.Str.{IsUtf8, IsValidUpTo, valid_up_to};
ghost use Rattle.capnp_layout.specs.Prelude.{words_of, room_of};
ghost use Rattle.capnp_wire.specs.Views.{HasSegment, IsViewOf, Accepts, Reads, ViewError, FormError, IsText, TakesText, TextFormError};
ghost use Rattle.capnp_wire.specs.Readers.{pointer_of, form_of};

use crate::any_pointer;
use crate::any_pointer::ObjectKind;
use crate::object_content::object_bytes;
use crate::object_view::{ObjectView, read};
use crate::traits::{FromPointerInSegment, FromPointerReader};
use capnp_frame::message::ReaderSegments;
use capnp_frame::{Error, ErrorKind, Result};
use capnp_layout::element_size::ElementSize;
use capnp_layout::object::Object;
use std::str::{Utf8Error, from_utf8};

/// A `Text` in a message, by its bytes.
///
/// ```
/// let greeting: text::Reader<'_> = message.get_root()?;
/// assert!(rt; greeting.is("Hello, World!"));
/// assert_eq!(rt; greeting.len(), 13);
/// assert_eq!(rt; greeting.to_str()?, "Hello, World!");
/// ```
#[derive(Clone, Copy)]
pub struct Reader<'a> {
    pub(crate) bytes: &'a [u8],
}

impl<'a> Reader<'a> {
    /// The bytes, without the zero byte that ends them in the message.
    pub fn as_bytes(&self) -> &'a [u8]
        ensures { result.now ≡ self.now.bytes.now }
    {
        self.bytes
    }

    /// The number of bytes.
    pub fn len(&self) -> usize
        ensures { result ≡ length self.now.bytes.now }
    {
        self.bytes.len()
    }

    /// Whether there are no bytes.
    pub fn is_empty(&self) -> bool
        ensures { IsTrue result ↔ (self.now.bytes.now ≡ []) }
    {
        self.bytes.is_empty()
    }

    /// The text as a `str`.
    ///
    /// Fails where the bytes aren't UTF-8; the error says how many bytes at the front are. Writers
    /// should write only UTF-8 ("Blobs"), but no reader tests that unasked.
    pub fn to_str(&self) -> std::result::Result<&'a str, Utf8Error>
        ensures { MatchResult result
            (λ text. (text.now ≡ self.now.bytes.now) × IsUtf8 self.now.bytes.now)
            (λ error. ¬ (IsUtf8 self.now.bytes.now)
            × IsValidUpTo self.now.bytes.now (valid_up_to error)) }
    {
        from_utf8(self.bytes)
    }

    /// Whether the text is this one, byte by byte.
    pub fn is(&self, text: &str) -> bool
        ensures { IsTrue result ↔ (self.now.bytes.now ≡ text.now) }
    {
        self.bytes == text.as_bytes()
    }
}

// Null is empty; a list of bytes that ends with a zero byte shows the bytes before it, and one that
// doesn't fails with `TextNotTerminated`. Any other object fails with `WrongPointerKind`.
impl<'a: 'v, 'v, S: ReaderSegments> FromPointerReader<'a, S> for Reader<'v> {
    ghost shows = { λ pointer view. Reads pointer (λ form. IsText form view.bytes.now) };

    ghost accepts = { λ pointer. Accepts pointer TakesText };

    ghost fails = { λ pointer kind. ViewError pointer TextFormError kind };

    ghost form_error = { λ pointer kind. FormError pointer TextFormError kind };

    #[inline(always)]
    fn get_from_pointer(reader: any_pointer::Reader<'a, S>) -> Result<Self>
        ensures { let pointer = pointer_of S.segments reader.entry in IsViewOf pointer
            (λ view. Reads pointer (λ form. IsText form view.bytes.now))
            (Accepts pointer TakesText) (ViewError pointer TextFormError)
            (FormError pointer TextFormError) result }
    {
        read(&reader, None)
    }
}

impl<'a: 'v, 'v, S: ReaderSegments> FromPointerInSegment<'a, S> for Reader<'v> {
    #[inline(always)]
    fn get_from_segment(reader: any_pointer::Reader<'a, S>, segment: &'a [u8]) -> Result<Self>
        requires { HasSegment (pointer_of S.segments reader) (words_of segment.now) }
        ensures { let pointer = pointer_of S.segments reader.entry in IsViewOf pointer
            (λ view. Reads pointer (λ form. IsText form view.bytes.now))
            (Accepts pointer TakesText) (ViewError pointer TextFormError)
            (FormError pointer TextFormError) result }
    {
        read(&reader, Some(segment))
    }
}

impl<'a: 'v, 'v, S: ReaderSegments> ObjectView<'a, S> for Reader<'v> {
    ghost use Rattle.std.proofs.Common.{inl};

    ghost shows = { λ pointer view. Reads pointer (λ form. IsText form view.bytes.now) };

    ghost fails = { λ pointer kind. ViewError pointer TextFormError kind };

    #[inline(always)]
    fn kind() -> ObjectKind {
        ObjectKind::Numbers(ElementSize::Byte)
    }

    #[inline(always)]
    fn of_null(_reader: &any_pointer::Reader<'a, S>) -> Self {
        Reader { bytes: &[] }
    }

    #[inline(always)]
    fn of_object(_reader: &any_pointer::Reader<'a, S>, object: &Object<'a>) -> Result<Self> {
        text_in(object)
    }

    ghost unread = { λ pointer kind error. inl error };
}

// The `Text` that an object is.
#[inline(always)]
fn text_in<'a>(object: &Object<'a>) -> Result<Reader<'a>>
    requires { object.now.start.word + room_of object.now.body
        ≤ length object.now.segment.now / 8 }
    ensures { MatchResult result (λ view. IsText (form_of object.now) view.bytes.now)
        (λ error. TextFormError (form_of object.now) error.kind) }
{
    let bytes = object_bytes(object)?;
    match before_zero(bytes) {
        Some(bytes) => Ok(Reader { bytes }),
        None => Err(Error::from_kind(ErrorKind::TextNotTerminated)),
    }
}

// The bytes in front of a zero byte at the end; `None` where there is none.
fn before_zero(bytes: &[u8]) -> Option<&[u8]>
    ensures { MatchOption result ((text : List ℕ) → bytes.now ≡ text ++ 0 ∷ [] → ⊥)
        (λ text. bytes.now ≡ text.now ++ 0 ∷ []) }
{
    let Some(end) = bytes.len().checked_sub(1) else {
        return None;
    };
    let last = bytes[end];
    if last != 0 {
        return None;
    }
    Some(&bytes[..end])
}
