//! Readers of structs.
ghost use Rattle.std.specs.Prelude.{◌≡◌, ◌≢◌, ◌+◌, ◌/◌, ◌≤◌, length, slice_index, None, MatchResult};
ghost use Rattle.std.specs.Option.{ForSome};
ghost use Rattle.capnp_layout.specs.Prelude.{words_of, message_of};
ghost use Rattle.capnp_wire.specs.Values.{HasPointersSegment};

use crate::any_pointer;
use crate::any_pointer::ObjectKind;
use crate::any_struct::part::{self, WordPart};
use crate::object_content::wrong_kind;
use crate::object_view::{ObjectView, read};
use crate::read_limiter::ReadLimiter;
use crate::traits::{FromPointerInSegment, FromPointerReader};
use capnp_frame::Result;
use capnp_frame::message::ReaderSegments;
use capnp_layout::block::word_at;
use capnp_layout::object::Object;
use capnp_layout::place::Place;
use capnp_layout::pointer::StructSize;

/// A struct in a message.
///
/// ```
/// let person: any_struct::StructReader<'_, OwnedSegments> = message.get_root()?;
/// let name: text::Reader<'_> = person.get_pointer_as(0)?;
/// assert!(rt; name.is("Alice"));
/// assert_eq!(rt; person.get_data_field::<u32>(0), 123);
/// assert!(rt; !person.has_pointer(1));
/// ```
#[derive(Drop)]
pub struct StructReader<'a, S: ReaderSegments> {
    pub(crate) segments: &'a S,
    pub(crate) limiter: Option<&'a ReadLimiter>,
    pub(crate) segment: &'a [u8],
    pub(crate) start: Place,
    pub(crate) size: StructSize,
    pub(crate) nesting: u32,
    /// Where the struct is an element of a list of numbers: which part of its one data word is its
    /// own.
    pub(crate) part: Option<WordPart>,
    ghost room: { start.word + (size.data_words + size.pointers) ≤ length segment.now / 8 },
    ghost content: { HasPointersSegment (message_of (S.segments segments.now)) (words_of segment.now)
        start size },
    ghost own: { part ≢ None → (size.data_words ≡ 1) × (size.pointers ≡ 0) },
}

impl<'a, S: ReaderSegments> StructReader<'a, S> {
    ghost use Rattle.capnp_wire.specs.Readers.{struct_of, pointer_of, IsEntered};
    ghost use Rattle.capnp_wire.specs.Views.{data_struct, pointer_in, HasSegment, IsStruct, IsViewOf, ViewError, StructFormError};

    /// The number of data words.
    pub fn data_words(&self) -> u16
        ensures { result ≡ length (struct_of S.segments self.now).words }
    {
        self.size.data_words
    }

    /// A data word; 0 past the last one.
    pub fn get_word(&self, index: u16) -> u64
        ensures { result ≡ slice_index (struct_of S.segments self.now).words index }
    {
        self.data_word(index as u64)
    }

    // A data word; 0 past the last one.
    // Speed: a word past the last one goes the same way through `data_word_of`, and the segment has
    // all others. Were the 0 returned by itself, the compiler would make a jump of each bool.
    pub(crate) fn data_word(&self, index: u64) -> u64
        ensures { result ≡ slice_index (struct_of S.segments self.now).words index }
    {
        let word = if index < self.size.data_words as u64 {
            word_at(self.segment, self.start.word + index as usize)
        } else {
            0
        };
        part::data_word_of(self.part, word)
    }

    /// The number of pointers.
    pub fn pointers(&self) -> u16
        ensures { result ≡ length (struct_of S.segments self.now).children }
    {
        self.size.pointers
    }

    /// A pointer; null past the last one.
    pub fn get_pointer(&self, index: u16) -> any_pointer::Reader<'a, S>
        ensures { pointer_of S.segments result ≡ pointer_in (struct_of S.segments self.now) index }
    {
        let place = if index < self.size.pointers {
            Some(Place {
                segment: self.start.segment,
                word: self.start.word + self.size.data_words as usize + index as usize,
            })
        } else {
            None
        };
        any_pointer::Reader {
            segments: self.segments,
            limiter: self.limiter,
            place,
            nesting: self.nesting,
        }
    }

    /// The view of what a pointer points to. Fails as `any_pointer::Reader::get_as` does.
    #[inline(always)]
    pub fn get_pointer_as<T: FromPointerInSegment<'a, S>>(&self, index: u16) -> Result<T>
        ensures { let pointer = pointer_in (struct_of S.segments self.now) index in
            IsViewOf pointer (T.shows pointer) (T.accepts pointer) (T.fails pointer)
            (T.form_error pointer) result }
    {
        T::get_from_segment(self.get_pointer(index), self.segment)
    }

    /// The data section of this struct, as a struct without pointers, in place of what a pointer of
    /// another message points to.
    pub fn data_at<R: ReaderSegments>(
        &self,
        pointer: &any_pointer::Reader<'a, R>,
    ) -> StructReader<'a, R>
        ensures { struct_of R.segments result ≡ data_struct (pointer_of R.segments pointer.now)
            (struct_of S.segments self.now).words }
    {
        StructReader {
            segments: pointer.segments,
            limiter: pointer.limiter,
            segment: self.segment,
            start: self.start,
            size: StructSize {
                data_words: self.size.data_words,
                pointers: 0,
            },
            nesting: pointer.nesting.saturating_sub(1),
            part: self.part,
        }
    }
}

impl<'a, S: ReaderSegments> ObjectView<'a, S> for StructReader<'a, S> {
    ghost use Rattle.std.proofs.Common.{inl};
    ghost use Rattle.capnp_wire.specs.Readers.{struct_of};
    ghost use Rattle.capnp_wire.specs.Views.{ViewError, IsStruct, StructFormError};

    ghost shows = { λ pointer view. IsStruct pointer (struct_of S.segments view) };

    ghost fails = { λ pointer kind. ViewError pointer StructFormError kind };

    #[inline(always)]
    fn kind() -> ObjectKind {
        ObjectKind::Struct
    }

    #[inline(always)]
    fn of_null(reader: &any_pointer::Reader<'a, S>) -> Self {
        StructReader {
            segments: reader.segments,
            limiter: reader.limiter,
            segment: &[],
            start: Place {
                segment: 0,
                word: 0,
            },
            size: StructSize {
                data_words: 0,
                pointers: 0,
            },
            nesting: reader.nesting.saturating_sub(1),
            part: None,
        }
    }

    #[inline(always)]
    fn of_object(reader: &any_pointer::Reader<'a, S>, object: &Object<'a>) -> Result<Self> {
        let nesting = reader.nesting.saturating_sub(1);
        let Some(size) = object.body.as_struct() else {
            return Err(wrong_kind());
        };
        Ok(StructReader {
            segments: reader.segments,
            limiter: reader.limiter,
            segment: object.segment,
            start: object.start,
            size,
            nesting,
            part: None,
        })
    }

    ghost unread = { λ pointer kind error. inl error };
}

// Null is a struct without data and pointers; any object other than a struct fails with
// `WrongPointerKind`.
impl<'a, S: ReaderSegments> FromPointerReader<'a, S> for StructReader<'a, S> {
    ghost use Rattle.capnp_wire.specs.Readers.{struct_of, pointer_of};
    ghost use Rattle.capnp_wire.specs.Views.{IsViewOf, Accepts, ViewError, FormError, IsStruct, TakesStruct, StructFormError};

    ghost shows = { λ pointer view. IsStruct pointer (struct_of S.segments view) };

    ghost accepts = { λ pointer. Accepts pointer TakesStruct };

    ghost fails = { λ pointer kind. ViewError pointer StructFormError kind };

    ghost form_error = { λ pointer kind. FormError pointer StructFormError kind };

    #[inline(always)]
    fn get_from_pointer(reader: any_pointer::Reader<'a, S>) -> Result<Self>
        ensures { let pointer = pointer_of S.segments reader.entry in IsViewOf pointer
            (λ view. IsStruct pointer (struct_of S.segments view))
            (Accepts pointer TakesStruct) (ViewError pointer StructFormError)
            (FormError pointer StructFormError) result }
    {
        read(&reader, None)
    }
}

impl<'a, S: ReaderSegments> FromPointerInSegment<'a, S> for StructReader<'a, S> {
    ghost use Rattle.capnp_wire.specs.Readers.{struct_of, pointer_of};
    ghost use Rattle.capnp_wire.specs.Views.{HasSegment, IsViewOf, Accepts, ViewError, FormError, IsStruct, TakesStruct, StructFormError};

    #[inline(always)]
    fn get_from_segment(reader: any_pointer::Reader<'a, S>, segment: &'a [u8]) -> Result<Self>
        requires { HasSegment (pointer_of S.segments reader) (words_of segment.now) }
        ensures { let pointer = pointer_of S.segments reader.entry in IsViewOf pointer
            (λ view. IsStruct pointer (struct_of S.segments view))
            (Accepts pointer TakesStruct) (ViewError pointer StructFormError)
            (FormError pointer StructFormError) result }
    {
        read(&reader, Some(segment))
    }
}
