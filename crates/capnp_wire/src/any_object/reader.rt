//! The view of whatever a pointer points to.
ghost use Rattle.std.specs.Prelude.{MatchResult};

use crate::any_object::Numbers;
use crate::any_struct::StructReader;
use crate::object_content::words_at;
use crate::traits::FromPointerReader;
use crate::{any_pointer, any_pointer_list, struct_list};
use capnp_frame::Result;
use capnp_frame::message::ReaderSegments;
use capnp_layout::object::{Body, Object, words_fit};

/// What a pointer points to: null, or a view of the kind of object that is there. The object is
/// counted once against the traversal limit. What its own pointers point to is counted when they
/// are followed.
///
/// ```
/// let root: any_object::Reader<'_, OwnedSegments> = message.get_root()?;
/// let any_object::Reader::Struct(person) = root else {
///     panic!(rt; "no struct");
/// };
/// assert_eq!(rt; (person.data_words(), person.pointers()), (1, 2));
/// assert_eq!(rt; person.get_word(0), 123);
/// ```
#[derive(Drop)]
pub enum Reader<'a, S: ReaderSegments> {
    Null,
    Struct(StructReader<'a, S>),
    /// A list of structs.
    Structs(struct_list::Reader<'a, S>),
    /// A list of pointers.
    Pointers(any_pointer_list::Reader<'a, S>),
    /// A list of numbers, of bools or of `Void`.
    Numbers(Numbers<'a>),
}

impl<'a, S: ReaderSegments> Reader<'a, S> {
    ghost use Rattle.capnp_wire.specs.Readers.{pointer_of, IsEntered};
    ghost use Rattle.capnp_wire.specs.Views.{ObjectError};
    ghost use Rattle.capnp_wire.specs.ObjectViews.{IsObjectView};

    // The view of what a pointer points to.
    fn read(reader: &any_pointer::Reader<'a, S>) -> Result<Reader<'a, S>>
        ensures { let pointer = pointer_of S.segments reader.now in MatchResult result
            (λ view. IsObjectView S.segments pointer view)
            (λ error. ObjectError pointer error.kind) }
    {
        let Some(object) = reader.enter()? else {
            return Ok(Reader::Null);
        };
        Ok(Reader::of(reader, &object))
    }

    // The view of an object that was entered.
    fn of(reader: &any_pointer::Reader<'a, S>, object: &Object<'a>) -> Reader<'a, S>
        requires { IsEntered (pointer_of S.segments reader.now) object.now }
        ensures { IsObjectView S.segments (pointer_of S.segments reader.now) result }
    {
        let nesting = reader.nesting.saturating_sub(1);
        match object.body {
            Body::Struct(size) => Reader::Struct(StructReader {
                segments: reader.segments,
                limiter: reader.limiter,
                segment: object.segment,
                start: object.start,
                size,
                nesting,
                part: None,
            }),
            Body::Structs(elements, _) => {
                Reader::Structs(struct_list::Reader::within(reader, object, 1, elements))
            }
            Body::Pointers(count) => {
                // For the prover: each word is below 2^64, and so is the number of bytes.
                words_fit(object.segment);
                Reader::Pointers(any_pointer_list::Reader {
                    segments: reader.segments,
                    limiter: reader.limiter,
                    first: object.start,
                    count,
                    nesting,
                })
            }
            Body::Numbers(size, count) => Reader::Numbers(Numbers {
                bytes: words_at(object.segment, object.start.word, size, count),
                size,
                count,
            }),
        }
    }
}

// Accepts null, and an object of any kind.
impl<'a, S: ReaderSegments> FromPointerReader<'a, S> for Reader<'a, S> {
    ghost use Rattle.std.specs.Prelude.{⊤};
    ghost use Rattle.capnp_wire.specs.Readers.{pointer_of};
    ghost use Rattle.capnp_wire.specs.Views.{IsViewOf, Accepts, ObjectError};
    ghost use Rattle.capnp_wire.specs.ObjectViews.{IsObjectView, TakesAll};

    ghost shows = { λ pointer view. IsObjectView S.segments pointer view };

    ghost accepts = { λ pointer. Accepts pointer TakesAll };

    ghost fails = { λ pointer kind. ObjectError pointer kind };

    ghost form_error = { λ pointer kind. ⊥ };

    fn get_from_pointer(reader: any_pointer::Reader<'a, S>) -> Result<Self>
        ensures { let pointer = pointer_of S.segments reader.entry in IsViewOf pointer
            (λ view. IsObjectView S.segments pointer view) (Accepts pointer TakesAll)
            (ObjectError pointer) (λ kind. ⊥) result }
    {
        Reader::read(&reader)
    }
}
