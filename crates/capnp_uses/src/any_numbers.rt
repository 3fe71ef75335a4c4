//! A view that accepts several kinds of objects: a list of numbers of any width, each read as
//! `u64`.
//!
//! It asks for whatever the pointer points to, which is read once, and keeps what it accepts of the
//! kinds (Cap'n Proto's encoding, "Lists").
ghost use Rattle.std.specs.Prelude.{◌≡◌, MatchResult};
ghost use Rattle.capnp_wire.specs.Prelude.{pointer_of, IsViewOf, Accepts, ViewError, FormError, Reads};

use capnp::message::ReaderSegments;
use capnp::traits::FromPointerReader;
use capnp::{Error, ErrorKind, Result, any_object, any_pointer};

/// A list of unsigned numbers of any width in a message; null is an empty list.
#[derive(Drop)]
pub struct Reader<'a> {
    numbers: Option<any_object::Numbers<'a>>,
}

impl<'a> Reader<'a> {
    ghost use Rattle.std.specs.Prelude.{◌<◌, length, slice_index};
    ghost use Rattle.capnp_uses.specs.AnyNumbers.{any_numbers_of, IsAnyNumbers, AnyNumbersFormError};

    /// The number of elements.
    pub fn len(&self) -> u32
        ensures { result ≡ length (any_numbers_of self.now) }
    {
        match &self.numbers {
            None => 0,
            Some(numbers) => numbers.len(),
        }
    }

    /// The element of this index.
    pub fn get(&self, index: u32) -> u64
        requires { index < length (any_numbers_of self.now) }
        ensures { result ≡ slice_index (any_numbers_of self.now) index }
    {
        match &self.numbers {
            None => 0,
            Some(numbers) => numbers.get(index),
        }
    }

    // The list that a pointer points to.
    fn read<S: ReaderSegments>(reader: &any_pointer::Reader<'a, S>) -> Result<Reader<'a>>
        ensures { let pointer = pointer_of S.segments reader.now in MatchResult result
            (λ view. Reads pointer (λ form. IsAnyNumbers form (any_numbers_of view)))
            (λ error. ViewError pointer AnyNumbersFormError error.kind) }
    {
        let object: any_object::Reader<'a, S> = reader.get_as()?;
        match object {
            any_object::Reader::Null => Ok(Reader { numbers: None }),
            any_object::Reader::Numbers(numbers) => Ok(Reader {
                numbers: Some(numbers),
            }),
            _ => Err(Error::from_kind(ErrorKind::WrongPointerKind)),
        }
    }
}

impl<'a: 'v, 'v, S: ReaderSegments> FromPointerReader<'a, S> for Reader<'v> {
    ghost use Rattle.capnp_uses.specs.AnyNumbers.{any_numbers_of, IsAnyNumbers, TakesAnyNumbers, AnyNumbersFormError};

    ghost shows = { λ pointer view.
        Reads pointer (λ form. IsAnyNumbers form (any_numbers_of view)) };

    ghost accepts = { λ pointer. Accepts pointer TakesAnyNumbers };

    ghost fails = { λ pointer kind. ViewError pointer AnyNumbersFormError kind };

    ghost form_error = { λ pointer kind. FormError pointer AnyNumbersFormError kind };

    fn get_from_pointer(reader: any_pointer::Reader<'a, S>) -> Result<Self>
        ensures { let pointer = pointer_of S.segments reader.entry in IsViewOf pointer
            (λ view. Reads pointer (λ form. IsAnyNumbers form (any_numbers_of view)))
            (Accepts pointer TakesAnyNumbers) (ViewError pointer AnyNumbersFormError)
            (FormError pointer AnyNumbersFormError) result }
    {
        Reader::read(&reader)
    }
}
