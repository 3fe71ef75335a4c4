//! Constants of a schema that are structs or lists, and defaults of pointers: messages that are
//! part of a program.
//!
//! Code that `capnpc-rattle` writes uses this module where its schema has them.
ghost use Rattle.std.specs.Prelude.{◌≡◌, ◌∷◌, []};
ghost use Rattle.capnp_wire.specs.Constants.{IsDefaultData};
ghost use Rattle.capnp_wire.specs.Readers.{pointer_of, struct_of};
ghost use Rattle.capnp_wire.specs.Views.{Pointer, IsViewOf, Accepts, ViewError, FormError, TakesStruct, StructFormError};

use crate::any_pointer;
use crate::any_struct::StructReader;
use crate::traits::FromPointerReader;
use capnp_frame::Result;
use capnp_frame::message::ReaderSegments;

/// The words of a message of one segment, for a `static`.
#[derive(Clone, Copy)]
pub struct Words<const N: usize> {
    /// The bytes of each word, one after the other.
    pub bytes: [u8; N],
}

impl<const N: usize> ReaderSegments for Words<N> {
    ghost segments = { λ words. words.bytes ∷ [] };

    fn get_segment(&self, id: u32) -> Option<&[u8]> {
        match id {
            0 => Some(&self.bytes),
            _ => None,
        }
    }
}

/// A message that is part of a program.
pub trait Constant: ReaderSegments {
    /// Its root pointer.
    ghost root: { Self → Pointer };

    /// The root pointer, which is read without limits.
    fn constant_root(&self) -> any_pointer::Reader<'_, Self>
        ensures { pointer_of Self.segments result ≡ root self.now };
}

/// A view of what the root pointer of a constant points to. It fails as
/// `any_pointer::Reader::get_as` does for that pointer.
pub fn view_of<'a, C: Constant, T: FromPointerReader<'a, C>>(constant: &'a C) -> Result<T>
    ensures { let pointer = C.root constant.now in
        IsViewOf pointer (T.shows pointer) (T.accepts pointer) (T.fails pointer)
        (T.form_error pointer) result }
{
    T::get_from_pointer(constant.constant_root())
}

/// The struct of a default that sets no pointers, to be read in place of a null pointer of a
/// message. It fails as a view of the default does.
pub fn default_data<'a, S: ReaderSegments, C: Constant>(
    pointer: &any_pointer::Reader<'a, S>,
    words: &'a C,
) -> Result<StructReader<'a, S>>
    ensures { let constant = C.root words.now in IsViewOf constant
        (λ view. IsDefaultData constant (pointer_of S.segments pointer.now)
        (struct_of S.segments view))
        (Accepts constant TakesStruct) (ViewError constant StructFormError)
        (FormError constant StructFormError) result }
{
    let found: Result<StructReader<'a, C>> = view_of(words);
    match found {
        Ok(fields) => Ok(fields.data_at(pointer)),
        Err(error) => Err(error),
    }
}

impl<const N: usize> Constant for Words<N> {
    ghost use Rattle.capnp_wire.specs.Constants.{root_of};

    ghost root = { λ words. root_of words };

    fn constant_root(&self) -> any_pointer::Reader<'_, Words<N>> {
        self.get_root()
    }
}

impl<const N: usize> Words<N> {
    ghost use Rattle.capnp_wire.specs.Constants.{segments_of, root_of};

    /// The root pointer, which is read without limits: a part of the program is only as large and
    /// as deep as it was written.
    #[tactic(auto, unfolding(crate::specs::Constants::root_of))]
    pub fn get_root(&self) -> any_pointer::Reader<'_, Words<N>>
        ensures { pointer_of segments_of result ≡ root_of self.now }
    {
        any_pointer::Reader::root_of(self)
    }
}

/// What the getter of a pointer with a default returns, for views that follow pointers in the
/// segments that their type names. It is the view of what the message holds, or of the default
/// where the message's pointer is null.
#[derive(Drop)]
pub enum OrDefault<M, D> {
    Stored(Result<M>),
    Default(Result<D>),
}
