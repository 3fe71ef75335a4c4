//! Readers of messages whose root has a type.
ghost use Rattle.std.specs.Prelude.{◌≡◌, ◌^◌, ◌-◌, pos, None};
ghost use Rattle.capnp_layout.specs.Prelude.{root};
ghost use Rattle.capnp_message.specs.Seen.{root_of};
ghost use Rattle.capnp_message.specs.Roots.{ReadsRoot};

use crate::builder::Builder;
use crate::reader::Reader;
use crate::typed_builder::TypedBuilder;
use capnp_build::allocator::Allocator;
use capnp_frame::Result;
use capnp_frame::message::ReaderSegments;
use capnp_wire::traits::Owned;
use std::marker::{Model, PhantomData};

/// A message that is read, with a root of type `T`.
///
/// ```
/// let message = serialize::read_message(alloc, &mut source, DEFAULT_READER_OPTIONS)?;
/// let typed: TypedReader<OwnedSegments, text::Owned> = TypedReader::new(message);
/// let greeting: text::Reader<'_> = typed.get()?;
/// assert_eq!(rt; greeting.as_bytes(), b"Hello, World!".as_slice());
/// ```
#[derive(Drop)]
pub struct TypedReader<S, T> {
    message: Reader<S>,
    marker: PhantomData<T>,
}

// Clauses see the reader.
impl<S, T> Model for TypedReader<S, T> {
    ghost use Rattle.capnp_message.specs.Seen.{ReadMessage};

    ghost Value = { ReadMessage S };

    ghost view = { λ typed. typed.message };
}

impl<S: ReaderSegments, T> TypedReader<S, T> {
    /// Reads the root of this message as a `T`.
    pub fn new(message: Reader<S>) -> TypedReader<S, T>
        ensures { result ≡ message }
    {
        TypedReader {
            message,
            marker: PhantomData,
        }
    }

    /// The root as a view of its type. Fails as `get_root` of the message does.
    pub fn get<'a>(&'a self) -> Result<T::Reader>
    where
        T: Owned<'a, S>,
        ensures { let pointer = root_of S.segments self.now in
            ReadsRoot pointer (T.Reader.shows pointer) (T.Reader.accepts pointer)
            (T.Reader.fails pointer) (T.Reader.form_error pointer) result }
    {
        self.message.get_root()
    }

    /// The segments.
    pub fn get_segments(&self) -> &S
        ensures { result.now ≡ self.now.segments }
    {
        self.message.get_segments()
    }

    /// The message.
    pub fn into_inner(self) -> Reader<S>
        ensures { result ≡ self }
    {
        let TypedReader { message, marker: _ } = self;
        message
    }
}

impl<S: ReaderSegments, T> From<Reader<S>> for TypedReader<S, T> {
    ghost from_gives = { λ message typed. typed ≡ message };

    fn from(message: Reader<S>) -> TypedReader<S, T> {
        TypedReader::new(message)
    }
}

impl<A: Allocator, T> From<Builder<A>> for TypedReader<Builder<A>, T> {
    ghost from_gives = { λ built typed. (typed.segments ≡ built)
        × (typed.options.traversal_limit_in_words ≡ None)
        × (typed.options.nesting_limit ≡ pos (2 ^ 31 - 1)) };

    fn from(built: Builder<A>) -> TypedReader<Builder<A>, T> {
        TypedReader::new(built.into_reader())
    }
}

impl<A: Allocator, T> From<TypedBuilder<T, A>> for TypedReader<Builder<A>, T> {
    ghost from_gives = { λ built typed. (typed.segments ≡ built)
        × (typed.options.traversal_limit_in_words ≡ None)
        × (typed.options.nesting_limit ≡ pos (2 ^ 31 - 1)) };

    fn from(built: TypedBuilder<T, A>) -> TypedReader<Builder<A>, T> {
        built.into_reader()
    }
}
