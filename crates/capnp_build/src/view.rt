//! Views of the object at the root of a message that is built.
ghost use Rattle.std.specs.Prelude.{◌≡◌, ◌⊎◌, ◌<◌, List, length, IfErr, OnOk};
ghost use Rattle.capnp_layout.specs.Prelude.{Trees, none};
ghost use Rattle.capnp_build.specs.Built.{Built, ForRoot, IsRootKind};
ghost use Rattle.capnp_build.specs.Written.{HasField, IsFieldSet, HasBytes, IsBytesSet, HasNumber, IsNumberSet};
ghost use Rattle.capnp_build.specs.Placed.{RootFormError, InitWords, FoundNoRoom};
ghost use Rattle.capnp_build.specs.RootKind.{ShowsRoot, HoldsForm};
ghost use Rattle.capnp_build.specs.Outcomes.{SetsRoot, InitsRoot, FirstSegmentError};
ghost use Rattle.capnp_build.specs.RootViews.{WritesRoot, SizesRoot, HoldsTree};

use crate::allocator::Allocator;
use crate::arena::builder_arena::BuilderArena;
use crate::owned_builder::OwnedBuilder;
use crate::root_kind::RootKind;
use capnp_frame::Result;
use capnp_wire::MessageSize;
use capnp_wire::traits::SetterInput;
use std::marker::PhantomData;

/// A message that is built, as views of its root see it: a `BuilderArena`, or a type that has one
/// inside, as `Builder` of `capnp_message`.
///
/// ```
/// let mut message = Builder::new_default(alloc);
/// message.init_object::<primitive_list::Owned<u64>>(3)?;
/// assert_eq!(rt; message.root_bytes(), [0; 24].as_slice());
/// assert_eq!(rt; message.target_size()?.word_count, 3);
/// ```
pub trait Building: Drop {
    /// What hands out its segments.
    type Allocator: Allocator;

    /// The segments and the allocator of the message.
    ghost built: { Self → Built Self.Allocator };

    /// The kind of the object at the root.
    fn root_kind(&self) -> RootKind
        ensures form { ForRoot (built self.now).spaces (ShowsRoot result) }
        ensures is_kind { IsRootKind result (built self.now).spaces };

    /// The bytes of the tree at the root, without the root pointer; none where the root is null.
    fn root_bytes(&self) -> &[u8]
        ensures form { ForRoot (built self.now).spaces (HoldsForm result.now) }
        ensures tree { HoldsTree (built self.now).spaces result.now };

    /// Sets a data word of the struct at the root, which must have one of this index.
    fn set_word(&mut self, index: u16, word: u64)
        requires { HasField (built self.old).spaces index }
        ensures { WritesRoot (λ old new. IsFieldSet old new index word)
            (built self.old) (built self.new) };

    /// Sets an element of the list of words at the root, which must have one of this index.
    fn set_number(&mut self, index: u32, number: u64)
        requires { HasNumber (built self.old).spaces index }
        ensures { WritesRoot (λ old new. IsNumberSet old new index number)
            (built self.old) (built self.new) };

    /// Replaces bytes of the list of bytes at the root, from this index on. The list must have that
    /// many there.
    fn write_bytes(&mut self, index: u32, bytes: &[u8])
        requires { HasBytes (built self.old).spaces index (length bytes.now) }
        ensures { WritesRoot (λ old new. IsBytesSet old new index bytes.now)
            (built self.old) (built self.new) };

    /// The size of the tree at the root. Fails as `any_pointer::Reader::target_size` does for a
    /// reader of the root.
    fn target_size(&self) -> Result<MessageSize>
        ensures { SizesRoot (built self.now).spaces result };

    /// Makes the root a new object of length `n`, or null where the type has none of this length.
    /// Fails as `BuilderArena::init_object` does.
    fn init_object<K: OwnedBuilder>(&mut self, n: u32) -> Result<()>
        ensures { InitsRoot Self.Allocator.Allocator K.OwnedBuilder n
            (built self.old) (built self.new) result };

    /// Sets the root to a value. Fails as `BuilderArena::set_root` does.
    fn set_root<T, V: SetterInput<T>>(&mut self, value: &V) -> Result<()>
        ensures { SetsRoot Self.Allocator.Allocator (V.has_tree value.now) (V.fails value.now)
            (built self.old) (built self.new) result };
}

impl<A: Allocator> Building for BuilderArena<A> {
    type Allocator = A;

    ghost built = { λ arena. arena };

    fn root_kind(&self) -> RootKind {
        BuilderArena::root_kind(self)
    }

    fn root_bytes(&self) -> &[u8] {
        BuilderArena::root_bytes(self)
    }

    fn set_word(&mut self, index: u16, word: u64) {
        BuilderArena::set_word(self, index, word);
    }

    fn set_number(&mut self, index: u32, number: u64) {
        BuilderArena::set_number(self, index, number);
    }

    fn write_bytes(&mut self, index: u32, bytes: &[u8]) {
        BuilderArena::write_bytes(self, index, bytes);
    }

    fn target_size(&self) -> Result<MessageSize> {
        self.get_root_as_reader().target_size()
    }

    fn init_object<K: OwnedBuilder>(&mut self, n: u32) -> Result<()> {
        BuilderArena::init_object::<K>(self, n)
    }

    fn set_root<T, V: SetterInput<T>>(&mut self, value: &V) -> Result<()> {
        BuilderArena::set_root::<T, V>(self, value)
    }
}

/// A view of the object at the root of a message that is built.
#[derive(Drop)]
pub struct View<'a, M: Building, K> {
    pub(crate) message: &'a mut M,
    pub(crate) kind: PhantomData<K>,
}

impl<'a, M: Building, K> View<'a, M, K> {
    /// The root's object as a view of this type.
    pub fn new(message: &'a mut M) -> View<'a, M, K>
        ensures same { result.message.ghost_name ≡ message.entry.ghost_name }
        ensures value { result.message.now ≡ message.old }
    {
        View {
            message,
            kind: PhantomData,
        }
    }
}

/// Makes the root a new object of length `n`. Fails as `BuilderArena::init_object` does, and the
/// root is then null.
pub fn init<M: Building, K: OwnedBuilder>(message: &mut M, n: u32) -> Result<()>
    ensures inits { InitsRoot M.Allocator.Allocator K.OwnedBuilder n
        (M.built message.old) (M.built message.new) result }
    // The error, by the message before the call.
    ensures no_room { IfErr result (λ error. K.fails n error.kind
        ⊎ FirstSegmentError M.Allocator.Allocator (M.built message.old) error.kind
        ⊎ FoundNoRoom M.Allocator.Allocator (InitWords K.inits n) (M.built message.old) error.kind) }
{
    message.init_object::<K>(n)
}

// Tests that the object at the root can be viewed as this type.
pub(crate) fn accept<M: Building, K: OwnedBuilder>(message: &M) -> Result<()>
    ensures taken { OnOk result (ForRoot (M.built message.now).spaces K.takes) }
    ensures kind { IfErr result (λ error. RootFormError K.form_error (M.built message.now).spaces error.kind) }
{
    K::accept(message.root_kind(), message.root_bytes())
}
