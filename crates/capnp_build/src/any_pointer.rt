//! The root of a message that is built.
ghost use Rattle.std.specs.Prelude.{◌≡◌, ◌↔◌, ⊤, ◌<◌, [], false, length, IsTrue, IfOk, IfErr};
ghost use Rattle.capnp_layout.specs.Prelude.{null};
ghost use Rattle.capnp_build.specs.Built.{message, ForRoot};
ghost use Rattle.capnp_build.specs.Placed.{RootFormError};
ghost use Rattle.capnp_build.specs.Outcomes.{SetsRoot, InitsRoot};
ghost use Rattle.capnp_build.specs.RootViews.{InitsView, SizesRoot};

use crate::object::NewBody;
use crate::owned_builder::OwnedBuilder;
use crate::root_kind::RootKind;
use crate::view::{Building, View, accept, init};
use capnp_frame::Result;
use capnp_wire::MessageSize;
pub use capnp_wire::any_pointer::Owned;
use capnp_wire::traits::SetterInput;

/// The root of a message that is built.
///
/// ```
/// let mut root: any_pointer::Builder<'_, Builder<HeapAllocator>> = message.get_root()?;
/// assert!(rt; root.is_null());
/// root.set_as::<text::Owned, &str>("Hello, World!")?;
/// assert_eq!(rt; root.target_size()?.word_count, 2);
/// ```
pub type Builder<'a, M> = View<'a, M, Owned>;

impl OwnedBuilder for Owned {
    ghost inits = { λ n form. form ≡ null };

    ghost fails = { λ n kind. ⊥ };

    fn object(n: u32) -> Result<Option<NewBody>> {
        Ok(None)
    }

    ghost takes = { λ form. ⊤ };

    ghost form_error = { λ form kind. ⊥ };

    fn accept(shown: RootKind, bytes: &[u8]) -> Result<()> {
        Ok(())
    }
}

impl<'a, M: Building> View<'a, M, Owned> {
    /// Whether the root is null.
    pub fn is_null(&self) -> bool
        ensures root { ForRoot (M.built self.now.message.now).spaces (λ form. IsTrue result ↔ (form ≡ null)) }
        // This holds of a message of no segments, too.
        ensures none { (M.built self.now.message.now).spaces ≡ [] → IsTrue result }
    {
        match self.message.root_kind() {
            RootKind::Null => true,
            _ => false,
        }
    }

    /// The size of the root's object with all below it, without landing pads.
    ///
    /// Fails as `any_pointer::Reader::target_size` of `capnp_wire` does for the root, read without
    /// a traversal limit.
    pub fn target_size(&self) -> Result<MessageSize>
        ensures { SizesRoot (M.built self.now.message.now).spaces result }
    {
        self.message.target_size()
    }

    /// The root's object as a view of a type, whose kind is not tested.
    pub fn into_view<K>(self) -> View<'a, M, K>
        ensures same { result.message.ghost_name ≡ self.entry.message.ghost_name }
        ensures value { result.message.now ≡ self.entry.message.now }
    {
        let View { message, kind: _ } = self;
        View::new(message)
    }

    /// Makes the root a new object of length `n`, all zero.
    ///
    /// Fails as `BuilderArena::init_object` does, and the root is then null.
    pub fn set_new<K: OwnedBuilder>(&mut self, n: u32) -> Result<()>
        ensures same { self.new.message.ghost_name ≡ self.old.message.ghost_name }
        ensures inits { InitsRoot M.Allocator.Allocator K.OwnedBuilder n
            (M.built self.old.message.now) (M.built self.new.message.now) result }
    {
        self.message.init_object::<K>(n)
    }

    /// The root as a view of a type. Nothing changes.
    ///
    /// Fails with a kind that `form_error` of the type names, where the type doesn't accept the
    /// object: for the types of this crate with `WrongPointerKind` or `TextNotTerminated`, as their
    /// reading views do.
    pub fn get_as<K: OwnedBuilder>(self) -> Result<View<'a, M, K>>
        ensures same { IfOk result (λ view. view.message.ghost_name ≡ self.entry.message.ghost_name) }
        ensures looked { IfOk result (λ view. view.message.now ≡ self.entry.message.now) }
        ensures taken { IfOk result (λ view. ForRoot (M.built view.message.now).spaces K.takes) }
        ensures kind { IfErr result (λ error. RootFormError K.form_error
            (M.built self.entry.message.now).spaces error.kind) }
    {
        let View { message, kind: _ } = self;
        accept::<M, K>(message)?;
        Ok(View::new(message))
    }

    /// Makes the root a new object of length `n`, all zero, and returns a view that writes it.
    ///
    /// Fails with the kinds of `set_new`. What the root is then only the contract of `set_new` says.
    pub fn initn_as<K: OwnedBuilder>(self, n: u32) -> Result<View<'a, M, K>>
        ensures { InitsView M.Allocator.Allocator K.OwnedBuilder n M.built
            (λ view. view.message) self.entry.message result }
    {
        let View { message, kind: _ } = self;
        init::<M, K>(message, n)?;
        Ok(View::new(message))
    }

    /// Makes the root a new object of length 0, and returns a view that writes it. Fails as
    /// `initn_as` does.
    pub fn init_as<K: OwnedBuilder>(self) -> Result<View<'a, M, K>>
        ensures { InitsView M.Allocator.Allocator K.OwnedBuilder 0 M.built
            (λ view. view.message) self.entry.message result }
    {
        self.initn_as::<K>(0)
    }

    /// Sets the root to a value. Fails as `BuilderArena::set_root` does, and the root is then null.
    pub fn set_as<T, V: SetterInput<T> + Drop>(&mut self, value: V) -> Result<()>
        ensures same { self.new.message.ghost_name ≡ self.old.message.ghost_name }
        ensures sets { SetsRoot M.Allocator.Allocator (V.has_tree value) (V.fails value)
            (M.built self.old.message.now) (M.built self.new.message.now) result }
    {
        self.message.set_root::<T, V>(&value)
    }
}
