//! Builders of structs.
ghost use Rattle.std.specs.Prelude.{◌≡◌, ℕ, ◌+◌, ◌-◌, ◌*◌, ◌^◌, ◌/◌, ◌<◌, ◌≤◌, List, [], length, replicate, slice_index_or};
ghost use Rattle.capnp_frame.specs.declared.error.ErrorKind.TheVariants.{AllocationTooLarge};
ghost use Rattle.capnp_layout.specs.Prelude.{struct};
ghost use Rattle.capnp_wire.specs.Prelude.{HasData, TakesStruct, StructFormError};
ghost use Rattle.capnp_build.specs.Built.{ForRoot};
ghost use Rattle.capnp_build.specs.Written.{HasField, IsFieldSet};
ghost use Rattle.capnp_build.specs.RootViews.{WritesView};

use crate::object::NewBody;
use crate::owned_builder::OwnedBuilder;
use crate::root_kind::{RootKind, word_at};
use crate::view::{Building, View};
use capnp_frame::{Error, ErrorKind, Result};
pub use capnp_wire::any_struct::Owned;

/// A struct whose data words are written in place.
///
/// ```
/// let mut fields: StructBuilder<'_, Builder<HeapAllocator>> = message.initn_root(2)?;
/// fields.set_word(0, 10);
/// fields.set_word(1, 20);
/// assert_eq!(rt; (fields.data_words(), fields.get_word(1)), (2, 20));
/// ```
pub type StructBuilder<'a, M> = View<'a, M, Owned>;

impl OwnedBuilder for Owned {
    ghost inits = { λ n form. form ≡ struct (replicate n 0) };

    ghost fails = { λ n kind. (2 ^ 16 ≤ n) × (kind ≡ AllocationTooLarge n) };

    fn object(n: u32) -> Result<Option<NewBody>> {
        if n > 65535 {
            return Err(Error::from_kind(ErrorKind::AllocationTooLarge(n)));
        }
        Ok(Some(NewBody::Struct(n)))
    }

    ghost takes = { TakesStruct };

    ghost form_error = { StructFormError };

    fn accept(shown: RootKind, bytes: &[u8]) -> Result<()> {
        match shown {
            RootKind::Null | RootKind::Struct(_) => Ok(()),
            _ => Err(Error::from_kind(ErrorKind::WrongPointerKind)),
        }
    }
}

impl<'a, M: Building> View<'a, M, Owned> {
    /// Sets the data word at this index, which must be below `data_words`.
    pub fn set_word(&mut self, index: u16, word: u64)
        requires { HasField (M.built self.old.message.now).spaces index }
        ensures { WritesView M.built (λ old new. IsFieldSet old new index word)
            self.old.message self.new.message }
    {
        self.message.set_word(index, word);
    }

    /// A data word; 0 past the last one.
    pub fn get_word(&self, index: u16) -> u64
        ensures root { ForRoot (M.built self.now.message.now).spaces
            (λ form. (words : List ℕ) → HasData form words →
            result ≡ slice_index_or words index 0) }
        ensures none { (M.built self.now.message.now).spaces ≡ [] → result ≡ 0 }
    {
        if index >= self.data_words() {
            return 0;
        }
        word_at(self.message.root_bytes(), index as u32)
    }

    /// The number of data words.
    pub fn data_words(&self) -> u16
        ensures count { ForRoot (M.built self.now.message.now).spaces
            (λ form. (words : List ℕ) → HasData form words → result ≡ length words) }
        ensures each { (index : ℕ) → index < result → HasField (M.built self.now.message.now).spaces index }
    {
        match self.message.root_kind() {
            RootKind::Struct(n) => n,
            _ => 0,
        }
    }
}
