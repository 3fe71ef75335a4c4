//! Builders of lists of numbers.
ghost use Rattle.std.specs.Prelude.{◌≡◌, ℕ, ◌+◌, ◌-◌, ◌*◌, ◌^◌, ◌/◌, ◌<◌, ◌≤◌, List, [], length, replicate, slice_index_or};
ghost use Rattle.capnp_frame.specs.declared.error.ErrorKind.TheVariants.{AllocationTooLarge};
ghost use Rattle.capnp_layout.specs.Prelude.{numbers};
ghost use Rattle.capnp_wire.specs.Prelude.{IsWords, TakesNumbers, NumbersFormError};
ghost use Rattle.capnp_build.specs.Built.{ForRoot};
ghost use Rattle.capnp_build.specs.Written.{HasNumber, IsNumberSet};
ghost use Rattle.capnp_build.specs.RootViews.{WritesView};

use crate::object::NewBody;
use crate::owned_builder::OwnedBuilder;
use crate::root_kind::{RootKind, word_at};
use crate::view::{Building, View};
use capnp_frame::{Error, ErrorKind, Result};
use capnp_layout::limits::MAX_ELEMENTS;
pub use capnp_wire::primitive_list::Owned;

/// A list of numbers that is written in place.
///
/// ```
/// let mut list: primitive_list::Builder<'_, Builder<HeapAllocator>, u64> = message.initn_root(2)?;
/// list.set(0, 500);
/// assert_eq!(rt; (list.len(), list.get(0), list.get(1)), (2, 500, 0));
/// ```
pub type Builder<'a, M, T> = View<'a, M, Owned<T>>;

impl OwnedBuilder for Owned<u64> {
    ghost inits = { λ n form. form ≡ numbers 5 (replicate n 0) };

    ghost fails = { λ n kind. (2 ^ 29 - 1 < n) × (kind ≡ AllocationTooLarge n) };

    fn object(n: u32) -> Result<Option<NewBody>> {
        if n > MAX_ELEMENTS {
            return Err(Error::from_kind(ErrorKind::AllocationTooLarge(n)));
        }
        Ok(Some(NewBody::Words(n)))
    }

    ghost takes = { TakesNumbers 5 };

    ghost form_error = { NumbersFormError 5 };

    fn accept(shown: RootKind, bytes: &[u8]) -> Result<()> {
        match shown {
            RootKind::Null | RootKind::Words(_) => Ok(()),
            _ => Err(Error::from_kind(ErrorKind::WrongPointerKind)),
        }
    }
}

impl<'a, M: Building> View<'a, M, Owned<u64>> {
    /// Sets the element at this index, which must be below `len`.
    pub fn set(&mut self, index: u32, number: u64)
        requires { HasNumber (M.built self.old.message.now).spaces index }
        ensures { WritesView M.built (λ old new. IsNumberSet old new index number)
            self.old.message self.new.message }
    {
        self.message.set_number(index, number);
    }

    /// An element; 0 past the last one.
    pub fn get(&self, index: u32) -> u64
        ensures root { ForRoot (M.built self.now.message.now).spaces
            (λ form. (words : List ℕ) → IsWords form words →
            result ≡ slice_index_or words index 0) }
        ensures none { (M.built self.now.message.now).spaces ≡ [] → result ≡ 0 }
    {
        if index >= self.len() {
            return 0;
        }
        word_at(self.message.root_bytes(), index)
    }

    /// The number of elements.
    pub fn len(&self) -> u32
        ensures count { ForRoot (M.built self.now.message.now).spaces
            (λ form. (words : List ℕ) → IsWords form words → result ≡ length words) }
        ensures each { (index : ℕ) → index < result → HasNumber (M.built self.now.message.now).spaces index }
    {
        match self.message.root_kind() {
            RootKind::Words(n) => n,
            _ => 0,
        }
    }
}
