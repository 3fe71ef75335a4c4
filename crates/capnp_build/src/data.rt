//! Builders of `Data`.
ghost use Rattle.std.specs.Prelude.{◌≡◌, ℕ, ◌+◌, ◌-◌, ◌*◌, ◌^◌, ◌/◌, ◌<◌, ◌≤◌, List, [], ◌∷◌, length, take, min, replicate};
ghost use Rattle.capnp_frame.specs.declared.error.ErrorKind.TheVariants.{AllocationTooLarge};
ghost use Rattle.capnp_layout.specs.Prelude.{numbers, words_for};
ghost use Rattle.capnp_wire.specs.Prelude.{IsData, TakesNumbers, NumbersFormError};
ghost use Rattle.capnp_build.specs.Built.{ForRoot};
ghost use Rattle.capnp_build.specs.Written.{HasBytes, IsBytesSet};
ghost use Rattle.capnp_build.specs.RootViews.{WritesView};

use crate::object::NewBody;
use crate::owned_builder::OwnedBuilder;
use crate::root_kind::RootKind;
use crate::view::{Building, View};
use capnp_frame::{Error, ErrorKind, Result};
use capnp_layout::limits::MAX_ELEMENTS;
pub use capnp_wire::data::Owned;

/// The bytes of a `Data`, written in place.
///
/// ```
/// let mut bytes: data::Builder<'_, Builder<HeapAllocator>> = message.initn_root(3)?;
/// bytes.write(0, b"ab");
/// bytes.set(2, 255);
/// assert_eq!(rt; bytes.as_bytes(), b"ab\xff".as_slice());
/// ```
pub type Builder<'a, M> = View<'a, M, Owned>;

impl OwnedBuilder for Owned {
    ghost inits = { λ n form. form ≡ numbers 2 (replicate n 0) };

    ghost fails = { λ n kind. (2 ^ 29 - 1 < n) × (kind ≡ AllocationTooLarge (words_for n 8)) };

    fn object(n: u32) -> Result<Option<NewBody>> {
        if n > MAX_ELEMENTS {
            return Err(Error::from_kind(ErrorKind::AllocationTooLarge(n.div_ceil(8))));
        }
        Ok(Some(NewBody::Bytes(n)))
    }

    ghost takes = { TakesNumbers 2 };

    ghost form_error = { NumbersFormError 2 };

    fn accept(shown: RootKind, bytes: &[u8]) -> Result<()> {
        match shown {
            RootKind::Null | RootKind::Bytes(_) => Ok(()),
            _ => Err(Error::from_kind(ErrorKind::WrongPointerKind)),
        }
    }
}

impl<'a, M: Building> View<'a, M, Owned> {
    /// Sets the byte at this index, which must be below `len`.
    pub fn set(&mut self, index: u32, byte: u8)
        requires { HasBytes (M.built self.old.message.now).spaces index 1 }
        ensures { WritesView M.built (λ old new. IsBytesSet old new index (byte ∷ []))
            self.old.message self.new.message }
    {
        self.message.write_bytes(index, &[byte]);
    }

    /// Replaces bytes, from this index on. All of them must lie below `len`, and the root must be a
    /// list of bytes even where `bytes` is empty.
    pub fn write(&mut self, index: u32, bytes: &[u8])
        requires { HasBytes (M.built self.old.message.now).spaces index (length bytes.now) }
        ensures { WritesView M.built (λ old new. IsBytesSet old new index bytes.now)
            self.old.message self.new.message }
    {
        self.message.write_bytes(index, bytes);
    }

    /// The bytes.
    pub fn as_bytes(&self) -> &[u8]
        ensures root { ForRoot (M.built self.now.message.now).spaces
            (λ form. (bytes : List ℕ) → IsData form bytes → result.now ≡ bytes) }
        ensures none { (M.built self.now.message.now).spaces ≡ [] → result.now ≡ [] }
    {
        match self.message.root_kind() {
            RootKind::Bytes(n) => first_of(self.message.root_bytes(), n),
            _ => &[],
        }
    }

    /// The number of bytes.
    pub fn len(&self) -> u32
        ensures count { ForRoot (M.built self.now.message.now).spaces
            (λ form. (bytes : List ℕ) → IsData form bytes → result ≡ length bytes) }
        ensures each { (index count : ℕ) → 0 < count → index + count ≤ result →
            HasBytes (M.built self.now.message.now).spaces index count }
    {
        match self.message.root_kind() {
            RootKind::Bytes(n) => n,
            _ => 0,
        }
    }
}

// The first `count` bytes.
fn first_of(bytes: &[u8], count: u32) -> &[u8]
    ensures { result.now ≡ take (min count (length bytes.now)) bytes.now }
{
    let end = (count as usize).min(bytes.len());
    &bytes[..end]
}
