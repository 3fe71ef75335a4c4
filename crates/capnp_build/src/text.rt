//! Builders of `Text`.
ghost use Rattle.std.specs.Prelude.{◌≡◌, ℕ, ◌+◌, ◌-◌, ◌^◌, ◌/◌, ◌<◌, ◌≤◌, List, [], ◌∷◌, ◌++◌, length, take, min, replicate, true, false};
ghost use Rattle.capnp_frame.specs.declared.error.ErrorKind.TheVariants.{AllocationTooLarge};
ghost use Rattle.capnp_layout.specs.Prelude.{numbers};
ghost use Rattle.capnp_wire.specs.Prelude.{IsText, TakesText, TextFormError};
ghost use Rattle.capnp_build.specs.Built.{ForRoot};
ghost use Rattle.capnp_build.specs.Written.{HasBytes, IsBytesSet};
ghost use Rattle.capnp_build.specs.RootViews.{WritesView};

use crate::object::NewBody;
use crate::owned_builder::OwnedBuilder;
use crate::root_kind::RootKind;
use crate::view::{Building, View};
use capnp_frame::{Error, ErrorKind, Result};
use capnp_layout::limits::MAX_ELEMENTS;
pub use capnp_wire::text::Owned;

/// A `Text` that is written in place.
///
/// ```
/// let mut greeting: text::Builder<'_, Builder<HeapAllocator>> = message.initn_root(13)?;
/// greeting.write(0, b"Hello, World!");
/// assert_eq!(rt; greeting.as_bytes(), b"Hello, World!".as_slice());
/// ```
pub type Builder<'a, M> = View<'a, M, Owned>;

impl OwnedBuilder for Owned {
    ghost inits = { λ n form. form ≡ numbers 2 (replicate (n + 1) 0) };

    ghost fails = { λ n kind. (2 ^ 29 - 2 < n) × (kind ≡ AllocationTooLarge (n / 8 + 1)) };

    fn object(n: u32) -> Result<Option<NewBody>> {
        if n >= MAX_ELEMENTS {
            return Err(Error::from_kind(ErrorKind::AllocationTooLarge(n / 8 + 1)));
        }
        Ok(Some(NewBody::Bytes(n + 1)))
    }

    ghost takes = { TakesText };

    ghost form_error = { TextFormError };

    fn accept(shown: RootKind, bytes: &[u8]) -> Result<()> {
        match shown {
            RootKind::Null => Ok(()),
            RootKind::Bytes(n) => {
                let end = bytes.len().min(n as usize);
                if ends_with_zero(&bytes[..end]) {
                    return Ok(());
                }
                Err(Error::from_kind(ErrorKind::TextNotTerminated))
            }
            _ => Err(Error::from_kind(ErrorKind::WrongPointerKind)),
        }
    }
}

impl<'a, M: Building> View<'a, M, Owned> {
    /// Sets the byte at this index, which must be below `len`: the zero byte at the end stays.
    pub fn set(&mut self, index: u32, byte: u8)
        requires { HasBytes (M.built self.old.message.now).spaces index 2 }
        ensures { WritesView M.built (λ old new. IsBytesSet old new index (byte ∷ []))
            self.old.message self.new.message }
    {
        self.message.write_bytes(index, &[byte]);
    }

    /// Replaces bytes, from this index on. All of them must lie below `len`, since the zero byte at
    /// the end stays, and the root must be a `Text` even where `bytes` is empty.
    pub fn write(&mut self, index: u32, bytes: &[u8])
        requires { HasBytes (M.built self.old.message.now).spaces index (length bytes.now + 1) }
        ensures { WritesView M.built (λ old new. IsBytesSet old new index bytes.now)
            self.old.message self.new.message }
    {
        self.message.write_bytes(index, bytes);
    }

    /// The bytes in front of the zero byte at the end.
    pub fn as_bytes(&self) -> &[u8]
        ensures root { ForRoot (M.built self.now.message.now).spaces
            (λ form. (bytes : List ℕ) → IsText form bytes → result.now ≡ bytes) }
        ensures none { (M.built self.now.message.now).spaces ≡ [] → result.now ≡ [] }
    {
        match self.message.root_kind() {
            RootKind::Bytes(n) => before_the_last(self.message.root_bytes(), n),
            _ => &[],
        }
    }

    /// The number of bytes in front of the zero byte at the end.
    pub fn len(&self) -> u32
        ensures count { ForRoot (M.built self.now.message.now).spaces
            (λ form. (bytes : List ℕ) → IsText form bytes → result ≡ length bytes) }
        ensures each { (index count : ℕ) → 0 < count → index + count ≤ result →
            HasBytes (M.built self.now.message.now).spaces index (count + 1) }
    {
        match self.message.root_kind() {
            RootKind::Bytes(n) => n.saturating_sub(1),
            _ => 0,
        }
    }
}

// Whether these bytes are a `Text`: whether the last of them is zero.
fn ends_with_zero(bytes: &[u8]) -> bool
    ensures yes { result ≡ true → ((text : List ℕ) × (bytes.now ≡ text ++ 0 ∷ [])) }
    ensures no { result ≡ false → (text : List ℕ) → bytes.now ≡ text ++ 0 ∷ [] → ⊥ }
{
    let n = bytes.len();
    if n == 0 {
        return false;
    }
    if bytes[n - 1] != 0 {
        return false;
    }
    true
}

// The first `count` bytes without the last of them.
fn before_the_last(bytes: &[u8], count: u32) -> &[u8]
    ensures { result.now ≡ take (min (count - 1) (length bytes.now)) bytes.now }
{
    let end = (count.saturating_sub(1) as usize).min(bytes.len());
    &bytes[..end]
}
