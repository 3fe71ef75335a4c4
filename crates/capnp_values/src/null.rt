//! Null pointers.
use capnp_frame::Result;
use capnp_wire::traits::{Copied, SetterInput};

/// A null pointer, as a value of any type of a schema.
///
/// ```
/// message.set_root::<text::Owned, Null>(Null)?;
/// let name: text::Reader<'_> = message.get_root_as_reader()?;
/// assert!(rt; name.as_bytes().is_empty());
/// ```
#[derive(Clone, Copy)]
pub struct Null;

// It has no words, and its pointer is zero.
impl<T> SetterInput<T> for Null {
    ghost use Rattle.std.specs.Prelude.{◌≡◌};
    ghost use Rattle.capnp_layout.specs.Tree.{null, none, tree, count};
    ghost use Rattle.std.proofs.Common.{ap};

    ghost has_tree = { λ value trees. trees ≡ tree null none none };

    ghost fails = { λ value kind. ⊥ };

    ghost one = { λ value trees is. ap count is };

    fn measure(&self, _canonical: bool) -> Result<u32> {
        Ok(0)
    }

    fn is_null(&self) -> bool {
        true
    }

    fn write(&self, _canonical: bool, _block: &mut [u8], _following: usize, next: usize) -> Copied {
        Copied { pointer: 0, next }
    }
}
