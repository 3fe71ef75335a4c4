//! The end of a struct's fields.
ghost use Rattle.std.specs.Prelude.{◌≡◌};

use crate::fields::Fields;
use capnp_frame::Result;
use capnp_wire::traits::TreeWords;

/// No fields.
///
/// ```
/// let empty = StructValue::new([], NoFields);
/// message.set_root::<any_struct::Owned, StructValue<0, NoFields>>(empty)?;
/// assert_eq!(rt; message.size_in_words(), 1);
/// ```
#[derive(Clone, Copy)]
pub struct NoFields;

impl Fields for NoFields {
    ghost use Rattle.capnp_layout.specs.Tree.{none};
    ghost use Rattle.capnp_values.specs.FieldLaws.{settled_none};

    ghost size = { 0 };

    ghost has_trees = { λ fields trees. trees ≡ none };

    ghost fails = { λ fields kind. ⊥ };

    ghost settled = { λ fields trees is. settled_none trees is };

    fn count() -> u32 {
        0
    }

    fn measure(&self, _canonical: bool) -> Result<TreeWords> {
        Ok(TreeWords {
            untrimmed: 0,
            output: 0,
        })
    }

    fn kept(&self, _canonical: bool) -> u32 {
        0
    }

    fn write(
        &self,
        _canonical: bool,
        _block: &mut [u8],
        _slot: usize,
        _count: u32,
        next: usize,
    ) -> usize {
        next
    }
}
