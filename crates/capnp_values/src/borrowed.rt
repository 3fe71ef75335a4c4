//! Borrowed values.
ghost use Rattle.std.specs.Prelude.{◌≡◌};

mod sections;

use capnp_frame::Result;
use capnp_wire::traits::{Copied, SetterInput, TreeWords};

/// A borrowed value: it can be set more than once, and be a part of more than one value.
///
/// ```
/// let point: Point = StructValue::new([3, 4], NoFields);
/// message.set_root::<any_struct::Owned, Borrowed<'_, Point>>(Borrowed::new(&point))?;
/// other.set_root::<any_struct::Owned, Borrowed<'_, Point>>(Borrowed::new(&point))?;
/// assert_eq!(rt; (message.size_in_words(), other.size_in_words()), (3, 3));
/// ```
#[derive(Clone, Copy)]
pub struct Borrowed<'a, V> {
    /// The value.
    pub value: &'a V,
}

impl<'a, V> Borrowed<'a, V> {
    /// Borrows a value.
    pub fn new(value: &'a V) -> Borrowed<'a, V>
        ensures { result.value.now ≡ value.now }
    {
        Borrowed { value }
    }
}

// Has the tree of the value.
impl<'a, T, V: SetterInput<T>> SetterInput<T> for Borrowed<'a, V> {
    ghost has_tree = { λ value trees. V.has_tree value.value.now trees };

    ghost fails = { λ value kind. V.fails value.value.now kind };

    ghost one = { λ value trees is. V.one value.value.now trees is };

    fn measure(&self, canonical: bool) -> Result<u32> {
        self.value.measure(canonical)
    }

    fn measure_part(&self, canonical: bool) -> Result<TreeWords> {
        self.value.measure_part(canonical)
    }

    fn is_null(&self) -> bool {
        self.value.is_null()
    }

    fn write(&self, canonical: bool, block: &mut [u8], following: usize, next: usize) -> Copied {
        self.value.write(canonical, block, following, next)
    }
}
