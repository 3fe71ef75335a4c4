//! Values as objects.
ghost use Rattle.std.specs.Prelude.{◌≡◌};

use crate::object::Object;
use capnp_frame::Result;
use capnp_layout::pointer_word::moved;
use capnp_wire::traits::SetterInput;
use std::marker::PhantomData;

/// A value that a pointer can be set to, as an object.
///
/// ```
/// let value = Value::<text::Owned, &str>::new(&"hi");
/// assert_eq!(rt; value.measure()?, 1);
/// ```
#[derive(Drop)]
pub struct Value<'a, T, V> {
    value: &'a V,
    schema: PhantomData<T>,
}

impl<'a, T, V> Value<'a, T, V> {
    /// The object of a value.
    pub fn new(value: &'a V) -> Value<'a, T, V>
        ensures { result.value.now ≡ value.now }
    {
        Value {
            value,
            schema: PhantomData,
        }
    }
}

impl<'a, T, V: SetterInput<T>> Object for Value<'a, T, V> {
    ghost use Rattle.std.specs.Prelude.{false, true};
    ghost use Rattle.capnp_wire.specs.Values.{HasWords, WordsError};
    ghost use Rattle.capnp_orphans.specs.Holds.{HoldsValue};

    ghost holds = { λ object old new word. HoldsValue (V.has_tree object.value.now) new word };

    ghost takes = { λ object words. HasWords (V.has_tree object.value.now) false words };

    ghost fails = { λ object kind.
        WordsError (V.has_tree object.value.now) (V.fails object.value.now) false kind };

    ghost wants_zeros = { λ object. true };

    #[inline(always)]
    fn measure(&self) -> Result<u32> {
        self.value.measure(false)
    }

    #[inline(always)]
    fn wants_zeros(&self) -> bool {
        true
    }

    #[inline(always)]
    fn write(&self, start: u32, block: &mut [u8]) -> u64 {
        let copied = self.value.write(false, block, 0, 0);
        moved(copied.pointer, start)
    }
}
