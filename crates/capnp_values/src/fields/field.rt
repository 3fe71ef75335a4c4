//! A field in front of the other fields of a struct.
ghost use Rattle.std.specs.Prelude.{◌≡◌};
ghost use Rattle.capnp_layout.specs.Prelude.{Form, Trees};
ghost use Rattle.capnp_values.specs.Fields.{IsPart, is_left_out};

use crate::fields::Fields;
use crate::measured::both;
use capnp_frame::Result;
use capnp_layout::pointer_word::put_word;
use capnp_wire::traits::{SetterInput, TreeWords};
use std::marker::PhantomData;

/// A field that is set to a value, in front of further fields. `T` is its type in a schema.
///
/// ```
/// let fields: Field<text::Owned, &str, NoFields> = Field::new("Ann", NoFields);
/// let named = StructValue::new([7], fields);
/// message.set_root::<any_struct::Owned, Named<'_>>(named)?;
/// let read: StructReader<'_, BuilderArena<HeapAllocator>> = message.get_root_as_reader()?;
/// let name: text::Reader<'_> = read.get_pointer_as(0)?;
/// assert_eq!(rt; name.as_bytes(), b"Ann".as_slice());
/// ```
#[derive(Drop)]
pub struct Field<T, V, F> {
    /// What it is set to.
    pub value: V,

    /// The fields after it.
    pub rest: F,

    /// The type of the field in a schema.
    pub schema: PhantomData<T>,
}

impl<T, V, F> Field<T, V, F> {
    /// Sets a field to a value, in front of these fields.
    pub fn new(value: V, rest: F) -> Field<T, V, F>
        ensures value { result.value ≡ value }
        ensures rest { result.rest ≡ rest }
    {
        Field {
            value,
            rest,
            schema: PhantomData,
        }
    }
}

impl<T, V: SetterInput<T>, F: Fields> Fields for Field<T, V, F> {
    ghost use Rattle.std.specs.Prelude.{◌+◌};
    ghost use Rattle.capnp_values.specs.Fields.{IsValueInFront, FieldsError};
    ghost use Rattle.capnp_values.specs.FieldLaws.{settled_more};

    ghost size = { F.size + 1 };

    ghost has_trees = { λ fields trees. IsValueInFront (V.has_tree fields.value) (F.has_trees fields.rest) trees };

    ghost fails = { λ fields kind.
        FieldsError (V.has_tree fields.value) (V.fails fields.value) (F.fails fields.rest) kind };

    ghost settled = { λ fields trees is.
        settled_more F.size trees (V.has_tree fields.value) (F.has_trees fields.rest) is
        (F.settled fields.rest is.rest is.others) };

    fn count() -> u32 {
        let more = F::count() + 1;
        if more < 1 << 16 { more } else { 1 << 16 }
    }

    fn measure(&self, canonical: bool) -> Result<TreeWords> {
        let own = self.value.measure_part(canonical)?;
        let rest = self.rest.measure(canonical)?;
        Ok(both(own, rest))
    }

    fn untrimmed(&self) -> Result<u64> {
        let own = self.value.measure(false)?;
        let rest = self.rest.untrimmed()?;
        Ok(own as u64 + rest)
    }

    fn kept(&self, canonical: bool) -> u32 {
        let rest = self.rest.kept(canonical);
        if is_left_out(&self.value, canonical, rest) {
            return 0;
        }
        rest + 1
    }

    fn write(
        &self,
        canonical: bool,
        block: &mut [u8],
        slot: usize,
        count: u32,
        next: usize,
    ) -> usize {
        if count == 0 {
            return next;
        }
        let copied = self.value.write(canonical, block, slot + 1, next);
        put_word(block, slot, copied.pointer);
        self.rest
            .write(canonical, block, slot + 1, count - 1, copied.next)
    }
}

// Whether a value is left out, where the fields after it keep this many pointers.
fn is_left_out<T, V: SetterInput<T>>(value: &V, canonical: bool, after: u32) -> bool
    ensures { (form : Form) (children : Trees) → IsPart (V.has_tree value.now) form children →
        result ≡ is_left_out canonical after form }
{
    if !canonical {
        return false;
    }
    if after > 0 {
        return false;
    }
    value.is_null()
}
