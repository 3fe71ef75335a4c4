//! Structs as text, by their schema: what `capnp decode --short` of the C++ tool prints.
//!
//! Types that `capnpc-rattle` writes with `print` have a method `to_text`, which calls `to_text`
//! here with a table of the schema.
ghost use Rattle.std.specs.Prelude.{◌≡◌, IfOk, codes, string_bytes};

mod fields;
mod floats;
mod literals;
mod numbers;
mod schema;
mod walk;

use crate::any_struct::StructReader;
use crate::message::ReaderSegments;
pub use crate::stringify::schema::{Base, DefaultValue, Field, Schema, StructType, Type};
use crate::stringify::walk::Walk;
use std::alloc::{AllocError, Global};

/// A struct as text, of the type of this number of a schema.
///
/// `depth` says how many structs and lists may be within one another; the struct is the first of
/// them, and a group counts as none. Deeper ones are not read: a struct is shown as `(..)` and a
/// list as `[..]`. Where the target of a pointer can't be read, or goes past the limits of its
/// reader, the text has its error, as `<PointerOutOfBounds>`, and goes on after it.
///
/// Fails only when out of memory.
///
/// ```
/// let account: any_struct::StructReader<'_, SegmentArray<'_>> = message.get_root()?;
/// let line = stringify::to_text(alloc, &account, &SCHEMA, 0, 64)?;
/// assert_eq!(rt; line.as_str(), "(balance = 12, color = red)");
/// ```
pub fn to_text<S: ReaderSegments>(
    alloc: Global,
    fields: &StructReader<'_, S>,
    schema: &Schema,
    of: u32,
    depth: u32,
) -> Result<String, AllocError>
    ensures { depth ≡ 0 → IfOk result (λ output. string_bytes output ≡ codes "(..)") }
{
    if depth == 0 {
        return String::from_str(alloc, "(..)");
    }
    let mut output = String::new(alloc);
    let mut walk = Walk::new(alloc, schema, fields);
    walk.open_root(&mut output, of, depth - 1)?;
    for _ in 0..u64::MAX {
        if !walk.go_on(&mut output)? {
            break;
        }
    }
    Ok(output)
}
