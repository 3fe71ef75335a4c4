//! Templates of the code that prints structs, with `@name@` for what differs.

/// What comes before the table of a file's types.
pub const MODULE: &str = "
/// How the structs of this file are printed: by a table of them and of the types in them.
pub mod the_schema {
";

/// The table.
pub const TABLE: &str =
    "use capnp::stringify::{self, Base, DefaultValue, Field, Schema, StructType, Type};
use $capnp_frame::message::ReaderSegments;
use std::alloc::{AllocError, Global};

static SCHEMA: Schema = Schema {
    structs: &[
        @structs@
    ],
    enums: &[
        @enums@
    ],
};

// The table, by a call: what names it takes the longer to prove, the larger it is.
fn schema() -> &'static Schema {
    &SCHEMA
}
";

/// A struct or a group in the table.
pub const STRUCT: &str = "// `@name@`
StructType { discriminant: @discriminant@, fields: &[
    @fields@
] },";

/// A field in the table.
pub const FIELD: &str = "Field { name: \"@name@\", member: @member@, offset: @offset@,
    default: DefaultValue::@default@, of: Type { lists: @lists@, base: Base::@base@ } },";

/// An enum in the table.
pub const ENUM: &str = "&[@names@],";

/// The method of a struct.
pub const METHOD: &str = "
impl<'a, S: ReaderSegments> super::@path@::Reader<'a, S> {
    /// The struct as text, as `capnp decode --short` prints it. `depth` says how many structs
    /// and lists may be within one another; deeper ones are shown as `(..)` and `[..]`. What
    /// can't be read is shown as its error, `<PointerOutOfBounds>`.
    ///
    /// Fails only when out of memory.
    pub fn to_text(&self, alloc: Global, depth: u32) -> Result<String, AllocError> {
        stringify::to_text(alloc, &self.fields, schema(), @number@, depth)
    }
}
";
