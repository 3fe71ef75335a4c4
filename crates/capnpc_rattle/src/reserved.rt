//! Names that a schema may have, but its code may not: a `_` is added to these.
use crate::imports::is_definition;

/// Words that are no names of modules: words of the language, crates that the code names, and what
/// a struct's module declares apart from the modules of groups and of declarations in it.
const MODULES: &[&str] = &[
    "abstract any_pointer anyhow as async await become box builder break capnp capnp_frame capnp_orphans",
    "capnp_wire const continue core crate deriving do dyn else ensures enum extern false final fn for gen",
    "ghost if impl in let lib list_reader loop macro match mod move mut override owned owned_list prim",
    "priv pub reader ref requires return self static std struct super text trait true try type unsafe",
    "upgraded use where which while yield",
];

/// Words that are no names of enums: names in the module of a struct, names that the code uses
/// without a path, and words of clauses.
const ENUMS: &[&str] = &[
    "Builder Clone Copy Debug Draft Drop Eq Err FromPointerReader GrowingSegment Hash ListReader",
    "None Ok Option OrDefault Orphan Orphanage Owned OwnedList PartialEq PrimitiveElement R Reader",
    "ReaderSegments Result S Self Some StructDraft StructReader T Unit Which Words",
];

/// Words that are no names of variants.
const VARIANTS: &[&str] = &["Below", "NotInSchema", "Self"];

/// Whether one of these lines, of words with spaces between them, has the name.
pub fn has(lines: &[&str], name: &str) -> bool {
    lines
        .iter()
        .any(|line| line.split(' ').any(|word| word == name))
}

/// Whether a module can't have this name, in small letters.
pub fn is_taken_module(name: &str) -> bool {
    has(MODULES, name) || name.starts_with("the_")
}

/// Whether an enum can't have this name.
pub fn is_taken_enum(name: &str) -> bool {
    has(ENUMS, name) || name.starts_with("The") || is_definition(name)
}

/// Whether a variant can't have this name.
pub fn is_taken_variant(name: &str) -> bool {
    has(VARIANTS, name) || name.starts_with("The")
}

/// Whether a constant can't have this name, in capital letters.
pub fn is_taken_constant(name: &str) -> bool {
    name == "R" || name == "S"
}
