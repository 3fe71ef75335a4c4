//! What code can import, by where it comes from, with commas between names.

/// What modules import: the crate that has it, the path in it, and names of it.
pub const ITEMS: &[(&str, &str, &str)] = &[
    ("capnp_wire", "::any_struct", "StructReader"),
    ("capnp_wire", "::constant", "OrDefault, Words"),
    ("capnp_frame", "::message", "ReaderSegments"),
    (
        "capnp_orphans",
        "",
        "Draft, GrowingSegment, Orphan, Orphanage, StructDraft",
    ),
    ("capnp_wire", "::primitive_element", "PrimitiveElement"),
    ("capnp_wire", "::traits", "FromPointerReader"),
    ("capnp_frame", "", "Result"),
    ("capnp_wire", "", "any_pointer, text, traits, upgraded"),
];

/// What clauses cite: a module of definitions, and names of it.
pub const DEFINITIONS: &[(&str, &str)] = &[
    (
        "std.specs.Prelude",
        "◌≡◌, ◌≤◌, ◌==◌, ◌↔◌, ◌≢◌, ◌∷◌, [], if◌then◌else◌, IfOk, IsTrue, bit_xor, from_bits, \
        to_bits, length, map, replicate, slice_index_or, slice_set",
    ),
    ("std.specs.Float", "binary32, binary64"),
    (
        "std.specs.Int",
        "w8, w16, w32, w64, cast_signed, cast_unsigned",
    ),
    (
        "capnp_orphans.specs.Adding",
        "AddsOrphan, AddsRoot, FailsToAdd, Writes",
    ),
    ("capnp_orphans.specs.Copied", "data_up_to, CopiesPointers"),
    (
        "capnp_orphans.specs.Holds",
        "word_of, HoldsStruct, HoldsStructs, TakesStructWords as StructWords, TakesStructsWords, \
        StructSizeError, ManyStructs",
    ),
    ("capnp_orphans.specs.Segments", "body_of"),
    ("capnp_values.specs.DataSections", "with_field"),
    ("capnp_wire.specs.Constants", "segments_of, root_of"),
    ("capnp_wire.specs.Fields", "field"),
    (
        "capnp_wire.specs.Getters",
        "IsTextView, IsDataView, IsStructView, IsStructsView, IsDefaultView, IsNumbersView, \
        IsEnumsView, IsPointersView",
    ),
    ("capnp_wire.specs.Layout", "layout"),
    ("capnp_wire.specs.Object", "nothing"),
    ("capnp_wire.specs.Pointer", "words_of"),
    ("capnp_wire.specs.Readers", "struct_of, pointer_of"),
    (
        "capnp_wire.specs.Tree",
        "none as NoTrees, tree as TreeOf, null as NullForm, struct as StructForm, \
        numbers as NumbersForm, pointers as PointersForm, structs as StructsForm",
    ),
    ("capnp_wire.specs.Views", "Denotes, pointer_in"),
];
