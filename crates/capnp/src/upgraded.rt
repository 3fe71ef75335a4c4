//! Lists whose elements became structs, or were structs before: their views.
pub use capnp_wire::upgraded::{
    DataList, EnumElement, EnumList, FromStruct, ListList, NumberList, OwnedStructs, PointerList,
    StructFields, StructList, Structs, TextList,
};
