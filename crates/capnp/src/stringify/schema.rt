//! The types of a schema, as a table in a program's static data.
ghost use Rattle.std.specs.Prelude.{◌≡◌, ◌↔◌, ◌%◌, IsTrue};
ghost use Rattle.capnp.specs.PrintedFields.{IsPointer};

/// The structs and enums that the structs of a schema have in their fields, at any depth.
///
/// ```
/// static SCHEMA: Schema = Schema {
///     structs: &[ACCOUNT],
///     enums: &[&["red", "blue"]],
/// };
/// ```
#[derive(Clone, Copy)]
pub struct Schema {
    /// The structs and groups, by the numbers that types name them with.
    pub structs: &'static [StructType],
    /// The names of each enum's enumerants, by their numbers.
    pub enums: &'static [&'static [&'static str]],
}

/// A struct, or a group of one.
///
/// ```
/// const ACCOUNT: StructType = StructType {
///     discriminant: None,
///     fields: &[BALANCE_FIELD, COLOR_FIELD, TAGS_FIELD],
/// };
/// ```
#[derive(Clone, Copy)]
pub struct StructType {
    /// Where the number is that says which member of the union is set, in units of two bytes; none
    /// if there is no union.
    pub discriminant: Option<u32>,
    /// The fields, in the order of the schema's node.
    pub fields: &'static [Field],
}

/// A field.
///
/// ```
/// const BALANCE_FIELD: Field = Field {
///     name: "balance",
///     member: None,
///     of: INT32,
///     offset: 0,
///     default: DefaultValue::Bits(0),
/// };
/// ```
#[derive(Clone, Copy)]
pub struct Field {
    pub name: &'static str,
    /// Its number among the members of the union, if it is one.
    pub member: Option<u16>,
    pub of: Type,
    /// Where it is, in units of its own width, or among the pointers; 0 for `Void` and for a group.
    pub offset: u32,
    pub default: DefaultValue,
}

/// A type: for lists of lists, the type of the innermost elements, and how deep the lists are
/// nested.
///
/// ```
/// const TEXT_LIST: Type = Type {
///     lists: 1,
///     base: Base::Text,
/// };
/// ```
#[derive(Clone, Copy)]
pub struct Type {
    /// How many lists there are around the base; 0 for the base itself.
    pub lists: u32,
    pub base: Base,
}

/// A type that is no list.
///
/// ```
/// const COLOR: Type = Type {
///     lists: 0,
///     base: Base::Enum(0),
/// };
/// ```
#[derive(Clone, Copy)]
pub enum Base {
    Void,
    Bool,
    Int8,
    Int16,
    Int32,
    Int64,
    Uint8,
    Uint16,
    Uint32,
    Uint64,
    Float32,
    Float64,
    Text,
    Data,
    /// An enum, by its number in the schema's table.
    Enum(u32),
    /// A struct, by its number in the schema's table.
    Struct(u32),
    /// A group, whose fields are in the struct that it is a field of.
    Group(u32),
    Interface,
    AnyPointer,
}

/// The default of a field.
///
/// ```
/// const COLOR_FIELD: Field = Field {
///     name: "color",
///     member: None,
///     of: COLOR,
///     offset: 2,
///     default: DefaultValue::Bits(1),
/// };
/// ```
#[derive(Clone, Copy)]
pub enum DefaultValue {
    /// The bits of a number, a bool or an enum; 0 for other types.
    Bits(u64),
    Text(&'static str),
    Data(&'static [u8]),
}

impl Schema {
    /// A field of a struct; none past the last one.
    pub(crate) fn field(&self, of: u32, index: usize) -> Option<Field> {
        let of = self.structs.get(of as usize)?;
        of.fields.get(index).copied()
    }

    /// Where the number of a struct's union is, if it has one.
    pub(crate) fn discriminant(&self, of: u32) -> Option<u32> {
        self.structs.get(of as usize)?.discriminant
    }

    /// The name of an enumerant; none for a number that the schema doesn't name.
    pub(crate) fn enumerant(&self, of: u32, number: u16) -> Option<&'static str> {
        let names = self.enums.get(of as usize)?;
        names.get(number as usize).copied()
    }
}

impl Field {
    /// Its index among the pointers, where it is one.
    pub(crate) fn pointer_index(&self) -> u16
        ensures { result ≡ self.now.offset % 65536 }
    {
        (self.offset % 65536) as u16
    }

    /// The bits of its default, where it is in the data section.
    pub(crate) fn default_bits(&self) -> u64 {
        match self.default {
            DefaultValue::Bits(bits) => bits,
            _ => 0,
        }
    }
}

impl Type {
    /// Whether a field of it is a pointer.
    pub(crate) fn is_pointer(&self) -> bool
        ensures { IsTrue result ↔ IsPointer self.now.lists self.now.base }
    {
        self.lists > 0
            || matches!(
                self.base,
                Base::Text | Base::Data | Base::Struct(_) | Base::Interface | Base::AnyPointer
            )
    }

    /// The type of a list's elements.
    pub(crate) fn element(&self) -> Type {
        Type {
            lists: self.lists.saturating_sub(1),
            base: self.base,
        }
    }
}
