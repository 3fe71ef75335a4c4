//! Templates of the code of structs, groups and enums, with `@name@` for what differs.

/// The head of each file.
pub const FILE: &str =
    "//! Types of `@file@`, made by `capnpc-rattle`: change that file, and make them again.
//!
//! In a crate of their own they are proved once. A program is proved soonest where a loop over
//! messages or a list has one line, a call: `add_message(&message?, &mut totals)?` (docs/GUIDE.md).
";

/// The types and the reader of a struct, before its fields.
pub const READER: &str = "/// The type of the schema.
pub struct Owned;

impl<'a, S: $ReaderSegments + 'a> $traits::Owned<'a, S> for Owned {
    type Reader = Reader<'a, S>;
}

/// A struct of this type in a message. What its writer left out reads as the default.
#[derive(Drop)]
pub struct Reader<'a, S: $ReaderSegments> {
    /// The struct whose fields these are.
    pub fields: $StructReader<'a, S>,
}
";

/// What comes before the getters of a struct.
pub const READER_IMPL: &str = "
impl<'a, S: $ReaderSegments> Reader<'a, S> {
";

/// The reader of a group.
pub const GROUP_READER: &str = "/// The group, in a struct in a message.
#[derive(Drop)]
pub struct Reader<'b, 'a, S: $ReaderSegments> {
    /// The struct whose fields these are.
    pub fields: &'b $StructReader<'a, S>,
}
";

/// What comes before the getters of a group.
pub const GROUP_IMPL: &str = "
impl<'b, 'a, S: $ReaderSegments> Reader<'b, 'a, S> {
";

/// How a struct is read, from a pointer and as an element of a list, and a list of such structs.
///
/// Speed: always inlined, since its result would be passed in memory.
pub const FROM_STRUCT: &str = "
impl<'a, S: $ReaderSegments> $upgraded::FromStruct<$StructReader<'a, S>> for Reader<'a, S> {
    ghost shown = { λ view. $struct_of S.segments view.fields };

    #[inline(always)]
    fn from_struct(fields: $StructReader<'a, S>) -> Reader<'a, S> {
        Reader { fields }
    }
}

/// A list of such structs, or of their first fields where an older writer had these.
pub type ListReader<'a, S> = $upgraded::Structs<'a, S, Reader<'a, S>>;
";

/// The getter of a field.
pub const GETTER: &str = "@signature@
    ensures { let fields = @fields@ in
        @fact@ }
{
    @body@
}
";

/// The getter of `Void`.
pub const VOID: &str = "pub fn get_@name@(&self) {}
";

/// What a clause says of an enum.
pub const ENUM_FACT: &str = "let number = @bits@ in
elim @value@ [
@cases@
]";

/// What a clause says of a view of a text.
pub const TEXT_FACT: &str = "$IsTextView @pointer@ @result@";

/// What a clause says of a view of data.
pub const DATA_FACT: &str = "$IsDataView @pointer@ @result@";

/// What a clause says of a view of a struct.
pub const STRUCT_FACT: &str = "$IsStructView @pointer@
(λ view. $struct_of @segments_of@ view.fields) @result@";

/// What a clause says of a view of a list of structs.
pub const STRUCTS_FACT: &str = "$IsStructsView @segments_of@ @pointer@ @result@";

/// What a clause says of a view of a list of pointers.
pub const POINTERS_FACT: &str = "$IsPointersView @segments_of@ @pointer@ @result@";

/// What a clause says of a view of a list of numbers.
pub const NUMBERS_FACT: &str = "$IsNumbersView @code@ @pointer@ @result@";

/// What a clause says of a view of a list of enums.
pub const ENUMS_FACT: &str = "$IsEnumsView @pointer@ @result@";

/// What a clause says of a pointer that has a default.
pub const DEFAULT_FACT: &str = "let pointer = $pointer_in fields @offset@ in
(($Denotes pointer $nothing → ⊥) → @stored@)
× ($Denotes pointer $nothing → (let pointer = $root_of @default@ in
@fact@))";

/// What a clause says of a struct whose default sets no pointers.
pub const DEFAULT_DATA_FACT: &str = "let pointer = $pointer_in fields @offset@ in
(($Denotes pointer $nothing → ⊥) → @stored@)
× ($Denotes pointer $nothing → $IsDefaultView ($root_of @default@) pointer
(λ view. $struct_of S.segments view.fields) @value@)";

/// What it says of a view that is bound to the segments that it reads.
pub const OR_DEFAULT_FACT: &str = "let pointer = $pointer_in fields @offset@ in
elim @value@ [
  | $OrDefault.Stored view ↦ ($Denotes pointer $nothing → ⊥) ×
      (@stored@)
  | $OrDefault.Default view ↦ $Denotes pointer $nothing ×
      (let pointer = $root_of @default@ in
      @fact@)
]";

/// How a view is read.
pub const VIEW_BODY: &str = "self.fields.get_pointer_as(@offset@)";

/// How a view that has a default is read.
pub const DEFAULT_BODY: &str = "let pointer = self.fields.get_pointer(@offset@);
if pointer.is_null() {
    get_@name@_default()
} else {
    $FromPointerReader::get_from_pointer(pointer)
}";

/// How a struct whose default sets no pointers is read.
pub const DEFAULT_DATA_BODY: &str = "let pointer = self.fields.get_pointer(@offset@);
if pointer.is_null() {
    match $capnp_wire::constant::default_data(&pointer, &@default@) {
        Ok(fields) => Ok(@path@::Reader { fields }),
        Err(error) => Err(error),
    }
} else {
    $FromPointerReader::get_from_pointer(pointer)
}";

/// How a view that is bound to the segments that it reads is read.
pub const OR_DEFAULT_BODY: &str = "let pointer = self.fields.get_pointer(@offset@);
if pointer.is_null() {
    $OrDefault::Default(get_@name@_default())
} else {
    $OrDefault::Stored($FromPointerReader::get_from_pointer(pointer))
}";

/// A constant or a default, as the words of a message.
pub const WORDS: &str = "pub static @name@: $Words<@size@> = $Words { bytes: [
    @lines@
] };
";

/// The words of a constant or a default are the words of its value in the schema.
pub const LAYOUT: &str = "
/// The words of `@name@` are the layout of the schema's value.
pub fn @law@_is_laid_out()
    ensures { $words_of @name@.bytes $≡ $layout
        @tree@ }
{}
";

/// What is said of words that no law names.
pub const NO_LAYOUT: &str = "
// No law says which value these words are: it is large, or a list of structs in it is empty.
";

/// What reads a constant or a default.
pub const GET_WORDS: &str = "
/// @title@
@signature@
    ensures { let pointer = $root_of @name@ in
        @fact@ }
{
    $capnp_wire::constant::view_of(&@name@)
}
";

/// What a clause says of a pointer, whatever it points to.
pub const ANY_POINTER_FACT: &str = "$pointer_of S.segments @value@ $≡ $pointer_in fields @offset@";

/// How a pointer that may point to anything is read.
pub const ANY_POINTER_BODY: &str = "self.fields.get_pointer(@offset@)";

/// How a float that has a default is read: by its bits, since a default may be a NaN.
pub const FLOAT_BODY: &str =
    "let bits: @bits@ = self.fields.get_data_field_mask(@offset@, @default@);
$PrimitiveElement::from_bits(@all@)";

/// Whether a pointer is there.
pub const HAS: &str = "
/// Whether `@field@` is there, and is not null.
pub fn has_@name@(&self) -> bool
    ensures { let fields = @fields@ in
        $IsTrue result $↔ ($Denotes ($pointer_in fields @offset@) $nothing → ⊥) }
{
    self.fields.has_pointer(@offset@)
}
";

/// What comes before the getter of a group.
///
/// Speed: it returns the address of the struct, so a call would take longer than its body.
pub const ALWAYS_INLINED: &str = "#[inline(always)]
";

/// How the reader of a group is made.
pub const GROUP_BODY: &str = "@name@::Reader {
    fields: @fields@,
}";

/// What is said of a field that has no getter.
pub const LEFT_OUT: &str =
    "// The field `@field@` is left out: it is an interface, or a list of them.
";

/// An enum, before its enumerants.
pub const ENUM_HEAD: &str = "#[derive(Clone, Copy, PartialEq, Eq, Hash, Debug)]
pub enum @type@ {
";

/// What follows the enumerants of an enum, and how a list's element is read as one of them.
pub const ENUM_END: &str = "    /// A number that the schema doesn't name.
    NotInSchema(u16),
}

impl @type@ {
    /// The enumerant of this number.
    pub fn from_number(number: u16) -> @type@
        ensures { elim result [
        @cases@
        ] }
    {
        match number {
            @arms@
        }
    }
}

impl $capnp_wire::upgraded::EnumElement for @type@ {
    ghost named = { @count@ };

    fn from_number(number: u16) -> @type@ {
        @type@::from_number(number)
    }
}
";

/// Which member of a union is set.
///
/// Speed: always inlined, since its result, which has the member's value, would be passed in
/// memory: where it is a call, `eval` takes 1.31 times the instructions (`tools/time classic`).
pub const WHICH: &str = "
/// Which member of the union is there, and its value.
#[inline(always)]
pub fn which(&self) -> Which@arguments@
    ensures { let fields = @fields@ in
        let number = $field fields.words 16 @offset@ in
        elim result [
        @cases@
        ] }
{
    match self.fields.get_data_field::<u16>(@offset@) {
        @arms@
    }
}
";

/// The case of a member that has a value, in a clause over the union.
pub const CASE: &str = "  | Which.@variant@ value ↦ (number $≡ @number@) × (@fact@)
";

/// The same case for a fact of several lines.
pub const LONG_CASE: &str = "  | Which.@variant@ value ↦ (number $≡ @number@) ×
      (@fact@)
";

/// The members of a union.
pub const MEMBERS: &str = "
/// The members of the union.
#[derive(Drop)]
pub enum Which@parameters@ {
    @variants@
    /// A number that the schema doesn't name.
    NotInSchema(u16),
}
";
