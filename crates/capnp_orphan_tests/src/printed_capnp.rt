//! Types of `printed.capnp`, made by `capnpc-rattle`: change that file, and make them again.
//!
//! In a crate of their own they are proved once. A program is proved soonest where a loop over
//! messages or a list has one line, a call: `add_message(&message?, &mut totals)?` (docs/GUIDE.md).
ghost use Rattle.std.specs.Prelude.{◌≡◌, ◌≤◌, ◌↔◌, ◌∷◌, [], IsTrue, bit_xor, from_bits};
ghost use Rattle.std.specs.Float.{binary64};
ghost use Rattle.std.specs.Int.{w16, w32, cast_signed};
ghost use Rattle.capnp.specs.Made.{root_of, field, IsTextView, IsDataView, IsStructView, IsStructsView, IsEnumsView, layout, nothing, words_of, struct_of, pointer_of, NoTrees, TreeOf, NumbersForm, Denotes, pointer_in};

#[rattlefmt::skip]
pub mod printed {
    use capnp::any_struct::StructReader;
    use capnp::constant::Words;
    use capnp::message::ReaderSegments;
    use capnp::traits::FromPointerReader;
    use capnp::{Result, any_pointer, text, traits, upgraded};

    /// The type of the schema.
    pub struct Owned;

    impl<'a, S: ReaderSegments + 'a> traits::Owned<'a, S> for Owned {
        type Reader = Reader<'a, S>;
    }

    /// A struct of this type in a message. What its writer left out reads as the default.
    #[derive(Drop)]
    pub struct Reader<'a, S: ReaderSegments> {
        /// The struct whose fields these are.
        pub fields: StructReader<'a, S>,
    }

    impl<'a, S: ReaderSegments> Reader<'a, S> {
        /// The field `balance`.
        pub fn get_balance(&self) -> i16
            ensures { let fields = struct_of S.segments self.now.fields in
                result ≡
                cast_signed w16 (bit_xor (field fields.words 16 0) 65531) }
        {
            self.fields.get_data_field_mask(0, -5)
        }

        /// The field `ratio`.
        pub fn get_ratio(&self) -> f64
            ensures { let fields = struct_of S.segments self.now.fields in
                result ≡ from_bits binary64 (field fields.words 64 1) }
        {
            self.fields.get_data_field(1)
        }

        /// The field `color`.
        pub fn get_color(&self) -> Color
            ensures { let fields = struct_of S.segments self.now.fields in
                let number = field fields.words 16 1 in
                elim result [
                  | Color.Red ↦ number ≡ 0
                  | Color.DeepBlue ↦ number ≡ 1
                  | Color.NotInSchema unknown ↦ (unknown ≡ number) × (2 ≤ number)
                ] }
        {
            Color::from_number(self.fields.get_data_field(1))
        }

        /// The field `title`.
        pub fn get_title(&self) -> Result<text::Reader<'a>>
            ensures { let fields = struct_of S.segments self.now.fields in
                IsTextView (pointer_in fields 0) result }
        {
            self.fields.get_pointer_as(0)
        }

        /// Whether `title` is there, and is not null.
        pub fn has_title(&self) -> bool
            ensures { let fields = struct_of S.segments self.now.fields in
                IsTrue result ↔ (Denotes (pointer_in fields 0) nothing → ⊥) }
        {
            self.fields.has_pointer(0)
        }

        /// The field `payload`.
        pub fn get_payload(&self) -> Result<&'a [u8]>
            ensures { let fields = struct_of S.segments self.now.fields in
                IsDataView (pointer_in fields 1) result }
        {
            self.fields.get_pointer_as(1)
        }

        /// Whether `payload` is there, and is not null.
        pub fn has_payload(&self) -> bool
            ensures { let fields = struct_of S.segments self.now.fields in
                IsTrue result ↔ (Denotes (pointer_in fields 1) nothing → ⊥) }
        {
            self.fields.has_pointer(1)
        }

        /// The field `points`.
        pub fn get_points(&self) -> Result<point::ListReader<'a, S>>
            ensures { let fields = struct_of S.segments self.now.fields in
                IsStructsView S.segments (pointer_in fields 2) result }
        {
            self.fields.get_pointer_as(2)
        }

        /// Whether `points` is there, and is not null.
        pub fn has_points(&self) -> bool
            ensures { let fields = struct_of S.segments self.now.fields in
                IsTrue result ↔ (Denotes (pointer_in fields 2) nothing → ⊥) }
        {
            self.fields.has_pointer(2)
        }

        /// The field `colors`.
        pub fn get_colors(&self) -> Result<upgraded::EnumList<'a, Color>>
            ensures { let fields = struct_of S.segments self.now.fields in
                IsEnumsView (pointer_in fields 3) result }
        {
            self.fields.get_pointer_as(3)
        }

        /// Whether `colors` is there, and is not null.
        pub fn has_colors(&self) -> bool
            ensures { let fields = struct_of S.segments self.now.fields in
                IsTrue result ↔ (Denotes (pointer_in fields 3) nothing → ⊥) }
        {
            self.fields.has_pointer(3)
        }

        /// The field `any`.
        pub fn get_any(&self) -> any_pointer::Reader<'a, S>
            ensures { let fields = struct_of S.segments self.now.fields in
                pointer_of S.segments result ≡ pointer_in fields 4 }
        {
            self.fields.get_pointer(4)
        }

        /// Whether `any` is there, and is not null.
        pub fn has_any(&self) -> bool
            ensures { let fields = struct_of S.segments self.now.fields in
                IsTrue result ↔ (Denotes (pointer_in fields 4) nothing → ⊥) }
        {
            self.fields.has_pointer(4)
        }

        /// The field `size`.
        #[inline(always)]
        pub fn get_size(&self) -> size::Reader<'_, 'a, S>
            ensures { let fields = struct_of S.segments self.now.fields in
                struct_of S.segments result.fields.now ≡ fields }
        {
            size::Reader {
                fields: &self.fields,
            }
        }

        /// The field `nothing`.
        pub fn get_nothing(&self) {}

        /// The field `label`.
        pub fn get_label(&self) -> Result<text::Reader<'a>>
            ensures { let fields = struct_of S.segments self.now.fields in
                let pointer = pointer_in fields 5 in
                ((Denotes pointer nothing → ⊥) → IsTextView pointer result)
                × (Denotes pointer nothing → (let pointer = root_of LABEL_DEFAULT in
                IsTextView pointer result)) }
        {
            let pointer = self.fields.get_pointer(5);
            if pointer.is_null() {
                get_label_default()
            } else {
                FromPointerReader::get_from_pointer(pointer)
            }
        }

        /// Whether `label` is there, and is not null.
        pub fn has_label(&self) -> bool
            ensures { let fields = struct_of S.segments self.now.fields in
                IsTrue result ↔ (Denotes (pointer_in fields 5) nothing → ⊥) }
        {
            self.fields.has_pointer(5)
        }

        /// The field `inner`.
        pub fn get_inner(&self) -> Result<super::printed::Reader<'a, S>>
            ensures { let fields = struct_of S.segments self.now.fields in
                IsStructView (pointer_in fields 5)
                (λ view. struct_of S.segments view.fields) result }
        {
            self.fields.get_pointer_as(5)
        }

        /// Whether `inner` is there, and is not null.
        pub fn has_inner(&self) -> bool
            ensures { let fields = struct_of S.segments self.now.fields in
                IsTrue result ↔ (Denotes (pointer_in fields 5) nothing → ⊥) }
        {
            self.fields.has_pointer(5)
        }

        /// Which member of the union is there, and its value.
        #[inline(always)]
        pub fn which(&self) -> Which<'a, S>
            ensures { let fields = struct_of S.segments self.now.fields in
                let number = field fields.words 16 3 in
                elim result [
                  | Which.Nothing ↦ number ≡ 0
                  | Which.Label value ↦ (number ≡ 1) ×
                      (let pointer = pointer_in fields 5 in
                      ((Denotes pointer nothing → ⊥) → IsTextView pointer value)
                      × (Denotes pointer nothing → (let pointer = root_of LABEL_DEFAULT in
                      IsTextView pointer value)))
                  | Which.Inner value ↦ (number ≡ 2) ×
                      (IsStructView (pointer_in fields 5)
                      (λ view. struct_of S.segments view.fields) value)
                  | Which.NotInSchema unknown ↦ (unknown ≡ number) × (3 ≤ number)
                ] }
        {
            match self.fields.get_data_field::<u16>(3) {
                0 => Which::Nothing,
                1 => Which::Label(self.get_label()),
                2 => Which::Inner(self.get_inner()),
                unknown => Which::NotInSchema(unknown),
            }
        }
    }

    /// The members of the union.
    #[derive(Drop)]
    pub enum Which<'a, S: ReaderSegments> {
        Nothing,
        Label(Result<text::Reader<'a>>),
        Inner(Result<super::printed::Reader<'a, S>>),
        /// A number that the schema doesn't name.
        NotInSchema(u16),
    }

    impl<'a, S: ReaderSegments> upgraded::FromStruct<StructReader<'a, S>> for Reader<'a, S> {
        ghost shown = { λ view. struct_of S.segments view.fields };

        #[inline(always)]
        fn from_struct(fields: StructReader<'a, S>) -> Reader<'a, S> {
            Reader { fields }
        }
    }

    /// A list of such structs, or of their first fields where an older writer had these.
    pub type ListReader<'a, S> = upgraded::Structs<'a, S, Reader<'a, S>>;

    /// Which pointer of the struct points to `title`, for `fields.get_pointer`.
    pub const TITLE_POINTER: u16 = 0;

    /// Which pointer of the struct points to `payload`, for `fields.get_pointer`.
    pub const PAYLOAD_POINTER: u16 = 1;

    /// Which pointer of the struct points to `points`, for `fields.get_pointer`.
    pub const POINTS_POINTER: u16 = 2;

    /// Which pointer of the struct points to `colors`, for `fields.get_pointer`.
    pub const COLORS_POINTER: u16 = 3;

    /// Which pointer of the struct points to `any`, for `fields.get_pointer`.
    pub const ANY_POINTER: u16 = 4;

    /// Which pointer of the struct points to `label`, for `fields.get_pointer`.
    pub const LABEL_POINTER: u16 = 5;

    /// Which pointer of the struct points to `inner`, for `fields.get_pointer`.
    pub const INNER_POINTER: u16 = 5;

    pub static LABEL_DEFAULT: Words<16> = Words { bytes: [
        1, 0, 0, 0, 42, 0, 0, 0,
        110, 111, 110, 101, 0, 0, 0, 0,
    ] };

    /// The words of `LABEL_DEFAULT` are the layout of the schema's value.
    pub fn label_default_is_laid_out()
        ensures { words_of LABEL_DEFAULT.bytes ≡ layout
            (TreeOf (NumbersForm 2 (110 ∷ 111 ∷ 110 ∷ 101 ∷ 0 ∷ [])) NoTrees NoTrees) }
    {}

    /// The default of the field `label`.
    pub fn get_label_default() -> Result<text::Reader<'static>>
        ensures { let pointer = root_of LABEL_DEFAULT in
            IsTextView pointer result }
    {
        capnp::constant::view_of(&LABEL_DEFAULT)
    }

    pub mod size {
        use capnp::any_struct::StructReader;
        use capnp::message::ReaderSegments;

        /// The group, in a struct in a message.
        #[derive(Drop)]
        pub struct Reader<'b, 'a, S: ReaderSegments> {
            /// The struct whose fields these are.
            pub fields: &'b StructReader<'a, S>,
        }

        impl<'b, 'a, S: ReaderSegments> Reader<'b, 'a, S> {
            /// The field `width`.
            pub fn get_width(&self) -> u8
                ensures { let fields = struct_of S.segments self.now.fields.now in
                    result ≡ field fields.words 8 4 }
            {
                self.fields.get_data_field(4)
            }
        }
    }

    #[derive(Clone, Copy, PartialEq, Eq, Hash, Debug)]
    pub enum Color {
        Red,
        DeepBlue,
        /// A number that the schema doesn't name.
        NotInSchema(u16),
    }

    impl Color {
        /// The enumerant of this number.
        pub fn from_number(number: u16) -> Color
            ensures { elim result [
              | Color.Red ↦ number ≡ 0
              | Color.DeepBlue ↦ number ≡ 1
              | Color.NotInSchema unknown ↦ (unknown ≡ number) × (2 ≤ number)
            ] }
        {
            match number {
                0 => Color::Red,
                1 => Color::DeepBlue,
                unknown => Color::NotInSchema(unknown),
            }
        }
    }

    impl capnp::upgraded::EnumElement for Color {
        ghost named = { 2 };

        fn from_number(number: u16) -> Color {
            Color::from_number(number)
        }
    }

    pub mod point {
        use capnp::any_struct::StructReader;
        use capnp::message::ReaderSegments;
        use capnp::{traits, upgraded};

        /// The type of the schema.
        pub struct Owned;

        impl<'a, S: ReaderSegments + 'a> traits::Owned<'a, S> for Owned {
            type Reader = Reader<'a, S>;
        }

        /// A struct of this type in a message. What its writer left out reads as the default.
        #[derive(Drop)]
        pub struct Reader<'a, S: ReaderSegments> {
            /// The struct whose fields these are.
            pub fields: StructReader<'a, S>,
        }

        impl<'a, S: ReaderSegments> Reader<'a, S> {
            /// The field `x`.
            pub fn get_x(&self) -> i32
                ensures { let fields = struct_of S.segments self.now.fields in
                    result ≡ cast_signed w32 (field fields.words 32 0) }
            {
                self.fields.get_data_field(0)
            }

            /// The field `y`.
            pub fn get_y(&self) -> i32
                ensures { let fields = struct_of S.segments self.now.fields in
                    result ≡
                    cast_signed w32 (bit_xor (field fields.words 32 1) 3) }
            {
                self.fields.get_data_field_mask(1, 3)
            }
        }

        impl<'a, S: ReaderSegments> upgraded::FromStruct<StructReader<'a, S>> for Reader<'a, S> {
            ghost shown = { λ view. struct_of S.segments view.fields };

            #[inline(always)]
            fn from_struct(fields: StructReader<'a, S>) -> Reader<'a, S> {
                Reader { fields }
            }
        }

        /// A list of such structs, or of their first fields where an older writer had these.
        pub type ListReader<'a, S> = upgraded::Structs<'a, S, Reader<'a, S>>;
    }
}

/// How the structs of this file are printed: by a table of them and of the types in them.
#[rattlefmt::skip]
pub mod the_schema {
    use capnp::stringify::{self, Base, DefaultValue, Field, Schema, StructType, Type};
    use capnp::message::ReaderSegments;
    use std::alloc::{AllocError, Global};

    static SCHEMA: Schema = Schema {
        structs: &[
            // `Printed`
            StructType { discriminant: Some(3), fields: &[
                Field { name: "balance", member: None, offset: 0,
                    default: DefaultValue::Bits(65531), of: Type { lists: 0, base: Base::Int16 } },
                Field { name: "ratio", member: None, offset: 1,
                    default: DefaultValue::Bits(0), of: Type { lists: 0, base: Base::Float64 } },
                Field { name: "color", member: None, offset: 1,
                    default: DefaultValue::Bits(0), of: Type { lists: 0, base: Base::Enum(0) } },
                Field { name: "title", member: None, offset: 0,
                    default: DefaultValue::Bits(0), of: Type { lists: 0, base: Base::Text } },
                Field { name: "payload", member: None, offset: 1,
                    default: DefaultValue::Bits(0), of: Type { lists: 0, base: Base::Data } },
                Field { name: "points", member: None, offset: 2,
                    default: DefaultValue::Bits(0), of: Type { lists: 1, base: Base::Struct(1) } },
                Field { name: "colors", member: None, offset: 3,
                    default: DefaultValue::Bits(0), of: Type { lists: 1, base: Base::Enum(0) } },
                Field { name: "any", member: None, offset: 4,
                    default: DefaultValue::Bits(0), of: Type { lists: 0, base: Base::AnyPointer } },
                Field { name: "size", member: None, offset: 0,
                    default: DefaultValue::Bits(0), of: Type { lists: 0, base: Base::Group(2) } },
                Field { name: "nothing", member: Some(0), offset: 0,
                    default: DefaultValue::Bits(0), of: Type { lists: 0, base: Base::Void } },
                Field { name: "label", member: Some(1), offset: 5,
                    default: DefaultValue::Text("none"), of: Type { lists: 0, base: Base::Text } },
                Field { name: "inner", member: Some(2), offset: 5,
                    default: DefaultValue::Bits(0), of: Type { lists: 0, base: Base::Struct(0) } },
            ] },
            // `Point`
            StructType { discriminant: None, fields: &[
                Field { name: "x", member: None, offset: 0,
                    default: DefaultValue::Bits(0), of: Type { lists: 0, base: Base::Int32 } },
                Field { name: "y", member: None, offset: 1,
                    default: DefaultValue::Bits(3), of: Type { lists: 0, base: Base::Int32 } },
            ] },
            // `size`
            StructType { discriminant: None, fields: &[
                Field { name: "width", member: None, offset: 4,
                    default: DefaultValue::Bits(0), of: Type { lists: 0, base: Base::Uint8 } },
            ] },
        ],
        enums: &[
            &["red", "deepBlue"],
        ],
    };

    // The table, by a call: what names it takes the longer to prove, the larger it is.
    fn schema() -> &'static Schema {
        &SCHEMA
    }

    impl<'a, S: ReaderSegments> super::printed::Reader<'a, S> {
        /// The struct as text, as `capnp decode --short` prints it. `depth` says how many structs
        /// and lists may be within one another; deeper ones are shown as `(..)` and `[..]`. What
        /// can't be read is shown as its error, `<PointerOutOfBounds>`.
        ///
        /// Fails only when out of memory.
        pub fn to_text(&self, alloc: Global, depth: u32) -> Result<String, AllocError> {
            stringify::to_text(alloc, &self.fields, schema(), 0, depth)
        }
    }

    impl<'a, S: ReaderSegments> super::printed::point::Reader<'a, S> {
        /// The struct as text, as `capnp decode --short` prints it. `depth` says how many structs
        /// and lists may be within one another; deeper ones are shown as `(..)` and `[..]`. What
        /// can't be read is shown as its error, `<PointerOutOfBounds>`.
        ///
        /// Fails only when out of memory.
        pub fn to_text(&self, alloc: Global, depth: u32) -> Result<String, AllocError> {
            stringify::to_text(alloc, &self.fields, schema(), 1, depth)
        }
    }
}
