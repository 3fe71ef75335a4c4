//! Types of `schema.capnp`, made by `capnpc-rattle`: change that file, and make them again.
//!
//! In a crate of their own they are proved once. A program is proved soonest where a loop over
//! messages or a list has one line, a call: `add_message(&message?, &mut totals)?` (docs/GUIDE.md).
ghost use Rattle.std.specs.Prelude.{◌≡◌, ◌≤◌, ◌==◌, ◌↔◌, IsTrue, bit_xor, from_bits};
ghost use Rattle.std.specs.Float.{binary32, binary64};
ghost use Rattle.std.specs.Int.{w8, w16, w32, w64, cast_signed};
ghost use Rattle.capnp_wire.specs.Fields.{field};
ghost use Rattle.capnp_wire.specs.Getters.{IsTextView, IsDataView, IsStructView, IsStructsView};
ghost use Rattle.capnp_wire.specs.Object.{nothing};
ghost use Rattle.capnp_wire.specs.Readers.{struct_of, pointer_of};
ghost use Rattle.capnp_wire.specs.Views.{Denotes, pointer_in};

#[rattlefmt::skip]
pub mod node {
    use capnp_wire::any_struct::StructReader;
    use capnp_frame::message::ReaderSegments;
    use capnp_frame::Result;
    use capnp_wire::{text, traits, upgraded};

    /// The type of the schema.
    pub struct Owned;

    impl<'a, S: ReaderSegments + 'a> traits::Owned<'a, S> for Owned {
        type Reader = Reader<'a, S>;
    }

    /// A struct of this type in a message. What its writer left out reads as the default.
    #[derive(Drop)]
    pub struct Reader<'a, S: ReaderSegments> {
        /// The struct whose fields these are.
        pub fields: StructReader<'a, S>,
    }

    impl<'a, S: ReaderSegments> Reader<'a, S> {
        /// The field `id`.
        pub fn get_id(&self) -> u64
            ensures { let fields = struct_of S.segments self.now.fields in
                result ≡ field fields.words 64 0 }
        {
            self.fields.get_data_field(0)
        }

        /// The field `displayName`.
        pub fn get_display_name(&self) -> Result<text::Reader<'a>>
            ensures { let fields = struct_of S.segments self.now.fields in
                IsTextView (pointer_in fields 0) result }
        {
            self.fields.get_pointer_as(0)
        }

        /// Whether `displayName` is there, and is not null.
        pub fn has_display_name(&self) -> bool
            ensures { let fields = struct_of S.segments self.now.fields in
                IsTrue result ↔ (Denotes (pointer_in fields 0) nothing → ⊥) }
        {
            self.fields.has_pointer(0)
        }

        /// How many bytes of `displayName` are in front of the name that the node has in its scope.
        pub fn get_display_name_prefix_length(&self) -> u32
            ensures { let fields = struct_of S.segments self.now.fields in
                result ≡ field fields.words 32 2 }
        {
            self.fields.get_data_field(2)
        }

        /// The node in which it is declared; 0 for a file.
        pub fn get_scope_id(&self) -> u64
            ensures { let fields = struct_of S.segments self.now.fields in
                result ≡ field fields.words 64 2 }
        {
            self.fields.get_data_field(2)
        }

        /// The field `nestedNodes`.
        pub fn get_nested_nodes(&self) -> Result<nested_node::ListReader<'a, S>>
            ensures { let fields = struct_of S.segments self.now.fields in
                IsStructsView S.segments (pointer_in fields 1) result }
        {
            self.fields.get_pointer_as(1)
        }

        /// Whether `nestedNodes` is there, and is not null.
        pub fn has_nested_nodes(&self) -> bool
            ensures { let fields = struct_of S.segments self.now.fields in
                IsTrue result ↔ (Denotes (pointer_in fields 1) nothing → ⊥) }
        {
            self.fields.has_pointer(1)
        }

        /// The field `annotations`.
        pub fn get_annotations(&self) -> Result<super::annotation::ListReader<'a, S>>
            ensures { let fields = struct_of S.segments self.now.fields in
                IsStructsView S.segments (pointer_in fields 2) result }
        {
            self.fields.get_pointer_as(2)
        }

        /// Whether `annotations` is there, and is not null.
        pub fn has_annotations(&self) -> bool
            ensures { let fields = struct_of S.segments self.now.fields in
                IsTrue result ↔ (Denotes (pointer_in fields 2) nothing → ⊥) }
        {
            self.fields.has_pointer(2)
        }

        /// The field `file`.
        pub fn get_file(&self) {}

        /// The field `struct`.
        #[inline(always)]
        pub fn get_struct(&self) -> struct_::Reader<'_, 'a, S>
            ensures { let fields = struct_of S.segments self.now.fields in
                struct_of S.segments result.fields.now ≡ fields }
        {
            struct_::Reader {
                fields: &self.fields,
            }
        }

        /// The field `enum`.
        #[inline(always)]
        pub fn get_enum(&self) -> enum_::Reader<'_, 'a, S>
            ensures { let fields = struct_of S.segments self.now.fields in
                struct_of S.segments result.fields.now ≡ fields }
        {
            enum_::Reader {
                fields: &self.fields,
            }
        }

        /// The field `interface`.
        pub fn get_interface(&self) {}

        /// The field `const`.
        #[inline(always)]
        pub fn get_const(&self) -> const_::Reader<'_, 'a, S>
            ensures { let fields = struct_of S.segments self.now.fields in
                struct_of S.segments result.fields.now ≡ fields }
        {
            const_::Reader {
                fields: &self.fields,
            }
        }

        /// Which member of the union is there, and its value.
        #[inline(always)]
        pub fn which(&self) -> Which<'_, 'a, S>
            ensures { let fields = struct_of S.segments self.now.fields in
                let number = field fields.words 16 6 in
                elim result [
                  | Which.File ↦ number ≡ 0
                  | Which.Struct value ↦ (number ≡ 1) ×
                      (struct_of S.segments value.fields.now ≡ fields)
                  | Which.Enum value ↦ (number ≡ 2) ×
                      (struct_of S.segments value.fields.now ≡ fields)
                  | Which.Interface ↦ number ≡ 3
                  | Which.Const value ↦ (number ≡ 4) ×
                      (struct_of S.segments value.fields.now ≡ fields)
                  | Which.NotInSchema unknown ↦ (unknown ≡ number) × (5 ≤ number)
                ] }
        {
            match self.fields.get_data_field::<u16>(6) {
                0 => Which::File,
                1 => Which::Struct(self.get_struct()),
                2 => Which::Enum(self.get_enum()),
                3 => Which::Interface,
                4 => Which::Const(self.get_const()),
                unknown => Which::NotInSchema(unknown),
            }
        }
    }

    /// The members of the union.
    #[derive(Drop)]
    pub enum Which<'b, 'a, S: ReaderSegments> {
        File,
        Struct(struct_::Reader<'b, 'a, S>),
        Enum(enum_::Reader<'b, 'a, S>),
        Interface,
        Const(const_::Reader<'b, 'a, S>),
        /// A number that the schema doesn't name.
        NotInSchema(u16),
    }

    impl<'a, S: ReaderSegments> upgraded::FromStruct<StructReader<'a, S>> for Reader<'a, S> {
        ghost shown = { λ view. struct_of S.segments view.fields };

        #[inline(always)]
        fn from_struct(fields: StructReader<'a, S>) -> Reader<'a, S> {
            Reader { fields }
        }
    }

    /// A list of such structs, or of their first fields where an older writer had these.
    pub type ListReader<'a, S> = upgraded::Structs<'a, S, Reader<'a, S>>;

    /// Which pointer of the struct points to `displayName`, for `fields.get_pointer`.
    pub const DISPLAY_NAME_POINTER: u16 = 0;

    /// Which pointer of the struct points to `nestedNodes`, for `fields.get_pointer`.
    pub const NESTED_NODES_POINTER: u16 = 1;

    /// Which pointer of the struct points to `annotations`, for `fields.get_pointer`.
    pub const ANNOTATIONS_POINTER: u16 = 2;

    pub mod struct_ {
        use capnp_wire::any_struct::StructReader;
        use capnp_frame::message::ReaderSegments;
        use capnp_frame::Result;

        /// The group, in a struct in a message.
        #[derive(Drop)]
        pub struct Reader<'b, 'a, S: ReaderSegments> {
            /// The struct whose fields these are.
            pub fields: &'b StructReader<'a, S>,
        }

        impl<'b, 'a, S: ReaderSegments> Reader<'b, 'a, S> {
            /// The field `dataWordCount`.
            pub fn get_data_word_count(&self) -> u16
                ensures { let fields = struct_of S.segments self.now.fields.now in
                    result ≡ field fields.words 16 7 }
            {
                self.fields.get_data_field(7)
            }

            /// The field `pointerCount`.
            pub fn get_pointer_count(&self) -> u16
                ensures { let fields = struct_of S.segments self.now.fields.now in
                    result ≡ field fields.words 16 12 }
            {
                self.fields.get_data_field(12)
            }

            /// For the place of what follows.
            pub fn get_preferred_list_encoding(&self) -> u16
                ensures { let fields = struct_of S.segments self.now.fields.now in
                    result ≡ field fields.words 16 13 }
            {
                self.fields.get_data_field(13)
            }

            /// The field `isGroup`.
            pub fn get_is_group(&self) -> bool
                ensures { let fields = struct_of S.segments self.now.fields.now in
                    result ≡ (field fields.words 1 224 == 1) }
            {
                self.fields.get_data_field(224)
            }

            /// How many members its union has, or 0.
            pub fn get_discriminant_count(&self) -> u16
                ensures { let fields = struct_of S.segments self.now.fields.now in
                    result ≡ field fields.words 16 15 }
            {
                self.fields.get_data_field(15)
            }

            /// In units of 16 bits.
            pub fn get_discriminant_offset(&self) -> u32
                ensures { let fields = struct_of S.segments self.now.fields.now in
                    result ≡ field fields.words 32 8 }
            {
                self.fields.get_data_field(8)
            }

            /// The field `fields`.
            pub fn get_fields(&self) -> Result<super::super::field::ListReader<'a, S>>
                ensures { let fields = struct_of S.segments self.now.fields.now in
                    IsStructsView S.segments (pointer_in fields 3) result }
            {
                self.fields.get_pointer_as(3)
            }

            /// Whether `fields` is there, and is not null.
            pub fn has_fields(&self) -> bool
                ensures { let fields = struct_of S.segments self.now.fields.now in
                    IsTrue result ↔ (Denotes (pointer_in fields 3) nothing → ⊥) }
            {
                self.fields.has_pointer(3)
            }
        }

        /// Which pointer of the struct points to `fields`, for `fields.get_pointer`.
        pub const FIELDS_POINTER: u16 = 3;
    }

    pub mod enum_ {
        use capnp_wire::any_struct::StructReader;
        use capnp_frame::message::ReaderSegments;
        use capnp_frame::Result;

        /// The group, in a struct in a message.
        #[derive(Drop)]
        pub struct Reader<'b, 'a, S: ReaderSegments> {
            /// The struct whose fields these are.
            pub fields: &'b StructReader<'a, S>,
        }

        impl<'b, 'a, S: ReaderSegments> Reader<'b, 'a, S> {
            /// The field `enumerants`.
            pub fn get_enumerants(&self) -> Result<super::super::enumerant::ListReader<'a, S>>
                ensures { let fields = struct_of S.segments self.now.fields.now in
                    IsStructsView S.segments (pointer_in fields 3) result }
            {
                self.fields.get_pointer_as(3)
            }

            /// Whether `enumerants` is there, and is not null.
            pub fn has_enumerants(&self) -> bool
                ensures { let fields = struct_of S.segments self.now.fields.now in
                    IsTrue result ↔ (Denotes (pointer_in fields 3) nothing → ⊥) }
            {
                self.fields.has_pointer(3)
            }
        }

        /// Which pointer of the struct points to `enumerants`, for `fields.get_pointer`.
        pub const ENUMERANTS_POINTER: u16 = 3;
    }

    pub mod const_ {
        use capnp_wire::any_struct::StructReader;
        use capnp_frame::message::ReaderSegments;
        use capnp_frame::Result;

        /// The group, in a struct in a message.
        #[derive(Drop)]
        pub struct Reader<'b, 'a, S: ReaderSegments> {
            /// The struct whose fields these are.
            pub fields: &'b StructReader<'a, S>,
        }

        impl<'b, 'a, S: ReaderSegments> Reader<'b, 'a, S> {
            /// The field `type`.
            pub fn get_type(&self) -> Result<super::super::type_::Reader<'a, S>>
                ensures { let fields = struct_of S.segments self.now.fields.now in
                    IsStructView (pointer_in fields 3)
                    (λ view. struct_of S.segments view.fields) result }
            {
                self.fields.get_pointer_as(3)
            }

            /// Whether `type` is there, and is not null.
            pub fn has_type(&self) -> bool
                ensures { let fields = struct_of S.segments self.now.fields.now in
                    IsTrue result ↔ (Denotes (pointer_in fields 3) nothing → ⊥) }
            {
                self.fields.has_pointer(3)
            }

            /// The field `value`.
            pub fn get_value(&self) -> Result<super::super::value::Reader<'a, S>>
                ensures { let fields = struct_of S.segments self.now.fields.now in
                    IsStructView (pointer_in fields 4)
                    (λ view. struct_of S.segments view.fields) result }
            {
                self.fields.get_pointer_as(4)
            }

            /// Whether `value` is there, and is not null.
            pub fn has_value(&self) -> bool
                ensures { let fields = struct_of S.segments self.now.fields.now in
                    IsTrue result ↔ (Denotes (pointer_in fields 4) nothing → ⊥) }
            {
                self.fields.has_pointer(4)
            }
        }

        /// Which pointer of the struct points to `type`, for `fields.get_pointer`.
        pub const TYPE_POINTER: u16 = 3;

        /// Which pointer of the struct points to `value`, for `fields.get_pointer`.
        pub const VALUE_POINTER: u16 = 4;
    }

    pub mod nested_node {
        use capnp_wire::any_struct::StructReader;
        use capnp_frame::message::ReaderSegments;
        use capnp_frame::Result;
        use capnp_wire::{text, traits, upgraded};

        /// The type of the schema.
        pub struct Owned;

        impl<'a, S: ReaderSegments + 'a> traits::Owned<'a, S> for Owned {
            type Reader = Reader<'a, S>;
        }

        /// A struct of this type in a message. What its writer left out reads as the default.
        #[derive(Drop)]
        pub struct Reader<'a, S: ReaderSegments> {
            /// The struct whose fields these are.
            pub fields: StructReader<'a, S>,
        }

        impl<'a, S: ReaderSegments> Reader<'a, S> {
            /// The field `name`.
            pub fn get_name(&self) -> Result<text::Reader<'a>>
                ensures { let fields = struct_of S.segments self.now.fields in
                    IsTextView (pointer_in fields 0) result }
            {
                self.fields.get_pointer_as(0)
            }

            /// Whether `name` is there, and is not null.
            pub fn has_name(&self) -> bool
                ensures { let fields = struct_of S.segments self.now.fields in
                    IsTrue result ↔ (Denotes (pointer_in fields 0) nothing → ⊥) }
            {
                self.fields.has_pointer(0)
            }

            /// The field `id`.
            pub fn get_id(&self) -> u64
                ensures { let fields = struct_of S.segments self.now.fields in
                    result ≡ field fields.words 64 0 }
            {
                self.fields.get_data_field(0)
            }
        }

        impl<'a, S: ReaderSegments> upgraded::FromStruct<StructReader<'a, S>> for Reader<'a, S> {
            ghost shown = { λ view. struct_of S.segments view.fields };

            #[inline(always)]
            fn from_struct(fields: StructReader<'a, S>) -> Reader<'a, S> {
                Reader { fields }
            }
        }

        /// A list of such structs, or of their first fields where an older writer had these.
        pub type ListReader<'a, S> = upgraded::Structs<'a, S, Reader<'a, S>>;

        /// Which pointer of the struct points to `name`, for `fields.get_pointer`.
        pub const NAME_POINTER: u16 = 0;
    }

    pub mod source_info {
        use capnp_wire::any_struct::StructReader;
        use capnp_frame::message::ReaderSegments;
        use capnp_frame::Result;
        use capnp_wire::{text, traits, upgraded};

        /// The type of the schema.
        pub struct Owned;

        impl<'a, S: ReaderSegments + 'a> traits::Owned<'a, S> for Owned {
            type Reader = Reader<'a, S>;
        }

        /// A struct of this type in a message. What its writer left out reads as the default.
        #[derive(Drop)]
        pub struct Reader<'a, S: ReaderSegments> {
            /// The struct whose fields these are.
            pub fields: StructReader<'a, S>,
        }

        impl<'a, S: ReaderSegments> Reader<'a, S> {
            /// The field `id`.
            pub fn get_id(&self) -> u64
                ensures { let fields = struct_of S.segments self.now.fields in
                    result ≡ field fields.words 64 0 }
            {
                self.fields.get_data_field(0)
            }

            /// The field `docComment`.
            pub fn get_doc_comment(&self) -> Result<text::Reader<'a>>
                ensures { let fields = struct_of S.segments self.now.fields in
                    IsTextView (pointer_in fields 0) result }
            {
                self.fields.get_pointer_as(0)
            }

            /// Whether `docComment` is there, and is not null.
            pub fn has_doc_comment(&self) -> bool
                ensures { let fields = struct_of S.segments self.now.fields in
                    IsTrue result ↔ (Denotes (pointer_in fields 0) nothing → ⊥) }
            {
                self.fields.has_pointer(0)
            }

            /// Of the fields or enumerants, in their order.
            pub fn get_members(&self) -> Result<member::ListReader<'a, S>>
                ensures { let fields = struct_of S.segments self.now.fields in
                    IsStructsView S.segments (pointer_in fields 1) result }
            {
                self.fields.get_pointer_as(1)
            }

            /// Whether `members` is there, and is not null.
            pub fn has_members(&self) -> bool
                ensures { let fields = struct_of S.segments self.now.fields in
                    IsTrue result ↔ (Denotes (pointer_in fields 1) nothing → ⊥) }
            {
                self.fields.has_pointer(1)
            }
        }

        impl<'a, S: ReaderSegments> upgraded::FromStruct<StructReader<'a, S>> for Reader<'a, S> {
            ghost shown = { λ view. struct_of S.segments view.fields };

            #[inline(always)]
            fn from_struct(fields: StructReader<'a, S>) -> Reader<'a, S> {
                Reader { fields }
            }
        }

        /// A list of such structs, or of their first fields where an older writer had these.
        pub type ListReader<'a, S> = upgraded::Structs<'a, S, Reader<'a, S>>;

        /// Which pointer of the struct points to `docComment`, for `fields.get_pointer`.
        pub const DOC_COMMENT_POINTER: u16 = 0;

        /// Which pointer of the struct points to `members`, for `fields.get_pointer`.
        pub const MEMBERS_POINTER: u16 = 1;

        pub mod member {
            use capnp_wire::any_struct::StructReader;
            use capnp_frame::message::ReaderSegments;
            use capnp_frame::Result;
            use capnp_wire::{text, traits, upgraded};

            /// The type of the schema.
            pub struct Owned;

            impl<'a, S: ReaderSegments + 'a> traits::Owned<'a, S> for Owned {
                type Reader = Reader<'a, S>;
            }

            /// A struct of this type in a message. What its writer left out reads as the default.
            #[derive(Drop)]
            pub struct Reader<'a, S: ReaderSegments> {
                /// The struct whose fields these are.
                pub fields: StructReader<'a, S>,
            }

            impl<'a, S: ReaderSegments> Reader<'a, S> {
                /// The field `docComment`.
                pub fn get_doc_comment(&self) -> Result<text::Reader<'a>>
                    ensures { let fields = struct_of S.segments self.now.fields in
                        IsTextView (pointer_in fields 0) result }
                {
                    self.fields.get_pointer_as(0)
                }

                /// Whether `docComment` is there, and is not null.
                pub fn has_doc_comment(&self) -> bool
                    ensures { let fields = struct_of S.segments self.now.fields in
                        IsTrue result ↔ (Denotes (pointer_in fields 0) nothing → ⊥) }
                {
                    self.fields.has_pointer(0)
                }
            }

            impl<'a, S: ReaderSegments> upgraded::FromStruct<StructReader<'a, S>> for Reader<'a, S> {
                ghost shown = { λ view. struct_of S.segments view.fields };

                #[inline(always)]
                fn from_struct(fields: StructReader<'a, S>) -> Reader<'a, S> {
                    Reader { fields }
                }
            }

            /// A list of such structs, or of their first fields where an older writer had these.
            pub type ListReader<'a, S> = upgraded::Structs<'a, S, Reader<'a, S>>;

            /// Which pointer of the struct points to `docComment`, for `fields.get_pointer`.
            pub const DOC_COMMENT_POINTER: u16 = 0;
        }
    }
}

#[rattlefmt::skip]
pub mod field {
    use capnp_wire::any_struct::StructReader;
    use capnp_frame::message::ReaderSegments;
    use capnp_frame::Result;
    use capnp_wire::{text, traits, upgraded};

    /// The type of the schema.
    pub struct Owned;

    impl<'a, S: ReaderSegments + 'a> traits::Owned<'a, S> for Owned {
        type Reader = Reader<'a, S>;
    }

    /// A struct of this type in a message. What its writer left out reads as the default.
    #[derive(Drop)]
    pub struct Reader<'a, S: ReaderSegments> {
        /// The struct whose fields these are.
        pub fields: StructReader<'a, S>,
    }

    impl<'a, S: ReaderSegments> Reader<'a, S> {
        /// The field `name`.
        pub fn get_name(&self) -> Result<text::Reader<'a>>
            ensures { let fields = struct_of S.segments self.now.fields in
                IsTextView (pointer_in fields 0) result }
        {
            self.fields.get_pointer_as(0)
        }

        /// Whether `name` is there, and is not null.
        pub fn has_name(&self) -> bool
            ensures { let fields = struct_of S.segments self.now.fields in
                IsTrue result ↔ (Denotes (pointer_in fields 0) nothing → ⊥) }
        {
            self.fields.has_pointer(0)
        }

        /// For the place of what follows.
        pub fn get_code_order(&self) -> u16
            ensures { let fields = struct_of S.segments self.now.fields in
                result ≡ field fields.words 16 0 }
        {
            self.fields.get_data_field(0)
        }

        /// The field `annotations`.
        pub fn get_annotations(&self) -> Result<super::annotation::ListReader<'a, S>>
            ensures { let fields = struct_of S.segments self.now.fields in
                IsStructsView S.segments (pointer_in fields 1) result }
        {
            self.fields.get_pointer_as(1)
        }

        /// Whether `annotations` is there, and is not null.
        pub fn has_annotations(&self) -> bool
            ensures { let fields = struct_of S.segments self.now.fields in
                IsTrue result ↔ (Denotes (pointer_in fields 1) nothing → ⊥) }
        {
            self.fields.has_pointer(1)
        }

        /// Its number in the union, if it is a member.
        pub fn get_discriminant_value(&self) -> u16
            ensures { let fields = struct_of S.segments self.now.fields in
                result ≡ (bit_xor (field fields.words 16 1) 65535) }
        {
            self.fields.get_data_field_mask(1, 65535)
        }

        /// The field `slot`.
        #[inline(always)]
        pub fn get_slot(&self) -> slot::Reader<'_, 'a, S>
            ensures { let fields = struct_of S.segments self.now.fields in
                struct_of S.segments result.fields.now ≡ fields }
        {
            slot::Reader {
                fields: &self.fields,
            }
        }

        /// The group's node.
        pub fn get_group(&self) -> u64
            ensures { let fields = struct_of S.segments self.now.fields in
                result ≡ field fields.words 64 2 }
        {
            self.fields.get_data_field(2)
        }

        /// Which member of the union is there, and its value.
        #[inline(always)]
        pub fn which(&self) -> Which<'_, 'a, S>
            ensures { let fields = struct_of S.segments self.now.fields in
                let number = field fields.words 16 4 in
                elim result [
                  | Which.Slot value ↦ (number ≡ 0) ×
                      (struct_of S.segments value.fields.now ≡ fields)
                  | Which.Group value ↦ (number ≡ 1) × (value ≡ field fields.words 64 2)
                  | Which.NotInSchema unknown ↦ (unknown ≡ number) × (2 ≤ number)
                ] }
        {
            match self.fields.get_data_field::<u16>(4) {
                0 => Which::Slot(self.get_slot()),
                1 => Which::Group(self.get_group()),
                unknown => Which::NotInSchema(unknown),
            }
        }
    }

    /// The members of the union.
    #[derive(Drop)]
    pub enum Which<'b, 'a, S: ReaderSegments> {
        Slot(slot::Reader<'b, 'a, S>),
        Group(u64),
        /// A number that the schema doesn't name.
        NotInSchema(u16),
    }

    impl<'a, S: ReaderSegments> upgraded::FromStruct<StructReader<'a, S>> for Reader<'a, S> {
        ghost shown = { λ view. struct_of S.segments view.fields };

        #[inline(always)]
        fn from_struct(fields: StructReader<'a, S>) -> Reader<'a, S> {
            Reader { fields }
        }
    }

    /// A list of such structs, or of their first fields where an older writer had these.
    pub type ListReader<'a, S> = upgraded::Structs<'a, S, Reader<'a, S>>;

    /// Which pointer of the struct points to `name`, for `fields.get_pointer`.
    pub const NAME_POINTER: u16 = 0;

    /// Which pointer of the struct points to `annotations`, for `fields.get_pointer`.
    pub const ANNOTATIONS_POINTER: u16 = 1;

    pub const NO_DISCRIMINANT: u16 = 65535;

    pub mod slot {
        use capnp_wire::any_struct::StructReader;
        use capnp_frame::message::ReaderSegments;
        use capnp_frame::Result;

        /// The group, in a struct in a message.
        #[derive(Drop)]
        pub struct Reader<'b, 'a, S: ReaderSegments> {
            /// The struct whose fields these are.
            pub fields: &'b StructReader<'a, S>,
        }

        impl<'b, 'a, S: ReaderSegments> Reader<'b, 'a, S> {
            /// In units of the field's width, or among the pointers.
            pub fn get_offset(&self) -> u32
                ensures { let fields = struct_of S.segments self.now.fields.now in
                    result ≡ field fields.words 32 1 }
            {
                self.fields.get_data_field(1)
            }

            /// The field `type`.
            pub fn get_type(&self) -> Result<super::super::type_::Reader<'a, S>>
                ensures { let fields = struct_of S.segments self.now.fields.now in
                    IsStructView (pointer_in fields 2)
                    (λ view. struct_of S.segments view.fields) result }
            {
                self.fields.get_pointer_as(2)
            }

            /// Whether `type` is there, and is not null.
            pub fn has_type(&self) -> bool
                ensures { let fields = struct_of S.segments self.now.fields.now in
                    IsTrue result ↔ (Denotes (pointer_in fields 2) nothing → ⊥) }
            {
                self.fields.has_pointer(2)
            }

            /// The field `defaultValue`.
            pub fn get_default_value(&self) -> Result<super::super::value::Reader<'a, S>>
                ensures { let fields = struct_of S.segments self.now.fields.now in
                    IsStructView (pointer_in fields 3)
                    (λ view. struct_of S.segments view.fields) result }
            {
                self.fields.get_pointer_as(3)
            }

            /// Whether `defaultValue` is there, and is not null.
            pub fn has_default_value(&self) -> bool
                ensures { let fields = struct_of S.segments self.now.fields.now in
                    IsTrue result ↔ (Denotes (pointer_in fields 3) nothing → ⊥) }
            {
                self.fields.has_pointer(3)
            }
        }

        /// Which pointer of the struct points to `type`, for `fields.get_pointer`.
        pub const TYPE_POINTER: u16 = 2;

        /// Which pointer of the struct points to `defaultValue`, for `fields.get_pointer`.
        pub const DEFAULT_VALUE_POINTER: u16 = 3;
    }
}

#[rattlefmt::skip]
pub mod enumerant {
    use capnp_wire::any_struct::StructReader;
    use capnp_frame::message::ReaderSegments;
    use capnp_frame::Result;
    use capnp_wire::{text, traits, upgraded};

    /// The type of the schema.
    pub struct Owned;

    impl<'a, S: ReaderSegments + 'a> traits::Owned<'a, S> for Owned {
        type Reader = Reader<'a, S>;
    }

    /// A struct of this type in a message. What its writer left out reads as the default.
    #[derive(Drop)]
    pub struct Reader<'a, S: ReaderSegments> {
        /// The struct whose fields these are.
        pub fields: StructReader<'a, S>,
    }

    impl<'a, S: ReaderSegments> Reader<'a, S> {
        /// The field `name`.
        pub fn get_name(&self) -> Result<text::Reader<'a>>
            ensures { let fields = struct_of S.segments self.now.fields in
                IsTextView (pointer_in fields 0) result }
        {
            self.fields.get_pointer_as(0)
        }

        /// Whether `name` is there, and is not null.
        pub fn has_name(&self) -> bool
            ensures { let fields = struct_of S.segments self.now.fields in
                IsTrue result ↔ (Denotes (pointer_in fields 0) nothing → ⊥) }
        {
            self.fields.has_pointer(0)
        }

        /// The field `annotations`.
        pub fn get_annotations(&self) -> Result<super::annotation::ListReader<'a, S>>
            ensures { let fields = struct_of S.segments self.now.fields in
                IsStructsView S.segments (pointer_in fields 1) result }
        {
            self.fields.get_pointer_as(1)
        }

        /// Whether `annotations` is there, and is not null.
        pub fn has_annotations(&self) -> bool
            ensures { let fields = struct_of S.segments self.now.fields in
                IsTrue result ↔ (Denotes (pointer_in fields 1) nothing → ⊥) }
        {
            self.fields.has_pointer(1)
        }
    }

    impl<'a, S: ReaderSegments> upgraded::FromStruct<StructReader<'a, S>> for Reader<'a, S> {
        ghost shown = { λ view. struct_of S.segments view.fields };

        #[inline(always)]
        fn from_struct(fields: StructReader<'a, S>) -> Reader<'a, S> {
            Reader { fields }
        }
    }

    /// A list of such structs, or of their first fields where an older writer had these.
    pub type ListReader<'a, S> = upgraded::Structs<'a, S, Reader<'a, S>>;

    /// Which pointer of the struct points to `name`, for `fields.get_pointer`.
    pub const NAME_POINTER: u16 = 0;

    /// Which pointer of the struct points to `annotations`, for `fields.get_pointer`.
    pub const ANNOTATIONS_POINTER: u16 = 1;
}

#[rattlefmt::skip]
pub mod type_ {
    use capnp_wire::any_struct::StructReader;
    use capnp_frame::message::ReaderSegments;
    use capnp_frame::Result;
    use capnp_wire::{traits, upgraded};

    /// The type of the schema.
    pub struct Owned;

    impl<'a, S: ReaderSegments + 'a> traits::Owned<'a, S> for Owned {
        type Reader = Reader<'a, S>;
    }

    /// A struct of this type in a message. What its writer left out reads as the default.
    #[derive(Drop)]
    pub struct Reader<'a, S: ReaderSegments> {
        /// The struct whose fields these are.
        pub fields: StructReader<'a, S>,
    }

    impl<'a, S: ReaderSegments> Reader<'a, S> {
        /// The field `void`.
        pub fn get_void(&self) {}

        /// The field `bool`.
        pub fn get_bool(&self) {}

        /// The field `int8`.
        pub fn get_int8(&self) {}

        /// The field `int16`.
        pub fn get_int16(&self) {}

        /// The field `int32`.
        pub fn get_int32(&self) {}

        /// The field `int64`.
        pub fn get_int64(&self) {}

        /// The field `uint8`.
        pub fn get_uint8(&self) {}

        /// The field `uint16`.
        pub fn get_uint16(&self) {}

        /// The field `uint32`.
        pub fn get_uint32(&self) {}

        /// The field `uint64`.
        pub fn get_uint64(&self) {}

        /// The field `float32`.
        pub fn get_float32(&self) {}

        /// The field `float64`.
        pub fn get_float64(&self) {}

        /// The field `text`.
        pub fn get_text(&self) {}

        /// The field `data`.
        pub fn get_data(&self) {}

        /// The field `list`.
        pub fn get_list(&self) -> Result<super::type_::Reader<'a, S>>
            ensures { let fields = struct_of S.segments self.now.fields in
                IsStructView (pointer_in fields 0)
                (λ view. struct_of S.segments view.fields) result }
        {
            self.fields.get_pointer_as(0)
        }

        /// Whether `list` is there, and is not null.
        pub fn has_list(&self) -> bool
            ensures { let fields = struct_of S.segments self.now.fields in
                IsTrue result ↔ (Denotes (pointer_in fields 0) nothing → ⊥) }
        {
            self.fields.has_pointer(0)
        }

        /// The enum's node.
        pub fn get_enum(&self) -> u64
            ensures { let fields = struct_of S.segments self.now.fields in
                result ≡ field fields.words 64 1 }
        {
            self.fields.get_data_field(1)
        }

        /// The struct's node.
        pub fn get_struct(&self) -> u64
            ensures { let fields = struct_of S.segments self.now.fields in
                result ≡ field fields.words 64 1 }
        {
            self.fields.get_data_field(1)
        }

        /// The field `interface`.
        pub fn get_interface(&self) {}

        /// The field `anyPointer`.
        #[inline(always)]
        pub fn get_any_pointer(&self) -> any_pointer_::Reader<'_, 'a, S>
            ensures { let fields = struct_of S.segments self.now.fields in
                struct_of S.segments result.fields.now ≡ fields }
        {
            any_pointer_::Reader {
                fields: &self.fields,
            }
        }

        /// Which member of the union is there, and its value.
        #[inline(always)]
        pub fn which(&self) -> Which<'_, 'a, S>
            ensures { let fields = struct_of S.segments self.now.fields in
                let number = field fields.words 16 0 in
                elim result [
                  | Which.Void ↦ number ≡ 0
                  | Which.Bool ↦ number ≡ 1
                  | Which.Int8 ↦ number ≡ 2
                  | Which.Int16 ↦ number ≡ 3
                  | Which.Int32 ↦ number ≡ 4
                  | Which.Int64 ↦ number ≡ 5
                  | Which.Uint8 ↦ number ≡ 6
                  | Which.Uint16 ↦ number ≡ 7
                  | Which.Uint32 ↦ number ≡ 8
                  | Which.Uint64 ↦ number ≡ 9
                  | Which.Float32 ↦ number ≡ 10
                  | Which.Float64 ↦ number ≡ 11
                  | Which.Text ↦ number ≡ 12
                  | Which.Data ↦ number ≡ 13
                  | Which.List value ↦ (number ≡ 14) ×
                      (IsStructView (pointer_in fields 0)
                      (λ view. struct_of S.segments view.fields) value)
                  | Which.Enum value ↦ (number ≡ 15) × (value ≡ field fields.words 64 1)
                  | Which.Struct value ↦ (number ≡ 16) × (value ≡ field fields.words 64 1)
                  | Which.Interface ↦ number ≡ 17
                  | Which.AnyPointer value ↦ (number ≡ 18) ×
                      (struct_of S.segments value.fields.now ≡ fields)
                  | Which.NotInSchema unknown ↦ (unknown ≡ number) × (19 ≤ number)
                ] }
        {
            match self.fields.get_data_field::<u16>(0) {
                0 => Which::Void,
                1 => Which::Bool,
                2 => Which::Int8,
                3 => Which::Int16,
                4 => Which::Int32,
                5 => Which::Int64,
                6 => Which::Uint8,
                7 => Which::Uint16,
                8 => Which::Uint32,
                9 => Which::Uint64,
                10 => Which::Float32,
                11 => Which::Float64,
                12 => Which::Text,
                13 => Which::Data,
                14 => Which::List(self.get_list()),
                15 => Which::Enum(self.get_enum()),
                16 => Which::Struct(self.get_struct()),
                17 => Which::Interface,
                18 => Which::AnyPointer(self.get_any_pointer()),
                unknown => Which::NotInSchema(unknown),
            }
        }
    }

    /// The members of the union.
    #[derive(Drop)]
    pub enum Which<'b, 'a, S: ReaderSegments> {
        Void,
        Bool,
        Int8,
        Int16,
        Int32,
        Int64,
        Uint8,
        Uint16,
        Uint32,
        Uint64,
        Float32,
        Float64,
        Text,
        Data,
        List(Result<super::type_::Reader<'a, S>>),
        Enum(u64),
        Struct(u64),
        Interface,
        AnyPointer(any_pointer_::Reader<'b, 'a, S>),
        /// A number that the schema doesn't name.
        NotInSchema(u16),
    }

    impl<'a, S: ReaderSegments> upgraded::FromStruct<StructReader<'a, S>> for Reader<'a, S> {
        ghost shown = { λ view. struct_of S.segments view.fields };

        #[inline(always)]
        fn from_struct(fields: StructReader<'a, S>) -> Reader<'a, S> {
            Reader { fields }
        }
    }

    /// A list of such structs, or of their first fields where an older writer had these.
    pub type ListReader<'a, S> = upgraded::Structs<'a, S, Reader<'a, S>>;

    /// Which pointer of the struct points to `list`, for `fields.get_pointer`.
    pub const LIST_POINTER: u16 = 0;

    pub mod any_pointer_ {
        use capnp_wire::any_struct::StructReader;
        use capnp_frame::message::ReaderSegments;

        /// The group, in a struct in a message.
        #[derive(Drop)]
        pub struct Reader<'b, 'a, S: ReaderSegments> {
            /// The struct whose fields these are.
            pub fields: &'b StructReader<'a, S>,
        }

        impl<'b, 'a, S: ReaderSegments> Reader<'b, 'a, S> {
            /// The field `unconstrained`.
            #[inline(always)]
            pub fn get_unconstrained(&self) -> unconstrained::Reader<'b, 'a, S>
                ensures { let fields = struct_of S.segments self.now.fields.now in
                    struct_of S.segments result.fields.now ≡ fields }
            {
                unconstrained::Reader {
                    fields: self.fields,
                }
            }

            /// The field `parameter`.
            pub fn get_parameter(&self) {}

            /// Which member of the union is there, and its value.
            #[inline(always)]
            pub fn which(&self) -> Which<'b, 'a, S>
                ensures { let fields = struct_of S.segments self.now.fields.now in
                    let number = field fields.words 16 4 in
                    elim result [
                      | Which.Unconstrained value ↦ (number ≡ 0) ×
                          (struct_of S.segments value.fields.now ≡ fields)
                      | Which.Parameter ↦ number ≡ 1
                      | Which.NotInSchema unknown ↦ (unknown ≡ number) × (2 ≤ number)
                    ] }
            {
                match self.fields.get_data_field::<u16>(4) {
                    0 => Which::Unconstrained(self.get_unconstrained()),
                    1 => Which::Parameter,
                    unknown => Which::NotInSchema(unknown),
                }
            }
        }

        /// The members of the union.
        #[derive(Drop)]
        pub enum Which<'b, 'a, S: ReaderSegments> {
            Unconstrained(unconstrained::Reader<'b, 'a, S>),
            Parameter,
            /// A number that the schema doesn't name.
            NotInSchema(u16),
        }

        pub mod unconstrained {
            use capnp_wire::any_struct::StructReader;
            use capnp_frame::message::ReaderSegments;

            /// The group, in a struct in a message.
            #[derive(Drop)]
            pub struct Reader<'b, 'a, S: ReaderSegments> {
                /// The struct whose fields these are.
                pub fields: &'b StructReader<'a, S>,
            }

            impl<'b, 'a, S: ReaderSegments> Reader<'b, 'a, S> {
                /// The field `anyKind`.
                pub fn get_any_kind(&self) {}

                /// The field `struct`.
                pub fn get_struct(&self) {}

                /// The field `list`.
                pub fn get_list(&self) {}

                /// The field `capability`.
                pub fn get_capability(&self) {}

                /// Which member of the union is there, and its value.
                #[inline(always)]
                pub fn which(&self) -> Which
                    ensures { let fields = struct_of S.segments self.now.fields.now in
                        let number = field fields.words 16 5 in
                        elim result [
                          | Which.AnyKind ↦ number ≡ 0
                          | Which.Struct ↦ number ≡ 1
                          | Which.List ↦ number ≡ 2
                          | Which.Capability ↦ number ≡ 3
                          | Which.NotInSchema unknown ↦ (unknown ≡ number) × (4 ≤ number)
                        ] }
                {
                    match self.fields.get_data_field::<u16>(5) {
                        0 => Which::AnyKind,
                        1 => Which::Struct,
                        2 => Which::List,
                        3 => Which::Capability,
                        unknown => Which::NotInSchema(unknown),
                    }
                }
            }

            /// The members of the union.
            #[derive(Drop)]
            pub enum Which {
                AnyKind,
                Struct,
                List,
                Capability,
                /// A number that the schema doesn't name.
                NotInSchema(u16),
            }
        }
    }
}

#[rattlefmt::skip]
pub mod value {
    use capnp_wire::any_struct::StructReader;
    use capnp_frame::message::ReaderSegments;
    use capnp_frame::Result;
    use capnp_wire::{any_pointer, text, traits, upgraded};

    /// The type of the schema.
    pub struct Owned;

    impl<'a, S: ReaderSegments + 'a> traits::Owned<'a, S> for Owned {
        type Reader = Reader<'a, S>;
    }

    /// A struct of this type in a message. What its writer left out reads as the default.
    #[derive(Drop)]
    pub struct Reader<'a, S: ReaderSegments> {
        /// The struct whose fields these are.
        pub fields: StructReader<'a, S>,
    }

    impl<'a, S: ReaderSegments> Reader<'a, S> {
        /// The field `void`.
        pub fn get_void(&self) {}

        /// The field `bool`.
        pub fn get_bool(&self) -> bool
            ensures { let fields = struct_of S.segments self.now.fields in
                result ≡ (field fields.words 1 16 == 1) }
        {
            self.fields.get_data_field(16)
        }

        /// The field `int8`.
        pub fn get_int8(&self) -> i8
            ensures { let fields = struct_of S.segments self.now.fields in
                result ≡ cast_signed w8 (field fields.words 8 2) }
        {
            self.fields.get_data_field(2)
        }

        /// The field `int16`.
        pub fn get_int16(&self) -> i16
            ensures { let fields = struct_of S.segments self.now.fields in
                result ≡ cast_signed w16 (field fields.words 16 1) }
        {
            self.fields.get_data_field(1)
        }

        /// The field `int32`.
        pub fn get_int32(&self) -> i32
            ensures { let fields = struct_of S.segments self.now.fields in
                result ≡ cast_signed w32 (field fields.words 32 1) }
        {
            self.fields.get_data_field(1)
        }

        /// The field `int64`.
        pub fn get_int64(&self) -> i64
            ensures { let fields = struct_of S.segments self.now.fields in
                result ≡ cast_signed w64 (field fields.words 64 1) }
        {
            self.fields.get_data_field(1)
        }

        /// The field `uint8`.
        pub fn get_uint8(&self) -> u8
            ensures { let fields = struct_of S.segments self.now.fields in
                result ≡ field fields.words 8 2 }
        {
            self.fields.get_data_field(2)
        }

        /// The field `uint16`.
        pub fn get_uint16(&self) -> u16
            ensures { let fields = struct_of S.segments self.now.fields in
                result ≡ field fields.words 16 1 }
        {
            self.fields.get_data_field(1)
        }

        /// The field `uint32`.
        pub fn get_uint32(&self) -> u32
            ensures { let fields = struct_of S.segments self.now.fields in
                result ≡ field fields.words 32 1 }
        {
            self.fields.get_data_field(1)
        }

        /// The field `uint64`.
        pub fn get_uint64(&self) -> u64
            ensures { let fields = struct_of S.segments self.now.fields in
                result ≡ field fields.words 64 1 }
        {
            self.fields.get_data_field(1)
        }

        /// The field `float32`.
        pub fn get_float32(&self) -> f32
            ensures { let fields = struct_of S.segments self.now.fields in
                result ≡ from_bits binary32 (field fields.words 32 1) }
        {
            self.fields.get_data_field(1)
        }

        /// The field `float64`.
        pub fn get_float64(&self) -> f64
            ensures { let fields = struct_of S.segments self.now.fields in
                result ≡ from_bits binary64 (field fields.words 64 1) }
        {
            self.fields.get_data_field(1)
        }

        /// The field `text`.
        pub fn get_text(&self) -> Result<text::Reader<'a>>
            ensures { let fields = struct_of S.segments self.now.fields in
                IsTextView (pointer_in fields 0) result }
        {
            self.fields.get_pointer_as(0)
        }

        /// Whether `text` is there, and is not null.
        pub fn has_text(&self) -> bool
            ensures { let fields = struct_of S.segments self.now.fields in
                IsTrue result ↔ (Denotes (pointer_in fields 0) nothing → ⊥) }
        {
            self.fields.has_pointer(0)
        }

        /// The field `data`.
        pub fn get_data(&self) -> Result<&'a [u8]>
            ensures { let fields = struct_of S.segments self.now.fields in
                IsDataView (pointer_in fields 0) result }
        {
            self.fields.get_pointer_as(0)
        }

        /// Whether `data` is there, and is not null.
        pub fn has_data(&self) -> bool
            ensures { let fields = struct_of S.segments self.now.fields in
                IsTrue result ↔ (Denotes (pointer_in fields 0) nothing → ⊥) }
        {
            self.fields.has_pointer(0)
        }

        /// The field `list`.
        pub fn get_list(&self) -> any_pointer::Reader<'a, S>
            ensures { let fields = struct_of S.segments self.now.fields in
                pointer_of S.segments result ≡ pointer_in fields 0 }
        {
            self.fields.get_pointer(0)
        }

        /// Whether `list` is there, and is not null.
        pub fn has_list(&self) -> bool
            ensures { let fields = struct_of S.segments self.now.fields in
                IsTrue result ↔ (Denotes (pointer_in fields 0) nothing → ⊥) }
        {
            self.fields.has_pointer(0)
        }

        /// The field `enum`.
        pub fn get_enum(&self) -> u16
            ensures { let fields = struct_of S.segments self.now.fields in
                result ≡ field fields.words 16 1 }
        {
            self.fields.get_data_field(1)
        }

        /// The field `struct`.
        pub fn get_struct(&self) -> any_pointer::Reader<'a, S>
            ensures { let fields = struct_of S.segments self.now.fields in
                pointer_of S.segments result ≡ pointer_in fields 0 }
        {
            self.fields.get_pointer(0)
        }

        /// Whether `struct` is there, and is not null.
        pub fn has_struct(&self) -> bool
            ensures { let fields = struct_of S.segments self.now.fields in
                IsTrue result ↔ (Denotes (pointer_in fields 0) nothing → ⊥) }
        {
            self.fields.has_pointer(0)
        }

        /// The field `interface`.
        pub fn get_interface(&self) {}

        /// The field `anyPointer`.
        pub fn get_any_pointer(&self) -> any_pointer::Reader<'a, S>
            ensures { let fields = struct_of S.segments self.now.fields in
                pointer_of S.segments result ≡ pointer_in fields 0 }
        {
            self.fields.get_pointer(0)
        }

        /// Whether `anyPointer` is there, and is not null.
        pub fn has_any_pointer(&self) -> bool
            ensures { let fields = struct_of S.segments self.now.fields in
                IsTrue result ↔ (Denotes (pointer_in fields 0) nothing → ⊥) }
        {
            self.fields.has_pointer(0)
        }

        /// Which member of the union is there, and its value.
        #[inline(always)]
        pub fn which(&self) -> Which<'a, S>
            ensures { let fields = struct_of S.segments self.now.fields in
                let number = field fields.words 16 0 in
                elim result [
                  | Which.Void ↦ number ≡ 0
                  | Which.Bool value ↦ (number ≡ 1) ×
                      (value ≡ (field fields.words 1 16 == 1))
                  | Which.Int8 value ↦ (number ≡ 2) ×
                      (value ≡ cast_signed w8 (field fields.words 8 2))
                  | Which.Int16 value ↦ (number ≡ 3) ×
                      (value ≡ cast_signed w16 (field fields.words 16 1))
                  | Which.Int32 value ↦ (number ≡ 4) ×
                      (value ≡ cast_signed w32 (field fields.words 32 1))
                  | Which.Int64 value ↦ (number ≡ 5) ×
                      (value ≡ cast_signed w64 (field fields.words 64 1))
                  | Which.Uint8 value ↦ (number ≡ 6) × (value ≡ field fields.words 8 2)
                  | Which.Uint16 value ↦ (number ≡ 7) × (value ≡ field fields.words 16 1)
                  | Which.Uint32 value ↦ (number ≡ 8) × (value ≡ field fields.words 32 1)
                  | Which.Uint64 value ↦ (number ≡ 9) × (value ≡ field fields.words 64 1)
                  | Which.Float32 value ↦ (number ≡ 10) ×
                      (value ≡ from_bits binary32 (field fields.words 32 1))
                  | Which.Float64 value ↦ (number ≡ 11) ×
                      (value ≡ from_bits binary64 (field fields.words 64 1))
                  | Which.Text value ↦ (number ≡ 12) ×
                      (IsTextView (pointer_in fields 0) value)
                  | Which.Data value ↦ (number ≡ 13) ×
                      (IsDataView (pointer_in fields 0) value)
                  | Which.List value ↦ (number ≡ 14) ×
                      (pointer_of S.segments value ≡ pointer_in fields 0)
                  | Which.Enum value ↦ (number ≡ 15) × (value ≡ field fields.words 16 1)
                  | Which.Struct value ↦ (number ≡ 16) ×
                      (pointer_of S.segments value ≡ pointer_in fields 0)
                  | Which.Interface ↦ number ≡ 17
                  | Which.AnyPointer value ↦ (number ≡ 18) ×
                      (pointer_of S.segments value ≡ pointer_in fields 0)
                  | Which.NotInSchema unknown ↦ (unknown ≡ number) × (19 ≤ number)
                ] }
        {
            match self.fields.get_data_field::<u16>(0) {
                0 => Which::Void,
                1 => Which::Bool(self.get_bool()),
                2 => Which::Int8(self.get_int8()),
                3 => Which::Int16(self.get_int16()),
                4 => Which::Int32(self.get_int32()),
                5 => Which::Int64(self.get_int64()),
                6 => Which::Uint8(self.get_uint8()),
                7 => Which::Uint16(self.get_uint16()),
                8 => Which::Uint32(self.get_uint32()),
                9 => Which::Uint64(self.get_uint64()),
                10 => Which::Float32(self.get_float32()),
                11 => Which::Float64(self.get_float64()),
                12 => Which::Text(self.get_text()),
                13 => Which::Data(self.get_data()),
                14 => Which::List(self.get_list()),
                15 => Which::Enum(self.get_enum()),
                16 => Which::Struct(self.get_struct()),
                17 => Which::Interface,
                18 => Which::AnyPointer(self.get_any_pointer()),
                unknown => Which::NotInSchema(unknown),
            }
        }
    }

    /// The members of the union.
    #[derive(Drop)]
    pub enum Which<'a, S: ReaderSegments> {
        Void,
        Bool(bool),
        Int8(i8),
        Int16(i16),
        Int32(i32),
        Int64(i64),
        Uint8(u8),
        Uint16(u16),
        Uint32(u32),
        Uint64(u64),
        Float32(f32),
        Float64(f64),
        Text(Result<text::Reader<'a>>),
        Data(Result<&'a [u8]>),
        List(any_pointer::Reader<'a, S>),
        Enum(u16),
        Struct(any_pointer::Reader<'a, S>),
        Interface,
        AnyPointer(any_pointer::Reader<'a, S>),
        /// A number that the schema doesn't name.
        NotInSchema(u16),
    }

    impl<'a, S: ReaderSegments> upgraded::FromStruct<StructReader<'a, S>> for Reader<'a, S> {
        ghost shown = { λ view. struct_of S.segments view.fields };

        #[inline(always)]
        fn from_struct(fields: StructReader<'a, S>) -> Reader<'a, S> {
            Reader { fields }
        }
    }

    /// A list of such structs, or of their first fields where an older writer had these.
    pub type ListReader<'a, S> = upgraded::Structs<'a, S, Reader<'a, S>>;

    /// Which pointer of the struct points to `text`, for `fields.get_pointer`.
    pub const TEXT_POINTER: u16 = 0;

    /// Which pointer of the struct points to `data`, for `fields.get_pointer`.
    pub const DATA_POINTER: u16 = 0;

    /// Which pointer of the struct points to `list`, for `fields.get_pointer`.
    pub const LIST_POINTER: u16 = 0;

    /// Which pointer of the struct points to `struct`, for `fields.get_pointer`.
    pub const STRUCT_POINTER: u16 = 0;

    /// Which pointer of the struct points to `anyPointer`, for `fields.get_pointer`.
    pub const ANY_POINTER_POINTER: u16 = 0;
}

#[rattlefmt::skip]
pub mod annotation {
    use capnp_wire::any_struct::StructReader;
    use capnp_frame::message::ReaderSegments;
    use capnp_frame::Result;
    use capnp_wire::{traits, upgraded};

    /// The type of the schema.
    pub struct Owned;

    impl<'a, S: ReaderSegments + 'a> traits::Owned<'a, S> for Owned {
        type Reader = Reader<'a, S>;
    }

    /// A struct of this type in a message. What its writer left out reads as the default.
    #[derive(Drop)]
    pub struct Reader<'a, S: ReaderSegments> {
        /// The struct whose fields these are.
        pub fields: StructReader<'a, S>,
    }

    impl<'a, S: ReaderSegments> Reader<'a, S> {
        /// The annotation's node.
        pub fn get_id(&self) -> u64
            ensures { let fields = struct_of S.segments self.now.fields in
                result ≡ field fields.words 64 0 }
        {
            self.fields.get_data_field(0)
        }

        /// The field `value`.
        pub fn get_value(&self) -> Result<super::value::Reader<'a, S>>
            ensures { let fields = struct_of S.segments self.now.fields in
                IsStructView (pointer_in fields 0)
                (λ view. struct_of S.segments view.fields) result }
        {
            self.fields.get_pointer_as(0)
        }

        /// Whether `value` is there, and is not null.
        pub fn has_value(&self) -> bool
            ensures { let fields = struct_of S.segments self.now.fields in
                IsTrue result ↔ (Denotes (pointer_in fields 0) nothing → ⊥) }
        {
            self.fields.has_pointer(0)
        }
    }

    impl<'a, S: ReaderSegments> upgraded::FromStruct<StructReader<'a, S>> for Reader<'a, S> {
        ghost shown = { λ view. struct_of S.segments view.fields };

        #[inline(always)]
        fn from_struct(fields: StructReader<'a, S>) -> Reader<'a, S> {
            Reader { fields }
        }
    }

    /// A list of such structs, or of their first fields where an older writer had these.
    pub type ListReader<'a, S> = upgraded::Structs<'a, S, Reader<'a, S>>;

    /// Which pointer of the struct points to `value`, for `fields.get_pointer`.
    pub const VALUE_POINTER: u16 = 0;
}

#[rattlefmt::skip]
pub mod code_generator_request {
    use capnp_wire::any_struct::StructReader;
    use capnp_frame::message::ReaderSegments;
    use capnp_frame::Result;
    use capnp_wire::{any_pointer, traits, upgraded};

    /// The type of the schema.
    pub struct Owned;

    impl<'a, S: ReaderSegments + 'a> traits::Owned<'a, S> for Owned {
        type Reader = Reader<'a, S>;
    }

    /// A struct of this type in a message. What its writer left out reads as the default.
    #[derive(Drop)]
    pub struct Reader<'a, S: ReaderSegments> {
        /// The struct whose fields these are.
        pub fields: StructReader<'a, S>,
    }

    impl<'a, S: ReaderSegments> Reader<'a, S> {
        /// The field `nodes`.
        pub fn get_nodes(&self) -> Result<super::node::ListReader<'a, S>>
            ensures { let fields = struct_of S.segments self.now.fields in
                IsStructsView S.segments (pointer_in fields 0) result }
        {
            self.fields.get_pointer_as(0)
        }

        /// Whether `nodes` is there, and is not null.
        pub fn has_nodes(&self) -> bool
            ensures { let fields = struct_of S.segments self.now.fields in
                IsTrue result ↔ (Denotes (pointer_in fields 0) nothing → ⊥) }
        {
            self.fields.has_pointer(0)
        }

        /// The field `requestedFiles`.
        pub fn get_requested_files(&self) -> Result<requested_file::ListReader<'a, S>>
            ensures { let fields = struct_of S.segments self.now.fields in
                IsStructsView S.segments (pointer_in fields 1) result }
        {
            self.fields.get_pointer_as(1)
        }

        /// Whether `requestedFiles` is there, and is not null.
        pub fn has_requested_files(&self) -> bool
            ensures { let fields = struct_of S.segments self.now.fields in
                IsTrue result ↔ (Denotes (pointer_in fields 1) nothing → ⊥) }
        {
            self.fields.has_pointer(1)
        }

        /// For the place of what follows.
        pub fn get_capnp_version(&self) -> any_pointer::Reader<'a, S>
            ensures { let fields = struct_of S.segments self.now.fields in
                pointer_of S.segments result ≡ pointer_in fields 2 }
        {
            self.fields.get_pointer(2)
        }

        /// Whether `capnpVersion` is there, and is not null.
        pub fn has_capnp_version(&self) -> bool
            ensures { let fields = struct_of S.segments self.now.fields in
                IsTrue result ↔ (Denotes (pointer_in fields 2) nothing → ⊥) }
        {
            self.fields.has_pointer(2)
        }

        /// The field `sourceInfo`.
        pub fn get_source_info(&self) -> Result<super::node::source_info::ListReader<'a, S>>
            ensures { let fields = struct_of S.segments self.now.fields in
                IsStructsView S.segments (pointer_in fields 3) result }
        {
            self.fields.get_pointer_as(3)
        }

        /// Whether `sourceInfo` is there, and is not null.
        pub fn has_source_info(&self) -> bool
            ensures { let fields = struct_of S.segments self.now.fields in
                IsTrue result ↔ (Denotes (pointer_in fields 3) nothing → ⊥) }
        {
            self.fields.has_pointer(3)
        }
    }

    impl<'a, S: ReaderSegments> upgraded::FromStruct<StructReader<'a, S>> for Reader<'a, S> {
        ghost shown = { λ view. struct_of S.segments view.fields };

        #[inline(always)]
        fn from_struct(fields: StructReader<'a, S>) -> Reader<'a, S> {
            Reader { fields }
        }
    }

    /// A list of such structs, or of their first fields where an older writer had these.
    pub type ListReader<'a, S> = upgraded::Structs<'a, S, Reader<'a, S>>;

    /// Which pointer of the struct points to `nodes`, for `fields.get_pointer`.
    pub const NODES_POINTER: u16 = 0;

    /// Which pointer of the struct points to `requestedFiles`, for `fields.get_pointer`.
    pub const REQUESTED_FILES_POINTER: u16 = 1;

    /// Which pointer of the struct points to `capnpVersion`, for `fields.get_pointer`.
    pub const CAPNP_VERSION_POINTER: u16 = 2;

    /// Which pointer of the struct points to `sourceInfo`, for `fields.get_pointer`.
    pub const SOURCE_INFO_POINTER: u16 = 3;

    pub mod requested_file {
        use capnp_wire::any_struct::StructReader;
        use capnp_frame::message::ReaderSegments;
        use capnp_frame::Result;
        use capnp_wire::{text, traits, upgraded};

        /// The type of the schema.
        pub struct Owned;

        impl<'a, S: ReaderSegments + 'a> traits::Owned<'a, S> for Owned {
            type Reader = Reader<'a, S>;
        }

        /// A struct of this type in a message. What its writer left out reads as the default.
        #[derive(Drop)]
        pub struct Reader<'a, S: ReaderSegments> {
            /// The struct whose fields these are.
            pub fields: StructReader<'a, S>,
        }

        impl<'a, S: ReaderSegments> Reader<'a, S> {
            /// The field `id`.
            pub fn get_id(&self) -> u64
                ensures { let fields = struct_of S.segments self.now.fields in
                    result ≡ field fields.words 64 0 }
            {
                self.fields.get_data_field(0)
            }

            /// The field `filename`.
            pub fn get_filename(&self) -> Result<text::Reader<'a>>
                ensures { let fields = struct_of S.segments self.now.fields in
                    IsTextView (pointer_in fields 0) result }
            {
                self.fields.get_pointer_as(0)
            }

            /// Whether `filename` is there, and is not null.
            pub fn has_filename(&self) -> bool
                ensures { let fields = struct_of S.segments self.now.fields in
                    IsTrue result ↔ (Denotes (pointer_in fields 0) nothing → ⊥) }
            {
                self.fields.has_pointer(0)
            }
        }

        impl<'a, S: ReaderSegments> upgraded::FromStruct<StructReader<'a, S>> for Reader<'a, S> {
            ghost shown = { λ view. struct_of S.segments view.fields };

            #[inline(always)]
            fn from_struct(fields: StructReader<'a, S>) -> Reader<'a, S> {
                Reader { fields }
            }
        }

        /// A list of such structs, or of their first fields where an older writer had these.
        pub type ListReader<'a, S> = upgraded::Structs<'a, S, Reader<'a, S>>;

        /// Which pointer of the struct points to `filename`, for `fields.get_pointer`.
        pub const FILENAME_POINTER: u16 = 0;
    }
}
