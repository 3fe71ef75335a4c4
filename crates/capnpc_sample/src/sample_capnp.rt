//! Types of `sample.capnp`, made by `capnpc-rattle`: change that file, and make them again.
//!
//! In a crate of their own they are proved once. A program is proved soonest where a loop over
//! messages or a list has one line, a call: `add_message(&message?, &mut totals)?` (docs/GUIDE.md).
ghost use Rattle.std.specs.Prelude.{◌≡◌, ◌≤◌, ◌==◌, ◌↔◌, ◌≢◌, ◌∷◌, [], if◌then◌else◌, IfOk, IsTrue, bit_xor, from_bits, to_bits, length, map, replicate, slice_index_or, slice_set};
ghost use Rattle.std.specs.Float.{binary64};
ghost use Rattle.std.specs.Int.{w32, w64, cast_signed, cast_unsigned};
ghost use Rattle.capnp.specs.Made.{AddsOrphan, AddsRoot, FailsToAdd, Writes, data_up_to, CopiesPointers, word_of, HoldsStruct, HoldsStructs, StructWords, TakesStructsWords, StructSizeError, ManyStructs, body_of, with_field, segments_of, root_of, field, IsTextView, IsDataView, IsStructView, IsStructsView, IsDefaultView, IsNumbersView, IsEnumsView, IsPointersView, layout, nothing, words_of, struct_of, pointer_of, NoTrees, TreeOf, StructForm, NumbersForm, PointersForm, Denotes, pointer_in};

#[rattlefmt::skip]
use capnp::constant::Words;
#[rattlefmt::skip]
use capnp::Result;

#[rattlefmt::skip]
pub const LIMIT: u32 = 1000;

#[rattlefmt::skip]
pub static CORNER: Words<16> = Words { bytes: [
    0, 0, 0, 0, 1, 0, 0, 0,
    128, 2, 0, 0, 224, 1, 0, 0,
] };

/// The words of `CORNER` are the layout of the schema's value.
#[rattlefmt::skip]
pub fn corner_is_laid_out()
    ensures { words_of CORNER.bytes ≡ layout
        (TreeOf (StructForm (0x1e000000280 ∷ [])) NoTrees NoTrees) }
{}

/// The constant `corner`.
#[rattlefmt::skip]
pub fn get_corner() -> Result<point::Reader<'static, Words<16>>>
    ensures { let pointer = root_of CORNER in
        IsStructView pointer
        (λ view. struct_of segments_of view.fields) result }
{
    capnp::constant::view_of(&CORNER)
}

/// A point of a plane.
#[rattlefmt::skip]
pub mod point {
    use capnp::any_struct::StructReader;
    use capnp::message::ReaderSegments;
    use capnp::orphans::{Draft, GrowingSegment, Orphan, Orphanage, StructDraft};
    use capnp::{Result, traits, upgraded};

    /// The type of the schema.
    pub struct Owned;

    impl<'a, S: ReaderSegments + 'a> traits::Owned<'a, S> for Owned {
        type Reader = Reader<'a, S>;
    }

    /// A struct of this type in a message. What its writer left out reads as the default.
    #[derive(Drop)]
    pub struct Reader<'a, S: ReaderSegments> {
        /// The struct whose fields these are.
        pub fields: StructReader<'a, S>,
    }

    impl<'a, S: ReaderSegments> Reader<'a, S> {
        /// The field `x`.
        pub fn get_x(&self) -> i32
            ensures { let fields = struct_of S.segments self.now.fields in
                result ≡ cast_signed w32 (field fields.words 32 0) }
        {
            self.fields.get_data_field(0)
        }

        /// The field `y`.
        pub fn get_y(&self) -> i32
            ensures { let fields = struct_of S.segments self.now.fields in
                result ≡ cast_signed w32 (field fields.words 32 1) }
        {
            self.fields.get_data_field(1)
        }
    }

    impl<'a, S: ReaderSegments> upgraded::FromStruct<StructReader<'a, S>> for Reader<'a, S> {
        ghost shown = { λ view. struct_of S.segments view.fields };

        #[inline(always)]
        fn from_struct(fields: StructReader<'a, S>) -> Reader<'a, S> {
            Reader { fields }
        }
    }

    /// A list of such structs, or of their first fields where an older writer had these.
    pub type ListReader<'a, S> = upgraded::Structs<'a, S, Reader<'a, S>>;

    /// A list of such structs, as a type of the schema.
    pub type OwnedList = upgraded::OwnedStructs<Owned>;

    /// A struct of this type before it is written. What is not set has its default.
    #[derive(Clone, Copy)]
    pub struct Builder {
        /// Its data words, and what its pointers point to.
        pub draft: StructDraft<Owned, 1, 0>,
    }

    impl Builder {
        /// A builder in which nothing is set: each field has its default.
        pub fn new() -> Builder
            ensures words { result.draft.words ≡ replicate 1 0 }
            ensures pointers { result.draft.pointers ≡ replicate 0 0 }
        {
            Builder {
                draft: StructDraft::new(),
            }
        }

        /// A builder with what a reader shows, to be changed and written again. What its
        /// pointers point to is copied, as orphans; null stays null. What another version of
        /// the type left out is zero or null, and what it had in addition is left out.
        ///
        /// A copy that a setter replaces stays in the bytes, but not in canonical words.
        ///
        /// Fails as `Orphanage::set` does, for the first pointer that can't be copied.
        pub fn from_reader<R: ReaderSegments, S: GrowingSegment>(
            read: &Reader<'_, R>,
            objects: &mut Orphanage<S>,
        ) -> Result<Builder>
            ensures words { IfOk result (λ made. made.draft.words
                ≡ data_up_to (struct_of R.segments read.now.fields) 1) }
            ensures copies { CopiesPointers (struct_of R.segments read.now.fields) 0
                objects.old objects.new (λ made. made.draft.pointers) result }
        {
            match StructDraft::from_reader(&read.fields, objects) {
                Ok(draft) => Ok(Builder { draft }),
                Err(error) => Err(error),
            }
        }

        /// A builder with the numbers, bools and enums that a reader shows, as `from_reader`
        /// has them. Its pointers are null.
        pub fn from_data_section<R: ReaderSegments>(read: &Reader<'_, R>) -> Builder
            ensures words { result.draft.words
                ≡ data_up_to (struct_of R.segments read.now.fields) 1 }
            ensures pointers { result.draft.pointers ≡ replicate 0 0 }
        {
            Builder {
                draft: StructDraft::from_data_section(&read.fields),
            }
        }

        /// Writes it, as an object that a pointer can point to.
        pub fn add<S: GrowingSegment>(&self, objects: &mut Orphanage<S>) -> Result<Orphan<Owned>>
            ensures adds { AddsOrphan (HoldsStruct (body_of objects.old) self.now.draft.words
                self.now.draft.pointers) objects.old objects.new word_of result }
            ensures writes { Writes (StructWords 1 0) (StructSizeError 1 0)
                objects.old objects.new result }
        {
            objects.add(&self.draft)
        }

        /// Writes it as the root of the message.
        pub fn add_root<S: GrowingSegment>(&self, objects: &mut Orphanage<S>) -> Result<()>
            ensures adds { AddsRoot (StructWords 1 0) (HoldsStruct (body_of objects.old)
                self.now.draft.words self.now.draft.pointers) objects.old objects.new result }
            ensures fails { FailsToAdd (StructWords 1 0) (StructSizeError 1 0)
                objects.old result }
        {
            objects.add_root(&self.draft)
        }

        /// Writes a list of such structs.
        pub fn add_list<S: GrowingSegment>(
            elements: &[Builder],
            objects: &mut Orphanage<S>,
        ) -> Result<Orphan<OwnedList>>
            ensures adds { let drafts = map (λ element. element.draft) elements.now in
                AddsOrphan (HoldsStructs (body_of objects.old) drafts)
                objects.old objects.new word_of result }
            ensures writes { let count = length elements.now in
                Writes (TakesStructsWords 1 0 count) (ManyStructs 1 0 count)
                objects.old objects.new result }
        {
            objects.draft_list(elements)
        }
    }

    impl Draft<Owned, 1, 0> for Builder {
        ghost draft = { λ builder. builder.draft };

        fn draft(&self) -> StructDraft<Owned, 1, 0> {
            self.draft
        }
    }

    impl Builder {
        /// Sets the field `x`.
        pub fn set_x(&mut self, value: i32)
            ensures words { self.new.draft.words
                ≡ with_field self.old.draft.words
                32 0 (cast_unsigned w32 value) }
            ensures pointers { self.new.draft.pointers ≡ self.old.draft.pointers }
        {
            self.draft.set_data_field(0, value);
        }

        /// The field `x`, as it is set.
        pub fn get_x(&self) -> i32
            ensures { let fields = self.now.draft in
                result ≡ cast_signed w32 (field fields.words 32 0) }
        {
            self.draft.get_data_field(0)
        }

        /// Sets the field `y`.
        pub fn set_y(&mut self, value: i32)
            ensures words { self.new.draft.words
                ≡ with_field self.old.draft.words
                32 1 (cast_unsigned w32 value) }
            ensures pointers { self.new.draft.pointers ≡ self.old.draft.pointers }
        {
            self.draft.set_data_field(1, value);
        }

        /// The field `y`, as it is set.
        pub fn get_y(&self) -> i32
            ensures { let fields = self.now.draft in
                result ≡ cast_signed w32 (field fields.words 32 1) }
        {
            self.draft.get_data_field(1)
        }
    }
}

/// A binary tree of numbers.
#[rattlefmt::skip]
pub mod tree {
    use capnp::any_struct::StructReader;
    use capnp::message::ReaderSegments;
    use capnp::orphans::{Draft, GrowingSegment, Orphan, Orphanage, StructDraft};
    use capnp::{Result, traits, upgraded};

    /// The type of the schema.
    pub struct Owned;

    impl<'a, S: ReaderSegments + 'a> traits::Owned<'a, S> for Owned {
        type Reader = Reader<'a, S>;
    }

    /// A struct of this type in a message. What its writer left out reads as the default.
    #[derive(Drop)]
    pub struct Reader<'a, S: ReaderSegments> {
        /// The struct whose fields these are.
        pub fields: StructReader<'a, S>,
    }

    impl<'a, S: ReaderSegments> Reader<'a, S> {
        /// The field `value`.
        pub fn get_value(&self) -> i64
            ensures { let fields = struct_of S.segments self.now.fields in
                result ≡ cast_signed w64 (field fields.words 64 0) }
        {
            self.fields.get_data_field(0)
        }

        /// The field `left`.
        pub fn get_left(&self) -> Result<super::tree::Reader<'a, S>>
            ensures { let fields = struct_of S.segments self.now.fields in
                IsStructView (pointer_in fields 0)
                (λ view. struct_of S.segments view.fields) result }
        {
            self.fields.get_pointer_as(0)
        }

        /// Whether `left` is there, and is not null.
        pub fn has_left(&self) -> bool
            ensures { let fields = struct_of S.segments self.now.fields in
                IsTrue result ↔ (Denotes (pointer_in fields 0) nothing → ⊥) }
        {
            self.fields.has_pointer(0)
        }

        /// The field `right`.
        pub fn get_right(&self) -> Result<super::tree::Reader<'a, S>>
            ensures { let fields = struct_of S.segments self.now.fields in
                IsStructView (pointer_in fields 1)
                (λ view. struct_of S.segments view.fields) result }
        {
            self.fields.get_pointer_as(1)
        }

        /// Whether `right` is there, and is not null.
        pub fn has_right(&self) -> bool
            ensures { let fields = struct_of S.segments self.now.fields in
                IsTrue result ↔ (Denotes (pointer_in fields 1) nothing → ⊥) }
        {
            self.fields.has_pointer(1)
        }
    }

    impl<'a, S: ReaderSegments> upgraded::FromStruct<StructReader<'a, S>> for Reader<'a, S> {
        ghost shown = { λ view. struct_of S.segments view.fields };

        #[inline(always)]
        fn from_struct(fields: StructReader<'a, S>) -> Reader<'a, S> {
            Reader { fields }
        }
    }

    /// A list of such structs, or of their first fields where an older writer had these.
    pub type ListReader<'a, S> = upgraded::Structs<'a, S, Reader<'a, S>>;

    /// A list of such structs, as a type of the schema.
    pub type OwnedList = upgraded::OwnedStructs<Owned>;

    /// A struct of this type before it is written. What is not set has its default.
    #[derive(Clone, Copy)]
    pub struct Builder {
        /// Its data words, and what its pointers point to.
        pub draft: StructDraft<Owned, 1, 2>,
    }

    impl Builder {
        /// A builder in which nothing is set: each field has its default.
        pub fn new() -> Builder
            ensures words { result.draft.words ≡ replicate 1 0 }
            ensures pointers { result.draft.pointers ≡ replicate 2 0 }
        {
            Builder {
                draft: StructDraft::new(),
            }
        }

        /// A builder with what a reader shows, to be changed and written again. What its
        /// pointers point to is copied, as orphans; null stays null. What another version of
        /// the type left out is zero or null, and what it had in addition is left out.
        ///
        /// A copy that a setter replaces stays in the bytes, but not in canonical words.
        ///
        /// Fails as `Orphanage::set` does, for the first pointer that can't be copied.
        pub fn from_reader<R: ReaderSegments, S: GrowingSegment>(
            read: &Reader<'_, R>,
            objects: &mut Orphanage<S>,
        ) -> Result<Builder>
            ensures words { IfOk result (λ made. made.draft.words
                ≡ data_up_to (struct_of R.segments read.now.fields) 1) }
            ensures copies { CopiesPointers (struct_of R.segments read.now.fields) 2
                objects.old objects.new (λ made. made.draft.pointers) result }
        {
            match StructDraft::from_reader(&read.fields, objects) {
                Ok(draft) => Ok(Builder { draft }),
                Err(error) => Err(error),
            }
        }

        /// A builder with the numbers, bools and enums that a reader shows, as `from_reader`
        /// has them. Its pointers are null.
        pub fn from_data_section<R: ReaderSegments>(read: &Reader<'_, R>) -> Builder
            ensures words { result.draft.words
                ≡ data_up_to (struct_of R.segments read.now.fields) 1 }
            ensures pointers { result.draft.pointers ≡ replicate 2 0 }
        {
            Builder {
                draft: StructDraft::from_data_section(&read.fields),
            }
        }

        /// Writes it, as an object that a pointer can point to.
        pub fn add<S: GrowingSegment>(&self, objects: &mut Orphanage<S>) -> Result<Orphan<Owned>>
            ensures adds { AddsOrphan (HoldsStruct (body_of objects.old) self.now.draft.words
                self.now.draft.pointers) objects.old objects.new word_of result }
            ensures writes { Writes (StructWords 1 2) (StructSizeError 1 2)
                objects.old objects.new result }
        {
            objects.add(&self.draft)
        }

        /// Writes it as the root of the message.
        pub fn add_root<S: GrowingSegment>(&self, objects: &mut Orphanage<S>) -> Result<()>
            ensures adds { AddsRoot (StructWords 1 2) (HoldsStruct (body_of objects.old)
                self.now.draft.words self.now.draft.pointers) objects.old objects.new result }
            ensures fails { FailsToAdd (StructWords 1 2) (StructSizeError 1 2)
                objects.old result }
        {
            objects.add_root(&self.draft)
        }

        /// Writes a list of such structs.
        pub fn add_list<S: GrowingSegment>(
            elements: &[Builder],
            objects: &mut Orphanage<S>,
        ) -> Result<Orphan<OwnedList>>
            ensures adds { let drafts = map (λ element. element.draft) elements.now in
                AddsOrphan (HoldsStructs (body_of objects.old) drafts)
                objects.old objects.new word_of result }
            ensures writes { let count = length elements.now in
                Writes (TakesStructsWords 1 2 count) (ManyStructs 1 2 count)
                objects.old objects.new result }
        {
            objects.draft_list(elements)
        }
    }

    impl Draft<Owned, 1, 2> for Builder {
        ghost draft = { λ builder. builder.draft };

        fn draft(&self) -> StructDraft<Owned, 1, 2> {
            self.draft
        }
    }

    impl Builder {
        /// Sets the field `value`.
        pub fn set_value(&mut self, value: i64)
            ensures words { self.new.draft.words
                ≡ with_field self.old.draft.words
                64 0 (cast_unsigned w64 value) }
            ensures pointers { self.new.draft.pointers ≡ self.old.draft.pointers }
        {
            self.draft.set_data_field(0, value);
        }

        /// The field `value`, as it is set.
        pub fn get_value(&self) -> i64
            ensures { let fields = self.now.draft in
                result ≡ cast_signed w64 (field fields.words 64 0) }
        {
            self.draft.get_data_field(0)
        }

        /// Sets the field `left`.
        ///
        /// An object that it pointed to before stays in the bytes of the message.
        pub fn set_left(&mut self, value: Orphan<super::tree::Owned>)
            ensures words { self.new.draft.words ≡ self.old.draft.words }
            ensures pointers { self.new.draft.pointers
                ≡ slice_set self.old.draft.pointers 0 value.word }
        {
            self.draft.adopt(0, value);
        }

        /// Whether `left` is set, and not to null.
        pub fn has_left(&self) -> bool
            ensures { IsTrue result ↔ (slice_index_or self.now.draft.pointers 0 0 ≢ 0) }
        {
            self.draft.has_pointer(0)
        }

        /// Sets the field `right`.
        ///
        /// An object that it pointed to before stays in the bytes of the message.
        pub fn set_right(&mut self, value: Orphan<super::tree::Owned>)
            ensures words { self.new.draft.words ≡ self.old.draft.words }
            ensures pointers { self.new.draft.pointers
                ≡ slice_set self.old.draft.pointers 1 value.word }
        {
            self.draft.adopt(1, value);
        }

        /// Whether `right` is set, and not to null.
        pub fn has_right(&self) -> bool
            ensures { IsTrue result ↔ (slice_index_or self.now.draft.pointers 1 0 ≢ 0) }
        {
            self.draft.has_pointer(1)
        }
    }

    /// Which pointer of the struct points to `left`, for `fields.get_pointer`.
    pub const LEFT_POINTER: u16 = 0;

    /// Which pointer of the struct points to `right`, for `fields.get_pointer`.
    pub const RIGHT_POINTER: u16 = 1;
}

/// Colors of a lamp.
#[rattlefmt::skip]
#[derive(Clone, Copy, PartialEq, Eq, Hash, Debug)]
pub enum Color {
    Red,
    Green,
    DeepBlue,
    /// A number that the schema doesn't name.
    NotInSchema(u16),
}

#[rattlefmt::skip]
impl Color {
    /// The enumerant of this number.
    pub fn from_number(number: u16) -> Color
        ensures { elim result [
          | Color.Red ↦ number ≡ 0
          | Color.Green ↦ number ≡ 1
          | Color.DeepBlue ↦ number ≡ 2
          | Color.NotInSchema unknown ↦ (unknown ≡ number) × (3 ≤ number)
        ] }
    {
        match number {
            0 => Color::Red,
            1 => Color::Green,
            2 => Color::DeepBlue,
            unknown => Color::NotInSchema(unknown),
        }
    }
}

#[rattlefmt::skip]
impl capnp::upgraded::EnumElement for Color {
    ghost named = { 3 };

    fn from_number(number: u16) -> Color {
        Color::from_number(number)
    }
}

#[rattlefmt::skip]
impl Color {
    /// Its number.
    pub fn to_number(self) -> u16
        ensures { elim self [
          | Color.Red ↦ result ≡ 0
          | Color.Green ↦ result ≡ 1
          | Color.DeepBlue ↦ result ≡ 2
          | Color.NotInSchema unknown ↦ result ≡ unknown
        ] }
    {
        match self {
            Color::Red => 0,
            Color::Green => 1,
            Color::DeepBlue => 2,
            Color::NotInSchema(unknown) => unknown,
        }
    }
}

/// A struct with a field of each kind.
#[rattlefmt::skip]
pub mod sample {
    use super::Color;
    use capnp::any_struct::StructReader;
    use capnp::constant::Words;
    use capnp::message::ReaderSegments;
    use capnp::orphans::{Draft, GrowingSegment, Orphan, Orphanage, StructDraft};
    use capnp::primitive_element::PrimitiveElement;
    use capnp::traits::FromPointerReader;
    use capnp::{Result, any_pointer, text, traits, upgraded};

    /// The type of the schema.
    pub struct Owned;

    impl<'a, S: ReaderSegments + 'a> traits::Owned<'a, S> for Owned {
        type Reader = Reader<'a, S>;
    }

    /// A struct of this type in a message. What its writer left out reads as the default.
    #[derive(Drop)]
    pub struct Reader<'a, S: ReaderSegments> {
        /// The struct whose fields these are.
        pub fields: StructReader<'a, S>,
    }

    impl<'a, S: ReaderSegments> Reader<'a, S> {
        /// How many there are.
        pub fn get_count(&self) -> u16
            ensures { let fields = struct_of S.segments self.now.fields in
                result ≡ field fields.words 16 0 }
        {
            self.fields.get_data_field(0)
        }

        /// The field `balance`.
        pub fn get_balance(&self) -> i32
            ensures { let fields = struct_of S.segments self.now.fields in
                result ≡
                cast_signed w32 (bit_xor (field fields.words 32 1) 4294967291) }
        {
            self.fields.get_data_field_mask(1, -5)
        }

        /// The field `isReady`.
        pub fn get_is_ready(&self) -> bool
            ensures { let fields = struct_of S.segments self.now.fields in
                result ≡ (field fields.words 1 16 == 1) }
        {
            self.fields.get_data_field(16)
        }

        /// The field `title`.
        pub fn get_title(&self) -> Result<text::Reader<'a>>
            ensures { let fields = struct_of S.segments self.now.fields in
                IsTextView (pointer_in fields 0) result }
        {
            self.fields.get_pointer_as(0)
        }

        /// Whether `title` is there, and is not null.
        pub fn has_title(&self) -> bool
            ensures { let fields = struct_of S.segments self.now.fields in
                IsTrue result ↔ (Denotes (pointer_in fields 0) nothing → ⊥) }
        {
            self.fields.has_pointer(0)
        }

        /// The field `payload`.
        pub fn get_payload(&self) -> Result<&'a [u8]>
            ensures { let fields = struct_of S.segments self.now.fields in
                IsDataView (pointer_in fields 1) result }
        {
            self.fields.get_pointer_as(1)
        }

        /// Whether `payload` is there, and is not null.
        pub fn has_payload(&self) -> bool
            ensures { let fields = struct_of S.segments self.now.fields in
                IsTrue result ↔ (Denotes (pointer_in fields 1) nothing → ⊥) }
        {
            self.fields.has_pointer(1)
        }

        /// The field `points`.
        pub fn get_points(&self) -> Result<super::point::ListReader<'a, S>>
            ensures { let fields = struct_of S.segments self.now.fields in
                IsStructsView S.segments (pointer_in fields 2) result }
        {
            self.fields.get_pointer_as(2)
        }

        /// Whether `points` is there, and is not null.
        pub fn has_points(&self) -> bool
            ensures { let fields = struct_of S.segments self.now.fields in
                IsTrue result ↔ (Denotes (pointer_in fields 2) nothing → ⊥) }
        {
            self.fields.has_pointer(2)
        }

        /// The field `numbers`.
        pub fn get_numbers(&self) -> Result<upgraded::NumberList<'a, u32>>
            ensures { let fields = struct_of S.segments self.now.fields in
                IsNumbersView 4 (pointer_in fields 3) result }
        {
            self.fields.get_pointer_as(3)
        }

        /// Whether `numbers` is there, and is not null.
        pub fn has_numbers(&self) -> bool
            ensures { let fields = struct_of S.segments self.now.fields in
                IsTrue result ↔ (Denotes (pointer_in fields 3) nothing → ⊥) }
        {
            self.fields.has_pointer(3)
        }

        /// The field `origin`.
        pub fn get_origin(&self) -> Result<super::point::Reader<'a, S>>
            ensures { let fields = struct_of S.segments self.now.fields in
                IsStructView (pointer_in fields 4)
                (λ view. struct_of S.segments view.fields) result }
        {
            self.fields.get_pointer_as(4)
        }

        /// Whether `origin` is there, and is not null.
        pub fn has_origin(&self) -> bool
            ensures { let fields = struct_of S.segments self.now.fields in
                IsTrue result ↔ (Denotes (pointer_in fields 4) nothing → ⊥) }
        {
            self.fields.has_pointer(4)
        }

        /// The field `color`.
        pub fn get_color(&self) -> Color
            ensures { let fields = struct_of S.segments self.now.fields in
                let number = field fields.words 16 4 in
                elim result [
                  | Color.Red ↦ number ≡ 0
                  | Color.Green ↦ number ≡ 1
                  | Color.DeepBlue ↦ number ≡ 2
                  | Color.NotInSchema unknown ↦ (unknown ≡ number) × (3 ≤ number)
                ] }
        {
            Color::from_number(self.fields.get_data_field(4))
        }

        /// What is seen of it.
        #[inline(always)]
        pub fn get_window(&self) -> window::Reader<'_, 'a, S>
            ensures { let fields = struct_of S.segments self.now.fields in
                struct_of S.segments result.fields.now ≡ fields }
        {
            window::Reader {
                fields: &self.fields,
            }
        }

        /// The field `nothing`.
        pub fn get_nothing(&self) {}

        /// The field `size`.
        pub fn get_size(&self) -> u32
            ensures { let fields = struct_of S.segments self.now.fields in
                result ≡ field fields.words 32 4 }
        {
            self.fields.get_data_field(4)
        }

        /// The field `label`.
        pub fn get_label(&self) -> Result<text::Reader<'a>>
            ensures { let fields = struct_of S.segments self.now.fields in
                IsTextView (pointer_in fields 5) result }
        {
            self.fields.get_pointer_as(5)
        }

        /// Whether `label` is there, and is not null.
        pub fn has_label(&self) -> bool
            ensures { let fields = struct_of S.segments self.now.fields in
                IsTrue result ↔ (Denotes (pointer_in fields 5) nothing → ⊥) }
        {
            self.fields.has_pointer(5)
        }

        /// The field `ratio`.
        pub fn get_ratio(&self) -> f64
            ensures { let fields = struct_of S.segments self.now.fields in
                result ≡
                from_bits binary64 (bit_xor (field fields.words 64 3) 4602678819172646912) }
        {
            let bits: u64 = self.fields.get_data_field_mask(3, 4602678819172646912);
            PrimitiveElement::from_bits(bits)
        }

        /// The field `note`.
        pub fn get_note(&self) -> Result<text::Reader<'a>>
            ensures { let fields = struct_of S.segments self.now.fields in
                let pointer = pointer_in fields 6 in
                ((Denotes pointer nothing → ⊥) → IsTextView pointer result)
                × (Denotes pointer nothing → (let pointer = root_of NOTE_DEFAULT in
                IsTextView pointer result)) }
        {
            let pointer = self.fields.get_pointer(6);
            if pointer.is_null() {
                get_note_default()
            } else {
                FromPointerReader::get_from_pointer(pointer)
            }
        }

        /// Whether `note` is there, and is not null.
        pub fn has_note(&self) -> bool
            ensures { let fields = struct_of S.segments self.now.fields in
                IsTrue result ↔ (Denotes (pointer_in fields 6) nothing → ⊥) }
        {
            self.fields.has_pointer(6)
        }

        /// The field `target`.
        pub fn get_target(&self) -> Result<super::point::Reader<'a, S>>
            ensures { let fields = struct_of S.segments self.now.fields in
                let pointer = pointer_in fields 7 in
                ((Denotes pointer nothing → ⊥) → IsStructView pointer
                (λ view. struct_of S.segments view.fields) result)
                × (Denotes pointer nothing → IsDefaultView (root_of TARGET_DEFAULT) pointer
                (λ view. struct_of S.segments view.fields) result) }
        {
            let pointer = self.fields.get_pointer(7);
            if pointer.is_null() {
                match capnp::constant::default_data(&pointer, &TARGET_DEFAULT) {
                    Ok(fields) => Ok(super::point::Reader { fields }),
                    Err(error) => Err(error),
                }
            } else {
                FromPointerReader::get_from_pointer(pointer)
            }
        }

        /// Whether `target` is there, and is not null.
        pub fn has_target(&self) -> bool
            ensures { let fields = struct_of S.segments self.now.fields in
                IsTrue result ↔ (Denotes (pointer_in fields 7) nothing → ⊥) }
        {
            self.fields.has_pointer(7)
        }

        /// The field `anything`.
        pub fn get_anything(&self) -> any_pointer::Reader<'a, S>
            ensures { let fields = struct_of S.segments self.now.fields in
                pointer_of S.segments result ≡ pointer_in fields 8 }
        {
            self.fields.get_pointer(8)
        }

        /// Whether `anything` is there, and is not null.
        pub fn has_anything(&self) -> bool
            ensures { let fields = struct_of S.segments self.now.fields in
                IsTrue result ↔ (Denotes (pointer_in fields 8) nothing → ⊥) }
        {
            self.fields.has_pointer(8)
        }

        /// Which member of the union is there, and its value.
        #[inline(always)]
        pub fn which(&self) -> Which<'a>
            ensures { let fields = struct_of S.segments self.now.fields in
                let number = field fields.words 16 7 in
                elim result [
                  | Which.Nothing ↦ number ≡ 0
                  | Which.Size value ↦ (number ≡ 1) × (value ≡ field fields.words 32 4)
                  | Which.Label value ↦ (number ≡ 2) ×
                      (IsTextView (pointer_in fields 5) value)
                  | Which.NotInSchema unknown ↦ (unknown ≡ number) × (3 ≤ number)
                ] }
        {
            match self.fields.get_data_field::<u16>(7) {
                0 => Which::Nothing,
                1 => Which::Size(self.get_size()),
                2 => Which::Label(self.get_label()),
                unknown => Which::NotInSchema(unknown),
            }
        }
    }

    /// The members of the union.
    #[derive(Drop)]
    pub enum Which<'a> {
        Nothing,
        Size(u32),
        Label(Result<text::Reader<'a>>),
        /// A number that the schema doesn't name.
        NotInSchema(u16),
    }

    impl<'a, S: ReaderSegments> upgraded::FromStruct<StructReader<'a, S>> for Reader<'a, S> {
        ghost shown = { λ view. struct_of S.segments view.fields };

        #[inline(always)]
        fn from_struct(fields: StructReader<'a, S>) -> Reader<'a, S> {
            Reader { fields }
        }
    }

    /// A list of such structs, or of their first fields where an older writer had these.
    pub type ListReader<'a, S> = upgraded::Structs<'a, S, Reader<'a, S>>;

    /// A list of such structs, as a type of the schema.
    pub type OwnedList = upgraded::OwnedStructs<Owned>;

    /// A struct of this type before it is written. What is not set has its default.
    #[derive(Clone, Copy)]
    pub struct Builder {
        /// Its data words, and what its pointers point to.
        pub draft: StructDraft<Owned, 4, 9>,
    }

    impl Builder {
        /// A builder in which nothing is set: each field has its default.
        pub fn new() -> Builder
            ensures words { result.draft.words ≡ replicate 4 0 }
            ensures pointers { result.draft.pointers ≡ replicate 9 0 }
        {
            Builder {
                draft: StructDraft::new(),
            }
        }

        /// A builder with what a reader shows, to be changed and written again. What its
        /// pointers point to is copied, as orphans; null stays null. What another version of
        /// the type left out is zero or null, and what it had in addition is left out.
        ///
        /// A copy that a setter replaces stays in the bytes, but not in canonical words.
        ///
        /// Fails as `Orphanage::set` does, for the first pointer that can't be copied.
        pub fn from_reader<R: ReaderSegments, S: GrowingSegment>(
            read: &Reader<'_, R>,
            objects: &mut Orphanage<S>,
        ) -> Result<Builder>
            ensures words { IfOk result (λ made. made.draft.words
                ≡ data_up_to (struct_of R.segments read.now.fields) 4) }
            ensures copies { CopiesPointers (struct_of R.segments read.now.fields) 9
                objects.old objects.new (λ made. made.draft.pointers) result }
        {
            match StructDraft::from_reader(&read.fields, objects) {
                Ok(draft) => Ok(Builder { draft }),
                Err(error) => Err(error),
            }
        }

        /// A builder with the numbers, bools and enums that a reader shows, as `from_reader`
        /// has them. Its pointers are null.
        pub fn from_data_section<R: ReaderSegments>(read: &Reader<'_, R>) -> Builder
            ensures words { result.draft.words
                ≡ data_up_to (struct_of R.segments read.now.fields) 4 }
            ensures pointers { result.draft.pointers ≡ replicate 9 0 }
        {
            Builder {
                draft: StructDraft::from_data_section(&read.fields),
            }
        }

        /// Writes it, as an object that a pointer can point to.
        pub fn add<S: GrowingSegment>(&self, objects: &mut Orphanage<S>) -> Result<Orphan<Owned>>
            ensures adds { AddsOrphan (HoldsStruct (body_of objects.old) self.now.draft.words
                self.now.draft.pointers) objects.old objects.new word_of result }
            ensures writes { Writes (StructWords 4 9) (StructSizeError 4 9)
                objects.old objects.new result }
        {
            objects.add(&self.draft)
        }

        /// Writes it as the root of the message.
        pub fn add_root<S: GrowingSegment>(&self, objects: &mut Orphanage<S>) -> Result<()>
            ensures adds { AddsRoot (StructWords 4 9) (HoldsStruct (body_of objects.old)
                self.now.draft.words self.now.draft.pointers) objects.old objects.new result }
            ensures fails { FailsToAdd (StructWords 4 9) (StructSizeError 4 9)
                objects.old result }
        {
            objects.add_root(&self.draft)
        }

        /// Writes a list of such structs.
        pub fn add_list<S: GrowingSegment>(
            elements: &[Builder],
            objects: &mut Orphanage<S>,
        ) -> Result<Orphan<OwnedList>>
            ensures adds { let drafts = map (λ element. element.draft) elements.now in
                AddsOrphan (HoldsStructs (body_of objects.old) drafts)
                objects.old objects.new word_of result }
            ensures writes { let count = length elements.now in
                Writes (TakesStructsWords 4 9 count) (ManyStructs 4 9 count)
                objects.old objects.new result }
        {
            objects.draft_list(elements)
        }
    }

    impl Draft<Owned, 4, 9> for Builder {
        ghost draft = { λ builder. builder.draft };

        fn draft(&self) -> StructDraft<Owned, 4, 9> {
            self.draft
        }
    }

    impl Builder {
        /// Sets the field `count`:
        /// How many there are.
        pub fn set_count(&mut self, value: u16)
            ensures words { self.new.draft.words
                ≡ with_field self.old.draft.words 16 0 value }
            ensures pointers { self.new.draft.pointers ≡ self.old.draft.pointers }
        {
            self.draft.set_data_field(0, value);
        }

        /// The field `count`, as it is set.
        pub fn get_count(&self) -> u16
            ensures { let fields = self.now.draft in
                result ≡ field fields.words 16 0 }
        {
            self.draft.get_data_field(0)
        }

        /// Sets the field `balance`.
        pub fn set_balance(&mut self, value: i32)
            ensures words { self.new.draft.words
                ≡ with_field self.old.draft.words
                32 1 (bit_xor (cast_unsigned w32 value) 4294967291) }
            ensures pointers { self.new.draft.pointers ≡ self.old.draft.pointers }
        {
            self.draft.set_data_field_mask(1, value, -5);
        }

        /// The field `balance`, as it is set.
        pub fn get_balance(&self) -> i32
            ensures { let fields = self.now.draft in
                result ≡
                cast_signed w32 (bit_xor (field fields.words 32 1) 4294967291) }
        {
            self.draft.get_data_field_mask(1, -5)
        }

        /// Sets the field `isReady`.
        pub fn set_is_ready(&mut self, value: bool)
            ensures words { self.new.draft.words
                ≡ with_field self.old.draft.words
                1 16 (if value then 1 else 0) }
            ensures pointers { self.new.draft.pointers ≡ self.old.draft.pointers }
        {
            self.draft.set_data_field(16, value);
        }

        /// The field `isReady`, as it is set.
        pub fn get_is_ready(&self) -> bool
            ensures { let fields = self.now.draft in
                result ≡ (field fields.words 1 16 == 1) }
        {
            self.draft.get_data_field(16)
        }

        /// Sets the field `title`.
        ///
        /// An object that it pointed to before stays in the bytes of the message.
        pub fn set_title(&mut self, value: Orphan<text::Owned>)
            ensures words { self.new.draft.words ≡ self.old.draft.words }
            ensures pointers { self.new.draft.pointers
                ≡ slice_set self.old.draft.pointers 0 value.word }
        {
            self.draft.adopt(0, value);
        }

        /// Whether `title` is set, and not to null.
        pub fn has_title(&self) -> bool
            ensures { IsTrue result ↔ (slice_index_or self.now.draft.pointers 0 0 ≢ 0) }
        {
            self.draft.has_pointer(0)
        }

        /// Sets the field `payload`.
        ///
        /// An object that it pointed to before stays in the bytes of the message.
        pub fn set_payload(&mut self, value: Orphan<capnp::data::Owned>)
            ensures words { self.new.draft.words ≡ self.old.draft.words }
            ensures pointers { self.new.draft.pointers
                ≡ slice_set self.old.draft.pointers 1 value.word }
        {
            self.draft.adopt(1, value);
        }

        /// Whether `payload` is set, and not to null.
        pub fn has_payload(&self) -> bool
            ensures { IsTrue result ↔ (slice_index_or self.now.draft.pointers 1 0 ≢ 0) }
        {
            self.draft.has_pointer(1)
        }

        /// Sets the field `points`.
        ///
        /// An object that it pointed to before stays in the bytes of the message.
        pub fn set_points(&mut self, value: Orphan<super::point::OwnedList>)
            ensures words { self.new.draft.words ≡ self.old.draft.words }
            ensures pointers { self.new.draft.pointers
                ≡ slice_set self.old.draft.pointers 2 value.word }
        {
            self.draft.adopt(2, value);
        }

        /// Whether `points` is set, and not to null.
        pub fn has_points(&self) -> bool
            ensures { IsTrue result ↔ (slice_index_or self.now.draft.pointers 2 0 ≢ 0) }
        {
            self.draft.has_pointer(2)
        }

        /// Sets the field `numbers`.
        ///
        /// An object that it pointed to before stays in the bytes of the message.
        pub fn set_numbers(&mut self, value: Orphan<capnp::primitive_list::Owned<u32>>)
            ensures words { self.new.draft.words ≡ self.old.draft.words }
            ensures pointers { self.new.draft.pointers
                ≡ slice_set self.old.draft.pointers 3 value.word }
        {
            self.draft.adopt(3, value);
        }

        /// Whether `numbers` is set, and not to null.
        pub fn has_numbers(&self) -> bool
            ensures { IsTrue result ↔ (slice_index_or self.now.draft.pointers 3 0 ≢ 0) }
        {
            self.draft.has_pointer(3)
        }

        /// Sets the field `origin`.
        ///
        /// An object that it pointed to before stays in the bytes of the message.
        pub fn set_origin(&mut self, value: Orphan<super::point::Owned>)
            ensures words { self.new.draft.words ≡ self.old.draft.words }
            ensures pointers { self.new.draft.pointers
                ≡ slice_set self.old.draft.pointers 4 value.word }
        {
            self.draft.adopt(4, value);
        }

        /// Whether `origin` is set, and not to null.
        pub fn has_origin(&self) -> bool
            ensures { IsTrue result ↔ (slice_index_or self.now.draft.pointers 4 0 ≢ 0) }
        {
            self.draft.has_pointer(4)
        }

        /// Sets the field `color`.
        pub fn set_color(&mut self, value: Color)
            ensures words { let old = self.old.draft.words in
                let new = self.new.draft.words in elim value [
                  | Color.Red ↦ new ≡ with_field old 16 4 0
                  | Color.Green ↦ new ≡ with_field old 16 4 1
                  | Color.DeepBlue ↦ new ≡ with_field old 16 4 2
                  | Color.NotInSchema unknown ↦ new ≡ with_field old 16 4 unknown
                ] }
            ensures pointers { self.new.draft.pointers ≡ self.old.draft.pointers }
        {
            self.draft.set_data_field(4, value.to_number());
        }

        /// The field `color`, as it is set.
        pub fn get_color(&self) -> Color
            ensures { let fields = self.now.draft in
                let number = field fields.words 16 4 in
                elim result [
                  | Color.Red ↦ number ≡ 0
                  | Color.Green ↦ number ≡ 1
                  | Color.DeepBlue ↦ number ≡ 2
                  | Color.NotInSchema unknown ↦ (unknown ≡ number) × (3 ≤ number)
                ] }
        {
            Color::from_number(self.draft.get_data_field(4))
        }

        /// Sets the field `nothing`.
        pub fn set_nothing(&mut self)
            ensures words { self.new.draft.words
                ≡ (with_field self.old.draft.words 16 7 0) }
            ensures pointers { self.new.draft.pointers ≡ self.old.draft.pointers }
        {
            self.draft.set_data_field::<u16>(7, 0);
        }

        /// Sets the field `size`.
        pub fn set_size(&mut self, value: u32)
            ensures words { self.new.draft.words
                ≡ with_field (with_field self.old.draft.words 16 7 1)
                32 4 value }
            ensures pointers { self.new.draft.pointers ≡ self.old.draft.pointers }
        {
            self.draft.set_data_field::<u16>(7, 1);
            self.draft.set_data_field(4, value);
        }

        /// The field `size`, as it is set.
        pub fn get_size(&self) -> u32
            ensures { let fields = self.now.draft in
                result ≡ field fields.words 32 4 }
        {
            self.draft.get_data_field(4)
        }

        /// Sets the field `label`.
        ///
        /// An object that it pointed to before stays in the bytes of the message.
        pub fn set_label(&mut self, value: Orphan<text::Owned>)
            ensures words { self.new.draft.words
                ≡ (with_field self.old.draft.words 16 7 2) }
            ensures pointers { self.new.draft.pointers
                ≡ slice_set self.old.draft.pointers 5 value.word }
        {
            self.draft.set_data_field::<u16>(7, 2);
            self.draft.adopt(5, value);
        }

        /// Whether `label` is set, and not to null.
        pub fn has_label(&self) -> bool
            ensures { IsTrue result ↔ (slice_index_or self.now.draft.pointers 5 0 ≢ 0) }
        {
            self.draft.has_pointer(5)
        }

        /// Sets the field `ratio`.
        pub fn set_ratio(&mut self, value: f64)
            ensures words { self.new.draft.words
                ≡ with_field self.old.draft.words
                64 3 (bit_xor (to_bits binary64 value) 4602678819172646912) }
            ensures pointers { self.new.draft.pointers ≡ self.old.draft.pointers }
        {
            let bits = PrimitiveElement::to_bits(value);
            self.draft.set_data_field_mask::<u64>(3, bits, 4602678819172646912);
        }

        /// The field `ratio`, as it is set.
        pub fn get_ratio(&self) -> f64
            ensures { let fields = self.now.draft in
                result ≡
                from_bits binary64 (bit_xor (field fields.words 64 3) 4602678819172646912) }
        {
            let bits: u64 = self.draft.get_data_field_mask(3, 4602678819172646912);
            PrimitiveElement::from_bits(bits)
        }

        /// Sets the field `note`.
        ///
        /// An object that it pointed to before stays in the bytes of the message.
        pub fn set_note(&mut self, value: Orphan<text::Owned>)
            ensures words { self.new.draft.words ≡ self.old.draft.words }
            ensures pointers { self.new.draft.pointers
                ≡ slice_set self.old.draft.pointers 6 value.word }
        {
            self.draft.adopt(6, value);
        }

        /// Whether `note` is set, and not to null.
        pub fn has_note(&self) -> bool
            ensures { IsTrue result ↔ (slice_index_or self.now.draft.pointers 6 0 ≢ 0) }
        {
            self.draft.has_pointer(6)
        }

        /// Sets the field `target`.
        ///
        /// An object that it pointed to before stays in the bytes of the message.
        pub fn set_target(&mut self, value: Orphan<super::point::Owned>)
            ensures words { self.new.draft.words ≡ self.old.draft.words }
            ensures pointers { self.new.draft.pointers
                ≡ slice_set self.old.draft.pointers 7 value.word }
        {
            self.draft.adopt(7, value);
        }

        /// Whether `target` is set, and not to null.
        pub fn has_target(&self) -> bool
            ensures { IsTrue result ↔ (slice_index_or self.now.draft.pointers 7 0 ≢ 0) }
        {
            self.draft.has_pointer(7)
        }

        /// Sets the field `anything`.
        ///
        /// An object that it pointed to before stays in the bytes of the message.
        pub fn set_anything<T>(&mut self, value: Orphan<T>)
            ensures words { self.new.draft.words ≡ self.old.draft.words }
            ensures pointers { self.new.draft.pointers
                ≡ slice_set self.old.draft.pointers 8 value.word }
        {
            self.draft.adopt(8, value);
        }

        /// Whether `anything` is set, and not to null.
        pub fn has_anything(&self) -> bool
            ensures { IsTrue result ↔ (slice_index_or self.now.draft.pointers 8 0 ≢ 0) }
        {
            self.draft.has_pointer(8)
        }
    }

    /// Which pointer of the struct points to `title`, for `fields.get_pointer`.
    pub const TITLE_POINTER: u16 = 0;

    /// Which pointer of the struct points to `payload`, for `fields.get_pointer`.
    pub const PAYLOAD_POINTER: u16 = 1;

    /// Which pointer of the struct points to `points`, for `fields.get_pointer`.
    pub const POINTS_POINTER: u16 = 2;

    /// Which pointer of the struct points to `numbers`, for `fields.get_pointer`.
    pub const NUMBERS_POINTER: u16 = 3;

    /// Which pointer of the struct points to `origin`, for `fields.get_pointer`.
    pub const ORIGIN_POINTER: u16 = 4;

    /// Which pointer of the struct points to `label`, for `fields.get_pointer`.
    pub const LABEL_POINTER: u16 = 5;

    /// Which pointer of the struct points to `note`, for `fields.get_pointer`.
    pub const NOTE_POINTER: u16 = 6;

    /// Which pointer of the struct points to `target`, for `fields.get_pointer`.
    pub const TARGET_POINTER: u16 = 7;

    /// Which pointer of the struct points to `anything`, for `fields.get_pointer`.
    pub const ANYTHING_POINTER: u16 = 8;

    pub static NOTE_DEFAULT: Words<16> = Words { bytes: [
        1, 0, 0, 0, 42, 0, 0, 0,
        110, 111, 110, 101, 0, 0, 0, 0,
    ] };

    /// The words of `NOTE_DEFAULT` are the layout of the schema's value.
    pub fn note_default_is_laid_out()
        ensures { words_of NOTE_DEFAULT.bytes ≡ layout
            (TreeOf (NumbersForm 2 (110 ∷ 111 ∷ 110 ∷ 101 ∷ 0 ∷ [])) NoTrees NoTrees) }
    {}

    /// The default of the field `note`.
    pub fn get_note_default() -> Result<text::Reader<'static>>
        ensures { let pointer = root_of NOTE_DEFAULT in
            IsTextView pointer result }
    {
        capnp::constant::view_of(&NOTE_DEFAULT)
    }

    pub static TARGET_DEFAULT: Words<16> = Words { bytes: [
        0, 0, 0, 0, 1, 0, 0, 0,
        3, 0, 0, 0, 4, 0, 0, 0,
    ] };

    /// The words of `TARGET_DEFAULT` are the layout of the schema's value.
    pub fn target_default_is_laid_out()
        ensures { words_of TARGET_DEFAULT.bytes ≡ layout
            (TreeOf (StructForm (0x400000003 ∷ [])) NoTrees NoTrees) }
    {}

    /// The default of the field `target`.
    pub fn get_target_default() -> Result<super::point::Reader<'static, Words<16>>>
        ensures { let pointer = root_of TARGET_DEFAULT in
            IsStructView pointer
            (λ view. struct_of segments_of view.fields) result }
    {
        capnp::constant::view_of(&TARGET_DEFAULT)
    }

    /// What is seen of it.
    pub mod window {
        use capnp::any_struct::StructReader;
        use capnp::message::ReaderSegments;

        /// The group, in a struct in a message.
        #[derive(Drop)]
        pub struct Reader<'b, 'a, S: ReaderSegments> {
            /// The struct whose fields these are.
            pub fields: &'b StructReader<'a, S>,
        }

        impl<'b, 'a, S: ReaderSegments> Reader<'b, 'a, S> {
            /// The field `width`.
            pub fn get_width(&self) -> u16
                ensures { let fields = struct_of S.segments self.now.fields.now in
                    result ≡ field fields.words 16 5 }
            {
                self.fields.get_data_field(5)
            }

            /// The field `height`.
            pub fn get_height(&self) -> u16
                ensures { let fields = struct_of S.segments self.now.fields.now in
                    result ≡ field fields.words 16 6 }
            {
                self.fields.get_data_field(6)
            }
        }

        impl super::Builder {
            /// Sets the field `width`.
            pub fn set_window_width(&mut self, value: u16)
                ensures words { self.new.draft.words
                    ≡ with_field self.old.draft.words 16 5 value }
                ensures pointers { self.new.draft.pointers ≡ self.old.draft.pointers }
            {
                self.draft.set_data_field(5, value);
            }

            /// The field `width`, as it is set.
            pub fn get_window_width(&self) -> u16
                ensures { let fields = self.now.draft in
                    result ≡ field fields.words 16 5 }
            {
                self.draft.get_data_field(5)
            }

            /// Sets the field `height`.
            pub fn set_window_height(&mut self, value: u16)
                ensures words { self.new.draft.words
                    ≡ with_field self.old.draft.words 16 6 value }
                ensures pointers { self.new.draft.pointers ≡ self.old.draft.pointers }
            {
                self.draft.set_data_field(6, value);
            }

            /// The field `height`, as it is set.
            pub fn get_window_height(&self) -> u16
                ensures { let fields = self.now.draft in
                    result ≡ field fields.words 16 6 }
            {
                self.draft.get_data_field(6)
            }
        }
    }
}

/// A circle or a rectangle.
#[rattlefmt::skip]
pub mod shape {
    use capnp::any_struct::StructReader;
    use capnp::message::ReaderSegments;
    use capnp::orphans::{Draft, GrowingSegment, Orphan, Orphanage, StructDraft};
    use capnp::{Result, traits, upgraded};

    /// The type of the schema.
    pub struct Owned;

    impl<'a, S: ReaderSegments + 'a> traits::Owned<'a, S> for Owned {
        type Reader = Reader<'a, S>;
    }

    /// A struct of this type in a message. What its writer left out reads as the default.
    #[derive(Drop)]
    pub struct Reader<'a, S: ReaderSegments> {
        /// The struct whose fields these are.
        pub fields: StructReader<'a, S>,
    }

    impl<'a, S: ReaderSegments> Reader<'a, S> {
        /// The field `radius`.
        pub fn get_radius(&self) -> f64
            ensures { let fields = struct_of S.segments self.now.fields in
                result ≡ from_bits binary64 (field fields.words 64 0) }
        {
            self.fields.get_data_field(0)
        }

        /// Its sides, and what stands in it.
        #[inline(always)]
        pub fn get_rectangle(&self) -> rectangle::Reader<'_, 'a, S>
            ensures { let fields = struct_of S.segments self.now.fields in
                struct_of S.segments result.fields.now ≡ fields }
        {
            rectangle::Reader {
                fields: &self.fields,
            }
        }

        /// Which member of the union is there, and its value.
        #[inline(always)]
        pub fn which(&self) -> Which<'_, 'a, S>
            ensures { let fields = struct_of S.segments self.now.fields in
                let number = field fields.words 16 4 in
                elim result [
                  | Which.Radius value ↦ (number ≡ 0) ×
                      (value ≡ from_bits binary64 (field fields.words 64 0))
                  | Which.Rectangle value ↦ (number ≡ 1) ×
                      (struct_of S.segments value.fields.now ≡ fields)
                  | Which.NotInSchema unknown ↦ (unknown ≡ number) × (2 ≤ number)
                ] }
        {
            match self.fields.get_data_field::<u16>(4) {
                0 => Which::Radius(self.get_radius()),
                1 => Which::Rectangle(self.get_rectangle()),
                unknown => Which::NotInSchema(unknown),
            }
        }
    }

    /// The members of the union.
    #[derive(Drop)]
    pub enum Which<'b, 'a, S: ReaderSegments> {
        Radius(f64),
        Rectangle(rectangle::Reader<'b, 'a, S>),
        /// A number that the schema doesn't name.
        NotInSchema(u16),
    }

    impl<'a, S: ReaderSegments> upgraded::FromStruct<StructReader<'a, S>> for Reader<'a, S> {
        ghost shown = { λ view. struct_of S.segments view.fields };

        #[inline(always)]
        fn from_struct(fields: StructReader<'a, S>) -> Reader<'a, S> {
            Reader { fields }
        }
    }

    /// A list of such structs, or of their first fields where an older writer had these.
    pub type ListReader<'a, S> = upgraded::Structs<'a, S, Reader<'a, S>>;

    /// A list of such structs, as a type of the schema.
    pub type OwnedList = upgraded::OwnedStructs<Owned>;

    /// A struct of this type before it is written. What is not set has its default.
    #[derive(Clone, Copy)]
    pub struct Builder {
        /// Its data words, and what its pointers point to.
        pub draft: StructDraft<Owned, 2, 1>,
    }

    impl Builder {
        /// A builder in which nothing is set: each field has its default.
        pub fn new() -> Builder
            ensures words { result.draft.words ≡ replicate 2 0 }
            ensures pointers { result.draft.pointers ≡ replicate 1 0 }
        {
            Builder {
                draft: StructDraft::new(),
            }
        }

        /// A builder with what a reader shows, to be changed and written again. What its
        /// pointers point to is copied, as orphans; null stays null. What another version of
        /// the type left out is zero or null, and what it had in addition is left out.
        ///
        /// A copy that a setter replaces stays in the bytes, but not in canonical words.
        ///
        /// Fails as `Orphanage::set` does, for the first pointer that can't be copied.
        pub fn from_reader<R: ReaderSegments, S: GrowingSegment>(
            read: &Reader<'_, R>,
            objects: &mut Orphanage<S>,
        ) -> Result<Builder>
            ensures words { IfOk result (λ made. made.draft.words
                ≡ data_up_to (struct_of R.segments read.now.fields) 2) }
            ensures copies { CopiesPointers (struct_of R.segments read.now.fields) 1
                objects.old objects.new (λ made. made.draft.pointers) result }
        {
            match StructDraft::from_reader(&read.fields, objects) {
                Ok(draft) => Ok(Builder { draft }),
                Err(error) => Err(error),
            }
        }

        /// A builder with the numbers, bools and enums that a reader shows, as `from_reader`
        /// has them. Its pointers are null.
        pub fn from_data_section<R: ReaderSegments>(read: &Reader<'_, R>) -> Builder
            ensures words { result.draft.words
                ≡ data_up_to (struct_of R.segments read.now.fields) 2 }
            ensures pointers { result.draft.pointers ≡ replicate 1 0 }
        {
            Builder {
                draft: StructDraft::from_data_section(&read.fields),
            }
        }

        /// Writes it, as an object that a pointer can point to.
        pub fn add<S: GrowingSegment>(&self, objects: &mut Orphanage<S>) -> Result<Orphan<Owned>>
            ensures adds { AddsOrphan (HoldsStruct (body_of objects.old) self.now.draft.words
                self.now.draft.pointers) objects.old objects.new word_of result }
            ensures writes { Writes (StructWords 2 1) (StructSizeError 2 1)
                objects.old objects.new result }
        {
            objects.add(&self.draft)
        }

        /// Writes it as the root of the message.
        pub fn add_root<S: GrowingSegment>(&self, objects: &mut Orphanage<S>) -> Result<()>
            ensures adds { AddsRoot (StructWords 2 1) (HoldsStruct (body_of objects.old)
                self.now.draft.words self.now.draft.pointers) objects.old objects.new result }
            ensures fails { FailsToAdd (StructWords 2 1) (StructSizeError 2 1)
                objects.old result }
        {
            objects.add_root(&self.draft)
        }

        /// Writes a list of such structs.
        pub fn add_list<S: GrowingSegment>(
            elements: &[Builder],
            objects: &mut Orphanage<S>,
        ) -> Result<Orphan<OwnedList>>
            ensures adds { let drafts = map (λ element. element.draft) elements.now in
                AddsOrphan (HoldsStructs (body_of objects.old) drafts)
                objects.old objects.new word_of result }
            ensures writes { let count = length elements.now in
                Writes (TakesStructsWords 2 1 count) (ManyStructs 2 1 count)
                objects.old objects.new result }
        {
            objects.draft_list(elements)
        }
    }

    impl Draft<Owned, 2, 1> for Builder {
        ghost draft = { λ builder. builder.draft };

        fn draft(&self) -> StructDraft<Owned, 2, 1> {
            self.draft
        }
    }

    impl Builder {
        /// Sets the field `radius`.
        pub fn set_radius(&mut self, value: f64)
            ensures words { self.new.draft.words
                ≡ with_field (with_field self.old.draft.words 16 4 0)
                64 0 (to_bits binary64 value) }
            ensures pointers { self.new.draft.pointers ≡ self.old.draft.pointers }
        {
            self.draft.set_data_field::<u16>(4, 0);
            self.draft.set_data_field(0, value);
        }

        /// The field `radius`, as it is set.
        pub fn get_radius(&self) -> f64
            ensures { let fields = self.now.draft in
                result ≡ from_bits binary64 (field fields.words 64 0) }
        {
            self.draft.get_data_field(0)
        }
    }

    /// Its sides, and what stands in it.
    pub mod rectangle {
        use capnp::any_struct::StructReader;
        use capnp::message::ReaderSegments;
        use capnp::orphans::Orphan;
        use capnp::{Result, text};

        /// The group, in a struct in a message.
        #[derive(Drop)]
        pub struct Reader<'b, 'a, S: ReaderSegments> {
            /// The struct whose fields these are.
            pub fields: &'b StructReader<'a, S>,
        }

        impl<'b, 'a, S: ReaderSegments> Reader<'b, 'a, S> {
            /// The field `width`.
            pub fn get_width(&self) -> u32
                ensures { let fields = struct_of S.segments self.now.fields.now in
                    result ≡ field fields.words 32 0 }
            {
                self.fields.get_data_field(0)
            }

            /// The field `height`.
            pub fn get_height(&self) -> u32
                ensures { let fields = struct_of S.segments self.now.fields.now in
                    result ≡ field fields.words 32 1 }
            {
                self.fields.get_data_field(1)
            }

            /// The field `isFilled`.
            pub fn get_is_filled(&self) -> bool
                ensures { let fields = struct_of S.segments self.now.fields.now in
                    result ≡ (field fields.words 1 80 == 1) }
            {
                self.fields.get_data_field(80)
            }

            /// The field `label`.
            pub fn get_label(&self) -> Result<text::Reader<'a>>
                ensures { let fields = struct_of S.segments self.now.fields.now in
                    IsTextView (pointer_in fields 0) result }
            {
                self.fields.get_pointer_as(0)
            }

            /// Whether `label` is there, and is not null.
            pub fn has_label(&self) -> bool
                ensures { let fields = struct_of S.segments self.now.fields.now in
                    IsTrue result ↔ (Denotes (pointer_in fields 0) nothing → ⊥) }
            {
                self.fields.has_pointer(0)
            }
        }

        impl super::Builder {
            /// Selects the group `rectangle`, and clears it: each field has its default,
            /// and each pointer is null.
            pub fn init_rectangle(&mut self)
                ensures words { self.new.draft.words
                    ≡ (with_field (with_field (with_field (with_field self.old.draft.words 16 4 1)
                    32 0 0)
                    32 1 0)
                    1 80 0) }
                ensures pointers { self.new.draft.pointers
                    ≡ (slice_set self.old.draft.pointers 0 0) }
            {
                self.draft.set_data_field::<u16>(4, 1);
                self.draft.set_data_field::<u32>(0, 0);
                self.draft.set_data_field::<u32>(1, 0);
                self.draft.set_data_field(80, false);
                self.draft.clear_pointer(0);
            }

            /// Sets the field `width`.
            pub fn set_rectangle_width(&mut self, value: u32)
                ensures words { self.new.draft.words
                    ≡ with_field (with_field self.old.draft.words 16 4 1)
                    32 0 value }
                ensures pointers { self.new.draft.pointers ≡ self.old.draft.pointers }
            {
                self.draft.set_data_field::<u16>(4, 1);
                self.draft.set_data_field(0, value);
            }

            /// The field `width`, as it is set.
            pub fn get_rectangle_width(&self) -> u32
                ensures { let fields = self.now.draft in
                    result ≡ field fields.words 32 0 }
            {
                self.draft.get_data_field(0)
            }

            /// Sets the field `height`.
            pub fn set_rectangle_height(&mut self, value: u32)
                ensures words { self.new.draft.words
                    ≡ with_field (with_field self.old.draft.words 16 4 1)
                    32 1 value }
                ensures pointers { self.new.draft.pointers ≡ self.old.draft.pointers }
            {
                self.draft.set_data_field::<u16>(4, 1);
                self.draft.set_data_field(1, value);
            }

            /// The field `height`, as it is set.
            pub fn get_rectangle_height(&self) -> u32
                ensures { let fields = self.now.draft in
                    result ≡ field fields.words 32 1 }
            {
                self.draft.get_data_field(1)
            }

            /// Sets the field `isFilled`.
            pub fn set_rectangle_is_filled(&mut self, value: bool)
                ensures words { self.new.draft.words
                    ≡ with_field (with_field self.old.draft.words 16 4 1)
                    1 80 (if value then 1 else 0) }
                ensures pointers { self.new.draft.pointers ≡ self.old.draft.pointers }
            {
                self.draft.set_data_field::<u16>(4, 1);
                self.draft.set_data_field(80, value);
            }

            /// The field `isFilled`, as it is set.
            pub fn get_rectangle_is_filled(&self) -> bool
                ensures { let fields = self.now.draft in
                    result ≡ (field fields.words 1 80 == 1) }
            {
                self.draft.get_data_field(80)
            }

            /// Sets the field `label`.
            ///
            /// An object that it pointed to before stays in the bytes of the message.
            pub fn set_rectangle_label(&mut self, value: Orphan<text::Owned>)
                ensures words { self.new.draft.words
                    ≡ (with_field self.old.draft.words 16 4 1) }
                ensures pointers { self.new.draft.pointers
                    ≡ slice_set self.old.draft.pointers 0 value.word }
            {
                self.draft.set_data_field::<u16>(4, 1);
                self.draft.adopt(0, value);
            }

            /// Whether `label` is set, and not to null.
            pub fn has_rectangle_label(&self) -> bool
                ensures { IsTrue result ↔ (slice_index_or self.now.draft.pointers 0 0 ≢ 0) }
            {
                self.draft.has_pointer(0)
            }
        }

        /// Which pointer of the struct points to `label`, for `fields.get_pointer`.
        pub const LABEL_POINTER: u16 = 0;
    }
}

/// Colors, and a name for each.
#[rattlefmt::skip]
pub mod palette {
    use capnp::any_struct::StructReader;
    use capnp::constant::{OrDefault, Words};
    use capnp::message::ReaderSegments;
    use capnp::orphans::{Draft, GrowingSegment, Orphan, Orphanage, StructDraft};
    use capnp::traits::FromPointerReader;
    use capnp::{Result, text, traits, upgraded};

    /// The type of the schema.
    pub struct Owned;

    impl<'a, S: ReaderSegments + 'a> traits::Owned<'a, S> for Owned {
        type Reader = Reader<'a, S>;
    }

    /// A struct of this type in a message. What its writer left out reads as the default.
    #[derive(Drop)]
    pub struct Reader<'a, S: ReaderSegments> {
        /// The struct whose fields these are.
        pub fields: StructReader<'a, S>,
    }

    impl<'a, S: ReaderSegments> Reader<'a, S> {
        /// The field `colors`.
        pub fn get_colors(&self) -> Result<upgraded::EnumList<'a, super::Color>>
            ensures { let fields = struct_of S.segments self.now.fields in
                IsEnumsView (pointer_in fields 0) result }
        {
            self.fields.get_pointer_as(0)
        }

        /// Whether `colors` is there, and is not null.
        pub fn has_colors(&self) -> bool
            ensures { let fields = struct_of S.segments self.now.fields in
                IsTrue result ↔ (Denotes (pointer_in fields 0) nothing → ⊥) }
        {
            self.fields.has_pointer(0)
        }

        /// The field `names`.
        pub fn get_names(&self) -> OrDefault<upgraded::ListList<'a, S, text::Reader<'a>>, upgraded::ListList<'static, Words<24>, text::Reader<'static>>>
            ensures { let fields = struct_of S.segments self.now.fields in
                let pointer = pointer_in fields 1 in
                elim result [
                  | OrDefault.Stored view ↦ (Denotes pointer nothing → ⊥) ×
                      (IsPointersView S.segments pointer view)
                  | OrDefault.Default view ↦ Denotes pointer nothing ×
                      (let pointer = root_of NAMES_DEFAULT in
                      IsPointersView segments_of pointer view)
                ] }
        {
            let pointer = self.fields.get_pointer(1);
            if pointer.is_null() {
                OrDefault::Default(get_names_default())
            } else {
                OrDefault::Stored(FromPointerReader::get_from_pointer(pointer))
            }
        }

        /// Whether `names` is there, and is not null.
        pub fn has_names(&self) -> bool
            ensures { let fields = struct_of S.segments self.now.fields in
                IsTrue result ↔ (Denotes (pointer_in fields 1) nothing → ⊥) }
        {
            self.fields.has_pointer(1)
        }
    }

    impl<'a, S: ReaderSegments> upgraded::FromStruct<StructReader<'a, S>> for Reader<'a, S> {
        ghost shown = { λ view. struct_of S.segments view.fields };

        #[inline(always)]
        fn from_struct(fields: StructReader<'a, S>) -> Reader<'a, S> {
            Reader { fields }
        }
    }

    /// A list of such structs, or of their first fields where an older writer had these.
    pub type ListReader<'a, S> = upgraded::Structs<'a, S, Reader<'a, S>>;

    /// A list of such structs, as a type of the schema.
    pub type OwnedList = upgraded::OwnedStructs<Owned>;

    /// A struct of this type before it is written. What is not set has its default.
    #[derive(Clone, Copy)]
    pub struct Builder {
        /// Its data words, and what its pointers point to.
        pub draft: StructDraft<Owned, 0, 2>,
    }

    impl Builder {
        /// A builder in which nothing is set: each field has its default.
        pub fn new() -> Builder
            ensures words { result.draft.words ≡ replicate 0 0 }
            ensures pointers { result.draft.pointers ≡ replicate 2 0 }
        {
            Builder {
                draft: StructDraft::new(),
            }
        }

        /// A builder with what a reader shows, to be changed and written again. What its
        /// pointers point to is copied, as orphans; null stays null. What another version of
        /// the type left out is zero or null, and what it had in addition is left out.
        ///
        /// A copy that a setter replaces stays in the bytes, but not in canonical words.
        ///
        /// Fails as `Orphanage::set` does, for the first pointer that can't be copied.
        pub fn from_reader<R: ReaderSegments, S: GrowingSegment>(
            read: &Reader<'_, R>,
            objects: &mut Orphanage<S>,
        ) -> Result<Builder>
            ensures words { IfOk result (λ made. made.draft.words
                ≡ data_up_to (struct_of R.segments read.now.fields) 0) }
            ensures copies { CopiesPointers (struct_of R.segments read.now.fields) 2
                objects.old objects.new (λ made. made.draft.pointers) result }
        {
            match StructDraft::from_reader(&read.fields, objects) {
                Ok(draft) => Ok(Builder { draft }),
                Err(error) => Err(error),
            }
        }

        /// A builder with the numbers, bools and enums that a reader shows, as `from_reader`
        /// has them. Its pointers are null.
        pub fn from_data_section<R: ReaderSegments>(read: &Reader<'_, R>) -> Builder
            ensures words { result.draft.words
                ≡ data_up_to (struct_of R.segments read.now.fields) 0 }
            ensures pointers { result.draft.pointers ≡ replicate 2 0 }
        {
            Builder {
                draft: StructDraft::from_data_section(&read.fields),
            }
        }

        /// Writes it, as an object that a pointer can point to.
        pub fn add<S: GrowingSegment>(&self, objects: &mut Orphanage<S>) -> Result<Orphan<Owned>>
            ensures adds { AddsOrphan (HoldsStruct (body_of objects.old) self.now.draft.words
                self.now.draft.pointers) objects.old objects.new word_of result }
            ensures writes { Writes (StructWords 0 2) (StructSizeError 0 2)
                objects.old objects.new result }
        {
            objects.add(&self.draft)
        }

        /// Writes it as the root of the message.
        pub fn add_root<S: GrowingSegment>(&self, objects: &mut Orphanage<S>) -> Result<()>
            ensures adds { AddsRoot (StructWords 0 2) (HoldsStruct (body_of objects.old)
                self.now.draft.words self.now.draft.pointers) objects.old objects.new result }
            ensures fails { FailsToAdd (StructWords 0 2) (StructSizeError 0 2)
                objects.old result }
        {
            objects.add_root(&self.draft)
        }

        /// Writes a list of such structs.
        pub fn add_list<S: GrowingSegment>(
            elements: &[Builder],
            objects: &mut Orphanage<S>,
        ) -> Result<Orphan<OwnedList>>
            ensures adds { let drafts = map (λ element. element.draft) elements.now in
                AddsOrphan (HoldsStructs (body_of objects.old) drafts)
                objects.old objects.new word_of result }
            ensures writes { let count = length elements.now in
                Writes (TakesStructsWords 0 2 count) (ManyStructs 0 2 count)
                objects.old objects.new result }
        {
            objects.draft_list(elements)
        }
    }

    impl Draft<Owned, 0, 2> for Builder {
        ghost draft = { λ builder. builder.draft };

        fn draft(&self) -> StructDraft<Owned, 0, 2> {
            self.draft
        }
    }

    impl Builder {
        /// Sets the field `colors`.
        ///
        /// An object that it pointed to before stays in the bytes of the message.
        pub fn set_colors(&mut self, value: Orphan<capnp::primitive_list::Owned<u16>>)
            ensures words { self.new.draft.words ≡ self.old.draft.words }
            ensures pointers { self.new.draft.pointers
                ≡ slice_set self.old.draft.pointers 0 value.word }
        {
            self.draft.adopt(0, value);
        }

        /// Whether `colors` is set, and not to null.
        pub fn has_colors(&self) -> bool
            ensures { IsTrue result ↔ (slice_index_or self.now.draft.pointers 0 0 ≢ 0) }
        {
            self.draft.has_pointer(0)
        }

        /// Sets the field `names`.
        ///
        /// An object that it pointed to before stays in the bytes of the message.
        pub fn set_names(&mut self, value: Orphan<capnp::list_list::Owned<text::Owned>>)
            ensures words { self.new.draft.words ≡ self.old.draft.words }
            ensures pointers { self.new.draft.pointers
                ≡ slice_set self.old.draft.pointers 1 value.word }
        {
            self.draft.adopt(1, value);
        }

        /// Whether `names` is set, and not to null.
        pub fn has_names(&self) -> bool
            ensures { IsTrue result ↔ (slice_index_or self.now.draft.pointers 1 0 ≢ 0) }
        {
            self.draft.has_pointer(1)
        }
    }

    /// Which pointer of the struct points to `colors`, for `fields.get_pointer`.
    pub const COLORS_POINTER: u16 = 0;

    /// Which pointer of the struct points to `names`, for `fields.get_pointer`.
    pub const NAMES_POINTER: u16 = 1;

    pub static NAMES_DEFAULT: Words<24> = Words { bytes: [
        1, 0, 0, 0, 14, 0, 0, 0,
        1, 0, 0, 0, 42, 0, 0, 0,
        110, 111, 110, 101, 0, 0, 0, 0,
    ] };

    /// The words of `NAMES_DEFAULT` are the layout of the schema's value.
    pub fn names_default_is_laid_out()
        ensures { words_of NAMES_DEFAULT.bytes ≡ layout
            (TreeOf PointersForm (TreeOf (NumbersForm 2 (110 ∷ 111 ∷ 110 ∷ 101 ∷ 0 ∷ []))
            NoTrees NoTrees) NoTrees) }
    {}

    /// The default of the field `names`.
    pub fn get_names_default() -> Result<upgraded::ListList<'static, Words<24>, text::Reader<'static>>>
        ensures { let pointer = root_of NAMES_DEFAULT in
            IsPointersView segments_of pointer result }
    {
        capnp::constant::view_of(&NAMES_DEFAULT)
    }
}
