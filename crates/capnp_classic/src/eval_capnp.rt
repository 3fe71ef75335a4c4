//! Types of `eval.capnp`, made by `capnpc-rattle`: change that file, and make them again.
//!
//! In a crate of their own they are proved once. A program is proved soonest where a loop over
//! messages or a list has one line, a call: `add_message(&message?, &mut totals)?` (docs/GUIDE.md).
ghost use Rattle.std.specs.Prelude.{◌≡◌, ◌≤◌, ◌↔◌, ◌≢◌, IfOk, IsTrue, length, map, replicate, slice_index_or, slice_set};
ghost use Rattle.std.specs.Int.{w32, cast_signed, cast_unsigned};
ghost use Rattle.capnp.specs.Made.{AddsOrphan, AddsRoot, FailsToAdd, Writes, data_up_to, CopiesPointers, word_of, HoldsStruct, HoldsStructs, StructWords, TakesStructsWords, StructSizeError, ManyStructs, body_of, with_field, field, IsStructView, nothing, struct_of, Denotes, pointer_in};

#[rattlefmt::skip]
#[derive(Clone, Copy, PartialEq, Eq, Hash, Debug)]
pub enum Operation {
    Add,
    Subtract,
    Multiply,
    Divide,
    Modulus,
    /// A number that the schema doesn't name.
    NotInSchema(u16),
}

#[rattlefmt::skip]
impl Operation {
    /// The enumerant of this number.
    pub fn from_number(number: u16) -> Operation
        ensures { elim result [
          | Operation.Add ↦ number ≡ 0
          | Operation.Subtract ↦ number ≡ 1
          | Operation.Multiply ↦ number ≡ 2
          | Operation.Divide ↦ number ≡ 3
          | Operation.Modulus ↦ number ≡ 4
          | Operation.NotInSchema unknown ↦ (unknown ≡ number) × (5 ≤ number)
        ] }
    {
        match number {
            0 => Operation::Add,
            1 => Operation::Subtract,
            2 => Operation::Multiply,
            3 => Operation::Divide,
            4 => Operation::Modulus,
            unknown => Operation::NotInSchema(unknown),
        }
    }
}

#[rattlefmt::skip]
impl capnp::upgraded::EnumElement for Operation {
    ghost named = { 5 };

    fn from_number(number: u16) -> Operation {
        Operation::from_number(number)
    }
}

#[rattlefmt::skip]
impl Operation {
    /// Its number.
    pub fn to_number(self) -> u16
        ensures { elim self [
          | Operation.Add ↦ result ≡ 0
          | Operation.Subtract ↦ result ≡ 1
          | Operation.Multiply ↦ result ≡ 2
          | Operation.Divide ↦ result ≡ 3
          | Operation.Modulus ↦ result ≡ 4
          | Operation.NotInSchema unknown ↦ result ≡ unknown
        ] }
    {
        match self {
            Operation::Add => 0,
            Operation::Subtract => 1,
            Operation::Multiply => 2,
            Operation::Divide => 3,
            Operation::Modulus => 4,
            Operation::NotInSchema(unknown) => unknown,
        }
    }
}

#[rattlefmt::skip]
pub mod expression {
    use super::Operation;
    use capnp::any_struct::StructReader;
    use capnp::message::ReaderSegments;
    use capnp::orphans::{Draft, GrowingSegment, Orphan, Orphanage, StructDraft};
    use capnp::{Result, traits, upgraded};

    /// The type of the schema.
    pub struct Owned;

    impl<'a, S: ReaderSegments + 'a> traits::Owned<'a, S> for Owned {
        type Reader = Reader<'a, S>;
    }

    /// A struct of this type in a message. What its writer left out reads as the default.
    #[derive(Drop)]
    pub struct Reader<'a, S: ReaderSegments> {
        /// The struct whose fields these are.
        pub fields: StructReader<'a, S>,
    }

    impl<'a, S: ReaderSegments> Reader<'a, S> {
        /// The field `op`.
        pub fn get_op(&self) -> Operation
            ensures { let fields = struct_of S.segments self.now.fields in
                let number = field fields.words 16 0 in
                elim result [
                  | Operation.Add ↦ number ≡ 0
                  | Operation.Subtract ↦ number ≡ 1
                  | Operation.Multiply ↦ number ≡ 2
                  | Operation.Divide ↦ number ≡ 3
                  | Operation.Modulus ↦ number ≡ 4
                  | Operation.NotInSchema unknown ↦ (unknown ≡ number) × (5 ≤ number)
                ] }
        {
            Operation::from_number(self.fields.get_data_field(0))
        }

        /// The field `left`.
        #[inline(always)]
        pub fn get_left(&self) -> left::Reader<'_, 'a, S>
            ensures { let fields = struct_of S.segments self.now.fields in
                struct_of S.segments result.fields.now ≡ fields }
        {
            left::Reader {
                fields: &self.fields,
            }
        }

        /// The field `right`.
        #[inline(always)]
        pub fn get_right(&self) -> right::Reader<'_, 'a, S>
            ensures { let fields = struct_of S.segments self.now.fields in
                struct_of S.segments result.fields.now ≡ fields }
        {
            right::Reader {
                fields: &self.fields,
            }
        }
    }

    impl<'a, S: ReaderSegments> upgraded::FromStruct<StructReader<'a, S>> for Reader<'a, S> {
        ghost shown = { λ view. struct_of S.segments view.fields };

        #[inline(always)]
        fn from_struct(fields: StructReader<'a, S>) -> Reader<'a, S> {
            Reader { fields }
        }
    }

    /// A list of such structs, or of their first fields where an older writer had these.
    pub type ListReader<'a, S> = upgraded::Structs<'a, S, Reader<'a, S>>;

    /// A list of such structs, as a type of the schema.
    pub type OwnedList = upgraded::OwnedStructs<Owned>;

    /// A struct of this type before it is written. What is not set has its default.
    #[derive(Clone, Copy)]
    pub struct Builder {
        /// Its data words, and what its pointers point to.
        pub draft: StructDraft<Owned, 2, 2>,
    }

    impl Builder {
        /// A builder in which nothing is set: each field has its default.
        pub fn new() -> Builder
            ensures words { result.draft.words ≡ replicate 2 0 }
            ensures pointers { result.draft.pointers ≡ replicate 2 0 }
        {
            Builder {
                draft: StructDraft::new(),
            }
        }

        /// A builder with what a reader shows, to be changed and written again. What its
        /// pointers point to is copied, as orphans; null stays null. What another version of
        /// the type left out is zero or null, and what it had in addition is left out.
        ///
        /// A copy that a setter replaces stays in the bytes, but not in canonical words.
        ///
        /// Fails as `Orphanage::set` does, for the first pointer that can't be copied.
        pub fn from_reader<R: ReaderSegments, S: GrowingSegment>(
            read: &Reader<'_, R>,
            objects: &mut Orphanage<S>,
        ) -> Result<Builder>
            ensures words { IfOk result (λ made. made.draft.words
                ≡ data_up_to (struct_of R.segments read.now.fields) 2) }
            ensures copies { CopiesPointers (struct_of R.segments read.now.fields) 2
                objects.old objects.new (λ made. made.draft.pointers) result }
        {
            match StructDraft::from_reader(&read.fields, objects) {
                Ok(draft) => Ok(Builder { draft }),
                Err(error) => Err(error),
            }
        }

        /// A builder with the numbers, bools and enums that a reader shows, as `from_reader`
        /// has them. Its pointers are null.
        pub fn from_data_section<R: ReaderSegments>(read: &Reader<'_, R>) -> Builder
            ensures words { result.draft.words
                ≡ data_up_to (struct_of R.segments read.now.fields) 2 }
            ensures pointers { result.draft.pointers ≡ replicate 2 0 }
        {
            Builder {
                draft: StructDraft::from_data_section(&read.fields),
            }
        }

        /// Writes it, as an object that a pointer can point to.
        pub fn add<S: GrowingSegment>(&self, objects: &mut Orphanage<S>) -> Result<Orphan<Owned>>
            ensures adds { AddsOrphan (HoldsStruct (body_of objects.old) self.now.draft.words
                self.now.draft.pointers) objects.old objects.new word_of result }
            ensures writes { Writes (StructWords 2 2) (StructSizeError 2 2)
                objects.old objects.new result }
        {
            objects.add(&self.draft)
        }

        /// Writes it as the root of the message.
        pub fn add_root<S: GrowingSegment>(&self, objects: &mut Orphanage<S>) -> Result<()>
            ensures adds { AddsRoot (StructWords 2 2) (HoldsStruct (body_of objects.old)
                self.now.draft.words self.now.draft.pointers) objects.old objects.new result }
            ensures fails { FailsToAdd (StructWords 2 2) (StructSizeError 2 2)
                objects.old result }
        {
            objects.add_root(&self.draft)
        }

        /// Writes a list of such structs.
        pub fn add_list<S: GrowingSegment>(
            elements: &[Builder],
            objects: &mut Orphanage<S>,
        ) -> Result<Orphan<OwnedList>>
            ensures adds { let drafts = map (λ element. element.draft) elements.now in
                AddsOrphan (HoldsStructs (body_of objects.old) drafts)
                objects.old objects.new word_of result }
            ensures writes { let count = length elements.now in
                Writes (TakesStructsWords 2 2 count) (ManyStructs 2 2 count)
                objects.old objects.new result }
        {
            objects.draft_list(elements)
        }
    }

    impl Draft<Owned, 2, 2> for Builder {
        ghost draft = { λ builder. builder.draft };

        fn draft(&self) -> StructDraft<Owned, 2, 2> {
            self.draft
        }
    }

    impl Builder {
        /// Sets the field `op`.
        pub fn set_op(&mut self, value: Operation)
            ensures words { let old = self.old.draft.words in
                let new = self.new.draft.words in elim value [
                  | Operation.Add ↦ new ≡ with_field old 16 0 0
                  | Operation.Subtract ↦ new ≡ with_field old 16 0 1
                  | Operation.Multiply ↦ new ≡ with_field old 16 0 2
                  | Operation.Divide ↦ new ≡ with_field old 16 0 3
                  | Operation.Modulus ↦ new ≡ with_field old 16 0 4
                  | Operation.NotInSchema unknown ↦ new ≡ with_field old 16 0 unknown
                ] }
            ensures pointers { self.new.draft.pointers ≡ self.old.draft.pointers }
        {
            self.draft.set_data_field(0, value.to_number());
        }

        /// The field `op`, as it is set.
        pub fn get_op(&self) -> Operation
            ensures { let fields = self.now.draft in
                let number = field fields.words 16 0 in
                elim result [
                  | Operation.Add ↦ number ≡ 0
                  | Operation.Subtract ↦ number ≡ 1
                  | Operation.Multiply ↦ number ≡ 2
                  | Operation.Divide ↦ number ≡ 3
                  | Operation.Modulus ↦ number ≡ 4
                  | Operation.NotInSchema unknown ↦ (unknown ≡ number) × (5 ≤ number)
                ] }
        {
            Operation::from_number(self.draft.get_data_field(0))
        }
    }

    pub mod left {
        use capnp::any_struct::StructReader;
        use capnp::message::ReaderSegments;
        use capnp::orphans::Orphan;
        use capnp::Result;

        /// The group, in a struct in a message.
        #[derive(Drop)]
        pub struct Reader<'b, 'a, S: ReaderSegments> {
            /// The struct whose fields these are.
            pub fields: &'b StructReader<'a, S>,
        }

        impl<'b, 'a, S: ReaderSegments> Reader<'b, 'a, S> {
            /// The field `value`.
            pub fn get_value(&self) -> i32
                ensures { let fields = struct_of S.segments self.now.fields.now in
                    result ≡ cast_signed w32 (field fields.words 32 1) }
            {
                self.fields.get_data_field(1)
            }

            /// The field `expression`.
            pub fn get_expression(&self) -> Result<super::super::expression::Reader<'a, S>>
                ensures { let fields = struct_of S.segments self.now.fields.now in
                    IsStructView (pointer_in fields 0)
                    (λ view. struct_of S.segments view.fields) result }
            {
                self.fields.get_pointer_as(0)
            }

            /// Whether `expression` is there, and is not null.
            pub fn has_expression(&self) -> bool
                ensures { let fields = struct_of S.segments self.now.fields.now in
                    IsTrue result ↔ (Denotes (pointer_in fields 0) nothing → ⊥) }
            {
                self.fields.has_pointer(0)
            }

            /// Which member of the union is there, and its value.
            #[inline(always)]
            pub fn which(&self) -> Which<'a, S>
                ensures { let fields = struct_of S.segments self.now.fields.now in
                    let number = field fields.words 16 1 in
                    elim result [
                      | Which.Value value ↦ (number ≡ 0) ×
                          (value ≡ cast_signed w32 (field fields.words 32 1))
                      | Which.Expression value ↦ (number ≡ 1) ×
                          (IsStructView (pointer_in fields 0)
                          (λ view. struct_of S.segments view.fields) value)
                      | Which.NotInSchema unknown ↦ (unknown ≡ number) × (2 ≤ number)
                    ] }
            {
                match self.fields.get_data_field::<u16>(1) {
                    0 => Which::Value(self.get_value()),
                    1 => Which::Expression(self.get_expression()),
                    unknown => Which::NotInSchema(unknown),
                }
            }
        }

        /// The members of the union.
        #[derive(Drop)]
        pub enum Which<'a, S: ReaderSegments> {
            Value(i32),
            Expression(Result<super::super::expression::Reader<'a, S>>),
            /// A number that the schema doesn't name.
            NotInSchema(u16),
        }

        impl super::Builder {
            /// Sets the field `value`.
            pub fn set_left_value(&mut self, value: i32)
                ensures words { self.new.draft.words
                    ≡ with_field (with_field self.old.draft.words 16 1 0)
                    32 1 (cast_unsigned w32 value) }
                ensures pointers { self.new.draft.pointers ≡ self.old.draft.pointers }
            {
                self.draft.set_data_field::<u16>(1, 0);
                self.draft.set_data_field(1, value);
            }

            /// The field `value`, as it is set.
            pub fn get_left_value(&self) -> i32
                ensures { let fields = self.now.draft in
                    result ≡ cast_signed w32 (field fields.words 32 1) }
            {
                self.draft.get_data_field(1)
            }

            /// Sets the field `expression`.
            ///
            /// An object that it pointed to before stays in the bytes of the message.
            pub fn set_left_expression(&mut self, value: Orphan<super::super::expression::Owned>)
                ensures words { self.new.draft.words
                    ≡ (with_field self.old.draft.words 16 1 1) }
                ensures pointers { self.new.draft.pointers
                    ≡ slice_set self.old.draft.pointers 0 value.word }
            {
                self.draft.set_data_field::<u16>(1, 1);
                self.draft.adopt(0, value);
            }

            /// Whether `expression` is set, and not to null.
            pub fn has_left_expression(&self) -> bool
                ensures { IsTrue result ↔ (slice_index_or self.now.draft.pointers 0 0 ≢ 0) }
            {
                self.draft.has_pointer(0)
            }
        }

        /// Which pointer of the struct points to `expression`, for `fields.get_pointer`.
        pub const EXPRESSION_POINTER: u16 = 0;
    }

    pub mod right {
        use capnp::any_struct::StructReader;
        use capnp::message::ReaderSegments;
        use capnp::orphans::Orphan;
        use capnp::Result;

        /// The group, in a struct in a message.
        #[derive(Drop)]
        pub struct Reader<'b, 'a, S: ReaderSegments> {
            /// The struct whose fields these are.
            pub fields: &'b StructReader<'a, S>,
        }

        impl<'b, 'a, S: ReaderSegments> Reader<'b, 'a, S> {
            /// The field `value`.
            pub fn get_value(&self) -> i32
                ensures { let fields = struct_of S.segments self.now.fields.now in
                    result ≡ cast_signed w32 (field fields.words 32 2) }
            {
                self.fields.get_data_field(2)
            }

            /// The field `expression`.
            pub fn get_expression(&self) -> Result<super::super::expression::Reader<'a, S>>
                ensures { let fields = struct_of S.segments self.now.fields.now in
                    IsStructView (pointer_in fields 1)
                    (λ view. struct_of S.segments view.fields) result }
            {
                self.fields.get_pointer_as(1)
            }

            /// Whether `expression` is there, and is not null.
            pub fn has_expression(&self) -> bool
                ensures { let fields = struct_of S.segments self.now.fields.now in
                    IsTrue result ↔ (Denotes (pointer_in fields 1) nothing → ⊥) }
            {
                self.fields.has_pointer(1)
            }

            /// Which member of the union is there, and its value.
            #[inline(always)]
            pub fn which(&self) -> Which<'a, S>
                ensures { let fields = struct_of S.segments self.now.fields.now in
                    let number = field fields.words 16 6 in
                    elim result [
                      | Which.Value value ↦ (number ≡ 0) ×
                          (value ≡ cast_signed w32 (field fields.words 32 2))
                      | Which.Expression value ↦ (number ≡ 1) ×
                          (IsStructView (pointer_in fields 1)
                          (λ view. struct_of S.segments view.fields) value)
                      | Which.NotInSchema unknown ↦ (unknown ≡ number) × (2 ≤ number)
                    ] }
            {
                match self.fields.get_data_field::<u16>(6) {
                    0 => Which::Value(self.get_value()),
                    1 => Which::Expression(self.get_expression()),
                    unknown => Which::NotInSchema(unknown),
                }
            }
        }

        /// The members of the union.
        #[derive(Drop)]
        pub enum Which<'a, S: ReaderSegments> {
            Value(i32),
            Expression(Result<super::super::expression::Reader<'a, S>>),
            /// A number that the schema doesn't name.
            NotInSchema(u16),
        }

        impl super::Builder {
            /// Sets the field `value`.
            pub fn set_right_value(&mut self, value: i32)
                ensures words { self.new.draft.words
                    ≡ with_field (with_field self.old.draft.words 16 6 0)
                    32 2 (cast_unsigned w32 value) }
                ensures pointers { self.new.draft.pointers ≡ self.old.draft.pointers }
            {
                self.draft.set_data_field::<u16>(6, 0);
                self.draft.set_data_field(2, value);
            }

            /// The field `value`, as it is set.
            pub fn get_right_value(&self) -> i32
                ensures { let fields = self.now.draft in
                    result ≡ cast_signed w32 (field fields.words 32 2) }
            {
                self.draft.get_data_field(2)
            }

            /// Sets the field `expression`.
            ///
            /// An object that it pointed to before stays in the bytes of the message.
            pub fn set_right_expression(&mut self, value: Orphan<super::super::expression::Owned>)
                ensures words { self.new.draft.words
                    ≡ (with_field self.old.draft.words 16 6 1) }
                ensures pointers { self.new.draft.pointers
                    ≡ slice_set self.old.draft.pointers 1 value.word }
            {
                self.draft.set_data_field::<u16>(6, 1);
                self.draft.adopt(1, value);
            }

            /// Whether `expression` is set, and not to null.
            pub fn has_right_expression(&self) -> bool
                ensures { IsTrue result ↔ (slice_index_or self.now.draft.pointers 1 0 ≢ 0) }
            {
                self.draft.has_pointer(1)
            }
        }

        /// Which pointer of the struct points to `expression`, for `fields.get_pointer`.
        pub const EXPRESSION_POINTER: u16 = 1;
    }
}

#[rattlefmt::skip]
pub mod evaluation_result {
    use capnp::any_struct::StructReader;
    use capnp::message::ReaderSegments;
    use capnp::orphans::{Draft, GrowingSegment, Orphan, Orphanage, StructDraft};
    use capnp::{Result, traits, upgraded};

    /// The type of the schema.
    pub struct Owned;

    impl<'a, S: ReaderSegments + 'a> traits::Owned<'a, S> for Owned {
        type Reader = Reader<'a, S>;
    }

    /// A struct of this type in a message. What its writer left out reads as the default.
    #[derive(Drop)]
    pub struct Reader<'a, S: ReaderSegments> {
        /// The struct whose fields these are.
        pub fields: StructReader<'a, S>,
    }

    impl<'a, S: ReaderSegments> Reader<'a, S> {
        /// The field `value`.
        pub fn get_value(&self) -> i32
            ensures { let fields = struct_of S.segments self.now.fields in
                result ≡ cast_signed w32 (field fields.words 32 0) }
        {
            self.fields.get_data_field(0)
        }
    }

    impl<'a, S: ReaderSegments> upgraded::FromStruct<StructReader<'a, S>> for Reader<'a, S> {
        ghost shown = { λ view. struct_of S.segments view.fields };

        #[inline(always)]
        fn from_struct(fields: StructReader<'a, S>) -> Reader<'a, S> {
            Reader { fields }
        }
    }

    /// A list of such structs, or of their first fields where an older writer had these.
    pub type ListReader<'a, S> = upgraded::Structs<'a, S, Reader<'a, S>>;

    /// A list of such structs, as a type of the schema.
    pub type OwnedList = upgraded::OwnedStructs<Owned>;

    /// A struct of this type before it is written. What is not set has its default.
    #[derive(Clone, Copy)]
    pub struct Builder {
        /// Its data words, and what its pointers point to.
        pub draft: StructDraft<Owned, 1, 0>,
    }

    impl Builder {
        /// A builder in which nothing is set: each field has its default.
        pub fn new() -> Builder
            ensures words { result.draft.words ≡ replicate 1 0 }
            ensures pointers { result.draft.pointers ≡ replicate 0 0 }
        {
            Builder {
                draft: StructDraft::new(),
            }
        }

        /// A builder with what a reader shows, to be changed and written again. What its
        /// pointers point to is copied, as orphans; null stays null. What another version of
        /// the type left out is zero or null, and what it had in addition is left out.
        ///
        /// A copy that a setter replaces stays in the bytes, but not in canonical words.
        ///
        /// Fails as `Orphanage::set` does, for the first pointer that can't be copied.
        pub fn from_reader<R: ReaderSegments, S: GrowingSegment>(
            read: &Reader<'_, R>,
            objects: &mut Orphanage<S>,
        ) -> Result<Builder>
            ensures words { IfOk result (λ made. made.draft.words
                ≡ data_up_to (struct_of R.segments read.now.fields) 1) }
            ensures copies { CopiesPointers (struct_of R.segments read.now.fields) 0
                objects.old objects.new (λ made. made.draft.pointers) result }
        {
            match StructDraft::from_reader(&read.fields, objects) {
                Ok(draft) => Ok(Builder { draft }),
                Err(error) => Err(error),
            }
        }

        /// A builder with the numbers, bools and enums that a reader shows, as `from_reader`
        /// has them. Its pointers are null.
        pub fn from_data_section<R: ReaderSegments>(read: &Reader<'_, R>) -> Builder
            ensures words { result.draft.words
                ≡ data_up_to (struct_of R.segments read.now.fields) 1 }
            ensures pointers { result.draft.pointers ≡ replicate 0 0 }
        {
            Builder {
                draft: StructDraft::from_data_section(&read.fields),
            }
        }

        /// Writes it, as an object that a pointer can point to.
        pub fn add<S: GrowingSegment>(&self, objects: &mut Orphanage<S>) -> Result<Orphan<Owned>>
            ensures adds { AddsOrphan (HoldsStruct (body_of objects.old) self.now.draft.words
                self.now.draft.pointers) objects.old objects.new word_of result }
            ensures writes { Writes (StructWords 1 0) (StructSizeError 1 0)
                objects.old objects.new result }
        {
            objects.add(&self.draft)
        }

        /// Writes it as the root of the message.
        pub fn add_root<S: GrowingSegment>(&self, objects: &mut Orphanage<S>) -> Result<()>
            ensures adds { AddsRoot (StructWords 1 0) (HoldsStruct (body_of objects.old)
                self.now.draft.words self.now.draft.pointers) objects.old objects.new result }
            ensures fails { FailsToAdd (StructWords 1 0) (StructSizeError 1 0)
                objects.old result }
        {
            objects.add_root(&self.draft)
        }

        /// Writes a list of such structs.
        pub fn add_list<S: GrowingSegment>(
            elements: &[Builder],
            objects: &mut Orphanage<S>,
        ) -> Result<Orphan<OwnedList>>
            ensures adds { let drafts = map (λ element. element.draft) elements.now in
                AddsOrphan (HoldsStructs (body_of objects.old) drafts)
                objects.old objects.new word_of result }
            ensures writes { let count = length elements.now in
                Writes (TakesStructsWords 1 0 count) (ManyStructs 1 0 count)
                objects.old objects.new result }
        {
            objects.draft_list(elements)
        }
    }

    impl Draft<Owned, 1, 0> for Builder {
        ghost draft = { λ builder. builder.draft };

        fn draft(&self) -> StructDraft<Owned, 1, 0> {
            self.draft
        }
    }

    impl Builder {
        /// Sets the field `value`.
        pub fn set_value(&mut self, value: i32)
            ensures words { self.new.draft.words
                ≡ with_field self.old.draft.words
                32 0 (cast_unsigned w32 value) }
            ensures pointers { self.new.draft.pointers ≡ self.old.draft.pointers }
        {
            self.draft.set_data_field(0, value);
        }

        /// The field `value`, as it is set.
        pub fn get_value(&self) -> i32
            ensures { let fields = self.now.draft in
                result ≡ cast_signed w32 (field fields.words 32 0) }
        {
            self.draft.get_data_field(0)
        }
    }
}
