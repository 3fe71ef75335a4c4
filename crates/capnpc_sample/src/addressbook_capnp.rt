//! Types of `addressbook.capnp`, made by `capnpc-rattle`: change that file, and make them again.
//!
//! In a crate of their own they are proved once. A program is proved soonest where a loop over
//! messages or a list has one line, a call: `add_message(&message?, &mut totals)?` (docs/GUIDE.md).
ghost use Rattle.std.specs.Prelude.{◌≡◌, ◌≤◌, ◌↔◌, ◌≢◌, IfOk, IsTrue, length, map, replicate, slice_index_or, slice_set};
ghost use Rattle.capnp.specs.Made.{AddsOrphan, AddsRoot, FailsToAdd, Writes, data_up_to, CopiesPointers, word_of, HoldsStruct, HoldsStructs, StructWords, TakesStructsWords, StructSizeError, ManyStructs, body_of, with_field, field, IsTextView, IsStructsView, nothing, struct_of, Denotes, pointer_in};

#[rattlefmt::skip]
pub mod person {
    use capnp::any_struct::StructReader;
    use capnp::message::ReaderSegments;
    use capnp::orphans::{Draft, GrowingSegment, Orphan, Orphanage, StructDraft};
    use capnp::{Result, text, traits, upgraded};

    /// The type of the schema.
    pub struct Owned;

    impl<'a, S: ReaderSegments + 'a> traits::Owned<'a, S> for Owned {
        type Reader = Reader<'a, S>;
    }

    /// A struct of this type in a message. What its writer left out reads as the default.
    #[derive(Drop)]
    pub struct Reader<'a, S: ReaderSegments> {
        /// The struct whose fields these are.
        pub fields: StructReader<'a, S>,
    }

    impl<'a, S: ReaderSegments> Reader<'a, S> {
        /// The field `id`.
        pub fn get_id(&self) -> u32
            ensures { let fields = struct_of S.segments self.now.fields in
                result ≡ field fields.words 32 0 }
        {
            self.fields.get_data_field(0)
        }

        /// The field `name`.
        pub fn get_name(&self) -> Result<text::Reader<'a>>
            ensures { let fields = struct_of S.segments self.now.fields in
                IsTextView (pointer_in fields 0) result }
        {
            self.fields.get_pointer_as(0)
        }

        /// Whether `name` is there, and is not null.
        pub fn has_name(&self) -> bool
            ensures { let fields = struct_of S.segments self.now.fields in
                IsTrue result ↔ (Denotes (pointer_in fields 0) nothing → ⊥) }
        {
            self.fields.has_pointer(0)
        }

        /// The field `email`.
        pub fn get_email(&self) -> Result<text::Reader<'a>>
            ensures { let fields = struct_of S.segments self.now.fields in
                IsTextView (pointer_in fields 1) result }
        {
            self.fields.get_pointer_as(1)
        }

        /// Whether `email` is there, and is not null.
        pub fn has_email(&self) -> bool
            ensures { let fields = struct_of S.segments self.now.fields in
                IsTrue result ↔ (Denotes (pointer_in fields 1) nothing → ⊥) }
        {
            self.fields.has_pointer(1)
        }

        /// The field `phones`.
        pub fn get_phones(&self) -> Result<phone_number::ListReader<'a, S>>
            ensures { let fields = struct_of S.segments self.now.fields in
                IsStructsView S.segments (pointer_in fields 2) result }
        {
            self.fields.get_pointer_as(2)
        }

        /// Whether `phones` is there, and is not null.
        pub fn has_phones(&self) -> bool
            ensures { let fields = struct_of S.segments self.now.fields in
                IsTrue result ↔ (Denotes (pointer_in fields 2) nothing → ⊥) }
        {
            self.fields.has_pointer(2)
        }

        /// The field `employment`.
        #[inline(always)]
        pub fn get_employment(&self) -> employment::Reader<'_, 'a, S>
            ensures { let fields = struct_of S.segments self.now.fields in
                struct_of S.segments result.fields.now ≡ fields }
        {
            employment::Reader {
                fields: &self.fields,
            }
        }
    }

    impl<'a, S: ReaderSegments> upgraded::FromStruct<StructReader<'a, S>> for Reader<'a, S> {
        ghost shown = { λ view. struct_of S.segments view.fields };

        #[inline(always)]
        fn from_struct(fields: StructReader<'a, S>) -> Reader<'a, S> {
            Reader { fields }
        }
    }

    /// A list of such structs, or of their first fields where an older writer had these.
    pub type ListReader<'a, S> = upgraded::Structs<'a, S, Reader<'a, S>>;

    /// A list of such structs, as a type of the schema.
    pub type OwnedList = upgraded::OwnedStructs<Owned>;

    /// A struct of this type before it is written. What is not set has its default.
    #[derive(Clone, Copy)]
    pub struct Builder {
        /// Its data words, and what its pointers point to.
        pub draft: StructDraft<Owned, 1, 4>,
    }

    impl Builder {
        /// A builder in which nothing is set: each field has its default.
        pub fn new() -> Builder
            ensures words { result.draft.words ≡ replicate 1 0 }
            ensures pointers { result.draft.pointers ≡ replicate 4 0 }
        {
            Builder {
                draft: StructDraft::new(),
            }
        }

        /// A builder with what a reader shows, to be changed and written again. What its
        /// pointers point to is copied, as orphans; null stays null. What another version of
        /// the type left out is zero or null, and what it had in addition is left out.
        ///
        /// A copy that a setter replaces stays in the bytes, but not in canonical words.
        ///
        /// Fails as `Orphanage::set` does, for the first pointer that can't be copied.
        pub fn from_reader<R: ReaderSegments, S: GrowingSegment>(
            read: &Reader<'_, R>,
            objects: &mut Orphanage<S>,
        ) -> Result<Builder>
            ensures words { IfOk result (λ made. made.draft.words
                ≡ data_up_to (struct_of R.segments read.now.fields) 1) }
            ensures copies { CopiesPointers (struct_of R.segments read.now.fields) 4
                objects.old objects.new (λ made. made.draft.pointers) result }
        {
            match StructDraft::from_reader(&read.fields, objects) {
                Ok(draft) => Ok(Builder { draft }),
                Err(error) => Err(error),
            }
        }

        /// A builder with the numbers, bools and enums that a reader shows, as `from_reader`
        /// has them. Its pointers are null.
        pub fn from_data_section<R: ReaderSegments>(read: &Reader<'_, R>) -> Builder
            ensures words { result.draft.words
                ≡ data_up_to (struct_of R.segments read.now.fields) 1 }
            ensures pointers { result.draft.pointers ≡ replicate 4 0 }
        {
            Builder {
                draft: StructDraft::from_data_section(&read.fields),
            }
        }

        /// Writes it, as an object that a pointer can point to.
        pub fn add<S: GrowingSegment>(&self, objects: &mut Orphanage<S>) -> Result<Orphan<Owned>>
            ensures adds { AddsOrphan (HoldsStruct (body_of objects.old) self.now.draft.words
                self.now.draft.pointers) objects.old objects.new word_of result }
            ensures writes { Writes (StructWords 1 4) (StructSizeError 1 4)
                objects.old objects.new result }
        {
            objects.add(&self.draft)
        }

        /// Writes it as the root of the message.
        pub fn add_root<S: GrowingSegment>(&self, objects: &mut Orphanage<S>) -> Result<()>
            ensures adds { AddsRoot (StructWords 1 4) (HoldsStruct (body_of objects.old)
                self.now.draft.words self.now.draft.pointers) objects.old objects.new result }
            ensures fails { FailsToAdd (StructWords 1 4) (StructSizeError 1 4)
                objects.old result }
        {
            objects.add_root(&self.draft)
        }

        /// Writes a list of such structs.
        pub fn add_list<S: GrowingSegment>(
            elements: &[Builder],
            objects: &mut Orphanage<S>,
        ) -> Result<Orphan<OwnedList>>
            ensures adds { let drafts = map (λ element. element.draft) elements.now in
                AddsOrphan (HoldsStructs (body_of objects.old) drafts)
                objects.old objects.new word_of result }
            ensures writes { let count = length elements.now in
                Writes (TakesStructsWords 1 4 count) (ManyStructs 1 4 count)
                objects.old objects.new result }
        {
            objects.draft_list(elements)
        }
    }

    impl Draft<Owned, 1, 4> for Builder {
        ghost draft = { λ builder. builder.draft };

        fn draft(&self) -> StructDraft<Owned, 1, 4> {
            self.draft
        }
    }

    impl Builder {
        /// Sets the field `id`.
        pub fn set_id(&mut self, value: u32)
            ensures words { self.new.draft.words
                ≡ with_field self.old.draft.words 32 0 value }
            ensures pointers { self.new.draft.pointers ≡ self.old.draft.pointers }
        {
            self.draft.set_data_field(0, value);
        }

        /// The field `id`, as it is set.
        pub fn get_id(&self) -> u32
            ensures { let fields = self.now.draft in
                result ≡ field fields.words 32 0 }
        {
            self.draft.get_data_field(0)
        }

        /// Sets the field `name`.
        ///
        /// An object that it pointed to before stays in the bytes of the message.
        pub fn set_name(&mut self, value: Orphan<text::Owned>)
            ensures words { self.new.draft.words ≡ self.old.draft.words }
            ensures pointers { self.new.draft.pointers
                ≡ slice_set self.old.draft.pointers 0 value.word }
        {
            self.draft.adopt(0, value);
        }

        /// Whether `name` is set, and not to null.
        pub fn has_name(&self) -> bool
            ensures { IsTrue result ↔ (slice_index_or self.now.draft.pointers 0 0 ≢ 0) }
        {
            self.draft.has_pointer(0)
        }

        /// Sets the field `email`.
        ///
        /// An object that it pointed to before stays in the bytes of the message.
        pub fn set_email(&mut self, value: Orphan<text::Owned>)
            ensures words { self.new.draft.words ≡ self.old.draft.words }
            ensures pointers { self.new.draft.pointers
                ≡ slice_set self.old.draft.pointers 1 value.word }
        {
            self.draft.adopt(1, value);
        }

        /// Whether `email` is set, and not to null.
        pub fn has_email(&self) -> bool
            ensures { IsTrue result ↔ (slice_index_or self.now.draft.pointers 1 0 ≢ 0) }
        {
            self.draft.has_pointer(1)
        }

        /// Sets the field `phones`.
        ///
        /// An object that it pointed to before stays in the bytes of the message.
        pub fn set_phones(&mut self, value: Orphan<phone_number::OwnedList>)
            ensures words { self.new.draft.words ≡ self.old.draft.words }
            ensures pointers { self.new.draft.pointers
                ≡ slice_set self.old.draft.pointers 2 value.word }
        {
            self.draft.adopt(2, value);
        }

        /// Whether `phones` is set, and not to null.
        pub fn has_phones(&self) -> bool
            ensures { IsTrue result ↔ (slice_index_or self.now.draft.pointers 2 0 ≢ 0) }
        {
            self.draft.has_pointer(2)
        }
    }

    /// Which pointer of the struct points to `name`, for `fields.get_pointer`.
    pub const NAME_POINTER: u16 = 0;

    /// Which pointer of the struct points to `email`, for `fields.get_pointer`.
    pub const EMAIL_POINTER: u16 = 1;

    /// Which pointer of the struct points to `phones`, for `fields.get_pointer`.
    pub const PHONES_POINTER: u16 = 2;

    pub mod employment {
        use capnp::any_struct::StructReader;
        use capnp::message::ReaderSegments;
        use capnp::orphans::Orphan;
        use capnp::{Result, text};

        /// The group, in a struct in a message.
        #[derive(Drop)]
        pub struct Reader<'b, 'a, S: ReaderSegments> {
            /// The struct whose fields these are.
            pub fields: &'b StructReader<'a, S>,
        }

        impl<'b, 'a, S: ReaderSegments> Reader<'b, 'a, S> {
            /// The field `unemployed`.
            pub fn get_unemployed(&self) {}

            /// The field `employer`.
            pub fn get_employer(&self) -> Result<text::Reader<'a>>
                ensures { let fields = struct_of S.segments self.now.fields.now in
                    IsTextView (pointer_in fields 3) result }
            {
                self.fields.get_pointer_as(3)
            }

            /// Whether `employer` is there, and is not null.
            pub fn has_employer(&self) -> bool
                ensures { let fields = struct_of S.segments self.now.fields.now in
                    IsTrue result ↔ (Denotes (pointer_in fields 3) nothing → ⊥) }
            {
                self.fields.has_pointer(3)
            }

            /// The field `school`.
            pub fn get_school(&self) -> Result<text::Reader<'a>>
                ensures { let fields = struct_of S.segments self.now.fields.now in
                    IsTextView (pointer_in fields 3) result }
            {
                self.fields.get_pointer_as(3)
            }

            /// Whether `school` is there, and is not null.
            pub fn has_school(&self) -> bool
                ensures { let fields = struct_of S.segments self.now.fields.now in
                    IsTrue result ↔ (Denotes (pointer_in fields 3) nothing → ⊥) }
            {
                self.fields.has_pointer(3)
            }

            /// We assume that a person is only one of these.
            pub fn get_self_employed(&self) {}

            /// Which member of the union is there, and its value.
            #[inline(always)]
            pub fn which(&self) -> Which<'a>
                ensures { let fields = struct_of S.segments self.now.fields.now in
                    let number = field fields.words 16 2 in
                    elim result [
                      | Which.Unemployed ↦ number ≡ 0
                      | Which.Employer value ↦ (number ≡ 1) ×
                          (IsTextView (pointer_in fields 3) value)
                      | Which.School value ↦ (number ≡ 2) ×
                          (IsTextView (pointer_in fields 3) value)
                      | Which.SelfEmployed ↦ number ≡ 3
                      | Which.NotInSchema unknown ↦ (unknown ≡ number) × (4 ≤ number)
                    ] }
            {
                match self.fields.get_data_field::<u16>(2) {
                    0 => Which::Unemployed,
                    1 => Which::Employer(self.get_employer()),
                    2 => Which::School(self.get_school()),
                    3 => Which::SelfEmployed,
                    unknown => Which::NotInSchema(unknown),
                }
            }
        }

        /// The members of the union.
        #[derive(Drop)]
        pub enum Which<'a> {
            Unemployed,
            Employer(Result<text::Reader<'a>>),
            School(Result<text::Reader<'a>>),
            SelfEmployed,
            /// A number that the schema doesn't name.
            NotInSchema(u16),
        }

        impl super::Builder {
            /// Sets the field `unemployed`.
            pub fn set_employment_unemployed(&mut self)
                ensures words { self.new.draft.words
                    ≡ (with_field self.old.draft.words 16 2 0) }
                ensures pointers { self.new.draft.pointers ≡ self.old.draft.pointers }
            {
                self.draft.set_data_field::<u16>(2, 0);
            }

            /// Sets the field `employer`.
            ///
            /// An object that it pointed to before stays in the bytes of the message.
            pub fn set_employment_employer(&mut self, value: Orphan<text::Owned>)
                ensures words { self.new.draft.words
                    ≡ (with_field self.old.draft.words 16 2 1) }
                ensures pointers { self.new.draft.pointers
                    ≡ slice_set self.old.draft.pointers 3 value.word }
            {
                self.draft.set_data_field::<u16>(2, 1);
                self.draft.adopt(3, value);
            }

            /// Whether `employer` is set, and not to null.
            pub fn has_employment_employer(&self) -> bool
                ensures { IsTrue result ↔ (slice_index_or self.now.draft.pointers 3 0 ≢ 0) }
            {
                self.draft.has_pointer(3)
            }

            /// Sets the field `school`.
            ///
            /// An object that it pointed to before stays in the bytes of the message.
            pub fn set_employment_school(&mut self, value: Orphan<text::Owned>)
                ensures words { self.new.draft.words
                    ≡ (with_field self.old.draft.words 16 2 2) }
                ensures pointers { self.new.draft.pointers
                    ≡ slice_set self.old.draft.pointers 3 value.word }
            {
                self.draft.set_data_field::<u16>(2, 2);
                self.draft.adopt(3, value);
            }

            /// Whether `school` is set, and not to null.
            pub fn has_employment_school(&self) -> bool
                ensures { IsTrue result ↔ (slice_index_or self.now.draft.pointers 3 0 ≢ 0) }
            {
                self.draft.has_pointer(3)
            }

            /// Sets the field `selfEmployed`:
            /// We assume that a person is only one of these.
            pub fn set_employment_self_employed(&mut self)
                ensures words { self.new.draft.words
                    ≡ (with_field self.old.draft.words 16 2 3) }
                ensures pointers { self.new.draft.pointers ≡ self.old.draft.pointers }
            {
                self.draft.set_data_field::<u16>(2, 3);
            }
        }

        /// Which pointer of the struct points to `employer`, for `fields.get_pointer`.
        pub const EMPLOYER_POINTER: u16 = 3;

        /// Which pointer of the struct points to `school`, for `fields.get_pointer`.
        pub const SCHOOL_POINTER: u16 = 3;
    }

    pub mod phone_number {
        use capnp::any_struct::StructReader;
        use capnp::message::ReaderSegments;
        use capnp::orphans::{Draft, GrowingSegment, Orphan, Orphanage, StructDraft};
        use capnp::{Result, text, traits, upgraded};

        /// The type of the schema.
        pub struct Owned;

        impl<'a, S: ReaderSegments + 'a> traits::Owned<'a, S> for Owned {
            type Reader = Reader<'a, S>;
        }

        /// A struct of this type in a message. What its writer left out reads as the default.
        #[derive(Drop)]
        pub struct Reader<'a, S: ReaderSegments> {
            /// The struct whose fields these are.
            pub fields: StructReader<'a, S>,
        }

        impl<'a, S: ReaderSegments> Reader<'a, S> {
            /// The field `number`.
            pub fn get_number(&self) -> Result<text::Reader<'a>>
                ensures { let fields = struct_of S.segments self.now.fields in
                    IsTextView (pointer_in fields 0) result }
            {
                self.fields.get_pointer_as(0)
            }

            /// Whether `number` is there, and is not null.
            pub fn has_number(&self) -> bool
                ensures { let fields = struct_of S.segments self.now.fields in
                    IsTrue result ↔ (Denotes (pointer_in fields 0) nothing → ⊥) }
            {
                self.fields.has_pointer(0)
            }

            /// The field `type`.
            pub fn get_type(&self) -> Type
                ensures { let fields = struct_of S.segments self.now.fields in
                    let number = field fields.words 16 0 in
                    elim result [
                      | Type.Mobile ↦ number ≡ 0
                      | Type.Home ↦ number ≡ 1
                      | Type.Work ↦ number ≡ 2
                      | Type.NotInSchema unknown ↦ (unknown ≡ number) × (3 ≤ number)
                    ] }
            {
                Type::from_number(self.fields.get_data_field(0))
            }
        }

        impl<'a, S: ReaderSegments> upgraded::FromStruct<StructReader<'a, S>> for Reader<'a, S> {
            ghost shown = { λ view. struct_of S.segments view.fields };

            #[inline(always)]
            fn from_struct(fields: StructReader<'a, S>) -> Reader<'a, S> {
                Reader { fields }
            }
        }

        /// A list of such structs, or of their first fields where an older writer had these.
        pub type ListReader<'a, S> = upgraded::Structs<'a, S, Reader<'a, S>>;

        /// A list of such structs, as a type of the schema.
        pub type OwnedList = upgraded::OwnedStructs<Owned>;

        /// A struct of this type before it is written. What is not set has its default.
        #[derive(Clone, Copy)]
        pub struct Builder {
            /// Its data words, and what its pointers point to.
            pub draft: StructDraft<Owned, 1, 1>,
        }

        impl Builder {
            /// A builder in which nothing is set: each field has its default.
            pub fn new() -> Builder
                ensures words { result.draft.words ≡ replicate 1 0 }
                ensures pointers { result.draft.pointers ≡ replicate 1 0 }
            {
                Builder {
                    draft: StructDraft::new(),
                }
            }

            /// A builder with what a reader shows, to be changed and written again. What its
            /// pointers point to is copied, as orphans; null stays null. What another version of
            /// the type left out is zero or null, and what it had in addition is left out.
            ///
            /// A copy that a setter replaces stays in the bytes, but not in canonical words.
            ///
            /// Fails as `Orphanage::set` does, for the first pointer that can't be copied.
            pub fn from_reader<R: ReaderSegments, S: GrowingSegment>(
                read: &Reader<'_, R>,
                objects: &mut Orphanage<S>,
            ) -> Result<Builder>
                ensures words { IfOk result (λ made. made.draft.words
                    ≡ data_up_to (struct_of R.segments read.now.fields) 1) }
                ensures copies { CopiesPointers (struct_of R.segments read.now.fields) 1
                    objects.old objects.new (λ made. made.draft.pointers) result }
            {
                match StructDraft::from_reader(&read.fields, objects) {
                    Ok(draft) => Ok(Builder { draft }),
                    Err(error) => Err(error),
                }
            }

            /// A builder with the numbers, bools and enums that a reader shows, as `from_reader`
            /// has them. Its pointers are null.
            pub fn from_data_section<R: ReaderSegments>(read: &Reader<'_, R>) -> Builder
                ensures words { result.draft.words
                    ≡ data_up_to (struct_of R.segments read.now.fields) 1 }
                ensures pointers { result.draft.pointers ≡ replicate 1 0 }
            {
                Builder {
                    draft: StructDraft::from_data_section(&read.fields),
                }
            }

            /// Writes it, as an object that a pointer can point to.
            pub fn add<S: GrowingSegment>(&self, objects: &mut Orphanage<S>) -> Result<Orphan<Owned>>
                ensures adds { AddsOrphan (HoldsStruct (body_of objects.old) self.now.draft.words
                    self.now.draft.pointers) objects.old objects.new word_of result }
                ensures writes { Writes (StructWords 1 1) (StructSizeError 1 1)
                    objects.old objects.new result }
            {
                objects.add(&self.draft)
            }

            /// Writes it as the root of the message.
            pub fn add_root<S: GrowingSegment>(&self, objects: &mut Orphanage<S>) -> Result<()>
                ensures adds { AddsRoot (StructWords 1 1) (HoldsStruct (body_of objects.old)
                    self.now.draft.words self.now.draft.pointers) objects.old objects.new result }
                ensures fails { FailsToAdd (StructWords 1 1) (StructSizeError 1 1)
                    objects.old result }
            {
                objects.add_root(&self.draft)
            }

            /// Writes a list of such structs.
            pub fn add_list<S: GrowingSegment>(
                elements: &[Builder],
                objects: &mut Orphanage<S>,
            ) -> Result<Orphan<OwnedList>>
                ensures adds { let drafts = map (λ element. element.draft) elements.now in
                    AddsOrphan (HoldsStructs (body_of objects.old) drafts)
                    objects.old objects.new word_of result }
                ensures writes { let count = length elements.now in
                    Writes (TakesStructsWords 1 1 count) (ManyStructs 1 1 count)
                    objects.old objects.new result }
            {
                objects.draft_list(elements)
            }
        }

        impl Draft<Owned, 1, 1> for Builder {
            ghost draft = { λ builder. builder.draft };

            fn draft(&self) -> StructDraft<Owned, 1, 1> {
                self.draft
            }
        }

        impl Builder {
            /// Sets the field `number`.
            ///
            /// An object that it pointed to before stays in the bytes of the message.
            pub fn set_number(&mut self, value: Orphan<text::Owned>)
                ensures words { self.new.draft.words ≡ self.old.draft.words }
                ensures pointers { self.new.draft.pointers
                    ≡ slice_set self.old.draft.pointers 0 value.word }
            {
                self.draft.adopt(0, value);
            }

            /// Whether `number` is set, and not to null.
            pub fn has_number(&self) -> bool
                ensures { IsTrue result ↔ (slice_index_or self.now.draft.pointers 0 0 ≢ 0) }
            {
                self.draft.has_pointer(0)
            }

            /// Sets the field `type`.
            pub fn set_type(&mut self, value: Type)
                ensures words { let old = self.old.draft.words in
                    let new = self.new.draft.words in elim value [
                      | Type.Mobile ↦ new ≡ with_field old 16 0 0
                      | Type.Home ↦ new ≡ with_field old 16 0 1
                      | Type.Work ↦ new ≡ with_field old 16 0 2
                      | Type.NotInSchema unknown ↦ new ≡ with_field old 16 0 unknown
                    ] }
                ensures pointers { self.new.draft.pointers ≡ self.old.draft.pointers }
            {
                self.draft.set_data_field(0, value.to_number());
            }

            /// The field `type`, as it is set.
            pub fn get_type(&self) -> Type
                ensures { let fields = self.now.draft in
                    let number = field fields.words 16 0 in
                    elim result [
                      | Type.Mobile ↦ number ≡ 0
                      | Type.Home ↦ number ≡ 1
                      | Type.Work ↦ number ≡ 2
                      | Type.NotInSchema unknown ↦ (unknown ≡ number) × (3 ≤ number)
                    ] }
            {
                Type::from_number(self.draft.get_data_field(0))
            }
        }

        /// Which pointer of the struct points to `number`, for `fields.get_pointer`.
        pub const NUMBER_POINTER: u16 = 0;

        #[derive(Clone, Copy, PartialEq, Eq, Hash, Debug)]
        pub enum Type {
            Mobile,
            Home,
            Work,
            /// A number that the schema doesn't name.
            NotInSchema(u16),
        }

        impl Type {
            /// The enumerant of this number.
            pub fn from_number(number: u16) -> Type
                ensures { elim result [
                  | Type.Mobile ↦ number ≡ 0
                  | Type.Home ↦ number ≡ 1
                  | Type.Work ↦ number ≡ 2
                  | Type.NotInSchema unknown ↦ (unknown ≡ number) × (3 ≤ number)
                ] }
            {
                match number {
                    0 => Type::Mobile,
                    1 => Type::Home,
                    2 => Type::Work,
                    unknown => Type::NotInSchema(unknown),
                }
            }
        }

        impl capnp::upgraded::EnumElement for Type {
            ghost named = { 3 };

            fn from_number(number: u16) -> Type {
                Type::from_number(number)
            }
        }

        impl Type {
            /// Its number.
            pub fn to_number(self) -> u16
                ensures { elim self [
                  | Type.Mobile ↦ result ≡ 0
                  | Type.Home ↦ result ≡ 1
                  | Type.Work ↦ result ≡ 2
                  | Type.NotInSchema unknown ↦ result ≡ unknown
                ] }
            {
                match self {
                    Type::Mobile => 0,
                    Type::Home => 1,
                    Type::Work => 2,
                    Type::NotInSchema(unknown) => unknown,
                }
            }
        }
    }
}

#[rattlefmt::skip]
pub mod address_book {
    use capnp::any_struct::StructReader;
    use capnp::message::ReaderSegments;
    use capnp::orphans::{Draft, GrowingSegment, Orphan, Orphanage, StructDraft};
    use capnp::{Result, traits, upgraded};

    /// The type of the schema.
    pub struct Owned;

    impl<'a, S: ReaderSegments + 'a> traits::Owned<'a, S> for Owned {
        type Reader = Reader<'a, S>;
    }

    /// A struct of this type in a message. What its writer left out reads as the default.
    #[derive(Drop)]
    pub struct Reader<'a, S: ReaderSegments> {
        /// The struct whose fields these are.
        pub fields: StructReader<'a, S>,
    }

    impl<'a, S: ReaderSegments> Reader<'a, S> {
        /// The field `people`.
        pub fn get_people(&self) -> Result<super::person::ListReader<'a, S>>
            ensures { let fields = struct_of S.segments self.now.fields in
                IsStructsView S.segments (pointer_in fields 0) result }
        {
            self.fields.get_pointer_as(0)
        }

        /// Whether `people` is there, and is not null.
        pub fn has_people(&self) -> bool
            ensures { let fields = struct_of S.segments self.now.fields in
                IsTrue result ↔ (Denotes (pointer_in fields 0) nothing → ⊥) }
        {
            self.fields.has_pointer(0)
        }
    }

    impl<'a, S: ReaderSegments> upgraded::FromStruct<StructReader<'a, S>> for Reader<'a, S> {
        ghost shown = { λ view. struct_of S.segments view.fields };

        #[inline(always)]
        fn from_struct(fields: StructReader<'a, S>) -> Reader<'a, S> {
            Reader { fields }
        }
    }

    /// A list of such structs, or of their first fields where an older writer had these.
    pub type ListReader<'a, S> = upgraded::Structs<'a, S, Reader<'a, S>>;

    /// A list of such structs, as a type of the schema.
    pub type OwnedList = upgraded::OwnedStructs<Owned>;

    /// A struct of this type before it is written. What is not set has its default.
    #[derive(Clone, Copy)]
    pub struct Builder {
        /// Its data words, and what its pointers point to.
        pub draft: StructDraft<Owned, 0, 1>,
    }

    impl Builder {
        /// A builder in which nothing is set: each field has its default.
        pub fn new() -> Builder
            ensures words { result.draft.words ≡ replicate 0 0 }
            ensures pointers { result.draft.pointers ≡ replicate 1 0 }
        {
            Builder {
                draft: StructDraft::new(),
            }
        }

        /// A builder with what a reader shows, to be changed and written again. What its
        /// pointers point to is copied, as orphans; null stays null. What another version of
        /// the type left out is zero or null, and what it had in addition is left out.
        ///
        /// A copy that a setter replaces stays in the bytes, but not in canonical words.
        ///
        /// Fails as `Orphanage::set` does, for the first pointer that can't be copied.
        pub fn from_reader<R: ReaderSegments, S: GrowingSegment>(
            read: &Reader<'_, R>,
            objects: &mut Orphanage<S>,
        ) -> Result<Builder>
            ensures words { IfOk result (λ made. made.draft.words
                ≡ data_up_to (struct_of R.segments read.now.fields) 0) }
            ensures copies { CopiesPointers (struct_of R.segments read.now.fields) 1
                objects.old objects.new (λ made. made.draft.pointers) result }
        {
            match StructDraft::from_reader(&read.fields, objects) {
                Ok(draft) => Ok(Builder { draft }),
                Err(error) => Err(error),
            }
        }

        /// A builder with the numbers, bools and enums that a reader shows, as `from_reader`
        /// has them. Its pointers are null.
        pub fn from_data_section<R: ReaderSegments>(read: &Reader<'_, R>) -> Builder
            ensures words { result.draft.words
                ≡ data_up_to (struct_of R.segments read.now.fields) 0 }
            ensures pointers { result.draft.pointers ≡ replicate 1 0 }
        {
            Builder {
                draft: StructDraft::from_data_section(&read.fields),
            }
        }

        /// Writes it, as an object that a pointer can point to.
        pub fn add<S: GrowingSegment>(&self, objects: &mut Orphanage<S>) -> Result<Orphan<Owned>>
            ensures adds { AddsOrphan (HoldsStruct (body_of objects.old) self.now.draft.words
                self.now.draft.pointers) objects.old objects.new word_of result }
            ensures writes { Writes (StructWords 0 1) (StructSizeError 0 1)
                objects.old objects.new result }
        {
            objects.add(&self.draft)
        }

        /// Writes it as the root of the message.
        pub fn add_root<S: GrowingSegment>(&self, objects: &mut Orphanage<S>) -> Result<()>
            ensures adds { AddsRoot (StructWords 0 1) (HoldsStruct (body_of objects.old)
                self.now.draft.words self.now.draft.pointers) objects.old objects.new result }
            ensures fails { FailsToAdd (StructWords 0 1) (StructSizeError 0 1)
                objects.old result }
        {
            objects.add_root(&self.draft)
        }

        /// Writes a list of such structs.
        pub fn add_list<S: GrowingSegment>(
            elements: &[Builder],
            objects: &mut Orphanage<S>,
        ) -> Result<Orphan<OwnedList>>
            ensures adds { let drafts = map (λ element. element.draft) elements.now in
                AddsOrphan (HoldsStructs (body_of objects.old) drafts)
                objects.old objects.new word_of result }
            ensures writes { let count = length elements.now in
                Writes (TakesStructsWords 0 1 count) (ManyStructs 0 1 count)
                objects.old objects.new result }
        {
            objects.draft_list(elements)
        }
    }

    impl Draft<Owned, 0, 1> for Builder {
        ghost draft = { λ builder. builder.draft };

        fn draft(&self) -> StructDraft<Owned, 0, 1> {
            self.draft
        }
    }

    impl Builder {
        /// Sets the field `people`.
        ///
        /// An object that it pointed to before stays in the bytes of the message.
        pub fn set_people(&mut self, value: Orphan<super::person::OwnedList>)
            ensures words { self.new.draft.words ≡ self.old.draft.words }
            ensures pointers { self.new.draft.pointers
                ≡ slice_set self.old.draft.pointers 0 value.word }
        {
            self.draft.adopt(0, value);
        }

        /// Whether `people` is set, and not to null.
        pub fn has_people(&self) -> bool
            ensures { IsTrue result ↔ (slice_index_or self.now.draft.pointers 0 0 ≢ 0) }
        {
            self.draft.has_pointer(0)
        }
    }

    /// Which pointer of the struct points to `people`, for `fields.get_pointer`.
    pub const PEOPLE_POINTER: u16 = 0;
}
