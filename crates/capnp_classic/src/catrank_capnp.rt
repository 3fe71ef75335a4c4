//! Types of `catrank.capnp`, made by `capnpc-rattle`: change that file, and make them again.
//!
//! In a crate of their own they are proved once. A program is proved soonest where a loop over
//! messages or a list has one line, a call: `add_message(&message?, &mut totals)?` (docs/GUIDE.md).
ghost use Rattle.std.specs.Prelude.{◌≡◌, ◌↔◌, ◌≢◌, IfOk, IsTrue, from_bits, to_bits, length, map, replicate, slice_index_or, slice_set};
ghost use Rattle.std.specs.Float.{binary64};
ghost use Rattle.capnp.specs.Made.{AddsOrphan, AddsRoot, FailsToAdd, Writes, data_up_to, CopiesPointers, word_of, HoldsStruct, HoldsStructs, StructWords, TakesStructsWords, StructSizeError, ManyStructs, body_of, with_field, field, IsTextView, IsStructsView, nothing, struct_of, Denotes, pointer_in};

#[rattlefmt::skip]
pub mod search_result_list {
    use capnp::any_struct::StructReader;
    use capnp::message::ReaderSegments;
    use capnp::orphans::{Draft, GrowingSegment, Orphan, Orphanage, StructDraft};
    use capnp::{Result, traits, upgraded};

    /// The type of the schema.
    pub struct Owned;

    impl<'a, S: ReaderSegments + 'a> traits::Owned<'a, S> for Owned {
        type Reader = Reader<'a, S>;
    }

    /// A struct of this type in a message. What its writer left out reads as the default.
    #[derive(Drop)]
    pub struct Reader<'a, S: ReaderSegments> {
        /// The struct whose fields these are.
        pub fields: StructReader<'a, S>,
    }

    impl<'a, S: ReaderSegments> Reader<'a, S> {
        /// The field `results`.
        pub fn get_results(&self) -> Result<super::search_result::ListReader<'a, S>>
            ensures { let fields = struct_of S.segments self.now.fields in
                IsStructsView S.segments (pointer_in fields 0) result }
        {
            self.fields.get_pointer_as(0)
        }

        /// Whether `results` is there, and is not null.
        pub fn has_results(&self) -> bool
            ensures { let fields = struct_of S.segments self.now.fields in
                IsTrue result ↔ (Denotes (pointer_in fields 0) nothing → ⊥) }
        {
            self.fields.has_pointer(0)
        }
    }

    impl<'a, S: ReaderSegments> upgraded::FromStruct<StructReader<'a, S>> for Reader<'a, S> {
        ghost shown = { λ view. struct_of S.segments view.fields };

        #[inline(always)]
        fn from_struct(fields: StructReader<'a, S>) -> Reader<'a, S> {
            Reader { fields }
        }
    }

    /// A list of such structs, or of their first fields where an older writer had these.
    pub type ListReader<'a, S> = upgraded::Structs<'a, S, Reader<'a, S>>;

    /// A list of such structs, as a type of the schema.
    pub type OwnedList = upgraded::OwnedStructs<Owned>;

    /// A struct of this type before it is written. What is not set has its default.
    #[derive(Clone, Copy)]
    pub struct Builder {
        /// Its data words, and what its pointers point to.
        pub draft: StructDraft<Owned, 0, 1>,
    }

    impl Builder {
        /// A builder in which nothing is set: each field has its default.
        pub fn new() -> Builder
            ensures words { result.draft.words ≡ replicate 0 0 }
            ensures pointers { result.draft.pointers ≡ replicate 1 0 }
        {
            Builder {
                draft: StructDraft::new(),
            }
        }

        /// A builder with what a reader shows, to be changed and written again. What its
        /// pointers point to is copied, as orphans; null stays null. What another version of
        /// the type left out is zero or null, and what it had in addition is left out.
        ///
        /// A copy that a setter replaces stays in the bytes, but not in canonical words.
        ///
        /// Fails as `Orphanage::set` does, for the first pointer that can't be copied.
        pub fn from_reader<R: ReaderSegments, S: GrowingSegment>(
            read: &Reader<'_, R>,
            objects: &mut Orphanage<S>,
        ) -> Result<Builder>
            ensures words { IfOk result (λ made. made.draft.words
                ≡ data_up_to (struct_of R.segments read.now.fields) 0) }
            ensures copies { CopiesPointers (struct_of R.segments read.now.fields) 1
                objects.old objects.new (λ made. made.draft.pointers) result }
        {
            match StructDraft::from_reader(&read.fields, objects) {
                Ok(draft) => Ok(Builder { draft }),
                Err(error) => Err(error),
            }
        }

        /// A builder with the numbers, bools and enums that a reader shows, as `from_reader`
        /// has them. Its pointers are null.
        pub fn from_data_section<R: ReaderSegments>(read: &Reader<'_, R>) -> Builder
            ensures words { result.draft.words
                ≡ data_up_to (struct_of R.segments read.now.fields) 0 }
            ensures pointers { result.draft.pointers ≡ replicate 1 0 }
        {
            Builder {
                draft: StructDraft::from_data_section(&read.fields),
            }
        }

        /// Writes it, as an object that a pointer can point to.
        pub fn add<S: GrowingSegment>(&self, objects: &mut Orphanage<S>) -> Result<Orphan<Owned>>
            ensures adds { AddsOrphan (HoldsStruct (body_of objects.old) self.now.draft.words
                self.now.draft.pointers) objects.old objects.new word_of result }
            ensures writes { Writes (StructWords 0 1) (StructSizeError 0 1)
                objects.old objects.new result }
        {
            objects.add(&self.draft)
        }

        /// Writes it as the root of the message.
        pub fn add_root<S: GrowingSegment>(&self, objects: &mut Orphanage<S>) -> Result<()>
            ensures adds { AddsRoot (StructWords 0 1) (HoldsStruct (body_of objects.old)
                self.now.draft.words self.now.draft.pointers) objects.old objects.new result }
            ensures fails { FailsToAdd (StructWords 0 1) (StructSizeError 0 1)
                objects.old result }
        {
            objects.add_root(&self.draft)
        }

        /// Writes a list of such structs.
        pub fn add_list<S: GrowingSegment>(
            elements: &[Builder],
            objects: &mut Orphanage<S>,
        ) -> Result<Orphan<OwnedList>>
            ensures adds { let drafts = map (λ element. element.draft) elements.now in
                AddsOrphan (HoldsStructs (body_of objects.old) drafts)
                objects.old objects.new word_of result }
            ensures writes { let count = length elements.now in
                Writes (TakesStructsWords 0 1 count) (ManyStructs 0 1 count)
                objects.old objects.new result }
        {
            objects.draft_list(elements)
        }
    }

    impl Draft<Owned, 0, 1> for Builder {
        ghost draft = { λ builder. builder.draft };

        fn draft(&self) -> StructDraft<Owned, 0, 1> {
            self.draft
        }
    }

    impl Builder {
        /// Sets the field `results`.
        ///
        /// An object that it pointed to before stays in the bytes of the message.
        pub fn set_results(&mut self, value: Orphan<super::search_result::OwnedList>)
            ensures words { self.new.draft.words ≡ self.old.draft.words }
            ensures pointers { self.new.draft.pointers
                ≡ slice_set self.old.draft.pointers 0 value.word }
        {
            self.draft.adopt(0, value);
        }

        /// Whether `results` is set, and not to null.
        pub fn has_results(&self) -> bool
            ensures { IsTrue result ↔ (slice_index_or self.now.draft.pointers 0 0 ≢ 0) }
        {
            self.draft.has_pointer(0)
        }
    }

    /// Which pointer of the struct points to `results`, for `fields.get_pointer`.
    pub const RESULTS_POINTER: u16 = 0;
}

#[rattlefmt::skip]
pub mod search_result {
    use capnp::any_struct::StructReader;
    use capnp::message::ReaderSegments;
    use capnp::orphans::{Draft, GrowingSegment, Orphan, Orphanage, StructDraft};
    use capnp::{Result, text, traits, upgraded};

    /// The type of the schema.
    pub struct Owned;

    impl<'a, S: ReaderSegments + 'a> traits::Owned<'a, S> for Owned {
        type Reader = Reader<'a, S>;
    }

    /// A struct of this type in a message. What its writer left out reads as the default.
    #[derive(Drop)]
    pub struct Reader<'a, S: ReaderSegments> {
        /// The struct whose fields these are.
        pub fields: StructReader<'a, S>,
    }

    impl<'a, S: ReaderSegments> Reader<'a, S> {
        /// The field `url`.
        pub fn get_url(&self) -> Result<text::Reader<'a>>
            ensures { let fields = struct_of S.segments self.now.fields in
                IsTextView (pointer_in fields 0) result }
        {
            self.fields.get_pointer_as(0)
        }

        /// Whether `url` is there, and is not null.
        pub fn has_url(&self) -> bool
            ensures { let fields = struct_of S.segments self.now.fields in
                IsTrue result ↔ (Denotes (pointer_in fields 0) nothing → ⊥) }
        {
            self.fields.has_pointer(0)
        }

        /// The field `score`.
        pub fn get_score(&self) -> f64
            ensures { let fields = struct_of S.segments self.now.fields in
                result ≡ from_bits binary64 (field fields.words 64 0) }
        {
            self.fields.get_data_field(0)
        }

        /// The field `snippet`.
        pub fn get_snippet(&self) -> Result<text::Reader<'a>>
            ensures { let fields = struct_of S.segments self.now.fields in
                IsTextView (pointer_in fields 1) result }
        {
            self.fields.get_pointer_as(1)
        }

        /// Whether `snippet` is there, and is not null.
        pub fn has_snippet(&self) -> bool
            ensures { let fields = struct_of S.segments self.now.fields in
                IsTrue result ↔ (Denotes (pointer_in fields 1) nothing → ⊥) }
        {
            self.fields.has_pointer(1)
        }
    }

    impl<'a, S: ReaderSegments> upgraded::FromStruct<StructReader<'a, S>> for Reader<'a, S> {
        ghost shown = { λ view. struct_of S.segments view.fields };

        #[inline(always)]
        fn from_struct(fields: StructReader<'a, S>) -> Reader<'a, S> {
            Reader { fields }
        }
    }

    /// A list of such structs, or of their first fields where an older writer had these.
    pub type ListReader<'a, S> = upgraded::Structs<'a, S, Reader<'a, S>>;

    /// A list of such structs, as a type of the schema.
    pub type OwnedList = upgraded::OwnedStructs<Owned>;

    /// A struct of this type before it is written. What is not set has its default.
    #[derive(Clone, Copy)]
    pub struct Builder {
        /// Its data words, and what its pointers point to.
        pub draft: StructDraft<Owned, 1, 2>,
    }

    impl Builder {
        /// A builder in which nothing is set: each field has its default.
        pub fn new() -> Builder
            ensures words { result.draft.words ≡ replicate 1 0 }
            ensures pointers { result.draft.pointers ≡ replicate 2 0 }
        {
            Builder {
                draft: StructDraft::new(),
            }
        }

        /// A builder with what a reader shows, to be changed and written again. What its
        /// pointers point to is copied, as orphans; null stays null. What another version of
        /// the type left out is zero or null, and what it had in addition is left out.
        ///
        /// A copy that a setter replaces stays in the bytes, but not in canonical words.
        ///
        /// Fails as `Orphanage::set` does, for the first pointer that can't be copied.
        pub fn from_reader<R: ReaderSegments, S: GrowingSegment>(
            read: &Reader<'_, R>,
            objects: &mut Orphanage<S>,
        ) -> Result<Builder>
            ensures words { IfOk result (λ made. made.draft.words
                ≡ data_up_to (struct_of R.segments read.now.fields) 1) }
            ensures copies { CopiesPointers (struct_of R.segments read.now.fields) 2
                objects.old objects.new (λ made. made.draft.pointers) result }
        {
            match StructDraft::from_reader(&read.fields, objects) {
                Ok(draft) => Ok(Builder { draft }),
                Err(error) => Err(error),
            }
        }

        /// A builder with the numbers, bools and enums that a reader shows, as `from_reader`
        /// has them. Its pointers are null.
        pub fn from_data_section<R: ReaderSegments>(read: &Reader<'_, R>) -> Builder
            ensures words { result.draft.words
                ≡ data_up_to (struct_of R.segments read.now.fields) 1 }
            ensures pointers { result.draft.pointers ≡ replicate 2 0 }
        {
            Builder {
                draft: StructDraft::from_data_section(&read.fields),
            }
        }

        /// Writes it, as an object that a pointer can point to.
        pub fn add<S: GrowingSegment>(&self, objects: &mut Orphanage<S>) -> Result<Orphan<Owned>>
            ensures adds { AddsOrphan (HoldsStruct (body_of objects.old) self.now.draft.words
                self.now.draft.pointers) objects.old objects.new word_of result }
            ensures writes { Writes (StructWords 1 2) (StructSizeError 1 2)
                objects.old objects.new result }
        {
            objects.add(&self.draft)
        }

        /// Writes it as the root of the message.
        pub fn add_root<S: GrowingSegment>(&self, objects: &mut Orphanage<S>) -> Result<()>
            ensures adds { AddsRoot (StructWords 1 2) (HoldsStruct (body_of objects.old)
                self.now.draft.words self.now.draft.pointers) objects.old objects.new result }
            ensures fails { FailsToAdd (StructWords 1 2) (StructSizeError 1 2)
                objects.old result }
        {
            objects.add_root(&self.draft)
        }

        /// Writes a list of such structs.
        pub fn add_list<S: GrowingSegment>(
            elements: &[Builder],
            objects: &mut Orphanage<S>,
        ) -> Result<Orphan<OwnedList>>
            ensures adds { let drafts = map (λ element. element.draft) elements.now in
                AddsOrphan (HoldsStructs (body_of objects.old) drafts)
                objects.old objects.new word_of result }
            ensures writes { let count = length elements.now in
                Writes (TakesStructsWords 1 2 count) (ManyStructs 1 2 count)
                objects.old objects.new result }
        {
            objects.draft_list(elements)
        }
    }

    impl Draft<Owned, 1, 2> for Builder {
        ghost draft = { λ builder. builder.draft };

        fn draft(&self) -> StructDraft<Owned, 1, 2> {
            self.draft
        }
    }

    impl Builder {
        /// Sets the field `url`.
        ///
        /// An object that it pointed to before stays in the bytes of the message.
        pub fn set_url(&mut self, value: Orphan<text::Owned>)
            ensures words { self.new.draft.words ≡ self.old.draft.words }
            ensures pointers { self.new.draft.pointers
                ≡ slice_set self.old.draft.pointers 0 value.word }
        {
            self.draft.adopt(0, value);
        }

        /// Whether `url` is set, and not to null.
        pub fn has_url(&self) -> bool
            ensures { IsTrue result ↔ (slice_index_or self.now.draft.pointers 0 0 ≢ 0) }
        {
            self.draft.has_pointer(0)
        }

        /// Sets the field `score`.
        pub fn set_score(&mut self, value: f64)
            ensures words { self.new.draft.words
                ≡ with_field self.old.draft.words
                64 0 (to_bits binary64 value) }
            ensures pointers { self.new.draft.pointers ≡ self.old.draft.pointers }
        {
            self.draft.set_data_field(0, value);
        }

        /// The field `score`, as it is set.
        pub fn get_score(&self) -> f64
            ensures { let fields = self.now.draft in
                result ≡ from_bits binary64 (field fields.words 64 0) }
        {
            self.draft.get_data_field(0)
        }

        /// Sets the field `snippet`.
        ///
        /// An object that it pointed to before stays in the bytes of the message.
        pub fn set_snippet(&mut self, value: Orphan<text::Owned>)
            ensures words { self.new.draft.words ≡ self.old.draft.words }
            ensures pointers { self.new.draft.pointers
                ≡ slice_set self.old.draft.pointers 1 value.word }
        {
            self.draft.adopt(1, value);
        }

        /// Whether `snippet` is set, and not to null.
        pub fn has_snippet(&self) -> bool
            ensures { IsTrue result ↔ (slice_index_or self.now.draft.pointers 1 0 ≢ 0) }
        {
            self.draft.has_pointer(1)
        }
    }

    /// Which pointer of the struct points to `url`, for `fields.get_pointer`.
    pub const URL_POINTER: u16 = 0;

    /// Which pointer of the struct points to `snippet`, for `fields.get_pointer`.
    pub const SNIPPET_POINTER: u16 = 1;
}
