//! Types of `carsales.capnp`, made by `capnpc-rattle`: change that file, and make them again.
//!
//! In a crate of their own they are proved once. A program is proved soonest where a loop over
//! messages or a list has one line, a call: `add_message(&message?, &mut totals)?` (docs/GUIDE.md).
ghost use Rattle.std.specs.Prelude.{◌≡◌, ◌≤◌, ◌==◌, ◌↔◌, ◌≢◌, if◌then◌else◌, IfOk, IsTrue, from_bits, to_bits, length, map, replicate, slice_index_or, slice_set};
ghost use Rattle.std.specs.Float.{binary32};
ghost use Rattle.capnp.specs.Made.{AddsOrphan, AddsRoot, FailsToAdd, Writes, data_up_to, CopiesPointers, word_of, HoldsStruct, HoldsStructs, StructWords, TakesStructsWords, StructSizeError, ManyStructs, body_of, with_field, field, IsTextView, IsStructView, IsStructsView, nothing, struct_of, Denotes, pointer_in};

#[rattlefmt::skip]
pub mod parking_lot {
    use capnp::any_struct::StructReader;
    use capnp::message::ReaderSegments;
    use capnp::orphans::{Draft, GrowingSegment, Orphan, Orphanage, StructDraft};
    use capnp::{Result, traits, upgraded};

    /// The type of the schema.
    pub struct Owned;

    impl<'a, S: ReaderSegments + 'a> traits::Owned<'a, S> for Owned {
        type Reader = Reader<'a, S>;
    }

    /// A struct of this type in a message. What its writer left out reads as the default.
    #[derive(Drop)]
    pub struct Reader<'a, S: ReaderSegments> {
        /// The struct whose fields these are.
        pub fields: StructReader<'a, S>,
    }

    impl<'a, S: ReaderSegments> Reader<'a, S> {
        /// The field `cars`.
        pub fn get_cars(&self) -> Result<super::car::ListReader<'a, S>>
            ensures { let fields = struct_of S.segments self.now.fields in
                IsStructsView S.segments (pointer_in fields 0) result }
        {
            self.fields.get_pointer_as(0)
        }

        /// Whether `cars` is there, and is not null.
        pub fn has_cars(&self) -> bool
            ensures { let fields = struct_of S.segments self.now.fields in
                IsTrue result ↔ (Denotes (pointer_in fields 0) nothing → ⊥) }
        {
            self.fields.has_pointer(0)
        }
    }

    impl<'a, S: ReaderSegments> upgraded::FromStruct<StructReader<'a, S>> for Reader<'a, S> {
        ghost shown = { λ view. struct_of S.segments view.fields };

        #[inline(always)]
        fn from_struct(fields: StructReader<'a, S>) -> Reader<'a, S> {
            Reader { fields }
        }
    }

    /// A list of such structs, or of their first fields where an older writer had these.
    pub type ListReader<'a, S> = upgraded::Structs<'a, S, Reader<'a, S>>;

    /// A list of such structs, as a type of the schema.
    pub type OwnedList = upgraded::OwnedStructs<Owned>;

    /// A struct of this type before it is written. What is not set has its default.
    #[derive(Clone, Copy)]
    pub struct Builder {
        /// Its data words, and what its pointers point to.
        pub draft: StructDraft<Owned, 0, 1>,
    }

    impl Builder {
        /// A builder in which nothing is set: each field has its default.
        pub fn new() -> Builder
            ensures words { result.draft.words ≡ replicate 0 0 }
            ensures pointers { result.draft.pointers ≡ replicate 1 0 }
        {
            Builder {
                draft: StructDraft::new(),
            }
        }

        /// A builder with what a reader shows, to be changed and written again. What its
        /// pointers point to is copied, as orphans; null stays null. What another version of
        /// the type left out is zero or null, and what it had in addition is left out.
        ///
        /// A copy that a setter replaces stays in the bytes, but not in canonical words.
        ///
        /// Fails as `Orphanage::set` does, for the first pointer that can't be copied.
        pub fn from_reader<R: ReaderSegments, S: GrowingSegment>(
            read: &Reader<'_, R>,
            objects: &mut Orphanage<S>,
        ) -> Result<Builder>
            ensures words { IfOk result (λ made. made.draft.words
                ≡ data_up_to (struct_of R.segments read.now.fields) 0) }
            ensures copies { CopiesPointers (struct_of R.segments read.now.fields) 1
                objects.old objects.new (λ made. made.draft.pointers) result }
        {
            match StructDraft::from_reader(&read.fields, objects) {
                Ok(draft) => Ok(Builder { draft }),
                Err(error) => Err(error),
            }
        }

        /// A builder with the numbers, bools and enums that a reader shows, as `from_reader`
        /// has them. Its pointers are null.
        pub fn from_data_section<R: ReaderSegments>(read: &Reader<'_, R>) -> Builder
            ensures words { result.draft.words
                ≡ data_up_to (struct_of R.segments read.now.fields) 0 }
            ensures pointers { result.draft.pointers ≡ replicate 1 0 }
        {
            Builder {
                draft: StructDraft::from_data_section(&read.fields),
            }
        }

        /// Writes it, as an object that a pointer can point to.
        pub fn add<S: GrowingSegment>(&self, objects: &mut Orphanage<S>) -> Result<Orphan<Owned>>
            ensures adds { AddsOrphan (HoldsStruct (body_of objects.old) self.now.draft.words
                self.now.draft.pointers) objects.old objects.new word_of result }
            ensures writes { Writes (StructWords 0 1) (StructSizeError 0 1)
                objects.old objects.new result }
        {
            objects.add(&self.draft)
        }

        /// Writes it as the root of the message.
        pub fn add_root<S: GrowingSegment>(&self, objects: &mut Orphanage<S>) -> Result<()>
            ensures adds { AddsRoot (StructWords 0 1) (HoldsStruct (body_of objects.old)
                self.now.draft.words self.now.draft.pointers) objects.old objects.new result }
            ensures fails { FailsToAdd (StructWords 0 1) (StructSizeError 0 1)
                objects.old result }
        {
            objects.add_root(&self.draft)
        }

        /// Writes a list of such structs.
        pub fn add_list<S: GrowingSegment>(
            elements: &[Builder],
            objects: &mut Orphanage<S>,
        ) -> Result<Orphan<OwnedList>>
            ensures adds { let drafts = map (λ element. element.draft) elements.now in
                AddsOrphan (HoldsStructs (body_of objects.old) drafts)
                objects.old objects.new word_of result }
            ensures writes { let count = length elements.now in
                Writes (TakesStructsWords 0 1 count) (ManyStructs 0 1 count)
                objects.old objects.new result }
        {
            objects.draft_list(elements)
        }
    }

    impl Draft<Owned, 0, 1> for Builder {
        ghost draft = { λ builder. builder.draft };

        fn draft(&self) -> StructDraft<Owned, 0, 1> {
            self.draft
        }
    }

    impl Builder {
        /// Sets the field `cars`.
        ///
        /// An object that it pointed to before stays in the bytes of the message.
        pub fn set_cars(&mut self, value: Orphan<super::car::OwnedList>)
            ensures words { self.new.draft.words ≡ self.old.draft.words }
            ensures pointers { self.new.draft.pointers
                ≡ slice_set self.old.draft.pointers 0 value.word }
        {
            self.draft.adopt(0, value);
        }

        /// Whether `cars` is set, and not to null.
        pub fn has_cars(&self) -> bool
            ensures { IsTrue result ↔ (slice_index_or self.now.draft.pointers 0 0 ≢ 0) }
        {
            self.draft.has_pointer(0)
        }
    }

    /// Which pointer of the struct points to `cars`, for `fields.get_pointer`.
    pub const CARS_POINTER: u16 = 0;
}

#[rattlefmt::skip]
pub mod total_value {
    use capnp::any_struct::StructReader;
    use capnp::message::ReaderSegments;
    use capnp::orphans::{Draft, GrowingSegment, Orphan, Orphanage, StructDraft};
    use capnp::{Result, traits, upgraded};

    /// The type of the schema.
    pub struct Owned;

    impl<'a, S: ReaderSegments + 'a> traits::Owned<'a, S> for Owned {
        type Reader = Reader<'a, S>;
    }

    /// A struct of this type in a message. What its writer left out reads as the default.
    #[derive(Drop)]
    pub struct Reader<'a, S: ReaderSegments> {
        /// The struct whose fields these are.
        pub fields: StructReader<'a, S>,
    }

    impl<'a, S: ReaderSegments> Reader<'a, S> {
        /// The field `amount`.
        pub fn get_amount(&self) -> u64
            ensures { let fields = struct_of S.segments self.now.fields in
                result ≡ field fields.words 64 0 }
        {
            self.fields.get_data_field(0)
        }
    }

    impl<'a, S: ReaderSegments> upgraded::FromStruct<StructReader<'a, S>> for Reader<'a, S> {
        ghost shown = { λ view. struct_of S.segments view.fields };

        #[inline(always)]
        fn from_struct(fields: StructReader<'a, S>) -> Reader<'a, S> {
            Reader { fields }
        }
    }

    /// A list of such structs, or of their first fields where an older writer had these.
    pub type ListReader<'a, S> = upgraded::Structs<'a, S, Reader<'a, S>>;

    /// A list of such structs, as a type of the schema.
    pub type OwnedList = upgraded::OwnedStructs<Owned>;

    /// A struct of this type before it is written. What is not set has its default.
    #[derive(Clone, Copy)]
    pub struct Builder {
        /// Its data words, and what its pointers point to.
        pub draft: StructDraft<Owned, 1, 0>,
    }

    impl Builder {
        /// A builder in which nothing is set: each field has its default.
        pub fn new() -> Builder
            ensures words { result.draft.words ≡ replicate 1 0 }
            ensures pointers { result.draft.pointers ≡ replicate 0 0 }
        {
            Builder {
                draft: StructDraft::new(),
            }
        }

        /// A builder with what a reader shows, to be changed and written again. What its
        /// pointers point to is copied, as orphans; null stays null. What another version of
        /// the type left out is zero or null, and what it had in addition is left out.
        ///
        /// A copy that a setter replaces stays in the bytes, but not in canonical words.
        ///
        /// Fails as `Orphanage::set` does, for the first pointer that can't be copied.
        pub fn from_reader<R: ReaderSegments, S: GrowingSegment>(
            read: &Reader<'_, R>,
            objects: &mut Orphanage<S>,
        ) -> Result<Builder>
            ensures words { IfOk result (λ made. made.draft.words
                ≡ data_up_to (struct_of R.segments read.now.fields) 1) }
            ensures copies { CopiesPointers (struct_of R.segments read.now.fields) 0
                objects.old objects.new (λ made. made.draft.pointers) result }
        {
            match StructDraft::from_reader(&read.fields, objects) {
                Ok(draft) => Ok(Builder { draft }),
                Err(error) => Err(error),
            }
        }

        /// A builder with the numbers, bools and enums that a reader shows, as `from_reader`
        /// has them. Its pointers are null.
        pub fn from_data_section<R: ReaderSegments>(read: &Reader<'_, R>) -> Builder
            ensures words { result.draft.words
                ≡ data_up_to (struct_of R.segments read.now.fields) 1 }
            ensures pointers { result.draft.pointers ≡ replicate 0 0 }
        {
            Builder {
                draft: StructDraft::from_data_section(&read.fields),
            }
        }

        /// Writes it, as an object that a pointer can point to.
        pub fn add<S: GrowingSegment>(&self, objects: &mut Orphanage<S>) -> Result<Orphan<Owned>>
            ensures adds { AddsOrphan (HoldsStruct (body_of objects.old) self.now.draft.words
                self.now.draft.pointers) objects.old objects.new word_of result }
            ensures writes { Writes (StructWords 1 0) (StructSizeError 1 0)
                objects.old objects.new result }
        {
            objects.add(&self.draft)
        }

        /// Writes it as the root of the message.
        pub fn add_root<S: GrowingSegment>(&self, objects: &mut Orphanage<S>) -> Result<()>
            ensures adds { AddsRoot (StructWords 1 0) (HoldsStruct (body_of objects.old)
                self.now.draft.words self.now.draft.pointers) objects.old objects.new result }
            ensures fails { FailsToAdd (StructWords 1 0) (StructSizeError 1 0)
                objects.old result }
        {
            objects.add_root(&self.draft)
        }

        /// Writes a list of such structs.
        pub fn add_list<S: GrowingSegment>(
            elements: &[Builder],
            objects: &mut Orphanage<S>,
        ) -> Result<Orphan<OwnedList>>
            ensures adds { let drafts = map (λ element. element.draft) elements.now in
                AddsOrphan (HoldsStructs (body_of objects.old) drafts)
                objects.old objects.new word_of result }
            ensures writes { let count = length elements.now in
                Writes (TakesStructsWords 1 0 count) (ManyStructs 1 0 count)
                objects.old objects.new result }
        {
            objects.draft_list(elements)
        }
    }

    impl Draft<Owned, 1, 0> for Builder {
        ghost draft = { λ builder. builder.draft };

        fn draft(&self) -> StructDraft<Owned, 1, 0> {
            self.draft
        }
    }

    impl Builder {
        /// Sets the field `amount`.
        pub fn set_amount(&mut self, value: u64)
            ensures words { self.new.draft.words
                ≡ with_field self.old.draft.words 64 0 value }
            ensures pointers { self.new.draft.pointers ≡ self.old.draft.pointers }
        {
            self.draft.set_data_field(0, value);
        }

        /// The field `amount`, as it is set.
        pub fn get_amount(&self) -> u64
            ensures { let fields = self.now.draft in
                result ≡ field fields.words 64 0 }
        {
            self.draft.get_data_field(0)
        }
    }
}

#[rattlefmt::skip]
pub mod car {
    use super::Color;
    use capnp::any_struct::StructReader;
    use capnp::message::ReaderSegments;
    use capnp::orphans::{Draft, GrowingSegment, Orphan, Orphanage, StructDraft};
    use capnp::{Result, text, traits, upgraded};

    /// The type of the schema.
    pub struct Owned;

    impl<'a, S: ReaderSegments + 'a> traits::Owned<'a, S> for Owned {
        type Reader = Reader<'a, S>;
    }

    /// A struct of this type in a message. What its writer left out reads as the default.
    #[derive(Drop)]
    pub struct Reader<'a, S: ReaderSegments> {
        /// The struct whose fields these are.
        pub fields: StructReader<'a, S>,
    }

    impl<'a, S: ReaderSegments> Reader<'a, S> {
        /// The field `make`.
        pub fn get_make(&self) -> Result<text::Reader<'a>>
            ensures { let fields = struct_of S.segments self.now.fields in
                IsTextView (pointer_in fields 0) result }
        {
            self.fields.get_pointer_as(0)
        }

        /// Whether `make` is there, and is not null.
        pub fn has_make(&self) -> bool
            ensures { let fields = struct_of S.segments self.now.fields in
                IsTrue result ↔ (Denotes (pointer_in fields 0) nothing → ⊥) }
        {
            self.fields.has_pointer(0)
        }

        /// The field `model`.
        pub fn get_model(&self) -> Result<text::Reader<'a>>
            ensures { let fields = struct_of S.segments self.now.fields in
                IsTextView (pointer_in fields 1) result }
        {
            self.fields.get_pointer_as(1)
        }

        /// Whether `model` is there, and is not null.
        pub fn has_model(&self) -> bool
            ensures { let fields = struct_of S.segments self.now.fields in
                IsTrue result ↔ (Denotes (pointer_in fields 1) nothing → ⊥) }
        {
            self.fields.has_pointer(1)
        }

        /// The field `color`.
        pub fn get_color(&self) -> Color
            ensures { let fields = struct_of S.segments self.now.fields in
                let number = field fields.words 16 0 in
                elim result [
                  | Color.Black ↦ number ≡ 0
                  | Color.White ↦ number ≡ 1
                  | Color.Red ↦ number ≡ 2
                  | Color.Green ↦ number ≡ 3
                  | Color.Blue ↦ number ≡ 4
                  | Color.Cyan ↦ number ≡ 5
                  | Color.Magenta ↦ number ≡ 6
                  | Color.Yellow ↦ number ≡ 7
                  | Color.Silver ↦ number ≡ 8
                  | Color.NotInSchema unknown ↦ (unknown ≡ number) × (9 ≤ number)
                ] }
        {
            Color::from_number(self.fields.get_data_field(0))
        }

        /// The field `seats`.
        pub fn get_seats(&self) -> u8
            ensures { let fields = struct_of S.segments self.now.fields in
                result ≡ field fields.words 8 2 }
        {
            self.fields.get_data_field(2)
        }

        /// The field `doors`.
        pub fn get_doors(&self) -> u8
            ensures { let fields = struct_of S.segments self.now.fields in
                result ≡ field fields.words 8 3 }
        {
            self.fields.get_data_field(3)
        }

        /// The field `wheels`.
        pub fn get_wheels(&self) -> Result<super::wheel::ListReader<'a, S>>
            ensures { let fields = struct_of S.segments self.now.fields in
                IsStructsView S.segments (pointer_in fields 2) result }
        {
            self.fields.get_pointer_as(2)
        }

        /// Whether `wheels` is there, and is not null.
        pub fn has_wheels(&self) -> bool
            ensures { let fields = struct_of S.segments self.now.fields in
                IsTrue result ↔ (Denotes (pointer_in fields 2) nothing → ⊥) }
        {
            self.fields.has_pointer(2)
        }

        /// The field `length`.
        pub fn get_length(&self) -> u16
            ensures { let fields = struct_of S.segments self.now.fields in
                result ≡ field fields.words 16 2 }
        {
            self.fields.get_data_field(2)
        }

        /// The field `width`.
        pub fn get_width(&self) -> u16
            ensures { let fields = struct_of S.segments self.now.fields in
                result ≡ field fields.words 16 3 }
        {
            self.fields.get_data_field(3)
        }

        /// The field `height`.
        pub fn get_height(&self) -> u16
            ensures { let fields = struct_of S.segments self.now.fields in
                result ≡ field fields.words 16 4 }
        {
            self.fields.get_data_field(4)
        }

        /// The field `weight`.
        pub fn get_weight(&self) -> u32
            ensures { let fields = struct_of S.segments self.now.fields in
                result ≡ field fields.words 32 3 }
        {
            self.fields.get_data_field(3)
        }

        /// The field `engine`.
        pub fn get_engine(&self) -> Result<super::engine::Reader<'a, S>>
            ensures { let fields = struct_of S.segments self.now.fields in
                IsStructView (pointer_in fields 3)
                (λ view. struct_of S.segments view.fields) result }
        {
            self.fields.get_pointer_as(3)
        }

        /// Whether `engine` is there, and is not null.
        pub fn has_engine(&self) -> bool
            ensures { let fields = struct_of S.segments self.now.fields in
                IsTrue result ↔ (Denotes (pointer_in fields 3) nothing → ⊥) }
        {
            self.fields.has_pointer(3)
        }

        /// The field `fuelCapacity`.
        pub fn get_fuel_capacity(&self) -> f32
            ensures { let fields = struct_of S.segments self.now.fields in
                result ≡ from_bits binary32 (field fields.words 32 4) }
        {
            self.fields.get_data_field(4)
        }

        /// The field `fuel`.
        pub fn get_fuel(&self) -> f32
            ensures { let fields = struct_of S.segments self.now.fields in
                result ≡ from_bits binary32 (field fields.words 32 5) }
        {
            self.fields.get_data_field(5)
        }

        /// The field `hasPowerWindows`.
        pub fn get_has_power_windows(&self) -> bool
            ensures { let fields = struct_of S.segments self.now.fields in
                result ≡ (field fields.words 1 80 == 1) }
        {
            self.fields.get_data_field(80)
        }

        /// The field `hasPowerSteering`.
        pub fn get_has_power_steering(&self) -> bool
            ensures { let fields = struct_of S.segments self.now.fields in
                result ≡ (field fields.words 1 81 == 1) }
        {
            self.fields.get_data_field(81)
        }

        /// The field `hasCruiseControl`.
        pub fn get_has_cruise_control(&self) -> bool
            ensures { let fields = struct_of S.segments self.now.fields in
                result ≡ (field fields.words 1 82 == 1) }
        {
            self.fields.get_data_field(82)
        }

        /// The field `cupHolders`.
        pub fn get_cup_holders(&self) -> u8
            ensures { let fields = struct_of S.segments self.now.fields in
                result ≡ field fields.words 8 11 }
        {
            self.fields.get_data_field(11)
        }

        /// The field `hasNavSystem`.
        pub fn get_has_nav_system(&self) -> bool
            ensures { let fields = struct_of S.segments self.now.fields in
                result ≡ (field fields.words 1 83 == 1) }
        {
            self.fields.get_data_field(83)
        }
    }

    impl<'a, S: ReaderSegments> upgraded::FromStruct<StructReader<'a, S>> for Reader<'a, S> {
        ghost shown = { λ view. struct_of S.segments view.fields };

        #[inline(always)]
        fn from_struct(fields: StructReader<'a, S>) -> Reader<'a, S> {
            Reader { fields }
        }
    }

    /// A list of such structs, or of their first fields where an older writer had these.
    pub type ListReader<'a, S> = upgraded::Structs<'a, S, Reader<'a, S>>;

    /// A list of such structs, as a type of the schema.
    pub type OwnedList = upgraded::OwnedStructs<Owned>;

    /// A struct of this type before it is written. What is not set has its default.
    #[derive(Clone, Copy)]
    pub struct Builder {
        /// Its data words, and what its pointers point to.
        pub draft: StructDraft<Owned, 3, 4>,
    }

    impl Builder {
        /// A builder in which nothing is set: each field has its default.
        pub fn new() -> Builder
            ensures words { result.draft.words ≡ replicate 3 0 }
            ensures pointers { result.draft.pointers ≡ replicate 4 0 }
        {
            Builder {
                draft: StructDraft::new(),
            }
        }

        /// A builder with what a reader shows, to be changed and written again. What its
        /// pointers point to is copied, as orphans; null stays null. What another version of
        /// the type left out is zero or null, and what it had in addition is left out.
        ///
        /// A copy that a setter replaces stays in the bytes, but not in canonical words.
        ///
        /// Fails as `Orphanage::set` does, for the first pointer that can't be copied.
        pub fn from_reader<R: ReaderSegments, S: GrowingSegment>(
            read: &Reader<'_, R>,
            objects: &mut Orphanage<S>,
        ) -> Result<Builder>
            ensures words { IfOk result (λ made. made.draft.words
                ≡ data_up_to (struct_of R.segments read.now.fields) 3) }
            ensures copies { CopiesPointers (struct_of R.segments read.now.fields) 4
                objects.old objects.new (λ made. made.draft.pointers) result }
        {
            match StructDraft::from_reader(&read.fields, objects) {
                Ok(draft) => Ok(Builder { draft }),
                Err(error) => Err(error),
            }
        }

        /// A builder with the numbers, bools and enums that a reader shows, as `from_reader`
        /// has them. Its pointers are null.
        pub fn from_data_section<R: ReaderSegments>(read: &Reader<'_, R>) -> Builder
            ensures words { result.draft.words
                ≡ data_up_to (struct_of R.segments read.now.fields) 3 }
            ensures pointers { result.draft.pointers ≡ replicate 4 0 }
        {
            Builder {
                draft: StructDraft::from_data_section(&read.fields),
            }
        }

        /// Writes it, as an object that a pointer can point to.
        pub fn add<S: GrowingSegment>(&self, objects: &mut Orphanage<S>) -> Result<Orphan<Owned>>
            ensures adds { AddsOrphan (HoldsStruct (body_of objects.old) self.now.draft.words
                self.now.draft.pointers) objects.old objects.new word_of result }
            ensures writes { Writes (StructWords 3 4) (StructSizeError 3 4)
                objects.old objects.new result }
        {
            objects.add(&self.draft)
        }

        /// Writes it as the root of the message.
        pub fn add_root<S: GrowingSegment>(&self, objects: &mut Orphanage<S>) -> Result<()>
            ensures adds { AddsRoot (StructWords 3 4) (HoldsStruct (body_of objects.old)
                self.now.draft.words self.now.draft.pointers) objects.old objects.new result }
            ensures fails { FailsToAdd (StructWords 3 4) (StructSizeError 3 4)
                objects.old result }
        {
            objects.add_root(&self.draft)
        }

        /// Writes a list of such structs.
        pub fn add_list<S: GrowingSegment>(
            elements: &[Builder],
            objects: &mut Orphanage<S>,
        ) -> Result<Orphan<OwnedList>>
            ensures adds { let drafts = map (λ element. element.draft) elements.now in
                AddsOrphan (HoldsStructs (body_of objects.old) drafts)
                objects.old objects.new word_of result }
            ensures writes { let count = length elements.now in
                Writes (TakesStructsWords 3 4 count) (ManyStructs 3 4 count)
                objects.old objects.new result }
        {
            objects.draft_list(elements)
        }
    }

    impl Draft<Owned, 3, 4> for Builder {
        ghost draft = { λ builder. builder.draft };

        fn draft(&self) -> StructDraft<Owned, 3, 4> {
            self.draft
        }
    }

    impl Builder {
        /// Sets the field `make`.
        ///
        /// An object that it pointed to before stays in the bytes of the message.
        pub fn set_make(&mut self, value: Orphan<text::Owned>)
            ensures words { self.new.draft.words ≡ self.old.draft.words }
            ensures pointers { self.new.draft.pointers
                ≡ slice_set self.old.draft.pointers 0 value.word }
        {
            self.draft.adopt(0, value);
        }

        /// Whether `make` is set, and not to null.
        pub fn has_make(&self) -> bool
            ensures { IsTrue result ↔ (slice_index_or self.now.draft.pointers 0 0 ≢ 0) }
        {
            self.draft.has_pointer(0)
        }

        /// Sets the field `model`.
        ///
        /// An object that it pointed to before stays in the bytes of the message.
        pub fn set_model(&mut self, value: Orphan<text::Owned>)
            ensures words { self.new.draft.words ≡ self.old.draft.words }
            ensures pointers { self.new.draft.pointers
                ≡ slice_set self.old.draft.pointers 1 value.word }
        {
            self.draft.adopt(1, value);
        }

        /// Whether `model` is set, and not to null.
        pub fn has_model(&self) -> bool
            ensures { IsTrue result ↔ (slice_index_or self.now.draft.pointers 1 0 ≢ 0) }
        {
            self.draft.has_pointer(1)
        }

        /// Sets the field `color`.
        pub fn set_color(&mut self, value: Color)
            ensures words { let old = self.old.draft.words in
                let new = self.new.draft.words in elim value [
                  | Color.Black ↦ new ≡ with_field old 16 0 0
                  | Color.White ↦ new ≡ with_field old 16 0 1
                  | Color.Red ↦ new ≡ with_field old 16 0 2
                  | Color.Green ↦ new ≡ with_field old 16 0 3
                  | Color.Blue ↦ new ≡ with_field old 16 0 4
                  | Color.Cyan ↦ new ≡ with_field old 16 0 5
                  | Color.Magenta ↦ new ≡ with_field old 16 0 6
                  | Color.Yellow ↦ new ≡ with_field old 16 0 7
                  | Color.Silver ↦ new ≡ with_field old 16 0 8
                  | Color.NotInSchema unknown ↦ new ≡ with_field old 16 0 unknown
                ] }
            ensures pointers { self.new.draft.pointers ≡ self.old.draft.pointers }
        {
            self.draft.set_data_field(0, value.to_number());
        }

        /// The field `color`, as it is set.
        pub fn get_color(&self) -> Color
            ensures { let fields = self.now.draft in
                let number = field fields.words 16 0 in
                elim result [
                  | Color.Black ↦ number ≡ 0
                  | Color.White ↦ number ≡ 1
                  | Color.Red ↦ number ≡ 2
                  | Color.Green ↦ number ≡ 3
                  | Color.Blue ↦ number ≡ 4
                  | Color.Cyan ↦ number ≡ 5
                  | Color.Magenta ↦ number ≡ 6
                  | Color.Yellow ↦ number ≡ 7
                  | Color.Silver ↦ number ≡ 8
                  | Color.NotInSchema unknown ↦ (unknown ≡ number) × (9 ≤ number)
                ] }
        {
            Color::from_number(self.draft.get_data_field(0))
        }

        /// Sets the field `seats`.
        pub fn set_seats(&mut self, value: u8)
            ensures words { self.new.draft.words
                ≡ with_field self.old.draft.words 8 2 value }
            ensures pointers { self.new.draft.pointers ≡ self.old.draft.pointers }
        {
            self.draft.set_data_field(2, value);
        }

        /// The field `seats`, as it is set.
        pub fn get_seats(&self) -> u8
            ensures { let fields = self.now.draft in
                result ≡ field fields.words 8 2 }
        {
            self.draft.get_data_field(2)
        }

        /// Sets the field `doors`.
        pub fn set_doors(&mut self, value: u8)
            ensures words { self.new.draft.words
                ≡ with_field self.old.draft.words 8 3 value }
            ensures pointers { self.new.draft.pointers ≡ self.old.draft.pointers }
        {
            self.draft.set_data_field(3, value);
        }

        /// The field `doors`, as it is set.
        pub fn get_doors(&self) -> u8
            ensures { let fields = self.now.draft in
                result ≡ field fields.words 8 3 }
        {
            self.draft.get_data_field(3)
        }

        /// Sets the field `wheels`.
        ///
        /// An object that it pointed to before stays in the bytes of the message.
        pub fn set_wheels(&mut self, value: Orphan<super::wheel::OwnedList>)
            ensures words { self.new.draft.words ≡ self.old.draft.words }
            ensures pointers { self.new.draft.pointers
                ≡ slice_set self.old.draft.pointers 2 value.word }
        {
            self.draft.adopt(2, value);
        }

        /// Whether `wheels` is set, and not to null.
        pub fn has_wheels(&self) -> bool
            ensures { IsTrue result ↔ (slice_index_or self.now.draft.pointers 2 0 ≢ 0) }
        {
            self.draft.has_pointer(2)
        }

        /// Sets the field `length`.
        pub fn set_length(&mut self, value: u16)
            ensures words { self.new.draft.words
                ≡ with_field self.old.draft.words 16 2 value }
            ensures pointers { self.new.draft.pointers ≡ self.old.draft.pointers }
        {
            self.draft.set_data_field(2, value);
        }

        /// The field `length`, as it is set.
        pub fn get_length(&self) -> u16
            ensures { let fields = self.now.draft in
                result ≡ field fields.words 16 2 }
        {
            self.draft.get_data_field(2)
        }

        /// Sets the field `width`.
        pub fn set_width(&mut self, value: u16)
            ensures words { self.new.draft.words
                ≡ with_field self.old.draft.words 16 3 value }
            ensures pointers { self.new.draft.pointers ≡ self.old.draft.pointers }
        {
            self.draft.set_data_field(3, value);
        }

        /// The field `width`, as it is set.
        pub fn get_width(&self) -> u16
            ensures { let fields = self.now.draft in
                result ≡ field fields.words 16 3 }
        {
            self.draft.get_data_field(3)
        }

        /// Sets the field `height`.
        pub fn set_height(&mut self, value: u16)
            ensures words { self.new.draft.words
                ≡ with_field self.old.draft.words 16 4 value }
            ensures pointers { self.new.draft.pointers ≡ self.old.draft.pointers }
        {
            self.draft.set_data_field(4, value);
        }

        /// The field `height`, as it is set.
        pub fn get_height(&self) -> u16
            ensures { let fields = self.now.draft in
                result ≡ field fields.words 16 4 }
        {
            self.draft.get_data_field(4)
        }

        /// Sets the field `weight`.
        pub fn set_weight(&mut self, value: u32)
            ensures words { self.new.draft.words
                ≡ with_field self.old.draft.words 32 3 value }
            ensures pointers { self.new.draft.pointers ≡ self.old.draft.pointers }
        {
            self.draft.set_data_field(3, value);
        }

        /// The field `weight`, as it is set.
        pub fn get_weight(&self) -> u32
            ensures { let fields = self.now.draft in
                result ≡ field fields.words 32 3 }
        {
            self.draft.get_data_field(3)
        }

        /// Sets the field `engine`.
        ///
        /// An object that it pointed to before stays in the bytes of the message.
        pub fn set_engine(&mut self, value: Orphan<super::engine::Owned>)
            ensures words { self.new.draft.words ≡ self.old.draft.words }
            ensures pointers { self.new.draft.pointers
                ≡ slice_set self.old.draft.pointers 3 value.word }
        {
            self.draft.adopt(3, value);
        }

        /// Whether `engine` is set, and not to null.
        pub fn has_engine(&self) -> bool
            ensures { IsTrue result ↔ (slice_index_or self.now.draft.pointers 3 0 ≢ 0) }
        {
            self.draft.has_pointer(3)
        }

        /// Sets the field `fuelCapacity`.
        pub fn set_fuel_capacity(&mut self, value: f32)
            ensures words { self.new.draft.words
                ≡ with_field self.old.draft.words
                32 4 (to_bits binary32 value) }
            ensures pointers { self.new.draft.pointers ≡ self.old.draft.pointers }
        {
            self.draft.set_data_field(4, value);
        }

        /// The field `fuelCapacity`, as it is set.
        pub fn get_fuel_capacity(&self) -> f32
            ensures { let fields = self.now.draft in
                result ≡ from_bits binary32 (field fields.words 32 4) }
        {
            self.draft.get_data_field(4)
        }

        /// Sets the field `fuel`.
        pub fn set_fuel(&mut self, value: f32)
            ensures words { self.new.draft.words
                ≡ with_field self.old.draft.words
                32 5 (to_bits binary32 value) }
            ensures pointers { self.new.draft.pointers ≡ self.old.draft.pointers }
        {
            self.draft.set_data_field(5, value);
        }

        /// The field `fuel`, as it is set.
        pub fn get_fuel(&self) -> f32
            ensures { let fields = self.now.draft in
                result ≡ from_bits binary32 (field fields.words 32 5) }
        {
            self.draft.get_data_field(5)
        }

        /// Sets the field `hasPowerWindows`.
        pub fn set_has_power_windows(&mut self, value: bool)
            ensures words { self.new.draft.words
                ≡ with_field self.old.draft.words
                1 80 (if value then 1 else 0) }
            ensures pointers { self.new.draft.pointers ≡ self.old.draft.pointers }
        {
            self.draft.set_data_field(80, value);
        }

        /// The field `hasPowerWindows`, as it is set.
        pub fn get_has_power_windows(&self) -> bool
            ensures { let fields = self.now.draft in
                result ≡ (field fields.words 1 80 == 1) }
        {
            self.draft.get_data_field(80)
        }

        /// Sets the field `hasPowerSteering`.
        pub fn set_has_power_steering(&mut self, value: bool)
            ensures words { self.new.draft.words
                ≡ with_field self.old.draft.words
                1 81 (if value then 1 else 0) }
            ensures pointers { self.new.draft.pointers ≡ self.old.draft.pointers }
        {
            self.draft.set_data_field(81, value);
        }

        /// The field `hasPowerSteering`, as it is set.
        pub fn get_has_power_steering(&self) -> bool
            ensures { let fields = self.now.draft in
                result ≡ (field fields.words 1 81 == 1) }
        {
            self.draft.get_data_field(81)
        }

        /// Sets the field `hasCruiseControl`.
        pub fn set_has_cruise_control(&mut self, value: bool)
            ensures words { self.new.draft.words
                ≡ with_field self.old.draft.words
                1 82 (if value then 1 else 0) }
            ensures pointers { self.new.draft.pointers ≡ self.old.draft.pointers }
        {
            self.draft.set_data_field(82, value);
        }

        /// The field `hasCruiseControl`, as it is set.
        pub fn get_has_cruise_control(&self) -> bool
            ensures { let fields = self.now.draft in
                result ≡ (field fields.words 1 82 == 1) }
        {
            self.draft.get_data_field(82)
        }

        /// Sets the field `cupHolders`.
        pub fn set_cup_holders(&mut self, value: u8)
            ensures words { self.new.draft.words
                ≡ with_field self.old.draft.words 8 11 value }
            ensures pointers { self.new.draft.pointers ≡ self.old.draft.pointers }
        {
            self.draft.set_data_field(11, value);
        }

        /// The field `cupHolders`, as it is set.
        pub fn get_cup_holders(&self) -> u8
            ensures { let fields = self.now.draft in
                result ≡ field fields.words 8 11 }
        {
            self.draft.get_data_field(11)
        }

        /// Sets the field `hasNavSystem`.
        pub fn set_has_nav_system(&mut self, value: bool)
            ensures words { self.new.draft.words
                ≡ with_field self.old.draft.words
                1 83 (if value then 1 else 0) }
            ensures pointers { self.new.draft.pointers ≡ self.old.draft.pointers }
        {
            self.draft.set_data_field(83, value);
        }

        /// The field `hasNavSystem`, as it is set.
        pub fn get_has_nav_system(&self) -> bool
            ensures { let fields = self.now.draft in
                result ≡ (field fields.words 1 83 == 1) }
        {
            self.draft.get_data_field(83)
        }
    }

    /// Which pointer of the struct points to `make`, for `fields.get_pointer`.
    pub const MAKE_POINTER: u16 = 0;

    /// Which pointer of the struct points to `model`, for `fields.get_pointer`.
    pub const MODEL_POINTER: u16 = 1;

    /// Which pointer of the struct points to `wheels`, for `fields.get_pointer`.
    pub const WHEELS_POINTER: u16 = 2;

    /// Which pointer of the struct points to `engine`, for `fields.get_pointer`.
    pub const ENGINE_POINTER: u16 = 3;
}

#[rattlefmt::skip]
#[derive(Clone, Copy, PartialEq, Eq, Hash, Debug)]
pub enum Color {
    Black,
    White,
    Red,
    Green,
    Blue,
    Cyan,
    Magenta,
    Yellow,
    Silver,
    /// A number that the schema doesn't name.
    NotInSchema(u16),
}

#[rattlefmt::skip]
impl Color {
    /// The enumerant of this number.
    pub fn from_number(number: u16) -> Color
        ensures { elim result [
          | Color.Black ↦ number ≡ 0
          | Color.White ↦ number ≡ 1
          | Color.Red ↦ number ≡ 2
          | Color.Green ↦ number ≡ 3
          | Color.Blue ↦ number ≡ 4
          | Color.Cyan ↦ number ≡ 5
          | Color.Magenta ↦ number ≡ 6
          | Color.Yellow ↦ number ≡ 7
          | Color.Silver ↦ number ≡ 8
          | Color.NotInSchema unknown ↦ (unknown ≡ number) × (9 ≤ number)
        ] }
    {
        match number {
            0 => Color::Black,
            1 => Color::White,
            2 => Color::Red,
            3 => Color::Green,
            4 => Color::Blue,
            5 => Color::Cyan,
            6 => Color::Magenta,
            7 => Color::Yellow,
            8 => Color::Silver,
            unknown => Color::NotInSchema(unknown),
        }
    }
}

#[rattlefmt::skip]
impl capnp::upgraded::EnumElement for Color {
    ghost named = { 9 };

    fn from_number(number: u16) -> Color {
        Color::from_number(number)
    }
}

#[rattlefmt::skip]
impl Color {
    /// Its number.
    pub fn to_number(self) -> u16
        ensures { elim self [
          | Color.Black ↦ result ≡ 0
          | Color.White ↦ result ≡ 1
          | Color.Red ↦ result ≡ 2
          | Color.Green ↦ result ≡ 3
          | Color.Blue ↦ result ≡ 4
          | Color.Cyan ↦ result ≡ 5
          | Color.Magenta ↦ result ≡ 6
          | Color.Yellow ↦ result ≡ 7
          | Color.Silver ↦ result ≡ 8
          | Color.NotInSchema unknown ↦ result ≡ unknown
        ] }
    {
        match self {
            Color::Black => 0,
            Color::White => 1,
            Color::Red => 2,
            Color::Green => 3,
            Color::Blue => 4,
            Color::Cyan => 5,
            Color::Magenta => 6,
            Color::Yellow => 7,
            Color::Silver => 8,
            Color::NotInSchema(unknown) => unknown,
        }
    }
}

#[rattlefmt::skip]
pub mod wheel {
    use capnp::any_struct::StructReader;
    use capnp::message::ReaderSegments;
    use capnp::orphans::{Draft, GrowingSegment, Orphan, Orphanage, StructDraft};
    use capnp::{Result, traits, upgraded};

    /// The type of the schema.
    pub struct Owned;

    impl<'a, S: ReaderSegments + 'a> traits::Owned<'a, S> for Owned {
        type Reader = Reader<'a, S>;
    }

    /// A struct of this type in a message. What its writer left out reads as the default.
    #[derive(Drop)]
    pub struct Reader<'a, S: ReaderSegments> {
        /// The struct whose fields these are.
        pub fields: StructReader<'a, S>,
    }

    impl<'a, S: ReaderSegments> Reader<'a, S> {
        /// The field `diameter`.
        pub fn get_diameter(&self) -> u16
            ensures { let fields = struct_of S.segments self.now.fields in
                result ≡ field fields.words 16 0 }
        {
            self.fields.get_data_field(0)
        }

        /// The field `airPressure`.
        pub fn get_air_pressure(&self) -> f32
            ensures { let fields = struct_of S.segments self.now.fields in
                result ≡ from_bits binary32 (field fields.words 32 1) }
        {
            self.fields.get_data_field(1)
        }

        /// The field `snowTires`.
        pub fn get_snow_tires(&self) -> bool
            ensures { let fields = struct_of S.segments self.now.fields in
                result ≡ (field fields.words 1 16 == 1) }
        {
            self.fields.get_data_field(16)
        }
    }

    impl<'a, S: ReaderSegments> upgraded::FromStruct<StructReader<'a, S>> for Reader<'a, S> {
        ghost shown = { λ view. struct_of S.segments view.fields };

        #[inline(always)]
        fn from_struct(fields: StructReader<'a, S>) -> Reader<'a, S> {
            Reader { fields }
        }
    }

    /// A list of such structs, or of their first fields where an older writer had these.
    pub type ListReader<'a, S> = upgraded::Structs<'a, S, Reader<'a, S>>;

    /// A list of such structs, as a type of the schema.
    pub type OwnedList = upgraded::OwnedStructs<Owned>;

    /// A struct of this type before it is written. What is not set has its default.
    #[derive(Clone, Copy)]
    pub struct Builder {
        /// Its data words, and what its pointers point to.
        pub draft: StructDraft<Owned, 1, 0>,
    }

    impl Builder {
        /// A builder in which nothing is set: each field has its default.
        pub fn new() -> Builder
            ensures words { result.draft.words ≡ replicate 1 0 }
            ensures pointers { result.draft.pointers ≡ replicate 0 0 }
        {
            Builder {
                draft: StructDraft::new(),
            }
        }

        /// A builder with what a reader shows, to be changed and written again. What its
        /// pointers point to is copied, as orphans; null stays null. What another version of
        /// the type left out is zero or null, and what it had in addition is left out.
        ///
        /// A copy that a setter replaces stays in the bytes, but not in canonical words.
        ///
        /// Fails as `Orphanage::set` does, for the first pointer that can't be copied.
        pub fn from_reader<R: ReaderSegments, S: GrowingSegment>(
            read: &Reader<'_, R>,
            objects: &mut Orphanage<S>,
        ) -> Result<Builder>
            ensures words { IfOk result (λ made. made.draft.words
                ≡ data_up_to (struct_of R.segments read.now.fields) 1) }
            ensures copies { CopiesPointers (struct_of R.segments read.now.fields) 0
                objects.old objects.new (λ made. made.draft.pointers) result }
        {
            match StructDraft::from_reader(&read.fields, objects) {
                Ok(draft) => Ok(Builder { draft }),
                Err(error) => Err(error),
            }
        }

        /// A builder with the numbers, bools and enums that a reader shows, as `from_reader`
        /// has them. Its pointers are null.
        pub fn from_data_section<R: ReaderSegments>(read: &Reader<'_, R>) -> Builder
            ensures words { result.draft.words
                ≡ data_up_to (struct_of R.segments read.now.fields) 1 }
            ensures pointers { result.draft.pointers ≡ replicate 0 0 }
        {
            Builder {
                draft: StructDraft::from_data_section(&read.fields),
            }
        }

        /// Writes it, as an object that a pointer can point to.
        pub fn add<S: GrowingSegment>(&self, objects: &mut Orphanage<S>) -> Result<Orphan<Owned>>
            ensures adds { AddsOrphan (HoldsStruct (body_of objects.old) self.now.draft.words
                self.now.draft.pointers) objects.old objects.new word_of result }
            ensures writes { Writes (StructWords 1 0) (StructSizeError 1 0)
                objects.old objects.new result }
        {
            objects.add(&self.draft)
        }

        /// Writes it as the root of the message.
        pub fn add_root<S: GrowingSegment>(&self, objects: &mut Orphanage<S>) -> Result<()>
            ensures adds { AddsRoot (StructWords 1 0) (HoldsStruct (body_of objects.old)
                self.now.draft.words self.now.draft.pointers) objects.old objects.new result }
            ensures fails { FailsToAdd (StructWords 1 0) (StructSizeError 1 0)
                objects.old result }
        {
            objects.add_root(&self.draft)
        }

        /// Writes a list of such structs.
        pub fn add_list<S: GrowingSegment>(
            elements: &[Builder],
            objects: &mut Orphanage<S>,
        ) -> Result<Orphan<OwnedList>>
            ensures adds { let drafts = map (λ element. element.draft) elements.now in
                AddsOrphan (HoldsStructs (body_of objects.old) drafts)
                objects.old objects.new word_of result }
            ensures writes { let count = length elements.now in
                Writes (TakesStructsWords 1 0 count) (ManyStructs 1 0 count)
                objects.old objects.new result }
        {
            objects.draft_list(elements)
        }
    }

    impl Draft<Owned, 1, 0> for Builder {
        ghost draft = { λ builder. builder.draft };

        fn draft(&self) -> StructDraft<Owned, 1, 0> {
            self.draft
        }
    }

    impl Builder {
        /// Sets the field `diameter`.
        pub fn set_diameter(&mut self, value: u16)
            ensures words { self.new.draft.words
                ≡ with_field self.old.draft.words 16 0 value }
            ensures pointers { self.new.draft.pointers ≡ self.old.draft.pointers }
        {
            self.draft.set_data_field(0, value);
        }

        /// The field `diameter`, as it is set.
        pub fn get_diameter(&self) -> u16
            ensures { let fields = self.now.draft in
                result ≡ field fields.words 16 0 }
        {
            self.draft.get_data_field(0)
        }

        /// Sets the field `airPressure`.
        pub fn set_air_pressure(&mut self, value: f32)
            ensures words { self.new.draft.words
                ≡ with_field self.old.draft.words
                32 1 (to_bits binary32 value) }
            ensures pointers { self.new.draft.pointers ≡ self.old.draft.pointers }
        {
            self.draft.set_data_field(1, value);
        }

        /// The field `airPressure`, as it is set.
        pub fn get_air_pressure(&self) -> f32
            ensures { let fields = self.now.draft in
                result ≡ from_bits binary32 (field fields.words 32 1) }
        {
            self.draft.get_data_field(1)
        }

        /// Sets the field `snowTires`.
        pub fn set_snow_tires(&mut self, value: bool)
            ensures words { self.new.draft.words
                ≡ with_field self.old.draft.words
                1 16 (if value then 1 else 0) }
            ensures pointers { self.new.draft.pointers ≡ self.old.draft.pointers }
        {
            self.draft.set_data_field(16, value);
        }

        /// The field `snowTires`, as it is set.
        pub fn get_snow_tires(&self) -> bool
            ensures { let fields = self.now.draft in
                result ≡ (field fields.words 1 16 == 1) }
        {
            self.draft.get_data_field(16)
        }
    }
}

#[rattlefmt::skip]
pub mod engine {
    use capnp::any_struct::StructReader;
    use capnp::message::ReaderSegments;
    use capnp::orphans::{Draft, GrowingSegment, Orphan, Orphanage, StructDraft};
    use capnp::{Result, traits, upgraded};

    /// The type of the schema.
    pub struct Owned;

    impl<'a, S: ReaderSegments + 'a> traits::Owned<'a, S> for Owned {
        type Reader = Reader<'a, S>;
    }

    /// A struct of this type in a message. What its writer left out reads as the default.
    #[derive(Drop)]
    pub struct Reader<'a, S: ReaderSegments> {
        /// The struct whose fields these are.
        pub fields: StructReader<'a, S>,
    }

    impl<'a, S: ReaderSegments> Reader<'a, S> {
        /// The field `horsepower`.
        pub fn get_horsepower(&self) -> u16
            ensures { let fields = struct_of S.segments self.now.fields in
                result ≡ field fields.words 16 0 }
        {
            self.fields.get_data_field(0)
        }

        /// The field `cylinders`.
        pub fn get_cylinders(&self) -> u8
            ensures { let fields = struct_of S.segments self.now.fields in
                result ≡ field fields.words 8 2 }
        {
            self.fields.get_data_field(2)
        }

        /// The field `cc`.
        pub fn get_cc(&self) -> u32
            ensures { let fields = struct_of S.segments self.now.fields in
                result ≡ field fields.words 32 1 }
        {
            self.fields.get_data_field(1)
        }

        /// The field `usesGas`.
        pub fn get_uses_gas(&self) -> bool
            ensures { let fields = struct_of S.segments self.now.fields in
                result ≡ (field fields.words 1 24 == 1) }
        {
            self.fields.get_data_field(24)
        }

        /// The field `usesElectric`.
        pub fn get_uses_electric(&self) -> bool
            ensures { let fields = struct_of S.segments self.now.fields in
                result ≡ (field fields.words 1 25 == 1) }
        {
            self.fields.get_data_field(25)
        }
    }

    impl<'a, S: ReaderSegments> upgraded::FromStruct<StructReader<'a, S>> for Reader<'a, S> {
        ghost shown = { λ view. struct_of S.segments view.fields };

        #[inline(always)]
        fn from_struct(fields: StructReader<'a, S>) -> Reader<'a, S> {
            Reader { fields }
        }
    }

    /// A list of such structs, or of their first fields where an older writer had these.
    pub type ListReader<'a, S> = upgraded::Structs<'a, S, Reader<'a, S>>;

    /// A list of such structs, as a type of the schema.
    pub type OwnedList = upgraded::OwnedStructs<Owned>;

    /// A struct of this type before it is written. What is not set has its default.
    #[derive(Clone, Copy)]
    pub struct Builder {
        /// Its data words, and what its pointers point to.
        pub draft: StructDraft<Owned, 1, 0>,
    }

    impl Builder {
        /// A builder in which nothing is set: each field has its default.
        pub fn new() -> Builder
            ensures words { result.draft.words ≡ replicate 1 0 }
            ensures pointers { result.draft.pointers ≡ replicate 0 0 }
        {
            Builder {
                draft: StructDraft::new(),
            }
        }

        /// A builder with what a reader shows, to be changed and written again. What its
        /// pointers point to is copied, as orphans; null stays null. What another version of
        /// the type left out is zero or null, and what it had in addition is left out.
        ///
        /// A copy that a setter replaces stays in the bytes, but not in canonical words.
        ///
        /// Fails as `Orphanage::set` does, for the first pointer that can't be copied.
        pub fn from_reader<R: ReaderSegments, S: GrowingSegment>(
            read: &Reader<'_, R>,
            objects: &mut Orphanage<S>,
        ) -> Result<Builder>
            ensures words { IfOk result (λ made. made.draft.words
                ≡ data_up_to (struct_of R.segments read.now.fields) 1) }
            ensures copies { CopiesPointers (struct_of R.segments read.now.fields) 0
                objects.old objects.new (λ made. made.draft.pointers) result }
        {
            match StructDraft::from_reader(&read.fields, objects) {
                Ok(draft) => Ok(Builder { draft }),
                Err(error) => Err(error),
            }
        }

        /// A builder with the numbers, bools and enums that a reader shows, as `from_reader`
        /// has them. Its pointers are null.
        pub fn from_data_section<R: ReaderSegments>(read: &Reader<'_, R>) -> Builder
            ensures words { result.draft.words
                ≡ data_up_to (struct_of R.segments read.now.fields) 1 }
            ensures pointers { result.draft.pointers ≡ replicate 0 0 }
        {
            Builder {
                draft: StructDraft::from_data_section(&read.fields),
            }
        }

        /// Writes it, as an object that a pointer can point to.
        pub fn add<S: GrowingSegment>(&self, objects: &mut Orphanage<S>) -> Result<Orphan<Owned>>
            ensures adds { AddsOrphan (HoldsStruct (body_of objects.old) self.now.draft.words
                self.now.draft.pointers) objects.old objects.new word_of result }
            ensures writes { Writes (StructWords 1 0) (StructSizeError 1 0)
                objects.old objects.new result }
        {
            objects.add(&self.draft)
        }

        /// Writes it as the root of the message.
        pub fn add_root<S: GrowingSegment>(&self, objects: &mut Orphanage<S>) -> Result<()>
            ensures adds { AddsRoot (StructWords 1 0) (HoldsStruct (body_of objects.old)
                self.now.draft.words self.now.draft.pointers) objects.old objects.new result }
            ensures fails { FailsToAdd (StructWords 1 0) (StructSizeError 1 0)
                objects.old result }
        {
            objects.add_root(&self.draft)
        }

        /// Writes a list of such structs.
        pub fn add_list<S: GrowingSegment>(
            elements: &[Builder],
            objects: &mut Orphanage<S>,
        ) -> Result<Orphan<OwnedList>>
            ensures adds { let drafts = map (λ element. element.draft) elements.now in
                AddsOrphan (HoldsStructs (body_of objects.old) drafts)
                objects.old objects.new word_of result }
            ensures writes { let count = length elements.now in
                Writes (TakesStructsWords 1 0 count) (ManyStructs 1 0 count)
                objects.old objects.new result }
        {
            objects.draft_list(elements)
        }
    }

    impl Draft<Owned, 1, 0> for Builder {
        ghost draft = { λ builder. builder.draft };

        fn draft(&self) -> StructDraft<Owned, 1, 0> {
            self.draft
        }
    }

    impl Builder {
        /// Sets the field `horsepower`.
        pub fn set_horsepower(&mut self, value: u16)
            ensures words { self.new.draft.words
                ≡ with_field self.old.draft.words 16 0 value }
            ensures pointers { self.new.draft.pointers ≡ self.old.draft.pointers }
        {
            self.draft.set_data_field(0, value);
        }

        /// The field `horsepower`, as it is set.
        pub fn get_horsepower(&self) -> u16
            ensures { let fields = self.now.draft in
                result ≡ field fields.words 16 0 }
        {
            self.draft.get_data_field(0)
        }

        /// Sets the field `cylinders`.
        pub fn set_cylinders(&mut self, value: u8)
            ensures words { self.new.draft.words
                ≡ with_field self.old.draft.words 8 2 value }
            ensures pointers { self.new.draft.pointers ≡ self.old.draft.pointers }
        {
            self.draft.set_data_field(2, value);
        }

        /// The field `cylinders`, as it is set.
        pub fn get_cylinders(&self) -> u8
            ensures { let fields = self.now.draft in
                result ≡ field fields.words 8 2 }
        {
            self.draft.get_data_field(2)
        }

        /// Sets the field `cc`.
        pub fn set_cc(&mut self, value: u32)
            ensures words { self.new.draft.words
                ≡ with_field self.old.draft.words 32 1 value }
            ensures pointers { self.new.draft.pointers ≡ self.old.draft.pointers }
        {
            self.draft.set_data_field(1, value);
        }

        /// The field `cc`, as it is set.
        pub fn get_cc(&self) -> u32
            ensures { let fields = self.now.draft in
                result ≡ field fields.words 32 1 }
        {
            self.draft.get_data_field(1)
        }

        /// Sets the field `usesGas`.
        pub fn set_uses_gas(&mut self, value: bool)
            ensures words { self.new.draft.words
                ≡ with_field self.old.draft.words
                1 24 (if value then 1 else 0) }
            ensures pointers { self.new.draft.pointers ≡ self.old.draft.pointers }
        {
            self.draft.set_data_field(24, value);
        }

        /// The field `usesGas`, as it is set.
        pub fn get_uses_gas(&self) -> bool
            ensures { let fields = self.now.draft in
                result ≡ (field fields.words 1 24 == 1) }
        {
            self.draft.get_data_field(24)
        }

        /// Sets the field `usesElectric`.
        pub fn set_uses_electric(&mut self, value: bool)
            ensures words { self.new.draft.words
                ≡ with_field self.old.draft.words
                1 25 (if value then 1 else 0) }
            ensures pointers { self.new.draft.pointers ≡ self.old.draft.pointers }
        {
            self.draft.set_data_field(25, value);
        }

        /// The field `usesElectric`, as it is set.
        pub fn get_uses_electric(&self) -> bool
            ensures { let fields = self.now.draft in
                result ≡ (field fields.words 1 25 == 1) }
        {
            self.draft.get_data_field(25)
        }
    }
}
