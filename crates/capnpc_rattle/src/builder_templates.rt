//! Templates of the code of builders, with `@name@` for what differs.

/// A struct before it is written, and a list of such structs as a type of the schema.
pub const BUILDER: &str = "
/// A list of such structs, as a type of the schema.
pub type OwnedList = $upgraded::OwnedStructs<Owned>;

/// A struct of this type before it is written. What is not set has its default.
#[derive(Clone, Copy)]
pub struct Builder {
    /// Its data words, and what its pointers point to.
    pub draft: $StructDraft<Owned, @words@, @pointers@>,
}

impl Builder {
    /// A builder in which nothing is set: each field has its default.
    pub fn new() -> Builder
        ensures words { result.draft.words $≡ $replicate @words@ 0 }
        ensures pointers { result.draft.pointers $≡ $replicate @pointers@ 0 }
    {
        Builder {
            draft: $StructDraft::new(),
        }
    }

    /// A builder with what a reader shows, to be changed and written again. What its
    /// pointers point to is copied, as orphans; null stays null. What another version of
    /// the type left out is zero or null, and what it had in addition is left out.
    ///
    /// A copy that a setter replaces stays in the bytes, but not in canonical words.
    ///
    /// Fails as `Orphanage::set` does, for the first pointer that can't be copied.
    pub fn from_reader<R: $ReaderSegments, S: $GrowingSegment>(
        read: &Reader<'_, R>,
        objects: &mut $Orphanage<S>,
    ) -> $Result<Builder>
        ensures words { $IfOk result (λ made. made.draft.words
            $≡ $data_up_to ($struct_of R.segments read.now.fields) @words@) }
        ensures copies { $CopiesPointers ($struct_of R.segments read.now.fields) @pointers@
            objects.old objects.new (λ made. made.draft.pointers) result }
    {
        match $StructDraft::from_reader(&read.fields, objects) {
            Ok(draft) => Ok(Builder { draft }),
            Err(error) => Err(error),
        }
    }

    /// A builder with the numbers, bools and enums that a reader shows, as `from_reader`
    /// has them. Its pointers are null.
    pub fn from_data_section<R: $ReaderSegments>(read: &Reader<'_, R>) -> Builder
        ensures words { result.draft.words
            $≡ $data_up_to ($struct_of R.segments read.now.fields) @words@ }
        ensures pointers { result.draft.pointers $≡ $replicate @pointers@ 0 }
    {
        Builder {
            draft: $StructDraft::from_data_section(&read.fields),
        }
    }

    /// Writes it, as an object that a pointer can point to.
    pub fn add<S: $GrowingSegment>(&self, objects: &mut $Orphanage<S>) -> $Result<$Orphan<Owned>>
        ensures adds { $AddsOrphan ($HoldsStruct ($body_of objects.old) self.now.draft.words
            self.now.draft.pointers) objects.old objects.new $word_of result }
        ensures writes { $Writes ($StructWords @words@ @pointers@) ($StructSizeError @words@ @pointers@)
            objects.old objects.new result }
    {
        objects.add(&self.draft)
    }

    /// Writes it as the root of the message.
    pub fn add_root<S: $GrowingSegment>(&self, objects: &mut $Orphanage<S>) -> $Result<()>
        ensures adds { $AddsRoot ($StructWords @words@ @pointers@) ($HoldsStruct ($body_of objects.old)
            self.now.draft.words self.now.draft.pointers) objects.old objects.new result }
        ensures fails { $FailsToAdd ($StructWords @words@ @pointers@) ($StructSizeError @words@ @pointers@)
            objects.old result }
    {
        objects.add_root(&self.draft)
    }

    /// Writes a list of such structs.
    pub fn add_list<S: $GrowingSegment>(
        elements: &[Builder],
        objects: &mut $Orphanage<S>,
    ) -> $Result<$Orphan<OwnedList>>
        ensures adds { let drafts = $map (λ element. element.draft) elements.now in
            $AddsOrphan ($HoldsStructs ($body_of objects.old) drafts)
            objects.old objects.new $word_of result }
        ensures writes { let count = $length elements.now in
            $Writes ($TakesStructsWords @words@ @pointers@ count) ($ManyStructs @words@ @pointers@ count)
            objects.old objects.new result }
    {
        objects.draft_list(elements)
    }
}

impl $Draft<Owned, @words@, @pointers@> for Builder {
    ghost draft = { λ builder. builder.draft };

    fn draft(&self) -> $StructDraft<Owned, @words@, @pointers@> {
        self.draft
    }
}
";

/// What comes before the setters of the fields of a struct or a group.
pub const ACCESSORS: &str = "
impl @path@Builder {
";

/// The setter of a number, a bool or an enum.
pub const NUMBER_SETTER: &str = "pub fn set_@name@(&mut self, value: @type@)
    ensures words { @clause@ }
    ensures pointers { self.new.draft.pointers $≡ self.old.draft.pointers }
{
    @code@
}
";

/// The setter of nothing that is a member of a union.
pub const VOID_SETTER: &str = "pub fn set_@name@(&mut self)
    ensures words { @clause@ }
    ensures pointers { self.new.draft.pointers $≡ self.old.draft.pointers }
{
    @code@
}
";

/// The setter of a group that is a member of a union.
pub const GROUP_INIT: &str =
    "/// Selects the group `@group@`, and clears it: each field has its default,
/// and each pointer is null.
pub fn init_@name@(&mut self)
    ensures words { @words@ }
    ensures pointers { self.new.draft.pointers
        $≡ @pointers@ }
{
    @code@
}
";

/// The words before a setter, as a clause names them.
pub const OLD_WORDS: &str = "self.old.draft.words";

/// The words of the orphans before a setter, as a clause names them.
pub const OLD_POINTERS: &str = "self.old.draft.pointers";

/// What a clause says where the words stay the same.
pub const WORDS_STAY: &str = "self.new.draft.words $≡ self.old.draft.words";

/// What a clause says of the words that are set.
pub const WORDS_CLAUSE: &str = "self.new.draft.words
    $≡ @words@";

/// What a clause says where an enum is set.
pub const ENUM_CLAUSE: &str = "let old = @words@ in
    let new = self.new.draft.words in elim value [
    @cases@
    ]";

/// What is said of what a setter of a pointer replaces.
pub const STAYS: &str = "///
/// An object that it pointed to before stays in the bytes of the message.
";

/// The setter of a pointer.
pub const POINTER_SETTER: &str = "pub fn set_@name@@generic@(&mut self, value: $Orphan<@owned@>)
    ensures words { @clause@ }
    ensures pointers { self.new.draft.pointers
        $≡ $slice_set self.old.draft.pointers @offset@ value.word }
{
    @code@
}
";

/// Whether a pointer is set.
pub const HAS_SET: &str = "
/// Whether `@field@` is set, and not to null.
pub fn has_@name@(&self) -> bool
    ensures { $IsTrue result $↔ ($slice_index_or self.now.draft.pointers @offset@ 0 $≢ 0) }
{
    self.draft.has_pointer(@offset@)
}
";

/// The number of an enumerant.
pub const ENUM_NUMBER: &str = "
impl @type@ {
    /// Its number.
    pub fn to_number(self) -> u16
        ensures { elim self [
        @cases@
        ] }
    {
        match self {
            @arms@
        }
    }
}
";
