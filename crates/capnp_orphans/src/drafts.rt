//! Lists of structs of a schema's own types.
ghost use Rattle.std.specs.Prelude.{◌≡◌, ◌<◌, List, length, map, get_or};
ghost use Rattle.capnp_orphans.specs.declared.draft.StructDraft.{StructDraft};

use crate::draft::StructDraft;
use crate::draft_source::DraftSource;
use crate::orphan::Orphan;
use crate::orphanage::Orphanage;
use crate::segment::GrowingSegment;
use crate::struct_list::StructList;
use capnp_frame::Result;

/// A type that is written as a draft, such as a builder that the schema compiler makes.
///
/// ```
/// impl Draft<any_struct::Owned, 1, 0> for Point {
///     ghost draft = { λ point. point.draft };
///
///     fn draft(&self) -> StructDraft<any_struct::Owned, 1, 0> {
///         self.draft
///     }
/// }
/// ```
pub trait Draft<T, const D: usize, const P: usize> {
    /// The draft.
    ghost draft: { Self → StructDraft T D P };

    /// The draft that is written.
    fn draft(&self) -> StructDraft<T, D, P>
        ensures { result ≡ draft self.now };
}

/// A source of the structs of a slice.
#[derive(Drop)]
pub(crate) struct Drafts<'a, B> {
    builders: &'a [B],
}

impl<'a, B> Drafts<'a, B> {
    // A source of these structs.
    fn new(builders: &'a [B]) -> Drafts<'a, B>
        ensures { result.builders.now ≡ builders.now }
    {
        Drafts { builders }
    }
}

impl<'a, T, const D: usize, const P: usize, B: Draft<T, D, P>> DraftSource<T, D, P>
    for Drafts<'a, B> {
    ghost use Rattle.std.specs.Prelude.{map};

    ghost drafts = { λ source. map B.draft source.builders.now };

    fn len(&self) -> usize {
        self.builders.len()
    }

    fn get(&self, index: usize) -> StructDraft<T, D, P> {
        self.builders[index].draft()
    }
}

impl<S: GrowingSegment> Orphanage<S> {
    ghost use Rattle.capnp_orphans.specs.Adding.{AddsOrphan, Writes};
    ghost use Rattle.capnp_orphans.specs.Holds.{word_of, HoldsStructs, TakesStructsWords, ManyStructs};
    ghost use Rattle.capnp_orphans.specs.Segments.{body_of};

    /// Writes a list of the structs of these builders, as an orphan of the type that the schema
    /// gives the list. Fails as `struct_list` does.
    pub fn draft_list<T, U, const D: usize, const P: usize, B: Draft<T, D, P>>(
        &mut self,
        builders: &[B],
    ) -> Result<Orphan<U>>
        ensures adds { AddsOrphan (HoldsStructs (body_of self.old) (map B.draft builders.now)) self.old
            self.new word_of result }
        ensures writes { Writes (TakesStructsWords D P (length builders.now))
            (ManyStructs D P (length builders.now)) self.old self.new result }
    {
        self.write(&StructList::<T, D, P, Drafts<'_, B>>::new(&Drafts::new(builders)))
    }
}
