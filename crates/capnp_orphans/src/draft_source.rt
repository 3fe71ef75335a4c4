//! Sources of the structs of lists.
ghost use Rattle.std.specs.Prelude.{◌≡◌, ◌<◌, List, length, get_or};
ghost use Rattle.capnp_orphans.specs.declared.draft.StructDraft.{StructDraft};

use crate::draft::StructDraft;

/// Structs of one size in order, each made when the list of them is written.
///
/// ```
/// let points = [point, point];
/// let source = points.as_slice();
/// assert_eq!(rt; DraftSource::len(&source), 2);
/// let list = objects.lazy_struct_list(&source)?;
/// objects.set_root(list);
/// ```
pub trait DraftSource<T, const D: usize, const P: usize> {
    /// The structs.
    ghost drafts: { Self → List (StructDraft T D P) };

    /// How many there are.
    fn len(&self) -> usize
        ensures { result ≡ length (drafts self.now) };

    /// The struct at an index.
    fn get(&self, index: usize) -> StructDraft<T, D, P>
        requires { index < length (drafts self.now) }
        ensures { result ≡ get_or (drafts self.now) index result };
}

impl<'a, T, const D: usize, const P: usize> DraftSource<T, D, P> for &'a [StructDraft<T, D, P>] {
    ghost drafts = { λ source. source.now };

    fn len(&self) -> usize {
        <[StructDraft<T, D, P>]>::len(*self)
    }

    fn get(&self, index: usize) -> StructDraft<T, D, P> {
        let drafts: &'a [StructDraft<T, D, P>] = *self;
        let draft = &drafts[index];
        StructDraft::of_words(draft.words, draft.pointers)
    }
}
