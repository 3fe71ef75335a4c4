//! Types of views, and types of schemas.
ghost use Rattle.std.specs.Prelude.{◌≡◌, ℕ, ◌-◌, ◌≤◌, length, false, Ok, MatchResult};
ghost use Rattle.std.specs.Result.{IsErrAnd};
ghost use Rattle.capnp_frame.specs.declared.error.ErrorKind.{ErrorKind};
ghost use Rattle.capnp_wire.specs.Views.{Pointer, HasSegment, IsViewOf};
ghost use Rattle.capnp_wire.specs.Readers.{pointer_of};
ghost use Rattle.capnp_layout.specs.Prelude.{words_of, Trees, count, total_words, body, output};
ghost use Rattle.capnp_wire.specs.Copy.{IsCopied};
ghost use Rattle.capnp_wire.specs.Values.{HasWords, WordsError, HasPart, HasRoomAt, IsFreeFrom, starts_with_null};
ghost use Rattle.capnp_wire.specs.declared.traits.TreeWords.{TreeWords};

use crate::any_pointer;
pub use crate::layout::copy::Copied;
pub use crate::list_into_iter::ListIntoIter;
pub use crate::list_iter::{IndexMove, ListIter};
use capnp_frame::Result;
use capnp_frame::message::ReaderSegments;

/// A type of views of what a pointer points to, as `text::Reader` is one.
///
/// A view that doesn't name `S` has a lifetime of its own, as in
/// `impl<'a: 'v, 'v, S: ReaderSegments> FromPointerReader<'a, S> for View<'v>`. A loop over a list
/// of such views isn't proved where the impl names the one lifetime `'a` for both.
///
/// ```
/// let root: any_pointer::Reader<'_, OwnedSegments> = message.get_root()?;
/// let greeting = text::Reader::get_from_pointer(root)?;
/// assert!(rt; greeting.is("Hello, World!"));
/// ```
pub trait FromPointerReader<'a, S: ReaderSegments>: Sized {
    /// The view shows what the pointer points to.
    ghost shows: { Pointer → Self → Type 0 };

    /// There is a view of what the pointer points to.
    ghost accepts: { Pointer → Type 0 };

    /// With which errors a view fails: there is none, or the object may not be read.
    ghost fails: { Pointer → ErrorKind → Type 0 };

    /// With which error a view fails where an object is there that it does not accept.
    ghost form_error: { Pointer → ErrorKind → Type 0 };

    /// The view of what a pointer points to. Fails with a kind that `fails` names.
    fn get_from_pointer(reader: any_pointer::Reader<'a, S>) -> Result<Self>
        ensures { let pointer = pointer_of S.segments reader.entry in
            IsViewOf pointer (shows pointer) (accepts pointer) (fails pointer) (form_error pointer)
            result };
}

/// A type of views that can also be read where the segment of the pointer is known, as it is in a
/// struct.
pub trait FromPointerInSegment<'a, S: ReaderSegments>: FromPointerReader<'a, S> {
    /// The view of what a pointer in this segment points to. Fails as `get_from_pointer` does.
    fn get_from_segment(reader: any_pointer::Reader<'a, S>, segment: &'a [u8]) -> Result<Self>
        requires { HasSegment (pointer_of S.segments reader) (words_of segment.now) }
        ensures { let pointer = pointer_of S.segments reader.entry in
            IsViewOf pointer (Self.shows pointer) (Self.accepts pointer) (Self.fails pointer)
            (Self.form_error pointer) result };
}

/// A type of a schema, with its view.
///
/// ```
/// type Names<'a> = <text_list::Owned as Owned<'a, OwnedSegments>>::Reader;
///
/// fn count_of(names: &Names<'_>) -> u32 {
///     names.len()
/// }
/// ```
pub trait Owned<'a, S: ReaderSegments> {
    /// Its view.
    type Reader: FromPointerReader<'a, S>;
}

/// How many words some trees have, untrimmed and in the form that is written.
#[derive(Clone, Copy)]
pub struct TreeWords {
    /// Untrimmed.
    pub untrimmed: u64,

    /// In the form that is written. Fewer, where that form is canonical and the trees are not.
    pub output: u64,
}

/// A value of a type of a schema, to which a pointer can be set.
///
/// ```
/// let greeting = "Hello, World!";
/// assert!(rt; !SetterInput::<text::Owned>::is_null(&greeting));
/// assert_eq!(rt; SetterInput::<text::Owned>::measure(&greeting, false)?, 2);
/// ```
pub trait SetterInput<T> {
    /// The tree that the value is.
    ghost has_tree: { Self → Trees → Type 0 };

    /// With which errors the value fails: it has no tree, or the tree may not be read.
    ghost fails: { Self → ErrorKind → Type 0 };

    /// The number of words of the value, without the pointer to it, untrimmed or in canonical form.
    ///
    /// Fails with a kind that `fails` names, and for 2^29 words and more with
    /// `AllocationTooLarge`, or in canonical form with `CanonicalTooLarge`.
    fn measure(&self, canonical: bool) -> Result<u32>
        ensures returned { MatchResult result (λ words. HasWords (has_tree self.now) canonical words)
            (λ error. WordsError (has_tree self.now) (fails self.now) canonical error.kind) }
        ensures found { (words : ℕ) → HasWords (has_tree self.now) canonical words →
            result ≡ Ok words }
        ensures exact { (kind : ErrorKind) →
            WordsError (has_tree self.now) (fails self.now) canonical kind →
            IsErrAnd result (λ error. error.kind ≡ kind) };

    /// The number of words of the value as a part of another one, without the pointer to it.
    ///
    /// Fails as `measure` does for the untrimmed value, even where its canonical form is smaller.
    fn measure_part(&self, canonical: bool) -> Result<TreeWords>
        ensures returned { MatchResult result (λ words. HasPart (has_tree self.now) canonical words)
            (λ error. WordsError (has_tree self.now) (fails self.now) false error.kind) }
        ensures found { (words : TreeWords) → HasPart (has_tree self.now) canonical words →
            result ≡ Ok words }
        ensures exact { (kind : ErrorKind) →
            WordsError (has_tree self.now) (fails self.now) false kind →
            IsErrAnd result (λ error. error.kind ≡ kind) }
    {
        let untrimmed = self.measure(false)? as u64;
        if !canonical {
            return Ok(TreeWords {
                untrimmed,
                output: untrimmed,
            });
        }
        let output = self.measure(true).unwrap_or(0) as u64;
        Ok(TreeWords { untrimmed, output })
    }

    /// Whether the value is null.
    fn is_null(&self) -> bool
        ensures { (trees : Trees) → has_tree self.now trees → result ≡ starts_with_null trees };

    /// Writes the value into a block that is zero from the word `next` on. `following` is the index
    /// of the word just after the pointer to it. Returns that pointer, which is still to be put
    /// there, and the index of the first word after the value.
    fn write(&self, canonical: bool, block: &mut [u8], following: usize, next: usize) -> Copied
        requires value { HasRoomAt (has_tree self.now) canonical next (length (words_of block.old)) }
        requires free { IsFreeFrom next block.old }
        requires following { following ≤ next }
        ensures written { (trees : Trees) → has_tree self.now trees →
            IsCopied (output canonical trees) (next - following) next
            (words_of block.old) (words_of block.new) result }
        ensures long { (trees : Trees) → has_tree self.now trees →
            length (body (output canonical trees)) ≡ total_words (output canonical trees) }
        ensures len { length block.new ≡ length block.old };

    /// A value is one tree.
    ghost one: { (value : Self) (trees : Trees) → has_tree value trees → count trees ≡ 1 };
}
