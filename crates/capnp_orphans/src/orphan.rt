//! Objects that no pointer points to yet.
ghost use Rattle.std.specs.Prelude.{◌≡◌, ◌<◌, ◌^◌, ℕ};

use std::marker::PhantomData;

/// An object of an orphanage, of a schema's type; or null.
///
/// It may be adopted more than once, and become the root as well: then several pointers point to
/// it, and a reader counts its words once for each of them. An orphan that is not adopted stays in
/// the message. In the C++ library an `Orphan` is adopted once at most, and one that is dropped is
/// made zero.
///
/// An orphan of another orphanage, or from before the last `clear`, does no harm: its pointer
/// points to whatever is there, or out of bounds, and a reader shows that object or fails.
///
/// ```
/// let name: Orphan<text::Owned> = objects.text("Alice")?;
/// let mut person = StructDraft::<any_struct::Owned, 0, 2>::new();
/// person.adopt(0, name);
/// person.adopt(1, name);
/// objects.add_root(&person)?;
/// assert_eq!(rt; objects.bytes().len(), 32);
/// ```
#[derive_where(Clone, Copy)]
pub struct Orphan<T> {
    /// The pointer to it, with the index of the word at which it begins in place of the offset. A
    /// word that no call returned does no more harm than an orphan of another orphanage.
    pub word: u64,

    /// Its type in a schema.
    pub schema: PhantomData<T>,
}

impl<T> Orphan<T> {
    /// Null.
    #[inline(always)]
    pub fn null() -> Orphan<T>
        ensures { result.word ≡ 0 }
    {
        Orphan::of_word(0)
    }

    /// The same object as an orphan of another type of a schema. A view tests the object that it
    /// shows, so a wrong type fails where the object is read.
    #[inline(always)]
    pub fn of_type<U>(self) -> Orphan<U>
        ensures { result.word ≡ self.word }
    {
        Orphan::of_word(self.word)
    }

    /// The orphan that has this word.
    #[inline(always)]
    pub(crate) fn of_word(word: u64) -> Orphan<T>
        ensures { result.word ≡ word }
    {
        Orphan {
            word,
            schema: PhantomData,
        }
    }
}

/// A type with the word of an orphan.
pub(crate) trait OrphanWord {
    /// The word.
    ghost word: { Self → ℕ };

    /// The word.
    fn word(&self) -> u64
        ensures { result ≡ word self.now };
}

impl<T> OrphanWord for Orphan<T> {
    ghost word = { λ orphan. orphan.word };

    #[inline(always)]
    fn word(&self) -> u64 {
        self.word
    }
}

impl OrphanWord for u64 {
    ghost word = { λ word. word };

    #[inline(always)]
    fn word(&self) -> u64 {
        *self
    }
}
