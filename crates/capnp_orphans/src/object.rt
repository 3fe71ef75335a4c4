//! Objects that an orphanage writes.
ghost use Rattle.std.specs.Prelude.{◌≡◌, ℕ, Bool, IsTrue, ◌+◌, ◌/◌, ◌%◌, ◌^◌, ◌<◌, List, ◌++◌, length, replicate, Ok, MatchResult};
ghost use Rattle.std.specs.Result.{IsErrAnd};
ghost use Rattle.capnp_frame.specs.declared.error.ErrorKind.{ErrorKind};
ghost use Rattle.capnp_layout.specs.Prelude.{words_of};

use capnp_frame::Result;

/// An object that is written after the words of a segment.
///
/// ```
/// let mut phone = StructDraft::<any_struct::Owned, 1, 1>::new();
/// phone.set_data_field::<u16>(0, 1);
/// assert_eq!(rt; phone.measure()?, 2);
/// assert!(rt; !phone.wants_zeros());
/// ```
pub trait Object {
    /// What is true of the object once it is written: of the segment's body before that and after
    /// it, and of its word as an orphan.
    ghost holds: { Self → List ℕ → List ℕ → ℕ → Type 0 };

    /// How many words it has, for contracts.
    ghost takes: { Self → ℕ → Type 0 };

    /// With which errors it can't be written.
    ghost fails: { Self → ErrorKind → Type 0 };

    /// Whether it has to be written over zeros, for contracts.
    ghost wants_zeros: { Self → Bool };

    /// How many words it has. Fails with a kind that `fails` names.
    fn measure(&self) -> Result<u32>
        ensures returned { MatchResult result (takes self.now)
            (λ error. fails self.now error.kind) }
        ensures found { (words : ℕ) → takes self.now words → result ≡ Ok words }
        ensures exact { (kind : ErrorKind) → fails self.now kind →
            IsErrAnd result (λ error. error.kind ≡ kind) };

    /// Whether it has to be written over zeros. An object that writes all its words does not.
    fn wants_zeros(&self) -> bool
        ensures { result ≡ wants_zeros self.now };

    /// Writes it over a block of exactly its words, which begins at this word of the segment.
    /// Returns its word as an orphan.
    fn write(&self, start: u32, block: &mut [u8]) -> u64
        requires whole { length block.old % 8 ≡ 0 }
        requires takes { takes self.now (length block.old / 8) }
        requires zero { IsTrue (wants_zeros self.now) → block.old ≡ replicate (length block.old) 0 }
        requires few { start + length block.old / 8 < 2 ^ 29 }
        ensures { (body : List ℕ) → start ≡ 1 + length body →
            holds self.now body (body ++ words_of block.new) result };
}
