//! Pointer fields: the pointer sections of structs (encoding document, "Structs").
ghost use Rattle.std.specs.Prelude.{◌≡◌, ◌+◌, ◌<◌, ◌≤◌, ◌^◌, ℕ, length, min, Ok, MatchResult};
ghost use Rattle.std.specs.Result.{IsErrAnd};
ghost use Rattle.capnp_frame.specs.declared.error.ErrorKind.{ErrorKind};
ghost use Rattle.capnp_layout.specs.Prelude.{words_of, Trees, count, total_words};
ghost use Rattle.capnp_wire.specs.Prelude.{IsFreeFrom};
ghost use Rattle.capnp_values.specs.Measured.{MeasuresValue};
ghost use Rattle.capnp_values.specs.Fields.{IsSettled, HasTotal, kept_fields, CanWriteFields, AreFieldsWritten};

mod field;
mod no_fields;

use capnp_frame::Result;
use capnp_wire::traits::TreeWords;
pub use field::Field;
pub use no_fields::NoFields;

/// The pointer fields of a struct, each set to a value of its own.
///
/// ```
/// let fields: Field<text::Owned, &str, Field<text::Owned, Null, NoFields>> = Field::new(
///     "Ann",
///     Field::new(Null, NoFields),
/// );
/// ```
pub trait Fields {
    /// How many pointer fields there are.
    ghost size: { ℕ };

    /// The trees of the values, in order.
    ghost has_trees: { Self → Trees → Type 0 };

    /// With which errors the fields fail: a value has no tree, or a tree of 2^29 words or more.
    ghost fails: { Self → ErrorKind → Type 0 };

    /// The number of pointer fields. Where there are more than 2^16 it is 2^16, which is more than
    /// a struct may have.
    fn count() -> u32
        ensures { result ≡ min size (2 ^ 16) };

    /// The number of words of all that the pointers point to.
    ///
    /// Fails with a kind that `fails` names.
    fn measure(&self, canonical: bool) -> Result<TreeWords>
        requires { size < 2 ^ 16 }
        ensures { MeasuresValue (has_trees self.now) (fails self.now) canonical result };

    /// The number of words of all that the pointers point to, with each value untrimmed.
    ///
    /// Fails with a kind that `fails` names.
    fn untrimmed(&self) -> Result<u64>
        requires { size < 2 ^ 16 }
        ensures returned { MatchResult result (λ words. HasTotal (has_trees self.now) words)
            (λ error. fails self.now error.kind) }
        ensures found { (trees : Trees) → has_trees self.now trees →
            result ≡ Ok (total_words trees) }
        ensures exact { (kind : ErrorKind) → fails self.now kind →
            IsErrAnd result (λ error. error.kind ≡ kind) }
    {
        let words = self.measure(false)?;
        Ok(words.untrimmed)
    }

    /// How many pointers are kept, untrimmed or in canonical form.
    fn kept(&self, canonical: bool) -> u32
        requires { size < 2 ^ 16 }
        ensures kept { (trees : Trees) → has_trees self.now trees →
            result ≡ count (kept_fields canonical trees) }
        ensures bound { result ≤ size };

    /// Writes the first `count` pointers into a block, from the word `slot` on, and what they point
    /// to into the words from `next` on, which are zero. Returns the first word after that.
    fn write(
        &self,
        canonical: bool,
        block: &mut [u8],
        slot: usize,
        count: u32,
        next: usize,
    ) -> usize
        requires fields { CanWriteFields (has_trees self.now) canonical count next
            (length (words_of block.old)) }
        requires free { IsFreeFrom next block.old }
        requires before { slot + count ≤ next }
        ensures written { AreFieldsWritten (has_trees self.now) canonical slot count next
            (words_of block.old) (words_of block.new) result }
        ensures free { IsFreeFrom result block.new }
        ensures len { length block.new ≡ length block.old };

    /// The trees have room, and each has fewer than 2^29 words.
    ghost settled: { (fields : Self) (trees : Trees) → has_trees fields trees → IsSettled size trees };
}
