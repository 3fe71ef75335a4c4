//! The bytes of segments.
ghost use Rattle.std.specs.Prelude.{◌≡◌, ℕ, ◌+◌, ◌-◌, ◌/◌, ◌%◌, ◌≤◌, Bool, true, false, List, length, replicate, take, drop};
ghost use Rattle.capnp_wire.specs.Prelude.{HasWords};
ghost use Rattle.capnp_build.specs.Bytes.{IsOverwritten};
ghost use Rattle.capnp_build.specs.Filled.{IsFilled};

use capnp_frame::Word;
use capnp_layout::pointer_word::word_of;
use capnp_wire::traits::SetterInput;

/// The bytes of a segment. Their number, and whether they are caller-provided, never change.
///
/// ```
/// let mut segment = vec![in alloc; 0u8; 8]?;
/// segment.write_at(2, &[3, 4]);
/// assert_eq!(rt; segment.bytes(), [0, 0, 3, 4, 0, 0, 0, 0].as_slice());
/// segment.zero(2, 4);
/// assert_eq!(rt; segment.bytes(), [0; 8].as_slice());
/// ```
pub trait SegmentSpace: Drop {
    /// The bytes.
    ghost content: { Self → List ℕ };

    /// Whether they are a region that the caller of an allocator provided.
    ghost is_provided: { Self → Bool };

    /// The bytes, to read.
    fn bytes(&self) -> &[u8]
        ensures { result.now ≡ content self.now };

    /// Replaces bytes, from this index on.
    fn write_at(&mut self, at: usize, bytes: &[u8])
        requires { at + length bytes.now ≤ length (content self.old) }
        ensures { IsOverwritten content is_provided at bytes.now self.old self.new };

    /// Makes the bytes at the indexes `from..to` zero.
    fn zero(&mut self, from: usize, to: usize)
        requires order { from ≤ to }
        requires within { to ≤ length (content self.old) }
        ensures { IsOverwritten content is_provided from (replicate (to - from) 0) self.old self.new };

    /// Writes a value into the bytes at the indexes `from..to`, which are zero and exactly its
    /// words. Returns the pointer to it, as the word that belongs just before them.
    fn write_value<T, V: SetterInput<T>>(
        &mut self,
        from: usize,
        to: usize,
        canonical: bool,
        value: &V,
    ) -> Word
        requires order { from ≤ to }
        requires within { to ≤ length (content self.old) }
        requires whole { (to - from) % 8 ≡ 0 }
        requires zero { take (to - from) (drop from (content self.old)) ≡ replicate (to - from) 0 }
        requires words { HasWords (V.has_tree value.now) canonical ((to - from) / 8) }
        ensures filled { IsFilled (V.has_tree value.now) canonical result from (to - from)
            (content self.old) (content self.new) }
        ensures provided { is_provided self.new ≡ is_provided self.old };
}

impl SegmentSpace for Vec<u8> {
    ghost content = { λ vector. vector.items };

    ghost is_provided = { λ vector. false };

    fn bytes(&self) -> &[u8] {
        self.as_slice()
    }

    fn write_at(&mut self, at: usize, bytes: &[u8]) {
        self[at..at + bytes.len()].copy_from_slice(bytes);
    }

    fn zero(&mut self, from: usize, to: usize) {
        self[from..to].fill(0);
    }

    fn write_value<T, V: SetterInput<T>>(
        &mut self,
        from: usize,
        to: usize,
        canonical: bool,
        value: &V,
    ) -> Word {
        write_into(self, from, to, canonical, value)
    }
}

impl<'a> SegmentSpace for &'a mut [u8] {
    ghost content = { λ slice. slice.now };

    ghost is_provided = { λ slice. true };

    fn bytes(&self) -> &[u8] {
        &**self
    }

    fn write_at(&mut self, at: usize, bytes: &[u8]) {
        self[at..at + bytes.len()].copy_from_slice(bytes);
    }

    fn zero(&mut self, from: usize, to: usize) {
        self[from..to].fill(0);
    }

    fn write_value<T, V: SetterInput<T>>(
        &mut self,
        from: usize,
        to: usize,
        canonical: bool,
        value: &V,
    ) -> Word {
        write_into(self, from, to, canonical, value)
    }
}

// Writes a value into a part of these bytes, which is zero and exactly its words.
fn write_into<T, V: SetterInput<T>>(
    bytes: &mut [u8],
    from: usize,
    to: usize,
    canonical: bool,
    value: &V,
) -> Word
    requires order { from ≤ to }
    requires within { to ≤ length bytes.old }
    requires whole { (to - from) % 8 ≡ 0 }
    requires zero { take (to - from) (drop from bytes.old) ≡ replicate (to - from) 0 }
    requires words { HasWords (V.has_tree value.now) canonical ((to - from) / 8) }
    ensures { IsFilled (V.has_tree value.now) canonical result from (to - from) bytes.old bytes.new }
{
    let copied = value.write(canonical, &mut bytes[from..to], 0, 0);
    word_of(copied.pointer)
}
