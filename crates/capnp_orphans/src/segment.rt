//! Segments that grow at the end.
ghost use Rattle.std.specs.Prelude.{◌≡◌, ◌+◌, ◌*◌, ◌/◌, ◌%◌, ◌^◌, ◌<◌, ◌≤◌, IsTrue, length, take, drop, replicate, ◌∷◌, Ok, MatchOption};
ghost use Rattle.capnp_layout.specs.Prelude.{words_of};
ghost use Rattle.capnp_orphans.specs.Segments.{Segment, IsSegment, AppendsObject, PutsRoot, IsWrittenOver, with_root_alone};

use crate::object::Object;
use capnp_frame::Result;
use capnp_layout::pointer_word::put_word;

/// The bytes of a segment, to which objects are appended. None of its words except the root's
/// changes.
///
/// ```
/// fn greet<S: GrowingSegment>(objects: &mut Orphanage<S>) -> capnp::Result<()> {
///     let greeting = objects.text("Hello, World!")?;
///     objects.set_root(greeting);
///     Ok(())
/// }
/// ```
pub trait GrowingSegment: Drop {
    /// The segment that contracts see.
    ghost state: { Self → Segment };

    /// The bytes.
    fn bytes(&self) -> &[u8]
        ensures { result.now ≡ (state self.now).bytes };

    /// Writes an object of this many words after the bytes, and returns its word as an orphan.
    ///
    /// Fails where there is no room: on the heap with `OutOfMemory`, in a region with
    /// `AllocationTooLarge` of these words. Then nothing is changed.
    fn append<O: Object>(&mut self, object: &O, words: u32) -> Result<u64>
        requires segment { IsSegment (state self.old) }
        requires takes { O.takes object.now words }
        requires few { length (state self.old).bytes / 8 + words < 2 ^ 29 }
        ensures { AppendsObject (O.holds object.now) words (state self.old) (state self.new)
            result };

    /// Writes an object as `append` does, where the memory needs no preparation for it. Returns
    /// `None` and writes nothing where it does.
    fn append_within<O: Object>(&mut self, object: &O, words: u32) -> Option<u64>
        requires segment { IsSegment (state self.old) }
        requires takes { O.takes object.now words }
        ensures { MatchOption result (state self.new ≡ state self.old)
            (λ word. (length (state self.old).bytes / 8 + words < 2 ^ 29)
            × AppendsObject (O.holds object.now) words (state self.old) (state self.new)
            (Ok word)) };

    /// Sets the root's word.
    fn set_root_word(&mut self, word: u64)
        requires { IsSegment (state self.old) }
        ensures { PutsRoot word (state self.old) (state self.new) };

    /// Discards all words but the root's, which is made zero.
    fn clear(&mut self)
        requires { IsSegment (state self.old) }
        ensures { state self.new ≡ with_root_alone (state self.old) };
}

/// Writes an object over the bytes of a segment from this one on, whatever they are. Returns its
/// word as an orphan.
#[inline(always)]
pub(crate) fn write_over<O: Object>(bytes: &mut [u8], from: usize, words: u32, object: &O) -> u64
    requires within { from + 8 * words ≤ length bytes.old }
    requires from { from % 8 ≡ 0 }
    requires few { from / 8 + words < 2 ^ 29 }
    requires takes { O.takes object.now words }
    ensures { IsWrittenOver from words (O.holds object.now) result bytes.old bytes.new }
{
    let added = 8 * words as usize;
    prepare(bytes, from, added, object.wants_zeros());
    object.write((from / 8) as u32, &mut bytes[from..from + added])
}

// Makes `added` bytes zero, from the byte `from` on, if `zeros` says so.
//
// Speed: up to 64 bytes are made zero by stores of a constant size. So a short object needs no call
// whose branches depend on the size (`tools/time building built`, `texts`).
#[inline(always)]
fn prepare(bytes: &mut [u8], from: usize, added: usize, zeros: bool)
    requires { from + added ≤ length bytes.old }
    ensures front { take from bytes.new ≡ take from bytes.old }
    ensures zero { IsTrue zeros → take added (drop from bytes.new) ≡ replicate added 0 }
    ensures len { length bytes.new ≡ length bytes.old }
{
    if !zeros {
        return;
    }
    if added <= 64 && bytes.len() - from >= 64 {
        bytes[from..from + 64].fill(0);
        return;
    }
    bytes[from..from + added].fill(0);
}

/// Puts a word at the start of a segment.
#[inline(always)]
fn put_root(bytes: &mut [u8], word: u64)
    requires { 8 ≤ length bytes.old }
    ensures words { words_of bytes.new ≡ word ∷ drop 1 (words_of bytes.old) }
    ensures len { length bytes.new ≡ length bytes.old }
{
    put_word(bytes, 0, word);
}

/// Puts a word at the start of a segment, which is the first `used` of these bytes.
#[inline(always)]
pub(crate) fn put_first(bytes: &mut [u8], used: usize, word: u64)
    requires rooted { 8 ≤ used }
    requires within { used ≤ length bytes.old }
    ensures words { words_of (take used bytes.new)
        ≡ word ∷ drop 1 (words_of (take used bytes.old)) }
    ensures len { length bytes.new ≡ length bytes.old }
{
    put_root(&mut bytes[..used], word);
}

/// Makes the first word zero.
#[inline(always)]
pub(crate) fn zero_first(bytes: &mut [u8])
    requires { 8 ≤ length bytes.old }
    ensures zero { take 8 bytes.new ≡ replicate 8 0 }
    ensures len { length bytes.new ≡ length bytes.old }
{
    bytes[..8].fill(0);
}
