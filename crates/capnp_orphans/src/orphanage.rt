//! The segment in which objects are written.
ghost use Rattle.std.specs.Prelude.{◌≡◌, ◌<◌, None, Some, length, map, replicate, MatchResult, false};
ghost use Rattle.capnp_frame.specs.declared.error.ErrorKind.TheVariants.{OutOfMemory, AllocationTooLarge};
ghost use Rattle.capnp_wire.specs.Prelude.{HasWords, WordsError, IsTextTree, LongText, IsBytes, ManyBytes};
ghost use Rattle.capnp_values.specs.NumberLists.{IsNumberList, ManyNumbers};
ghost use Rattle.capnp_orphans.specs.Segments.{body_of, with_root_alone};
ghost use Rattle.capnp_orphans.specs.Holds.{word_of, HoldsValue, HoldsStruct, HoldsPointers, HoldsStructs, TakesStructWords, StructSizeError, TakesPointersWords, ManyPointers, TakesStructsWords, ManyStructs};
ghost use Rattle.capnp_orphans.specs.Adding.{AddsOrphan, Writes, FailsToAdd, SetsRootOrphan, AddsRoot};

mod built;

use crate::draft::StructDraft;
use crate::draft_source::DraftSource;
use crate::heap::Heap;
use crate::object::Object;
use crate::orphan::Orphan;
use crate::pointer_list::PointerList;
use crate::region::Region;
use crate::segment::GrowingSegment;
use crate::struct_list::StructList;
use crate::text_object::TextObject;
use crate::value::Value;
use capnp_frame::{Error, ErrorKind, Result};
use capnp_layout::limits::MAX_SEGMENT_WORDS;
use capnp_layout::pointer_word::link;
use capnp_values::NumberList;
use capnp_wire::primitive_element::PrimitiveElement;
use capnp_wire::traits::SetterInput;
use capnp_wire::{data, list_list, primitive_list, struct_list, text};
use std::alloc::Global;
use std::marker::Model;

/// A message of one segment, whose objects are written one after the other, each once. Its first
/// word is the root, which is null until it is set. An orphanage is the whole message here; in the
/// C++ library `Orphanage` allocates in a message that its `MessageBuilder` holds.
///
/// A call that writes an object returns its orphan, or fails and changes nothing. All orphans keep
/// their trees, whatever is written later.
///
/// A segment has fewer than 2^29 words, so it needs no far pointer. A call whose object does not
/// fit into the segment, or into the region, fails with `AllocationTooLarge` of the object's words.
/// On the heap a call fails with `OutOfMemory` where the memory has no room and can't grow.
///
/// The message is read in place, and written framed or packed by `write_message`, which takes the
/// orphanage itself. Once cleared, an orphanage serves for the next message, and no call runs out
/// of memory as long as the memory that it has is enough.
///
/// ```
/// let mut objects = Orphanage::new(alloc)?;
/// let name = objects.text("Alice")?;
/// let mut person = StructDraft::<any_struct::Owned, 1, 2>::new();
/// person.set_data_field::<u32>(0, 123);
/// person.adopt(0, name);
/// objects.add_root(&person)?;
/// let message = Reader::new(&objects, DEFAULT_READER_OPTIONS);
/// serialize::write_message(alloc, &mut stream, &objects)?;
/// ```
#[derive(Drop)]
pub struct Orphanage<S: GrowingSegment = Heap> {
    segment: S,
}

// Clauses see the state of the segment.
impl<S: GrowingSegment> Model for Orphanage<S> {
    ghost use Rattle.capnp_orphans.specs.Segments.{Segment, IsSegment};

    ghost Value = { Segment };

    ghost view = { λ objects. S.state objects.segment };

    ghost invariant = { λ objects. IsSegment (S.state objects.segment) };
}

impl Orphanage<Heap> {
    /// An orphanage on the heap. The root is null. Fails with `OutOfMemory` alone.
    pub fn new(alloc: Global) -> Result<Orphanage<Heap>>
        ensures { MatchResult result
            (λ objects. (objects.bytes ≡ replicate 8 0) × (objects.most ≡ None))
            (λ error. error.kind ≡ OutOfMemory) }
    {
        let segment = Heap::new(alloc)?;
        Ok(Orphanage { segment })
    }
}

impl<'a> Orphanage<Region<'a>> {
    /// An orphanage in a caller-provided region, which takes no memory. The root is null. Fails
    /// with `AllocationTooLarge(1)` exactly where the region has fewer than 8 bytes.
    ///
    /// ```
    /// let mut region = [0; 64];
    /// let mut objects = Orphanage::in_region(&mut region)?;
    /// let names = [objects.text("Alice")?, Orphan::null()];
    /// let list = objects.pointer_list(&names)?;
    /// objects.set_root(list);
    /// ```
    pub fn in_region(region: &'a mut [u8]) -> Result<Orphanage<Region<'a>>>
        ensures { MatchResult result
            (λ objects. (objects.bytes ≡ replicate 8 0) × (objects.most ≡ Some (length region.old))
            × (objects.capacity ≡ length region.old))
            (λ error. (length region.old < 8) × (error.kind ≡ AllocationTooLarge 1)) }
    {
        let segment = Region::new(region)?;
        Ok(Orphanage { segment })
    }
}

impl<S: GrowingSegment> Orphanage<S> {
    /// Discards all objects, and keeps the memory. The root is then null, and each orphan that was
    /// made before is like one of another orphanage.
    pub fn clear(&mut self)
        ensures { self.new ≡ with_root_alone self.old }
    {
        self.segment.clear();
    }

    /// The bytes of the segment.
    pub fn bytes(&self) -> &[u8]
        ensures { result.now ≡ self.now.bytes }
    {
        self.segment.bytes()
    }

    // Writes an object.
    //
    // Speed: where the memory needs no preparation the call can't fail, so no result is returned
    // through memory (`tools/time building built`, `table`).
    #[inline(always)]
    pub(crate) fn write<T, O: Object>(&mut self, object: &O) -> Result<Orphan<T>>
        ensures adds { AddsOrphan (O.holds object.now (body_of self.old)) self.old self.new
            word_of result }
        ensures writes { Writes (O.takes object.now) (O.fails object.now) self.old self.new
            result }
    {
        let words = object.measure()?;
        if let Some(word) = self.segment.append_within(object, words) {
            return Ok(Orphan::of_word(word));
        }
        self.write_anew(object)
    }

    // Writes an object where the memory may need preparation for it.
    #[cold]
    #[inline(never)]
    fn write_anew<T, O: Object>(&mut self, object: &O) -> Result<Orphan<T>>
        ensures adds { AddsOrphan (O.holds object.now (body_of self.old)) self.old self.new
            word_of result }
        ensures writes { Writes (O.takes object.now) (O.fails object.now) self.old self.new
            result }
    {
        let words = object.measure()?;
        let used = (self.segment.bytes().len() / 8) as u32;
        if words >= MAX_SEGMENT_WORDS - used {
            return Err(Error::from_kind(ErrorKind::AllocationTooLarge(words)));
        }
        let word = self.segment.append(object, words)?;
        Ok(Orphan::of_word(word))
    }

    /// Adds an orphan: the object of a value that a pointer can be set to. The value is composed
    /// (`capnp_values`), or it is what a view of another message shows: a text, data, a struct, a
    /// list of any kind. An `any_pointer::Reader` stands for whatever a pointer of that message
    /// points to, which is copied untrimmed.
    ///
    /// This is `newOrphanCopy` of the C++ library, where `set` sets a field of a builder.
    ///
    /// Fails for 2^29 words or more with `AllocationTooLarge` of the value's words, at most
    /// 2^32 - 1; as the view does for what can't be read; and without room as `Orphanage` says.
    #[inline(always)]
    pub fn set<T, V: SetterInput<T>>(&mut self, value: &V) -> Result<Orphan<T>>
        ensures adds { AddsOrphan (HoldsValue (V.has_tree value.now)) self.old self.new word_of result }
        ensures writes { Writes (HasWords (V.has_tree value.now) false)
            (WordsError (V.has_tree value.now) (V.fails value.now) false) self.old self.new
            result }
    {
        self.write(&Value::<T, V>::new(value))
    }

    /// Writes a `Text`, with a zero byte at its end ("Blobs").
    ///
    /// Fails for 2^29 - 1 bytes or more with `AllocationTooLarge` of its words, at most 2^32 - 1,
    /// and without room as `Orphanage` says.
    #[inline(always)]
    pub fn text(&mut self, text: &str) -> Result<Orphan<text::Owned>>
        ensures adds { AddsOrphan (HoldsValue (IsTextTree text.now)) self.old self.new word_of result }
        ensures writes { Writes (HasWords (IsTextTree text.now) false)
            (WordsError (IsTextTree text.now) (LongText text.now) false) self.old self.new result }
    {
        self.write(&TextObject::new(text))
    }

    /// Writes a `Data` ("Blobs").
    ///
    /// Fails for 2^29 bytes or more with `AllocationTooLarge` of their words, at most 2^32 - 1,
    /// and without room as `Orphanage` says.
    pub fn data(&mut self, bytes: &[u8]) -> Result<Orphan<data::Owned>>
        ensures adds { AddsOrphan (HoldsValue (IsBytes bytes.now)) self.old self.new word_of result }
        ensures writes { Writes (HasWords (IsBytes bytes.now) false)
            (WordsError (IsBytes bytes.now) (ManyBytes bytes.now) false) self.old self.new result }
    {
        self.set::<data::Owned, &[u8]>(&bytes)
    }

    /// Writes a list of numbers of any width, or of bools ("Lists").
    ///
    /// Fails for 2^29 numbers or more with `AllocationTooLarge` of their count, at most 2^32 - 1,
    /// and without room as `Orphanage` says.
    pub fn numbers<N: PrimitiveElement + Copy>(
        &mut self,
        items: &[N],
    ) -> Result<Orphan<primitive_list::Owned<N>>>
        ensures adds { AddsOrphan (HoldsValue (IsNumberList N.code (map N.bits_of items.now)))
            self.old self.new word_of result }
        ensures writes { Writes (HasWords (IsNumberList N.code (map N.bits_of items.now)) false)
            (WordsError (IsNumberList N.code (map N.bits_of items.now))
            (ManyNumbers (length items.now)) false) self.old self.new result }
    {
        let list = NumberList::new(items);
        self.set::<primitive_list::Owned<N>, NumberList<'_, N>>(&list)
    }

    /// Adds an orphan: the struct of this draft ("Structs"). The pointer to an orphan of another
    /// orphanage is written, too.
    ///
    /// Fails for 2^16 or more data words or pointers with `AllocationTooLarge(65536)`, and without
    /// room as `Orphanage` says.
    pub fn add<T, const D: usize, const P: usize>(
        &mut self,
        draft: &StructDraft<T, D, P>,
    ) -> Result<Orphan<T>>
        ensures adds { AddsOrphan (HoldsStruct (body_of self.old) draft.now.words draft.now.pointers)
            self.old self.new word_of result }
        ensures writes { Writes (TakesStructWords D P) (StructSizeError D P) self.old self.new result }
    {
        // Speed: as in `write`. The other calls get a copy of the draft, so that the draft itself
        // need not be in memory (`tools/time building built`, `tree`).
        let words = draft.measure()?;
        if let Some(word) = self.segment.append_within(draft, words) {
            return Ok(Orphan::of_word(word));
        }
        self.write_anew(&StructDraft::<T, D, P>::of_words(draft.words, draft.pointers))
    }

    /// Writes a list of pointers to these orphans ("Lists"): a list of texts, of data, of lists, or
    /// of structs that are written one by one.
    ///
    /// Fails for 2^29 orphans or more with `AllocationTooLarge` of their count, at most 2^32 - 1,
    /// and without room as `Orphanage` says.
    pub fn pointer_list<T>(&mut self, items: &[Orphan<T>]) -> Result<Orphan<list_list::Owned<T>>>
        ensures adds { AddsOrphan (HoldsPointers (body_of self.old) (map word_of items.now))
            self.old self.new word_of result }
        ensures writes { Writes (TakesPointersWords (length items.now)) (ManyPointers (length items.now))
            self.old self.new result }
    {
        self.write(&PointerList::new(items))
    }

    /// Writes a list of structs, one after the other ("Lists").
    ///
    /// Fails with `AllocationTooLarge(65536)` as `add` does. Fails for 2^29 structs or more with
    /// `AllocationTooLarge` of their count, and for 2^29 words or more of the list, with its tag,
    /// with `AllocationTooLarge` of these; at most of 2^32 - 1. Without room it fails as
    /// `Orphanage` says.
    pub fn struct_list<T, const D: usize, const P: usize>(
        &mut self,
        items: &[StructDraft<T, D, P>],
    ) -> Result<Orphan<struct_list::Owned>>
        ensures adds { AddsOrphan (HoldsStructs (body_of self.old) items.now) self.old self.new
            word_of result }
        ensures writes { Writes (TakesStructsWords D P (length items.now))
            (ManyStructs D P (length items.now)) self.old self.new result }
    {
        self.lazy_struct_list::<T, D, P, &[StructDraft<T, D, P>]>(&items)
    }

    /// Writes a list of structs that a source makes, one by one. Fails as `struct_list` does.
    pub fn lazy_struct_list<T, const D: usize, const P: usize, M: DraftSource<T, D, P>>(
        &mut self,
        source: &M,
    ) -> Result<Orphan<struct_list::Owned>>
        ensures adds { AddsOrphan (HoldsStructs (body_of self.old) (M.drafts source.now))
            self.old self.new word_of result }
        ensures writes { Writes (TakesStructsWords D P (length (M.drafts source.now)))
            (ManyStructs D P (length (M.drafts source.now))) self.old self.new result }
    {
        self.write(&StructList::<T, D, P, M>::new(source))
    }

    /// Makes the root point to an orphan, or null.
    pub fn set_root<T>(&mut self, root: Orphan<T>)
        ensures { SetsRootOrphan root.word self.old self.new }
    {
        self.segment.set_root_word(link(root.word, 0));
    }

    /// Adds a struct and makes it the root. Fails as `add` does, and the root then stays the same.
    pub fn add_root<T, const D: usize, const P: usize>(
        &mut self,
        draft: &StructDraft<T, D, P>,
    ) -> Result<()>
        ensures adds { AddsRoot (TakesStructWords D P)
            (HoldsStruct (body_of self.old) draft.now.words draft.now.pointers) self.old self.new
            result }
        ensures fails { FailsToAdd (TakesStructWords D P) (StructSizeError D P) self.old result }
    {
        let root = self.add(draft)?;
        self.set_root(root);
        Ok(())
    }
}
