//! Drafts of structs that are read, to be changed and written again.
ghost use Rattle.std.specs.Prelude.{◌≡◌, length, replicate, slice_index, IfOk};
ghost use Rattle.capnp_wire.specs.Prelude.{struct_of, pointer_of, pointer_in};
ghost use Rattle.capnp_orphans.specs.Copied.{data_up_to, CopiesPointers};

use crate::draft::StructDraft;
use crate::orphanage::Orphanage;
use crate::segment::GrowingSegment;
use capnp_frame::Result;
use capnp_frame::message::ReaderSegments;
use capnp_wire::any_pointer;
use capnp_wire::any_struct::StructReader;

impl<T, const D: usize, const P: usize> StructDraft<T, D, P> {
    /// A struct with the data words of a struct that is read, and with null pointers. The words are
    /// cut to as many as the draft has, or filled up with zeros, as a reader of the type reads them
    /// (encoding document, "Structs").
    pub fn from_data_section<R: ReaderSegments>(
        fields: &StructReader<'_, R>,
    ) -> StructDraft<T, D, P>
        ensures words { result.words ≡ data_up_to (struct_of R.segments fields.now) D }
        ensures pointers { result.pointers ≡ replicate P 0 }
    {
        let mut words = [0; D];
        copy_words(fields, &mut words);
        StructDraft::of_words(words, [0; P])
    }

    /// A struct with the data words of a struct that is read, and with copies of what its pointers
    /// point to, each written as `Orphanage::set` of that pointer writes it. Pointers that the
    /// draft has no room for are left out; pointers past the last one that is read are null.
    ///
    /// Fails as `Orphanage::set` does for the first pointer that can't be copied. What was copied
    /// before it stays in the segment, and no pointer points to that.
    pub fn from_reader<R: ReaderSegments, S: GrowingSegment>(
        fields: &StructReader<'_, R>,
        objects: &mut Orphanage<S>,
    ) -> Result<StructDraft<T, D, P>>
        ensures words { IfOk result (λ draft.
            draft.words ≡ data_up_to (struct_of R.segments fields.now) D) }
        ensures copies { CopiesPointers (struct_of R.segments fields.now) P objects.old objects.new
            (λ draft. draft.pointers) result }
    {
        let mut pointers = [0; P];
        copy_pointers(fields, objects, &mut pointers)?;
        let mut words = [0; D];
        copy_words(fields, &mut words);
        Ok(StructDraft::of_words(words, pointers))
    }
}

// Copies data words.
fn copy_words<R: ReaderSegments>(fields: &StructReader<'_, R>, words: &mut [u64])
    ensures { words.new ≡ data_up_to (struct_of R.segments fields.now) (length words.old) }
{
    for index in 0..words.len() {
        words[index] = word_at(fields, index);
    }
}

// A data word; 0 past the last one.
fn word_at<R: ReaderSegments>(fields: &StructReader<'_, R>, index: usize) -> u64
    ensures { result ≡ slice_index (struct_of R.segments fields.now).words index }
{
    if index < fields.data_words() as usize {
        fields.get_word(index as u16)
    } else {
        0
    }
}

// Copies what pointers point to, in order.
fn copy_pointers<R: ReaderSegments, S: GrowingSegment>(
    fields: &StructReader<'_, R>,
    objects: &mut Orphanage<S>,
    pointers: &mut [u64],
) -> Result<()>
    ensures { CopiesPointers (struct_of R.segments fields.now) (length pointers.old)
        objects.old objects.new (λ unit. pointers.new) result }
{
    for index in 0..pointers.len() {
        let pointer = pointer_at(fields, index);
        let copy = objects.set::<any_pointer::Owned, any_pointer::Reader<'_, R>>(&pointer)?;
        pointers[index] = copy.word;
    }
    Ok(())
}

// A pointer; null past the last one.
fn pointer_at<'a, R: ReaderSegments>(
    fields: &StructReader<'a, R>,
    index: usize,
) -> any_pointer::Reader<'a, R>
    ensures { pointer_of R.segments result ≡ pointer_in (struct_of R.segments fields.now) index }
{
    if index < fields.pointers() as usize {
        fields.get_pointer(index as u16)
    } else {
        fields.get_pointer(u16::MAX)
    }
}
