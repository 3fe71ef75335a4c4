//! A caller that builds a tree whose depth is known at run time.
ghost use Rattle.std.specs.Prelude.{◌≡◌, ◌∷◌, [], ℕ, IfOk};
ghost use Rattle.capnp_layout.specs.Prelude.{none, message_of, At, root, word_numbers, canon};
ghost use Rattle.capnp_orphans.specs.Adding.{AddsOrphan};
ghost use Rattle.capnp_orphans.specs.Holds.{HoldsStruct, HoldsValue, word_of};
ghost use Rattle.capnp_orphans.specs.Segments.{body_of};
ghost use Rattle.capnp_orphan_tests.specs.Uses.{binary, IsBinary, IsTextList, node_words};

use capnp::message::{Reader, ReaderOptions};
use capnp::{any_struct, list_list, text};
use capnp_frame::{Result, Word};
use capnp_orphans::laws::null_is_an_orphan;
use capnp_orphans::{Orphan, Orphanage, StructDraft};
use std::alloc::Global;

/// A node of a number and of two others, as the schema compiler would write it.
pub fn node(
    objects: &mut Orphanage,
    number: u64,
    left: Orphan<any_struct::Owned>,
    right: Orphan<any_struct::Owned>,
) -> Result<Orphan<any_struct::Owned>>
    ensures { AddsOrphan (HoldsStruct (body_of objects.old) (node_words number)
        (left.word ∷ right.word ∷ [])) objects.old objects.new word_of result }
{
    let mut draft = StructDraft::<any_struct::Owned, 1, 2>::new();
    draft.set_data_field(0, number);
    draft.adopt(0, left);
    draft.adopt(1, right);
    objects.add(&draft)
}

/// A binary tree of a depth, each of whose nodes has the same number.
pub fn tree(objects: &mut Orphanage, depth: u32, number: u64) -> Result<Orphan<any_struct::Owned>>
    ensures { AddsOrphan (HoldsValue (IsBinary depth number)) objects.old objects.new
        word_of result }
{
    if depth == 0 {
        null_is_an_orphan();
        return node(objects, number, Orphan::null(), Orphan::null());
    }
    let left = tree(objects, depth - 1, number)?;
    let right = tree(objects, depth - 1, number)?;
    node(objects, number, left, right)
}

/// The message whose root is such a tree.
pub fn tree_message(alloc: Global, depth: u32, number: u64) -> Result<Orphanage>
    ensures { IfOk result (λ message. (traversed : ℕ)
        × At (message_of (message.bytes ∷ [])) (root ∷ []) (binary depth number none) traversed) }
{
    let mut objects = Orphanage::new(alloc)?;
    let root = tree(&mut objects, depth, number)?;
    objects.set_root(root);
    Ok(objects)
}

/// The canonical form of such a tree.
pub fn canonical_tree(alloc: Global, depth: u32, number: u64) -> Result<Vec<Word>>
    ensures { IfOk result (λ words. word_numbers words.items ≡ canon (binary depth number none)) }
{
    let objects = tree_message(alloc, depth, number)?;
    let options = ReaderOptions {
        traversal_limit_in_words: None,
        nesting_limit: i32::MAX,
    };
    let message = Reader::new(objects, options);
    message.canonicalize(alloc)
}

/// A list of these texts.
pub fn list_of_texts(
    alloc: Global,
    objects: &mut Orphanage,
    texts: &[&str],
) -> Result<Orphan<list_list::Owned<text::Owned>>>
    ensures { AddsOrphan (HoldsValue (IsTextList texts.now)) objects.old objects.new word_of result }
{
    let mut items = Vec::new(alloc);
    'items: for index in 0..texts.len() {
        items.push(objects.text(texts[index])?)?;
    }
    objects.pointer_list(items.as_slice())
}
