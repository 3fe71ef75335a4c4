//! Roots that are set to what another message holds, and messages that are written right after.
ghost use Rattle.std.specs.Prelude.{◌≡◌, ◌⊎◌, ◌<◌, ◌∷◌, [], ℕ, List, length, slice_set, false, true, OnOk, IfOk, IfErr};
ghost use Rattle.capnp_wire.specs.Prelude.{Form, Trees, none, tree, struct, Root, canon, pointer_of, StructFormError, HasWords, PointsToTree, WalkErrorFrom};
ghost use Rattle.capnp_build.specs.Prelude.{message, IsSet, SetsRoot, SetsRootCanonical, IsPut};
ghost use Rattle.capnp.specs.Prelude.{IsFrameEncoding, output_of};
ghost use Rattle.capnp_uses.specs.Roots.{IsSetWithWord, StaysUnset, StaysUnwritten, StaysWithoutForm};

use capnp::any_struct::{self, StructBuilder};
use capnp::message::{Allocator, Builder, ReaderSegments};
use capnp::traits::SetterInput;
use capnp::{Result, any_pointer, serialize};
use std::alloc::Global;

/// Sets the root to what a pointer of another message points to, for example a struct with
/// pointers.
pub fn set_tree<A: Allocator, S: ReaderSegments>(
    built: &mut Builder<A>,
    source: any_pointer::Reader<'_, S>,
) -> Result<()>
    ensures set { (form : Form) (children : Trees) →
        PointsToTree (pointer_of S.segments source.entry) (tree form children none) →
        OnOk result ((traversed : ℕ) × Root (message built.new.spaces) form children traversed) }
    ensures root { let pointer = pointer_of S.segments source.entry in
        SetsRoot A.Allocator (PointsToTree pointer) (WalkErrorFrom pointer)
        built.old built.new result }
{
    built.set_root::<any_pointer::Owned, any_pointer::Reader<'_, S>>(source)
}

/// Sets the root as `set_tree` does, and then its first data word, where the struct has one. What
/// its pointers point to stays.
pub fn set_tree_and_word<A: Allocator, S: ReaderSegments>(
    built: &mut Builder<A>,
    source: any_pointer::Reader<'_, S>,
    word: u64,
) -> Result<()>
    ensures set { (words : List ℕ) (children : Trees) → 0 < length words →
        PointsToTree (pointer_of S.segments source.entry) (tree (struct words) children none) →
        OnOk result ((traversed : ℕ)
        × Root (message built.new.spaces) (struct (slice_set words 0 word)) children traversed) }
    // Where it succeeds, the pointer points to a struct, or is null, and then the root is null.
    ensures is_set { OnOk result (IsSetWithWord (PointsToTree (pointer_of S.segments source.entry))
        word built.new.spaces) }
    // It fails as setting the root does, and then the root is null, or where what is set is no
    // struct.
    ensures errors { let pointer = pointer_of S.segments source.entry in IfErr result (λ error.
        StaysUnset A.Allocator (PointsToTree pointer) (WalkErrorFrom pointer)
        built.old built.new error.kind
        ⊎ ((form : Form) × (children : Trees) × PointsToTree pointer (tree form children none)
        × StructFormError form error.kind)) }
{
    set_tree(built, source)?;
    let mut fields: StructBuilder<'_, Builder<A>> = built.get_root::<any_struct::Owned>()?;
    if fields.data_words() > 0 {
        fields.set_word(0, word);
    }
    Ok(())
}

/// Makes a message of no segments the canonical form of what a pointer of another one points to.
pub fn set_canonical<A: Allocator, S: ReaderSegments>(
    built: &mut Builder<A>,
    source: any_pointer::Reader<'_, S>,
) -> Result<()>
    requires { built.old.spaces ≡ [] }
    ensures set { (trees : Trees) → PointsToTree (pointer_of S.segments source.entry) trees →
        OnOk result (message built.new.spaces ≡ canon trees ∷ []) }
    ensures root { let pointer = pointer_of S.segments source.entry in
        SetsRootCanonical A.Allocator (PointsToTree pointer) (WalkErrorFrom pointer)
        built.old built.new result }
{
    built.set_root_canonical::<any_pointer::Owned, any_pointer::Reader<'_, S>>(source)
}

/// Sets the root to a value, and writes the message right after: it has a segment.
pub fn set_and_write<T, V: SetterInput<T> + Drop, A: Allocator>(
    alloc: Global,
    built: &mut Builder<A>,
    value: V,
) -> Result<Vec<u8>>
    ensures set { OnOk result (IsSet (V.has_tree value) false built.new.spaces) }
    ensures placed { OnOk result
        (IsPut A.Allocator (HasWords (V.has_tree value) false) built.old built.new) }
    ensures written { IfOk result (λ encoding. IsFrameEncoding (output_of built.new) encoding.items) }
    // The root is null, or the value.
    ensures errors { IfErr result (λ error.
        StaysUnset A.Allocator (V.has_tree value) (V.fails value) built.old built.new error.kind
        ⊎ StaysUnwritten A.Allocator (V.has_tree value) false built.old built.new error.kind) }
{
    built.set_root::<T, V>(value)?;
    let mut encoding = Vec::new(alloc);
    serialize::write_message(alloc, &mut encoding, built)?;
    Ok(encoding)
}

/// Sets the root to the canonical form of a value, and writes the message right after.
pub fn set_canonical_and_write<T, V: SetterInput<T> + Drop, A: Allocator>(
    alloc: Global,
    built: &mut Builder<A>,
    value: V,
) -> Result<Vec<u8>>
    ensures set { OnOk result (IsSet (V.has_tree value) true built.new.spaces) }
    ensures placed { OnOk result
        (IsPut A.Allocator (HasWords (V.has_tree value) true) built.old built.new) }
    ensures written { IfOk result (λ encoding. IsFrameEncoding (output_of built.new) encoding.items) }
    // The root is null, or the value.
    ensures errors { IfErr result (λ error.
        StaysWithoutForm A.Allocator (V.has_tree value) (V.fails value)
        built.old built.new error.kind
        ⊎ StaysUnwritten A.Allocator (V.has_tree value) true built.old built.new error.kind) }
{
    built.set_root_canonical::<T, V>(value)?;
    let mut encoding = Vec::new(alloc);
    serialize::write_message(alloc, &mut encoding, built)?;
    Ok(encoding)
}
