//! Messages that are built, and read once the view that wrote them is gone.
ghost use Rattle.std.specs.Prelude.{◌≡◌, ◌⊎◌, ◌+◌, ◌-◌, ◌/◌, ◌<◌, ◌^◌, ◌++◌, ◌∷◌, [], length, replicate, true, IfOk, IfErr, OnOk, OnErr};
ghost use Rattle.capnp_frame.specs.declared.error.ErrorKind.{ErrorKind};
ghost use Rattle.capnp_wire.specs.Prelude.{null, struct, numbers};
ghost use Rattle.capnp_build.specs.Prelude.{IsCleared};
ghost use Rattle.capnp_uses.specs.Roots.{HasRootForm, RootRoomError};

use capnp::any_struct::{self, StructBuilder, StructReader};
use capnp::message::{Allocator, Builder, BuilderArena};
use capnp::{Result, any_pointer, data, primitive_list, text};
use std::alloc::Global;

/// Makes a text the root.
pub fn write_text<A: Allocator>(message: &mut Builder<A>, bytes: &[u8]) -> Result<()>
    requires { length bytes.now < 2 ^ 29 }
    ensures has_root { OnOk result (HasRootForm message.new.spaces (numbers 2 (bytes.now ++ 0 ∷ []))) }
    ensures cleared { OnErr result (IsCleared A.Allocator message.old message.new) }
    ensures errors { IfErr result (λ error. ((2 ^ 29 - 2 < length bytes.now)
        × (error.kind ≡ ErrorKind.AllocationTooLarge (length bytes.now / 8 + 1)))
        ⊎ RootRoomError A.Allocator (numbers 2 (replicate (length bytes.now + 1) 0)) message.old
        error.kind) }
{
    let mut view: text::Builder<'_, Builder<A>> = message.initn_root::<text::Owned>(
        bytes.len() as u32,
    )?;
    view.write(0, bytes);
    Ok(())
}

/// Makes a text the root of a message, and reads it back.
pub fn text_is_read_back<A: Allocator>(
    alloc: Global,
    message: &mut Builder<A>,
    bytes: &[u8],
) -> Result<Vec<u8>>
    requires { length bytes.now < 2 ^ 29 }
    ensures has_root { OnOk result (HasRootForm message.new.spaces (numbers 2 (bytes.now ++ 0 ∷ []))) }
    ensures back { IfOk result (λ read. read.items ≡ bytes.now) }
    ensures errors { IfErr result (λ error. (error.kind ≡ ErrorKind.OutOfMemory)
        ⊎ ((2 ^ 29 - 2 < length bytes.now)
        × (error.kind ≡ ErrorKind.AllocationTooLarge (length bytes.now / 8 + 1)))
        ⊎ RootRoomError A.Allocator (numbers 2 (replicate (length bytes.now + 1) 0)) message.old
        error.kind) }
{
    write_text(message, bytes)?;
    let text: text::Reader<'_> = message.get_root_as_reader()?;
    Ok(text.as_bytes().to_vec(alloc)?)
}

/// Makes data the root.
pub fn write_data<A: Allocator>(message: &mut Builder<A>, bytes: &[u8]) -> Result<()>
    requires { length bytes.now < 2 ^ 29 }
    ensures has_root { OnOk result (HasRootForm message.new.spaces (numbers 2 bytes.now)) }
    ensures cleared { OnErr result (IsCleared A.Allocator message.old message.new) }
    ensures errors { IfErr result (λ error. RootRoomError A.Allocator
        (numbers 2 (replicate (length bytes.now) 0)) message.old error.kind) }
{
    let mut view: data::Builder<'_, Builder<A>> = message.initn_root::<data::Owned>(
        bytes.len() as u32,
    )?;
    view.write(0, bytes);
    Ok(())
}

/// Makes data the root of a message, and reads it back.
pub fn data_is_read_back<A: Allocator>(
    alloc: Global,
    message: &mut Builder<A>,
    bytes: &[u8],
) -> Result<Vec<u8>>
    requires { length bytes.now < 2 ^ 29 }
    ensures has_root { OnOk result (HasRootForm message.new.spaces (numbers 2 bytes.now)) }
    ensures back { IfOk result (λ read. read.items ≡ bytes.now) }
    ensures errors { IfErr result (λ error. (error.kind ≡ ErrorKind.OutOfMemory)
        ⊎ RootRoomError A.Allocator
        (numbers 2 (replicate (length bytes.now) 0)) message.old error.kind) }
{
    write_data(message, bytes)?;
    let data: data::Reader<'_> = message.get_root_as_reader()?;
    Ok(data.to_vec(alloc)?)
}

/// Makes a list of two words the root.
pub fn write_numbers<A: Allocator>(message: &mut Builder<A>, first: u64, second: u64) -> Result<()>
    ensures has_root { OnOk result (HasRootForm message.new.spaces
        (numbers 5 (first ∷ second ∷ []))) }
    ensures cleared { OnErr result (IsCleared A.Allocator message.old message.new) }
    ensures errors { IfErr result (λ error. RootRoomError A.Allocator
        (numbers 5 (0 ∷ 0 ∷ [])) message.old error.kind) }
{
    let mut view: primitive_list::Builder<'_, Builder<A>, u64> = message.initn_root::<
        primitive_list::Owned<u64>,
    >(2)?;
    view.set(0, first);
    view.set(1, second);
    Ok(())
}

/// Makes a list of two words the root of a message, and reads them back.
pub fn numbers_are_read_back<A: Allocator>(
    alloc: Global,
    message: &mut Builder<A>,
    first: u64,
    second: u64,
) -> Result<Vec<u64>>
    ensures has_root { OnOk result (HasRootForm message.new.spaces
        (numbers 5 (first ∷ second ∷ []))) }
    ensures back { IfOk result (λ read. read.items ≡ first ∷ second ∷ []) }
    ensures errors { IfErr result (λ error. (error.kind ≡ ErrorKind.OutOfMemory)
        ⊎ RootRoomError A.Allocator
        (numbers 5 (0 ∷ 0 ∷ [])) message.old error.kind) }
{
    write_numbers(message, first, second)?;
    let list: primitive_list::Reader<'_, u64> = message.get_root_as_reader()?;
    let mut numbers = Vec::new(alloc);
    for index in 0..list.len() {
        numbers.push(list.get(index))?;
    }
    Ok(numbers)
}

/// Makes a struct of two words the root.
pub fn write_struct<A: Allocator>(message: &mut Builder<A>, first: u64, second: u64) -> Result<()>
    ensures has_root { OnOk result (HasRootForm message.new.spaces (struct (first ∷ second ∷ []))) }
    ensures cleared { OnErr result (IsCleared A.Allocator message.old message.new) }
    ensures errors { IfErr result (λ error. RootRoomError A.Allocator
        (struct (0 ∷ 0 ∷ [])) message.old error.kind) }
{
    let mut view: StructBuilder<'_, Builder<A>> = message.initn_root::<any_struct::Owned>(2)?;
    view.set_word(0, first);
    view.set_word(1, second);
    Ok(())
}

/// Makes a struct of two words the root of a message, and reads its words back.
pub fn a_struct_is_read_back<A: Allocator>(
    message: &mut Builder<A>,
    first: u64,
    second: u64,
) -> Result<(u64, u64)>
    ensures has_root { OnOk result (HasRootForm message.new.spaces (struct (first ∷ second ∷ []))) }
    ensures back { IfOk result (λ read. read ≡ (first, second)) }
    ensures errors { IfErr result (λ error. RootRoomError A.Allocator
        (struct (0 ∷ 0 ∷ [])) message.old error.kind) }
{
    write_struct(message, first, second)?;
    let fields: StructReader<'_, BuilderArena<A>> = message.get_root_as_reader()?;
    Ok((fields.get_word(0), fields.get_word(1)))
}

/// Makes the root null.
pub fn write_null<A: Allocator>(message: &mut Builder<A>) -> Result<()>
    ensures has_root { OnOk result (HasRootForm message.new.spaces null) }
    ensures cleared { OnErr result (IsCleared A.Allocator message.old message.new) }
    ensures errors { IfErr result (λ error. RootRoomError A.Allocator
        null message.old error.kind) }
{
    message.init_root::<any_pointer::Owned>()?;
    Ok(())
}

/// Makes the root of a message null, and returns whether it is.
pub fn null_is_read_back<A: Allocator>(message: &mut Builder<A>) -> Result<bool>
    ensures has_root { OnOk result (HasRootForm message.new.spaces null) }
    ensures back { IfOk result (λ is_null. is_null ≡ true) }
    ensures errors { IfErr result (λ error. RootRoomError A.Allocator
        null message.old error.kind) }
{
    write_null(message)?;
    let root: any_pointer::Reader<'_, BuilderArena<A>> = message.get_root_as_reader()?;
    Ok(root.is_null())
}
