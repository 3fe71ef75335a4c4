//! The calls that stand for the root of a message that is built, whatever it points to.
use crate::building::expect_segments;
use crate::fixtures::expect;
use capnp_build::{any_pointer, any_struct, primitive_list, text};
use capnp_frame::Result;
use capnp_frame_tests::errors::allocation_error;
use capnp_message::{Builder, HeapAllocator};
use std::process::Abort;

type Message = Builder<HeapAllocator>;

// Whether the root is null, and the words of what it points to.
fn outline(message: &mut Message) -> Result<(bool, u64)> {
    let root = message.get_root::<any_pointer::Owned>()?;
    Ok((root.is_null(), root.target_size()?.word_count))
}

// Whether a text that is set is the root.
fn set_hello(message: &mut Message) -> Result<bool> {
    let mut root = message.get_root::<any_pointer::Owned>()?;
    root.set_as::<text::Owned, &str>("hello")?;
    Ok(root.get_as::<text::Owned>()?.as_bytes() == b"hello".as_slice())
}

fn list_error(message: &mut Message) -> Result<(u8, u32)> {
    let root = message.get_root::<any_pointer::Owned>()?;
    Ok(allocation_error(root.get_as::<primitive_list::Owned<u64>>()))
}

// The data words of an empty struct.
fn init_struct(message: &mut Message) -> Result<u16> {
    let root = message.get_root::<any_pointer::Owned>()?;
    Ok(root.init_as::<any_struct::Owned>()?.data_words())
}

fn struct_error(message: &mut Message) -> Result<(u8, u32)> {
    let root = message.get_root::<any_pointer::Owned>()?;
    Ok(allocation_error(root.initn_as::<any_struct::Owned>(65536)))
}

// The calls that stand for the root, one after the other. A view that fails leaves what is there,
// and a new object that fails leaves null.
#[test]
fn root_as_any_pointer(rt: HostRuntime) -> Result<()> {
    expect_roots(&rt, &mut Builder::new_default(rt.alloc()))
}

fn expect_roots(rt: &impl Abort, message: &mut Message) -> Result<()> {
    assert!(rt; set_hello(message)?);
    expect(rt, "no list", list_error(message)?, (22, 0));
    expect(rt, "the text", outline(message)?, (false, 1));
    expect(rt, "an empty struct", init_struct(message)?, 0);
    expect(rt, "a struct", struct_error(message)?, (15, 65536));
    expect(rt, "null", outline(message)?, (true, 0));
    Ok(())
}

// A list of three words, with 9 as the last one.
const THIRD_OF_THREE: &[u8] =
    b"\x01\0\0\0\x1d\0\0\0\0\0\0\0\0\0\0\0\0\0\0\0\0\0\0\0\x09\0\0\0\0\0\0\0";

// A new list of three words at the root, which is then seen as one.
fn set_new_numbers(message: &mut Message) -> Result<()> {
    let mut root = message.get_root::<any_pointer::Owned>()?;
    root.set_new::<primitive_list::Owned<u64>>(3)?;
    let mut list = root.into_view::<primitive_list::Owned<u64>>();
    if list.len() > 2 {
        list.set(2, 9);
    }
    Ok(())
}

#[test]
fn a_new_list_is_the_root(rt: HostRuntime) -> Result<()> {
    let mut message = Builder::new_default(rt.alloc());
    set_new_numbers(&mut message)?;
    expect_segments(&rt, "a list", &message, &[THIRD_OF_THREE]);
    Ok(())
}
