//! Messages that are built.
use crate::building::{expect_segments, far_message, init_error, is_null_word, set_text, text_of};
use crate::fixtures::expect;
use crate::watched::Watched;
use capnp_build::allocator::Allocator;
use capnp_build::{any_struct, data};
use capnp_frame::message::ReaderSegments;
use capnp_frame::{ErrorKind, Result};
use capnp_frame_tests::errors::allocation_error;
use capnp_message::builder::Builder;
use capnp_message::heap_allocator::HeapAllocator;
use capnp_message::typed_builder::TypedBuilder;
use capnp_message::typed_reader::TypedReader;
use capnp_object_tests::arenas::kind_of;
use std::process::Abort;

const HELLO: &[u8] = b"\x01\0\0\0\x72\0\0\0Hello, World!\0\0\0";

// "Hello, World!" after two words of zeros, where another text was before.
const SECOND: &[u8] = b"\x05\0\0\0\x72\0\0\0\0\0\0\0\0\0\0\0Hello, World!\0\0\0";

// A far pointer, and the landing pad and text that it points to.
const FAR: &[u8] = b"\x02\0\0\0\x01\0\0\0";

const PADDED: &[u8] = b"\x01\0\0\0\x6a\0\0\0hello world!\0\0\0\0";

#[test]
fn hello(rt: HostRuntime) -> Result<()> {
    let mut message = Builder::new_default(rt.alloc());
    set_text(&mut message, "Hello, World!")?;
    expect_segments(&rt, "output", &message.get_segments_for_output(), &[HELLO]);
    expect(&rt, "text", text_of(&message)?, b"Hello, World!".as_slice());
    assert!(rt; message.into_reader().is_canonical()?);
    Ok(())
}

#[test]
fn hello_far(rt: HostRuntime) -> Result<()> {
    let mut message = far_message(rt.alloc());
    set_text(&mut message, "hello world!")?;
    expect_segments(&rt, "far", &message, &[FAR, PADDED]);
    assert!(rt; !message.into_reader().is_canonical()?);
    Ok(())
}

fn struct_error<A: Allocator>(message: &mut Builder<A>) -> (u8, u32) {
    allocation_error(message.get_root::<any_struct::Owned>())
}

// An error before them takes no word but the root's.
#[test]
fn roots_one_after_another(rt: HostRuntime) -> Result<()> {
    let mut message = Builder::new_default(rt.alloc());
    let failed = init_error::<data::Owned, HeapAllocator>(&mut message, 536_870_912);
    expect(&rt, "fails", failed, (15, 67_108_864));
    set_text(&mut message, "hello")?;
    set_text(&mut message, "Hello, World!")?;
    expect_segments(&rt, "both", &message, &[SECOND]);
    expect(&rt, "no struct", struct_error(&mut message), (22, 0));
    expect_empty_struct(&rt, &mut message)
}

// A new struct of no words at the root.
fn expect_empty_struct<A: Allocator>(rt: &impl Abort, message: &mut Builder<A>) -> Result<()> {
    message.init_root::<any_struct::Owned>()?;
    let root = match message.get_segment(0) {
        Some(segment) => segment.starts_with(b"\xfc\xff\xff\xff\0\0\0\0"),
        None => false,
    };
    assert!(rt; root);
    Ok(())
}

type Typed = TypedBuilder<any_struct::Owned, HeapAllocator>;

const TEN_AND_TWENTY: &[u8] = b"\0\0\0\0\x02\0\0\0\x0a\0\0\0\0\0\0\0\x14\0\0\0\0\0\0\0";

// What is changed through the message that is handed out is the typed one's root.
#[test]
fn typed(rt: HostRuntime) -> Result<()> {
    let mut message: Typed = TypedBuilder::new_default(rt.alloc());
    set_two_words(&mut message)?;
    expect_segments(&rt, "words", message.borrow_inner(), &[TEN_AND_TWENTY]);
    set_seven(message.borrow_inner_mut())?;
    expect(&rt, "the word", message.get_root()?.get_word(0), 7);
    expect(&rt, "it is read", typed_word(message.into_inner())?, 7);
    Ok(())
}

fn set_two_words(message: &mut Typed) -> Result<()> {
    let mut fields = message.initn_root(2)?;
    fields.set_word(0, 10);
    fields.set_word(1, 20);
    Ok(())
}

// The first word of a struct at the root.
fn typed_word(message: Builder<HeapAllocator>) -> Result<u64> {
    let typed: TypedReader<Builder<HeapAllocator>, capnp_wire::any_struct::Owned> =
        TypedReader::from(message);
    Ok(typed.get()?.get_word(0))
}

fn set_seven(message: &mut Builder<HeapAllocator>) -> Result<()> {
    let mut fields = message.initn_root::<any_struct::Owned>(1)?;
    if fields.data_words() > 0 {
        fields.set_word(0, 7);
    }
    Ok(())
}

// Where the second segment fails the root is null, and the same call succeeds once it is given.
#[test]
fn second_segment_fails(rt: HostRuntime) -> Result<()> {
    let mut message = Builder::new(rt.alloc(), Watched::new(rt.alloc(), 1, 2));
    let failed = kind_of(set_text(&mut message, "hello world!"));
    expect(&rt, "fails", failed, Some(ErrorKind::OutOfMemory));
    assert!(rt; is_null_word(&message));
    set_text(&mut message, "hello world!")?;
    expect_segments(&rt, "given", &message, &[FAR, PADDED]);
    Ok(())
}
