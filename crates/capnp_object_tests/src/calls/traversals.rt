//! What views count against the traversal limit one after another; what each counts by itself is in
//! `counts`, and in `conformance/limits.txt`.
use crate::fixtures::{arena_of, expect, root_as_struct, text_at};
use capnp_frame::Result;

// A struct of two pointers, to a text of two words and to one of a word.
const TWO_TEXTS: &[u8] =
    b"\0\0\0\0\0\0\x02\0\x05\0\0\0\x72\0\0\0\x09\0\0\0\x12\0\0\0Hello, World!\0\0\0A\0\0\0\0\0\0\0";

// A read that fails counts nothing: what still has room is read after it, once.
#[test]
fn a_failed_read_counts_nothing(rt: HostRuntime) -> Result<()> {
    let segments = [TWO_TEXTS];
    let arena = arena_of(&segments, Some(3), 64);
    let fields = root_as_struct(&arena)?;
    let short = fields.get_pointer(1);
    expect(
        &rt,
        "the long one",
        text_at(&fields.get_pointer(0)),
        Err(20),
    );
    expect(&rt, "the short one", text_at(&short), Ok(b"A".as_slice()));
    expect(&rt, "the same again", text_at(&short), Err(20));
    Ok(())
}
