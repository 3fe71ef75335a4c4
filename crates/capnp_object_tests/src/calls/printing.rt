//! Text that is printed.
use crate::fixtures::{expect, plain_arena, root_as};
use capnp_frame::Result;
use capnp_wire::text;
use std::alloc::Global;

fn printed(alloc: Global, text: text::Reader<'_>) -> Result<String> {
    Ok(format!(in alloc; "{text}")?)
}

fn at_width_3(alloc: Global, text: text::Reader<'_>) -> Result<String> {
    Ok(format!(in alloc; "{text:>3}")?)
}

// A text of the bytes in table 3-8 of the Unicode Standard.
const TRUNCATED: &[u8] = b"\x01\0\0\0\x72\0\0\0a\xf1\x80\x80\xe1\x80\xc2b\x80c\x80\xbfd\0\0\0";

// What that table has for them: U+FFFD for each sequence that ends early.
const REPLACED: &str = "a\u{FFFD}\u{FFFD}\u{FFFD}b\u{FFFD}c\u{FFFD}\u{FFFD}d";

#[test]
fn bytes_that_are_no_text(rt: HostRuntime) -> Result<()> {
    let segments = [TRUNCATED];
    let arena = plain_arena(&segments);
    let text: text::Reader<'_> = root_as(&arena)?;
    let printed = printed(rt.alloc(), text)?;
    expect(&rt, "replaced", printed.as_str(), REPLACED);
    Ok(())
}

#[test]
fn text_in_a_width(rt: HostRuntime) -> Result<()> {
    let segments = [b"\x01\0\0\0\x1a\0\0\0\xc3\xa9\0\0\0\0\0\0".as_slice()];
    let arena = plain_arena(&segments);
    let text: text::Reader<'_> = root_as(&arena)?;
    let printed = at_width_3(rt.alloc(), text)?;
    expect(&rt, "padded", printed.as_str(), "  \u{E9}");
    Ok(())
}
