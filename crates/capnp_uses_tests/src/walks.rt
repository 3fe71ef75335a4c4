//! What the traversal limit counts while a message is walked over: views alone, from where they
//! were.
use crate::fixtures::{
    Message, Source, canonical_encoding, expect, limited, message_of, set_root, set_root_canonical,
};
use capnp::message::Builder;
use capnp::{Result, text};
use capnp_frame_tests::errors::error_of;
use std::alloc::Global;

#[derive(Clone, Copy, Debug)]
enum Walk {
    Canonicalize,
    CanonicalSegment,
    IsCanonical,
    TargetSize,
    WriteCanonical,
    SetRoot,
    SetRootCanonical,
}

const WALKS: [Walk; 7] = [
    Walk::Canonicalize,
    Walk::CanonicalSegment,
    Walk::IsCanonical,
    Walk::TargetSize,
    Walk::WriteCanonical,
    Walk::SetRoot,
    Walk::SetRootCanonical,
];

// Walks over the words of the root's tree, and returns how many.
fn walk_over(alloc: Global, reader: &Message<'_>, kind: Walk) -> Result<usize> {
    match kind {
        Walk::Canonicalize => Ok(reader.canonicalize(alloc)?.len()),
        Walk::CanonicalSegment => Ok(reader.canonical_segment(alloc)?.len() / 8),
        Walk::IsCanonical => Ok(if reader.is_canonical()? { 3 } else { 0 }),
        Walk::TargetSize => target_words(reader),
        Walk::WriteCanonical => written_words(alloc, reader),
        Walk::SetRoot => set_words(alloc, reader),
        Walk::SetRootCanonical => set_canonical_words(alloc, reader),
    }
}

fn target_words(reader: &Message<'_>) -> Result<usize> {
    let root: Source<'_> = reader.get_root()?;
    Ok((root.target_size()?.word_count as usize).saturating_add(1))
}

fn written_words(alloc: Global, reader: &Message<'_>) -> Result<usize> {
    Ok((canonical_encoding(alloc, reader)?.len() / 8).saturating_sub(1))
}

fn set_words(alloc: Global, reader: &Message<'_>) -> Result<usize> {
    let mut message = Builder::new_default(alloc);
    set_root(&mut message, reader.get_root()?)?;
    Ok(message.size_in_words())
}

fn set_canonical_words(alloc: Global, reader: &Message<'_>) -> Result<usize> {
    let mut message = Builder::new_default(alloc);
    set_root_canonical(&mut message, reader.get_root()?)?;
    Ok(message.size_in_words())
}

fn view_error(reader: &Message<'_>) -> u8 {
    error_of(reader.get_root::<text::Reader<'_>>())
}

// A text of two words, which may be viewed twice within four. A walk counts its own two from none:
// it counts nothing against the traversal limit, gives nothing back, and goes on where all are
// used.
#[test]
fn walks_between_views(rt: HostRuntime) -> Result<()> {
    let segments: [&[u8]; 1] = [b"\x01\0\0\0\x72\0\0\0Hello, World!\0\0\0"];
    for kind in &WALKS {
        let reader = message_of(&segments, limited(Some(4)));
        for view in &[0, 0, 20, 20] {
            for _ in 0..3u32 {
                expect(&rt, *kind, walk_over(rt.alloc(), &reader, *kind)?, 3);
            }
            expect(&rt, *kind, view_error(&reader), *view);
        }
    }
    Ok(())
}
