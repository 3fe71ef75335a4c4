//! A list of structs whose fields have a sign and a default, by hand-computed bytes.
use crate::fixtures::{expect, message_of};
use capnp::message::{DEFAULT_READER_OPTIONS, SegmentArray};
use capnp::{Result, struct_list};
use capnp_uses::entries;
use std::process::Abort;

// Two entries of one word and one pointer after the list's tag: -500, not paid, "rent"; and 40,
// paid, without a note.
const LEDGER: &[u8] = b"\x01\0\0\0\x27\0\0\0\
    \x08\0\0\0\x01\0\x01\0\
    \x0c\xfe\xff\xff\x01\0\0\0\x09\0\0\0\x2a\0\0\0\
    \x28\0\0\0\0\0\0\0\0\0\0\0\0\0\0\0\
    rent\0\0\0\0";

type Ledger<'a> = struct_list::Reader<'a, SegmentArray<'a>>;

// The amount of an entry, whether it is paid, and whether this is its note.
fn entry(
    rt: &impl Abort,
    ledger: &Ledger<'_>,
    index: u32,
    note: &[u8],
) -> Result<(Option<i32>, bool, bool)> {
    assert!(rt; index < ledger.len());
    let amount = entries::amount_of(ledger, index);
    let has_note = entries::note_of(ledger, index)?.as_bytes() == note;
    Ok((amount, entries::is_paid(ledger, index), has_note))
}

#[test]
fn entries_are_read(rt: HostRuntime) -> Result<()> {
    let segments = [LEDGER];
    let message = message_of(&segments, DEFAULT_READER_OPTIONS);
    let ledger: Ledger<'_> = message.get_root()?;
    let first = entry(&rt, &ledger, 0, b"rent")?;
    expect(&rt, "first", first, (Some(-500), false, true));
    let second = entry(&rt, &ledger, 1, b"")?;
    expect(&rt, "second", second, (Some(40), true, true));
    assert!(rt; ledger.len() == 2);
    assert!(rt; entries::amount_of(&ledger, 2).is_none());
    Ok(())
}
