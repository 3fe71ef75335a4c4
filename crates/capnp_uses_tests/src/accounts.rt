//! A type over structs, read from hand-computed bytes.
use crate::fixtures::{expect, message_of};
use capnp::Result;
use capnp::message::{DEFAULT_READER_OPTIONS, SegmentArray};
use capnp_uses::account;

// A struct of one data word and one pointer, the number 7, and the text "Alice".
const ALICE: &[u8] = b"\0\0\0\0\x01\0\x01\0\x07\0\0\0\0\0\0\0\x01\0\0\0\x32\0\0\0Alice\0\0\0";

// A struct of no words; it points to itself.
const NO_FIELDS: &[u8] = b"\xfc\xff\xff\xff\0\0\0\0";

type Account<'a> = account::Reader<'a, SegmentArray<'a>>;

// The number of an account, and whether this is its name.
fn is_named(account: &Account<'_>, name: &[u8]) -> Result<(u64, bool)> {
    Ok((account.id(), account.name()?.as_bytes() == name))
}

// Segments, and the number and the name of the account at the root. An account of an older writer
// has defaults.
const ACCOUNTS_AT_ROOTS: [(&[u8], u64, &[u8]); 3] = [
    (ALICE, 7, b"Alice"),
    (NO_FIELDS, 0, b""),
    (b"\0\0\0\0\0\0\0\0", 0, b""),
];

#[test]
fn an_account_is_read(rt: HostRuntime) -> Result<()> {
    for (segment, number, name) in &ACCOUNTS_AT_ROOTS {
        let segments = [*segment];
        let message = message_of(&segments, DEFAULT_READER_OPTIONS);
        let account: Account<'_> = message.get_root()?;
        expect(&rt, *segment, is_named(&account, name)?, (*number, true));
    }
    Ok(())
}

// Two accounts after the tag of their list: 7 and "A", and 8 without a name.
const ACCOUNTS: &[u8] = b"\x01\0\0\0\x27\0\0\0\
    \x08\0\0\0\x01\0\x01\0\
    \x07\0\0\0\0\0\0\0\x09\0\0\0\x12\0\0\0\
    \x08\0\0\0\0\0\0\0\0\0\0\0\0\0\0\0\
    A\0\0\0\0\0\0\0";

#[test]
fn accounts_are_read(rt: HostRuntime) -> Result<()> {
    let segments = [ACCOUNTS];
    let message = message_of(&segments, DEFAULT_READER_OPTIONS);
    let accounts: account::ListReader<'_, SegmentArray<'_>> = message.get_root()?;
    assert!(rt; accounts.len() == 2);
    let found = [
        is_named(&accounts.get(0), b"A")?,
        is_named(&accounts.get(1), b"")?,
    ];
    expect(&rt, "both", found, [(7, true), (8, true)]);
    Ok(())
}
