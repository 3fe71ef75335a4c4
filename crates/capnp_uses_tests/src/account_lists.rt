//! Accounts that are built from the bottom up, by hand-computed bytes, and where they fail.
use crate::fixtures::{expect, limited};
use capnp::{ErrorKind, Result};
use capnp_frame_tests::errors::kind_of;
use capnp_frame_tests::messages::has_segments;
use capnp_orphans::Orphanage;
use capnp_uses::account_list::{NewAccount, accounts_are_read_back, list_of_accounts};
use std::alloc::Global;

// The root points past the two names, "A" and the empty one, to the list: a tag, then 7 and 8, each
// with a pointer back to its name.
const BUILT: &[u8] = b"\x09\0\0\0\x27\0\0\0\
    A\0\0\0\0\0\0\0\
    \0\0\0\0\0\0\0\0\
    \x08\0\0\0\x01\0\x01\0\
    \x07\0\0\0\0\0\0\0\xed\xff\xff\xff\x12\0\0\0\
    \x08\0\0\0\0\0\0\0\xe9\xff\xff\xff\x0a\0\0\0";

const ACCOUNTS: [NewAccount<'static>; 2] = [
    NewAccount { id: 7, name: "A" },
    NewAccount { id: 8, name: "" },
];

// It has eight words.
#[test]
fn accounts_are_built_and_read_back(rt: HostRuntime) -> Result<()> {
    let message = accounts_are_read_back(rt.alloc(), &ACCOUNTS, limited(Some(8)))?;
    assert!(rt; has_segments(message.get_segments(), &[BUILT]));
    let failed = kind_of(accounts_are_read_back(rt.alloc(), &ACCOUNTS, limited(Some(7))))?;
    expect(
        &rt,
        "a limit of 7",
        failed,
        Some(ErrorKind::MessageTooLarge(8)),
    );
    Ok(())
}

// The bytes of a region, and how the list of both accounts fails in it: after the root each name takes
// a word, and then the list five.
#[rattlefmt::skip]
const REGIONS: [(usize, Option<ErrorKind>); 6] = [
    (8, Some(ErrorKind::AllocationTooLarge(1))),
    (16, Some(ErrorKind::AllocationTooLarge(1))),
    (23, Some(ErrorKind::AllocationTooLarge(1))),
    (24, Some(ErrorKind::AllocationTooLarge(5))),
    (63, Some(ErrorKind::AllocationTooLarge(5))),
    (64, None),
];

#[test]
fn lists_that_have_no_room(rt: HostRuntime) -> Result<()> {
    for (room, wanted) in &REGIONS {
        expect(&rt, *room, error_in(rt.alloc(), *room)?, *wanted);
    }
    Ok(())
}

// How the list fails in a region of at most 64 bytes. An `OutOfMemory` is handed back.
fn error_in(alloc: Global, room: usize) -> Result<Option<ErrorKind>> {
    let mut region = [0; 64];
    let mut objects = Orphanage::in_region(&mut region[..room.min(64)])?;
    kind_of(list_of_accounts(alloc, &mut objects, &ACCOUNTS))
}
