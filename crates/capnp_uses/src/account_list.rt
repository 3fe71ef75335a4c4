//! Accounts that are written from the bottom up, as a list, and read back.
ghost use Rattle.std.specs.Prelude.{◌≡◌, ◌⊎◌, ◌+◌, ◌*◌, ◌∷◌, [], length, OnOk, IfOk, IfErr};
ghost use Rattle.capnp_orphans.specs.Adding.{AddsOrphan};
ghost use Rattle.capnp_orphans.specs.Holds.{HoldsValue, word_of};
ghost use Rattle.capnp_uses.specs.AccountLists.{AccountsLimitError, IsAccountList, AccountsError, list_words, new_segment};
ghost use Rattle.capnp_uses.specs.Roots.{HasRootOf};

use crate::account;
use crate::roots::write_and_read_back;
use capnp::message::{Reader, ReaderOptions};
use capnp::serialize::OwnedSegments;
use capnp::streams::Format;
use capnp::{Result, struct_list, text};
use capnp_orphans::{GrowingSegment, Orphan, Orphanage, StructDraft};
use std::alloc::Global;

/// An account in memory.
#[derive(Clone, Copy)]
pub struct NewAccount<'a> {
    /// Its number.
    pub id: u64,

    /// Its name.
    pub name: &'a str,
}

/// An account of this number, with a name that is written already.
pub fn named_account(id: u64, name: Orphan<text::Owned>) -> StructDraft<account::Owned, 1, 1>
    ensures words { result.words ≡ id ∷ [] }
    ensures pointers { result.pointers ≡ name.word ∷ [] }
{
    let mut draft = StructDraft::new();
    draft.set_data_field(0, id);
    draft.adopt(0, name);
    draft
}

/// Writes a list of these accounts, as an object that a pointer can point to.
pub fn list_of_accounts<S: GrowingSegment>(
    alloc: Global,
    objects: &mut Orphanage<S>,
    accounts: &[NewAccount<'_>],
) -> Result<Orphan<struct_list::Owned>>
    ensures adds { AddsOrphan (HoldsValue (IsAccountList accounts.now)) objects.old objects.new
        word_of result }
    ensures words { OnOk result (length objects.new.bytes
        ≡ length objects.old.bytes + 8 * list_words accounts.now) }
    ensures errors { IfErr result (λ error.
        AccountsError accounts.now objects.old error.kind) }
{
    let mut drafts = Vec::new(alloc);
    for account in accounts {
        let name = objects.text(account.name)?;
        drafts.push(named_account(account.id, name))?;
    }
    objects.struct_list(&drafts)
}

/// Builds the message of a list of these accounts, writes it framed, and reads it back: the list is
/// its root.
pub fn accounts_are_read_back(
    alloc: Global,
    accounts: &[NewAccount<'_>],
    options: ReaderOptions,
) -> Result<Reader<OwnedSegments>>
    ensures back { IfOk result (λ reader.
        HasRootOf (IsAccountList accounts.now) reader.segments) }
    ensures options { IfOk result (λ reader. reader.options ≡ options) }
    ensures errors { IfErr result (λ error.
        AccountsError accounts.now new_segment error.kind
        ⊎ AccountsLimitError accounts.now options.traversal_limit_in_words error.kind) }
{
    let mut objects = Orphanage::new(alloc)?;
    let list = list_of_accounts(alloc, &mut objects, accounts)?;
    objects.set_root(list);
    write_and_read_back(alloc, Format::Framed, &objects, options)
}
