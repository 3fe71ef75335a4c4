//! A type over structs, as a schema has them: an account with a number and a name.
//!
//! `struct Account { id @0 :UInt64; name @1 :Text; }` has one data word and one pointer (Cap'n
//! Proto's encoding, "Structs").
ghost use Rattle.std.specs.Prelude.{◌≡◌, ◌<◌, ◌==◌, length, slice_index, MatchResult};
ghost use Rattle.std.specs.List.{find};
ghost use Rattle.std.specs.Option.{option_map};
ghost use Rattle.capnp_wire.specs.Prelude.{IsIterator, all_structs, struct_of, pointer_of, struct_list_of, element_of, IsStructList, TakesStructs, StructsFormError, Struct, IsViewOf, IsText, IsStruct, Accepts, ViewError, FormError, Reads, TakesStruct, StructFormError, TextFormError, pointer_in};

use capnp::any_struct::StructReader;
use capnp::message::ReaderSegments;
use capnp::traits::{self, FromPointerReader, IndexMove, ListIter};
use capnp::{Result, any_pointer, struct_list, text};

/// Accounts, as a type of a schema.
pub struct Owned;

impl<'a, S: ReaderSegments + 'a> traits::Owned<'a, S> for Owned {
    type Reader = Reader<'a, S>;
}

/// An account in a message. From a null pointer, and from older writers, it has the number 0 and no
/// name.
#[derive(Drop)]
pub struct Reader<'a, S: ReaderSegments> {
    fields: StructReader<'a, S>,
}

impl<'a, S: ReaderSegments> Reader<'a, S> {
    /// Its number; 0 where the struct has no data word.
    pub fn id(&self) -> u64
        ensures { result ≡ slice_index (struct_of S.segments self.now.fields).words 0 }
    {
        self.fields.get_word(0)
    }

    /// Its name; empty where the struct has no pointer, or a null one.
    pub fn name(&self) -> Result<text::Reader<'a>>
        ensures { let pointer = pointer_in (struct_of S.segments self.now.fields) 0 in
            MatchResult result (λ name. Reads pointer (λ form. IsText form name.bytes.now))
            (λ error. ViewError pointer TextFormError error.kind) }
    {
        self.fields.get_pointer(0).get_as()
    }
}

impl<'a, S: ReaderSegments> FromPointerReader<'a, S> for Reader<'a, S> {
    // What the view shows: the struct that the pointer points to.
    ghost shows = { λ pointer view. IsStruct pointer (struct_of S.segments view.fields) };

    // The view accepts null, and every struct.
    ghost accepts = { λ pointer. Accepts pointer TakesStruct };

    // With which errors the view fails: no object is there, it may not be read, or it is no struct.
    ghost fails = { λ pointer kind. ViewError pointer StructFormError kind };

    // An object that is no struct fails with `WrongPointerKind`.
    ghost form_error = { λ pointer kind. FormError pointer StructFormError kind };

    // The trait's clause, with these members in it.
    fn get_from_pointer(reader: any_pointer::Reader<'a, S>) -> Result<Self>
        ensures { let pointer = pointer_of S.segments reader.entry in IsViewOf pointer
            (λ view. IsStruct pointer (struct_of S.segments view.fields))
            (Accepts pointer TakesStruct) (ViewError pointer StructFormError)
            (FormError pointer StructFormError) result }
    {
        match StructReader::get_from_pointer(reader) {
            Ok(fields) => Ok(Reader { fields }),
            Err(error) => Err(error),
        }
    }
}

/// A list of accounts in a message; none from null.
#[derive(Drop)]
pub struct ListReader<'a, S: ReaderSegments> {
    accounts: struct_list::Reader<'a, S>,
}

impl<'a, S: ReaderSegments> ListReader<'a, S> {
    /// The number of accounts.
    pub fn len(&self) -> u32
        ensures { result ≡ length (struct_list_of S.segments self.now.accounts).elements }
    {
        self.accounts.len()
    }

    /// The account of this index.
    pub fn get(&self, index: u32) -> Reader<'a, S>
        requires { index < length (struct_list_of S.segments self.now.accounts).elements }
        ensures { struct_of S.segments result.fields
            ≡ element_of (struct_list_of S.segments self.now.accounts) index }
    {
        Reader {
            fields: self.accounts.get(index),
        }
    }

    /// An iterator over the accounts.
    pub fn iter(&self) -> ListIter<'_, Self>
        ensures { IsIterator self.now result }
    {
        ListIter::new(self)
    }

    /// The first account of this number.
    pub fn first_with_id(&self, id: u64) -> Option<Reader<'a, S>>
        ensures { option_map (λ account. struct_of S.segments account.fields) result
            ≡ find (λ account. slice_index account.words 0 == id)
            (all_structs (struct_list_of S.segments self.now.accounts)) }
    {
        self.iter().find(|account| account.id() == id)
    }
}

impl<'a, S: ReaderSegments> IndexMove for ListReader<'a, S> {
    type Item = Reader<'a, S>;

    ghost Element = { Struct };

    ghost seen = { λ account. struct_of S.segments account.fields };

    ghost size = { λ list. length (struct_list_of S.segments list.accounts).elements };

    ghost element = { λ list index. element_of (struct_list_of S.segments list.accounts) index };

    fn len(&self) -> u32 {
        self.len()
    }

    fn index_move(&self, index: u32) -> Reader<'a, S> {
        self.get(index)
    }
}

impl<'a, S: ReaderSegments> FromPointerReader<'a, S> for ListReader<'a, S> {
    ghost shows = { λ pointer view.
        IsStructList pointer (struct_list_of S.segments view.accounts) };

    ghost accepts = { λ pointer. Accepts pointer TakesStructs };

    ghost fails = { λ pointer kind. ViewError pointer StructsFormError kind };

    ghost form_error = { λ pointer kind. FormError pointer StructsFormError kind };

    fn get_from_pointer(reader: any_pointer::Reader<'a, S>) -> Result<Self>
        ensures { let pointer = pointer_of S.segments reader.entry in IsViewOf pointer
            (λ view. IsStructList pointer (struct_list_of S.segments view.accounts))
            (Accepts pointer TakesStructs) (ViewError pointer StructsFormError)
            (FormError pointer StructsFormError) result }
    {
        match struct_list::Reader::get_from_pointer(reader) {
            Ok(accounts) => Ok(ListReader { accounts }),
            Err(error) => Err(error),
        }
    }
}
