//! Composed values: a person is set as the root of a message, written and read back.
ghost use Rattle.std.specs.Prelude.{◌≡◌, ◌∷◌, [], map, IfOk, IfErr, OnOk, OnErr};
ghost use Rattle.capnp_wire.specs.Prelude.{canon};
ghost use Rattle.capnp_build.specs.Prelude.{message, IsCleared};
ghost use Rattle.capnp.specs.Prelude.{HasRootTree, output_of};
ghost use Rattle.capnp_uses.specs.People.{contact_tree, person_tree, AloneError, ReadBackError};

use crate::roots::set_and_read_back;
use capnp::message::{Allocator, Builder, Reader, ReaderOptions};
use capnp::serialize::OwnedSegments;
use capnp::streams::Format;
use capnp::{Result, any_struct, struct_list, text};
use capnp_values::{Field, NoFields, StructList, StructValue};
use std::alloc::Global;

/// A struct of no data words and a text.
pub type Address<'a> = StructValue<0, Field<text::Owned, &'a str, NoFields>>;

/// What a person has after his name.
pub type AfterName<'a> = Field<any_struct::Owned, Address<'a>, NoFields>;

/// A struct of a number, a text and an address.
pub type Person<'a> = StructValue<1, Field<text::Owned, &'a str, AfterName<'a>>>;

/// A person as a value.
pub fn person<'a>(id: u64, name: &'a str, city: &'a str) -> Person<'a>
    ensures id { result.words ≡ id ∷ [] }
    ensures name { result.fields.value.now ≡ name.now }
    ensures address { result.fields.rest.value.words ≡ [] }
    ensures city { result.fields.rest.value.fields.value.now ≡ city.now }
{
    let address = StructValue::new([], Field::new(city, NoFields));
    StructValue::new([id], Field::new(name, Field::new(address, NoFields)))
}

/// Sets the root of a message to a person, writes the message framed or packed and reads it back:
/// its root is that person.
pub fn person_is_read_back<A: Allocator>(
    alloc: Global,
    format: Format,
    message: &mut Builder<A>,
    id: u64,
    name: &str,
    city: &str,
    options: ReaderOptions,
) -> Result<Reader<OwnedSegments>>
    ensures back { IfOk result (λ reader. HasRootTree reader.segments
        (person_tree id name.now city.now)) }
    ensures written { IfOk result (λ reader. reader.segments ≡ output_of message.new) }
    ensures options { IfOk result (λ reader. reader.options ≡ options) }
    ensures errors { IfErr result (λ error. ReadBackError A.Allocator (name.now ∷ city.now ∷ [])
        (person_tree id name.now city.now) options.traversal_limit_in_words
        message.old message.new error.kind) }
{
    let value = person(id, name, city);
    set_and_read_back::<any_struct::Owned, Person<'_>, A>(alloc, format, message, value, options)
}

/// Makes a message of no segments the canonical form of a person.
pub fn person_is_canonical<A: Allocator>(
    built: &mut Builder<A>,
    id: u64,
    name: &str,
    city: &str,
) -> Result<()>
    requires { built.old.spaces ≡ [] }
    ensures form { OnOk result (message built.new.spaces
        ≡ canon (person_tree id name.now city.now) ∷ []) }
    ensures cleared { OnErr result (IsCleared A.Allocator built.old built.new) }
    ensures errors { IfErr result (λ error. AloneError A.Allocator (name.now ∷ city.now ∷ [])
        (person_tree id name.now city.now) built.old built.new error.kind) }
{
    let value = person(id, name, city);
    built.set_root_canonical::<any_struct::Owned, Person<'_>>(value)
}

/// A phone: a struct of a data word, which has its type, and of its number, a text.
pub type Phone<'a> = StructValue<1, Field<text::Owned, &'a str, NoFields>>;

/// What a contact has after the address.
pub type AfterMail<'a> = Field<struct_list::Owned, StructList<'a, Phone<'a>>, NoFields>;

/// What a contact has after the name.
pub type AfterContactName<'a> = Field<text::Owned, &'a str, AfterMail<'a>>;

/// A struct of a number, two texts and a list of phones.
pub type Contact<'a> = StructValue<1, Field<text::Owned, &'a str, AfterContactName<'a>>>;

/// A phone as a value.
pub fn phone<'a>(number: &'a str, kind: u16) -> Phone<'a>
    ensures kind { result.words ≡ kind ∷ [] }
    ensures number { result.fields.value.now ≡ number.now }
{
    StructValue::new([kind as u64], Field::new(number, NoFields))
}

/// A contact as a value.
pub fn contact<'a>(id: u64, name: &'a str, mail: &'a str, phones: &'a [Phone<'a>]) -> Contact<'a>
    ensures id { result.words ≡ id ∷ [] }
    ensures name { result.fields.value.now ≡ name.now }
    ensures mail { result.fields.rest.value.now ≡ mail.now }
    ensures phones { result.fields.rest.rest.value.items.now ≡ phones.now }
{
    let after = Field::new(mail, Field::new(StructList::new(phones), NoFields));
    StructValue::new([id], Field::new(name, after))
}

/// Sets the root of a message to a contact, writes the message framed or packed and reads it back:
/// its root is that contact, with these phones in order.
pub fn contact_is_read_back<'a, A: Allocator>(
    alloc: Global,
    format: Format,
    message: &mut Builder<A>,
    id: u64,
    name: &'a str,
    mail: &'a str,
    phones: &'a [Phone<'a>],
    options: ReaderOptions,
) -> Result<Reader<OwnedSegments>>
    ensures back { IfOk result (λ reader. HasRootTree reader.segments
        (contact_tree id name.now mail.now (map (λ phone. phone.words) phones.now)
        (map (λ phone. phone.fields.value.now) phones.now))) }
    ensures written { IfOk result (λ reader. reader.segments ≡ output_of message.new) }
    ensures options { IfOk result (λ reader. reader.options ≡ options) }
    ensures errors { let texts = map (λ phone. phone.fields.value.now) phones.now in
        IfErr result (λ error. ReadBackError A.Allocator (name.now ∷ mail.now ∷ texts)
        (contact_tree id name.now mail.now (map (λ phone. phone.words) phones.now) texts)
        options.traversal_limit_in_words message.old message.new error.kind) }
{
    let value = contact(id, name, mail, phones);
    set_and_read_back::<any_struct::Owned, Contact<'a>, A>(alloc, format, message, value, options)
}
