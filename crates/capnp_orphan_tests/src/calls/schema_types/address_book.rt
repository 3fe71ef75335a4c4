//! The address book of capnproto.org ("Schema Language"), and what else users build of its types.
use crate::addressbook_capnp::person::phone_number;
use crate::addressbook_capnp::{address_book, person};
use capnp::message::ReaderSegments;
use capnp::orphans::{GrowingSegment, Orphan, Orphanage};
use capnp::{Result, serialize};
use std::alloc::Global;

fn alice(objects: &mut Orphanage) -> Result<person::Builder> {
    let mut mobile = phone_number::Builder::new();
    mobile.set_number(objects.text("555-1212")?);
    mobile.set_type(phone_number::Type::Mobile);
    let mut alice = person::Builder::new();
    alice.set_id(123);
    alice.set_name(objects.text("Alice")?);
    alice.set_email(objects.text("alice@example.com")?);
    alice.set_phones(phone_number::Builder::add_list(&[mobile], objects)?);
    alice.set_employment_school(objects.text("MIT")?);
    Ok(alice)
}

fn bob(objects: &mut Orphanage) -> Result<person::Builder> {
    let mut home = phone_number::Builder::new();
    home.set_number(objects.text("555-4567")?);
    home.set_type(phone_number::Type::Home);
    let mut work = phone_number::Builder::new();
    work.set_number(objects.text("555-7654")?);
    work.set_type(phone_number::Type::Work);
    let mut bob = person::Builder::new();
    bob.set_id(456);
    bob.set_name(objects.text("Bob")?);
    bob.set_email(objects.text("bob@example.com")?);
    bob.set_phones(phone_number::Builder::add_list(&[home, work], objects)?);
    bob.set_employment_unemployed();
    Ok(bob)
}

/// Makes the address book of the site the root of a message.
pub fn write_address_book(objects: &mut Orphanage) -> Result<()> {
    let alice = alice(objects)?;
    let bob = bob(objects)?;
    let mut book = address_book::Builder::new();
    book.set_people(person::Builder::add_list(&[alice, bob], objects)?);
    book.add_root(objects)
}

/// What a person does.
#[derive(Clone, Copy)]
pub enum Job<'a> {
    None,
    At(&'a str),
    Learns(&'a str),
}

/// A list of people, each with an email or none, and with the member of the union that its job is.
pub fn people<S: GrowingSegment>(
    alloc: Global,
    objects: &mut Orphanage<S>,
    entries: &[(&str, Option<&str>, Job<'_>)],
) -> Result<Orphan<person::OwnedList>> {
    let mut people = Vec::new(alloc);
    for (name, email, job) in entries {
        people.push(make_person(name, *email, job, objects)?)?;
    }
    person::Builder::add_list(people.as_slice(), objects)
}

fn make_person<S: GrowingSegment>(
    name: &str,
    email: Option<&str>,
    job: &Job<'_>,
    objects: &mut Orphanage<S>,
) -> Result<person::Builder> {
    let mut person = person::Builder::new();
    person.set_name(objects.text(name)?);
    if let Some(email) = email {
        person.set_email(objects.text(email)?);
    }
    match job {
        Job::None => person.set_employment_unemployed(),
        Job::At(employer) => person.set_employment_employer(objects.text(employer)?),
        Job::Learns(school) => person.set_employment_school(objects.text(school)?),
    }
    Ok(person)
}

/// Appends a framed message for each name. The orphanage is used again, so it takes no memory for
/// most.
pub fn append_people(alloc: Global, log: &mut Vec<u8>, names: &[&str]) -> Result<()> {
    let mut objects = Orphanage::new(alloc)?;
    let mut id: u32 = 0;
    for name in names {
        id = id.wrapping_add(1);
        append_person(alloc, log, id, name, &mut objects)?;
    }
    Ok(())
}

fn append_person<S: GrowingSegment>(
    alloc: Global,
    log: &mut Vec<u8>,
    id: u32,
    name: &str,
    objects: &mut Orphanage<S>,
) -> Result<()> {
    objects.clear();
    let mut person = person::Builder::new();
    person.set_id(id);
    person.set_name(objects.text(name)?);
    person.add_root(objects)?;
    serialize::write_message(alloc, log, objects)
}

/// Writes a person as it was read, but with another email, as the root of a message.
pub fn with_email<R: ReaderSegments, S: GrowingSegment>(
    read: &person::Reader<'_, R>,
    email: &str,
    objects: &mut Orphanage<S>,
) -> Result<()> {
    let mut made = person::Builder::from_reader(read, objects)?;
    made.set_email(objects.text(email)?);
    made.add_root(objects)
}

/// Writes a person with another email. Of what the old pointers point to it copies the name and the
/// phones alone, so the old email is nowhere in the message.
pub fn with_email_alone<R: ReaderSegments, S: GrowingSegment>(
    read: &person::Reader<'_, R>,
    email: &str,
    objects: &mut Orphanage<S>,
) -> Result<()> {
    let mut made = person::Builder::from_data_section(read);
    made.set_name(objects.set(&read.get_name()?)?);
    let phones = read.fields.get_pointer(person::PHONES_POINTER);
    made.set_phones(objects.set(&phones)?.of_type());
    made.set_email(objects.text(email)?);
    made.add_root(objects)
}
