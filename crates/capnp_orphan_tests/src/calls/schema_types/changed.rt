//! What was read is changed, and written again.
use crate::addressbook_capnp::person;
use crate::addressbook_capnp::person::phone_number;
use crate::calls::schema_types::address_book::{with_email, with_email_alone};
use crate::calls::schema_types::people::person_of;
use crate::calls::schema_types::samples::FILLED;
use crate::calls::schema_types::shown::{message_in, message_of, sample_of};
use crate::fixtures::expect;
use crate::sample_capnp::sample;
use capnp::message::ReaderSegments;
use capnp_frame::Result;
use capnp_frame_tests::retried;
use capnp_orphans::{GrowingSegment, Orphanage};
use std::alloc::Global;

// A person of whom all is known but the email.
fn alice(alloc: Global) -> Result<Orphanage> {
    let mut objects = Orphanage::new(alloc)?;
    let mut made = person::Builder::new();
    made.set_id(123);
    made.set_name(objects.text("Alice")?);
    set_phone(&mut made, &mut objects)?;
    made.set_employment_school(objects.text("MIT")?);
    made.add_root(&mut objects)?;
    Ok(objects)
}

fn set_phone(made: &mut person::Builder, objects: &mut Orphanage) -> Result<()> {
    let mut mobile = phone_number::Builder::new();
    mobile.set_number(objects.text("555-1212")?);
    made.set_phones(phone_number::Builder::add_list(&[mobile], objects)?);
    Ok(())
}

// The person with an email, in another message.
fn changed(alloc: Global, before: &Orphanage) -> Result<Orphanage> {
    let message = message_in(before);
    let read = person_of(&message)?;
    let mut objects = Orphanage::new(alloc)?;
    with_email(&read, "alice@example.com", &mut objects)?;
    Ok(objects)
}

// A copy of what a sample shows, in this message.
fn copy<R: ReaderSegments, S: GrowingSegment>(
    read: &sample::Reader<'_, R>,
    objects: &mut Orphanage<S>,
) -> Result<sample::Builder> {
    sample::Builder::from_reader(read, objects)
}

// The sample of `FILLED`, which is copied.
fn copied(alloc: Global) -> Result<Orphanage> {
    let segments = [FILLED];
    let message = message_of(&segments);
    let read = sample_of(&message)?;
    let mut objects = Orphanage::new(alloc)?;
    copy(&read, &mut objects)?.add_root(&mut objects)?;
    Ok(objects)
}

#[test]
fn a_copy_is_what_was_copied(rt: HostRuntime) -> Result<()> {
    let alloc = rt.alloc();
    let objects = retried!(copied(alloc))?;
    let copy = message_in(&objects);
    let copy = retried!(copy.canonical_segment(alloc))?;
    let segments = [FILLED];
    let written = message_of(&segments);
    let written = retried!(written.canonical_segment(alloc))?;
    expect(&rt, "copy", copy.as_slice(), written.as_slice());
    Ok(())
}

// A person with an email, and then with another one in its place, with the old one in the bytes or
// without it.
fn changed_twice(alloc: Global, is_alone: bool) -> Result<Orphanage> {
    let before = changed(alloc, &alice(alloc)?)?;
    let message = message_in(&before);
    let read = person_of(&message)?;
    let mut objects = Orphanage::new(alloc)?;
    if is_alone {
        with_email_alone(&read, "alice@new.example", &mut objects)?;
    } else {
        with_email(&read, "alice@new.example", &mut objects)?;
    }
    Ok(objects)
}

const OLD: &[u8] = b"alice@example.com";

const NEW: &[u8] = b"alice@new.example";

// Whether some bytes, one or more, are among others.
fn has(bytes: &[u8], part: &[u8]) -> bool {
    !part.is_empty() && bytes.windows(part.len()).any(|window| window == part)
}

#[test]
fn an_old_text_stays_in_the_bytes_and_not_in_the_canonical_words(rt: HostRuntime) -> Result<()> {
    let alloc = rt.alloc();
    let objects = retried!(changed_twice(alloc, false))?;
    let bytes = objects.get_segment(0).unwrap_or(&[]);
    let found = [has(bytes, NEW), has(bytes, OLD)];
    expect(&rt, "new and old in bytes", found, [true, true]);
    let words = retried!(message_in(&objects).canonical_segment(alloc))?;
    let found = [has(&words, NEW), has(&words, OLD)];
    expect(&rt, "new and old in words", found, [true, false]);
    Ok(())
}

#[test]
fn what_was_not_copied_is_not_there(rt: HostRuntime) -> Result<()> {
    let objects = retried!(changed_twice(rt.alloc(), true))?;
    let bytes = objects.get_segment(0).unwrap_or(&[]);
    let found = [
        has(bytes, NEW),
        has(bytes, OLD),
        has(bytes, b"Alice"),
        has(bytes, b"555-1212"),
    ];
    expect(
        &rt,
        "both emails, name, phone",
        found,
        [true, false, true, true],
    );
    Ok(())
}
