//! A builder whose fields are all set.
use crate::calls::schema_types::builders::point_at;
use crate::calls::schema_types::samples::FILLED;
use crate::calls::schema_types::shown::{message_in, message_of};
use crate::fixtures::expect;
use crate::sample_capnp::{Color, point, sample};
use capnp_frame::Result;
use capnp_orphans::Orphanage;

// The sample that the C++ tool wrote as `FILLED`.
fn filled(objects: &mut Orphanage) -> Result<sample::Builder> {
    let mut made = sample::Builder::new();
    set_numbers(&mut made);
    set_bytes(&mut made, objects)?;
    set_lists(&mut made, objects)?;
    set_points(&mut made, objects)?;
    Ok(made)
}

fn set_numbers(made: &mut sample::Builder) {
    made.set_count(7);
    made.set_balance(12);
    made.set_is_ready(true);
    made.set_color(Color::DeepBlue);
    made.set_window_width(80);
    made.set_window_height(24);
    made.set_ratio(-2.5);
}

fn set_bytes(made: &mut sample::Builder, objects: &mut Orphanage) -> Result<()> {
    made.set_title(objects.text("A title")?);
    made.set_payload(objects.data(b"\x01\x02\xff")?);
    made.set_label(objects.text("here")?);
    made.set_note(objects.text("some")?);
    Ok(())
}

fn set_lists(made: &mut sample::Builder, objects: &mut Orphanage) -> Result<()> {
    made.set_points(point::Builder::add_list(&[point_at(1, -2), point_at(3, 0)], objects)?);
    made.set_numbers(objects.numbers(&[5u32, 6, 4294967295])?);
    Ok(())
}

fn set_points(made: &mut sample::Builder, objects: &mut Orphanage) -> Result<()> {
    made.set_origin(point_at(-9, 9).add(objects)?);
    made.set_target(point_at(0, 8).add(objects)?);
    Ok(())
}

// Objects come in the order in which they are written, so the canonical forms are compared.
#[test]
fn every_field_is_set_as_the_tool_sets_it(rt: HostRuntime) -> Result<()> {
    let alloc = rt.alloc();
    let mut objects = Orphanage::new(alloc)?;
    filled(&mut objects)?.add_root(&mut objects)?;
    let built = message_in(&objects).canonical_segment(alloc)?;
    let written = message_of(&[FILLED]).canonical_segment(alloc)?;
    expect(&rt, "all fields", built.as_slice(), written.as_slice());
    Ok(())
}
