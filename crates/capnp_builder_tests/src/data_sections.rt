//! Fields of data sections that are set in values, by bytes computed by hand from the encoding
//! document, "Structs".
use crate::values::compare_by_each;
use capnp_frame::Result;
use capnp_values::{NoFields, StructValue};
use capnp_wire::any_struct;

type Section = StructValue<3, NoFields>;

// A pointer to a struct of three data words, and the words. The first word has its lowest and its
// highest bit, its second byte, and its second two bytes set; the next one both halves; and the
// last is set whole.
#[rattlefmt::skip]
const SET: &[u8] = b"\0\0\0\0\x03\0\0\0\
    \x01\xab\xfe\xff\0\0\0\x80\
    \xef\xbe\xad\xde\0\0\xc0\x3f\
    \xff\xff\xff\xff\xff\xff\xff\xff";

// Fields that have defaults: a bool that is not its default, one that is, and a byte whose bits all
// differ from the default's. The others are 301 where the default is 300, the default of a word,
// and a float that differs from its default in the sign.
#[rattlefmt::skip]
const DEFAULTS: &[u8] = b"\0\0\0\0\x03\0\0\0\
    \x01\xff\x01\0\0\0\0\0\
    \0\0\0\0\0\0\0\0\
    \0\0\0\0\0\0\0\x80";

fn set() -> Section {
    StructValue::new([0; 3], NoFields)
        .with_data_field::<bool>(0, true)
        .with_data_field::<bool>(63, true)
        .with_data_field::<u8>(1, 0xab)
        .with_data_field::<i16>(1, -2)
        .with_data_field::<u32>(2, 0xdeadbeef)
        .with_data_field::<f32>(3, 1.5)
        .with_data_field::<i64>(2, -1)
}

#[test]
fn fields_are_set_by_their_widths(rt: HostRuntime) -> Result<()> {
    compare_by_each::<any_struct::Owned, Section>(&rt, &set(), SET)
}

#[test]
fn fields_with_defaults_are_what_differs(rt: HostRuntime) -> Result<()> {
    let value = StructValue::new([0; 3], NoFields)
        .with_data_field_mask::<bool>(0, false, true)
        .with_data_field_mask::<bool>(1, true, true)
        .with_data_field_mask::<i8>(1, 0, -1)
        .with_data_field_mask::<u16>(1, 301, 300)
        .with_data_field_mask::<u64>(1, 77, 77)
        .with_data_field_mask::<f64>(2, -2.0, 2.0);
    compare_by_each::<any_struct::Owned, Section>(&rt, &value, DEFAULTS)
}
