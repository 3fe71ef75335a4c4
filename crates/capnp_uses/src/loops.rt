//! Loops over lists of each kind, each in loops over the others: they end, and need no proof file.
//!
//! One function is generic over a message's segments, and over lists that older and newer writers
//! wrote; the other takes the segments of a message that was read, and lists of their own type.
use capnp::message::ReaderSegments;
use capnp::serialize::OwnedSegments;
use capnp::upgraded::{
    DataList, EnumElement, EnumList, ListList, NumberList, PointerList, StructList, TextList,
};
use capnp::{
    Result, any_pointer_list, data_list, list_list, primitive_list, struct_list, text_list,
};

/// The lengths and numbers that each loop meets, from texts at the outside to pointers at the
/// inside.
pub fn inwards<'a, S: ReaderSegments, E: EnumElement + Drop>(
    tags: &TextList<'a, S>,
    scans: &DataList<'a, S>,
    lists: &ListList<'a, S, NumberList<'a, u32>>,
    parts: &StructList<'a, S>,
    states: &EnumList<'a, E>,
    weights: &NumberList<'a, u32>,
    pointers: &PointerList<'a, S>,
) -> Result<u64> {
    let mut sum: u64 = 0;
    for tag in tags.iter() {
        sum = sum.saturating_add(tag?.len() as u64);
        for scan in scans.iter() {
            sum = sum.saturating_add(scan?.len() as u64);
            for list in lists.iter() {
                sum = sum.saturating_add(list?.len() as u64);
                for part in parts.iter() {
                    sum = sum.saturating_add(part.get_data_field::<u32>(0) as u64);
                    for _state in states.iter() {
                        for weight in weights.iter() {
                            sum = sum.saturating_add(weight as u64);
                            for _pointer in pointers.iter() {
                                sum = sum.saturating_add(1);
                            }
                        }
                    }
                }
            }
        }
    }
    Ok(sum)
}

/// The lengths and numbers that each loop meets, from pointers at the outside to texts at the
/// inside.
pub fn outwards(
    tags: &text_list::Reader<'_, OwnedSegments>,
    scans: &data_list::Reader<'_, OwnedSegments>,
    lists: &ListsReader<'_>,
    parts: &struct_list::Reader<'_, OwnedSegments>,
    weights: &primitive_list::Reader<'_, u32>,
    pointers: &any_pointer_list::Reader<'_, OwnedSegments>,
) -> Result<u64> {
    let mut sum: u64 = 0;
    for _pointer in pointers {
        sum = sum.saturating_add(1);
        for weight in weights {
            sum = sum.saturating_add(weight as u64);
            for part in parts {
                sum = sum.saturating_add(part.get_data_field::<u32>(0) as u64);
                for list in lists {
                    sum = sum.saturating_add(list?.len() as u64);
                    for scan in scans {
                        sum = sum.saturating_add(scan?.len() as u64);
                        for tag in tags {
                            sum = sum.saturating_add(tag?.len() as u64);
                        }
                    }
                }
            }
        }
    }
    Ok(sum)
}

/// A list of lists of numbers in a message that was read.
pub type ListsReader<'a> = list_list::Reader<'a, OwnedSegments, primitive_list::Reader<'a, u32>>;
