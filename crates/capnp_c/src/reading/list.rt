//! Lists, also as older and newer writers have them.
ghost use Rattle.std.specs.Prelude.{◌≡◌, IfSome, MatchOption, MatchResult};
ghost use Rattle.capnp_wire.specs.Prelude.{Pointer};
ghost use Rattle.capnp_c.specs.Entering.{pointer_among, Enters};
ghost use Rattle.capnp_c.specs.Reading.{ReadError, TakesOff};
ghost use Rattle.capnp_c.specs.ReadingLists.{FollowsList, ShowsList, ListFormError};

use crate::reading::INVALID_ARGUMENT;
use crate::reading::element_kind::ElementKind;
use crate::reading::entered::enter;
use crate::reading::fast_path::{ObjectKind, enter_local};
use crate::reading::list_kinds::elements_of;
use crate::reading::place::LinsjoarPlace;
use crate::reading::reader::LinsjoarReader;
use crate::reading::segments::MessageSegments;
use capnp_frame::{Error, ErrorKind, Result};

/// A list in a message.
#[repr(C)]
#[derive(Clone, Copy)]
pub struct LinsjoarList {
    /// How many bytes of the message are before its first element.
    pub start: usize,
    /// The place of the first pointer of its first element, where its elements have pointers.
    pub first: LinsjoarPlace,
    /// How many elements it has.
    pub count: u32,
    /// How many bits are from one element to the next.
    pub step: u32,
    /// How many bytes of data each element has as a struct.
    pub data_len: u32,
    /// How many pointers each element has as a struct.
    pub pointers: u16,
    /// As what its elements are read: the code that was asked for.
    pub code: u8,
}

// A list that was read, and how many words may still be visited after it.
#[derive(Clone, Copy)]
struct ReadList {
    list: LinsjoarList,
    words_left: usize,
}

impl LinsjoarList {
    /// A list of no elements, as null is. The place is of no pointer.
    pub(crate) fn empty(first: LinsjoarPlace) -> LinsjoarList
        ensures { result ≡ record {
          start = 0;
          first = first;
          count = 0;
          step = 0;
          data_len = 0;
          pointers = 0;
          code = 0;
        } }
    {
        LinsjoarList {
            start: 0,
            first,
            count: 0,
            step: 0,
            data_len: 0,
            pointers: 0,
            code: 0,
        }
    }
}

/// Reads the list that a pointer points to, and counts it against the traversal limit. Its elements
/// are read as this code says: 0 to 5 as numbers of 0, 1, 8, 16, 32 and 64 bits, 6 as pointers, 7
/// as structs. Null is a list of no elements.
///
/// Numbers and pointers are read as structs with these as their first field, and structs as their
/// first fields, as older and newer writers have them; bits are read as bits alone.
///
/// Returns `InvalidArgument` (27) where no list has this code, or the reader is not one of these
/// bytes, and the number of the pointer's error where it points to no object. Returns
/// `ReadLimitExceeded` (20) where the limit is passed, and `WrongPointerKind` (22) for an object that
/// is not read like that. Then nothing is counted.
#[unsafe(no_mangle)]
pub extern "C" fn linsjoar_list(
    bytes: &[u8],
    reader: &mut LinsjoarReader,
    pointer: &LinsjoarPlace,
    code: u8,
    list: &mut LinsjoarList,
) -> u32
    ensures { FollowsList reader.old reader.new bytes.now pointer.now code list.new result }
{
    *list = LinsjoarList::empty(LinsjoarPlace::nowhere(0));
    let Some(wanted) = ElementKind::of_code(code) else {
        return INVALID_ARGUMENT;
    };
    let Some(segments) = reader.segments_in(bytes) else {
        return INVALID_ARGUMENT;
    };
    if let Some(found) = local_list_at(&segments, bytes, reader, pointer, wanted) {
        *list = LinsjoarList { code, ..found.list };
        reader.words_left = found.words_left;
        return 0;
    }
    match list_at(&segments, bytes, reader, pointer, wanted) {
        Ok(found) => {
            *list = LinsjoarList { code, ..found.list };
            reader.words_left = found.words_left;
            0
        }
        Err(error) => error.kind.number() as u32,
    }
}

// The list, if structs are wanted, and it is one of structs in the segment of its pointer. `None`
// says nothing about what is there.
#[inline(always)]
fn local_list_at(
    segments: &MessageSegments,
    bytes: &[u8],
    reader: &LinsjoarReader,
    pointer: &LinsjoarPlace,
    wanted: ElementKind,
) -> Option<ReadList>
    requires { segments.now.bytes.now ≡ bytes.now }
    ensures { let place = pointer_among segments.now reader.now pointer.now in IfSome result
        (λ found. ShowsList wanted place bytes.now found.list × TakesOff place found.words_left) }
{
    let ElementKind::Structs = wanted else {
        return None;
    };
    let entered = enter_local(segments, reader, pointer, ObjectKind::Structs)?;
    let list = elements_of(&entered, bytes, wanted)?;
    Some(ReadList {
        list,
        words_left: entered.words_left,
    })
}

#[inline(never)]
fn list_at(
    segments: &MessageSegments,
    bytes: &[u8],
    reader: &LinsjoarReader,
    pointer: &LinsjoarPlace,
    wanted: ElementKind,
) -> Result<ReadList>
    requires { segments.now.bytes.now ≡ bytes.now }
    ensures { let place = pointer_among segments.now reader.now pointer.now in MatchResult result
        (λ found. ShowsList wanted place bytes.now found.list × TakesOff place found.words_left)
        (λ error. ReadError place (ListFormError wanted) error.kind) }
{
    match enter(segments, reader, pointer)? {
        Some(entered) => match elements_of(&entered, bytes, wanted) {
            Some(list) => Ok(ReadList {
                list,
                words_left: entered.words_left,
            }),
            None => Err(Error::from_kind(ErrorKind::WrongPointerKind)),
        },
        None => Ok(ReadList {
            list: LinsjoarList::empty(pointer.nowhere_below()),
            words_left: reader.words_left,
        }),
    }
}
