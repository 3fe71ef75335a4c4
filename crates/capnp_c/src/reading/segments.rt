//! The segments of a message whose table is read again in each call.
ghost use Rattle.std.specs.Prelude.{◌≡◌, ◌+◌, ◌*◌, ◌/◌, ◌<◌, ◌≤◌, ◌∷◌, length, take, drop, slice_get, slice_index, Some, None, MatchOption};
ghost use Rattle.capnp_frame.specs.Prelude.{table_field, table_size};
ghost use Rattle.capnp_layout.specs.Prelude.{message_of, words_of, words_from, room_of};
ghost use Rattle.capnp_c.specs.Segments.{start_of, segments_from, group_begins};

use crate::table::{field_at, table_len, words_of_segments};
use capnp_frame::message::ReaderSegments;
use capnp_layout::object::Object;

// A message has fewer segments.
const SEGMENTS_LIMIT: u32 = 512;

/// How many segments a group has.
pub(crate) const GROUP_LEN: usize = 16;

/// Where each group but the first begins, in bytes of the message.
pub(crate) type GroupBegins = [usize; 31];

/// The segments of a message, as many as are said to be there. Each has the length that its field
/// in the table says, or ends where the bytes end.
#[derive(Drop)]
pub(crate) struct MessageSegments<'a> {
    bytes: &'a [u8],
    begins: &'a GroupBegins,
    count: u32,
    ghost few: { count < 512 },
    ghost room: { table_size count ≤ length bytes.now },
}

impl<'a> MessageSegments<'a> {
    /// The segments of the message in these bytes whose groups begin there; `None` where the number
    /// is not from 1 to 511, or their table is cut.
    pub(crate) fn new(
        bytes: &'a [u8],
        begins: &'a GroupBegins,
        count: u32,
    ) -> Option<MessageSegments<'a>>
        ensures { MatchOption result
            ((0 < count) × (count < 512) × (table_size count ≤ length bytes.now) → ⊥)
            (λ segments. (0 < count) × (count < 512) × (table_size count ≤ length bytes.now)
            × (segments.count ≡ count) × (segments.bytes.now ≡ bytes.now)
            × (segments.begins.now ≡ begins.now)) }
    {
        if count == 0 || count >= SEGMENTS_LIMIT {
            return None;
        }
        if bytes.len() < table_len(count as usize) {
            return None;
        }
        Some(MessageSegments {
            bytes,
            begins,
            count,
        })
    }

    /// How many bytes of the message are before an object of it.
    #[inline(always)]
    pub(crate) fn begin_of(&self, object: &Object) -> usize
        requires content { slice_get
            (message_of (segments_from self.now.begins.now self.now.count self.now.bytes.now))
            object.now.start.segment ≡ Some (words_of object.now.segment.now) }
        requires room { object.now.start.word + room_of object.now.body
            ≤ length object.now.segment.now / 8 }
        ensures within { result + 8 * room_of object.now.body ≤ length self.now.bytes.now }
        ensures words { let room = room_of object.now.body in
            words_from (words_of object.now.segment.now) object.now.start.word room
            ≡ words_of (take (8 * room) (drop result self.now.bytes.now)) }
    {
        let rest = self.following(object.start.segment);
        self.begin_before(rest, object)
    }

    /// The same, by the bytes from the object's segment on.
    #[inline(always)]
    pub(crate) fn begin_before(&self, rest: &[u8], object: &Object) -> usize
        requires rest { let bytes = self.now.bytes.now in rest.now
            ≡ drop (start_of self.now.begins.now self.now.count bytes object.now.start.segment) bytes }
        requires within { length rest.now ≤ length self.now.bytes.now }
        requires content { slice_get
            (message_of (segments_from self.now.begins.now self.now.count self.now.bytes.now))
            object.now.start.segment ≡ Some (words_of object.now.segment.now) }
        requires room { object.now.start.word + room_of object.now.body
            ≤ length object.now.segment.now / 8 }
        ensures within { result + 8 * room_of object.now.body ≤ length self.now.bytes.now }
        ensures words { let room = room_of object.now.body in
            words_from (words_of object.now.segment.now) object.now.start.word room
            ≡ words_of (take (8 * room) (drop result self.now.bytes.now)) }
    {
        self.bytes.len() - rest.len() + 8 * object.start.word
    }

    /// The segment at this index, and the bytes from it on.
    #[inline(always)]
    pub(crate) fn segment_and_rest(&self, id: u32) -> Option<(&'a [u8], &'a [u8])>
        ensures { let bytes = self.now.bytes.now in
            let found = slice_get (segments_from self.now.begins.now self.now.count bytes) id in
            MatchOption result (found ≡ None)
            (λ there. (found ≡ Some there.0.now)
            × (there.1.now ≡ drop (start_of self.now.begins.now self.now.count bytes id) bytes)
            × (length there.1.now ≤ length bytes)) }
    {
        if id >= self.count {
            return None;
        }
        let rest = self.following(id);
        Some((
            front(rest, 8 * words_of_segment(self.bytes, id) as usize),
            rest,
        ))
    }

    // The bytes from the segment at this index on.
    #[inline(always)]
    fn following(&self, id: u32) -> &'a [u8]
        requires { id < self.now.count }
        ensures rest { let bytes = self.now.bytes.now in
            result.now ≡ drop (start_of self.now.begins.now self.now.count bytes id) bytes }
        ensures within { length result.now ≤ length self.now.bytes.now }
    {
        // Speed: most messages have one segment.
        if id == 0 {
            return &self.bytes[table_len(self.count as usize)..];
        }
        self.later(id)
    }

    // The bytes from a segment on that is not the first one.
    // Speed: with its loop a text of the first segment would take more instructions (`tools/time records`).
    #[inline(never)]
    fn later(&self, id: u32) -> &'a [u8]
        requires { (0 < id) × (id < self.now.count) }
        ensures rest { let bytes = self.now.bytes.now in
            result.now ≡ drop (start_of self.now.begins.now self.now.count bytes id) bytes }
        ensures within { length result.now ≤ length self.now.bytes.now }
    {
        let group = id as usize / GROUP_LEN;
        let begin = self.group_begin(group);
        let words = words_of_segments(self.bytes, GROUP_LEN * group, id as usize % GROUP_LEN);
        after(self.bytes, begin.saturating_add(8 * words))
    }

    // How many bytes are before a group.
    #[inline(always)]
    fn group_begin(&self, group: usize) -> usize
        requires { group < 32 }
        ensures { result ≡ slice_index (table_size self.now.count ∷ self.now.begins.now) group }
    {
        match group.checked_sub(1) {
            Some(index) => self.begins[index],
            None => table_len(self.count as usize),
        }
    }
}

impl ReaderSegments for MessageSegments<'_> {
    ghost segments = { λ message. segments_from message.begins.now message.count message.bytes.now };

    fn get_segment(&self, id: u32) -> Option<&[u8]> {
        match self.segment_and_rest(id) {
            Some((segment, _)) => Some(segment),
            None => None,
        }
    }

    fn len(&self) -> usize {
        self.count as usize
    }
}

/// Where the groups of the framed message in these bytes begin. Where there is no group, it is 0.
pub(crate) fn begins_of(bytes: &[u8], count: usize) -> GroupBegins
    requires few { (0 < count) × (count < 512) }
    requires room { table_size count ≤ length bytes.now }
    ensures { result ≡ group_begins count bytes.now }
{
    let mut begins = [0; 31];
    let mut begin = table_len(count);
    for group in 0..(count - 1) / GROUP_LEN {
        begin += 8 * words_of_segments(bytes, GROUP_LEN * group, GROUP_LEN);
        begins[group] = begin;
    }
    begins
}

// How many words a segment has, as the table says.
fn words_of_segment(bytes: &[u8], id: u32) -> u32
    requires { 4 * (id + 1) + 4 ≤ length bytes.now }
    ensures { table_field result ≡ take 4 (drop (4 * (id + 1)) bytes.now) }
{
    field_at(bytes, 4 * (id as usize + 1))
}

// This many bytes at the front, or all.
fn front(bytes: &[u8], count: usize) -> &[u8]
    ensures { result.now ≡ take count bytes.now }
{
    if count >= bytes.len() {
        return bytes;
    }
    &bytes[..count]
}

// What follows this many bytes.
fn after(bytes: &[u8], count: usize) -> &[u8]
    ensures { result.now ≡ drop count bytes.now }
{
    if count >= bytes.len() {
        return &[];
    }
    &bytes[count..]
}
