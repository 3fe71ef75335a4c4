//! Segment tables.
ghost use Rattle.std.specs.Prelude.{◌≡◌, ◌+◌, ◌*◌, ◌<◌, ◌≤◌, ◌^◌, length, take, drop, sum};
ghost use Rattle.capnp_frame.specs.Prelude.{numbers, table_field, table_size};

/// How many bytes the table of this many segments has.
pub(crate) fn table_len(count: usize) -> usize
    requires { count ≤ 2 ^ 32 }
    ensures { result ≡ table_size count }
{
    8 * (count / 2 + 1)
}

/// The field that is this many bytes after the begin of a table.
pub(crate) fn field_at(table: &[u8], at: usize) -> u32
    requires { at + 4 ≤ length table.now }
    ensures { table_field result ≡ take 4 (drop at table.now) }
{
    u32::from_le_bytes([table[at], table[at + 1], table[at + 2], table[at + 3]])
}

/// How many words this many segments from one of them on have together, as the table at the front of
/// these bytes says.
pub(crate) fn words_of_segments(table: &[u8], first: usize, count: usize) -> usize
    requires few { first + count < 512 }
    requires room { 4 * (first + count + 1) ≤ length table.now }
    ensures words { result ≡ sum (numbers count (drop (4 * (first + 1)) table.now)) }
    ensures bound { result ≤ count * 2 ^ 32 }
{
    let mut words = 0;
    for before in 0..count {
        words += field_at(table, 4 * (first + before + 1)) as usize;
    }
    words
}
