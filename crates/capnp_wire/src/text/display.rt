//! Printing of `Text`.
ghost use Rattle.std.specs.Prelude.{Some};
ghost use Rattle.std.specs.Fmt.{WritesOnOk};
ghost use Rattle.std.specs.Str.Lossy.{utf8_lossy};

use crate::text::Reader;
use std::fmt;
use std::fmt::{Display, Formatter, Write};

// The text, with U+FFFD for each sequence of bytes that isn't UTF-8, as `String::from_utf8_lossy`
// makes it. Text that is UTF-8 takes a width as a `str` does.
impl<'a> Display for Reader<'a> {
    ghost output = { λ text. Some (utf8_lossy text.bytes.now) };

    fn fmt<W: Write>(&self, f: &mut Formatter<W>) -> fmt::Result {
        match self.to_str() {
            Ok(text) => f.pad(text),
            Err(_) => write_replaced(self.bytes, f),
        }
    }
}

// Writes bytes as text, with U+FFFD for each sequence of them that isn't UTF-8.
fn write_replaced<W: Write>(bytes: &[u8], f: &mut Formatter<W>) -> fmt::Result
    ensures { WritesOnOk W.write_str_gives f.old result (utf8_lossy bytes.now) f.new }
{
    for chunk in bytes.utf8_chunks() {
        f.write_str(chunk.valid())?;
        if !chunk.invalid().is_empty() {
            f.write_char('\u{FFFD}')?;
        }
    }
    Ok(())
}
