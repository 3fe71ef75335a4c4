//! Texts and bytes within quotation marks, with the escapes of C.
ghost use Rattle.std.specs.Prelude.{◌≡◌, ◌++◌, IsUtf8, OnOk, string_bytes};
ghost use Rattle.capnp.specs.Printed.{IsEscapeOf, IsByteEscape, escaped, AddsData, AddsText};

use std::alloc::AllocError;
use std::fmt::Write;
use std::str::from_utf8;

/// How a character is shown within quotation marks.
#[derive(Clone, Copy)]
pub enum Escape {
    /// As it is.
    Plain,
    /// As this letter, after a backslash.
    Letter(char),
    /// As its number, in three octal digits after a backslash.
    Number,
}

/// How a character of a text is shown, or one of ASCII of data.
pub fn escape_of(character: char) -> Escape
    ensures { IsEscapeOf character result }
{
    match character {
        '\x07' => Escape::Letter('a'),
        '\x08' => Escape::Letter('b'),
        '\x0c' => Escape::Letter('f'),
        '\n' => Escape::Letter('n'),
        '\r' => Escape::Letter('r'),
        '\t' => Escape::Letter('t'),
        '\x0b' => Escape::Letter('v'),
        '"' => Escape::Letter('"'),
        '\'' => Escape::Letter('\''),
        '\\' => Escape::Letter('\\'),
        '\0'..='\x1f' | '\x7f' => Escape::Number,
        _ => Escape::Plain,
    }
}

/// How a byte of data is shown.
pub fn escape_of_byte(byte: u8) -> Escape
    ensures { IsByteEscape byte result }
{
    if byte < 128 {
        escape_of(byte as char)
    } else {
        Escape::Number
    }
}

/// Adds a character, escaped in this way.
///
/// Fails only when out of memory.
pub fn push_escape(output: &mut String, character: char, escape: Escape) -> Result<(), AllocError>
    ensures { OnOk result (string_bytes output.new
        ≡ string_bytes output.old ++ escaped character escape) }
{
    match escape {
        Escape::Plain => output.push(character),
        Escape::Letter(letter) => {
            output.push('\\')?;
            output.push(letter)
        }
        Escape::Number => {
            let number = character as u32;
            write!(output, "\\{number:03o}")
        }
    }
}

/// Adds data, within quotation marks.
///
/// Fails only when out of memory.
pub fn push_data(output: &mut String, bytes: &[u8]) -> Result<(), AllocError>
    ensures { OnOk result (AddsData bytes.now (string_bytes output.old) (string_bytes output.new)) }
{
    output.push('"')?;
    for byte in bytes {
        push_escape(output, *byte as char, escape_of_byte(*byte))?;
    }
    output.push('"')
}

// Adds a text, within quotation marks.
fn push_characters(output: &mut String, shown: &str) -> Result<(), AllocError>
    ensures { OnOk result (AddsText shown.now (string_bytes output.old) (string_bytes output.new)) }
{
    output.push('"')?;
    for character in shown.chars() {
        push_escape(output, character, escape_of(character))?;
    }
    output.push('"')
}

/// Adds the bytes of a text, within quotation marks; as data where they are not UTF-8.
///
/// Fails only when out of memory.
pub fn push_text(output: &mut String, bytes: &[u8]) -> Result<(), AllocError>
    ensures text { IsUtf8 bytes.now →
        OnOk result (AddsText bytes.now (string_bytes output.old) (string_bytes output.new)) }
    ensures data { (IsUtf8 bytes.now → ⊥) →
        OnOk result (AddsData bytes.now (string_bytes output.old) (string_bytes output.new)) }
{
    match from_utf8(bytes) {
        Ok(shown) => push_characters(output, shown),
        Err(_) => push_data(output, bytes),
    }
}
