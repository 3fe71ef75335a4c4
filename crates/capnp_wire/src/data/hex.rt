//! Printing of `Data`.
ghost use Rattle.std.specs.Prelude.{◌≡◌, ◌<◌, Some};
ghost use Rattle.std.specs.Fmt.{WritesOnOk};
ghost use Rattle.capnp_wire.specs.Hex.{hex_digit, hex_byte, hex_digits};

use std::fmt;
use std::fmt::{Display, Formatter, Write};

/// Bytes that are printed as hexadecimal digits, two for each byte, in lower case.
///
/// `data::Hex(bytes)` is an argument of `println!` or `format!`, as a number is. It takes no
/// memory, and writes each digit as it comes. Nothing is written between the digits or before
/// them, even where a width is asked for.
///
/// ```
/// let key = [0, 15, 240, 171].as_slice();
/// let digits = format!(in alloc; "{}", data::Hex(key))?;
/// assert_eq!(rt; digits.as_str(), "000ff0ab");
/// ```
#[derive(Clone, Copy)]
pub struct Hex<'a>(pub &'a [u8]);

impl<'a> Display for Hex<'a> {
    ghost output = { λ hex. Some (hex_digits hex.0.now) };

    fn fmt<W: Write>(&self, f: &mut Formatter<W>) -> fmt::Result {
        for byte in self.0 {
            write_byte(*byte, f)?;
        }
        Ok(())
    }
}

// Writes a byte as two digits.
fn write_byte<W: Write>(byte: u8, f: &mut Formatter<W>) -> fmt::Result
    ensures { WritesOnOk W.write_str_gives f.old result (hex_byte byte) f.new }
{
    f.write_char(digit(byte / 16))?;
    f.write_char(digit(byte % 16))
}

// A number below 16 as a digit.
fn digit(number: u8) -> char
    requires { number < 16 }
    ensures value { result ≡ hex_digit number }
    ensures ascii { result < 128 }
{
    let code = if number < 10 {
        b'0' + number
    } else {
        b'a' + (number - 10)
    };
    char::from(code)
}
