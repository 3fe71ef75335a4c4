//! Numbers, as they are added to output.
ghost use Rattle.std.specs.Prelude.{◌≡◌, ◌++◌, OnOk, decimal, string_bytes};
ghost use Rattle.hex.specs.Hex.{encode_lower};
ghost use Rattle.capnp_show.specs.Output.{with_number};

use itoa::Buffer;
use std::alloc::AllocError;
use std::str::from_utf8;

/// Adds a number in decimal digits.
///
/// A page has several numbers for each word, so most numbers are added without a formatter. Numbers
/// of one digit, which are the most frequent, are added without a buffer, too.
pub fn push_decimal(output: &mut String, number: u64) -> Result<(), AllocError>
    ensures { OnOk result (string_bytes output.new ≡ string_bytes output.old ++ decimal number) }
{
    if number < 10 {
        return output.push((b'0' + number as u8) as char);
    }
    output.push_str(Buffer::new().format(number))
}

/// Adds words, and a number after them.
pub fn push_counted(output: &mut String, words: &str, number: u64) -> Result<(), AllocError>
    ensures { OnOk result (string_bytes output.new ≡ string_bytes output.old ++ with_number words.now number) }
{
    output.push_str(words)?;
    push_decimal(output, number)
}

/// Adds the bytes of a word in hexadecimal digits, two each.
pub fn push_hexadecimal(output: &mut String, bytes: [u8; 8]) -> Result<(), AllocError>
    ensures { OnOk result (string_bytes output.new ≡ string_bytes output.old ++ encode_lower bytes) }
{
    let mut digits = [0; 16];
    hex::encode_to_slice(bytes, &mut digits).unwrap();
    output.push_str(from_utf8(&digits).unwrap())
}
