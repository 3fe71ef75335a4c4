//! The line that is printed for a message.
ghost use Rattle.std.specs.Prelude.{◌≡◌, ◌++◌, ◌<◌, ◌^◌, decimal, length, IfErr, OnOk};
ghost use Rattle.capnp.specs.Prelude.{ErrorKind};
ghost use Rattle.capnp_ls.specs.Output.{line_of, spaced};

use capnp::Result;
use capnp::io::Write;
use capnp::serialize::SegmentLengthsBuilder;

/// Makes `line` the line for a message of these lengths: its index, the number of its segments, the
/// words of all of them, and the words of each.
pub fn write_line(line: &mut Vec<u8>, index: u64, lengths: &SegmentLengthsBuilder) -> Result<()>
    requires { length lengths.now < 2 ^ 32 }
    ensures ok { OnOk result (line.new.items ≡ line_of index lengths.now) }
    ensures memory { IfErr result (λ error. error.kind ≡ ErrorKind.OutOfMemory) }
{
    line.clear();
    push_decimal(line, index)?;
    push_spaced(line, lengths.segments_count() as u64)?;
    push_spaced(line, lengths.total_words() as u64)?;
    let mut id = 0;
    while let Some(words) = lengths.length_of(id) {
        push_spaced(line, words as u64)?;
        id += 1;
    }
    line.push(b'\n')?;
    Ok(())
}

// Adds a space and a number.
fn push_spaced(line: &mut Vec<u8>, number: u64) -> Result<()>
    ensures ok { OnOk result (line.new.items ≡ line.old.items ++ spaced number) }
    ensures memory { IfErr result (λ error. error.kind ≡ ErrorKind.OutOfMemory) }
{
    line.push(b' ')?;
    push_decimal(line, number)
}

// Adds a number in decimal.
fn push_decimal(line: &mut Vec<u8>, number: u64) -> Result<()>
    ensures ok { OnOk result (line.new.items ≡ line.old.items ++ decimal number) }
    ensures memory { IfErr result (λ error. error.kind ≡ ErrorKind.OutOfMemory) }
{
    let mut digits = [0; 20];
    let mut at = 20;
    let mut left = number;
    while left >= 10 {
        at -= 1;
        digits[at] = 48 + (left % 10) as u8;
        left /= 10;
    }
    at -= 1;
    digits[at] = 48 + left as u8;
    line.write_all(&digits[at..])?;
    Ok(())
}
