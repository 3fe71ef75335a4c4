//! Runs of characters that are written as they are, within quotation marks and in a page.
//!
//! Most of a string is written as it is, so it is added by runs and not by characters.
ghost use Rattle.std.specs.Prelude.{◌≡◌, ◌++◌, ◌∷◌, ◌⊎◌, ◌≤◌, ◌<◌, None, IfSome, IsUtf8, IsTrue, IsFalse, OnOk, length, slice_index, string_bytes, take};
ghost use Rattle.std.specs.List.{All};
ghost use Rattle.std.specs.Str.{chars};
ghost use Rattle.capnp_show.specs.Plain.{IsPlainByte};

use std::alloc::AllocError;

/// The front of a string up to the first character that is not written as it is, that character,
/// and what follows it; `None` where all characters are written as they are.
#[inline(always)]
pub fn next_run(shown: &str) -> Option<(&str, char, &str)>
    ensures whole { result ≡ None → IsUtf8 shown.now × All IsPlainByte shown.now }
    ensures plain { IfSome result (λ run. IsUtf8 run.0.now × All IsPlainByte run.0.now) }
    ensures after { IfSome result (λ run. IsUtf8 run.2.now) }
    ensures rest { IfSome result (λ run. (length run.2.now < length shown.now)
        × (chars shown.now ≡ chars run.0.now ++ run.1 ∷ chars run.2.now)) }
{
    let (plain, rest) = shown.split_at(plain_length(shown.as_bytes()));
    let mut characters = rest.chars();
    let character = characters.next()?;
    Some((plain, character, characters.as_str()))
}

/// Adds a run to output. Where most characters are not written as they are, most runs are empty.
#[inline(always)]
pub fn push_run(output: &mut String, run: &str) -> Result<(), AllocError>
    ensures { OnOk result (string_bytes output.new ≡ string_bytes output.old ++ run.now) }
{
    if run.is_empty() {
        return Ok(());
    }
    output.push_str(run)
}

// How many bytes there are in front of the first byte that is not plain.
fn plain_length(bytes: &[u8]) -> usize
    ensures within { result ≤ length bytes.now }
    ensures plain { All IsPlainByte (take result bytes.now) }
    ensures boundary { result < length bytes.now
        → (slice_index bytes.now result < 128) ⊎ (slice_index bytes.now result ≡ 194) }
{
    for index in 0..bytes.len() {
        if !is_plain(bytes[index]) {
            return index;
        }
    }
    bytes.len()
}

// Whether a byte is plain.
fn is_plain(byte: u8) -> bool
    ensures plain { IsTrue result → IsPlainByte byte }
    ensures other { IsFalse result → (byte < 128) ⊎ (byte ≡ 194) }
{
    byte >= 32 && !matches!(byte, b'"' | b'&' | b'<' | b'>' | b'\\' | 127 | 194)
}
