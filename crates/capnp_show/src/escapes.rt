//! Strings, as they are shown.
ghost use Rattle.std.specs.Prelude.{◌≡◌, ◌++◌, ◌∷◌, ℕ, List, [], MatchOption, IsUtf8, OnOk, codes, string_bytes};
ghost use Rattle.capnp_show.specs.Output.{IsJsonEscapeOf, json_escaped, AddsEscaped};

use crate::runs::{next_run, push_run};
use std::alloc::AllocError;
use std::fmt::Write;
use std::str::from_utf8;

/// How a character is shown within quotation marks.
#[derive(Clone, Copy)]
pub enum Escape {
    /// As it is.
    Plain,
    /// As this letter, after a backslash.
    Letter(char),
    /// As its number, in four hexadecimal digits.
    Number,
}

/// How a character is shown: as in JSON, but the control characters from U+007F to U+009F are shown
/// by their numbers, too, since terminals may act on them.
pub fn escape_of(character: char) -> Escape
    ensures { IsJsonEscapeOf character result }
{
    match character {
        '"' => Escape::Letter('"'),
        '\\' => Escape::Letter('\\'),
        '\n' => Escape::Letter('n'),
        '\r' => Escape::Letter('r'),
        '\t' => Escape::Letter('t'),
        character if character.is_control() => Escape::Number,
        _ => Escape::Plain,
    }
}

/// Adds a string, escaped.
pub fn push_escaped(output: &mut String, shown: &str) -> Result<(), AllocError>
    ensures { OnOk result (AddsEscaped [] shown.now [] (string_bytes output.old) (string_bytes output.new)) }
{
    let mut rest = shown;
    while let Some((plain, character, after)) = next_run(rest) {
        push_run(output, plain)?;
        push_escape(output, character, escape_of(character))?;
        rest = after;
    }
    output.push_str(rest)
}

/// Adds a character, escaped in this way.
pub fn push_escape(output: &mut String, character: char, escape: Escape) -> Result<(), AllocError>
    ensures { OnOk result (string_bytes output.new ≡ string_bytes output.old ++ json_escaped character escape) }
{
    match escape {
        Escape::Plain => output.push(character),
        Escape::Letter(letter) => {
            output.push('\\')?;
            output.push(letter)
        }
        Escape::Number => {
            let number = character as u32;
            write!(output, "\\u{number:04x}")
        }
    }
}

/// Adds a string, escaped and within quotation marks: a JSON string.
pub fn push_quoted(output: &mut String, shown: &str) -> Result<(), AllocError>
    ensures { OnOk result (AddsEscaped (codes "\"") shown.now (codes "\"")
        (string_bytes output.old) (string_bytes output.new)) }
{
    output.push('"')?;
    push_escaped(output, shown)?;
    output.push('"')
}

/// The text that a list of bytes is: UTF-8, with a zero byte at the end, which doesn't belong to
/// it; `None` where it is no text.
pub fn text_in(bytes: &[u8]) -> Option<&str>
    ensures { MatchOption result ((characters : List ℕ) → bytes.now ≡ characters ++ 0 ∷ [] → IsUtf8 characters → ⊥)
        (λ characters. bytes.now ≡ characters.now ++ 0 ∷ []) }
{
    let (last, front) = bytes.split_last()?;
    if *last != 0 {
        return None;
    }
    from_utf8(front).ok()
}
