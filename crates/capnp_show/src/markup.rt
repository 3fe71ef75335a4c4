//! Strings in a page.
ghost use Rattle.std.specs.Prelude.{◌≡◌, ◌++◌, ℕ, List, [], OnOk, string_bytes};
ghost use Rattle.capnp_show.specs.Output.{IsMarkOf, IsMarked, AddsMarked};

use crate::escapes::{escape_of, push_escape};
use crate::runs::{next_run, push_run};
use std::alloc::AllocError;

/// How a character is written in a page.
#[derive(Clone, Copy)]
pub enum Mark {
    /// As the character itself.
    Plain,
    /// By this name.
    Named(&'static str),
    /// As control characters are shown elsewhere.
    Control,
}

/// How a character is written in a page, within an attribute too.
pub fn mark_of(character: char) -> Mark
    ensures { IsMarkOf character result }
{
    match character {
        '&' => Mark::Named("&amp;"),
        '<' => Mark::Named("&lt;"),
        '>' => Mark::Named("&gt;"),
        '"' => Mark::Named("&quot;"),
        character if character.is_control() => Mark::Control,
        _ => Mark::Plain,
    }
}

/// Adds a string to a page.
pub fn push_markup(markup: &mut String, shown: &str) -> Result<(), AllocError>
    ensures { OnOk result (AddsMarked [] shown.now [] (string_bytes markup.old) (string_bytes markup.new)) }
{
    let mut rest = shown;
    while let Some((plain, character, after)) = next_run(rest) {
        push_run(markup, plain)?;
        push_mark(markup, character, mark_of(character))?;
        rest = after;
    }
    markup.push_str(rest)
}

// Adds a character to a page, written in this way.
fn push_mark(markup: &mut String, character: char, mark: Mark) -> Result<(), AllocError>
    ensures { OnOk result ((bytes : List ℕ) × (string_bytes markup.new ≡ string_bytes markup.old ++ bytes)
        × IsMarked character mark bytes) }
{
    match mark {
        Mark::Plain => markup.push(character),
        Mark::Named(name) => markup.push_str(name),
        Mark::Control => push_escape(markup, character, escape_of(character)),
    }
}
