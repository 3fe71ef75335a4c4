//! The words of a segment, as rows of a table.
ghost use Rattle.std.specs.Prelude.{◌≡◌, ◌%◌, ◌++◌, None, OnOk, codes, string_bytes};
ghost use Rattle.capnp_show.specs.Output.{with_number, message_name, word_name, null_class, owner_classes, error_class, word_classes, where_of, owner_name, drawn_lead, title_of};

use crate::arrows::Grid;
use crate::errors::push_error;
use crate::numbers::{push_counted, push_hexadecimal};
use crate::objects::moved;
use crate::owners::{Lead, Owner, Owners, Role, Word};
use capnp::layout::Place;
use std::alloc::AllocError;

/// The number of words in a row.
pub const ROW_WORDS: usize = 4;

// How many colours objects have, in turn.
const COLOURS: u64 = 9;

/// The name of a message in a page: its input's number and its own.
#[derive(Clone, Copy)]
pub struct Anchor {
    pub input: u64,
    pub message: u64,
}

impl Anchor {
    /// Adds the name of the message.
    pub fn push(self, markup: &mut String) -> Result<(), AllocError>
        ensures { OnOk result (string_bytes markup.new ≡ string_bytes markup.old ++ message_name self) }
    {
        push_counted(markup, "m", self.input)?;
        push_counted(markup, "-", self.message)
    }

    // Adds the name of a word.
    fn push_word(self, markup: &mut String, place: Place) -> Result<(), AllocError>
        ensures { OnOk result (string_bytes markup.new ≡ string_bytes markup.old ++ word_name self place) }
    {
        self.push(markup)?;
        push_counted(markup, "-", u64::from(place.segment))?;
        push_counted(markup, "-", place.word as u64)
    }
}

/// What is drawn of a message: its name, its words, and where their cells are.
#[derive(Clone, Copy)]
pub struct Drawn<'a> {
    pub anchor: Anchor,
    pub owners: &'a Owners,
    pub grid: &'a Grid,
}

/// Adds the classes of an object.
pub fn push_object_classes(markup: &mut String, number: u64) -> Result<(), AllocError>
    ensures { OnOk result (string_bytes markup.new ≡ string_bytes markup.old
        ++ (with_number (codes "o") number ++ with_number (codes " c") (number % COLOURS))) }
{
    let colour = colour_of(number);
    push_counted(markup, "o", number)?;
    push_counted(markup, " c", colour)
}

/// The colour of an object: the colours are used in turn, and then again from the first.
pub fn colour_of(number: u64) -> u64
    ensures { result ≡ number % COLOURS }
{
    number % COLOURS
}

/// Adds a row of words; the first word is at this place.
pub fn push_row(
    markup: &mut String,
    drawn: Drawn<'_>,
    first: Place,
    words: &[Word],
) -> Result<(), AllocError> {
    push_counted(markup, "<tr><th>", first.word as u64)?;
    markup.push_str("</th>")?;
    let mut place = first;
    for word in words {
        push_cell(markup, drawn, place, word)?;
        place = moved(place, 1);
    }
    markup.push_str("</tr>\n")
}

// Adds the cell of a word.
fn push_cell(
    markup: &mut String,
    drawn: Drawn<'_>,
    place: Place,
    word: &Word,
) -> Result<(), AllocError> {
    markup.push_str("<td id=\"")?;
    drawn.anchor.push_word(markup, place)?;
    markup.push_str("\" class=\"")?;
    push_classes(markup, word)?;
    markup.push_str("\" title=\"")?;
    push_title(markup, place, word)?;
    markup.push_str("\">")?;
    match word.target() {
        Some((_, start)) if drawn.owners.word(start).is_some() => {
            push_link(markup, drawn, place, word, start)?;
        }
        _ => push_hexadecimal(markup, word.bytes)?,
    }
    markup.push_str("</td>")
}

// Adds the link of a word that leads to the first word of an object, with its arrow, so that a
// mouse over one of the two is over both.
fn push_link(
    markup: &mut String,
    drawn: Drawn<'_>,
    place: Place,
    word: &Word,
    start: Place,
) -> Result<(), AllocError> {
    markup.push_str("<a href=\"#")?;
    drawn.anchor.push_word(markup, start)?;
    markup.push_str("\">")?;
    push_hexadecimal(markup, word.bytes)?;
    markup.push_str("<svg>")?;
    drawn.grid.push_arrow(markup, drawn.owners, place, word)?;
    markup.push_str("</svg></a>")
}

// Adds the classes of a word: its role in the object that it belongs to, and whether its pointer is
// followed.
fn push_classes(markup: &mut String, word: &Word) -> Result<(), AllocError>
    ensures { OnOk result (string_bytes markup.new ≡ string_bytes markup.old ++ word_classes word.now) }
{
    push_owner(markup, word.owner)?;
    push_null(markup, word)?;
    push_not_followed(markup, word)
}

// Adds the role of a word in the object that it belongs to.
fn push_owner(markup: &mut String, owner: Owner) -> Result<(), AllocError>
    ensures { OnOk result (string_bytes markup.new ≡ string_bytes markup.old ++ owner_classes owner) }
{
    match owner {
        Owner::Free => markup.push_str("free"),
        Owner::Root => markup.push_str("pointer root"),
        Owner::Object(number, role) => {
            let class = match role {
                Role::Data => "data",
                Role::Pointer => "pointer",
                Role::Tag => "tag",
                Role::Landing => "landing",
            };
            markup.push_str(class)?;
            markup.push(' ')?;
            push_object_classes(markup, number)
        }
    }
}

// Adds that a word is a null pointer.
fn push_null(markup: &mut String, word: &Word) -> Result<(), AllocError>
    ensures { OnOk result (string_bytes markup.new
        ≡ string_bytes markup.old ++ null_class word.now.owner word.now.lead) }
{
    if word.is_pointer() && matches!(word.lead, Lead::Null) {
        markup.push_str(" null")?;
    }
    Ok(())
}

// Adds that the pointer at a word is not followed.
fn push_not_followed(markup: &mut String, word: &Word) -> Result<(), AllocError>
    ensures { OnOk result (string_bytes markup.new
        ≡ string_bytes markup.old ++ error_class word.now.error) }
{
    if word.error.is_some() {
        markup.push_str(" refused")?;
    }
    Ok(())
}

// Adds what is said of a word: why its pointer is not followed, or where it is, its role, and in
// which object.
fn push_title(markup: &mut String, place: Place, word: &Word) -> Result<(), AllocError>
    ensures { word.now.error ≡ None → OnOk result
        (string_bytes markup.new ≡ string_bytes markup.old ++ title_of place word.now) }
{
    match word.error {
        Some(kind) => push_error(markup, kind),
        None => {
            push_where(markup, place)?;
            push_owner_name(markup, word.owner)?;
            push_lead(markup, word)
        }
    }
}

// Adds where a word is.
fn push_where(markup: &mut String, place: Place) -> Result<(), AllocError>
    ensures { OnOk result (string_bytes markup.new ≡ string_bytes markup.old ++ where_of place) }
{
    push_counted(markup, "word ", u64::from(place.segment))?;
    push_counted(markup, ":", place.word as u64)?;
    markup.push_str(", ")
}

// Adds the role of a word, and in which object.
fn push_owner_name(markup: &mut String, owner: Owner) -> Result<(), AllocError>
    ensures { OnOk result (string_bytes markup.new ≡ string_bytes markup.old ++ owner_name owner) }
{
    match owner {
        Owner::Free => markup.push_str("of no object that is reached"),
        Owner::Root => markup.push_str("the root pointer"),
        Owner::Object(object, role) => {
            let said = match role {
                Role::Data => "data",
                Role::Pointer => "pointer",
                Role::Tag => "tag",
                Role::Landing => "landing pad",
            };
            markup.push_str(said)?;
            push_counted(markup, " of object ", object)
        }
    }
}

// Adds where a word that is drawn as a pointer leads.
fn push_lead(markup: &mut String, word: &Word) -> Result<(), AllocError>
    ensures { OnOk result (string_bytes markup.new
        ≡ string_bytes markup.old ++ drawn_lead word.now.owner word.now.lead) }
{
    if !word.is_pointer() {
        return Ok(());
    }
    match word.lead {
        Lead::Nowhere => Ok(()),
        Lead::Null => markup.push_str(", null"),
        Lead::Object(object, _) => push_counted(markup, ", to object ", object),
    }
}
