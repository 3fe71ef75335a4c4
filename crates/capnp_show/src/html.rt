//! The parts of a page that is complete in itself, except for the drawings.
ghost use Rattle.std.specs.Prelude.{◌≡◌, ◌++◌, OnOk, codes, string_bytes};
ghost use Rattle.capnp_show.specs.Arrows.{height_of};
ghost use Rattle.capnp_show.specs.Output.{AddsMarked, with_number, message_name, object_classes};

use crate::arrows::{part_height, push_sizes};
use crate::drawn::{Anchor, push_object_classes};
use crate::errors::push_error;
use crate::markup::push_markup;
use crate::style::{LEGEND, STYLE};
use capnp::ErrorKind;
use std::alloc::AllocError;
use std::fmt::Write;

/// Adds the front of a page.
pub fn push_page(markup: &mut String) -> Result<(), AllocError> {
    markup.push_str(
        "<!DOCTYPE html>\n<html lang=\"en\">\n<head>\n<meta charset=\"utf-8\">\n\
<meta name=\"viewport\" content=\"width=device-width\">\n\
<title>capnp_show</title>\n<style>\n",
    )?;
    push_sizes(markup)?;
    markup.push_str(STYLE)?;
    markup.push_str("</style>\n</head>\n<body>\n")?;
    markup.push_str(LEGEND)
}

/// Adds the end of a page.
pub fn push_end(markup: &mut String) -> Result<(), AllocError>
    ensures { OnOk result (string_bytes markup.new
        ≡ string_bytes markup.old ++ codes "</body>\n</html>\n") }
{
    markup.push_str("</body>\n</html>\n")
}

/// Adds the heading of an input.
#[tactic(auto, using(crate::proofs::JoinedAddedStringsLemmas::marked_between))]
pub fn push_input(markup: &mut String, name: &str) -> Result<(), AllocError>
    ensures { OnOk result (AddsMarked (codes "<h1>") name.now (codes "</h1>\n")
        (string_bytes markup.old) (string_bytes markup.new)) }
{
    markup.push_str("<h1>")?;
    push_markup(markup, name)?;
    markup.push_str("</h1>\n")
}

/// Adds the front of a message's section, up to the words of its heading.
pub fn push_section(markup: &mut String, anchor: Anchor) -> Result<(), AllocError>
    ensures { OnOk result (string_bytes markup.new ≡ string_bytes markup.old
        ++ (codes "<section class=\"message\" id=\"" ++ (message_name anchor ++ codes "\">\n<h2>"))) }
{
    markup.push_str("<section class=\"message\" id=\"")?;
    anchor.push(markup)?;
    markup.push_str("\">\n<h2>")
}

/// Adds that a message is too large to be drawn.
pub fn push_large(markup: &mut String) -> Result<(), AllocError>
    ensures { OnOk result (string_bytes markup.new ≡ string_bytes markup.old
        ++ codes "<p class=\"large\">A message of more than 4096 words is not drawn.</p>\n") }
{
    markup.push_str("<p class=\"large\">A message of more than 4096 words is not drawn.</p>\n")
}

/// Adds why the root pointer is not followed, where there is no word for it.
pub fn push_no_root(markup: &mut String, kind: ErrorKind) -> Result<(), AllocError> {
    markup.push_str("<p class=\"refused\">root: ")?;
    push_error(markup, kind)?;
    markup.push_str("</p>\n")
}

/// Adds the line of an object to the list of objects.
pub fn push_object(markup: &mut String, number: u64, line: &str) -> Result<(), AllocError>
    ensures { OnOk result (AddsMarked (codes "<li class=\"" ++ (object_classes number ++ codes "\">"))
        line.now (codes "</li>\n") (string_bytes markup.old) (string_bytes markup.new)) }
{
    push_object_front(markup, number)?;
    push_markup(markup, line)?;
    markup.push_str("</li>\n")
}

// Adds the front of the line of an object, with its classes.
fn push_object_front(markup: &mut String, number: u64) -> Result<(), AllocError>
    ensures { OnOk result (string_bytes markup.new ≡ string_bytes markup.old
        ++ (codes "<li class=\"" ++ (object_classes number ++ codes "\">"))) }
{
    markup.push_str("<li class=\"")?;
    push_object_classes(markup, number)?;
    markup.push_str("\">")
}

/// Adds the front of a segment of this many words.
pub fn push_part(markup: &mut String, segment: u32, words: usize) -> Result<(), AllocError>
    ensures { OnOk result (string_bytes markup.new
        ≡ string_bytes markup.old ++ (with_number (codes "<div style=\"height: ") (height_of words)
        ++ (with_number (codes "px\">\n<h3>segment ") segment ++ (with_number (codes ", words ") words
        ++ codes "</h3>\n<table class=\"segment\">\n")))) }
{
    let height = part_height(words);
    write!(
        markup,
        "<div style=\"height: {height}px\">\n<h3>segment {segment}, words {words}</h3>\n\
<table class=\"segment\">\n"
    )
}
