//! Comments of a schema, as comments of C.
use crate::code::Code;
use std::alloc::{AllocError, Global};

/// Adds a comment, if there is one.
pub fn push_comment(code: &mut Code, comment: &str) {
    let written = code.text(commented(code.alloc, comment));
    if !written.is_empty() {
        code.add_with("@comment@", "comment", &written);
    }
}

// The lines of a comment as C has them.
fn commented(alloc: Global, comment: &str) -> Result<String, AllocError> {
    let mut written = String::new(alloc);
    for line in comment.lines() {
        written.push_str(if written.is_empty() { "/* " } else { "\n * " })?;
        push_line(&mut written, line.trim_end())?;
    }
    if !written.is_empty() {
        written.push_str(" */")?;
    }
    Ok(written)
}

// Adds a line of a comment, in which nothing ends the comment or begins another one.
fn push_line(written: &mut String, line: &str) -> Result<(), AllocError> {
    let mut last = ' ';
    for letter in line.chars() {
        if (last == '*' && letter == '/') || (last == '/' && letter == '*') {
            written.push(' ')?;
        }
        written.push(letter)?;
        last = letter;
    }
    Ok(())
}
