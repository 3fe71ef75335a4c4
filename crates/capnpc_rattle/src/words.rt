//! The words of constants and of defaults that pointers point to.
use crate::code::Code;
use crate::schema::Value;
use crate::templates::WORDS;
use crate::trees::tree_of_bytes;
use capnp_layout::pointer_word::list_word;
use std::alloc::{AllocError, Global};
use std::fmt::Write;

/// The bytes of a message of one segment whose root is a value that a pointer points to.
pub fn words_of(alloc: Global, value: &Value) -> Result<Vec<u8>, AllocError> {
    match value {
        Value::Text(text) => list_of_bytes(alloc, text.as_bytes(), true),
        Value::Data(bytes) => list_of_bytes(alloc, bytes, false),
        Value::Object(object) => Vec::from_slice(alloc, &object.words),
        Value::Bits(_) | Value::Null => Vec::from_slice(alloc, &[0; 8]),
    }
}

/// The tree of a value that a pointer points to, as a clause has it, where that is known.
pub fn tree_of(alloc: Global, value: &Value) -> Result<Option<String>, AllocError> {
    match value {
        Value::Text(text) => Ok(Some(tree_of_bytes(alloc, text.as_bytes(), true)?)),
        Value::Data(bytes) => Ok(Some(tree_of_bytes(alloc, bytes, false)?)),
        Value::Object(object) => match &object.tree {
            Some(tree) => Ok(Some(String::from_str(alloc, tree)?)),
            None => Ok(None),
        },
        Value::Bits(_) | Value::Null => Ok(None),
    }
}

/// Whether all pointers of a struct that a pointer points to are null: what follows its data words
/// is zero (encoding document, "Structs").
pub fn sets_no_pointers(value: &Value) -> bool {
    let Value::Object(object) = value else {
        return false;
    };
    let words = &object.words;
    let (Some(low), Some(high)) = (words.get(4), words.get(5)) else {
        return false;
    };
    let data_words = u16::from_le_bytes([*low, *high]) as usize;
    match words.get(8 + 8 * data_words..) {
        Some(pointers) => pointers.iter().all(|byte| *byte == 0),
        None => false,
    }
}

// A message whose root is a list of bytes (encoding document, "Lists"), with a zero byte after them
// where it is a text.
fn list_of_bytes(alloc: Global, bytes: &[u8], is_text: bool) -> Result<Vec<u8>, AllocError> {
    let count = (bytes.len() as u64).saturating_add(is_text as u64);
    // No list pointer says that there are more, so none was read.
    if count >= 1 << 29 {
        return Err(AllocError);
    }
    let root = list_word(0, 2, count);
    let mut words = Vec::from_slice(alloc, &root.to_le_bytes())?;
    words.extend_from_slice(bytes)?;
    if is_text {
        words.push(0)?;
    }
    for _ in 0..8 {
        if words.len() % 8 == 0 {
            break;
        }
        words.push(0)?;
    }
    Ok(words)
}

/// Adds words as a `static` of this name.
pub fn push_words(code: &mut Code, name: &str, words: &[u8]) {
    let holes = code
        .holes()
        .with("name", name)
        .number("size", words.len() as u64)
        .holding("lines", lines_of(code.alloc, words));
    code.add(WORDS, &holes);
}

/// The bytes of words as code has them, a line for each word.
pub fn lines_of(alloc: Global, bytes: &[u8]) -> Result<String, AllocError> {
    let mut lines = String::new(alloc);
    for word in bytes.chunks(8) {
        if !lines.is_empty() {
            lines.push('\n')?;
        }
        let mut before = "";
        for byte in word {
            write!(lines, "{before}{byte},")?;
            before = " ";
        }
    }
    Ok(lines)
}
