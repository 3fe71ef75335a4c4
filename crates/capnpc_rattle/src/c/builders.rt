//! Drafts of structs: what a struct is before it is added to a message.
use crate::c::builder_templates::{ADD, DRAFT};
use crate::code::Code;
use crate::schema::Struct;

/// Adds the type of a struct before it is added to a message.
pub fn push_draft(code: &mut Code, name: &str, body: &Struct) {
    let alloc = code.alloc;
    let (data_words, pointers) = (body.data_words, body.pointers);
    let members = match (data_words, pointers) {
        (0, 0) => String::from_str(alloc, "uint64_t nothing[1];"),
        (_, 0) => format!(in alloc; "uint64_t words[{data_words}];"),
        (0, _) => format!(in alloc; "uint64_t orphans[{pointers}];"),
        _ => format!(in alloc; "uint64_t words[{data_words}];\nuint64_t orphans[{pointers}];"),
    };
    let holes = code.holes().with("name", name).holding("members", members);
    code.add(DRAFT, &holes);
}

/// Adds what makes drafts of a struct, and adds them to a message.
pub fn push_adding(code: &mut Code, name: &str, body: &Struct) {
    let (words, copied_words) = passed(body.data_words, "draft->words");
    let (orphans, copied_orphans) = passed(body.pointers, "draft->orphans");
    let holes = code
        .holes()
        .with("name", name)
        .number("data_words", body.data_words)
        .number("pointers", body.pointers)
        .number("size", body.data_words.saturating_add(body.pointers))
        .with("words", words)
        .with("orphans", orphans)
        .with("copied_words", copied_words)
        .with("copied_orphans", copied_orphans);
    code.add(ADD, &holes);
}

// What a call takes that adds this many words or pointers, and what one that copies takes. C has no
// array without elements, so a struct has none where it has no words, or no pointers.
fn passed(count: u32, array: &'static str) -> (&'static str, &'static str) {
    if count > 0 {
        (array, array)
    } else {
        ("(const uint64_t *)draft", "NULL")
    }
}
