//! What code imports: the names that its templates cite.
//!
//! A template has `$name` where it cites a name of `importable.rt`, or a crate of the library. What
//! a schema says has `${}` in place of a `$`.
use crate::code::Code;
use crate::importable::{DEFINITIONS, ITEMS};
use crate::schema::Request;
use std::alloc::{AllocError, Global};

/// Whether clauses cite something by this name.
pub fn is_definition(name: &str) -> bool {
    DEFINITIONS.iter().any(|(_, names)| names.split(", ").any(|cited| word_of(cited) == name))
}

// The word with which a name is cited.
fn word_of<'a>(name: &'a str) -> &'a str {
    if name == "if◌then◌else◌" {
        return "if";
    }
    match name.split_once(" as ") {
        Some((_, word)) => word,
        None => name.trim_matches('◌'),
    }
}

/// What a schema says, as code that cites nothing.
pub fn uncited(alloc: Global, text: &str) -> Result<String, AllocError> {
    text.replace(alloc, "$", "${}")
}

/// Some code, and the names that it cites.
#[derive(Drop)]
struct Citing {
    code: Code,
    cited: Vec<String>,
}

impl Citing {
    // No code.
    fn new(alloc: Global) -> Citing {
        Citing {
            code: Code::new(alloc, 0),
            cited: Vec::new(alloc),
        }
    }

    // Adds a name that is cited, unless it is there already.
    fn cite(&mut self, name: &str) {
        if !contains(&self.cited, name) {
            let alloc = self.code.alloc;
            let name = self.code.text(String::from_str(alloc, name));
            let pushed = self.cited.push(name);
            let _ = self.code.kept(pushed);
        }
    }
}

/// Adds the code of a module, after the lines that import the enums of these paths and the items
/// that it cites.
pub fn push_module(code: &mut Code, request: &Request, enums: &[String], body: &str) {
    let module = citing_items(code.alloc, body);
    for path in enums {
        code.add_with("use @path@;", "path", path);
    }
    push_items(code, request, &module.cited);
    if !enums.is_empty() || !module.cited.is_empty() {
        code.add_gap();
    }
    code.add_made(module.code.whole());
}

// Code with the items that it cites, which are not marked any more.
fn citing_items(alloc: Global, body: &str) -> Citing {
    let mut module = Citing::new(alloc);
    let mut is_first = true;
    for part in body.split('$') {
        let word = word_at(part);
        if !is_first && is_item(word) {
            module.cite(word);
        } else if !is_first {
            module.code.add_code("$");
        }
        module.code.add_code(part);
        is_first = false;
    }
    module
}

// The name or the operator with which some code begins.
fn word_at<'a>(code: &'a str) -> &'a str {
    if code.starts_with("[]") {
        return "[]";
    }
    let rest = code.trim_start_matches(is_in_name);
    let length = code.len().saturating_sub(rest.len());
    if length == 0 {
        return code.split(' ').next().unwrap_or("");
    }
    code.get(..length).unwrap_or("")
}

// Whether a letter may be in a name.
fn is_in_name(letter: char) -> bool {
    letter.is_ascii_alphanumeric() || letter == '_'
}

// Whether modules import an item of this name.
fn is_item(word: &str) -> bool {
    ITEMS
        .iter()
        .any(|(_, _, names)| names.split(", ").any(|name| name == word))
}

// Whether a word is among some.
fn contains(words: &[String], word: &str) -> bool {
    words.iter().any(|other| other.as_str() == word)
}

// Adds the lines that import items of these names, one for each module that has some.
fn push_items(code: &mut Code, request: &Request, cited: &[String]) {
    let alloc = code.alloc;
    let mut last = String::new(alloc);
    let mut found = String::new(alloc);
    for (origin, module, names) in ITEMS {
        let origin = crate_name(request, origin);
        let path = code.text(format!(in alloc; "{origin}{module}"));
        if path.as_str() != last.as_str() {
            push_import(code, &last, &found);
            found.clear();
            last = path;
        }
        for name in names.split(", ") {
            if contains(cited, name) {
                let _ = code.kept(push_name(&mut found, name));
            }
        }
    }
    push_import(code, &last, &found);
}

// Adds the line that imports some names from a module, with commas between them.
fn push_import(code: &mut Code, module: &str, names: &str) {
    let holes = code.holes().with("module", module).with("names", names);
    if names.contains(',') {
        code.add("use @module@::{@names@};", &holes);
    } else if !names.is_empty() {
        code.add("use @module@::@names@;", &holes);
    }
}

// The name by which code has a crate of the library: `capnp` passes on what the others declare.
fn crate_name<'a>(request: &Request, origin: &'a str) -> &'a str {
    if request.wanted.crates {
        return origin;
    }
    match origin {
        "capnp_orphans" => "capnp::orphans",
        _ => "capnp",
    }
}

// Adds a name to a list of them.
fn push_name(list: &mut String, name: &str) -> Result<(), AllocError> {
    if !list.is_empty() {
        list.push_str(", ")?;
    }
    list.push_str(name)
}

/// Adds the code of a file, after the lines that import what its clauses cite.
pub fn push_file(code: &mut Code, request: &Request, body: &str) {
    let file = citing_definitions(request, body);
    push_definitions(code, request, &file.cited);
    code.add_made(file.code.whole());
}

// Code with the definitions that it cites, and the names of crates in their place.
fn citing_definitions(request: &Request, body: &str) -> Citing {
    let mut file = Citing::new(request.alloc);
    let mut is_first = true;
    for part in body.split('$') {
        let word = word_at(part);
        if is_first {
            file.code.add_code(part);
        } else if let Some(rest) = part.strip_prefix("{}") {
            file.code.add_code("$");
            file.code.add_code(rest);
        } else if word.starts_with("capnp_") {
            file.code.add_code(crate_name(request, word));
            file.code.add_code(part.strip_prefix(word).unwrap_or(""));
        } else {
            file.cite(word);
            file.code.add_code(part);
        }
        is_first = false;
    }
    file
}

// Adds the lines that import definitions of these names.
fn push_definitions(code: &mut Code, request: &Request, cited: &[String]) {
    let mut passed_on = String::new(code.alloc);
    for (module, names) in DEFINITIONS {
        let is_own_line = request.wanted.crates || module.starts_with("std.");
        let mut found = String::new(code.alloc);
        for name in names.split(", ") {
            let word = word_of(name);
            if contains(cited, word) {
                let _ = code.kept(if is_own_line {
                    push_name(&mut found, name)
                } else {
                    push_name(&mut passed_on, word)
                });
            }
        }
        push_definitions_of(code, module, &found);
    }
    push_definitions_of(code, "capnp.specs.Made", &passed_on);
}

// Adds the line that imports some definitions of a module.
fn push_definitions_of(code: &mut Code, module: &str, names: &str) {
    if !names.is_empty() {
        let holes = code.holes().with("module", module).with("names", names);
        code.add("ghost use Rattle.@module@.{@names@};", &holes);
    }
}
