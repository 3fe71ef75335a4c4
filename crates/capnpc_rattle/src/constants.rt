//! Constants.
use crate::code::Code;
use crate::imports::uncited;
use crate::names::{constant, snake, variant};
use crate::numbers::{literal, number_of};
use crate::paths::path_to;
use crate::schema::{Base, Body, Node, Request, Type, Value};
use crate::templates::{GET_WORDS, LAYOUT, NO_LAYOUT};
use crate::trees::wrapped;
use crate::views::{CONSTANT, View, view_of};
use crate::words::{push_words, tree_of, words_of};
use std::alloc::{AllocError, Global};

// What is said of a constant that is left out.
const LEFT_OUT: &str = "// The constant `@name@` is left out.";

// The most bytes of words that a law names: the time of its proof grows with their square.
const MAX_BYTES: usize = 4096;

/// A value that a pointer points to, of a constant or of a default, as it is written: a `static` of
/// its words, and a getter that returns a view of them.
#[derive(Drop)]
pub struct StaticValue<'v> {
    /// The docstring of the getter.
    pub title: String,
    /// The name of the `static`.
    pub name: String,
    /// The name of the getter, without its `get_`.
    pub getter: String,
    /// What the getter returns.
    pub view: View,
    pub value: &'v Value,
}

/// Adds the constants that are declared in a node.
pub fn push_constants(code: &mut Code, request: &Request, scope: &Node) {
    for id in &scope.nested {
        if let Some(node) = request.find(*id)
            && let Body::Constant(of, value) = &node.body
        {
            code.add_gap();
            push_constant(code, request, node, *of, value);
        }
    }
}

// Adds a constant.
fn push_constant(code: &mut Code, request: &Request, node: &Node, of: Type, value: &Value) {
    let alloc = code.alloc;
    let name = code.text(constant(alloc, &node.name));
    code.add_comment(&node.comment);
    match value {
        Value::Bits(bits) if of.lists == 0 => match (of.base, number_of(of.base)) {
            (Base::Enum(id), _) => push_enumerant(code, request, node, id, *bits),
            (_, Some(number)) => {
                push_line(code, &name, number.type_name, literal(alloc, number, *bits));
            }
            _ => push_line(code, &name, "()", String::from_str(alloc, "()")),
        },
        Value::Text(text) => {
            let value = code.text(format!(in alloc; "{text:?}"));
            push_line(code, &name, "&str", uncited(alloc, &value));
        }
        Value::Data(bytes) => {
            let value = code.text(byte_string(alloc, bytes));
            push_line(code, &name, "&[u8]", uncited(alloc, &value));
        }
        Value::Object(_) => push_object(code, request, node, of, value),
        _ => code.add_with(LEFT_OUT, "name", &name),
    }
}

// Adds a constant that is a struct or a list.
fn push_object(code: &mut Code, request: &Request, node: &Node, of: Type, value: &Value) {
    let name = code.text(constant(code.alloc, &node.name));
    let Some(Some(view)) = code.kept(view_of(request, node.scope, of, CONSTANT)) else {
        return code.add_with(LEFT_OUT, "name", &name);
    };
    let static_value = StaticValue {
        title: code.text(format!(in code.alloc; "The constant `{}`.", node.name)),
        name,
        getter: code.text(snake(code.alloc, &node.name)),
        view,
        value,
    };
    push_view(code, &static_value);
}

/// Adds the words of a value as a `static`, the law that they are its layout, and the getter that
/// returns a view of them.
pub fn push_view(code: &mut Code, static_value: &StaticValue<'_>) {
    let Some(words) = code.kept(words_of(code.alloc, static_value.value)) else {
        return;
    };
    let view = &static_value.view;
    let holes = code
        .holes()
        .holding("signature", head_of(code.alloc, static_value, words.len()))
        .with("title", &static_value.title)
        .with("name", &static_value.name)
        .holding("fact", view.fact(code.alloc, "pointer", "result"));
    push_words(code, &static_value.name, &words);
    push_layout(code, static_value, words.len());
    code.add(GET_WORDS, &holes);
}

// Adds the law that the words of a value, of a given number of bytes, are the layout of its tree,
// where the words are few and the tree is known.
fn push_layout(code: &mut Code, static_value: &StaticValue<'_>, bytes: usize) {
    if bytes <= MAX_BYTES
        && let Some(Some(tree)) = code.kept(tree_of(code.alloc, static_value.value))
    {
        let holes = code
            .holes()
            .with("name", &static_value.name)
            .holding("law", static_value.name.to_ascii_lowercase(code.alloc))
            .holding("tree", wrapped(code.alloc, code.depth, &tree));
        return code.add(LAYOUT, &holes);
    }
    code.add_lines(NO_LAYOUT);
}

// The head of the getter that returns a view of a given number of bytes.
fn head_of(
    alloc: Global,
    static_value: &StaticValue<'_>,
    bytes: usize,
) -> Result<String, AllocError> {
    let getter = &static_value.getter;
    let type_name = static_value.view.sized_type(alloc, bytes)?;
    format!(in alloc; "pub fn get_{getter}() -> $Result<{type_name}>")
}

// Adds the line of a constant, by how its value is written.
fn push_line(code: &mut Code, name: &str, type_name: &str, value: Result<String, AllocError>) {
    let holes = code
        .holes()
        .with("name", name)
        .with("type", type_name)
        .holding("value", value);
    code.add("pub const @name@: @type@ = @value@;", &holes);
}

// Adds a constant that is an enumerant.
fn push_enumerant(code: &mut Code, request: &Request, node: &Node, id: u64, bits: u64) {
    let name = code.text(constant(code.alloc, &node.name));
    let path = code.text(path_to(request, node.scope, id));
    let value = match enumerant_of(request, id, bits) {
        Some(enumerant) => {
            let variant = code.text(variant(code.alloc, enumerant));
            format!(in code.alloc; "{path}::{variant}")
        }
        None => format!(in code.alloc; "{path}::NotInSchema({bits})"),
    };
    push_line(code, &name, &path, value);
}

/// The name of the enumerant of this number.
pub fn enumerant_of(request: &Request, id: u64, number: u64) -> Option<&str> {
    let name = request.enumerants_of(id).get((number % 65536) as usize)?;
    Some(name)
}

// Bytes as they are written in code.
fn byte_string(alloc: Global, bytes: &[u8]) -> Result<String, AllocError> {
    let mut literal = String::from_str(alloc, "b\"")?;
    for byte in bytes {
        let escaped = byte.escape_ascii().to_string(alloc)?;
        literal.push_str(&escaped)?;
    }
    literal.push('"')?;
    Ok(literal)
}
