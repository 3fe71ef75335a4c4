//! Names of a schema as names of C: the names of what is around a declaration, from the file on,
//! with `_` between them.
use crate::c::macros::is_macro;
use crate::code::Code;
use crate::names::file_module;
use crate::paths::nodes_to;
use crate::reserved::has;
use crate::schema::{Body, Request};
use std::alloc::AllocError;

/// Words of C and of C++, and names that their headers and compilers define.
const TAKEN: &[&str] = &[
    "BUFSIZ DIR DOMAIN EOF FILE INFINITY NAN NDEBUG NULL OVERFLOW UNDERFLOW alignas alignof and and_eq",
    "asm auto bitand bitor bool break case catch char char16_t char32_t char8_t class co_await co_return",
    "co_yield compl concept const const_cast consteval constexpr constinit continue decltype default",
    "delete do double dynamic_cast else enum explicit export extern false float for friend goto if inline",
    "int linux long mutable namespace new noexcept not not_eq nullptr operator or or_eq private protected",
    "public register reinterpret_cast requires restrict return short signed sizeof static static_assert",
    "static_cast struct switch template this thread_local throw true try typedef typeid typename typeof",
    "union unix unsigned using virtual void volatile wchar_t while xor xor_eq",
];

/// The name of a struct, a group, an enum or an interface: `Person_PhoneNumber_Type`, with the
/// file's prefix in front.
pub fn type_name(request: &Request, id: u64) -> Result<String, AllocError> {
    let mut joined = Code::new(request.alloc, 0);
    for node in &nodes_to(request, id)? {
        let name = match &node.body {
            Body::File if node.prefix.is_empty() => continue,
            Body::File => &node.prefix,
            _ => &node.name,
        };
        if !joined.as_str().is_empty() {
            joined.add_code("_");
        }
        joined.add_code(name);
    }
    joined.whole()
}

/// The tag of an enum: its name, with a `_` where that is a word of C or a macro of its headers.
pub fn enum_tag(request: &Request, id: u64) -> Result<String, AllocError> {
    let mut name = type_name(request, id)?;
    if is_taken(&name) || is_macro(&name) {
        name.push('_')?;
    }
    Ok(name)
}

/// What is in front of the name of a constant that a node declares: the name of the node, and the
/// module's of a file, after its prefix.
pub fn constant_scope(request: &Request, scope: u64) -> Result<String, AllocError> {
    let name = type_name(request, scope)?;
    if scope != request.file_of(scope) {
        return Ok(name);
    }
    let between = if name.is_empty() { "" } else { "_" };
    let module = file_module(request.alloc, request.file_name(scope).unwrap_or(""))?;
    let module = module.strip_suffix("_capnp").unwrap_or(&module);
    format!(in request.alloc; "{name}{between}{module}")
}

/// Whether a declaration can't have this name.
pub fn is_taken(name: &str) -> bool {
    has(TAKEN, name)
}
