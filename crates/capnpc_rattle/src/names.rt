//! Names of a schema as names of Rattle, as the compiler of the Rust crate makes them.
use crate::reserved::{is_taken_constant, is_taken_enum, is_taken_module, is_taken_variant};
use std::alloc::{AllocError, Global};

/// A name with small letters, and `_` before what were capital ones: `deep_blue` of `deepBlue`.
pub fn snake(alloc: Global, name: &str) -> Result<String, AllocError> {
    let mut identifier = String::new(alloc);
    for letter in name.chars() {
        if letter.is_ascii_uppercase() && !identifier.is_empty() {
            identifier.push('_')?;
        }
        identifier.push(letter.to_ascii_lowercase())?;
    }
    Ok(identifier)
}

/// A name with a capital letter in front: `DeepBlue` of `deepBlue`.
pub fn camel(alloc: Global, name: &str) -> Result<String, AllocError> {
    let mut identifier = String::new(alloc);
    for letter in name.chars() {
        if identifier.is_empty() {
            identifier.push(letter.to_ascii_uppercase())?;
        } else {
            identifier.push(letter)?;
        }
    }
    Ok(identifier)
}

/// The name of the module of a struct, a group or an interface.
pub fn module(alloc: Global, name: &str) -> Result<String, AllocError> {
    let mut identifier = snake(alloc, name)?;
    if is_taken_module(&identifier) {
        identifier.push('_')?;
    }
    Ok(identifier)
}

/// The name of an enum.
pub fn enum_type(alloc: Global, name: &str) -> Result<String, AllocError> {
    let mut identifier = camel(alloc, name)?;
    if is_taken_enum(&identifier) {
        identifier.push('_')?;
    }
    Ok(identifier)
}

/// The name of a variant, of an enumerant or of a member of a union.
pub fn variant(alloc: Global, name: &str) -> Result<String, AllocError> {
    let mut identifier = camel(alloc, name)?;
    if is_taken_variant(&identifier) {
        identifier.push('_')?;
    }
    Ok(identifier)
}

/// The name of a constant: `DEEP_BLUE` of `deepBlue`.
pub fn constant(alloc: Global, name: &str) -> Result<String, AllocError> {
    let mut identifier = snake(alloc, name)?.to_ascii_uppercase(alloc)?;
    if is_taken_constant(&identifier) {
        identifier.push('_')?;
    }
    Ok(identifier)
}

/// The name of the words of a field's default: `DEEP_BLUE_DEFAULT` of `deepBlue`.
pub fn default_name(alloc: Global, name: &str) -> Result<String, AllocError> {
    let mut identifier = constant(alloc, name)?;
    identifier.push_str("_DEFAULT")?;
    Ok(identifier)
}

/// The name of the index of a field's pointer: `DEEP_BLUE_POINTER` of `deepBlue`.
pub fn pointer_name(alloc: Global, name: &str) -> Result<String, AllocError> {
    let mut identifier = constant(alloc, name)?;
    identifier.push_str("_POINTER")?;
    Ok(identifier)
}

/// The name of a struct, or of a file, as a part of a longer name: `AddressBook` of
/// `dir/address-book.capnp`.
pub fn scope_name(alloc: Global, name: &str) -> Result<String, AllocError> {
    let last = base_name(name);
    let stem = last.strip_suffix(".capnp").unwrap_or(last);
    let mut identifier = String::new(alloc);
    let mut is_first = true;
    for letter in stem.chars() {
        if !letter.is_ascii_alphanumeric() {
            is_first = true;
            continue;
        }
        if identifier.is_empty() && letter.is_ascii_digit() {
            identifier.push('_')?;
        }
        identifier.push(if is_first {
            letter.to_ascii_uppercase()
        } else {
            letter
        })?;
        is_first = false;
    }
    Ok(identifier)
}

/// The last part of the name of a file: `address-book.capnp` of `dir/address-book.capnp`.
pub fn base_name<'a>(name: &'a str) -> &'a str {
    match name.rsplit_once('/') {
        Some((_, last)) => last,
        None => name,
    }
}

/// The module of a file: `address_book_capnp` of `dir/address-book.capnp`.
pub fn file_module(alloc: Global, name: &str) -> Result<String, AllocError> {
    let last = base_name(name);
    let stem = last.strip_suffix(".capnp").unwrap_or(last);
    let mut identifier = String::new(alloc);
    for letter in stem.chars() {
        if identifier.is_empty() && letter.is_ascii_digit() {
            identifier.push('_')?;
        }
        identifier.push(if letter.is_ascii_alphanumeric() {
            letter.to_ascii_lowercase()
        } else {
            '_'
        })?;
    }
    identifier.push_str("_capnp")?;
    Ok(identifier)
}
