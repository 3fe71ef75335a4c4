//! Annotations of a schema that are for this compiler (`rattle.capnp`).
use crate::request::read_text;
use crate::schema_capnp::{annotation, value};
use anyhow::{Result, bail};
use capnp_frame::message::ReaderSegments;
use std::alloc::{AllocError, Global};

/// The annotation `name`.
const NAME: u64 = 0xc06646e30119d4ab;

/// The annotation `prefix`.
const PREFIX: u64 = 0xe5a7b4d3c2f19086;

/// The annotation `namespace` of `c++.capnp`.
const NAMESPACE: u64 = 0xb9c6f99ebf805f2c;

/// The name that one of these annotations gives, or else this one.
pub fn name_in_code<S: ReaderSegments>(
    alloc: Global,
    annotations: capnp_frame::Result<annotation::ListReader<'_, S>>,
    name: String,
) -> Result<String> {
    let annotations = annotations?;
    for annotation in annotations.iter() {
        if annotation.get_id() == NAME {
            return text_of(alloc, &annotation);
        }
    }
    Ok(name)
}

/// What one of a file's annotations puts before the names of its header: `prefix`, and where it is
/// asked for `namespace`, with `_` for each `::`.
pub fn prefix_in_code<S: ReaderSegments>(
    alloc: Global,
    annotations: capnp_frame::Result<annotation::ListReader<'_, S>>,
    has_namespaces: bool,
) -> Result<String> {
    let mut prefix = String::new(alloc);
    let annotations = annotations?;
    for annotation in annotations.iter() {
        let id = annotation.get_id();
        if id == PREFIX {
            return text_of(alloc, &annotation);
        }
        if id == NAMESPACE && has_namespaces {
            prefix = joined(alloc, &text_of(alloc, &annotation)?)?;
        }
    }
    Ok(prefix)
}

// The names of a namespace, with `_` between them.
fn joined(alloc: Global, namespace: &str) -> Result<String, AllocError> {
    let mut names = String::new(alloc);
    for name in namespace.split("::") {
        if !names.is_empty() {
            names.push('_')?;
        }
        names.push_str(name)?;
    }
    Ok(names)
}

// The text of an annotation.
fn text_of<S: ReaderSegments>(
    alloc: Global,
    annotation: &annotation::Reader<'_, S>,
) -> Result<String> {
    let value = annotation.get_value()?;
    match value.which() {
        value::Which::Text(text) => read_text(alloc, text),
        _ => bail!("an annotation has no text"),
    }
}
