//! The files that are written.
use crate::c::checked::check_header;
use crate::c::header::header_of;
use crate::c::included::check_included;
use crate::checked::check_file;
use crate::file::code_of;
use crate::names::{base_name, file_module};
use crate::schema::{Body, Request, RequestedFile};
use anyhow::{Context, Result, bail};
use std::alloc::{AllocError, Global};
use std::fs;
use std::rt::Files;

/// A file that is to be written.
#[derive(Drop)]
pub struct Output {
    pub name: String,
    pub code: String,
}

/// The files of a request, in its order.
pub fn outputs_of(request: &Request) -> Result<Vec<Output>> {
    let mut outputs: Vec<Output> = Vec::new(request.alloc);
    if request.files.is_empty() {
        bail!("standard input asks for no file");
    }
    check_output_names(request)?;
    for file in &request.files {
        let output = output_of(request, file).context(format_args!("{}", base_name(&file.name)))?;
        outputs.push(output)?;
    }
    Ok(outputs)
}

// What is written for a file.
fn output_of(request: &Request, file: &RequestedFile) -> Result<Output> {
    check_file(request, file.id)?;
    Ok(Output {
        name: output_name(request, &file.name)?,
        code: output_code(request, file.id)?,
    })
}

// The name of the file that is written for a schema.
fn output_name(request: &Request, schema: &str) -> Result<String, AllocError> {
    let module = file_module(request.alloc, schema)?;
    let suffix = if request.wanted.for_c { "h" } else { "rt" };
    format!(in request.alloc; "{module}.{suffix}")
}

// The code of a file.
fn output_code(request: &Request, file: u64) -> Result<String> {
    if !request.wanted.for_c {
        return Ok(code_of(request, file)?);
    }
    check_included(request, file)?;
    let header = header_of(request, file)?;
    check_header(request.alloc, &header)?;
    Ok(header)
}

// Fails for two files of a request, imports among them, whose outputs would have one name.
fn check_output_names(request: &Request) -> Result<()> {
    let mut outputs: Vec<(String, &str)> = Vec::new(request.alloc);
    for node in &request.nodes {
        if let Body::File = &node.body {
            let schema = request.file_name(node.id).unwrap_or("");
            let name = output_name(request, schema)?;
            for (other, of) in &outputs {
                if other.as_str() == name.as_str() {
                    bail!("`{of}` and `{schema}` would both be written to `{name}`");
                }
            }
            outputs.push((name, schema))?;
        }
    }
    Ok(())
}

/// Writes files into a folder.
pub fn write_outputs(
    alloc: Global,
    rt: &impl Files,
    folder: &str,
    outputs: &[Output],
) -> Result<()> {
    for output in outputs {
        let name = &output.name;
        let path = format!(in alloc; "{folder}/{name}")?;
        fs::write(rt, &path, &output.code).context(format_args!(
            "`{name}` can't be written into `{folder}`"
        ))?;
    }
    Ok(())
}
