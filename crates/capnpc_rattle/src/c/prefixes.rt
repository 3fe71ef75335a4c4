//! What is put before all names that the header of a file makes.
use crate::checked::expect_name;
use crate::names::base_name;
use crate::schema::{Body, Request};
use anyhow::{Result, bail};

/// Gives files their prefixes, by the words `prefix=FILE:NAME` among some.
pub fn put_prefixes(request: &mut Request, words: &[&str]) -> Result<()> {
    for word in words {
        if let Some(given) = word.strip_prefix("prefix=") {
            let Some((file, name)) = given.rsplit_once(':') else {
                bail!("`{word}` is no `prefix=FILE:NAME`");
            };
            expect_name(name)?;
            put_prefix(request, file, name)?;
        }
    }
    Ok(())
}

// Gives a file its prefix, by the file's path or the last part of it.
fn put_prefix(request: &mut Request, file: &str, name: &str) -> Result<()> {
    for node in request.nodes.as_mut_slice() {
        if let Body::File = &node.body
            && (node.name.as_str() == file || base_name(&node.name) == file)
        {
            node.prefix = String::from_str(request.alloc, name)?;
            return Ok(());
        }
    }
    bail!("the request has no file `{file}`");
}
