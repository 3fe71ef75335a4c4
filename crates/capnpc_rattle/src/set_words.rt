//! What clauses say of the data words in which a field is set.
use crate::builder_templates::{ENUM_CLAUSE, OLD_WORDS, WORDS_CLAUSE, WORDS_STAY};
use crate::code::{Holes, joined};
use crate::enums::{enum_name, lines_of};
use crate::getters::Site;
use crate::numbers::{NumberKind, Stored};
use crate::schema::Base;
use std::alloc::{AllocError, Global};

/// The words in which these numbers of unions are set, as a clause names them.
pub fn words_with(alloc: Global, tags: &[(u32, u16)]) -> Result<String, AllocError> {
    let mut words = String::from_str(alloc, OLD_WORDS)?;
    for (offset, number) in tags {
        words = format!(in alloc; "($with_field {words} 16 {offset} {number})")?;
    }
    Ok(words)
}

/// What a clause says of the words: that they are these.
pub fn words_clause(alloc: Global, words: &str) -> Result<String, AllocError> {
    if words == OLD_WORDS {
        return String::from_str(alloc, WORDS_STAY);
    }
    Holes::new(alloc).with("words", words).fill(WORDS_CLAUSE)
}

/// What a clause says of the words in which a number is set, in addition to these numbers of
/// unions.
pub fn number_clause(site: Site<'_>, stored: &Stored, words: &str) -> Result<String, AllocError> {
    let alloc = site.request.alloc;
    if let Base::Enum(id) = stored.base {
        return Holes::new(alloc)
            .with("words", words)
            .holding("cases", enum_cases(site, id, stored))
            .fill(ENUM_CLAUSE);
    }
    let (width, offset) = (stored.number.width, stored.offset);
    let bits = bits_of(alloc, stored, "value")?;
    let before = format!(in alloc; "$with_field {words}")?;
    let field = format!(in alloc; "{width} {offset} {bits}")?;
    words_clause(alloc, &joined(alloc, &before, &field)?)
}

// The bits of a number, as a clause names them: the bits of a value, XORed with the bits of the
// default.
fn bits_of(alloc: Global, stored: &Stored, value: &str) -> Result<String, AllocError> {
    let width = stored.number.width;
    let default = stored.default;
    let bits = match stored.number.kind {
        NumberKind::Bool => format!(in alloc; "($if {value} then 1 else 0)"),
        NumberKind::Unsigned => String::from_str(alloc, value),
        NumberKind::Signed => format!(in alloc; "($cast_unsigned $w{width} {value})"),
        NumberKind::Float => format!(in alloc; "($to_bits $binary{width} {value})"),
    };
    if default == 0 {
        return bits;
    }
    let bits = bits?;
    format!(in alloc; "($bit_xor {bits} {default})")
}

// The cases of a clause over an enum: the bits that are set for each enumerant.
fn enum_cases(site: Site<'_>, id: u64, stored: &Stored) -> Result<String, AllocError> {
    let alloc = site.request.alloc;
    let name = enum_name(site, id)?;
    let line = enum_case(alloc, stored, "@variant@", "@count@")?;
    let last = enum_case(alloc, stored, "NotInSchema unknown", "unknown")?;
    lines_of(alloc, &name, site.request.enumerants_of(id), (&line, &last))
}

// The case of a variant: that the field has the bits of a value, where `old` has the numbers of
// unions.
fn enum_case(
    alloc: Global,
    stored: &Stored,
    variant: &str,
    value: &str,
) -> Result<String, AllocError> {
    let offset = stored.offset;
    let bits = bits_of(alloc, stored, value)?;
    format!(in alloc; "  | @type@.{variant} ↦ new $≡ $with_field old 16 {offset} {bits}")
}
