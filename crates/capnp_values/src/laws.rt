//! Facts about the fields of data sections, each the contract of a function that does nothing.
ghost use Rattle.std.specs.Prelude.{◌≡◌, ◌⊎◌, ◌+◌, ◌*◌, ◌<◌, ◌≤◌, ◌^◌, ℕ, List, All, length};
ghost use Rattle.capnp_wire.specs.Prelude.{field};
ghost use Rattle.capnp_values.specs.DataSections.{with_field};

/// A field that is set has the bits that it was set to.
pub fn field_is_what_was_set()
    ensures { (words : List ℕ) (width offset bits : ℕ) → All (λ word. word < 2 ^ 64) words →
        width * (offset + 1) ≤ 64 * length words → bits < 2 ^ width →
        field (with_field words width offset bits) width offset ≡ bits }
{}

/// A field that does not overlap one that is set stays the same.
pub fn other_fields_stay()
    ensures { (words : List ℕ) (width offset bits other at : ℕ) →
        All (λ word. word < 2 ^ 64) words →
        width * (offset + 1) ≤ 64 * length words → bits < 2 ^ width →
        (width * (offset + 1) ≤ other * at) ⊎ (other * (at + 1) ≤ width * offset) →
        field (with_field words width offset bits) other at ≡ field words other at }
{}

/// Setting a field of some words leaves as many words, each below 2^64.
pub fn words_stay_words()
    ensures { (words : List ℕ) (width offset bits : ℕ) →
        (length (with_field words width offset bits) ≡ length words)
        × All (λ word. word < 2 ^ 64) (with_field words width offset bits) }
{}
