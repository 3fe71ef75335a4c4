//! The wire layout: pointer words, the objects that they point to, and the words that a walk over
//! the objects counts.
pub(crate) mod canonical;
pub(crate) mod canonical_rules;
pub(crate) mod copy;
pub(crate) mod copy_cursor;
pub(crate) mod copy_pointers;
pub(crate) mod data_words;
pub(crate) mod list_value;
pub(crate) mod pending;
pub(crate) mod struct_list_value;
pub(crate) mod struct_value;
pub(crate) mod value;
pub(crate) mod visit;
pub(crate) mod walk;
