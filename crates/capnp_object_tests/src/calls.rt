//! The calls of reading views by hand-computed bytes: what no contract says, above all that they
//! succeed. Where an allocation fails, these tests may fail.
mod canonical_messages;
mod counts;
mod empty_structs;
mod long_lists;
mod printing;
mod traversals;
