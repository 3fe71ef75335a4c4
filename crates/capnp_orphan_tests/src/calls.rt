//! The calls by hand-computed bytes: what no contract says, above all that they succeed. Where an
//! allocation fails, these tests may fail.
mod callers;
mod cases;
mod long_lists;
mod many_bytes;
mod read_lists;
mod schema_types;
