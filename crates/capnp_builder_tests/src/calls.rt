//! The calls of builders by hand-computed bytes: what no contract says, above all that they succeed.
//! Where an allocation fails, these tests may fail.
mod any_roots;
mod asked;
mod builders;
mod given_back;
mod long_lists;
