//! Messages that are read and built by the types that the schema compiler makes of two small
//! schemas.
mod address_book;
mod builders;
mod changed;
mod counts;
mod fields;
mod lists;
mod people;
mod printed;
mod samples;
mod shown;
mod trees;
