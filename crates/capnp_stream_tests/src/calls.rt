//! The calls over streams of many messages. Where an allocation fails, these tests may fail.
mod many_messages;
mod many_records;
