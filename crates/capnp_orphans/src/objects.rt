//! Objects whose sizes are known only at run time.
mod byte_numbers;
mod orphan_list;
mod sized_struct;
mod sized_struct_list;
mod text_bytes;

pub use crate::value::Value;
pub use byte_numbers::ByteNumbers;
pub use orphan_list::OrphanList;
pub use sized_struct::SizedStruct;
pub use sized_struct_list::SizedStructList;
pub use text_bytes::TextBytes;
