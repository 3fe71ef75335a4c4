//! Messages of one segment that are built from the bottom up.
//!
//! An [`Orphanage`] is a segment that grows at its end. Each object is written once, when
//! everything below it is there, and is an [`Orphan`] until a pointer points to it: a pointer of
//! another object, which adopts it, or the root. So pointers point backwards, with negative offsets
//! ([encoding document], "Structs" and "Lists"), and no word except the root's is changed once it
//! is written.
//!
//! Whether a pointer is null, which member of a union is set, how long a list is and how deep a
//! tree is may be decided at run time. Types are known at compile time.
//!
//! [encoding document]: https://capnproto.org/encoding.html
#![tactic(auto)]

pub mod continued;
mod copied;
mod draft;
mod draft_source;
mod drafts;
mod heap;
pub mod laws;
mod object;
pub mod objects;
mod orphan;
mod orphanage;
mod pointer_list;
mod region;
mod segment;
mod struct_list;
mod text_object;
mod value;
mod written;

pub use draft::StructDraft;
pub use draft_source::DraftSource;
pub use drafts::Draft;
pub use heap::Heap;
pub use object::Object;
pub use orphan::Orphan;
pub use orphanage::Orphanage;
pub use region::Region;
pub use segment::GrowingSegment;
