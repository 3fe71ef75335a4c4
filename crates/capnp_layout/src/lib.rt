//! The layout of Cap'n Proto messages, for authors of views and programs: places, pointer words,
//! landing pads, and the objects that pointers point to.
//!
//! A [`Place`](place::Place) is where a pointer is in a message, whose segments are any
//! [`ReaderSegments`](capnp_frame::message::ReaderSegments). [`object::object_at`] returns the
//! [`Object`](object::Object) that the pointer points to, through landing pads and within bounds,
//! or the error that says what is wrong. [`Object::pointers`](object::Object::pointers) goes on to
//! the object's own pointers. Pointer words are read and made here alone ([`pointer`],
//! [`pointer_word`], [`body_word`]); `capnp_wire` has the views of objects. Names follow the
//! [encoding document].
//!
//! [encoding document]: https://capnproto.org/encoding.html
#![tactic(auto)]

pub mod block;
pub mod body_word;
pub mod element_size;
pub mod fast_path;
pub mod landing_pad;
pub mod limits;
pub mod number_list;
pub mod object;
pub mod output_size;
pub mod place;
pub mod pointer;
pub mod pointer_run;
pub mod pointer_slots;
pub mod pointer_word;
pub mod struct_list;
