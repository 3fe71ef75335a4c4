//! Pointer words, made from what they say, read and moved: the functions of `capnp_layout`.
pub use capnp_layout::pointer_word::{
    LocalShape, StructSize, far_word, list_word, local_shape, moved, put_word, struct_word, word_of,
};
