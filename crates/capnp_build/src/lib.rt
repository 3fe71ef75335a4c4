//! Cap'n Proto messages that are built in place, in segments that an allocator hands out.
#![tactic(auto)]

pub mod allocator;
pub mod any_pointer;
pub mod any_struct;
pub mod arena;
pub mod builder_segment;
pub mod data;
pub mod new_object;
pub mod object;
pub mod owned_builder;
pub mod pointing;
pub mod primitive_list;
pub mod root_kind;
pub mod segment_space;
pub mod segments;
pub mod text;
pub mod view;
