// Opening objects, and bytes that are taken, written and read: at head, and at a place.
#![tactic(auto)]

pub mod assigns;
pub mod bytes;
pub mod opens;
pub mod questions;

pub use assigns::{check_assign, copy_assign, copy_assign_from_bytes, get_value_at};
pub use bytes::{allocate_size, embed, embed_bytes, pad};
pub use opens::{push, start_serialize};
pub use questions::{
    allocated, error, in_error, length, offset_overflow, only_offset_overflow, only_overflow,
    ran_out_of_room, successful,
};
