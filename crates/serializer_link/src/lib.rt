// Links of the open object, to objects by their numbers, and the order of its children.
#![tactic(auto)]

pub mod adds;
pub mod repacks;

pub use adds::{add_link, add_virtual_link};
pub use repacks::{last_added_child_index, repack_last};
