// What can be read of a serializer: its packed objects with their links, and the output.
#![tactic(auto)]

pub mod objects_read;
pub mod output;
pub mod view;

pub use objects_read::{object, packed_count, real_link, virtual_link};
pub use output::copy_bytes;
pub use view::ObjectView;
