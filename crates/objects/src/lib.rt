// Objects in slots: those that are open, those that are packed, the slots released for reuse, and the links
// of each object.
#![tactic(auto)]

pub mod extents;
pub mod state;

pub use extents::{Extent, Outline, Which};
pub use state::Objects;
