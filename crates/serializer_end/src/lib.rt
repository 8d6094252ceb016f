// Ending a serializer: the last object is closed, and the offsets of links are written into their fields.
#![tactic(auto)]

mod ends;
mod resolving;

pub use ends::end_serialize;
