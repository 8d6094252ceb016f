// The offsets of links, measured between packed objects, and the fields that they are written into.
#![tactic(auto)]

pub mod measure;
pub mod passes;
pub mod walk;
pub mod writing;

pub use passes::write_fields;
