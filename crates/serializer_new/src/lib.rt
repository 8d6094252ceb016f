// The memory that a serializer is given, and the state that it begins in.
#![tactic(auto)]

pub mod begins;
pub mod storage;

pub use begins::{begin, give_back};
pub use storage::Memory;
