// Going back: the open object discarded, and snapshots taken and reverted to.
#![tactic(auto)]

mod discards;
mod rewinds;
mod snapshots;

pub use discards::pop_discard;
pub use snapshots::{revert_snapshot, snapshot};
