// Lists of links in a fixed number of cells: each list is a chain of cells, and the free cells are one more.
#![tactic(auto)]

mod chains;
pub mod state;

pub use state::Links;
pub use state::iters::LinkIter;
