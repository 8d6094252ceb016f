// A register that is a table with linear probing: the search for a pair begins at the cell of its hash and goes from
// cell to cell, up to the pair or to a free cell. A cell is full only for a pair that is held, so that a search takes
// no step for what was struck. All memory is taken when it is made, so the cells are no map, which allocates at an entry.
#![tactic(auto)]

ghost use Rattle.std.specs.Prelude.{◌≡◌, ℕ, ◌<◌, ◌≤◌, vec_len};
ghost use Rattle.register_table.specs.Cells.{filled, times, Reached};

mod calls;
mod cells;
mod gap;
mod probe;

use cells::Entry;

#[derive(Drop)]
pub struct TableRegister {
    cells: Vec<Option<Entry>>,
    capacity: usize,
    count: usize,
    // No cell is free between the one at which the search for a pair begins and its own.
    ghost reached: { (k : ℕ) → Reached cells.items k },
    // No pair stands in two cells.
    ghost once: { (h n : ℕ) → times cells.items h n ≤ 1 },
    // A cell is full for each pair, and none for anything else.
    ghost counted: { count ≡ filled cells.items },
    // Some cell is free.
    ghost within: { count ≤ capacity },
    ghost larger: { capacity < vec_len cells },
}
