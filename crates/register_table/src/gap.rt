// Taking a pair out of the cells so that none is left used for nothing: a pair whose search goes over the gap moves
// into it, and so on from the gap that it leaves. A search is then as long as the pairs that are held make it, whatever
// was held before.
ghost use Rattle.std.specs.Prelude.{◌≡◌, ℕ, ◌<◌, true, length, slice_index_or};
ghost use Rattle.register_table.specs.Cells.{full, filled, Reached};
ghost use Rattle.register_table.specs.Shift.{shifted, gap_after, Without};

use crate::cells::{Entry, distance, following, home};

// Takes the pair of a cell out. What the table says of itself does not hold while pairs move, so this is no method of
// it, and asks for what it needs of that.
pub(crate) fn vacate(cells: &mut [Option<Entry>], start: usize)
    requires within { start < length cells.old }
    requires held { full (slice_index_or cells.old start None) ≡ true }
    requires free { filled cells.old < length cells.old }
    requires reached { (k : ℕ) → Reached cells.old k }
    ensures pairs { Without cells.old start cells.new }
    ensures reached { (k : ℕ) → Reached cells.new k }
{
    let size = cells.len();
    // The cells are written while the walk reads them, so it is a loop and no iterator.
    let mut gap = start;
    let mut at = following(start, size);
    while let Some(e) = cells[at] {
        gap = shift(cells, gap, at, e);
        at = following(at, size);
    }
    cells[gap] = None;
}

// Moves the entry of the cell `at` into the gap if its search goes over it, and answers where the gap is then.
fn shift(cells: &mut [Option<Entry>], gap: usize, at: usize, e: Entry) -> usize
    requires { (gap < length cells.old) × (at < length cells.old) }
    ensures answer { result ≡ gap_after cells.old gap at e }
    ensures cells { cells.new ≡ shifted cells.old gap at e }
{
    let size = cells.len();
    if distance(gap, at, size) > distance(home(e.hash, size), at, size) {
        return gap;
    }
    cells[gap] = Some(e);
    at
}
