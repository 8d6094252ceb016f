// The cells of a table, and the way round them.
ghost use Rattle.std.specs.Prelude.{◌≡◌, ◌%◌, ◌<◌};
ghost use Rattle.register_table.specs.Round.{ahead, far};

use link::ObjIdx;

// A pair that is held. A cell of the table has one, or is free.
#[derive(Clone, Copy, PartialEq, Eq)]
pub(crate) struct Entry {
    pub hash: u64,
    pub number: ObjIdx,
}

// The cell at which the search for a hash begins.
pub(crate) fn home(hash: u64, size: usize) -> usize
    requires { 0 < size }
    ensures answer { result ≡ hash % size }
    ensures within { result < size }
{
    (hash % size as u64) as usize
}

// The cell that follows: the first one follows the last.
pub(crate) fn following(at: usize, size: usize) -> usize
    requires { at < size }
    ensures answer { result ≡ ahead size at 1 }
    ensures within { result < size }
{
    if at + 1 < size { at + 1 } else { 0 }
}

// How many steps it is from one cell on to another.
pub(crate) fn distance(from: usize, to: usize, size: usize) -> usize
    requires { (from < size) × (to < size) }
    ensures { result ≡ far size from to }
{
    if from <= to {
        to - from
    } else {
        size - from + to
    }
}
