// The search for a hash: it begins at the home of the hash, and goes from cell to cell up to a free one. The two
// searches walk the same way, but `seek` stops at a cell and answers its place, also where that is the free one, and
// `least` reads every entry and answers a number: one walk for both would hand a closure the place and the entry, and
// take from it a value and whether to stop, which is no plainer than the loops. As a chain of iterators, `least` would
// go over the cells from the home on and then over those before it: the order of the round would be said a second time,
// beside `following`, which `seek` and `vacate` need for their places, so that is no plainer either.
ghost use Rattle.std.specs.Prelude.{◌≡◌, ℕ};
ghost use Rattle.register.specs.Pairs.{Next, pairs_of};
ghost use Rattle.register_table.specs.Cells.{entries, Sought, better};

use crate::TableRegister;
use crate::cells::{Entry, following, home};
use link::ObjIdx;

impl TableRegister {
    // The cell of a pair. Where it is not held, `Err` has the free cell at which the search for it ends.
    pub(crate) fn seek(&self, entry: Entry) -> Result<usize, usize>
        ensures { Sought self.now.cells.items entry.hash entry.number.0 result }
    {
        let mut at = home(entry.hash, self.cells.len());
        while let Some(e) = self.cells[at] {
            if e == entry {
                return Ok(at);
            }
            at = following(at, self.cells.len());
        }
        Err(at)
    }

    // The least number held under the hash that is not below `from`.
    pub(crate) fn least(&self, hash: u64, from: ObjIdx) -> Option<ObjIdx>
        ensures { (room : ℕ) → Next (pairs_of (entries self.now.cells.items) room) hash from.0 result }
    {
        let mut best = None;
        let mut at = home(hash, self.cells.len());
        while let Some(e) = self.cells[at] {
            best = lesser(best, e, hash, from);
            at = following(at, self.cells.len());
        }
        best
    }
}

// The lesser of the best number so far and the entry's, if that is of the hash and not below `from`.
fn lesser(best: Option<ObjIdx>, e: Entry, hash: u64, from: ObjIdx) -> Option<ObjIdx>
    ensures { result ≡ better hash from.0 best e }
{
    if e.hash != hash || e.number < from {
        return best;
    }
    Some(best.map_or(e.number, |b| b.min(e.number)))
}
