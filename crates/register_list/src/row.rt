// The rows of the list: their order, and how one is found, put in and read.
ghost use Rattle.std.specs.Prelude.{◌≡◌, ◌+◌, ◌<◌, ◌≤◌, vec_len, vec_capacity, MatchResult, ◌==◌};
ghost use Rattle.std.specs.List.{find, insert};
ghost use Rattle.std.specs.Option.{option_map};
ghost use Rattle.register_list.specs.Rows.{Found, Missing, Place};

use crate::ListRegister;
use link::ObjIdx;

// The number stands first, so that the derived order is the list's.
#[derive(Clone, Copy, PartialEq, Eq, PartialOrd, Ord)]
pub(crate) struct Row {
    pub(crate) number: ObjIdx,
    pub(crate) hash: u64,
}

impl ListRegister {
    // Where the row stands, or as an `Err` where it would.
    pub(crate) fn find(&self, row: Row) -> Result<usize, usize>
        ensures answer { MatchResult result (Found self.now.rows.items row) (Missing self.now.rows.items row) }
    {
        self.rows.binary_search(&row)
    }

    // Where the row stands, or would.
    pub(crate) fn place(&self, row: Row) -> usize
        ensures answer { Place self.now.rows.items row result }
    {
        self.find(row).unwrap_or_else(|at| at)
    }
}

// The number of the first row under the hash.
pub(crate) fn first_under(rows: &[Row], hash: u64) -> Option<ObjIdx>
    ensures answer { result ≡ option_map (λ row. row.number) (find (λ row. row.hash == hash) rows.now) }
{
    rows.iter()
        .find(|row| row.hash == hash)
        .map(|row| row.number)
}

// Puts a row in where there is capacity for it: nothing is allocated. It takes the vector, whose length grows.
pub(crate) fn put(rows: &mut Vec<Row>, at: usize, row: Row)
    requires within { at ≤ vec_len rows.old }
    requires reserved { vec_len rows.old < vec_capacity rows.old }
    ensures items { rows.new.items ≡ insert rows.old.items at row }
    ensures len { vec_len rows.new ≡ vec_len rows.old + 1 }
    ensures capacity { vec_capacity rows.new ≡ vec_capacity rows.old }
{
    let _ = rows.insert(at, row);
}
