// A register that is a list of rows in order of number, and under one number by hash. A row is found by
// bisection. All memory is taken when it is made, so the rows are no map, which allocates at an entry.
#![tactic(auto)]

ghost use Rattle.std.specs.Prelude.{◌≤◌, vec_len, vec_capacity};
ghost use Rattle.register_list.specs.Rows.{Ordered};

mod calls;
mod row;

use row::Row;

#[derive(Drop)]
pub struct ListRegister {
    rows: Vec<Row>,
    capacity: usize,
    ghost sorted: { Ordered rows.items },
    ghost within: { vec_len rows ≤ capacity },
    ghost reserved: { capacity ≤ vec_capacity rows },
}
