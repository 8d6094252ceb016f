// What a register is asked for, of the list.
ghost use Rattle.std.specs.Prelude.{◌≡◌, IfOk};
ghost use Rattle.register.specs.Pairs.{empty};
ghost use Rattle.register_list.specs.Meaning.{meaning};
ghost use Rattle.register_list.specs.Laws.{counted_rows};

use super::ListRegister;
use super::row::{Row, first_under, put};
use link::ObjIdx;
use register::Register;
use std::alloc::{AllocError, Global};

impl ListRegister {
    // An empty register, with memory for as many pairs as it may hold.
    pub fn new(heap: Global, capacity: usize) -> Result<ListRegister, AllocError>
        ensures register { IfOk result (λ s. meaning s ≡ empty capacity) }
    {
        let rows = Vec::with_capacity(heap, capacity)?;
        Ok(ListRegister { rows, capacity })
    }
}

impl Register for ListRegister {
    ghost holds = { meaning };

    ghost counted = { λ s. counted_rows s.rows.items s.rows.len s.capacity s.sorted s.rows.ok.0 s.within };

    fn enter(&mut self, hash: u64, number: ObjIdx) -> bool {
        let row = Row { number, hash };
        let Err(at) = self.find(row) else {
            return true;
        };
        if self.rows.len() == self.capacity {
            return false;
        }
        put(&mut self.rows, at, row);
        true
    }

    fn strike(&mut self, hash: u64, number: ObjIdx) {
        if let Ok(at) = self.find(Row { number, hash }) {
            self.rows.remove(at);
        }
    }

    fn next(&self, hash: u64, from: ObjIdx) -> Option<ObjIdx> {
        let at = self.place(Row { number: from, hash });
        first_under(&self.rows[at..], hash)
    }

    fn capacity(&self) -> usize {
        self.capacity
    }
}
